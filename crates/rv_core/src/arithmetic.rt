//! Sums, comparisons and shifts of words.

ghost use Rattle.std.specs.Prelude.{◌≡◌, ◌<◌};
ghost use Rattle.cloak_model.specs.Effect as model;

/// The word at a sign-extended immediate from a base.
#[inline]
pub fn offset(base: u32, imm: i32) -> u32
    ensures { result ≡ model.offset base imm }
{
    base.wrapping_add(imm.cast_unsigned())
}

#[inline]
pub fn flag(b: bool) -> u32
    ensures { result ≡ model.flag b }
{
    if b { 1 } else { 0 }
}

#[inline]
pub fn difference(a: u32, b: u32) -> u32
    ensures { result ≡ model.difference a b }
{
    a.wrapping_sub(b)
}

/// A comparison of signed numbers.
#[inline]
pub fn is_less(a: u32, b: u32) -> bool
    ensures { result ≡ model.is_less a b }
{
    a.cast_signed() < b.cast_signed()
}

/// The shift amount in a register.
#[inline]
pub fn shift_amount(b: u32) -> u32
    ensures value { result ≡ model.shift_amount b }
    ensures below { result < 32 }
{
    b % 32
}

#[inline]
pub fn shifted_left(a: u32, k: u32) -> u32
    requires { k < 32 }
    ensures { result ≡ model.shifted_left a k }
{
    a << k
}

#[inline]
pub fn shifted_right(a: u32, k: u32) -> u32
    requires { k < 32 }
    ensures { result ≡ model.shifted_right a k }
{
    a >> k
}

#[inline]
pub fn shifted_right_signed(a: u32, k: u32) -> u32
    requires { k < 32 }
    ensures { result ≡ model.shifted_right_signed a k }
{
    (a.cast_signed() >> k).cast_unsigned()
}
