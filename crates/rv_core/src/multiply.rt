//! The extension M.

ghost use Rattle.std.specs.Prelude.{◌≡◌, ◌*◌, ◌*ℤ◌, pos};
ghost use Rattle.std.specs.Int.{int_shr};
ghost use Rattle.cloak_model.specs.Effect as model;

#[inline]
pub fn product(a: u32, b: u32) -> u32
    ensures { result ≡ model.low_product a b }
{
    a.wrapping_mul(b)
}

#[inline]
fn signed_product(a: i32, b: i32) -> i64
    ensures { result ≡ a *ℤ b }
{
    a as i64 * b as i64
}

/// The product of a signed and an unsigned word.
#[inline]
fn mixed_product(a: i32, b: u32) -> i64
    ensures { result ≡ a *ℤ pos b }
{
    a as i64 * b as i64
}

#[inline]
fn unsigned_product(a: u32, b: u32) -> u64
    ensures { result ≡ a * b }
{
    a as u64 * b as u64
}

/// The upper word of a signed product.
#[inline]
fn upper(product: i64) -> i32
    ensures { result ≡ int_shr product 32 }
{
    (product >> 32) as i32
}

#[inline]
pub fn high_product(a: u32, b: u32) -> u32
    ensures { result ≡ model.high_product a b }
{
    upper(signed_product(a.cast_signed(), b.cast_signed())).cast_unsigned()
}

#[inline]
pub fn high_product_mixed(a: u32, b: u32) -> u32
    ensures { result ≡ model.high_product_mixed a b }
{
    upper(mixed_product(a.cast_signed(), b)).cast_unsigned()
}

#[inline]
pub fn high_product_unsigned(a: u32, b: u32) -> u32
    ensures { result ≡ model.high_product_unsigned a b }
{
    (unsigned_product(a, b) >> 32) as u32
}

#[inline]
pub fn quotient(a: u32, b: u32) -> u32
    ensures { result ≡ model.quotient a b }
{
    if b == 0 {
        u32::MAX
    } else if a == 0x8000_0000 && b == u32::MAX {
        a
    } else {
        (a.cast_signed() / b.cast_signed()).cast_unsigned()
    }
}

#[inline]
pub fn quotient_unsigned(a: u32, b: u32) -> u32
    ensures { result ≡ model.quotient_unsigned a b }
{
    if b == 0 { u32::MAX } else { a / b }
}

#[inline]
pub fn remainder(a: u32, b: u32) -> u32
    ensures { result ≡ model.remainder a b }
{
    if b == 0 {
        a
    } else if a == 0x8000_0000 && b == u32::MAX {
        0
    } else {
        (a.cast_signed() % b.cast_signed()).cast_unsigned()
    }
}

#[inline]
pub fn remainder_unsigned(a: u32, b: u32) -> u32
    ensures { result ≡ model.remainder_unsigned a b }
{
    if b == 0 { a } else { a % b }
}
