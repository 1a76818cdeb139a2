//! The fields and the immediates of a word.

ghost use Rattle.std.specs.Prelude.{◌≡◌, ◌+◌, ◌≤◌, ◌<◌, ◌^◌, ◌*◌, ◌-◌, ◌/◌, ◌%◌};
ghost use Rattle.rv_isa.specs.Fields as spec;
ghost use Rattle.rv_isa.specs.Range.{FitsSigned, IsEven};

/// The bits from `high` down to `low`, as a number.
#[inline]
pub fn bits(word: u32, high: u32, low: u32) -> u32
    requires order { low ≤ high }
    requires within { high < 32 }
    requires part { high - low < 31 }
    ensures value { result ≡ spec.bits word high low }
    ensures below { result < 2 ^ (high + 1 - low) }
{
    (word >> low) & ((1 << (high + 1 - low)) - 1)
}

/// A number of `count` bits as a signed number, by its highest bit.
#[inline]
pub fn sign_extended(n: u32, count: u32) -> i32
    requires some { 1 ≤ count }
    requires few { count < 31 }
    requires below { n < 2 ^ count }
    ensures value { result ≡ spec.sign_extended count n }
    ensures fits { FitsSigned count result }
    ensures even { n % 2 ≡ 0 → IsEven result }
{
    if n < 1 << (count - 1) {
        n as i32
    } else {
        n as i32 - (1 << count)
    }
}

#[inline]
pub fn imm_i(word: u32) -> i32
    ensures value { result ≡ spec.imm_i word }
    ensures fits { FitsSigned 12 result }
{
    sign_extended(bits(word, 31, 20), 12)
}

#[inline]
pub fn imm_s(word: u32) -> i32
    ensures value { result ≡ spec.imm_s word }
    ensures fits { FitsSigned 12 result }
{
    sign_extended((bits(word, 31, 25) << 5) + bits(word, 11, 7), 12)
}

#[inline]
pub fn imm_b(word: u32) -> i32
    ensures value { result ≡ spec.imm_b word }
    ensures fits { FitsSigned 13 result }
    ensures even { IsEven result }
{
    sign_extended(
        (bits(word, 31, 31) << 12)
            + (bits(word, 7, 7) << 11)
            + (bits(word, 30, 25) << 5)
            + (bits(word, 11, 8) << 1),
        13,
    )
}

#[inline]
pub fn imm_u(word: u32) -> u32
    ensures value { result ≡ spec.imm_u word }
    ensures whole { result % 4096 ≡ 0 }
{
    bits(word, 31, 12) << 12
}

#[inline]
pub fn imm_j(word: u32) -> i32
    ensures value { result ≡ spec.imm_j word }
    ensures fits { FitsSigned 21 result }
    ensures even { IsEven result }
{
    sign_extended(
        (bits(word, 31, 31) << 20)
            + (bits(word, 19, 12) << 12)
            + (bits(word, 20, 20) << 11)
            + (bits(word, 30, 21) << 1),
        21,
    )
}

/// The word without its opcode and funct3, all other bits in their places.
#[inline]
pub fn rest(word: u32) -> u32
    ensures value { result ≡ spec.rest_of word }
    ensures opcode { result % 2 ^ 7 ≡ 0 }
    ensures funct3 { result / 2 ^ 12 % 2 ^ 3 ≡ 0 }
{
    (bits(word, 31, 15) << 15) + (bits(word, 11, 7) << 7)
}
