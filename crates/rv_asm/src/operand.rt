//! Operands: registers, numbers in a range, an offset with a register, and names.

ghost use Rattle.std.specs.Prelude.{◌≡◌, ◌<◌, ◌≤◌, ◌^◌, IfSome};
ghost use Rattle.rv_isa.specs.Range.{FitsSigned};
ghost use Rattle.rv_asm.specs.Words.{FindsAs};
ghost use Rattle.rv_asm.specs.Statements.{three, register_operand, number_operand, unsigned, immediate, modular};
ghost use Rattle.rv_asm.specs.Statements.{unsigned_operand, immediate_operand, modular_operand, memory_operand};
ghost use Rattle.rv_asm.specs.Statements.{base_operand, name_operand};

use crate::words::{Numeral, cut, is_name, number, register, sole_word};

/// The texts of three operands.
#[tactic(auto, unfolding(crate::specs::Statements::three))]
pub fn three(text: &[u8]) -> Option<(&[u8], &[u8], &[u8])>
    ensures { FindsAs (λ x. (x.0.now, x.1.now, x.2.now)) result (three text.now) }
{
    let (a, rest) = cut(text, b',')?;
    let (b, c) = cut(rest, b',')?;
    Some((a, b, c))
}

#[tactic(auto, unfolding(crate::specs::Statements::register_operand))]
pub fn register_operand(text: &[u8]) -> Option<u32>
    ensures value { result ≡ register_operand text.now }
    ensures range { IfSome result (λ r. r < 32) }
{
    register(sole_word(text)?)
}

#[tactic(auto, unfolding(crate::specs::Statements::number_operand))]
fn number_operand(text: &[u8]) -> Option<Numeral>
    ensures { result ≡ number_operand text.now }
{
    number(sole_word(text)?)
}

/// The number, if it is from 0 to below the limit.
#[tactic(auto, unfolding(crate::specs::Statements::unsigned))]
fn unsigned(limit: u32, n: Numeral) -> Option<u32>
    ensures value { result ≡ unsigned limit n }
    ensures range { IfSome result (λ m. m < limit) }
{
    if (!n.negative || n.magnitude == 0) && n.magnitude < limit {
        Some(n.magnitude)
    } else {
        None
    }
}

/// The number, if it is from -2048 to 2047.
#[tactic(auto, unfolding(crate::specs::Statements::immediate))]
fn immediate(n: Numeral) -> Option<i32>
    ensures value { result ≡ immediate n }
    ensures range { IfSome result (λ i. FitsSigned 12 i) }
{
    if n.negative {
        if n.magnitude <= 2048 {
            Some(-(n.magnitude as i32))
        } else {
            None
        }
    } else if n.magnitude < 2048 {
        Some(n.magnitude as i32)
    } else {
        None
    }
}

/// The number modulo 2^32, if it is from -2^31 on.
#[tactic(auto, unfolding(crate::specs::Statements::modular))]
fn modular(n: Numeral) -> Option<u32>
    ensures { result ≡ modular n }
{
    if n.negative {
        if n.magnitude <= 1 << 31 {
            Some((((1u64 << 32) - u64::from(n.magnitude)) % (1 << 32)) as u32)
        } else {
            None
        }
    } else {
        Some(n.magnitude)
    }
}

#[tactic(auto, unfolding(crate::specs::Statements::unsigned_operand))]
pub fn unsigned_operand(limit: u32, text: &[u8]) -> Option<u32>
    ensures value { result ≡ unsigned_operand limit text.now }
    ensures range { IfSome result (λ m. m < limit) }
{
    unsigned(limit, number_operand(text)?)
}

#[tactic(auto, unfolding(crate::specs::Statements::immediate_operand))]
pub fn immediate_operand(text: &[u8]) -> Option<i32>
    ensures value { result ≡ immediate_operand text.now }
    ensures range { IfSome result (λ i. FitsSigned 12 i) }
{
    immediate(number_operand(text)?)
}

#[tactic(auto, unfolding(crate::specs::Statements::modular_operand))]
pub fn modular_operand(text: &[u8]) -> Option<u32>
    ensures { result ≡ modular_operand text.now }
{
    modular(number_operand(text)?)
}

/// An offset and a register, as `4(x2)`.
#[tactic(auto, unfolding(crate::specs::Statements::memory_operand))]
pub fn memory_operand(text: &[u8]) -> Option<(i32, u32)>
    ensures value { result ≡ memory_operand text.now }
    ensures offset { IfSome result (λ m. FitsSigned 12 m.0) }
    ensures base { IfSome result (λ m. m.1 < 32) }
{
    let (offset, base) = cut(sole_word(text)?, b'(')?;
    let (base, rest) = cut(base, b')')?;
    let imm = immediate(number(offset)?)?;
    let rs1 = register(base)?;
    if rest.is_empty() {
        Some((imm, rs1))
    } else {
        None
    }
}

/// A register alone as an address, as `(x5)`.
#[tactic(auto, unfolding(crate::specs::Statements::base_operand))]
pub fn base_operand(text: &[u8]) -> Option<u32>
    ensures value { result ≡ base_operand text.now }
    ensures range { IfSome result (λ r. r < 32) }
{
    let (front, base) = cut(sole_word(text)?, b'(')?;
    let (base, rest) = cut(base, b')')?;
    let rs1 = register(base)?;
    if front.is_empty() && rest.is_empty() {
        Some(rs1)
    } else {
        None
    }
}

#[tactic(auto, unfolding(crate::specs::Statements::name_operand))]
pub fn name_operand(text: &[u8]) -> Option<&[u8]>
    ensures { FindsAs (λ x. x.now) result (name_operand text.now) }
{
    let name = sole_word(text)?;
    if is_name(name) { Some(name) } else { None }
}
