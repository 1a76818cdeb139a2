//! Atomic instructions: their mnemonics, their operands and their words.

ghost use Rattle.std.specs.Prelude.{◌≡◌, ◌≢◌, ◌<◌, IfSome, Some};
ghost use Rattle.rv_isa.specs.Fields as fields;
ghost use Rattle.rv_atomic.specs.Table as table;
ghost use Rattle.rv_asm.specs.Atomics.{funct5_of};
ghost use Rattle.rv_asm.specs.Operations.{atomic_name, atomic_order, atomic, IsInRange};
ghost use Rattle.rv_asm.specs.Statements.{reserve_form, combine_form, atomic_form, IsAtomicInRange};

use crate::operand::{base_operand, register_operand, three};
use crate::operation::Operation;
use crate::words::cut;
use rv_atomic::{Atomic, AtomicOp};

/// The operation, by what stands before the first point.
#[tactic(auto, unfolding(crate::specs::Operations::atomic_name))]
fn atomic_name(word: &[u8]) -> Option<AtomicOp>
    ensures { result ≡ atomic_name word.now }
{
    if word == b"lr".as_slice() {
        Some(AtomicOp::Lr)
    } else if word == b"sc".as_slice() {
        Some(AtomicOp::Sc)
    } else if word == b"amoswap".as_slice() {
        Some(AtomicOp::Swap)
    } else if word == b"amoadd".as_slice() {
        Some(AtomicOp::Add)
    } else if word == b"amoxor".as_slice() {
        Some(AtomicOp::Xor)
    } else if word == b"amoand".as_slice() {
        Some(AtomicOp::And)
    } else if word == b"amoor".as_slice() {
        Some(AtomicOp::Or)
    } else if word == b"amomin".as_slice() {
        Some(AtomicOp::Min)
    } else if word == b"amomax".as_slice() {
        Some(AtomicOp::Max)
    } else if word == b"amominu".as_slice() {
        Some(AtomicOp::Minu)
    } else if word == b"amomaxu".as_slice() {
        Some(AtomicOp::Maxu)
    } else {
        None
    }
}

/// The bits `aq` and `rl`, by what stands after the first point.
#[tactic(auto, unfolding(crate::specs::Operations::atomic_order))]
fn atomic_order(word: &[u8]) -> Option<u32>
    ensures value { result ≡ atomic_order word.now }
    ensures range { IfSome result (λ order. order < 4) }
{
    if word == b"w".as_slice() {
        Some(0b00)
    } else if word == b"w.rl".as_slice() {
        Some(0b01)
    } else if word == b"w.aq".as_slice() {
        Some(0b10)
    } else if word == b"w.aqrl".as_slice() {
        Some(0b11)
    } else {
        None
    }
}

/// What a word asks for, if it is the mnemonic of an atomic instruction.
#[tactic(auto, unfolding(crate::specs::Operations::atomic))]
pub fn atomic(word: &[u8]) -> Option<Operation>
    ensures value { result ≡ atomic word.now }
    ensures range { IfSome result IsInRange }
{
    let (name, order) = cut(word, b'.')?;
    let op = atomic_name(name)?;
    let order = atomic_order(order)?;
    Some(Operation::Atomic { op, order })
}

/// LR, which has no second operand.
#[tactic(auto, unfolding(crate::specs::Statements::reserve_form))]
fn reserve_form(order: u32, text: &[u8]) -> Option<Atomic>
    requires { order < 4 }
    ensures value { result ≡ reserve_form order text.now }
    ensures range { IfSome result IsAtomicInRange }
{
    let (rd, rs1) = cut(text, b',')?;
    let rd = register_operand(rd)?;
    let rs1 = base_operand(rs1)?;
    Some(Atomic {
        op: AtomicOp::Lr,
        rd,
        rs1,
        rs2: 0,
        order,
    })
}

/// SC, or an operation.
#[tactic(auto, unfolding(crate::specs::Statements::combine_form))]
fn combine_form(op: AtomicOp, order: u32, text: &[u8]) -> Option<Atomic>
    requires operation { op ≢ AtomicOp.Lr }
    requires order { order < 4 }
    ensures value { result ≡ combine_form op order text.now }
    ensures range { IfSome result IsAtomicInRange }
{
    let (rd, rs2, rs1) = three(text)?;
    let rd = register_operand(rd)?;
    let rs2 = register_operand(rs2)?;
    let rs1 = base_operand(rs1)?;
    Some(Atomic {
        op,
        rd,
        rs1,
        rs2,
        order,
    })
}

#[tactic(auto, unfolding(crate::specs::Statements::atomic_form))]
pub fn atomic_form(op: AtomicOp, order: u32, text: &[u8]) -> Option<Atomic>
    requires { order < 4 }
    ensures value { result ≡ atomic_form op order text.now }
    ensures range { IfSome result IsAtomicInRange }
{
    match op {
        AtomicOp::Lr => reserve_form(order, text),
        _ => combine_form(op, order, text),
    }
}

/// The bits 31 to 27 of the words of an operation.
fn funct5(op: AtomicOp) -> u32
    ensures value { result ≡ funct5_of op }
    ensures below { result < 32 }
{
    match op {
        AtomicOp::Lr => 0b00010,
        AtomicOp::Sc => 0b00011,
        AtomicOp::Swap => 0b00001,
        AtomicOp::Add => 0b00000,
        AtomicOp::Xor => 0b00100,
        AtomicOp::And => 0b01100,
        AtomicOp::Or => 0b01000,
        AtomicOp::Min => 0b10000,
        AtomicOp::Max => 0b10100,
        AtomicOp::Minu => 0b11000,
        AtomicOp::Maxu => 0b11100,
    }
}

/// A word of its fields.
fn atomic_word(funct5: u32, order: u32, rs2: u32, rs1: u32, rd: u32) -> u32
    requires funct5 { funct5 < 32 }
    requires order { order < 4 }
    requires rs2 { rs2 < 32 }
    requires rs1 { rs1 < 32 }
    requires rd { rd < 32 }
    ensures opcode { fields.opcode result ≡ 0b0101111 }
    ensures rd { fields.rd_of result ≡ rd }
    ensures funct3 { fields.funct3 result ≡ 0b010 }
    ensures rs1 { fields.rs1_of result ≡ rs1 }
    ensures rs2 { fields.rs2_of result ≡ rs2 }
    ensures order { table.order_of result ≡ order }
    ensures funct5 { table.funct5 result ≡ funct5 }
{
    0b010_1111
        + (rd << 7)
        + (0b010 << 12)
        + (rs1 << 15)
        + (rs2 << 20)
        + (order << 25)
        + (funct5 << 27)
}

/// The word of an atomic instruction.
pub fn encode_atomic(a: &Atomic) -> u32
    requires { IsAtomicInRange a.now }
    ensures { table.atomic_instruction result ≡ Some a.now }
{
    atomic_word(funct5(a.op), a.order, a.rs2, a.rs1, a.rd)
}
