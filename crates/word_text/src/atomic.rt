//! Atomic instructions as text.
ghost use Rattle.std.specs.Prelude.{◌≡◌, ◌≤◌, ◌<◌, length};
ghost use Rattle.arrayvec.specs.ArrayVec.{array_vec_len};
ghost use Rattle.rv_atomic.specs.Table.{InRange};
ghost use Rattle.word_text.specs.Text as spec;

use crate::WordText;
use crate::pieces::{add, add_base, add_register, begun};
use rv_atomic::{Atomic, AtomicOp};

fn atomic_name(op: AtomicOp) -> &'static [u8]
    ensures value { result.now ≡ spec.atomic_name op }
    ensures short { length result.now ≤ 7 }
{
    match op {
        AtomicOp::Lr => b"lr",
        AtomicOp::Sc => b"sc",
        AtomicOp::Swap => b"amoswap",
        AtomicOp::Add => b"amoadd",
        AtomicOp::Xor => b"amoxor",
        AtomicOp::And => b"amoand",
        AtomicOp::Or => b"amoor",
        AtomicOp::Min => b"amomin",
        AtomicOp::Max => b"amomax",
        AtomicOp::Minu => b"amominu",
        AtomicOp::Maxu => b"amomaxu",
    }
}

/// The width of a word, and the bits `aq` and `rl`.
fn atomic_suffix(order: u32) -> &'static [u8]
    ensures value { result.now ≡ spec.atomic_suffix order }
    ensures short { length result.now ≤ 7 }
{
    match order {
        0b00 => b".w",
        0b01 => b".w.rl",
        0b10 => b".w.aq",
        _ => b".w.aqrl",
    }
}

/// The mnemonic of an operation.
fn mnemonic(op: AtomicOp, order: u32) -> WordText
    ensures value { result.items ≡ spec.mnemonic op order }
    ensures short { array_vec_len result ≤ 14 }
{
    let mut text = WordText::new();
    add(&mut text, atomic_name(op));
    add(&mut text, atomic_suffix(order));
    text
}

/// LR, which has no operand but the address.
fn reserve_text(order: u32, rd: u32, rs1: u32) -> WordText
    requires rd { rd < 32 }
    requires rs1 { rs1 < 32 }
    ensures { result.items ≡ spec.reserve_text order rd rs1 }
{
    let name = mnemonic(AtomicOp::Lr, order);
    let mut text = begun(name.as_slice());
    add_register(&mut text, rd);
    add(&mut text, b", ");
    add_base(&mut text, rs1);
    text
}

/// SC, or an operation.
fn combine_text(op: AtomicOp, order: u32, rd: u32, rs1: u32, rs2: u32) -> WordText
    requires rd { rd < 32 }
    requires rs1 { rs1 < 32 }
    requires rs2 { rs2 < 32 }
    ensures { result.items ≡ spec.combine_text op order rd rs1 rs2 }
{
    let name = mnemonic(op, order);
    let mut text = begun(name.as_slice());
    add_register(&mut text, rd);
    add(&mut text, b", ");
    add_register(&mut text, rs2);
    add(&mut text, b", ");
    add_base(&mut text, rs1);
    text
}

/// An atomic instruction.
pub fn atomic_text(a: &Atomic) -> WordText
    requires { InRange a.now }
    ensures { result.items ≡ spec.atomic_text a.now }
{
    match a.op {
        AtomicOp::Lr => reserve_text(a.order, a.rd, a.rs1),
        _ => combine_text(a.op, a.order, a.rd, a.rs1, a.rs2),
    }
}
