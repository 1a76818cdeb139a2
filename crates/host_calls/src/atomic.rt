//! Atomic instructions: each is one access of the word at the address in a register.
ghost use Rattle.std.specs.Prelude.{◌≡◌, ◌<◌, ◌%◌, not, IfSome};
ghost use Rattle.rv_atomic.specs.Table.{InRange};
ghost use Rattle.cloak_model.specs.Csr.{satp_of};
ghost use Rattle.cloak_model.specs.Effect.{flag};
ghost use Rattle.cloak_model.specs.Ask as ask;
ghost use Rattle.cloak_model.specs.KernelStep as spec;
ghost use Rattle.step_parts.specs.Parts as parts;
ghost use Rattle.host_calls.specs.Stepping.{StepsOver};

use crate::hart::{Hart, access};
use crate::instruction::{go_on_with, raise};
use crate::ram::Ram;
use cloak_base::Kind;
use cloak_model::Kernel;
use rv_atomic::{Atomic, AtomicOp};

/// The cause of an address that is no multiple of 4.
fn misaligned(op: AtomicOp) -> u32
    ensures { result ≡ spec.misaligned op }
{
    match op {
        AtomicOp::Lr => 4,
        _ => 6,
    }
}

/// What SC puts into its register.
fn failure(is_stored: bool) -> u32
    ensures { result ≡ flag (not is_stored) }
{
    if is_stored { 0 } else { 1 }
}

/// The word where a load of this hart leads, which it reserves, or the cause of its fault.
fn reserved<M: Ram>(h: &Hart, va: u32, m: &mut M) -> Result<u32, u32>
    requires { va % 4 ≡ 0 }
    ensures { StepsOver M.Ram m.old m.new result
        (ask.ask_reserve (satp_of h.now.csrs) (spec.access h.now Kind.Load va) h.now.id) }
{
    m.reserve(h.csrs.satp(), access(h, Kind::Load, va), h.id)
}

/// Stores a word where a store of this hart leads, if it has reserved that word. Whether it was stored, or the cause of
/// its fault.
fn stored_conditionally<M: Ram>(h: &Hart, va: u32, value: u32, m: &mut M) -> Result<bool, u32>
    requires { va % 4 ≡ 0 }
    ensures { StepsOver M.Ram m.old m.new result
        (ask.ask_store_conditional (satp_of h.now.csrs) (spec.access h.now Kind.Store va) h.now.id value) }
{
    m.store_conditional(h.csrs.satp(), access(h, Kind::Store, va), h.id, value)
}

/// Stores what an operation makes of the word where a store of this hart leads. The word that stood there, or the cause
/// of its fault.
fn combined<M: Ram>(h: &Hart, op: AtomicOp, va: u32, operand: u32, m: &mut M) -> Result<u32, u32>
    requires { va % 4 ≡ 0 }
    ensures { StepsOver M.Ram m.old m.new result
        (ask.ask_combine (satp_of h.now.csrs) (spec.access h.now Kind.Store va) op operand) }
{
    m.combine(h.csrs.satp(), access(h, Kind::Store, va), op, operand)
}

fn reserve<M: Ram>(h: &mut Hart, rd: u32, va: u32, m: &mut M) -> Kernel
    requires register { rd < 32 }
    requires aligned { va % 4 ≡ 0 }
    ensures { StepsOver M.Ram m.old m.new (record { hart = h.new; ending = result })
        (parts.reserve_part h.old rd va) }
{
    match reserved(h, va, m) {
        Err(cause) => raise(h, cause, va),
        Ok(value) => go_on_with(h, rd, value),
    }
}

fn store_conditional<M: Ram>(h: &mut Hart, rd: u32, va: u32, value: u32, m: &mut M) -> Kernel
    requires register { rd < 32 }
    requires aligned { va % 4 ≡ 0 }
    ensures { StepsOver M.Ram m.old m.new (record { hart = h.new; ending = result })
        (parts.conditional_part h.old rd va value) }
{
    match stored_conditionally(h, va, value, m) {
        Err(cause) => raise(h, cause, va),
        Ok(is_stored) => go_on_with(h, rd, failure(is_stored)),
    }
}

fn combine<M: Ram>(h: &mut Hart, rd: u32, op: AtomicOp, va: u32, operand: u32, m: &mut M) -> Kernel
    requires register { rd < 32 }
    requires aligned { va % 4 ≡ 0 }
    ensures { StepsOver M.Ram m.old m.new (record { hart = h.new; ending = result })
        (parts.combine_part h.old rd op va operand) }
{
    match combined(h, op, va, operand, m) {
        Err(cause) => raise(h, cause, va),
        Ok(value) => go_on_with(h, rd, value),
    }
}

/// Makes the one access of an atomic instruction.
#[tactic(auto, unfolding(step_parts::specs::Parts::atomic_access_part))]
fn access_word<M: Ram>(
    h: &mut Hart,
    rd: u32,
    op: AtomicOp,
    va: u32,
    operand: u32,
    m: &mut M,
) -> Kernel
    requires register { rd < 32 }
    requires aligned { va % 4 ≡ 0 }
    ensures { StepsOver M.Ram m.old m.new (record { hart = h.new; ending = result })
        (parts.atomic_access_part h.old rd op va operand) }
{
    match op {
        AtomicOp::Lr => reserve(h, rd, va, m),
        AtomicOp::Sc => store_conditional(h, rd, va, operand, m),
        _ => combine(h, rd, op, va, operand, m),
    }
}

/// Makes the atomic instruction of a word; none is an illegal instruction. The address is tested before anything is asked,
/// and the operand is read before the register is written, which may be the same.
#[tactic(auto, using(step_parts::proofs::StepLater::laters), unfolding(step_parts::specs::Parts::atomic_part))]
pub fn execute_atomic<M: Ram>(h: &mut Hart, word: u32, a: Option<Atomic>, m: &mut M) -> Kernel
    requires { IfSome a InRange }
    ensures { StepsOver M.Ram m.old m.new (record { hart = h.new; ending = result })
        (parts.atomic_part h.old word a) }
{
    let Some(a) = a else {
        return raise(h, 2, word);
    };
    let va = h.regs.get(a.rs1);
    if va % 4 != 0 {
        return raise(h, misaligned(a.op), va);
    }
    let operand = h.regs.get(a.rs2);
    access_word(h, a.rd, a.op, va, operand, m)
}
