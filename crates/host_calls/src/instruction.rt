//! The instructions that reach no memory and are decided by the mode and the control and status registers, and
//! traps.
ghost use Rattle.std.specs.Prelude.{◌≡◌, ◌<◌, bit_or, None, Some, if◌then◌else◌};
ghost use Rattle.rv_isa.specs.Range.{InRange};
ghost use Rattle.cloak_model.specs.HartStep as spec;

use crate::hart::Hart;
use cloak_base::Mode;
use cloak_model::Kernel;
use rv_isa::Instr;

/// Goes on at the next instruction.
pub fn go_on(h: &mut Hart) -> Kernel
    ensures { record { hart = h.new; ending = result } ≡ spec.stays (spec.gone_on h.old) }
{
    h.pc = h.pc.wrapping_add(4);
    Kernel::Stay
}

/// Goes on at the next instruction with a register's word.
pub fn go_on_with(h: &mut Hart, rd: u32, value: u32) -> Kernel
    requires { rd < 32 }
    ensures { record { hart = h.new; ending = result } ≡ spec.stays (spec.gone_on (spec.with_word h.old rd value)) }
{
    h.regs.set(rd, value);
    go_on(h)
}

/// Takes a trap.
#[tactic(auto, unfolding(cloak_model::specs::HartStep::raised))]
pub fn raise(h: &mut Hart, cause: u32, tval: u32) -> Kernel
    ensures { record { hart = h.new; ending = result } ≡ spec.raised h.old cause tval }
{
    h.pc = h.csrs.enter_trap(h.mode, cause, tval, h.pc);
    h.mode = Mode::S;
    Kernel::Trapped
}

#[tactic(auto, unfolding(cloak_model::specs::HartStep::csr_written))]
fn write_csr(h: &mut Hart, rd: u32, n: u32, was: u32, new: Option<u32>) -> Kernel
    requires { rd < 32 }
    ensures { record { hart = h.new; ending = result } ≡ spec.csr_written h.old rd n was new }
{
    if let Some(new) = new {
        h.csrs.write(n, new);
    }
    go_on_with(h, rd, was)
}

#[tactic(auto, unfolding(cloak_model::specs::HartStep::csr_step, cloak_model::specs::HartStep::csr_found))]
fn csr_step(h: &mut Hart, word: u32, rd: u32, n: u32, new: Option<u32>) -> Kernel
    requires { rd < 32 }
    ensures { record { hart = h.new; ending = result } ≡ spec.csr_step h.old.mode h.old word rd n new }
{
    match h.mode {
        Mode::U => raise(h, 2, word),
        Mode::S => match h.csrs.read(n) {
            None => raise(h, 2, word),
            Some(was) => write_csr(h, rd, n, was, new),
        },
    }
}

/// The word of a control and status register, 0 if there is none.
fn csr_now(h: &Hart, n: u32) -> u32
    ensures { result ≡ spec.csr_now h.now n }
{
    h.csrs.read(n).unwrap_or(0)
}

#[tactic(auto, unfolding(cloak_model::specs::HartStep::returned, cloak_model::specs::Csr::trap_return))]
fn return_from_trap(h: &mut Hart, word: u32) -> Kernel
    ensures { record { hart = h.new; ending = result } ≡ spec.returned h.old.mode h.old word }
{
    match h.mode {
        Mode::U => raise(h, 2, word),
        Mode::S => {
            let (pc, mode) = h.csrs.leave_trap();
            h.pc = pc;
            h.mode = mode;
            Kernel::Stay
        }
    }
}

#[tactic(auto, unfolding(cloak_model::specs::HartStep::idle))]
fn idle(h: &mut Hart, word: u32) -> Kernel
    ensures { record { hart = h.new; ending = result } ≡ spec.idle h.old.mode h.old word }
{
    match h.mode {
        Mode::U => raise(h, 2, word),
        Mode::S => go_on(h),
    }
}

/// What an instruction that sets bits writes to a control and status register: nothing if its operand is named as none.
fn bits_set(h: &Hart, n: u32, none: bool, bits: u32) -> Option<u32>
    ensures { result ≡ (if none then None else Some (bit_or (spec.csr_now h.now n) bits)) }
{
    if none {
        return None;
    }
    Some(csr_now(h, n) | bits)
}

/// The same of one that clears bits.
fn bits_cleared(h: &Hart, n: u32, none: bool, bits: u32) -> Option<u32>
    ensures { result ≡ (if none then None else Some (spec.cleared (spec.csr_now h.now n) bits)) }
{
    if none {
        return None;
    }
    Some(csr_now(h, n) & (u32::MAX - bits))
}

/// Makes an instruction that this word spells, all but the ecall.
#[tactic(auto, unfolding(cloak_model::specs::HartStep::system))]
pub fn system(h: &mut Hart, word: u32, i: &Instr) -> Kernel
    requires { InRange i.now }
    ensures { record { hart = h.new; ending = result } ≡ spec.system h.old word i.now }
{
    match *i {
        Instr::Csrrw { rd, rs1, csr } => {
            let new = Some(h.regs.get(rs1));
            csr_step(h, word, rd, csr, new)
        }
        Instr::Csrrs { rd, rs1, csr } => {
            let new = bits_set(h, csr, rs1 == 0, h.regs.get(rs1));
            csr_step(h, word, rd, csr, new)
        }
        Instr::Csrrc { rd, rs1, csr } => {
            let new = bits_cleared(h, csr, rs1 == 0, h.regs.get(rs1));
            csr_step(h, word, rd, csr, new)
        }
        Instr::Csrrwi { rd, uimm, csr } => csr_step(h, word, rd, csr, Some(uimm)),
        Instr::Csrrsi { rd, uimm, csr } => {
            let new = bits_set(h, csr, uimm == 0, uimm);
            csr_step(h, word, rd, csr, new)
        }
        Instr::Csrrci { rd, uimm, csr } => {
            let new = bits_cleared(h, csr, uimm == 0, uimm);
            csr_step(h, word, rd, csr, new)
        }
        Instr::Ebreak => raise(h, 3, 0),
        Instr::Sret => return_from_trap(h, word),
        Instr::Wfi | Instr::SfenceVma { .. } => idle(h, word),
        _ => raise(h, 2, word),
    }
}
