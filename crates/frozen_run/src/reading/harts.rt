//! The harts of a frozen state.
ghost use Rattle.std.specs.Prelude.{◌≡◌, ◌+◌, ◌%◌, ◌==◌, ◌≤◌, ◌∷◌, [], length, IfOk, OnOk};
ghost use Rattle.cloak_model.specs.Fields as spec;
ghost use Rattle.cloak_model.specs.Fields.{fault_in, first_in, parts, after_parts};
ghost use Rattle.frozen_state.specs.Ranges as ranges;
ghost use Rattle.frozen_state.specs.Ranges.{has_only, kept_bits};
ghost use Rattle.frozen_state.specs.FrozenFault as format;
ghost use Rattle.frozen_state.specs.FrozenFault.{any_in, ruled_in, csr_fields, mark_fields, hart_fields, after_maybe, after_hart};
ghost use Rattle.field_facts.specs.Faults.{fault_of};
ghost use Rattle.frozen_run.specs.Reading.{TellsFirst, values, after_word, maybe_in, mode_in, hart_in};

use super::fields::{byte_below, maybe_word, word};
use cloak_base::{Mode, RAM_START, Regs, ram_end};
use frozen_state::{FrozenFault, FrozenHart};
use std::alloc::Global;

/// The bits that are kept of each control and status register.
const KEPT: [u32; 9] = [
    0x000c_0122,
    0x0000_0020,
    0xffff_fffc,
    0xffff_ffff,
    0xffff_fffc,
    0xffff_ffff,
    0xffff_ffff,
    0x0000_0020,
    0xffff_ffff,
];

/// The mode of a hart.
fn mode(body: &[u8], at: usize) -> Result<Mode, FrozenFault>
    requires { at ≤ length body.now }
    ensures fault { fault_of result ≡ fault_in body.now (format.byte_below body.now at 2) }
    ensures value { IfOk result (λ m. m ≡ mode_in body.now at) }
    ensures inside { OnOk result (at + 1 ≤ length body.now) }
{
    if byte_below(body, at, 2)? == 0 {
        Ok(Mode::U)
    } else {
        Ok(Mode::S)
    }
}

/// A program counter: a multiple of 4.
fn pc(body: &[u8], at: usize) -> Result<u32, FrozenFault>
    requires { at ≤ length body.now }
    ensures fault { fault_of result ≡ fault_in body.now (ruled_in body.now at 4 (spec.number body.now at % 4 == 0)) }
    ensures value { IfOk result (λ n. n ≡ spec.number body.now at) }
    ensures inside { OnOk result (at + 4 ≤ length body.now) }
{
    let n = word(body, at)?;
    if n % 4 != 0 {
        return Err(FrozenFault::Form(at as u64));
    }
    Ok(n)
}

/// The registers, of which the first is no field.
#[tactic(auto, unfolding(cloak_base::specs::Registers::zero_registers))]
fn registers(body: &[u8], from: usize) -> Result<Regs, FrozenFault>
    requires { from ≤ length body.now }
    ensures fault { fault_of result ≡ first_in body.now (parts (λ at. any_in body.now at 4 ∷ []) after_word 31 from) }
    ensures value { IfOk result (λ regs. regs ≡ 0 ∷ values (spec.number body.now) after_word 31 from) }
    ensures inside { OnOk result (from + 124 ≤ length body.now) }
{
    let mut regs = Regs::zero();
    let mut at = from;
    for i in 1..32 {
        regs.set(i, word(body, at)?);
        at += 4;
    }
    Ok(regs)
}

/// A control and status register, which has no bits but these.
fn csr(body: &[u8], at: usize, bits: u32) -> Result<u32, FrozenFault>
    requires { at ≤ length body.now }
    ensures fault { fault_of result ≡ fault_in body.now
        (ruled_in body.now at 4 (has_only bits (spec.number body.now at))) }
    ensures value { IfOk result (λ n. n ≡ spec.number body.now at) }
    ensures inside { OnOk result (at + 4 ≤ length body.now) }
{
    let n = word(body, at)?;
    if n & bits != n {
        return Err(FrozenFault::Form(at as u64));
    }
    Ok(n)
}

/// The control and status registers.
fn csrs(body: &[u8], from: usize) -> Result<[u32; 9], FrozenFault>
    requires { from ≤ length body.now }
    ensures fault { fault_of result ≡ first_in body.now (csr_fields body.now kept_bits from) }
    ensures value { IfOk result (λ csrs. csrs ≡ values (spec.number body.now) after_word 9 from) }
    ensures inside { OnOk result (from + 36 ≤ length body.now) }
{
    let mut csrs = [0; 9];
    let mut at = from;
    for i in 0..9 {
        csrs[i] = csr(body, at, KEPT[i])?;
        at += 4;
    }
    Ok(csrs)
}

/// The address of a word in RAM.
fn is_word_in_ram(frames: u32, pa: u32) -> bool
    ensures { result ≡ ranges.is_word_in_ram frames pa }
{
    pa % 4 == 0 && RAM_START <= pa && (pa as u64) < ram_end(frames)
}

/// The word that a hart has reserved, if there is one, and the offset after it.
fn mark(body: &[u8], at: usize, frames: u32) -> Result<(Option<u32>, usize), FrozenFault>
    requires { at ≤ length body.now }
    ensures fault { fault_of result ≡ first_in body.now (mark_fields body.now frames at) }
    ensures value { IfOk result (λ m. m.0 ≡ maybe_in body.now at) }
    ensures next { IfOk result (λ m. m.1 ≡ after_maybe body.now at) }
    ensures inside { IfOk result (λ m. m.1 ≤ length body.now) }
{
    if byte_below(body, at, 2)? == 1 {
        let address = word(body, at + 1)?;
        if !is_word_in_ram(frames, address) {
            return Err(FrozenFault::Form(at as u64 + 1));
        }
        return Ok((Some(address), at + 5));
    }
    Ok((None, at + 1))
}

/// A hart, and the offset after it.
fn hart(body: &[u8], at: usize, frames: u32) -> Result<(FrozenHart, usize), FrozenFault>
    requires { at ≤ length body.now }
    ensures fault { fault_of result ≡ first_in body.now (hart_fields body.now frames at) }
    ensures value { IfOk result (λ h. h.0 ≡ hart_in body.now at) }
    ensures next { IfOk result (λ h. h.1 ≡ after_hart body.now at) }
    ensures inside { IfOk result (λ h. h.1 ≤ length body.now) }
{
    let mode = mode(body, at)?;
    let pc = pc(body, at + 1)?;
    let timer = word(body, at + 5)?;
    let (inside, words) = maybe_word(body, at + 9)?;
    let regs = registers(body, words)?;
    let csrs = csrs(body, words + 124)?;
    let (mark, end) = mark(body, words + 124 + 36, frames)?;
    let hart = FrozenHart {
        mode,
        pc,
        timer,
        inside,
        regs,
        csrs,
        mark,
    };
    Ok((hart, end))
}

/// The `n` harts of a body, and the offset after them.
pub fn read_harts(
    alloc: Global,
    body: &[u8],
    from: usize,
    frames: u32,
    n: u32,
) -> Result<(Vec<FrozenHart>, usize), FrozenFault>
    requires { from ≤ length body.now }
    ensures fault { TellsFirst result (first_in body.now
        (parts (hart_fields body.now frames) (after_hart body.now) n from)) }
    ensures value { IfOk result (λ r. r.0.items ≡ values (hart_in body.now) (after_hart body.now) n from) }
    ensures next { IfOk result (λ r. r.1 ≡ after_parts (after_hart body.now) n from) }
    ensures inside { IfOk result (λ r. r.1 ≤ length body.now) }
{
    let mut harts = Vec::with_capacity(alloc, n as usize)?;
    let mut at = from;
    for _ in 0..n {
        let (hart, next) = hart(body, at, frames)?;
        harts.push_reserved(hart);
        at = next;
    }
    Ok((harts, at))
}
