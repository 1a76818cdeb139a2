//! What changed of a hart and of memory by a step.
ghost use Rattle.std.specs.Prelude.{◌≡◌, ◌≤◌, ◌<◌, length};
ghost use Rattle.kernel_report.specs.Putting.{PutsMore, putting};
ghost use Rattle.step_lines.specs.Changes as spec;
ghost use Rattle.step_lines.specs.Effects.{PutsEffects};

use crate::ahead::ReachedMemory;
use crate::effects::{EffectsSoFar, put_gap};
use crate::memory::value_there;
use crate::sight::HartSight;
use io_traits::Sink;
use kernel_report::lines::{SoFar, decimal, hexadecimal, text};

/// A register with its word, unless this is the same as before.
fn put_register_unless<O: Sink>(
    out: &mut O,
    at: EffectsSoFar,
    same: bool,
    i: usize,
    now: u32,
) -> EffectsSoFar
    ensures { PutsEffects (putting O.Sink out.old at.so_far) (putting O.Sink out.new result.so_far) at.gap result.gap
        (spec.unless same (spec.register_text i now)) }
{
    if same {
        at
    } else {
        let so_far = put_gap(out, at);
        let so_far = text(out, so_far, b"x");
        let so_far = decimal(out, so_far, i as u64);
        let so_far = text(out, so_far, b"=");
        EffectsSoFar {
            so_far: hexadecimal(out, so_far, now),
            gap: 0,
        }
    }
}

/// A register that was one word and is another.
fn put_register<O: Sink>(
    out: &mut O,
    at: EffectsSoFar,
    was: &[u32; 32],
    now: &[u32; 32],
    i: usize,
) -> EffectsSoFar
    requires { i < 32 }
    ensures { PutsEffects (putting O.Sink out.old at.so_far) (putting O.Sink out.new result.so_far) at.gap result.gap
        (spec.register_change was.now now.now i) }
{
    put_register_unless(out, at, was[i] == now[i], i, now[i])
}

/// The registers that changed.
pub fn put_registers<O: Sink>(
    out: &mut O,
    at: EffectsSoFar,
    was: &[u32; 32],
    now: &[u32; 32],
) -> EffectsSoFar
    ensures { PutsEffects (putting O.Sink out.old at.so_far) (putting O.Sink out.new result.so_far) at.gap result.gap
        (spec.register_changes was.now now.now 32) }
{
    let mut at = at;
    for i in 0..32usize {
        at = put_register(out, at, was, now, i);
    }
    at
}

/// A control and status register with its word, unless this is the same as before.
fn put_csr_unless<O: Sink>(
    out: &mut O,
    at: EffectsSoFar,
    same: bool,
    name: &[u8],
    now: u32,
) -> EffectsSoFar
    ensures { PutsEffects (putting O.Sink out.old at.so_far) (putting O.Sink out.new result.so_far) at.gap result.gap
        (spec.unless same (spec.word_text name.now now)) }
{
    if same {
        at
    } else {
        let so_far = put_gap(out, at);
        let so_far = text(out, so_far, name);
        let so_far = text(out, so_far, b"=");
        EffectsSoFar {
            so_far: hexadecimal(out, so_far, now),
            gap: 0,
        }
    }
}

/// A control and status register that was one word and is another.
fn put_csr<O: Sink>(
    out: &mut O,
    at: EffectsSoFar,
    name: &[u8],
    was: &[u32; 9],
    now: &[u32; 9],
    i: usize,
) -> EffectsSoFar
    requires { i < 9 }
    ensures { PutsEffects (putting O.Sink out.old at.so_far) (putting O.Sink out.new result.so_far) at.gap result.gap
        (spec.csr_change name.now was.now now.now i) }
{
    put_csr_unless(out, at, was[i] == now[i], name, now[i])
}

/// The control and status registers that changed.
fn put_csrs<O: Sink>(out: &mut O, at: EffectsSoFar, was: &[u32; 9], now: &[u32; 9]) -> EffectsSoFar
    ensures { PutsEffects (putting O.Sink out.old at.so_far) (putting O.Sink out.new result.so_far) at.gap result.gap
        (spec.csr_changes was.now now.now) }
{
    let at = put_csr(out, at, b"sstatus", was, now, 0);
    let at = put_csr(out, at, b"sie", was, now, 1);
    let at = put_csr(out, at, b"stvec", was, now, 2);
    let at = put_csr(out, at, b"sscratch", was, now, 3);
    let at = put_csr(out, at, b"sepc", was, now, 4);
    let at = put_csr(out, at, b"scause", was, now, 5);
    let at = put_csr(out, at, b"stval", was, now, 6);
    let at = put_csr(out, at, b"sip", was, now, 7);
    put_csr(out, at, b"satp", was, now, 8)
}

/// Where the hart goes on, unless that is the next instruction.
fn put_jump_unless<O: Sink>(out: &mut O, at: EffectsSoFar, next: bool, now: u32) -> EffectsSoFar
    ensures { PutsEffects (putting O.Sink out.old at.so_far) (putting O.Sink out.new result.so_far) at.gap result.gap
        (spec.unless next (spec.jump_text now)) }
{
    if next {
        at
    } else {
        let so_far = put_gap(out, at);
        let so_far = text(out, so_far, b"to ");
        EffectsSoFar {
            so_far: hexadecimal(out, so_far, now),
            gap: 0,
        }
    }
}

/// The program counter after this one is the next.
fn is_next(was: u32, now: u32) -> bool
    ensures { result ≡ spec.is_next was now }
{
    now == was.wrapping_add(4)
}

/// Where the hart went on, unless that is the next instruction.
pub fn put_jump<O: Sink>(out: &mut O, at: EffectsSoFar, was: u32, now: u32) -> EffectsSoFar
    ensures { PutsEffects (putting O.Sink out.old at.so_far) (putting O.Sink out.new result.so_far) at.gap result.gap
        (spec.jump was now) }
{
    let next = is_next(was, now);
    put_jump_unless(out, at, next, now)
}

/// A value of so many bytes.
pub fn put_value<O: Sink>(out: &mut O, so_far: SoFar, width: u32, value: u32) -> SoFar
    ensures { PutsMore (putting O.Sink out.old so_far) (putting O.Sink out.new result) (spec.value_text width value) }
{
    let mut digits = [0; 8];
    let Ok(()) = hex::encode_to_slice(value.to_be_bytes().as_slice(), &mut digits) else {
        unreachable!();
    };
    let from = 8usize.saturating_sub(2 * width.min(4) as usize);
    text(out, so_far, &digits[from..])
}

/// Where an address leads, unless that is the same.
fn put_other<O: Sink>(out: &mut O, so_far: SoFar, same: bool, place: u32) -> SoFar
    ensures { PutsMore (putting O.Sink out.old so_far) (putting O.Sink out.new result) (spec.other_text same place) }
{
    if same {
        text(out, so_far, b"")
    } else {
        let so_far = text(out, so_far, b"=");
        hexadecimal(out, so_far, place)
    }
}

/// An address, and where it leads.
fn put_place<O: Sink>(out: &mut O, so_far: SoFar, address: u32, place: u32) -> SoFar
    ensures { PutsMore (putting O.Sink out.old so_far) (putting O.Sink out.new result) (spec.place_text address place) }
{
    let so_far = text(out, so_far, b"[");
    let so_far = hexadecimal(out, so_far, address);
    let so_far = put_other(out, so_far, address == place, place);
    text(out, so_far, b"] ")
}

/// What was loaded; what a store found and left.
fn put_reached<O: Sink>(out: &mut O, so_far: SoFar, r: &ReachedMemory, now: u32) -> SoFar
    ensures { PutsMore (putting O.Sink out.old so_far) (putting O.Sink out.new result) (spec.reached_text r.now now) }
{
    let so_far = put_place(out, so_far, r.address, r.place);
    if r.is_store {
        let so_far = put_value(out, so_far, r.width, r.value);
        let so_far = text(out, so_far, b" -> ");
        put_value(out, so_far, r.width, now)
    } else {
        let so_far = text(out, so_far, b"is ");
        put_value(out, so_far, r.width, r.value)
    }
}

/// What was reached in memory.
fn put_memory<O: Sink>(
    out: &mut O,
    at: EffectsSoFar,
    frames: &[[u8; 4096]],
    reached: &Option<ReachedMemory>,
) -> EffectsSoFar
    requires { length frames.now ≤ 4096 }
    ensures { PutsEffects (putting O.Sink out.old at.so_far) (putting O.Sink out.new result.so_far) at.gap result.gap
        (spec.memory_change frames.now reached.now) }
{
    match reached {
        None => at,
        Some(r) => {
            let now = value_there(frames, r.place, r.width);
            let so_far = put_gap(out, at);
            EffectsSoFar {
                so_far: put_reached(out, so_far, r, now),
                gap: 0,
            }
        }
    }
}

/// All that changed, over the frames after the step.
pub fn put_changes<O: Sink>(
    out: &mut O,
    at: EffectsSoFar,
    reached: &Option<ReachedMemory>,
    was: &HartSight,
    now: &HartSight,
    frames: &[[u8; 4096]],
) -> EffectsSoFar
    requires { length frames.now ≤ 4096 }
    ensures { PutsEffects (putting O.Sink out.old at.so_far) (putting O.Sink out.new result.so_far) at.gap result.gap
        (spec.changes reached.now was.now now.now frames.now) }
{
    let at = put_memory(out, at, frames, reached);
    let at = put_registers(out, at, &was.regs, &now.regs);
    let at = put_csrs(out, at, &was.csrs, &now.csrs);
    put_jump(out, at, was.pc, now.pc)
}
