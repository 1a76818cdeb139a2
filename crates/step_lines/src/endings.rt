//! How a step of a hart outside ended, beside what changed.
ghost use Rattle.std.specs.Prelude.{◌≡◌, ◌≤◌, length};
ghost use Rattle.kernel_report.specs.Putting.{PutsMore, putting};
ghost use Rattle.step_lines.specs.Effects.{PutsEffects};
ghost use Rattle.step_lines.specs.Endings as spec;

use crate::ahead::HartAhead;
use crate::changes::put_changes;
use crate::effects::{EffectsSoFar, put_gap};
use crate::sight::HartSight;
use cloak_base::TIMER_CAUSE;
use cloak_model::Kernel;
use io_traits::Sink;
use kernel_report::lines::{SoFar, decimal, hexadecimal, text};
use record_text::cause_name;

/// The name of a host call.
#[tactic(auto, unfolding(crate::specs::Endings::host_name))]
fn host_name(number: u32) -> &'static str
    ensures { result.now ≡ spec.host_name number }
{
    match number {
        0 => "PUT",
        1 => "TIMER",
        2 => "READ",
        3 => "WRITE",
        4 => "HALT",
        _ => "that is none:",
    }
}

/// A host call with x10 and x11.
fn put_host<O: Sink>(out: &mut O, so_far: SoFar, regs: &[u32; 32]) -> SoFar
    ensures { PutsMore (putting O.Sink out.old so_far) (putting O.Sink out.new result) (spec.host_text regs.now) }
{
    let so_far = text(out, so_far, b"host ");
    let so_far = text(out, so_far, host_name(regs[17]).as_bytes());
    let so_far = text(out, so_far, b" ");
    let so_far = hexadecimal(out, so_far, regs[10]);
    let so_far = text(out, so_far, b" ");
    hexadecimal(out, so_far, regs[11])
}

/// The word is that of ECALL.
pub fn is_ecall_word(word: Option<u32>) -> bool
    ensures { result ≡ spec.is_ecall_word word }
{
    match word {
        None => false,
        Some(word) => word == 0x73,
    }
}

/// The host call that a hart made, if it made one.
fn put_host_if<O: Sink>(out: &mut O, at: EffectsSoFar, made: bool, regs: &[u32; 32]) -> EffectsSoFar
    ensures { PutsEffects (putting O.Sink out.old at.so_far) (putting O.Sink out.new result.so_far) at.gap result.gap
        (spec.host_if made regs.now) }
{
    if made {
        let so_far = put_gap(out, at);
        EffectsSoFar {
            so_far: put_host(out, so_far, regs),
            gap: 0,
        }
    } else {
        at
    }
}

/// The host call of a step, if its instruction was ECALL.
fn put_host_call<O: Sink>(out: &mut O, at: EffectsSoFar, a: &HartAhead) -> EffectsSoFar
    ensures { PutsEffects (putting O.Sink out.old at.so_far) (putting O.Sink out.new result.so_far) at.gap result.gap
        (spec.host_calls a.now) }
{
    let made = is_ecall_word(a.word);
    put_host_if(out, at, made, &a.sight.regs)
}

/// The cause tells something in `stval`.
fn tells_value(cause: u32) -> bool
    ensures { result ≡ spec.tells_value cause }
{
    !matches!(cause, 3 | 8 | TIMER_CAUSE)
}

/// What a trap tells in `stval`, if it tells something.
fn put_trap_value<O: Sink>(out: &mut O, so_far: SoFar, tells: bool, value: u32) -> SoFar
    ensures { PutsMore (putting O.Sink out.old so_far) (putting O.Sink out.new result) (spec.trap_value tells value) }
{
    if tells {
        let so_far = text(out, so_far, b", stval ");
        hexadecimal(out, so_far, value)
    } else {
        text(out, so_far, b"")
    }
}

/// A trap, as the hart has it after the step.
fn put_trap<O: Sink>(out: &mut O, so_far: SoFar, now: &HartSight) -> SoFar
    ensures { PutsMore (putting O.Sink out.old so_far) (putting O.Sink out.new result) (spec.trap_text now.now) }
{
    let cause = now.csrs[5];
    let tells = tells_value(cause);
    let so_far = text(out, so_far, b"trap: ");
    let so_far = text(out, so_far, cause_name(cause).as_bytes());
    let so_far = put_trap_value(out, so_far, tells, now.csrs[6]);
    let so_far = text(out, so_far, b", to ");
    hexadecimal(out, so_far, now.pc)
}

/// A context that was resumed.
fn put_resume<O: Sink>(out: &mut O, so_far: SoFar, ctx: u32, answer: u32) -> SoFar
    ensures { PutsMore (putting O.Sink out.old so_far) (putting O.Sink out.new result) (spec.resume_text ctx answer) }
{
    let so_far = text(out, so_far, b"RESUME context ");
    let so_far = decimal(out, so_far, ctx as u64);
    let so_far = text(out, so_far, b", answer ");
    hexadecimal(out, so_far, answer)
}

/// A host call, if there was one, and what changed.
fn put_done<O: Sink>(
    out: &mut O,
    at: EffectsSoFar,
    a: &HartAhead,
    now: &HartSight,
    frames: &[[u8; 4096]],
) -> EffectsSoFar
    requires { length frames.now ≤ 4096 }
    ensures { PutsEffects (putting O.Sink out.old at.so_far) (putting O.Sink out.new result.so_far) at.gap result.gap
        (spec.done_effects a.now now.now frames.now) }
{
    let at = put_host_call(out, at, a);
    put_changes(out, at, &a.reached, &a.sight, now, frames)
}

/// What a step did, by how it ended.
#[tactic(auto, unfolding(crate::specs::Endings::step_effects))]
pub fn put_step_effects<O: Sink>(
    out: &mut O,
    at: EffectsSoFar,
    a: &HartAhead,
    now: &HartSight,
    frames: &[[u8; 4096]],
    ending: Kernel,
) -> EffectsSoFar
    requires { length frames.now ≤ 4096 }
    ensures { PutsEffects (putting O.Sink out.old at.so_far) (putting O.Sink out.new result.so_far) at.gap result.gap
        (spec.step_effects a.now now.now frames.now ending) }
{
    match ending {
        Kernel::Stay => put_done(out, at, a, now, frames),
        Kernel::Put(_) => put_done(out, at, a, now, frames),
        Kernel::Halt(_) => put_done(out, at, a, now, frames),
        Kernel::Trapped => {
            let so_far = put_gap(out, at);
            EffectsSoFar {
                so_far: put_trap(out, so_far, now),
                gap: 0,
            }
        }
        Kernel::Resume { ctx, answer } => {
            let so_far = put_gap(out, at);
            EffectsSoFar {
                so_far: put_resume(out, so_far, ctx, answer),
                gap: 0,
            }
        }
    }
}

/// The step took the timer interrupt.
fn is_interrupt(now: &HartSight, ending: Kernel) -> bool
    ensures { result ≡ spec.is_interrupt now.now ending }
{
    match ending {
        Kernel::Trapped => now.csrs[5] == TIMER_CAUSE,
        Kernel::Stay => false,
        Kernel::Put(_) => false,
        Kernel::Halt(_) => false,
        Kernel::Resume { .. } => false,
    }
}

/// The word that was executed, or would have been.
pub fn executed_word(a: &HartAhead, now: &HartSight, ending: Kernel) -> Option<u32>
    ensures { result ≡ spec.executed_word a.now now.now ending }
{
    if is_interrupt(now, ending) {
        None
    } else {
        a.word
    }
}
