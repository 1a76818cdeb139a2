//! The line of a step of a program.
ghost use Rattle.std.specs.Prelude.{◌≡◌, ◌<◌};
ghost use Rattle.kernel_report.specs.Putting.{PutsMore, putting};
ghost use Rattle.step_lines.specs.Contexts as spec;
ghost use Rattle.step_lines.specs.Effects.{PutsEffects};

use crate::changes::{put_jump, put_registers, put_value};
use crate::columns::{put_front, put_word_columns};
use crate::contexts::{ContextAhead, ContextSight, LastAnswer, ReachedPage};
use crate::effects::{EffectsSoFar, put_gap, put_pad};
use crate::endings::is_ecall_word;
use cloak_base::EXIT;
use cloak_model::Phase;
use io_traits::Sink;
use kernel_report::lines::{SoFar, decimal, hexadecimal, text};
use record_text::cause_name;

/// The name of a hypercall.
#[tactic(auto, unfolding(crate::specs::Contexts::hypercall_name))]
fn hypercall_name(number: u32) -> &'static str
    ensures { result.now ≡ spec.hypercall_name number }
{
    match number {
        0x4f56_0001 => "NEW",
        0x4f56_0002 => "MAP",
        0x4f56_0003 => "UNMAP",
        0x4f56_0004 => "FILE",
        0x4f56_0005 => "THREAD",
        0x4f56_0006 => "FORK",
        EXIT => "EXIT",
        0x4f56_0008 => "CALL",
        _ => "that is none:",
    }
}

/// A register after a blank.
fn put_register_word<O: Sink>(out: &mut O, so_far: SoFar, regs: &[u32; 32], i: usize) -> SoFar
    requires { i < 32 }
    ensures { PutsMore (putting O.Sink out.old so_far) (putting O.Sink out.new result) (spec.register_word regs.now i) }
{
    let so_far = text(out, so_far, b" ");
    hexadecimal(out, so_far, regs[i])
}

/// A hypercall with its arguments, and `x16`, which is the number of a call to the kernel.
fn put_hypercall<O: Sink>(out: &mut O, so_far: SoFar, regs: &[u32; 32]) -> SoFar
    ensures { PutsMore (putting O.Sink out.old so_far) (putting O.Sink out.new result) (spec.hypercall_text regs.now) }
{
    let so_far = text(out, so_far, b"hypercall ");
    let so_far = text(out, so_far, hypercall_name(regs[17]).as_bytes());
    let so_far = put_register_word(out, so_far, regs, 10);
    let so_far = put_register_word(out, so_far, regs, 11);
    let so_far = put_register_word(out, so_far, regs, 12);
    let so_far = put_register_word(out, so_far, regs, 13);
    let so_far = text(out, so_far, b", number");
    put_register_word(out, so_far, regs, 16)
}

/// One text.
fn put_one<O: Sink>(out: &mut O, at: EffectsSoFar, words: &[u8]) -> EffectsSoFar
    ensures { PutsEffects (putting O.Sink out.old at.so_far) (putting O.Sink out.new result.so_far) at.gap result.gap
        (spec.one_text words.now) }
{
    let so_far = put_gap(out, at);
    EffectsSoFar {
        so_far: text(out, so_far, words),
        gap: 0,
    }
}

/// The hypercall that a context made, if it made one.
fn put_hypercall_if<O: Sink>(
    out: &mut O,
    at: EffectsSoFar,
    made: bool,
    regs: &[u32; 32],
) -> EffectsSoFar
    ensures { PutsEffects (putting O.Sink out.old at.so_far) (putting O.Sink out.new result.so_far) at.gap result.gap
        (spec.hypercall_if made regs.now) }
{
    if made {
        let so_far = put_gap(out, at);
        EffectsSoFar {
            so_far: put_hypercall(out, so_far, regs),
            gap: 0,
        }
    } else {
        at
    }
}

/// The hypercall of a step, if its instruction was ECALL.
fn put_hypercalls<O: Sink>(out: &mut O, at: EffectsSoFar, a: &ContextAhead) -> EffectsSoFar
    ensures { PutsEffects (putting O.Sink out.old at.so_far) (putting O.Sink out.new result.so_far) at.gap result.gap
        (spec.hypercalls a.now) }
{
    let made = is_ecall_word(a.word);
    put_hypercall_if(out, at, made, &a.sight.regs)
}

/// The value that was answered; 0 if none was.
fn answered_value(answer: LastAnswer) -> u32
    ensures { result ≡ spec.answered_value answer }
{
    match answer {
        LastAnswer::Word { value } => value,
        LastAnswer::Nothing => 0,
        LastAnswer::Granted => 0,
        LastAnswer::Absent { .. } => 0,
        LastAnswer::Stopped => 0,
        LastAnswer::Timer => 0,
    }
}

/// The value that was loaded.
fn loaded_value(r: &ReachedPage, answer: LastAnswer) -> u32
    ensures { result ≡ spec.loaded_value r.now answer }
{
    if r.is_cloaked {
        r.value
    } else {
        answered_value(answer)
    }
}

/// What was loaded.
fn put_load<O: Sink>(out: &mut O, so_far: SoFar, r: &ReachedPage, answer: LastAnswer) -> SoFar
    ensures { PutsMore (putting O.Sink out.old so_far) (putting O.Sink out.new result) (spec.load_text r.now answer) }
{
    let value = loaded_value(r, answer);
    let so_far = text(out, so_far, b"is ");
    put_value(out, so_far, r.width, value)
}

/// What a store found in a page, and left there; elsewhere what it stored.
fn put_store<O: Sink>(out: &mut O, so_far: SoFar, r: &ReachedPage, now: u32) -> SoFar
    ensures { PutsMore (putting O.Sink out.old so_far) (putting O.Sink out.new result) (spec.store_text r.now now) }
{
    if r.is_cloaked {
        let so_far = put_value(out, so_far, r.width, r.value);
        let so_far = text(out, so_far, b" -> ");
        put_value(out, so_far, r.width, now)
    } else {
        let so_far = text(out, so_far, b"-> ");
        put_value(out, so_far, r.width, r.stored)
    }
}

/// What an access did.
fn put_way<O: Sink>(
    out: &mut O,
    so_far: SoFar,
    r: &ReachedPage,
    answer: LastAnswer,
    now: u32,
) -> SoFar
    ensures { PutsMore (putting O.Sink out.old so_far) (putting O.Sink out.new result) (spec.way_text r.now answer now) }
{
    if r.is_store {
        put_store(out, so_far, r, now)
    } else {
        put_load(out, so_far, r, answer)
    }
}

/// An access with its address.
fn put_access<O: Sink>(
    out: &mut O,
    so_far: SoFar,
    r: &ReachedPage,
    answer: LastAnswer,
    now: u32,
) -> SoFar
    ensures { PutsMore (putting O.Sink out.old so_far) (putting O.Sink out.new result)
        (spec.access_text r.now answer now) }
{
    let so_far = text(out, so_far, b"[");
    let so_far = hexadecimal(out, so_far, r.address);
    let so_far = text(out, so_far, b"] ");
    put_way(out, so_far, r, answer, now)
}

/// The access of an instruction, if it makes one.
fn put_accesses<O: Sink>(
    out: &mut O,
    at: EffectsSoFar,
    reached: &Option<ReachedPage>,
    answer: LastAnswer,
    now: u32,
) -> EffectsSoFar
    ensures { PutsEffects (putting O.Sink out.old at.so_far) (putting O.Sink out.new result.so_far) at.gap result.gap
        (spec.accesses reached.now answer now) }
{
    match reached {
        None => at,
        Some(r) => {
            let so_far = put_gap(out, at);
            EffectsSoFar {
                so_far: put_access(out, so_far, r, answer, now),
                gap: 0,
            }
        }
    }
}

/// A hypercall and an access of an instruction.
fn put_instruction<O: Sink>(
    out: &mut O,
    at: EffectsSoFar,
    a: &ContextAhead,
    answer: LastAnswer,
    now: u32,
) -> EffectsSoFar
    ensures { PutsEffects (putting O.Sink out.old at.so_far) (putting O.Sink out.new result.so_far) at.gap result.gap
        (spec.instruction_effects a.now answer now) }
{
    let at = put_hypercalls(out, at, a);
    put_accesses(out, at, &a.reached, answer, now)
}

/// A byte of a call's buffer.
fn put_copy<O: Sink>(out: &mut O, at: EffectsSoFar, words: &[u8], done: u32) -> EffectsSoFar
    ensures { PutsEffects (putting O.Sink out.old at.so_far) (putting O.Sink out.new result.so_far) at.gap result.gap
        (spec.one_text (spec.copy_text words.now done)) }
{
    let so_far = put_gap(out, at);
    let so_far = text(out, so_far, words);
    EffectsSoFar {
        so_far: decimal(out, so_far, done as u64),
        gap: 0,
    }
}

/// What was done, by the phase.
#[tactic(auto, unfolding(crate::specs::Contexts::phase_effects))]
fn put_phase<O: Sink>(
    out: &mut O,
    at: EffectsSoFar,
    phase: Phase,
    a: &ContextAhead,
    answer: LastAnswer,
    now: u32,
) -> EffectsSoFar
    ensures { PutsEffects (putting O.Sink out.old at.so_far) (putting O.Sink out.new result.so_far) at.gap result.gap
        (spec.phase_effects phase a.now answer now) }
{
    match phase {
        Phase::Plain => put_instruction(out, at, a, answer, now),
        Phase::CopyIn { done } => put_copy(out, at, b"copies from its buffer, after byte ", done),
        Phase::Waiting => put_one(out, at, b"waits for an answer"),
        Phase::CopyOut { done, .. } => put_copy(
            out,
            at,
            b"copies to its buffer, after byte ",
            done,
        ),
    }
}

/// The step was an instruction.
fn is_plain(phase: Phase) -> bool
    ensures { result ≡ spec.is_plain phase }
{
    matches!(phase, Phase::Plain)
}

/// Where a context goes on, after an instruction.
fn put_goes_on<O: Sink>(
    out: &mut O,
    at: EffectsSoFar,
    plain: bool,
    was: u32,
    now: u32,
) -> EffectsSoFar
    ensures { PutsEffects (putting O.Sink out.old at.so_far) (putting O.Sink out.new result.so_far) at.gap result.gap
        (spec.goes_on plain was now) }
{
    if plain {
        put_jump(out, at, was, now)
    } else {
        at
    }
}

/// Where the context goes on, or that it left its hart.
fn put_left_or_on<O: Sink>(
    out: &mut O,
    at: EffectsSoFar,
    a: &ContextAhead,
    now: &ContextSight,
) -> EffectsSoFar
    ensures { PutsEffects (putting O.Sink out.old at.so_far) (putting O.Sink out.new result.so_far) at.gap result.gap
        (spec.left_or_on a.now now.now) }
{
    if now.runs {
        let plain = is_plain(a.phase);
        put_goes_on(out, at, plain, a.sight.pc, now.pc)
    } else {
        put_one(out, at, b"leaves")
    }
}

/// What the context then is.
fn put_after<O: Sink>(
    out: &mut O,
    at: EffectsSoFar,
    a: &ContextAhead,
    now: &Option<ContextSight>,
) -> EffectsSoFar
    ensures { PutsEffects (putting O.Sink out.old at.so_far) (putting O.Sink out.new result.so_far) at.gap result.gap
        (spec.context_after a.now now.now) }
{
    match now {
        None => put_one(out, at, b"ends"),
        Some(now) => {
            let at = put_registers(out, at, &a.sight.regs, &now.regs);
            put_left_or_on(out, at, a, now)
        }
    }
}

/// What was done, and what the context then is.
fn put_done_inside<O: Sink>(
    out: &mut O,
    at: EffectsSoFar,
    a: &ContextAhead,
    answer: LastAnswer,
    now: &Option<ContextSight>,
    value: u32,
) -> EffectsSoFar
    ensures { PutsEffects (putting O.Sink out.old at.so_far) (putting O.Sink out.new result.so_far) at.gap result.gap
        (spec.done_inside a.now answer now.now value) }
{
    let at = put_phase(out, at, a.phase, a, answer, value);
    put_after(out, at, a, now)
}

/// An access that found no page, or another fault.
fn put_absent<O: Sink>(out: &mut O, at: EffectsSoFar, cause: u32) -> EffectsSoFar
    ensures { PutsEffects (putting O.Sink out.old at.so_far) (putting O.Sink out.new result.so_far) at.gap result.gap
        (spec.one_text (spec.absent_text cause)) }
{
    let so_far = put_gap(out, at);
    let so_far = text(out, so_far, b"absent: ");
    EffectsSoFar {
        so_far: text(out, so_far, cause_name(cause).as_bytes()),
        gap: 0,
    }
}

/// What a step did, by the last answer that it got.
#[tactic(auto, unfolding(crate::specs::Contexts::context_effects))]
fn put_context_effects<O: Sink>(
    out: &mut O,
    at: EffectsSoFar,
    a: &ContextAhead,
    answer: LastAnswer,
    now: &Option<ContextSight>,
    value: u32,
) -> EffectsSoFar
    ensures { PutsEffects (putting O.Sink out.old at.so_far) (putting O.Sink out.new result.so_far) at.gap result.gap
        (spec.context_effects a.now answer now.now value) }
{
    match answer {
        LastAnswer::Nothing => put_done_inside(out, at, a, answer, now, value),
        LastAnswer::Granted => put_done_inside(out, at, a, answer, now, value),
        LastAnswer::Word { .. } => put_done_inside(out, at, a, answer, now, value),
        LastAnswer::Absent { cause } => put_absent(out, at, cause),
        LastAnswer::Stopped => put_one(out, at, b"stopped"),
        LastAnswer::Timer => put_one(out, at, b"interrupted by the timer"),
    }
}

/// The word of the instruction that was meant.
fn word_meant(a: &ContextAhead, answer: LastAnswer) -> Option<u32>
    ensures { result ≡ spec.word_meant a.now answer }
{
    match answer {
        LastAnswer::Timer => None,
        LastAnswer::Nothing => a.word,
        LastAnswer::Granted => a.word,
        LastAnswer::Absent { .. } => a.word,
        LastAnswer::Word { .. } => a.word,
        LastAnswer::Stopped => a.word,
    }
}

/// Digits, and blanks up to the end of the column of a context.
fn put_context_digits<O: Sink>(out: &mut O, so_far: SoFar, digits: &[u8]) -> SoFar
    ensures { PutsMore (putting O.Sink out.old so_far) (putting O.Sink out.new result)
        (spec.context_digits digits.now) }
{
    let so_far = text(out, so_far, b"c");
    let so_far = text(out, so_far, digits);
    put_pad(out, so_far, 5usize.saturating_sub(digits.len()))
}

/// The number of a context.
fn put_context_column<O: Sink>(out: &mut O, so_far: SoFar, ctx: u32) -> SoFar
    ensures { PutsMore (putting O.Sink out.old so_far) (putting O.Sink out.new result) (spec.context_column ctx) }
{
    let mut digits = itoa::Buffer::new();
    put_context_digits(out, so_far, digits.format(ctx as u64).as_bytes())
}

/// The line of a step of a program. The value is the one that then stands where a store went.
pub fn put_context_step<O: Sink>(
    out: &mut O,
    so_far: SoFar,
    step: u32,
    hart: usize,
    ctx: u32,
    a: &ContextAhead,
    answer: LastAnswer,
    now: &Option<ContextSight>,
    value: u32,
) -> SoFar
    ensures { PutsMore (putting O.Sink out.old so_far) (putting O.Sink out.new result)
        (spec.context_step_line step hart ctx a.now answer now.now value) }
{
    let so_far = put_front(out, so_far, step, Some(hart));
    let so_far = put_context_column(out, so_far, ctx);
    let so_far = hexadecimal(out, so_far, a.sight.pc);
    let at = put_word_columns(out, so_far, word_meant(a, answer), a.sight.pc);
    let at = put_context_effects(out, at, a, answer, now, value);
    text(out, at.so_far, b"\n")
}
