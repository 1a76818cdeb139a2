//! What an item adds to the trace of a program's side.
ghost use Rattle.cloak_model.specs.Items.{item_of};
ghost use Rattle.std.specs.Prelude.{◌≡◌, ◌<◌, ◌&&◌, ◌||◌, [], true, false, is_ok, is_none, ℕ, List, Some, None, option_map, if◌then◌else◌};
ghost use Rattle.cloak_model.specs.DomainAlone as model;
ghost use Rattle.cloak_model.specs.Contexts.{context_at};
ghost use Rattle.alone_views.specs.DomainMoments.{running_in};
ghost use Rattle.alone_views.specs.DomainStanding.{StandsForDomain};
ghost use Rattle.alone_views.specs.KernelEnding as endings;
ghost use Rattle.kernel_report.specs.Putting.{PutsMore, putting};
ghost use Rattle.step_lines.specs.Contexts as lines;
ghost use Rattle.step_lines.specs.Lines.{item_line};
ghost use Rattle.run_trace.specs.ProgramTrace as spec;
ghost use Rattle.run_trace.specs.ProgramTracing.{AddsOwn};

use crate::choice::TraceChoice;
use crate::kernel_side::is_end;
use crate::program_ahead::{cloaked_value, context_ahead};
use alone_views::{DomainAlone, Unfit};
use cloak_model::Item;
use io_traits::Sink;
use kernel_report::lines::{SoFar, decimal, text};
use step_lines::{
    ContextAhead, ContextSight, LastAnswer, ReachedPage, context_sight, put_context_step,
    put_item_line,
};
use thread_context::Context;

/// A step of a context that is open.
#[derive(Clone, Copy)]
pub struct OpenContext {
    pub step: u32,
    pub hart: usize,
    pub slot: u32,
    /// The number of the context.
    pub ctx: u32,
    /// The number of its space.
    pub space: u32,
    pub ahead: ContextAhead,
}

/// The step of a context in a slot that is open, if it is chosen.
fn open_with(
    program: &DomainAlone,
    number: u32,
    choice: &TraceChoice,
    slot: u32,
    c: &Context,
) -> Option<OpenContext>
    requires number { number < 4 }
    requires slot { slot < 8 }
    ensures { (turns : List ℕ) (s : model.DomainAlone) →
        StandsForDomain number turns program.now s → s.unfit ≡ None →
        result ≡ spec.open_with choice.now number turns s slot (Some c.now) }
{
    let step = program.step();
    let hart = program.turn() as usize;
    let chosen = choice.has(step, Some(hart));
    if chosen {
        Some(OpenContext {
            step,
            hart,
            slot,
            ctx: 8 * number + slot,
            space: c.space,
            ahead: context_ahead(program, c),
        })
    } else {
        None
    }
}

/// The step of the context of a slot that is open, if it is chosen.
fn open_slot(
    program: &DomainAlone,
    number: u32,
    choice: &TraceChoice,
    slot: u32,
) -> Option<OpenContext>
    requires { number < 4 }
    ensures { (turns : List ℕ) (s : model.DomainAlone) →
        StandsForDomain number turns program.now s → s.unfit ≡ None →
        result ≡ spec.open_slot choice.now number turns s (Some slot) }
{
    match program.slot_context(slot) {
        None => None,
        Some(c) => open_with(program, number, choice, slot, c),
    }
}

/// The step of a context that is open and does not have its items, if it is chosen.
fn open_context(program: &DomainAlone, number: u32, choice: &TraceChoice) -> Option<OpenContext>
    requires { number < 4 }
    ensures { (turns : List ℕ) (s : model.DomainAlone) →
        StandsForDomain number turns program.now s → s.unfit ≡ None →
        result ≡ spec.open_context choice.now number turns s }
{
    match program.running() {
        None => None,
        Some(slot) => open_slot(program, number, choice, slot),
    }
}

/// The last answer that a step got, by the item after which it was made.
fn last_answer(item: &Item<'_>) -> LastAnswer
    ensures { result ≡ spec.last_answer (item_of item.now) }
{
    match *item {
        Item::Ok { .. } => LastAnswer::Granted,
        Item::Absent { cause, .. } => LastAnswer::Absent { cause },
        Item::Word { value, .. } => LastAnswer::Word { value },
        Item::Stopped { .. } => LastAnswer::Stopped,
        Item::Timer { .. } => LastAnswer::Timer,
        _ => LastAnswer::Nothing,
    }
}

/// What the context of a slot is, if there is one.
fn sight_of_slot(program: &DomainAlone, slot: u32) -> Option<ContextSight>
    ensures { (number : ℕ) (turns : List ℕ) (s : model.DomainAlone) →
        StandsForDomain number turns program.now s → s.unfit ≡ None →
        result ≡ option_map lines.context_sight (context_at s.part.domain.control.contexts slot) }
{
    match program.slot_context(slot) {
        None => None,
        Some(c) => Some(context_sight(c)),
    }
}

/// What then stands where a step reached.
fn value_after(program: &DomainAlone, space: u32, reached: &Option<ReachedPage>) -> u32
    ensures { (number : ℕ) (turns : List ℕ) (s : model.DomainAlone) →
        StandsForDomain number turns program.now s → s.unfit ≡ None →
        result ≡ spec.value_after s.part space reached.now }
{
    match reached {
        None => 0,
        Some(r) => cloaked_value(program, space, r.address, r.width),
    }
}

/// Shows a step that was open, once it was made.
fn put_made<O: Sink>(
    out: &mut O,
    so_far: SoFar,
    open: &Option<OpenContext>,
    program: &DomainAlone,
    item: &Item<'_>,
) -> SoFar
    ensures { (number : ℕ) (turns : List ℕ) (next : model.DomainAlone) →
        StandsForDomain number turns program.now next → next.unfit ≡ None →
        PutsMore (putting O.Sink out.old so_far) (putting O.Sink out.new result)
        (spec.made_context open.now next (item_of item.now)) }
{
    match open {
        None => text(out, so_far, b""),
        Some(open) => {
            let now = sight_of_slot(program, open.slot);
            let value = value_after(program, open.space, &open.ahead.reached);
            put_context_step(
                out,
                so_far,
                open.step,
                open.hart,
                open.ctx,
                &open.ahead,
                last_answer(item),
                &now,
                value,
            )
        }
    }
}

/// The item ended the step, or was its last answer, after which no step is open.
fn is_last(ends: bool, running: Option<u32>) -> bool
    ensures { result ≡ ends || is_none running }
{
    ends || running.is_none()
}

/// The step that was open was made with this item, which fitted.
fn made_with(program: &DomainAlone, item: &Item<'_>) -> bool
    ensures { (number : ℕ) (turns : List ℕ) (next : model.DomainAlone) →
        StandsForDomain number turns program.now next → next.unfit ≡ None →
        result ≡ endings.is_end (item_of item.now) || is_none (running_in next.stage) }
{
    is_last(is_end(item), program.running())
}

/// The step that was open was made with this item, which was answered so.
fn is_made(taken: &Result<(), Unfit>, program: &DomainAlone, item: &Item<'_>) -> bool
    ensures { (number : ℕ) (turns : List ℕ) (next : model.DomainAlone) →
        StandsForDomain number turns program.now next → is_ok taken.now ≡ is_none next.unfit →
        result ≡ spec.is_made next.unfit next.stage (item_of item.now) }
{
    match taken {
        Err(_) => false,
        Ok(()) => made_with(program, item),
    }
}

/// Shows a step that was open, if it was made.
fn put_made_if<O: Sink>(
    out: &mut O,
    so_far: SoFar,
    made: bool,
    open: &Option<OpenContext>,
    program: &DomainAlone,
    item: &Item<'_>,
) -> SoFar
    ensures { (number : ℕ) (turns : List ℕ) (next : model.DomainAlone) →
        StandsForDomain number turns program.now next → made ≡ spec.is_made next.unfit next.stage (item_of item.now) →
        PutsMore (putting O.Sink out.old so_far) (putting O.Sink out.new result)
        (spec.made_if made open.now next (item_of item.now)) }
{
    if made {
        put_made(out, so_far, open, program, item)
    } else {
        text(out, so_far, b"")
    }
}

/// The item tells what was done to the program.
fn is_own(number: u32, item: &Item<'_>) -> bool
    ensures { result ≡ spec.is_own number (item_of item.now) }
{
    match *item {
        Item::Resume { domain, .. } => domain as u32 == number,
        Item::Ended { domain } => domain as u32 == number,
        _ => false,
    }
}

/// Shows an item if it fitted and is chosen.
fn put_fitting<O: Sink>(
    out: &mut O,
    so_far: SoFar,
    taken: &Result<(), Unfit>,
    chosen: bool,
    step: u32,
    hart: usize,
    item: &Item<'_>,
) -> SoFar
    ensures { PutsMore (putting O.Sink out.old so_far) (putting O.Sink out.new result)
        (if is_ok taken.now && chosen then item_line step (Some hart) (item_of item.now) else []) }
{
    match taken {
        Err(_) => text(out, so_far, b""),
        Ok(()) => {
            if chosen {
                put_item_line(out, so_far, step, Some(hart), item)
            } else {
                text(out, so_far, b"")
            }
        }
    }
}

/// Takes an item that tells what was done to the program, and shows it.
fn trace_own<O: Sink>(
    program: &mut DomainAlone,
    number: u32,
    choice: &TraceChoice,
    item: &Item<'_>,
    out: &mut O,
    so_far: SoFar,
) -> (SoFar, Result<(), Unfit>)
    requires { spec.is_own number (item_of item.now) ≡ true }
    ensures { (turns : List ℕ) (s : model.DomainAlone) → StandsForDomain number turns program.old s →
        s.unfit ≡ None → AddsOwn (putting O.Sink out.old so_far) (putting O.Sink out.new result.0) program.new
        result.1 choice.now number turns s (item_of item.now) }
{
    let step = program.step();
    let hart = program.turn() as usize;
    let chosen = choice.has(step, Some(hart));
    let taken = program.take(item);
    let so_far = put_fitting(out, so_far, &taken, chosen, step, hart, item);
    (so_far, taken)
}

/// Takes another item, and shows the step that was made with it.
fn trace_step<O: Sink>(
    program: &mut DomainAlone,
    number: u32,
    choice: &TraceChoice,
    item: &Item<'_>,
    out: &mut O,
    so_far: SoFar,
) -> (SoFar, Result<(), Unfit>)
    requires number { number < 4 }
    requires other { spec.is_own number (item_of item.now) ≡ false }
    ensures { (turns : List ℕ) (s : model.DomainAlone) → StandsForDomain number turns program.old s →
        s.unfit ≡ None → AddsOwn (putting O.Sink out.old so_far) (putting O.Sink out.new result.0) program.new
        result.1 choice.now number turns s (item_of item.now) }
{
    let open = open_context(program, number, choice);
    let taken = program.take(item);
    let made = is_made(&taken, program, item);
    let so_far = put_made_if(out, so_far, made, &open, program, item);
    (so_far, taken)
}

/// Takes an item, and shows what it adds.
pub fn trace_program_item<O: Sink>(
    program: &mut DomainAlone,
    number: u32,
    choice: &TraceChoice,
    item: &Item<'_>,
    out: &mut O,
    so_far: SoFar,
) -> (SoFar, Result<(), Unfit>)
    requires { number < 4 }
    ensures { (turns : List ℕ) (s : model.DomainAlone) → StandsForDomain number turns program.old s →
        s.unfit ≡ None → AddsOwn (putting O.Sink out.old so_far) (putting O.Sink out.new result.0) program.new
        result.1 choice.now number turns s (item_of item.now) }
{
    if is_own(number, item) {
        trace_own(program, number, choice, item, out, so_far)
    } else {
        trace_step(program, number, choice, item, out, so_far)
    }
}

/// The last line of a record that was read to its end.
pub fn put_program_end<O: Sink>(out: &mut O, so_far: SoFar, program: &DomainAlone) -> SoFar
    ensures { (number : ℕ) (turns : List ℕ) (s : model.DomainAlone) → StandsForDomain number turns program.now s →
        s.unfit ≡ None → PutsMore (putting O.Sink out.old so_far) (putting O.Sink out.new result) (spec.program_end s) }
{
    let so_far = text(out, so_far, b"end: step ");
    let so_far = decimal(out, so_far, program.step() as u64);
    text(out, so_far, b" was the last\n")
}
