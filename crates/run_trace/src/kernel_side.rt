//! What an item adds to the trace of the kernel's side.
ghost use Rattle.cloak_model.specs.Items.{item_of};
ghost use Rattle.std.specs.Prelude.{◌≡◌, ◌&&◌, [], true, false, is_ok, List, ℕ, Some, None, if◌then◌else◌};
ghost use Rattle.cloak_model.specs.KernelAlone as model;
ghost use Rattle.cloak_model.specs.KernelAlone.{kernel_hart};
ghost use Rattle.cloak_model.specs.Record.{IsItem};
ghost use Rattle.alone_views.specs.KernelEnding as endings;
ghost use Rattle.alone_views.specs.KernelEnding.{is_end};
ghost use Rattle.alone_views.specs.KernelStages.{stood_stage};
ghost use Rattle.alone_views.specs.KernelStanding.{StandsForKernel};
ghost use Rattle.kernel_report.specs.Putting.{PutsMore, putting};
ghost use Rattle.step_lines.specs.Ahead.{ahead_of};
ghost use Rattle.step_lines.specs.Lines.{item_line};
ghost use Rattle.step_lines.specs.Sights as sights;
ghost use Rattle.run_trace.specs.KernelTrace as spec;
ghost use Rattle.run_trace.specs.Tracing.{AddsItem, EndedAs};

use crate::choice::TraceChoice;
use crate::silent::Silence;
use alone_views::{KernelAlone, KernelStage, Unfit};
use cloak_model::Item;
use host_calls::Hart;
use io_traits::Sink;
use kernel_report::lines::{SoFar, decimal, text};
use step_lines::{HartAhead, HartSight, look_ahead, put_hart_step, put_item_line, sight_of};

/// A step of a hart outside that is open.
#[derive(Clone, Copy)]
pub struct OpenStep {
    pub step: u32,
    pub hart: usize,
    pub ahead: HartAhead,
}

/// What a hart is; of a number without a hart what one is as a run begins.
fn sight_at(kernel: &KernelAlone, number: usize) -> HartSight
    ensures { (turns : List ℕ) (s : model.KernelAlone) → StandsForKernel kernel.now turns s →
        result ≡ sights.sight_of (kernel_hart s.kernel number) }
{
    let harts = kernel.harts();
    if number < harts.len() {
        sight_of(&harts[number])
    } else {
        sight_of(&Hart::start(0, 0))
    }
}

/// What a hart is about to do.
fn ahead_at(kernel: &KernelAlone, number: usize) -> HartAhead
    ensures { (turns : List ℕ) (s : model.KernelAlone) → StandsForKernel kernel.now turns s →
        result ≡ ahead_of s.kernel.ram (kernel_hart s.kernel number) }
{
    let harts = kernel.harts();
    if number < harts.len() {
        look_ahead(kernel.frames(), &harts[number])
    } else {
        look_ahead(kernel.frames(), &Hart::start(0, 0))
    }
}

/// The step of a hart that is open, if it is chosen.
fn open_at(kernel: &KernelAlone, choice: &TraceChoice, hart: usize) -> Option<OpenStep>
    ensures { (turns : List ℕ) (s : model.KernelAlone) → StandsForKernel kernel.now turns s →
        result ≡ spec.open_at choice.now (model.Outside hart) s }
{
    let step = kernel.step();
    let chosen = choice.has(step, Some(hart));
    if chosen {
        Some(OpenStep {
            step,
            hart,
            ahead: ahead_at(kernel, hart),
        })
    } else {
        None
    }
}

/// The step of a hart outside that is open, if it is chosen.
fn open_step(kernel: &KernelAlone, choice: &TraceChoice) -> Option<OpenStep>
    ensures { (turns : List ℕ) (s : model.KernelAlone) → StandsForKernel kernel.now turns s →
        result ≡ spec.open_step choice.now s }
{
    match kernel.stage() {
        KernelStage::Outside { hart } => open_at(kernel, choice, hart),
        KernelStage::Between => None,
        KernelStage::Inside { .. } => None,
        KernelStage::Left => None,
    }
}

/// Shows a step that was open, once it was made.
fn put_made<O: Sink>(
    out: &mut O,
    so_far: SoFar,
    open: &Option<OpenStep>,
    kernel: &KernelAlone,
) -> SoFar
    ensures { (turns : List ℕ) (s next : model.KernelAlone) → StandsForKernel kernel.now turns next →
        EndedAs open.now kernel.now s →
        PutsMore (putting O.Sink out.old so_far) (putting O.Sink out.new result) (spec.made_line open.now s next) }
{
    match open {
        None => text(out, so_far, b""),
        Some(open) => {
            let now = sight_at(kernel, open.hart);
            put_hart_step(
                out,
                so_far,
                open.step,
                open.hart,
                &open.ahead,
                &now,
                kernel.frames(),
                kernel.ending(),
            )
        }
    }
}

/// Takes a marker that ends a step, and shows the step.
fn trace_marker<O: Sink>(
    kernel: &mut KernelAlone,
    choice: &TraceChoice,
    item: &Item<'_>,
    out: &mut O,
    so_far: SoFar,
) -> (SoFar, Result<(), Unfit>)
    requires { is_end (item_of item.now) ≡ true }
    ensures { (turns : List ℕ) (s : model.KernelAlone) → IsItem (item_of item.now) → StandsForKernel kernel.old turns s →
        s.unfit ≡ None → AddsItem (putting O.Sink out.old so_far) (putting O.Sink out.new result.0) kernel.new
        result.1 choice.now turns s (item_of item.now) }
{
    let open = open_step(kernel, choice);
    let taken = kernel.take(item, &mut Silence {});
    let so_far = put_made(out, so_far, &open, kernel);
    (so_far, taken)
}

/// The hart in whose step the items stand.
fn hart_there(stage: KernelStage) -> Option<usize>
    ensures { result ≡ spec.hart_there (stood_stage stage) }
{
    match stage {
        KernelStage::Outside { hart } => Some(hart),
        KernelStage::Inside { hart, .. } => Some(hart),
        KernelStage::Between => None,
        KernelStage::Left => None,
    }
}

/// Shows an item if it fitted and is chosen.
fn put_fitting<O: Sink>(
    out: &mut O,
    so_far: SoFar,
    taken: &Result<(), Unfit>,
    chosen: bool,
    step: u32,
    hart: Option<usize>,
    item: &Item<'_>,
) -> SoFar
    ensures { PutsMore (putting O.Sink out.old so_far) (putting O.Sink out.new result)
        (if is_ok taken.now && chosen then item_line step hart (item_of item.now) else []) }
{
    match taken {
        Err(_) => text(out, so_far, b""),
        Ok(()) => {
            if chosen {
                put_item_line(out, so_far, step, hart, item)
            } else {
                text(out, so_far, b"")
            }
        }
    }
}

/// Takes an item that the kernel could see, and shows it.
fn trace_outward<O: Sink>(
    kernel: &mut KernelAlone,
    choice: &TraceChoice,
    item: &Item<'_>,
    out: &mut O,
    so_far: SoFar,
) -> (SoFar, Result<(), Unfit>)
    requires outward { spec.is_outward (item_of item.now) ≡ true }
    requires no_end { is_end (item_of item.now) ≡ false }
    ensures { (turns : List ℕ) (s : model.KernelAlone) → IsItem (item_of item.now) → StandsForKernel kernel.old turns s →
        s.unfit ≡ None → AddsItem (putting O.Sink out.old so_far) (putting O.Sink out.new result.0) kernel.new
        result.1 choice.now turns s (item_of item.now) }
{
    let step = kernel.step();
    let hart = hart_there(kernel.stage());
    let chosen = choice.has(step, hart);
    let taken = kernel.take(item, &mut Silence {});
    let so_far = put_fitting(out, so_far, &taken, chosen, step, hart, item);
    (so_far, taken)
}

/// Takes an item that the kernel could not see.
fn take_inward<O: Sink>(
    kernel: &mut KernelAlone,
    choice: &TraceChoice,
    item: &Item<'_>,
    out: &mut O,
    so_far: SoFar,
) -> (SoFar, Result<(), Unfit>)
    requires inward { spec.is_outward (item_of item.now) ≡ false }
    requires no_end { is_end (item_of item.now) ≡ false }
    ensures { (turns : List ℕ) (s : model.KernelAlone) → IsItem (item_of item.now) → StandsForKernel kernel.old turns s →
        s.unfit ≡ None → AddsItem (putting O.Sink out.old so_far) (putting O.Sink out.new result.0) kernel.new
        result.1 choice.now turns s (item_of item.now) }
{
    let _ = choice;
    let taken = kernel.take(item, &mut Silence {});
    let so_far = text(out, so_far, b"");
    (so_far, taken)
}

/// The item ends a step.
pub fn is_end(item: &Item<'_>) -> bool
    ensures { result ≡ endings.is_end (item_of item.now) }
{
    matches!(item, Item::Step { .. } | Item::Close { .. })
}

/// The kernel could see the item.
fn is_outward(item: &Item<'_>) -> bool
    ensures { result ≡ spec.is_outward (item_of item.now) }
{
    matches!(
        item,
        Item::Cipher { .. } | Item::Put { .. } | Item::Leave(_)
    )
}

/// Takes an item, and shows what it adds.
pub fn trace_item<O: Sink>(
    kernel: &mut KernelAlone,
    choice: &TraceChoice,
    item: &Item<'_>,
    out: &mut O,
    so_far: SoFar,
) -> (SoFar, Result<(), Unfit>)
    ensures { (turns : List ℕ) (s : model.KernelAlone) → IsItem (item_of item.now) → StandsForKernel kernel.old turns s →
        s.unfit ≡ None → AddsItem (putting O.Sink out.old so_far) (putting O.Sink out.new result.0) kernel.new
        result.1 choice.now turns s (item_of item.now) }
{
    if is_end(item) {
        trace_marker(kernel, choice, item, out, so_far)
    } else if is_outward(item) {
        trace_outward(kernel, choice, item, out, so_far)
    } else {
        take_inward(kernel, choice, item, out, so_far)
    }
}

/// How the last step ended.
fn put_halt<O: Sink>(out: &mut O, so_far: SoFar, halted: bool) -> SoFar
    ensures { PutsMore (putting O.Sink out.old so_far) (putting O.Sink out.new result) (spec.halt_text halted) }
{
    if halted {
        text(out, so_far, b" halted\n")
    } else {
        text(out, so_far, b" was the last\n")
    }
}

/// The last line of a record that was read to its end.
pub fn put_end<O: Sink>(out: &mut O, so_far: SoFar, kernel: &KernelAlone) -> SoFar
    ensures { (turns : List ℕ) (s : model.KernelAlone) → StandsForKernel kernel.now turns s →
        PutsMore (putting O.Sink out.old so_far) (putting O.Sink out.new result) (spec.end_line s) }
{
    let so_far = text(out, so_far, b"end: step ");
    let so_far = decimal(out, so_far, kernel.step() as u64);
    put_halt(out, so_far, kernel.is_halted())
}
