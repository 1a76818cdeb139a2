//! The lines of a trace.
ghost use Rattle.cloak_model.specs.Items.{item_of};
ghost use Rattle.std.specs.Prelude.{◌≡◌, ◌≤◌, ◌++◌, length, codes, Some};
ghost use Rattle.kernel_report.specs.Putting.{PutsMore, putting};
ghost use Rattle.step_lines.specs.Lines as spec;

use crate::ahead::HartAhead;
use crate::columns::{put_front, put_mode_column, put_word_columns};
use crate::endings::{executed_word, put_step_effects};
use crate::sight::HartSight;
use cloak_model::{Item, Kernel};
use io_traits::Sink;
use kernel_report::lines::{SoFar, hexadecimal, text};
use record_text::put_item;

/// The line of a step of a hart outside: what it was about to do, the hart and the frames after it, and how it ended.
pub fn put_hart_step<O: Sink>(
    out: &mut O,
    so_far: SoFar,
    step: u32,
    hart: usize,
    a: &HartAhead,
    now: &HartSight,
    frames: &[[u8; 4096]],
    ending: Kernel,
) -> SoFar
    requires { length frames.now ≤ 4096 }
    ensures { PutsMore (putting O.Sink out.old so_far) (putting O.Sink out.new result)
        (spec.hart_step_line step hart a.now now.now frames.now ending) }
{
    let so_far = put_front(out, so_far, step, Some(hart));
    let so_far = put_mode_column(out, so_far, a.sight.mode);
    let so_far = hexadecimal(out, so_far, a.sight.pc);
    let at = put_word_columns(out, so_far, executed_word(a, now, ending), a.sight.pc);
    let at = put_step_effects(out, at, a, now, frames, ending);
    text(out, at.so_far, b"\n")
}

/// The line of an item of a step.
pub fn put_item_line<O: Sink>(
    out: &mut O,
    so_far: SoFar,
    step: u32,
    hart: Option<usize>,
    item: &Item<'_>,
) -> SoFar
    ensures { PutsMore (putting O.Sink out.old so_far) (putting O.Sink out.new result)
        (spec.item_line step hart (item_of item.now)) }
{
    let so_far = put_front(out, so_far, step, hart);
    let so_far = put_item(out, so_far, item);
    text(out, so_far, b"\n")
}
