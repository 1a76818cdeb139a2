//! The shapes of marks.

use crate::canvas::Canvas;
use cloak_base::NoMemory;
use run_notes::MarkKind;
use svg_text::Label;

/// Where the shape of a kind begins, right of its middle less 10 and below it less 10, in tenths of a unit with 100 added, and
/// how it goes on.
fn shape(kind: MarkKind) -> (u64, u64, &'static str) {
    match kind {
        MarkKind::Shown => (100, 40, "l5 6-5 6-5-6z"),
        MarkKind::Written => (100, 140, "l5-7h-10z"),
        MarkKind::Read => (100, 60, "l5 7h-10z"),
        MarkKind::Altered => (60, 60, "h8v8h-8z"),
        MarkKind::Put => (100, 40, "l3 4h-2v5h-2v-5h-2z"),
        MarkKind::Stopped => (10, 40, "l3-3 6 6 6-6 3 3-6 6 6 6-3 3-6-6-6 6-3-3 6-6z"),
        MarkKind::Printed | MarkKind::Left | MarkKind::Resumed => (100, 70, "v5"),
    }
}

/// The class of a kind.
fn class(kind: MarkKind) -> &'static str {
    match kind {
        MarkKind::Stopped => "stop",
        MarkKind::Printed | MarkKind::Left | MarkKind::Resumed => "ln",
        _ => "mk",
    }
}

/// Puts the shape of a kind around a place.
pub fn put_glyph(
    canvas: &mut Canvas,
    kind: MarkKind,
    x: u64,
    y: u64,
    title: &Label,
) -> Result<(), NoMemory> {
    let (right, down, rest) = shape(kind);
    let x = x.saturating_add(right).saturating_sub(100);
    let y = y.saturating_add(down).saturating_sub(100);
    canvas.path(x, y, &Label::of(rest), &Label::of(class(kind)), title)
}
