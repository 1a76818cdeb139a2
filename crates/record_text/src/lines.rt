//! The lines of a record: one for the opening, each step, the closing and the end, with the items of that place.
ghost use Rattle.cloak_model.specs.Items.{item_of};
ghost use Rattle.std.specs.Prelude.{◌≡◌, [], if◌then◌else◌};
ghost use Rattle.kernel_report.specs.Putting.{PutsMore, putting};
ghost use Rattle.record_text.specs.Lines as spec;

use crate::items::put_item;
use crate::place::{RecordPlace, place_marked};
use crate::selection::Selection;
use cloak_model::Item;
use io_traits::Sink;
use kernel_report::lines::{SoFar, decimal, text};

/// The line that is being shown.
#[derive(Clone, Copy, Debug, PartialEq, Eq)]
pub struct Line {
    pub place: RecordPlace,
    /// Something of it was shown.
    pub is_open: bool,
}

/// The name of a step or the closing.
fn put_number<O: Sink>(out: &mut O, so_far: SoFar, words: &[u8], number: u32) -> SoFar
    ensures { PutsMore (putting O.Sink out.old so_far) (putting O.Sink out.new result)
        (spec.numbered_place words.now number) }
{
    let so_far = text(out, so_far, words);
    decimal(out, so_far, number as u64)
}

/// The name of a place.
fn put_place<O: Sink>(out: &mut O, so_far: SoFar, place: RecordPlace) -> SoFar
    ensures { PutsMore (putting O.Sink out.old so_far) (putting O.Sink out.new result) (spec.place_text place) }
{
    match place {
        RecordPlace::Opening => text(out, so_far, b"opening"),
        RecordPlace::Step(number) => put_number(out, so_far, b"step ", number),
        RecordPlace::Closing(steps) => put_number(out, so_far, b"closing after step ", steps),
        RecordPlace::End => text(out, so_far, b"end"),
    }
}

/// Ends a line, if one was begun.
pub fn end_line<O: Sink>(out: &mut O, so_far: SoFar, line: Line) -> SoFar
    ensures { PutsMore (putting O.Sink out.old so_far) (putting O.Sink out.new result) (spec.line_end line) }
{
    if line.is_open {
        text(out, so_far, b"\n")
    } else {
        text(out, so_far, b"")
    }
}

/// Begins a line, if none was begun.
fn begin_line<O: Sink>(out: &mut O, so_far: SoFar, line: Line) -> SoFar
    ensures { PutsMore (putting O.Sink out.old so_far) (putting O.Sink out.new result) (spec.line_begin line) }
{
    if line.is_open {
        text(out, so_far, b"")
    } else {
        put_place(out, so_far, line.place)
    }
}

/// Begins the line of a place that is shown even if none of its items is.
fn begin_bare<O: Sink>(out: &mut O, so_far: SoFar, place: RecordPlace, is_bare: bool) -> SoFar
    ensures { PutsMore (putting O.Sink out.old so_far) (putting O.Sink out.new result)
        (if is_bare then spec.place_text place else []) }
{
    if is_bare {
        put_place(out, so_far, place)
    } else {
        text(out, so_far, b"")
    }
}

/// Goes on at a place, and returns its line.
#[tactic(auto, unfolding(crate::specs::Lines::at_place))]
fn at_place<O: Sink>(
    out: &mut O,
    so_far: SoFar,
    line: Line,
    place: RecordPlace,
    selection: &Selection,
) -> (SoFar, Line)
    ensures text { PutsMore (putting O.Sink out.old so_far) (putting O.Sink out.new result.0)
        (spec.at_place selection.now line place).text }
    ensures line { result.1 ≡ (spec.at_place selection.now line place).line }
{
    let so_far = end_line(out, so_far, line);
    let bare = selection.has_bare(place);
    let so_far = begin_bare(out, so_far, place, bare);
    (
        so_far,
        Line {
            place,
            is_open: bare,
        },
    )
}

/// Shows an item that is chosen.
fn put_chosen<O: Sink>(out: &mut O, so_far: SoFar, line: Line, item: &Item<'_>) -> SoFar
    ensures { PutsMore (putting O.Sink out.old so_far) (putting O.Sink out.new result)
        (spec.item_on_line line (item_of item.now)) }
{
    let so_far = begin_line(out, so_far, line);
    let so_far = text(out, so_far, b"; ");
    put_item(out, so_far, item)
}

/// Shows an item that is no marker, if it is chosen, and returns the line that it stands on.
#[tactic(auto, unfolding(crate::specs::Lines::on_line))]
fn put_on_line<O: Sink>(
    out: &mut O,
    so_far: SoFar,
    line: Line,
    item: &Item<'_>,
    selection: &Selection,
) -> (SoFar, Line)
    ensures text { PutsMore (putting O.Sink out.old so_far) (putting O.Sink out.new result.0)
        (spec.on_line selection.now line (item_of item.now)).text }
    ensures line { result.1 ≡ (spec.on_line selection.now line (item_of item.now)).line }
{
    if selection.has_item(line.place, item) {
        let so_far = put_chosen(out, so_far, line, item);
        let place = line.place;
        (
            so_far,
            Line {
                place,
                is_open: true,
            },
        )
    } else {
        (text(out, so_far, b""), line)
    }
}

/// Shows an item, if it is chosen, and returns the line that it stands on.
#[tactic(auto, unfolding(crate::specs::Lines::line_more))]
pub fn put_next<O: Sink>(
    out: &mut O,
    so_far: SoFar,
    line: Line,
    item: &Item<'_>,
    selection: &Selection,
) -> (SoFar, Line)
    ensures text { PutsMore (putting O.Sink out.old so_far) (putting O.Sink out.new result.0)
        (spec.line_more selection.now line (item_of item.now)).text }
    ensures line { result.1 ≡ (spec.line_more selection.now line (item_of item.now)).line }
{
    match place_marked(item) {
        Some(place) => at_place(out, so_far, line, place, selection),
        None => put_on_line(out, so_far, line, item, selection),
    }
}

/// Begins with the opening.
#[tactic(auto, unfolding(crate::specs::Lines::opening_line))]
pub fn put_first<O: Sink>(out: &mut O, so_far: SoFar, selection: &Selection) -> (SoFar, Line)
    ensures text { PutsMore (putting O.Sink out.old so_far) (putting O.Sink out.new result.0)
        (spec.opening_line selection.now).text }
    ensures line { result.1 ≡ (spec.opening_line selection.now).line }
{
    let none = Line {
        place: RecordPlace::Opening,
        is_open: false,
    };
    at_place(out, so_far, none, RecordPlace::Opening, selection)
}
