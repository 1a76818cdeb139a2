//! A record, from its first item to its end or its first fault.
ghost use Rattle.cloak_model.specs.Items.{item_of};
ghost use Rattle.std.specs.Prelude.{◌≡◌, ◌<◌, ◌-◌, ◌^◌, length, Ok, Some};
ghost use Rattle.kernel_report.specs.Putting.{putting};
ghost use Rattle.io_traits.specs.Told.{SameFiles};
ghost use Rattle.record_text.specs.Counting.{AreCounts, Chosen, chosen_more};
ghost use Rattle.record_text.specs.Showing.{CountsItems, ShowsItems};

use crate::counts::KindCounts;
use crate::lines::{Line, end_line, put_first, put_next};
use crate::place::{RecordPlace, place_marked};
use crate::selection::Selection;
use cloak_base::Failed;
use cloak_model::Item;
use io_traits::{Shelf, Sink};
use read_back::{Ending, TakeItems, for_each_item, next_item};
use record_reader::Reader;

/// An output that shows items in lines, and the line that was shown last.
#[derive(Drop)]
struct LinesOutput<'a, O: Sink> {
    out: &'a mut O,
    selection: &'a Selection,
    line: Line,
}

impl<'a, O: Sink> TakeItems for LinesOutput<'a, O> {
    ghost use Rattle.record_text.specs.Taking.{TookInLines};

    type Stop = Failed;

    ghost took = { TookInLines O.Sink };

    fn take_item(&mut self, item: &Item<'_>) -> Result<(), Failed> {
        let (put, next) = put_next(self.out, Ok(()), self.line, item, self.selection);
        self.line = next;
        put
    }
}

/// Shows the items of a record that are chosen, up to where reading ends or the output fails.
pub fn show_items<S: Shelf, O: Sink>(
    name: &str,
    selection: &Selection,
    shelf: &mut S,
    out: &mut O,
) -> Result<Ending, Failed>
    requires { S.is_settled shelf.old }
    ensures shows { ShowsItems selection.now (S.held shelf.old name.now)
        (S.reading_faults shelf.old) (S.reading_faults shelf.new)
        (putting O.Sink out.old (Ok tt)) (putting O.Sink out.new) result }
    ensures files { SameFiles (S.held shelf.old) (S.held shelf.new) }
    ensures writing { S.writing_faults shelf.new ≡ S.writing_faults shelf.old }
{
    let (put, line) = put_first(out, Ok(()), selection);
    if let Err(failed) = put {
        return Err(failed);
    }
    let mut lines = LinesOutput {
        out,
        selection,
        line,
    };
    let ending = match for_each_item(name, shelf, &mut lines) {
        Ok(ending) => ending,
        Err(failed) => return Err(failed),
    };
    let last = lines.line;
    match end_line(out, Ok(()), last) {
        Ok(()) => Ok(ending),
        Err(failed) => Err(failed),
    }
}

/// Counts an item, if it is chosen, and returns the place of what comes next.
fn count_next(
    counts: &mut KindCounts,
    selection: &Selection,
    place: RecordPlace,
    item: &Item<'_>,
) -> RecordPlace
    ensures counts { (c : Chosen) → c.place ≡ place → length c.items < 2 ^ 64 - 1 → AreCounts counts.old c.items →
        AreCounts counts.new (chosen_more selection.now c (item_of item.now)).items }
    ensures place { (c : Chosen) → c.place ≡ place → result ≡ (chosen_more selection.now c (item_of item.now)).place }
{
    if let Some(next) = place_marked(item) {
        return next;
    }
    if selection.has_item(place, item) {
        counts.count(item);
    }
    place
}

/// Counts the items of a record that are chosen, and returns how reading ended.
pub fn count_items<S: Shelf>(
    name: &str,
    selection: &Selection,
    shelf: &mut S,
) -> (KindCounts, Ending)
    requires { S.is_settled shelf.old }
    ensures counts { CountsItems selection.now (S.held shelf.old name.now)
        (S.reading_faults shelf.old) (S.reading_faults shelf.new) result.0 result.1 }
    ensures files { SameFiles (S.held shelf.old) (S.held shelf.new) }
    ensures writing { S.writing_faults shelf.new ≡ S.writing_faults shelf.old }
{
    let mut counts = KindCounts::new();
    let mut place = RecordPlace::Opening;
    let mut reader = Reader::open(name);
    let mut room = [0; 4096];
    loop {
        match next_item(&mut reader, shelf, &mut room) {
            Ok(item) => place = count_next(&mut counts, selection, place, &item),
            Err(ending) => return (counts, ending),
        }
    }
}
