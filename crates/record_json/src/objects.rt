//! An item as an object, on a line of its own.
#![tactic(auto, unfolding(json::specs::Print::escape_byte))]

ghost use Rattle.cloak_model.specs.Items.{item_of};
ghost use Rattle.std.specs.Prelude.{◌≡◌, if◌then◌else◌, []};
ghost use Rattle.json.specs.Print.{escape};
ghost use Rattle.kernel_report.specs.Putting.{PutsMore, putting};
ghost use Rattle.record_json.specs.JsonText as spec;
ghost use Rattle.record_json.specs.Members.{begun_with};
ghost use Rattle.record_json.specs.Objects.{end_place, numbered_place, place_members};

use crate::fields::put_item_members;
use crate::members::{put_first_text, put_number};
use cloak_model::Item;
use io_traits::Sink;
use kernel_report::lines::{SoFar, text};
use record_text::{RecordPlace, Selection, place_marked};

/// A place in a step.
fn put_numbered<O: Sink>(out: &mut O, so_far: SoFar, name: &str, step: u32) -> SoFar
    requires { escape name.now ≡ name.now }
    ensures { PutsMore (putting O.Sink out.old so_far) (putting O.Sink out.new result)
        (begun_with (numbered_place name.now step)) }
{
    let so_far = text(out, so_far, b"{");
    let so_far = put_first_text(out, so_far, "place", name);
    put_number(out, so_far, "step", step as u64)
}

/// The place of the last item.
fn put_end<O: Sink>(out: &mut O, so_far: SoFar) -> SoFar
    ensures { PutsMore (putting O.Sink out.old so_far) (putting O.Sink out.new result) (begun_with end_place) }
{
    let so_far = text(out, so_far, b"{");
    put_first_text(out, so_far, "place", "end")
}

/// Where an item stands.
fn put_place<O: Sink>(out: &mut O, so_far: SoFar, place: RecordPlace) -> SoFar
    ensures { PutsMore (putting O.Sink out.old so_far) (putting O.Sink out.new result)
        (begun_with (place_members place)) }
{
    match place {
        RecordPlace::Opening => put_numbered(out, so_far, "opening", 0),
        RecordPlace::Step(number) => put_numbered(out, so_far, "step", number),
        RecordPlace::Closing(steps) => put_numbered(out, so_far, "closing", steps),
        RecordPlace::End => put_end(out, so_far),
    }
}

/// An item at a place, on a line of its own.
fn put_object<O: Sink>(out: &mut O, so_far: SoFar, place: RecordPlace, item: &Item<'_>) -> SoFar
    ensures { PutsMore (putting O.Sink out.old so_far) (putting O.Sink out.new result)
        (spec.item_line place (item_of item.now)) }
{
    let so_far = put_place(out, so_far, place);
    let so_far = put_item_members(out, so_far, item);
    text(out, so_far, b"}\n")
}

/// An item at a place, if it is chosen.
fn put_if<O: Sink>(
    out: &mut O,
    so_far: SoFar,
    place: RecordPlace,
    item: &Item<'_>,
    is_chosen: bool,
) -> SoFar
    ensures { PutsMore (putting O.Sink out.old so_far) (putting O.Sink out.new result)
        (if is_chosen then spec.item_line place (item_of item.now) else []) }
{
    if is_chosen {
        put_object(out, so_far, place, item)
    } else {
        text(out, so_far, b"")
    }
}

/// Shows an item that stands at a place, if it is chosen, and returns the place of what comes next.
#[tactic(auto, unfolding(crate::specs::JsonText::object_more_by))]
pub fn put_next_object<O: Sink>(
    out: &mut O,
    so_far: SoFar,
    place: RecordPlace,
    item: &Item<'_>,
    selection: &Selection,
) -> (SoFar, RecordPlace)
    ensures text { PutsMore (putting O.Sink out.old so_far) (putting O.Sink out.new result.0)
        (spec.object_more selection.now place (item_of item.now)).text }
    ensures place { result.1 ≡ (spec.object_more selection.now place (item_of item.now)).place }
{
    match place_marked(item) {
        Some(next) => {
            let is_chosen = selection.has_bare(next);
            (put_if(out, so_far, next, item, is_chosen), next)
        }
        None => {
            let is_chosen = selection.has_item(place, item);
            (put_if(out, so_far, place, item, is_chosen), place)
        }
    }
}
