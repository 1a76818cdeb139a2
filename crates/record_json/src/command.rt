//! The command `show --json`.
ghost use Rattle.std.specs.Prelude.{◌≡◌, true, false};
ghost use Rattle.io_traits.specs.Told.{SameFiles};
ghost use Rattle.command_parts.specs.Outside.{outside};
ghost use Rattle.read_back.specs.Reading.{ShowsRecord, never_unfit};
ghost use Rattle.record_json.specs.JsonText.{json_by, json_text};

use crate::counting::put_counts;
use crate::ending::put_ending;
use crate::showing::show_objects;
use command_parts::Status;
use io_traits::{Shelf, Sink};
use record_text::{Selection, count_items, status_of};

/// Shows the items of a record that are chosen.
fn show_each<S: Shelf, O: Sink>(
    name: &str,
    selection: &Selection,
    shelf: &mut S,
    out: &mut O,
) -> Status
    requires { S.is_settled shelf.old }
    ensures shows { ShowsRecord never_unfit (json_by false selection.now) name.now result
        (outside S.Shelf O.Sink shelf.old out.old) (outside S.Shelf O.Sink shelf.new out.new) }
    ensures files { SameFiles (S.held shelf.old) (S.held shelf.new) }
    ensures writing { S.writing_faults shelf.new ≡ S.writing_faults shelf.old }
{
    match show_objects(name, selection, shelf, out) {
        Ok(ending) => {
            let so_far = put_ending(out, Ok(()), &ending);
            status_of(so_far, &ending)
        }
        Err(_) => Status::WriteFault,
    }
}

/// Shows how many items of a record are chosen of each kind.
fn show_counts<S: Shelf, O: Sink>(
    name: &str,
    selection: &Selection,
    shelf: &mut S,
    out: &mut O,
) -> Status
    requires { S.is_settled shelf.old }
    ensures shows { ShowsRecord never_unfit (json_by true selection.now) name.now result
        (outside S.Shelf O.Sink shelf.old out.old) (outside S.Shelf O.Sink shelf.new out.new) }
    ensures files { SameFiles (S.held shelf.old) (S.held shelf.new) }
    ensures writing { S.writing_faults shelf.new ≡ S.writing_faults shelf.old }
{
    let (counts, ending) = count_items(name, selection, shelf);
    let so_far = put_counts(out, Ok(()), &counts);
    let so_far = put_ending(out, so_far, &ending);
    status_of(so_far, &ending)
}

/// Shows what is chosen of a record as objects.
pub fn show_json_command<S: Shelf, O: Sink>(
    name: &str,
    selection: &Selection,
    shelf: &mut S,
    out: &mut O,
) -> Status
    requires { S.is_settled shelf.old }
    ensures shows { ShowsRecord never_unfit (json_text selection.now) name.now result
        (outside S.Shelf O.Sink shelf.old out.old) (outside S.Shelf O.Sink shelf.new out.new) }
    ensures files { SameFiles (S.held shelf.old) (S.held shelf.new) }
    ensures writing { S.writing_faults shelf.new ≡ S.writing_faults shelf.old }
{
    if selection.counts {
        show_counts(name, selection, shelf, out)
    } else {
        show_each(name, selection, shelf, out)
    }
}
