//! The command `show`.
ghost use Rattle.std.specs.Prelude.{◌≡◌, true, false};
ghost use Rattle.kernel_report.specs.Putting.{PutsMore, putting};
ghost use Rattle.io_traits.specs.Told.{SameFiles};
ghost use Rattle.command_parts.specs.Outside.{outside};
ghost use Rattle.read_back.specs.Reading.{ShowsRecord, never_unfit};
ghost use Rattle.read_back.specs.Text.{fault_line};
ghost use Rattle.record_text.specs.Reading.{record_text, status_shown, text_by};

use crate::selection::Selection;
use crate::showing::{count_items, show_items};
use command_parts::Status;
use io_traits::{Shelf, Sink};
use kernel_report::lines::SoFar;
use read_back::{Ending, show_fault, status};

/// Shows why a record was not read to its end, unless something failed before.
fn put_ending<O: Sink>(out: &mut O, so_far: SoFar, ending: &Ending) -> SoFar
    ensures { PutsMore (putting O.Sink out.old so_far) (putting O.Sink out.new result) (fault_line ending.now) }
{
    match so_far {
        Ok(()) => show_fault(out, ending),
        Err(failed) => Err(failed),
    }
}

/// The status for how reading ended and showing went.
pub fn status_of(so_far: SoFar, ending: &Ending) -> Status
    ensures { result ≡ status_shown ending.now so_far }
{
    match so_far {
        Ok(()) => status(ending),
        Err(_) => Status::WriteFault,
    }
}

/// Shows the items of a record that are chosen.
fn show_record<S: Shelf, O: Sink>(
    name: &str,
    selection: &Selection,
    shelf: &mut S,
    out: &mut O,
) -> Status
    requires { S.is_settled shelf.old }
    ensures shows { ShowsRecord never_unfit (text_by false selection.now) name.now result
        (outside S.Shelf O.Sink shelf.old out.old) (outside S.Shelf O.Sink shelf.new out.new) }
    ensures files { SameFiles (S.held shelf.old) (S.held shelf.new) }
    ensures writing { S.writing_faults shelf.new ≡ S.writing_faults shelf.old }
{
    match show_items(name, selection, shelf, out) {
        Ok(ending) => {
            let so_far = put_ending(out, Ok(()), &ending);
            status_of(so_far, &ending)
        }
        Err(_) => Status::WriteFault,
    }
}

/// Shows how many items of a record are chosen of each kind.
fn show_counts<S: Shelf, O: Sink>(
    name: &str,
    selection: &Selection,
    shelf: &mut S,
    out: &mut O,
) -> Status
    requires { S.is_settled shelf.old }
    ensures shows { ShowsRecord never_unfit (text_by true selection.now) name.now result
        (outside S.Shelf O.Sink shelf.old out.old) (outside S.Shelf O.Sink shelf.new out.new) }
    ensures files { SameFiles (S.held shelf.old) (S.held shelf.new) }
    ensures writing { S.writing_faults shelf.new ≡ S.writing_faults shelf.old }
{
    let (counts, ending) = count_items(name, selection, shelf);
    let so_far = counts.put(out, Ok(()));
    let so_far = put_ending(out, so_far, &ending);
    status_of(so_far, &ending)
}

/// Shows what is chosen of a record.
pub fn show_command<S: Shelf, O: Sink>(
    name: &str,
    selection: &Selection,
    shelf: &mut S,
    out: &mut O,
) -> Status
    requires { S.is_settled shelf.old }
    ensures shows { ShowsRecord never_unfit (record_text selection.now) name.now result
        (outside S.Shelf O.Sink shelf.old out.old) (outside S.Shelf O.Sink shelf.new out.new) }
    ensures files { SameFiles (S.held shelf.old) (S.held shelf.new) }
    ensures writing { S.writing_faults shelf.new ≡ S.writing_faults shelf.old }
{
    if selection.counts {
        show_counts(name, selection, shelf, out)
    } else {
        show_record(name, selection, shelf, out)
    }
}
