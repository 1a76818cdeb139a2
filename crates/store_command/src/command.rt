//! The command `store`.
ghost use Rattle.std.specs.Prelude.{◌≡◌, ◌<◌, ◌-◌, ◌^◌, ◌++◌, codes};
ghost use Rattle.cloak_machine.specs.Ending.{end_report};
ghost use Rattle.cloak_machine.specs.Standing.{steps_made};
ghost use Rattle.command_words.specs.Request.{asked_of_store, names_of, randomness_of};
ghost use Rattle.io_traits.specs.Sinks.{PutsTo};
ghost use Rattle.command_parts.specs.Outside.{outside};
ghost use Rattle.store_command.specs.Answering.{KeepsFiles, StoreAnswers};
ghost use Rattle.store_command.specs.Preparing.{CanEnd};
ghost use Rattle.store_command.specs.Recording.{StoresPrepared};

use crate::files::leave_files;
use crate::prepare::{PreparedStore, prepare_stored};
use crate::run::record_first;
use cloak_base::Failed;
use cloak_machine::RunEnd;
use command_parts::{Status, refuse};
use command_words::StoreRequest;
use io_traits::{Shelf, Sink, put_all};
use run_command::stop_status;
use std::alloc::Global;

/// Shows the rest of the console's line and the report.
fn show_end<O: Sink>(out: &mut O, end: &RunEnd) -> Result<(), Failed>
    ensures { PutsTo O.Sink out.old out.new (codes "\n" ++ end_report end.now) result }
{
    put_all(out, b"\n")?;
    end.report(out)
}

/// Makes a run that is prepared, and writes all that is due of it, up to the first call that fails.
fn record_stored<S: Shelf, O: Sink>(
    prepared: PreparedStore,
    store: &StoreRequest<'_>,
    shelf: &mut S,
    out: &mut O,
) -> Status
    requires fresh { steps_made prepared.machine ≡ 0 }
    requires left { CanEnd prepared.left }
    requires writing { S.writing_faults shelf.old < 2 ^ 64 - 1 }
    requires output { O.faults out.old < 2 ^ 64 - 1 }
    ensures { StoresPrepared (names_of store.now.files) store.now.counter store.now.steps
        (randomness_of store.now.randomness) prepared
        (outside S.Shelf O.Sink shelf.old out.old) (outside S.Shelf O.Sink shelf.new out.new) result }
{
    let PreparedStore { machine, mut left } = prepared;
    let files = &store.files;
    if shelf.begin(files.record_name).is_err() {
        return Status::WriteFault;
    }
    let Some(end) = record_first(
        machine,
        store.steps,
        files.record_name,
        shelf,
        out,
        &mut left,
    ) else {
        return Status::WriteFault;
    };
    if leave_files(&end.stop, shelf, files, store.counter + 1, &mut left).is_err() {
        return Status::WriteFault;
    }
    if show_end(out, &end).is_err() {
        return Status::WriteFault;
    }
    stop_status(&end.stop, end.is_refused())
}

/// Makes the run over cloaked files that is asked for, with the files of a shelf on which nothing is gathered.
pub fn store_command<S: Shelf, O: Sink>(
    alloc: Global,
    store: &StoreRequest<'_>,
    shelf: &mut S,
    out: &mut O,
) -> Status
    requires settled { S.is_settled shelf.old }
    requires reading { S.reading_faults shelf.old < 2 ^ 64 - 1 }
    requires writing { S.writing_faults shelf.old < 2 ^ 64 - 1 }
    requires output { O.faults out.old < 2 ^ 64 - 1 }
    ensures answers { StoreAnswers (asked_of_store store.now)
        (outside S.Shelf O.Sink shelf.old out.old) (outside S.Shelf O.Sink shelf.new out.new) result }
    ensures kept { KeepsFiles (names_of store.now.files) result (S.held shelf.old) (S.held shelf.new) }
{
    match prepare_stored(alloc, store, shelf) {
        Ok(prepared) => record_stored(prepared, store, shelf, out),
        Err(refusal) => refuse(out, &refusal),
    }
}
