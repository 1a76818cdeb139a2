//! The command `freeze`.
ghost use Rattle.std.specs.Prelude.{◌≡◌, ◌<◌, ◌-◌, ◌^◌};
ghost use Rattle.cloak_machine.specs.Standing.{steps_made};
ghost use Rattle.command_words.specs.Request.{asked_of_freeze, freeze_names_of, randomness_of};
ghost use Rattle.command_parts.specs.Outside.{outside};
ghost use Rattle.frozen_commands.specs.FreezeAnswering.{FreezeAnswers, FreezesPrepared, KeepsFrozenFiles};

use crate::first::{First, record_first};
use crate::freezing::{PreparedFreeze, prepare_frozen};
use crate::saving::leave_state;
use command_parts::{Status, refuse};
use command_words::FreezeRequest;
use io_traits::{Shelf, Sink};
use std::alloc::Global;

/// Makes the steps of a run that is prepared, and freezes it, up to the first call that fails.
fn record_frozen<S: Shelf, O: Sink>(
    prepared: PreparedFreeze,
    freeze: &FreezeRequest<'_>,
    shelf: &mut S,
    out: &mut O,
) -> Status
    requires fresh { steps_made prepared.machine ≡ 0 }
    requires writing { S.writing_faults shelf.old < 2 ^ 64 - 1 }
    requires output { O.faults out.old < 2 ^ 64 - 1 }
    ensures { FreezesPrepared (freeze_names_of freeze.now.files) freeze.now.steps (randomness_of freeze.now.randomness)
        prepared (outside S.Shelf O.Sink shelf.old out.old) (outside S.Shelf O.Sink shelf.new out.new) result }
{
    let PreparedFreeze { machine, left } = prepared;
    let files = &freeze.files;
    if shelf.begin(files.record_name).is_err() {
        return Status::WriteFault;
    }
    match record_first(machine, freeze.steps, files.record_name, shelf, out) {
        First::Reached(machine) => leave_state(machine, left, files.state_name, shelf, out),
        First::Ended(status) => status,
        First::Failed => Status::WriteFault,
    }
}

/// Makes the run that is asked for and freezes it, with the files of a shelf on which nothing is gathered.
pub fn freeze_command<S: Shelf, O: Sink>(
    alloc: Global,
    freeze: &FreezeRequest<'_>,
    shelf: &mut S,
    out: &mut O,
) -> Status
    requires settled { S.is_settled shelf.old }
    requires reading { S.reading_faults shelf.old < 2 ^ 64 - 1 }
    requires writing { S.writing_faults shelf.old < 2 ^ 64 - 1 }
    requires output { O.faults out.old < 2 ^ 64 - 1 }
    ensures answers { FreezeAnswers (asked_of_freeze freeze.now)
        (outside S.Shelf O.Sink shelf.old out.old) (outside S.Shelf O.Sink shelf.new out.new) result }
    ensures kept { KeepsFrozenFiles (freeze_names_of freeze.now.files) result (S.held shelf.old) (S.held shelf.new) }
{
    match prepare_frozen(alloc, freeze, shelf) {
        Ok(prepared) => record_frozen(prepared, freeze, shelf, out),
        Err(refusal) => refuse(out, &refusal),
    }
}
