//! The command `thaw`.
ghost use Rattle.std.specs.Prelude.{◌≡◌, ◌<◌, ◌≤◌, ◌+◌, ◌-◌, ◌^◌};
ghost use Rattle.cloak_model.specs.Run.{most_steps};
ghost use Rattle.cloak_machine.specs.Standing.{steps_made};
ghost use Rattle.command_words.specs.Request.{asked_of_thaw, randomness_of, thaw_names_of};
ghost use Rattle.command_parts.specs.Outside.{outside};
ghost use Rattle.frozen_commands.specs.ThawAnswering.{KeepsThawedFiles, ThawAnswers, ThawsPrepared};

use crate::rest::record_rest;
use crate::thawing::prepare_thawed;
use cloak_machine::Machine;
use command_parts::{Status, refuse};
use command_words::ThawRequest;
use io_traits::{Shelf, Sink};
use std::alloc::Global;

/// Makes the rest of a run, up to the first call that fails.
fn record_thawed<S: Shelf, O: Sink>(
    machine: Machine,
    thaw: &ThawRequest<'_>,
    shelf: &mut S,
    out: &mut O,
) -> Status
    requires few { steps_made machine + thaw.now.steps ≤ most_steps }
    requires writing { S.writing_faults shelf.old < 2 ^ 64 - 1 }
    requires output { O.faults out.old < 2 ^ 64 - 1 }
    ensures { ThawsPrepared (thaw_names_of thaw.now.files) thaw.now.steps (randomness_of thaw.now.randomness)
        machine (outside S.Shelf O.Sink shelf.old out.old) (outside S.Shelf O.Sink shelf.new out.new) result }
{
    let name = thaw.files.record_name;
    if shelf.begin(name).is_err() {
        return Status::WriteFault;
    }
    match record_rest(machine, thaw.steps, name, shelf, out) {
        Some(status) => status,
        None => Status::WriteFault,
    }
}

/// Makes the rest of the run that is asked for, with the files of a shelf on which nothing is gathered.
pub fn thaw_command<S: Shelf, O: Sink>(
    alloc: Global,
    thaw: &ThawRequest<'_>,
    shelf: &mut S,
    out: &mut O,
) -> Status
    requires settled { S.is_settled shelf.old }
    requires reading { S.reading_faults shelf.old < 2 ^ 64 - 1 }
    requires writing { S.writing_faults shelf.old < 2 ^ 64 - 1 }
    requires output { O.faults out.old < 2 ^ 64 - 1 }
    ensures answers { ThawAnswers (asked_of_thaw thaw.now)
        (outside S.Shelf O.Sink shelf.old out.old) (outside S.Shelf O.Sink shelf.new out.new) result }
    ensures kept { KeepsThawedFiles (thaw_names_of thaw.now.files) result (S.held shelf.old) (S.held shelf.new) }
{
    match prepare_thawed(alloc, thaw, shelf) {
        Ok(machine) => record_thawed(machine, thaw, shelf, out),
        Err(refusal) => refuse(out, &refusal),
    }
}
