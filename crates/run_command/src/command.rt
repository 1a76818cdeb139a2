//! The command `run`.
ghost use Rattle.std.specs.Prelude.{◌≡◌, ◌<◌, ◌-◌, ◌^◌, [], Ok, map};
ghost use Rattle.cloak_model.specs.declared.image.Bundle.{Bundle};
ghost use Rattle.cloak_model.specs.Beginning.{Beginning, opening_from};
ghost use Rattle.cloak_model.specs.Opening.{RunEdge};
ghost use Rattle.cloak_model.specs.Run.{first_moment, run_of};
ghost use Rattle.cloak_machine.specs.Standing.{StandsForMoment, placings_of, steps_made};
ghost use Rattle.command_words.specs.Request.{asked_of_run};
ghost use Rattle.joint_machine.specs.Placings.{placing};
ghost use Rattle.command_parts.specs.Outside.{outside};
ghost use Rattle.run_command.specs.Answering.{KeepsFiles, RunAnswers};
ghost use Rattle.run_command.specs.Recording.{Records};

use crate::outlet::Outlet;
use crate::pen::RecordPen;
use crate::prepare::prepare_run;
use crate::run::write_run;
use cloak_machine::Machine;
use command_parts::{Status, refuse};
use command_words::RunRequest;
use exchange_log::LONGEST;
use io_traits::{Shelf, Sink};
use std::alloc::Global;

/// Begins the record of a run and makes it.
fn record_run<S: Shelf, O: Sink>(
    machine: Machine,
    run: &RunRequest<'_>,
    shelf: &mut S,
    out: &mut O,
) -> Status
    requires { steps_made machine ≡ 0 }
    ensures { (b : Bundle) (from : Beginning) (o : RunEdge) → opening_from b from ≡ Ok o →
        placings_of machine ≡ map placing b.programs → StandsForMoment machine (first_moment b o.joint) →
        Records run.now.record_name.now
        (outside S.Shelf O.Sink shelf.old out.old) (outside S.Shelf O.Sink shelf.new out.new)
        result (run_of b run.now.steps o) }
{
    if shelf.begin(run.record_name).is_err() {
        return Status::WriteFault;
    }
    let mut outlet = Outlet {
        pen: RecordPen {
            shelf,
            name: run.record_name,
            failed: false,
        },
        out,
        piece: [0; LONGEST],
    };
    let status = write_run(machine, run.steps, &mut outlet);
    if outlet.pen.failed {
        return Status::WriteFault;
    }
    status
}

/// Makes the run that is asked for, with the files of a shelf on which nothing is gathered.
pub fn run_command<S: Shelf, O: Sink>(
    alloc: Global,
    run: &RunRequest<'_>,
    shelf: &mut S,
    out: &mut O,
) -> Status
    requires settled { S.is_settled shelf.old }
    requires reading { S.reading_faults shelf.old < 2 ^ 64 - 1 }
    requires writing { S.writing_faults shelf.old < 2 ^ 64 - 1 }
    requires output { O.faults out.old < 2 ^ 64 - 1 }
    ensures answers { RunAnswers (asked_of_run run.now)
        (outside S.Shelf O.Sink shelf.old out.old) (outside S.Shelf O.Sink shelf.new out.new) result }
    ensures kept { KeepsFiles (asked_of_run run.now) result (S.held shelf.old) (S.held shelf.new) }
{
    match prepare_run(alloc, run.bundle, &run.randomness, shelf) {
        Ok(machine) => record_run(machine, run, shelf, out),
        Err(refusal) => refuse(out, &refusal),
    }
}
