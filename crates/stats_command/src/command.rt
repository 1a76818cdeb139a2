//! The command `stats`.
ghost use Rattle.std.specs.Prelude.{◌≡◌, ◌<◌, ◌≤◌, ◌-◌, ◌^◌, Ok};
ghost use Rattle.cloak_base.specs.Random.{Random};
ghost use Rattle.cloak_model.specs.declared.image.Bundle.{Bundle};
ghost use Rattle.cloak_model.specs.Opening.{RunEdge, opening};
ghost use Rattle.cloak_model.specs.Run.{first_moment, most_steps};
ghost use Rattle.cloak_machine.specs.Standing.{StandsForMoment, steps_made};
ghost use Rattle.command_words.specs.Request.{asked_of_stats};
ghost use Rattle.io_traits.specs.Told.{SameFiles};
ghost use Rattle.command_parts.specs.Outside.{output, outside};
ghost use Rattle.stats_command.specs.Answering.{StatsAnswers};
ghost use Rattle.stats_command.specs.Showing.{ShowsStats};

use crate::counting::count_run;
use crate::showing::show_stats;
use cloak_machine::Machine;
use command_parts::{Status, refuse};
use command_words::StatsRequest;
use io_traits::{Shelf, Sink};
use run_command::{prepare_run, stop_status};
use std::alloc::Global;

/// Makes the run of a machine that made no step yet, and shows why it ended, and its counts.
fn count_and_show<O: Sink>(machine: Machine, steps: u32, out: &mut O) -> Status
    requires fresh { steps_made machine ≡ 0 }
    requires few { steps ≤ most_steps }
    requires output { O.faults out.old < 2 ^ 64 - 1 }
    ensures { (b : Bundle) (stream : Random) (o : RunEdge) → opening b stream ≡ Ok o →
        StandsForMoment machine (first_moment b o.joint) →
        ShowsStats b steps o (output O.Sink out.old) (output O.Sink out.new) result }
{
    let counted = count_run(machine, steps);
    match show_stats(out, &counted.stop, &counted.counts) {
        Ok(()) => stop_status(&counted.stop, counted.refused),
        Err(_) => Status::WriteFault,
    }
}

/// Makes the run whose counts are asked for, with the files of a shelf on which nothing is gathered, and shows why it
/// ended, and its counts.
pub fn stats_command<S: Shelf, O: Sink>(
    alloc: Global,
    stats: &StatsRequest<'_>,
    shelf: &mut S,
    out: &mut O,
) -> Status
    requires settled { S.is_settled shelf.old }
    requires reading { S.reading_faults shelf.old < 2 ^ 64 - 1 }
    requires output { O.faults out.old < 2 ^ 64 - 1 }
    ensures answers { StatsAnswers (asked_of_stats stats.now)
        (outside S.Shelf O.Sink shelf.old out.old) (outside S.Shelf O.Sink shelf.new out.new) result }
    ensures kept { SameFiles (S.held shelf.old) (S.held shelf.new) }
{
    match prepare_run(alloc, stats.bundle, &stats.randomness, shelf) {
        Ok(machine) => count_and_show(machine, stats.steps, out),
        Err(refusal) => refuse(out, &refusal),
    }
}
