//! A run from its first step to its report.
ghost use Rattle.std.specs.Prelude.{◌≡◌, ◌≤◌, ◌+◌, [], Ok, Some, false, map};
ghost use Rattle.cloak_model.specs.declared.image.Bundle.{Bundle};
ghost use Rattle.cloak_model.specs.Beginning.{Beginning, opening_from};
ghost use Rattle.cloak_model.specs.Run.{most_steps};
ghost use Rattle.cloak_model.specs.Exchange.{Emits, EmitsSome};
ghost use Rattle.cloak_model.specs.Joint.{Moment};
ghost use Rattle.cloak_model.specs.Opening.{RunEdge};
ghost use Rattle.cloak_model.specs.Run.{cause_of, closing, first_moment, joint_after, run_of, turns_from};
ghost use Rattle.cloak_machine.specs.Standing.{StandsForMoment, placings_of, steps_made};
ghost use Rattle.joint_machine.specs.Placings.{placing};
ghost use Rattle.run_command.specs.Outlet.{Gave};
ghost use Rattle.run_command.specs.Running.{BeginsRun, EndsRun, IsStatusOfStop, RunsSteps, WritesRun};
ghost use Rattle.cloak_model.specs.Run.{NoClash, NoClashYet};
ghost use Rattle.run_command.specs.Running.{status_of, unless_refused};

use crate::outlet::Outlet;
use cloak_base::Stop;
use cloak_machine::Machine;
use command_parts::Status;
use io_traits::{Shelf, Sink};

/// Makes up to this many steps, and returns why the last one stopped the run, if it did. Nothing more is
/// done once the outlet failed.
pub fn run_steps<S: Shelf, O: Sink>(
    machine: &mut Machine,
    steps: u32,
    outlet: &mut Outlet<'_, '_, '_, S, O>,
) -> Option<Stop>
    requires few { steps_made machine.old + steps ≤ most_steps }
    ensures same_shelf { outlet.new.pen.shelf.ghost_name ≡ outlet.old.pen.shelf.ghost_name }
    ensures same_out { outlet.new.out.ghost_name ≡ outlet.old.out.ghost_name }
    ensures emits_some { EmitsSome (Gave S.Shelf O.Sink) outlet.old outlet.new }
    ensures runs { (m : Moment) → StandsForMoment machine.old m →
        NoClashYet (joint_after m.joint (turns_from steps m)) →
        RunsSteps (Gave S.Shelf O.Sink) outlet.new.pen.failed
        outlet.old outlet.new machine.new result m (turns_from steps m) }
{
    let mut left = steps;
    while left > 0 {
        if outlet.pen.failed {
            return None;
        }
        if let Some(stop) = machine.step(outlet) {
            return Some(stop);
        }
        left -= 1;
    }
    None
}

/// Writes the first bytes of the record, what the opening shows, and up to this many steps of a run whose record is begun.
/// Returns why the last step stopped the run, if it did. Nothing more is done once the outlet failed.
pub fn write_steps<S: Shelf, O: Sink>(
    machine: &mut Machine,
    steps: u32,
    outlet: &mut Outlet<'_, '_, '_, S, O>,
) -> Option<Stop>
    requires fresh { steps_made machine.old ≡ 0 }
    requires few { steps ≤ most_steps }
    ensures same_shelf { outlet.new.pen.shelf.ghost_name ≡ outlet.old.pen.shelf.ghost_name }
    ensures same_out { outlet.new.out.ghost_name ≡ outlet.old.out.ghost_name }
    ensures emits_some { EmitsSome (Gave S.Shelf O.Sink) outlet.old outlet.new }
    ensures runs { (b : Bundle) (from : Beginning) (o : RunEdge) → opening_from b from ≡ Ok o →
        placings_of machine.old ≡ map placing b.programs → StandsForMoment machine.old (first_moment b o.joint) →
        NoClashYet (joint_after o.joint (turns_from steps (first_moment b o.joint))) →
        BeginsRun (Gave S.Shelf O.Sink) outlet.new.pen.failed outlet.old outlet.new machine.new result b o
        (turns_from steps (first_moment b o.joint)) }
{
    outlet.append(b"CLOAKREC");
    machine.opening(outlet);
    run_steps(machine, steps, outlet)
}

/// The status of a run that this stopped, by whether a domain ended or a resuming was refused.
pub fn stop_status(stop: &Stop, refused: bool) -> Status
    ensures { result ≡ status_of stop.now refused }
{
    match *stop {
        Stop::NoRandom => Status::NoRandom,
        Stop::Halt(_) | Stop::Budget => ended_status(refused),
    }
}

/// The status of a run that no missing draw stopped.
fn ended_status(refused: bool) -> Status
    ensures { result ≡ unless_refused refused }
{
    if refused {
        Status::Violation
    } else {
        Status::Done
    }
}

/// Writes the closing of the record, the rest of the console's line, and the report of a run that this stopped, and
/// returns its status.
pub fn write_end<S: Shelf, O: Sink>(
    machine: Machine,
    stop: Stop,
    outlet: &mut Outlet<'_, '_, '_, S, O>,
) -> Status
    ensures same_shelf { outlet.new.pen.shelf.ghost_name ≡ outlet.old.pen.shelf.ghost_name }
    ensures same_out { outlet.new.out.ghost_name ≡ outlet.old.out.ghost_name }
    ensures emits_some { EmitsSome (Gave S.Shelf O.Sink) outlet.old outlet.new }
    ensures some_stop { IsStatusOfStop result }
    ensures ends { (m : Moment) → StandsForMoment machine m →
        EndsRun (Gave S.Shelf O.Sink) outlet.old outlet.new result stop m.steps (closing m.joint) }
{
    let end = machine.finish(stop, outlet);
    outlet.show(b"\n");
    outlet.report(&end);
    stop_status(&end.stop, end.is_refused())
}

/// Makes a run whose record is begun, and writes it.
pub fn write_run<S: Shelf, O: Sink>(
    machine: Machine,
    steps: u32,
    outlet: &mut Outlet<'_, '_, '_, S, O>,
) -> Status
    requires fresh { steps_made machine ≡ 0 }
    requires few { steps ≤ most_steps }
    ensures same_shelf { outlet.new.pen.shelf.ghost_name ≡ outlet.old.pen.shelf.ghost_name }
    ensures same_out { outlet.new.out.ghost_name ≡ outlet.old.out.ghost_name }
    ensures emits_some { EmitsSome (Gave S.Shelf O.Sink) outlet.old outlet.new }
    ensures some_stop { outlet.new.pen.failed ≡ false → IsStatusOfStop result }
    ensures runs { (b : Bundle) (from : Beginning) (o : RunEdge) → opening_from b from ≡ Ok o →
        placings_of machine ≡ map placing b.programs → StandsForMoment machine (first_moment b o.joint) →
        NoClash (run_of b steps o) →
        WritesRun (Gave S.Shelf O.Sink) outlet.new.pen.failed outlet.old outlet.new result (run_of b steps o) }
{
    let mut machine = machine;
    let stopped = write_steps(&mut machine, steps, outlet);
    if outlet.pen.failed {
        return Status::WriteFault;
    }
    write_end(machine, stopped.unwrap_or(Stop::Budget), outlet)
}
