//! The first steps of a run, and its end if one of them stops it.
ghost use Rattle.std.specs.Prelude.{◌≡◌, ◌≤◌, Ok, map};
ghost use Rattle.cloak_model.specs.declared.image.Bundle.{Bundle};
ghost use Rattle.cloak_model.specs.Beginning.{Beginning, opening_from};
ghost use Rattle.cloak_model.specs.Exchange.{EmitsSome};
ghost use Rattle.cloak_model.specs.Opening.{RunEdge};
ghost use Rattle.cloak_model.specs.Run.{first_moment, joint_after, most_steps, run_of, turns_from};
ghost use Rattle.cloak_machine.specs.Standing.{StandsForMoment, placings_of, steps_made};
ghost use Rattle.joint_machine.specs.Placings.{placing};
ghost use Rattle.command_parts.specs.Outside.{outside};
ghost use Rattle.run_command.specs.Outlet.{Gave};
ghost use Rattle.cloak_model.specs.Run.{NoClashYet};
ghost use Rattle.frozen_commands.specs.Freezing.{EndsAsSome, RecordsFirst, WritesFirst, WritesSome, is_failed};

use cloak_machine::Machine;
use command_parts::Status;
use exchange_log::LONGEST;
use io_traits::{Shelf, Sink};
use run_command::{Outlet, RecordPen, write_end, write_steps};

/// How the first steps of a run ended.
#[derive(Drop)]
pub(crate) enum First {
    /// All of them were made, and the machine is that after them.
    Reached(Machine),
    /// One of them stopped the run; all that is due of it was written, and this is its status.
    Ended(Status),
    /// Writing failed.
    Failed,
}

/// Makes up to this many steps of a run whose record is begun, and ends it if one of them stops it.
fn write_first<S: Shelf, O: Sink>(
    machine: Machine,
    steps: u32,
    outlet: &mut Outlet<'_, '_, '_, S, O>,
) -> First
    requires fresh { steps_made machine ≡ 0 }
    requires few { steps ≤ most_steps }
    ensures same_shelf { outlet.new.pen.shelf.ghost_name ≡ outlet.old.pen.shelf.ghost_name }
    ensures same_out { outlet.new.out.ghost_name ≡ outlet.old.out.ghost_name }
    ensures emits_some { EmitsSome (Gave S.Shelf O.Sink) outlet.old outlet.new }
    ensures failed { outlet.new.pen.failed ≡ is_failed result }
    ensures some_stop { EndsAsSome result }
    ensures writes { (b : Bundle) (from : Beginning) (o : RunEdge) → opening_from b from ≡ Ok o →
        placings_of machine ≡ map placing b.programs → StandsForMoment machine (first_moment b o.joint) →
        NoClashYet (joint_after o.joint (turns_from steps (first_moment b o.joint))) →
        WritesFirst (Gave S.Shelf O.Sink) outlet.old outlet.new result b (run_of b steps o) }
{
    let mut machine = machine;
    let stopped = write_steps(&mut machine, steps, outlet);
    if outlet.pen.failed {
        return First::Failed;
    }
    let Some(stop) = stopped else {
        return First::Reached(machine);
    };
    let status = write_end(machine, stop, outlet);
    if outlet.pen.failed {
        return First::Failed;
    }
    First::Ended(status)
}

/// Does so over a shelf on which the record is begun.
pub(crate) fn record_first<S: Shelf, O: Sink>(
    machine: Machine,
    steps: u32,
    name: &str,
    shelf: &mut S,
    out: &mut O,
) -> First
    requires begun { S.is_last shelf.old name.now }
    requires fresh { steps_made machine ≡ 0 }
    requires few { steps ≤ most_steps }
    ensures some { WritesSome name.now result
        (outside S.Shelf O.Sink shelf.old out.old) (outside S.Shelf O.Sink shelf.new out.new) }
    ensures some_stop { EndsAsSome result }
    ensures records { (b : Bundle) (from : Beginning) (o : RunEdge) → opening_from b from ≡ Ok o →
        placings_of machine ≡ map placing b.programs → StandsForMoment machine (first_moment b o.joint) →
        NoClashYet (joint_after o.joint (turns_from steps (first_moment b o.joint))) →
        RecordsFirst name.now (outside S.Shelf O.Sink shelf.old out.old) (outside S.Shelf O.Sink shelf.new out.new)
        result b (run_of b steps o) }
{
    let mut outlet = Outlet {
        pen: RecordPen {
            shelf,
            name,
            failed: false,
        },
        out,
        piece: [0; LONGEST],
    };
    write_first(machine, steps, &mut outlet)
}
