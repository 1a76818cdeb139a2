//! The rest of a run, from its next step to its report.
ghost use Rattle.std.specs.Prelude.{◌≡◌, ◌≤◌, ◌+◌, ℕ, false};
ghost use Rattle.cloak_model.specs.declared.image.Bundle.{Bundle};
ghost use Rattle.cloak_model.specs.Exchange.{EmitsSome};
ghost use Rattle.cloak_model.specs.Parts as model;
ghost use Rattle.cloak_model.specs.Run.{most_steps};
ghost use Rattle.cloak_machine.specs.Standing.{StandsForMoment, steps_made};
ghost use Rattle.frozen_state.specs.Continuing.{next_moment, run_on};
ghost use Rattle.command_parts.specs.Outside.{outside};
ghost use Rattle.run_command.specs.Outlet.{Gave};
ghost use Rattle.run_command.specs.Running.{IsStatusOfStop};
ghost use Rattle.cloak_model.specs.Run.{NoClash};
ghost use Rattle.frozen_commands.specs.Thawing.{RecordsRest, RestAnswers, WritesRest, WritesSomeRest};

use cloak_base::Stop;
use cloak_machine::Machine;
use command_parts::Status;
use exchange_log::LONGEST;
use io_traits::{Shelf, Sink};
use run_command::{Outlet, RecordPen, run_steps, write_end};

/// Makes up to this many steps of a run that goes on and whose record is begun, and writes its rest.
fn write_rest<S: Shelf, O: Sink>(
    machine: Machine,
    steps: u32,
    outlet: &mut Outlet<'_, '_, '_, S, O>,
) -> Status
    requires few { steps_made machine + steps ≤ most_steps }
    ensures same_shelf { outlet.new.pen.shelf.ghost_name ≡ outlet.old.pen.shelf.ghost_name }
    ensures same_out { outlet.new.out.ghost_name ≡ outlet.old.out.ghost_name }
    ensures emits_some { EmitsSome (Gave S.Shelf O.Sink) outlet.old outlet.new }
    ensures some_stop { outlet.new.pen.failed ≡ false → IsStatusOfStop result }
    ensures writes { (b : Bundle) (n : ℕ) (j : model.Joint) → StandsForMoment machine (next_moment b n j) →
        NoClash (run_on b n j steps) →
        WritesRest (Gave S.Shelf O.Sink) outlet.new.pen.failed outlet.old outlet.new result n (run_on b n j steps) }
{
    let mut machine = machine;
    let stopped = run_steps(&mut machine, steps, outlet);
    if outlet.pen.failed {
        return Status::WriteFault;
    }
    write_end(machine, stopped.unwrap_or(Stop::Budget), outlet)
}

/// Does so over a shelf on which the record is begun. Returns the run's status, or nothing if writing failed.
pub(crate) fn record_rest<S: Shelf, O: Sink>(
    machine: Machine,
    steps: u32,
    name: &str,
    shelf: &mut S,
    out: &mut O,
) -> Option<Status>
    requires begun { S.is_last shelf.old name.now }
    requires few { steps_made machine + steps ≤ most_steps }
    ensures some { WritesSomeRest name.now result
        (outside S.Shelf O.Sink shelf.old out.old) (outside S.Shelf O.Sink shelf.new out.new) }
    ensures some_stop { RestAnswers result }
    ensures records { (b : Bundle) (n : ℕ) (j : model.Joint) → StandsForMoment machine (next_moment b n j) →
        NoClash (run_on b n j steps) →
        RecordsRest name.now (outside S.Shelf O.Sink shelf.old out.old) (outside S.Shelf O.Sink shelf.new out.new)
        result n (run_on b n j steps) }
{
    let mut outlet = Outlet {
        pen: RecordPen {
            shelf,
            name,
            failed: false,
        },
        out,
        piece: [0; LONGEST],
    };
    let status = write_rest(machine, steps, &mut outlet);
    if outlet.pen.failed {
        return None;
    }
    Some(status)
}
