//! A run over cloaked files from its first step to the closing of its record.
ghost use Rattle.std.specs.Prelude.{◌≡◌, ◌≤◌, ◌+◌, length};
ghost use Rattle.cloak_model.specs.declared.image.Bundle.{Bundle};
ghost use Rattle.cloak_model.specs.Beginning.{Beginning};
ghost use Rattle.cloak_model.specs.Exchange.{EmitsSome};
ghost use Rattle.cloak_model.specs.Joint.{Moment};
ghost use Rattle.cloak_model.specs.Opening.{RunEdge};
ghost use Rattle.cloak_model.specs.Run.{closing, most_steps, run_of};
ghost use Rattle.cloak_machine.specs.Standing.{StandsForMoment, steps_made};
ghost use Rattle.run_command.specs.Outlet.{Gave};
ghost use Rattle.cloak_model.specs.Run.{NoClash};
ghost use Rattle.command_parts.specs.Outside.{outside};
ghost use Rattle.store_command.specs.Preparing.{CanEnd, OpensRun};
ghost use Rattle.store_command.specs.Writing.{EndsUnless, Finishes, KeepsRoom, RecordsFirst, WritesFirst, WritesSome};

use crate::prepare::ForStoring;
use cloak_base::Stop;
use cloak_machine::{Machine, RunEnd};
use exchange_log::LONGEST;
use io_traits::{Shelf, Sink};
use run_command::{Outlet, RecordPen, write_steps};

/// Ends a run, and notes what its files hold, and its disk.
fn finish<S: Shelf, O: Sink>(
    machine: Machine,
    stop: Stop,
    outlet: &mut Outlet<'_, '_, '_, S, O>,
    left: &mut ForStoring,
) -> RunEnd
    requires left { CanEnd left.old }
    ensures room { KeepsRoom left.old left.new }
    ensures emits_some { EmitsSome (Gave S.Shelf O.Sink) outlet.old outlet.new }
    ensures ends { (m : Moment) → StandsForMoment machine m →
        left.old.disk_end ≡ left.old.disk_from + length m.joint.disk →
        Finishes (Gave S.Shelf O.Sink) outlet.old outlet.new left.old left.new result stop m (closing m.joint) }
{
    let disk = &mut left.next[left.disk_from..left.disk_end];
    // It always is the size of the machine's disk (`disk_law`). It is compared, since `finish_stored` asks for it.
    if disk.len() != machine.disk_length() {
        return machine.finish(stop, outlet);
    }
    machine.finish_stored(stop, outlet, &mut left.table, disk)
}

/// Writes record and console of a run whose record is begun. At its end it notes what the files hold, and the disk.
/// Returns how the run ended, and nothing if writing failed.
fn write_first<S: Shelf, O: Sink>(
    machine: Machine,
    steps: u32,
    outlet: &mut Outlet<'_, '_, '_, S, O>,
    left: &mut ForStoring,
) -> Option<RunEnd>
    requires fresh { steps_made machine ≡ 0 }
    requires few { steps ≤ most_steps }
    requires left { CanEnd left.old }
    ensures same_shelf { outlet.new.pen.shelf.ghost_name ≡ outlet.old.pen.shelf.ghost_name }
    ensures same_out { outlet.new.out.ghost_name ≡ outlet.old.out.ghost_name }
    ensures room { KeepsRoom left.old left.new }
    ensures emits_some { EmitsSome (Gave S.Shelf O.Sink) outlet.old outlet.new }
    ensures ends { EndsUnless outlet.new.pen.failed result }
    ensures writes { (b : Bundle) (from : Beginning) (o : RunEdge) → OpensRun machine left.old b from o →
        NoClash (run_of b steps o) →
        WritesFirst (Gave S.Shelf O.Sink) outlet.old outlet.new left.old left.new result (run_of b steps o) }
{
    let mut machine = machine;
    let stopped = write_steps(&mut machine, steps, outlet);
    if outlet.pen.failed {
        return None;
    }
    let end = finish(machine, stopped.unwrap_or(Stop::Budget), outlet, left);
    if outlet.pen.failed {
        return None;
    }
    Some(end)
}

/// Writes record and console of a run over a shelf on which the record is begun.
pub(crate) fn record_first<S: Shelf, O: Sink>(
    machine: Machine,
    steps: u32,
    name: &str,
    shelf: &mut S,
    out: &mut O,
    left: &mut ForStoring,
) -> Option<RunEnd>
    requires begun { S.is_last shelf.old name.now }
    requires fresh { steps_made machine ≡ 0 }
    requires few { steps ≤ most_steps }
    requires left { CanEnd left.old }
    ensures room { KeepsRoom left.old left.new }
    ensures some { WritesSome name.now result
        (outside S.Shelf O.Sink shelf.old out.old) (outside S.Shelf O.Sink shelf.new out.new) }
    ensures records { (b : Bundle) (from : Beginning) (o : RunEdge) → OpensRun machine left.old b from o →
        NoClash (run_of b steps o) →
        RecordsFirst name.now (outside S.Shelf O.Sink shelf.old out.old) (outside S.Shelf O.Sink shelf.new out.new)
        left.old left.new result (run_of b steps o) }
{
    let mut outlet = Outlet {
        pen: RecordPen {
            shelf,
            name,
            failed: false,
        },
        out,
        piece: [0; LONGEST],
    };
    write_first(machine, steps, &mut outlet, left)
}
