//! The state of a machine is saved.
ghost use Rattle.std.specs.Prelude.{◌≡◌, ◌≤◌, length};
ghost use Rattle.command_parts.specs.Outside.{output, outside};
ghost use Rattle.frozen_commands.specs.Saving.{LeavesState, SavesState, ShowsLackingLine};

use crate::freezing::ForSaving;
use crate::shapes::state_has_shape;
use cloak_machine::Machine;
use command_parts::Status;
use frozen_run::write_frozen;
use frozen_state::Frozen;
use io_traits::{Shelf, Sink, put_all};

/// Shows that there are too few vectors.
fn show_lacking<O: Sink>(out: &mut O) -> Status
    ensures { ShowsLackingLine (output O.Sink out.old) (output O.Sink out.new) result }
{
    match put_all(out, b"\nrandom: freeze\n") {
        Ok(()) => Status::NoRandom,
        Err(_) => Status::WriteFault,
    }
}

/// Writes the file of a state.
fn save_state<S: Shelf, O: Sink>(
    state: &Frozen,
    digest: &[u8; 32],
    name: &str,
    shelf: &mut S,
    out: &mut O,
) -> Status
    requires few { length state.now.recorded ≤ 65536 }
    ensures { SavesState state.now digest.now name.now
        (outside S.Shelf O.Sink shelf.old out.old) (outside S.Shelf O.Sink shelf.new out.new) result }
{
    state_has_shape(state);
    match write_frozen(state, digest, shelf, name) {
        Ok(()) => Status::Frozen,
        Err(_) => Status::WriteFault,
    }
}

/// Freezes a machine, and writes the file of its state; or shows that there are too few vectors.
pub(crate) fn leave_state<S: Shelf, O: Sink>(
    machine: Machine,
    left: ForSaving,
    name: &str,
    shelf: &mut S,
    out: &mut O,
) -> Status
    ensures { LeavesState machine left name.now
        (outside S.Shelf O.Sink shelf.old out.old) (outside S.Shelf O.Sink shelf.new out.new) result }
{
    let ForSaving {
        digest,
        mut vectors,
        room,
    } = left;
    match machine.freeze(&mut vectors, room) {
        Some(state) => save_state(&state, &digest, name, shelf, out),
        None => show_lacking(out),
    }
}
