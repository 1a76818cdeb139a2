//! The frozen state that a file is.
ghost use Rattle.std.specs.Prelude.{◌≡◌, ◌≤◌, IfErr, IfOk, length};
ghost use Rattle.io_traits.specs.Told.{SameFiles};
ghost use Rattle.command_parts.specs.Files.{ReadsFile, TellsUnread};
ghost use Rattle.frozen_commands.specs.Thawing.{IsStateFront, JudgesState};

use cloak_model::Bundle;
use command_parts::{Refusal, read_front};
use frozen_run::read_frozen;
use frozen_state::{Frozen, FrozenFault};
use io_traits::Shelf;
use std::alloc::Global;

/// The most bytes of the file of a state.
const LARGEST_STATE: u64 = 67_108_864;

/// The bytes of the file of a state, or one more than it may have.
pub(crate) fn read_state<S: Shelf>(
    alloc: Global,
    shelf: &mut S,
    name: &str,
) -> Result<Vec<u8>, Refusal>
    requires { S.is_settled shelf.old }
    ensures front { IfOk result (λ v. IsStateFront (S.held shelf.old name.now) v.items) }
    ensures unread { IfErr result (TellsUnread (S.unread shelf.new) name.now) }
    ensures reading { ReadsFile (S.reading_faults shelf.old) (S.reading_faults shelf.new) result }
    ensures files { SameFiles (S.held shelf.old) (S.held shelf.new) }
    ensures writing { S.writing_faults shelf.new ≡ S.writing_faults shelf.old }
    ensures settled { S.is_settled shelf.new }
{
    read_front(alloc, shelf, name, LARGEST_STATE + 1)
}

/// The state of an image with this digest that the bytes spell, or their first fault. The bytes are given up.
pub(crate) fn judge_state(
    alloc: Global,
    bundle: &Bundle,
    digest: &[u8; 32],
    bytes: Vec<u8>,
) -> Result<Frozen, Refusal>
    requires { length bundle.now.programs ≤ 4 }
    ensures { JudgesState bundle.now digest.now bytes.items result }
{
    if bytes.len() > LARGEST_STATE as usize {
        return Err(Refusal::BadState(FrozenFault::Form(LARGEST_STATE)));
    }
    let programs = bundle.programs.as_slice().len() as u32;
    match read_frozen(alloc, bytes.as_slice(), digest, &bundle.kernel, programs) {
        Ok(state) => Ok(state),
        Err(FrozenFault::NoMemory) => Err(Refusal::NoMemory),
        Err(fault) => Err(Refusal::BadState(fault)),
    }
}
