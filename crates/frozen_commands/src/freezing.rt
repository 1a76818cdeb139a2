//! A run that can begin and be frozen, from the files that the words name.
ghost use Rattle.std.specs.Prelude.{◌≡◌, ◌<◌, ◌-◌, ◌^◌, IfOk};
ghost use Rattle.cloak_machine.specs.Standing.{steps_made};
ghost use Rattle.command_words.specs.Request.{freeze_names_of, randomness_of};
ghost use Rattle.command_parts.specs.Outside.{files};
ghost use Rattle.frozen_commands.specs.Freezing.{PreparesFrozen};

use crate::digest::digest_of;
use cloak_machine::{Machine, OpenFault};
use cloak_model::Bundle;
use command_parts::{Refusal, read_bundle_with_bytes};
use command_words::{FreezeRequest, Randomness};
use frozen_state::FrozenRoom;
use io_traits::{Shelf, Stream};
use run_command::{image_is_of_bytes, open_stream};
use std::alloc::Global;

/// What is needed once the steps were made.
#[derive(Drop)]
pub(crate) struct ForSaving {
    /// The digest of the image's file.
    pub digest: [u8; 32],
    /// The initialization vectors of programs and owed pages.
    pub vectors: Stream,
    pub room: FrozenRoom,
}

/// A machine before its first step, with all memory that the command needs until its end.
#[derive(Drop)]
pub(crate) struct PreparedFreeze {
    pub machine: Machine,
    pub left: ForSaving,
}

/// The machine of the run that is asked for, or why there is none. The files are asked for in this order: bundle, stream,
/// vectors.
pub(crate) fn prepare_frozen<S: Shelf>(
    alloc: Global,
    freeze: &FreezeRequest<'_>,
    shelf: &mut S,
) -> Result<PreparedFreeze, Refusal>
    requires settled { S.is_settled shelf.old }
    requires reading { S.reading_faults shelf.old < 2 ^ 64 - 1 }
    ensures prepares { PreparesFrozen (freeze_names_of freeze.now.files) freeze.now.steps
        (randomness_of freeze.now.randomness) (files S.Shelf shelf.old) (files S.Shelf shelf.new) result }
    ensures fresh { IfOk result (λ prepared. steps_made prepared.machine ≡ 0) }
{
    let (bundle, bytes) = match read_bundle_with_bytes(alloc, shelf, freeze.files.bundle) {
        Ok(read) => read,
        Err(refusal) => return Err(refusal),
    };
    let stream = match open_stream(alloc, shelf, &freeze.randomness) {
        Ok(stream) => stream,
        Err(refusal) => return Err(refusal),
    };
    let file = Randomness::FromFile(freeze.files.vectors_name);
    let vectors = match open_stream(alloc, shelf, &file) {
        Ok(vectors) => vectors,
        Err(refusal) => return Err(refusal),
    };
    image_is_of_bytes(&bundle);
    let digest = digest_of(bytes);
    let Bundle { kernel, programs } = bundle;
    let count = programs.as_slice().len() as u32;
    let Ok(room) = FrozenRoom::open(alloc, &kernel, count) else {
        return Err(Refusal::NoMemory);
    };
    let left = ForSaving {
        digest,
        vectors,
        room,
    };
    match Machine::open(alloc, kernel, programs, stream) {
        Ok(machine) => Ok(PreparedFreeze { machine, left }),
        Err(OpenFault::NoKey) => Err(Refusal::NoKey),
        Err(OpenFault::NoRandom) => Err(Refusal::NoPageDraw),
        Err(OpenFault::NoMemory) => Err(Refusal::NoMemory),
    }
}
