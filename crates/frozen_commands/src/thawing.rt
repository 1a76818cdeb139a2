//! A run that can go on, from the files that the words name.
ghost use Rattle.std.specs.Prelude.{◌≡◌, ◌<◌, ◌-◌, ◌^◌};
ghost use Rattle.command_words.specs.Request.{randomness_of, thaw_names_of};
ghost use Rattle.command_parts.specs.Outside.{files};
ghost use Rattle.frozen_commands.specs.Thawing.{PreparesThawed, refused_by};

use crate::digest::digest_of;
use crate::state::{judge_state, read_state};
use cloak_machine::{Machine, ThawFault};
use command_parts::{Refusal, read_bundle_with_bytes};
use command_words::{ThawRequest, UsageFault};
use frozen_state::FrozenFault;
use io_traits::Shelf;
use run_command::{image_is_of_bytes, open_stream};
use std::alloc::Global;

/// The most steps of a run.
const MOST_STEPS: u32 = 1_000_000_000;

/// Why no run goes on.
fn refusal_of(fault: ThawFault) -> Refusal
    ensures { result ≡ refused_by fault }
{
    match fault {
        ThawFault::NoKey => Refusal::NoKey,
        ThawFault::NoRandom => Refusal::NoPageDraw,
        ThawFault::Domain(domain) => Refusal::ChangedDomain(domain),
        ThawFault::Frame(frame) => Refusal::ChangedFrame(frame),
        ThawFault::Form(at) => Refusal::BadState(FrozenFault::Form(at)),
        ThawFault::NoMemory => Refusal::NoMemory,
    }
}

/// The machine of the run that goes on, or why there is none. The files are asked for in this order: bundle, state, stream.
/// Then come the tests of the state's file, that of the number of steps, and those of the state.
pub(crate) fn prepare_thawed<S: Shelf>(
    alloc: Global,
    thaw: &ThawRequest<'_>,
    shelf: &mut S,
) -> Result<Machine, Refusal>
    requires settled { S.is_settled shelf.old }
    requires reading { S.reading_faults shelf.old < 2 ^ 64 - 1 }
    ensures { PreparesThawed (thaw_names_of thaw.now.files) thaw.now.steps
        (randomness_of thaw.now.randomness) (files S.Shelf shelf.old) (files S.Shelf shelf.new) result }
{
    let (bundle, bytes) = match read_bundle_with_bytes(alloc, shelf, thaw.files.bundle) {
        Ok(read) => read,
        Err(refusal) => return Err(refusal),
    };
    // The bytes of the image are given up here, before those of the state are read.
    let digest = digest_of(bytes);
    let file = match read_state(alloc, shelf, thaw.files.state_name) {
        Ok(file) => file,
        Err(refusal) => return Err(refusal),
    };
    let stream = match open_stream(alloc, shelf, &thaw.randomness) {
        Ok(stream) => stream,
        Err(refusal) => return Err(refusal),
    };
    let state = match judge_state(alloc, &bundle, &digest, file) {
        Ok(state) => state,
        Err(refusal) => return Err(refusal),
    };
    if state.steps > MOST_STEPS - thaw.steps {
        return Err(Refusal::Usage(UsageFault::WrongNumber));
    }
    image_is_of_bytes(&bundle);
    match Machine::thaw(alloc, &bundle, stream, state) {
        Ok(machine) => Ok(machine),
        Err(fault) => Err(refusal_of(fault)),
    }
}
