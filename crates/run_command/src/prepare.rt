//! A run that can begin, from the files that the words name.
ghost use Rattle.std.specs.Prelude.{◌≡◌, ◌<◌, ◌≤◌, ◌-◌, ◌^◌, ℕ, List, Option, true, IfErr, IfOk, length};
ghost use Rattle.cloak_machine.specs.Standing.{steps_made};
ghost use Rattle.io_traits.specs.Told.{SameFiles};
ghost use Rattle.command_parts.specs.Outside.{files};
ghost use Rattle.command_parts.specs.Streams.{TellsUnreadStream};
ghost use Rattle.run_command.specs.Preparing.{Prepares, ReadsStream};
ghost use Rattle.command_words.specs.Command.{asked_run};
ghost use Rattle.command_words.specs.Request.{randomness_of};
ghost use Rattle.std.specs.List.{AllByRecursion};
ghost use Rattle.cloak_model.specs.declared.image.Program.{Program as ImageProgram};
ghost use Rattle.cloak_model.specs.declared.image.Segment.{Segment as ImageSegment};
ghost use Rattle.cloak_model.specs.Run.{most_steps};
ghost use Rattle.range_law.specs.Writing.{AreBytes, IsOfBytes};

use cloak_machine::{Machine, OpenFault};
use cloak_model::{Bundle, Program, Segment};
use command_parts::{Refusal, read_bundle, read_front};
use command_words::Randomness;
use io_traits::{Shelf, Stream};
use std::alloc::Global;

/// The most bytes of a file that a run takes for its randomness.
const LONGEST_STREAM: u64 = 16_777_216;

/// Bytes are below 256. It does nothing: its contract is what the type says.
fn are_bytes(bytes: &[u8])
    ensures { AreBytes bytes.now }
{}

/// So are the bytes of these segments.
fn segments_are_bytes(segments: &[Segment])
    ensures { AllByRecursion (λ (s : ImageSegment). AreBytes s.bytes) segments.now }
{
    for segment in segments {
        are_bytes(segment.bytes.as_slice());
    }
}

/// So are the bytes of these programs.
fn programs_are_bytes(programs: &[Program])
    ensures { AllByRecursion (λ (p : ImageProgram). AreBytes p.bytes) programs.now }
{
    for program in programs {
        are_bytes(program.bytes.as_slice());
    }
}

/// So are the bytes of an image.
pub fn image_is_of_bytes(bundle: &Bundle)
    ensures { IsOfBytes bundle.now }
{
    segments_are_bytes(bundle.kernel.segments.as_slice());
    are_bytes(bundle.kernel.disk.as_slice());
    programs_are_bytes(bundle.programs.as_slice());
}

/// The random stream of a run.
pub fn open_stream<S: Shelf>(
    alloc: Global,
    shelf: &mut S,
    randomness: &Randomness<'_>,
) -> Result<Stream, Refusal>
    requires { S.is_settled shelf.old }
    ensures stream { ReadsStream (S.held shelf.old) (randomness_of randomness.now)
        (S.reading_faults shelf.old) (S.reading_faults shelf.new) result }
    ensures unread { IfErr result (TellsUnreadStream (S.unread shelf.new) (randomness_of randomness.now)) }
    ensures files { SameFiles (S.held shelf.old) (S.held shelf.new) }
    ensures writing { S.writing_faults shelf.new ≡ S.writing_faults shelf.old }
    ensures settled { S.is_settled shelf.new }
{
    match *randomness {
        Randomness::Numbered(number) => Ok(Stream::numbered(number)),
        Randomness::FromFile(name) => {
            let bytes = match read_front(alloc, shelf, name, LONGEST_STREAM) {
                Ok(bytes) => bytes,
                Err(refusal) => return Err(refusal),
            };
            are_bytes(bytes.as_slice());
            Ok(Stream::bytes(bytes))
        }
    }
}

/// The machine of the run of the bundle of this name, whatever its steps are and whether it has a record.
pub fn prepare_run<S: Shelf>(
    alloc: Global,
    bundle_name: &str,
    randomness: &Randomness<'_>,
    shelf: &mut S,
) -> Result<Machine, Refusal>
    requires settled { S.is_settled shelf.old }
    requires reading { S.reading_faults shelf.old < 2 ^ 64 - 1 }
    ensures prepares { (record_name : Option (List ℕ)) (steps : ℕ) → steps ≤ most_steps →
        Prepares (asked_run bundle_name.now record_name steps (randomness_of randomness.now))
        (files S.Shelf shelf.old) (files S.Shelf shelf.new) record_name steps result }
    ensures fresh { IfOk result (λ machine. steps_made machine ≡ 0) }
{
    let bundle = match read_bundle(alloc, shelf, bundle_name) {
        Ok(bundle) => bundle,
        Err(refusal) => return Err(refusal),
    };
    let stream = match open_stream(alloc, shelf, randomness) {
        Ok(stream) => stream,
        Err(refusal) => return Err(refusal),
    };
    image_is_of_bytes(&bundle);
    let Bundle { kernel, programs } = bundle;
    match Machine::open(alloc, kernel, programs, stream) {
        Ok(machine) => Ok(machine),
        Err(OpenFault::NoKey) => Err(Refusal::NoKey),
        Err(OpenFault::NoRandom) => Err(Refusal::NoPageDraw),
        Err(OpenFault::NoMemory) => Err(Refusal::NoMemory),
    }
}
