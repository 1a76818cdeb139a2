//! How much room the parts of a bundle leave in the largest file of version 2.
ghost use Rattle.std.specs.Prelude.{◌≡◌, ◌+◌, ◌<◌, MatchOption, length};
ghost use Rattle.std.specs.List.{flat_map};
ghost use Rattle.cloak_base.specs.Constants.{largest_bundle};
ghost use Rattle.cloak_model.specs.Bundle.{bundle_bytes, program_bytes, segment_bytes};

use cloak_base::LARGEST_BUNDLE;
use cloak_model::{Bundle, Program, Segment};

/// What some bytes leave of some room, if there is enough.
fn taken(room: u64, size: usize) -> Option<u64>
    ensures { MatchOption result (room < size) (λ left. size + left ≡ room) }
{
    let size = size as u64;
    if size <= room {
        Some(room - size)
    } else {
        None
    }
}

/// What bytes leave of some room, if there is enough.
fn behind_bytes(room: u64, bytes: &[u8]) -> Option<u64>
    ensures { MatchOption result (room < length bytes.now) (λ left. length bytes.now + left ≡ room) }
{
    taken(room, bytes.len())
}

/// What segments leave of some room, if there is enough.
#[tactic(auto, using(crate::proofs::Fitting::fronts))]
fn behind_segments(room: u64, segments: &[Segment]) -> Option<u64>
    ensures { MatchOption result (room < length (flat_map segment_bytes segments.now))
        (λ left. length (flat_map segment_bytes segments.now) + left ≡ room) }
{
    let mut left = room;
    for segment in segments {
        let Some(rest) = taken(left, 8) else {
            return None;
        };
        let Some(rest) = taken(rest, segment.bytes.as_slice().len()) else {
            return None;
        };
        left = rest;
    }
    Some(left)
}

/// What programs leave of some room, if there is enough.
#[tactic(auto, using(crate::proofs::Fitting::fronts))]
fn behind_programs(room: u64, programs: &[Program]) -> Option<u64>
    ensures { MatchOption result (room < length (flat_map (program_bytes 2) programs.now))
        (λ left. length (flat_map (program_bytes 2) programs.now) + left ≡ room) }
{
    let mut left = room;
    for program in programs {
        let Some(rest) = taken(left, 24) else {
            return None;
        };
        let Some(rest) = taken(rest, program.bytes.as_slice().len()) else {
            return None;
        };
        left = rest;
    }
    Some(left)
}

/// What the file of a bundle in version 2 leaves of the largest file, if it is not larger.
pub fn room_behind(bundle: &Bundle) -> Option<u64>
    ensures { MatchOption result (largest_bundle < length (bundle_bytes 2 bundle.now))
        (λ left. length (bundle_bytes 2 bundle.now) + left ≡ largest_bundle) }
{
    let kernel = &bundle.kernel;
    let front = LARGEST_BUNDLE as u64 - 40;
    let turns = behind_bytes(front, kernel.schedule.as_slice())?;
    let disk = behind_bytes(turns, kernel.disk.as_slice())?;
    let segments = behind_segments(disk, kernel.segments.as_slice())?;
    let programs = behind_programs(segments, bundle.programs.as_slice())?;
    Some(programs)
}
