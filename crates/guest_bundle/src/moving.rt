//! The parts of a file, moved out of it. The file gives back what was moved, so that file and parts together take
//! little more memory than the file took.
ghost use Rattle.std.specs.Prelude.{◌≡◌, ◌-◌, ◌≤◌, ◌++◌, length, map, reverse, take, drop, IfOk, OnOk};
ghost use Rattle.guest_bundle.specs.Places.{segment_of, program_of, AreSegmentPlaces, AreProgramPlaces};

use crate::parts::{ProgramPlace, SegmentPlace};
use cloak_base::NoMemory;
use cloak_model::{Program, Segment, Sequence};
use std::alloc::Global;

/// How many bytes the file gives back at a time.
const PIECE: usize = 65_536;

/// Moves the bytes from a place on, the last one first.
fn move_piece(file: &mut Vec<u8>, at: usize, bytes: &mut Vec<u8>) -> Result<(), NoMemory>
    requires { at ≤ length file.old.items }
    ensures bytes { OnOk result (bytes.new.items ≡ bytes.old.items ++ reverse (drop at file.old.items)) }
    ensures rest { OnOk result (file.new.items ≡ take at file.old.items) }
{
    file[at..].reverse();
    bytes.extend_from_slice(&file[at..])?;
    file.truncate(at);
    file.shrink_to_fit();
    Ok(())
}

/// Moves the bytes from a place on.
pub fn move_end(alloc: Global, file: &mut Vec<u8>, from: usize) -> Result<Vec<u8>, NoMemory>
    requires { from ≤ length file.old.items }
    ensures bytes { IfOk result (λ v. v.items ≡ drop from file.old.items) }
    ensures rest { OnOk result (file.new.items ≡ take from file.old.items) }
{
    let mut bytes = Vec::with_capacity(alloc, file.len() - from)?;
    while from < file.len() {
        let at = from.max(file.len().saturating_sub(PIECE));
        move_piece(file, at, &mut bytes)?;
    }
    bytes.reverse();
    Ok(bytes)
}

/// Moves the bytes from a place on, and drops those from another place on.
fn move_middle(
    alloc: Global,
    file: &mut Vec<u8>,
    from: usize,
    to: usize,
) -> Result<Sequence<u8>, NoMemory>
    requires order { from ≤ to }
    requires inside { to ≤ length file.old.items }
    ensures bytes { IfOk result (λ s. s ≡ take (to - from) (drop from file.old.items)) }
    ensures rest { OnOk result (file.new.items ≡ take from file.old.items) }
{
    file.truncate(to);
    let bytes = move_end(alloc, file, from)?;
    Ok(Sequence::new(bytes))
}

/// Moves the segments, the last one first, and drops what stands after them.
pub fn move_segments(
    alloc: Global,
    file: &mut Vec<u8>,
    places: Vec<SegmentPlace>,
) -> Result<Vec<Segment>, NoMemory>
    requires { AreSegmentPlaces 0 places.items (length file.old.items) }
    ensures segments { IfOk result (λ v. v.items ≡ map (segment_of file.old.items) places.items) }
{
    let mut places = places;
    let mut segments = Vec::with_capacity(alloc, places.len())?;
    while let Some(p) = places.pop() {
        let bytes = move_middle(alloc, file, p.from, p.to)?;
        segments.push(Segment {
            address: p.address,
            bytes,
        })?;
    }
    segments.reverse();
    Ok(segments)
}

/// Moves the programs, the last one first, and drops what stands after a place that lies before them.
pub fn move_programs(
    alloc: Global,
    file: &mut Vec<u8>,
    low: usize,
    places: Vec<ProgramPlace>,
) -> Result<Vec<Program>, NoMemory>
    requires { AreProgramPlaces low places.items (length file.old.items) }
    ensures programs { IfOk result (λ v. v.items ≡ map (program_of file.old.items) places.items) }
    ensures rest { OnOk result (file.new.items ≡ take low file.old.items) }
{
    let mut places = places;
    let mut programs = Vec::with_capacity(alloc, places.len())?;
    while let Some(p) = places.pop() {
        let bytes = move_middle(alloc, file, p.from, p.to)?;
        programs.push(Program {
            place: p.place,
            start: p.start,
            key: p.key,
            bytes,
        })?;
    }
    file.truncate(low);
    programs.reverse();
    Ok(programs)
}
