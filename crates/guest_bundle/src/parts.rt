ghost use Rattle.std.specs.Prelude.{◌≡◌, ◌≤◌, length, map, IfOk, OnOk, ◌+◌};
ghost use Rattle.guest_bundle.specs.Fields.{Gives, Shows};
ghost use Rattle.guest_bundle.specs.Places.{segment_of, program_of, IsSegmentPlace, IsProgramPlace, AreSegmentPlaces};
ghost use Rattle.guest_bundle.specs.Places.{AreProgramPlaces, key_size};
ghost use Rattle.cloak_model.specs.BundleFault.{lies_in_ram, is_base_of};
ghost use Rattle.guest_bundle.specs.Reading.{turn_at, segment_at, segment_size, place_at, base_at, program_at};
ghost use Rattle.guest_bundle.specs.Reading.{key_at, program_size, parts_at};

use crate::BundleFault;
use crate::fields::{bytes, count, entry, number, pages};
use cloak_base::{RAM_START, Start, ram_end};
use std::alloc::Global;

/// A segment of a file: its address, and where its bytes begin and end.
#[derive(Clone, Copy)]
pub struct SegmentPlace {
    pub address: u32,
    pub from: usize,
    pub to: usize,
}

/// A program of a file: its place, start and key, and where its bytes begin and end.
#[derive(Clone, Copy)]
pub struct ProgramPlace {
    pub place: u32,
    pub start: Start,
    pub key: u32,
    pub from: usize,
    pub to: usize,
}

/// A byte of the schedule.
fn turn(file: &[u8], at: usize, harts: u32) -> Result<u8, BundleFault>
    requires { at ≤ length file.now }
    ensures field { result ≡ turn_at harts file.now at }
    ensures whole { OnOk result (at + 1 ≤ length file.now) }
{
    if at == file.len() {
        return Err(BundleFault::Short(at as u64));
    }
    let hart = file[at];
    if hart as u32 >= harts {
        return Err(BundleFault::BadRange(at as u64));
    }
    Ok(hart)
}

/// The schedule, and the offset after it.
pub fn schedule(
    alloc: Global,
    file: &[u8],
    from: usize,
    harts: u32,
    n: u32,
) -> Result<(Vec<u8>, usize), BundleFault>
    requires { from ≤ length file.now }
    ensures fields { Gives (λ x. (x.0.items, x.1)) result (parts_at (turn_at harts file.now) (λ _. 1) n from) }
    ensures whole { IfOk result (λ x. x.1 ≤ length file.now) }
{
    let mut turns = Vec::new(alloc);
    let mut at = from;
    for _ in 0..n {
        let hart = turn(file, at, harts)?;
        turns.push(hart)?;
        at += 1;
    }
    Ok((turns, at))
}

/// Bytes from this address on lie in RAM; if there are none, the address may be RAM's end.
fn is_in_ram(frames: u32, address: u32, size: u32) -> bool
    ensures { result ≡ lies_in_ram frames address size }
{
    address >= RAM_START && address as u64 + size as u64 <= ram_end(frames)
}

/// A segment.
#[tactic(auto, unfolding(crate::specs::Reading::segment_at))]
fn segment(file: &[u8], at: usize, frames: u32) -> Result<SegmentPlace, BundleFault>
    requires { at ≤ length file.now }
    ensures field { Shows (segment_of file.now) result (segment_at frames file.now at) }
    ensures whole { IfOk result (λ p. IsSegmentPlace (length file.now) at p) }
{
    let address = number(file, at)?;
    let size = number(file, at + 4)?;
    if !is_in_ram(frames, address, size) {
        return Err(BundleFault::BadRange(at as u64));
    }
    bytes(file, at + 8, size as usize)?;
    Ok(SegmentPlace {
        address,
        from: at + 8,
        to: at + 8 + size as usize,
    })
}

/// The segments, and the offset after them.
pub fn segments(
    alloc: Global,
    file: &[u8],
    from: usize,
    frames: u32,
    n: u32,
) -> Result<(Vec<SegmentPlace>, usize), BundleFault>
    requires { from ≤ length file.now }
    ensures fields { Gives (λ x. (map (segment_of file.now) x.0.items, x.1)) result
        (parts_at (segment_at frames file.now) segment_size n from) }
    ensures places { IfOk result (λ x. AreSegmentPlaces 0 x.0.items x.1) }
    ensures whole { IfOk result (λ x. x.1 ≤ length file.now) }
{
    let mut places = Vec::new(alloc);
    let mut at = from;
    for _ in 0..n {
        let place = segment(file, at, frames)?;
        at = place.to;
        places.push(place)?;
    }
    Ok((places, at))
}

/// The frame of the first of some pages.
#[tactic(auto, unfolding(crate::specs::Reading::place_at))]
fn place(file: &[u8], at: usize, frames: u32, pages: u32) -> Result<u32, BundleFault>
    requires { at ≤ length file.now }
    ensures field { result ≡ place_at frames pages file.now at }
    ensures whole { OnOk result (at + 4 ≤ length file.now) }
{
    let place = number(file, at)?;
    if place as u64 + pages as u64 > frames as u64 {
        return Err(BundleFault::BadRange(at as u64));
    }
    Ok(place)
}

/// Pages from this address on are pages of the address space.
fn is_base(base: u32, pages: u32) -> bool
    ensures { result ≡ is_base_of pages base }
{
    base % 4096 == 0 && base as u64 + 4096 * pages as u64 <= 1 << 32
}

/// The address of the first of some pages.
#[tactic(auto, unfolding(crate::specs::Reading::base_at))]
fn base(file: &[u8], at: usize, pages: u32) -> Result<u32, BundleFault>
    requires { at ≤ length file.now }
    ensures field { result ≡ base_at pages file.now at }
    ensures whole { OnOk result (at + 4 ≤ length file.now) }
{
    let base = number(file, at)?;
    if !is_base(base, pages) {
        return Err(BundleFault::BadRange(at as u64));
    }
    Ok(base)
}

/// How many bytes the number of a key takes.
fn size_of_key(keys: bool) -> usize
    ensures { result ≡ key_size keys }
{
    if keys { 4 } else { 0 }
}

/// The number of a program's key, which is 0 in a file without keys.
#[tactic(auto, unfolding(crate::specs::Reading::key_at))]
fn key(file: &[u8], at: usize, keys: bool) -> Result<u32, BundleFault>
    requires { at ≤ length file.now }
    ensures field { result ≡ key_at keys file.now at }
    ensures whole { OnOk result (at + key_size keys ≤ length file.now) }
{
    if !keys {
        return Ok(0);
    }
    count(file, at, 0, 3)
}

/// A program.
#[tactic(auto, unfolding(crate::specs::Reading::program_at))]
fn program(file: &[u8], at: usize, frames: u32, keys: bool) -> Result<ProgramPlace, BundleFault>
    requires { at ≤ length file.now }
    ensures field { Shows (program_of file.now) result (program_at keys frames file.now at) }
    ensures whole { IfOk result (λ p. IsProgramPlace keys (length file.now) at p) }
{
    let page_count = count(file, at, 1, 1024)?;
    let place = place(file, at + 4, frames, page_count)?;
    let base = base(file, at + 8, page_count)?;
    let entry = entry(file, at + 12)?;
    let sp = number(file, at + 16)?;
    let key = key(file, at + 20, keys)?;
    let from = at + 20 + size_of_key(keys);
    pages(file, from, page_count)?;
    let start = Start {
        pages: page_count,
        base,
        entry,
        sp,
    };
    Ok(ProgramPlace {
        place,
        start,
        key,
        from,
        to: from + 4096 * page_count as usize,
    })
}

/// The programs, and the offset after them.
pub fn programs(
    alloc: Global,
    file: &[u8],
    from: usize,
    frames: u32,
    keys: bool,
    n: u32,
) -> Result<(Vec<ProgramPlace>, usize), BundleFault>
    requires { from ≤ length file.now }
    ensures fields { Gives (λ x. (map (program_of file.now) x.0.items, x.1)) result
        (parts_at (program_at keys frames file.now) (program_size keys) n from) }
    ensures places { IfOk result (λ x. AreProgramPlaces from x.0.items x.1) }
    ensures whole { IfOk result (λ x. x.1 ≤ length file.now) }
{
    let mut places = Vec::new(alloc);
    let mut at = from;
    for _ in 0..n {
        let place = program(file, at, frames, keys)?;
        at = place.to;
        places.push(place)?;
    }
    Ok((places, at))
}
