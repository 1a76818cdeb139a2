//! The segments of an image.
ghost use Rattle.std.specs.Prelude.{◌≡◌, ◌≤◌, ◌+◌, ◌-◌, ◌++◌, ◌∷◌, [], All, IfOk, IfErr, OnOk, length, map, nat_le, replicate};
ghost use Rattle.toml.specs.View.{view, items_view};
ghost use Rattle.command_parts.specs.Outside.{files};
ghost use Rattle.cloak_base.specs.Constants.{ram_end};
ghost use Rattle.cloak_model.specs.Bundle.{IsSegmentIn, frame_counts, segment_counts};
ghost use Rattle.cloak_model.specs.BundleFault.{lies_in_ram};
ghost use Rattle.elf_image.specs.Image.{IsPart};
ghost use Rattle.elf_image.specs.Views.{seen};
ghost use Rattle.manifest.specs.declared.key.Key.TheVariants as keys;
ghost use Rattle.manifest.specs.Keys.{stands_at};
ghost use Rattle.manifest.specs.Parts.{segment_at, with_flat, with_segment};
ghost use Rattle.manifest.specs.Loading as spec;
ghost use Rattle.manifest.specs.Loading.{with_elf, with_parts};
ghost use Rattle.manifest.specs.Faults.{ReturnsRead, by_keys};
ghost use Rattle.manifest.specs.Images.{SegmentReads, SegmentsBy, SegmentsRead};
ghost use Rattle.manifest.specs.Reading.{IsNoReadFault, IsWant, ReadsParts};

use crate::fault::{FaultyKey, KeyFault, PackError};
use crate::fields::NamedTable;
use crate::key::{Key, ManifestTable};
use crate::loading::image_of;
use crate::sources::{elf_file, source};
use cloak_base::{RAM_START, ram_end};
use cloak_model::{Segment, Sequence};
use elf_image::ElfPart;
use io_traits::Shelf;
use std::alloc::Global;
use toml::Value;

/// This many bytes from this address of RAM on lie in RAM.
fn is_in_ram(address: u32, size: usize, frames: u32) -> bool
    requires frames { frames ≤ frame_counts.high }
    ensures { result ≡ nat_le (address + size) (ram_end frames) }
{
    let end = ram_end(frames);
    let address = u64::from(address);
    address <= end && size as u64 <= end - address
}

/// The segment of these bytes that a table means.
#[tactic(auto, unfolding(crate::specs::Parts::segment_at))]
fn placed_segment(place: NamedTable<'_>, bytes: Vec<u8>, frames: u32) -> Result<Segment, FaultyKey>
    requires frames { frames ≤ frame_counts.high }
    ensures read { result ≡ segment_at place.entry.part (view place.entry.table.now) frames bytes.items }
    ensures in_ram { IfOk result (IsSegmentIn frames) }
{
    let address = place.needed_number(Key::Address, RAM_START, u32::MAX)?;
    if !is_in_ram(address, bytes.len(), frames) {
        return Err(place.fault(Key::Address, KeyFault::PastRam));
    }
    Ok(Segment {
        address,
        bytes: Sequence::new(bytes),
    })
}

/// One segment more, and 16 at most.
fn push_segment(segments: &mut Vec<Segment>, segment: Segment) -> Result<(), PackError>
    ensures read { ReturnsRead (λ _. segments.new.items)
        (λ r. r ≡ by_keys (with_segment segments.old.items segment)) result }
    ensures no_read { IfErr result IsNoReadFault }
    ensures pushed { OnOk result (segments.new.items ≡ segments.old.items ++ segment ∷ []) }
    ensures few { OnOk result (length segments.new.items ≤ segment_counts.high) }
{
    if segments.len() >= 16 {
        return Err(PackError::from(FaultyKey {
            part: ManifestTable::Image,
            key: Key::Segment,
            wrong: KeyFault::TooManySegments,
        }));
    }
    segments.push(segment)?;
    Ok(())
}

/// A part of memory lies in RAM.
fn part_is_in_ram(part: &ElfPart<'_>, frames: u32) -> bool
    requires frames { frames ≤ frame_counts.high }
    ensures { result ≡ lies_in_ram frames part.now.address part.now.size }
{
    RAM_START <= part.address && is_in_ram(part.address, part.size as usize, frames)
}

/// The bytes of a part with its zeros.
fn part_bytes(alloc: Global, part: &ElfPart<'_>) -> Result<Vec<u8>, PackError>
    requires inside { length part.now.bytes.now ≤ part.now.size }
    ensures bytes { IfOk result
        (λ v. v.items ≡ part.now.bytes.now ++ replicate (part.now.size - length part.now.bytes.now) 0) }
    ensures want { IfErr result IsWant }
{
    let mut bytes = Vec::from_slice(alloc, part.bytes)?;
    bytes.resize(part.size as usize, 0)?;
    Ok(bytes)
}

/// The segment of a part.
#[tactic(auto, unfolding(crate::specs::Loading::part_segment))]
fn part_segment(
    alloc: Global,
    place: NamedTable<'_>,
    part: &ElfPart<'_>,
    frames: u32,
) -> Result<Segment, PackError>
    requires frames { frames ≤ frame_counts.high }
    requires inside { length part.now.bytes.now ≤ part.now.size }
    ensures read { ReturnsRead (λ s. s)
        (λ r. r ≡ by_keys (spec.part_segment place.entry.part frames (seen part.now))) result }
    ensures no_read { IfErr result IsNoReadFault }
    ensures in_ram { IfOk result (IsSegmentIn frames) }
{
    if !part_is_in_ram(part, frames) {
        return Err(PackError::from(place.fault(Key::Elf, KeyFault::PartOutside(part.address))));
    }
    Ok(Segment {
        address: part.address,
        bytes: Sequence::new(part_bytes(alloc, part)?),
    })
}

/// Adds a segment for each part.
fn add_parts(
    alloc: Global,
    place: NamedTable<'_>,
    parts: &[ElfPart<'_>],
    frames: u32,
    segments: &mut Vec<Segment>,
) -> Result<(), PackError>
    requires frames { frames ≤ frame_counts.high }
    requires parts { All IsPart (map seen parts.now) }
    requires few { length segments.old.items ≤ segment_counts.high }
    requires in_ram { All (IsSegmentIn frames) segments.old.items }
    ensures read { ReturnsRead (λ _. segments.new.items)
        (λ r. r ≡ by_keys (with_parts place.entry.part frames segments.old.items (map seen parts.now))) result }
    ensures no_read { IfErr result IsNoReadFault }
    ensures few { OnOk result (length segments.new.items ≤ segment_counts.high) }
    ensures in_ram { OnOk result (All (IsSegmentIn frames) segments.new.items) }
{
    for part in parts {
        let segment = part_segment(alloc, place, part, frames)?;
        push_segment(segments, segment)?;
    }
    Ok(())
}

/// Adds the segments of an ELF file.
fn add_elf(
    alloc: Global,
    place: NamedTable<'_>,
    file: &[u8],
    frames: u32,
    segments: &mut Vec<Segment>,
) -> Result<(), PackError>
    requires frames { frames ≤ frame_counts.high }
    requires few { length segments.old.items ≤ segment_counts.high }
    requires in_ram { All (IsSegmentIn frames) segments.old.items }
    ensures read { ReturnsRead (λ _. segments.new.items)
        (λ r. r ≡ by_keys (with_elf place.entry.part frames segments.old.items file.now)) result }
    ensures no_read { IfErr result IsNoReadFault }
    ensures few { OnOk result (length segments.new.items ≤ segment_counts.high) }
    ensures in_ram { OnOk result (All (IsSegmentIn frames) segments.new.items) }
{
    let image = image_of(place, file)?;
    add_parts(alloc, place, image.parts.as_slice(), frames, segments)
}

/// Adds the segment of some bytes.
fn add_flat(
    place: NamedTable<'_>,
    bytes: Vec<u8>,
    frames: u32,
    segments: &mut Vec<Segment>,
) -> Result<(), PackError>
    requires frames { frames ≤ frame_counts.high }
    requires in_ram { All (IsSegmentIn frames) segments.old.items }
    ensures read { ReturnsRead (λ _. segments.new.items) (λ r. r ≡ by_keys (with_flat place.entry.part
        (view place.entry.table.now) frames segments.old.items bytes.items)) result }
    ensures no_read { IfErr result IsNoReadFault }
    ensures few { OnOk result (length segments.new.items ≤ segment_counts.high) }
    ensures in_ram { OnOk result (All (IsSegmentIn frames) segments.new.items) }
{
    let segment = placed_segment(place, bytes, frames)?;
    push_segment(segments, segment)
}

/// Adds the segments that a table means by its keys.
fn add_segments<S: Shelf>(
    alloc: Global,
    shelf: &mut S,
    manifest: &str,
    place: NamedTable<'_>,
    frames: u32,
    segments: &mut Vec<Segment>,
) -> Result<(), PackError>
    requires settled { S.is_settled shelf.old }
    requires frames { frames ≤ frame_counts.high }
    requires few { length segments.old.items ≤ segment_counts.high }
    requires in_ram { All (IsSegmentIn frames) segments.old.items }
    ensures read { ReturnsRead (λ _. segments.new.items)
        (SegmentsBy (S.held shelf.old) manifest.now place.entry.part frames (view place.entry.table.now)
        (stands_at keys.Elf (view place.entry.table.now)) segments.old.items) result }
    ensures few { OnOk result (length segments.new.items ≤ segment_counts.high) }
    ensures in_ram { OnOk result (All (IsSegmentIn frames) segments.new.items) }
    ensures reads { ReadsParts (files S.Shelf shelf.old) (files S.Shelf shelf.new) result }
    ensures settled { S.is_settled shelf.new }
{
    let Some(value) = place.value(Key::Elf) else {
        let bytes = source(alloc, shelf, manifest, place)?;
        return add_flat(place, bytes, frames, segments);
    };
    let file = elf_file(alloc, shelf, manifest, place, value)?;
    add_elf(alloc, place, file.as_slice(), frames, segments)
}

/// Adds the segments that the table of this number means.
fn segment<S: Shelf>(
    alloc: Global,
    shelf: &mut S,
    manifest: &str,
    table: &Value,
    number: usize,
    frames: u32,
    segments: &mut Vec<Segment>,
) -> Result<(), PackError>
    requires settled { S.is_settled shelf.old }
    requires frames { frames ≤ frame_counts.high }
    requires few { length segments.old.items ≤ segment_counts.high }
    requires in_ram { All (IsSegmentIn frames) segments.old.items }
    ensures read { ReturnsRead (λ _. segments.new.items)
        (SegmentReads (S.held shelf.old) manifest.now frames number (view table.now) segments.old.items) result }
    ensures few { OnOk result (length segments.new.items ≤ segment_counts.high) }
    ensures in_ram { OnOk result (All (IsSegmentIn frames) segments.new.items) }
    ensures reads { ReadsParts (files S.Shelf shelf.old) (files S.Shelf shelf.new) result }
    ensures settled { S.is_settled shelf.new }
{
    let part = ManifestTable::Segment(number);
    let place = NamedTable { part, table };
    place.has_only(alloc, &[Key::Address, Key::Text, Key::Bytes, Key::Elf])?;
    add_segments(alloc, shelf, manifest, place, frames, segments)
}

/// The segments that tables mean.
pub fn segments<S: Shelf>(
    alloc: Global,
    shelf: &mut S,
    manifest: &str,
    tables: &[Value],
    frames: u32,
) -> Result<Vec<Segment>, PackError>
    requires settled { S.is_settled shelf.old }
    requires frames { frames ≤ frame_counts.high }
    ensures read { ReturnsRead (λ v. v.items)
        (SegmentsRead (S.held shelf.old) manifest.now frames (items_view tables.now)) result }
    ensures few { IfOk result (λ v. length v.items ≤ segment_counts.high) }
    ensures in_ram { IfOk result (λ v. All (IsSegmentIn frames) v.items) }
    ensures reads { ReadsParts (files S.Shelf shelf.old) (files S.Shelf shelf.new) result }
    ensures settled { S.is_settled shelf.new }
{
    let mut segments = Vec::new(alloc);
    for (index, table) in tables.iter().enumerate() {
        segment(
            alloc,
            shelf,
            manifest,
            table,
            index + 1,
            frames,
            &mut segments,
        )?;
    }
    Ok(segments)
}
