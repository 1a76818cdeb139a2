//! The kernel of an image.
ghost use Rattle.std.specs.Prelude.{◌≡◌, ◌≤◌, ◌<◌, ◌%◌, [], All, IfOk, IfErr, length};
ghost use Rattle.toml.specs.View.{view, items_view};
ghost use Rattle.command_parts.specs.Outside.{files};
ghost use Rattle.cloak_model.specs.Bundle.{IsKernelImage, hart_counts, schedule_lengths};
ghost use Rattle.manifest.specs.Parts.{entry_at, harts_in_order, schedule_at, turns_of};
ghost use Rattle.manifest.specs.Faults.{ReturnsRead, by_keys};
ghost use Rattle.manifest.specs.Images.{KernelReads};
ghost use Rattle.manifest.specs.Reading.{IsNoReadFault, IsWant, ReadsParts};

use crate::disk::disk;
use crate::fault::{FaultyKey, KeyFault, PackError};
use crate::fields::{NamedTable, expect_multiple, in_range};
use crate::key::{Key, ManifestTable};
use crate::segments::segments;
use cloak_base::RAM_START;
use cloak_model::{KernelImage, Sequence};
use io_traits::Shelf;
use std::alloc::Global;
use toml::Value;

/// The harts in order, one turn each.
fn plain_schedule(alloc: Global, harts: u32) -> Result<Vec<u8>, PackError>
    requires { harts ≤ hart_counts.high }
    ensures order { IfOk result (λ v. v.items ≡ harts_in_order harts) }
    ensures count { IfOk result (λ v. length v.items ≡ harts) }
    ensures turns { IfOk result (λ v. All (λ h. h < harts) v.items) }
    ensures want { IfErr result IsWant }
{
    let mut turns = Vec::new(alloc);
    for hart in 0..harts {
        turns.push(hart as u8)?;
    }
    Ok(turns)
}

/// The turns that values mean.
fn given_schedule(
    alloc: Global,
    place: NamedTable<'_>,
    turns: &[Value],
    harts: u32,
) -> Result<Vec<u8>, PackError>
    requires some { 1 ≤ harts }
    requires few { harts ≤ hart_counts.high }
    ensures read { ReturnsRead (λ v. v.items)
        (λ r. r ≡ by_keys (turns_of place.entry.part harts [] (items_view turns.now))) result }
    ensures no_read { IfErr result IsNoReadFault }
    ensures count { IfOk result (λ v. length v.items ≡ length turns.now) }
    ensures turns { IfOk result (λ v. All (λ h. h < harts) v.items) }
{
    let last = harts - 1;
    let mut schedule = Vec::new(alloc);
    for turn in turns {
        match in_range(turn, 0, last) {
            Some(hart) => schedule.push(hart as u8)?,
            None => {
                let fault = place.fault(Key::Schedule, KeyFault::NoTurn(last));
                return Err(PackError::from(fault));
            }
        }
    }
    Ok(schedule)
}

/// The schedule of a document for this many harts: 1 to 64 turns, or the harts in order if none is given.
#[tactic(auto, using(crate::proofs::Counted::count_of_view), unfolding(crate::specs::Parts::schedule_at, crate::specs::Parts::schedule_of))]
fn schedule(alloc: Global, place: NamedTable<'_>, harts: u32) -> Result<Vec<u8>, PackError>
    requires some { 1 ≤ harts }
    requires few { harts ≤ hart_counts.high }
    ensures read { ReturnsRead (λ v. v.items)
        (λ r. r ≡ by_keys (schedule_at place.entry.part (view place.entry.table.now) harts)) result }
    ensures no_read { IfErr result IsNoReadFault }
    ensures some_turns { IfOk result (λ v. schedule_lengths.low ≤ length v.items) }
    ensures few_turns { IfOk result (λ v. length v.items ≤ schedule_lengths.high) }
    ensures turns { IfOk result (λ v. All (λ h. h < harts) v.items) }
{
    let Some(value) = place.value(Key::Schedule) else {
        return plain_schedule(alloc, harts);
    };
    let Some(turns) = value.as_array() else {
        return Err(PackError::from(place.fault(Key::Schedule, KeyFault::NoList)));
    };
    if turns.is_empty() {
        return Err(PackError::from(place.fault(Key::Schedule, KeyFault::TooFew)));
    }
    if turns.len() > 64 {
        let fault = place.fault(Key::Schedule, KeyFault::TooMany(64));
        return Err(PackError::from(fault));
    }
    given_schedule(alloc, place, turns.as_slice(), harts)
}

/// The program counter at which the harts begin.
#[tactic(auto, unfolding(crate::specs::Parts::entry_at))]
fn entry(place: NamedTable<'_>) -> Result<u32, FaultyKey>
    ensures read { result ≡ entry_at place.entry.part (view place.entry.table.now) }
    ensures multiple { IfOk result (λ n. n % 4 ≡ 0) }
{
    let entry = place.number_or(Key::Entry, 0, u32::MAX, RAM_START)?;
    expect_multiple(place, Key::Entry, 4, entry)
}

/// The kernel that a document means.
pub fn kernel<S: Shelf>(
    alloc: Global,
    shelf: &mut S,
    manifest: &str,
    document: &Value,
) -> Result<KernelImage, PackError>
    requires { S.is_settled shelf.old }
    ensures read { ReturnsRead (λ k. k) (KernelReads (S.held shelf.old) manifest.now (view document.now)) result }
    ensures in_image { IfOk result IsKernelImage }
    ensures reads { ReadsParts (files S.Shelf shelf.old) (files S.Shelf shelf.new) result }
    ensures settled { S.is_settled shelf.new }
{
    let place = NamedTable {
        part: ManifestTable::Image,
        table: document,
    };
    let frames = place.number_or(Key::Frames, 64, 4096, 64)?;
    let harts = place.number_or(Key::Harts, 1, 4, 1)?;
    let schedule = schedule(alloc, place, harts)?;
    let entry = entry(place)?;
    let tables = place.short_list(Key::Segment, 16)?;
    let segments = segments(alloc, shelf, manifest, tables, frames)?;
    let disk = disk(alloc, shelf, manifest, document)?;
    Ok(KernelImage {
        frames,
        harts,
        schedule: Sequence::new(schedule),
        entry,
        segments: Sequence::new(segments),
        disk: Sequence::new(disk),
    })
}
