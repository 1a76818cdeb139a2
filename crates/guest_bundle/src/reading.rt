ghost use Rattle.std.specs.Prelude.{◌≡◌, ◌≢◌, ◌≤◌, ◌<◌, ℕ, slice_index_or, Some, None, IfOk, IfErr, MatchResult, length, map};
ghost use Rattle.cloak_model.specs.Bundle.{IsBundle};
ghost use Rattle.cloak_model.specs.declared.image.Bundle.{Bundle};
ghost use Rattle.cloak_model.specs.declared.fault.BundleFault.TheVariants as faults;
ghost use Rattle.guest_bundle.specs.Fields.{Gives};
ghost use Rattle.cloak_model.specs.BundleFault.{bundle_fault};
ghost use Rattle.guest_bundle.specs.Reading.{bundle_at, bundle_of};
ghost use Rattle.guest_bundle.specs.Places.{AreSegmentPlaces, AreProgramPlaces, bytes_between, segment_of, program_of};

use crate::BundleFault;
use crate::fields::pages;
use crate::header::{Header, read_header};
use crate::moving::{move_end, move_programs, move_segments};
use crate::parts::{ProgramPlace, SegmentPlace, programs, schedule, segments};
use cloak_base::{LARGEST_BUNDLE, NoMemory};
use cloak_model::{Bundle, KernelImage, Sequence};
use std::alloc::Global;

/// Where the parts of a file stand.
#[derive(Drop)]
struct PartPlaces {
    schedule: Vec<u8>,
    segments: Vec<SegmentPlace>,
    disk_start: usize,
    disk_end: usize,
    programs: Vec<ProgramPlace>,
}

/// The bundle of these parts of a file.
fn gather(alloc: Global, file: Vec<u8>, h: Header, parts: PartPlaces) -> Result<Bundle, NoMemory>
    requires segments { AreSegmentPlaces 0 parts.segments.items parts.disk_start }
    requires disk { parts.disk_start ≤ parts.disk_end }
    requires programs { AreProgramPlaces parts.disk_end parts.programs.items (length file.items) }
    requires inside { parts.disk_end ≤ length file.items }
    ensures { IfOk result (λ b. b ≡ bundle_of h parts.schedule.items
        (map (segment_of file.items) parts.segments.items)
        (bytes_between file.items parts.disk_start parts.disk_end)
        (map (program_of file.items) parts.programs.items)) }
{
    let mut file = file;
    let PartPlaces {
        schedule,
        segments,
        disk_start,
        disk_end,
        programs,
    } = parts;
    let programs = move_programs(alloc, &mut file, disk_end, programs)?;
    let disk = move_end(alloc, &mut file, disk_start)?;
    let segments = move_segments(alloc, &mut file, segments)?;
    let kernel = KernelImage {
        frames: h.frames,
        harts: h.harts,
        schedule: Sequence::new(schedule),
        entry: h.entry,
        segments: Sequence::new(segments),
        disk: Sequence::new(disk),
    };
    Ok(Bundle {
        kernel,
        programs: Sequence::new(programs),
    })
}

/// The bundle of a file.
#[tactic(auto, unfolding(crate::specs::Reading::bundle_at))]
fn bundle(alloc: Global, file: Vec<u8>) -> Result<Bundle, BundleFault>
    ensures { Gives (λ x. x) result (bundle_at file.items) }
{
    if file.len() > LARGEST_BUNDLE as usize {
        return Err(BundleFault::TooLarge(0));
    }
    let bytes = file.as_slice();
    let h = read_header(bytes)?;
    let (schedule, at) = schedule(alloc, bytes, 40, h.harts, h.turns)?;
    let (segments, disk_start) = segments(alloc, bytes, at, h.frames, h.segments)?;
    let disk_end = disk_start + pages(bytes, disk_start, h.blocks)?.len();
    let (programs, end) = programs(alloc, bytes, disk_end, h.frames, h.keys, h.programs)?;
    if end != bytes.len() {
        return Err(BundleFault::Extra(end as u64));
    }
    let parts = PartPlaces {
        schedule,
        segments,
        disk_start,
        disk_end,
        programs,
    };
    match gather(alloc, file, h, parts) {
        Ok(bundle) => Ok(bundle),
        Err(_) => Err(BundleFault::NoMemory),
    }
}

/// What is true of the bytes of a file. It does nothing.
fn are_bytes(file: &[u8])
    ensures { (i : ℕ) → slice_index_or file.now i 0 < 256 }
{}

/// The bundle of a file in version 1 or 2, which gives its memory back as the parts are moved out. A file above
/// 67,108,864 bytes is refused before anything of it is read, and `NoMemory` is returned only if a growth was refused.
pub fn read(alloc: Global, file: Vec<u8>) -> Result<Bundle, BundleFault>
    // The file spells what is read, which is in the grammar.
    ensures ok { IfOk result (λ bundle. IsBundle file.items bundle) }
    // What is refused is spelled by no bundle.
    ensures err { IfErr result (λ e. e ≢ faults.NoMemory → (bundle : Bundle) → IsBundle file.items bundle → ⊥) }
    // It is refused with the first fault in reading order, and a file that is read has none.
    ensures fault { MatchResult result
        (λ _. bundle_fault file.items ≡ None)
        (λ e. e ≢ faults.NoMemory → bundle_fault file.items ≡ Some e) }
    // A bundle that spells the file is the one that is read.
    ensures only { (bundle : Bundle) → IsBundle file.items bundle → IfOk result (λ read. read ≡ bundle) }
{
    are_bytes(file.as_slice());
    bundle(alloc, file)
}
