ghost use Rattle.std.specs.Prelude.{◌≡◌, ◌+◌, ◌<◌, ◌≤◌, ◌^◌, ◌++◌, length, All, OnOk, IfOk};
ghost use Rattle.std.specs.List.{flat_map};
ghost use Rattle.cloak_base.specs.Constants.{largest_bundle};
ghost use Rattle.cloak_model.specs.Bits.{word};
ghost use Rattle.cloak_model.specs.Bundle.{segment_bytes, program_bytes, bundle_bytes, IsInGrammar, IsBundleIn};
ghost use Rattle.guest_bundle.specs.Writing.{header_bytes};

use cloak_base::NoMemory;
use cloak_model::{Bundle, Program, Segment};
use std::alloc::Global;

/// Appends numbers, each in four bytes with the lowest first.
fn put_numbers(out: &mut Vec<u8>, numbers: &[u32]) -> Result<(), NoMemory>
    ensures { OnOk result (out.new.items ≡ out.old.items ++ flat_map word numbers.now) }
{
    for n in numbers {
        out.extend_from_slice(&n.to_le_bytes())?;
    }
    Ok(())
}

fn put_header(out: &mut Vec<u8>, b: &Bundle) -> Result<(), NoMemory>
    requires { IsInGrammar b.now }
    ensures { OnOk result (out.new.items ≡ out.old.items ++ header_bytes b.now) }
{
    let k = &b.kernel;
    let blocks = k.disk.as_slice().len() / 4096;
    out.extend_from_slice(b"CLOAKBND")?;
    put_numbers(
        out,
        &[
            2,
            k.frames,
            k.harts,
            k.schedule.as_slice().len() as u32,
            k.entry,
            k.segments.as_slice().len() as u32,
            blocks as u32,
            b.programs.as_slice().len() as u32,
        ],
    )?;
    Ok(())
}

fn put_segments(out: &mut Vec<u8>, segments: &[Segment]) -> Result<(), NoMemory>
    requires { All (λ s. length s.bytes < 2 ^ 32) segments.now }
    ensures { OnOk result (out.new.items ≡ out.old.items ++ flat_map segment_bytes segments.now) }
{
    for s in segments {
        put_segment(out, s)?;
    }
    Ok(())
}

fn put_segment(out: &mut Vec<u8>, s: &Segment) -> Result<(), NoMemory>
    requires { length s.now.bytes < 2 ^ 32 }
    ensures { OnOk result (out.new.items ≡ out.old.items ++ segment_bytes s.now) }
{
    let bytes = s.bytes.as_slice();
    put_numbers(out, &[s.address, bytes.len() as u32])?;
    out.extend_from_slice(bytes)?;
    Ok(())
}

fn put_program(out: &mut Vec<u8>, p: &Program) -> Result<(), NoMemory>
    ensures { OnOk result (out.new.items ≡ out.old.items ++ program_bytes 2 p.now) }
{
    let start = p.start;
    put_numbers(
        out,
        &[
            start.pages,
            p.place,
            start.base,
            start.entry,
            start.sp,
            p.key,
        ],
    )?;
    out.extend_from_slice(p.bytes.as_slice())?;
    Ok(())
}

fn put_programs(out: &mut Vec<u8>, programs: &[Program]) -> Result<(), NoMemory>
    ensures { OnOk result (out.new.items ≡ out.old.items ++ flat_map (program_bytes 2) programs.now) }
{
    for p in programs {
        put_program(out, p)?;
    }
    Ok(())
}

/// How many bytes these segments take in a file.
fn segments_length(segments: &[Segment]) -> u64
    requires { length (flat_map segment_bytes segments.now) < 2 ^ 32 }
    ensures { result ≡ length (flat_map segment_bytes segments.now) }
{
    let mut size = 0;
    for s in segments {
        size += 8 + s.bytes.as_slice().len() as u64;
    }
    size
}

/// How many bytes these programs take in a file of version 2.
fn programs_length(programs: &[Program]) -> u64
    requires { length (flat_map (program_bytes 2) programs.now) < 2 ^ 32 }
    ensures { result ≡ length (flat_map (program_bytes 2) programs.now) }
{
    let mut size = 0;
    for p in programs {
        size += 24 + p.bytes.as_slice().len() as u64;
    }
    size
}

/// The length of the file that `write` makes of a bundle.
pub fn file_length(b: &Bundle) -> u64
    requires { IsInGrammar b.now }
    ensures { result ≡ length (bundle_bytes 2 b.now) }
{
    let k = &b.kernel;
    let fixed = 40 + k.schedule.as_slice().len() + k.disk.as_slice().len();
    let segments = segments_length(k.segments.as_slice());
    fixed as u64 + segments + programs_length(b.programs.as_slice())
}

/// The file of a bundle in version 2, which is read as the same bundle.
pub fn write(alloc: Global, b: &Bundle) -> Result<Vec<u8>, NoMemory>
    requires grammar { IsInGrammar b.now }
    requires fits { length (bundle_bytes 2 b.now) ≤ largest_bundle }
    ensures { IfOk result (λ bytes. IsBundleIn 2 bytes.items b.now) }
{
    let k = &b.kernel;
    let mut out = Vec::new(alloc);
    put_header(&mut out, b)?;
    out.extend_from_slice(k.schedule.as_slice())?;
    put_segments(&mut out, k.segments.as_slice())?;
    out.extend_from_slice(k.disk.as_slice())?;
    put_programs(&mut out, b.programs.as_slice())?;
    Ok(out)
}
