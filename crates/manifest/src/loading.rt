//! The ELF file that a table names, and the pages that a program has of its parts.
ghost use Rattle.std.specs.Prelude.{◌≡◌, ◌≤◌, ◌+◌, ◌-◌, ◌*◌, ◌%◌, All, IfOk, IfErr, length, map, replicate};
ghost use Rattle.cloak_model.specs.Bundle.{page_counts};
ghost use Rattle.elf_image.specs.Image.{IsImage};
ghost use Rattle.elf_image.specs.Views.{seen, seen_image};
ghost use Rattle.manifest.specs.Fields.{Shows};
ghost use Rattle.manifest.specs.Loading as spec;
ghost use Rattle.manifest.specs.Loading.{image_at, with_loaded};
ghost use Rattle.manifest.specs.Parts.{with_bytes};
ghost use Rattle.manifest.specs.Reading.{IsWant};

use crate::fault::{FaultyKey, KeyFault, PackError};
use crate::fields::NamedTable;
use crate::key::Key;
use elf_image::{ElfImage, ElfPart, read_elf};
use std::alloc::Global;

/// The image of an ELF file.
#[tactic(auto, unfolding(crate::specs::Loading::image_at))]
pub fn image_of<'a>(place: NamedTable<'_>, file: &'a [u8]) -> Result<ElfImage<'a>, FaultyKey>
    ensures read { Shows seen_image result (image_at place.entry.part file.now) }
    ensures fits { IfOk result (λ image. IsImage (seen_image image)) }
{
    match read_elf(file) {
        Ok(image) => Ok(image),
        Err(fault) => Err(place.fault(Key::Elf, KeyFault::NoElf(fault))),
    }
}

/// The lowest address of parts.
fn lowest(parts: &[ElfPart<'_>]) -> u32
    ensures { result ≡ spec.lowest (map seen parts.now) }
{
    parts
        .iter()
        .fold(u32::MAX, |low, part| low.min(part.address))
}

/// The address after the last one of a part.
fn end(part: &ElfPart<'_>) -> u64
    ensures { result ≡ part.now.address + part.now.size }
{
    u64::from(part.address) + u64::from(part.size)
}

/// The address after the highest of parts.
fn highest(parts: &[ElfPart<'_>]) -> u64
    ensures { result ≡ spec.highest (map seen parts.now) }
{
    parts.iter().fold(0, |high, part| high.max(end(part)))
}

/// The address of the page in which the lowest of parts begins.
pub fn base_of(parts: &[ElfPart<'_>]) -> u32
    ensures base { result ≡ spec.base_of (map seen parts.now) }
    ensures multiple { result % 4096 ≡ 0 }
{
    lowest(parts) / 4096 * 4096
}

/// How many bytes parts have from their first page on.
pub fn span(parts: &[ElfPart<'_>], base: u32) -> usize
    requires some { 1 ≤ length parts.now }
    requires base { base ≡ spec.base_of (map seen parts.now) }
    ensures { result ≡ spec.highest (map seen parts.now) - base }
{
    (highest(parts) - u64::from(base)) as usize
}

/// Stores bytes in memory.
pub fn store(memory: &mut [u8], at: usize, bytes: &[u8])
    requires { at + length bytes.now ≤ length memory.old }
    ensures { memory.new ≡ with_bytes at bytes.now memory.old }
{
    memory[at..at + bytes.len()].copy_from_slice(bytes);
}

/// The pages of a program from its base on, in which parts lie.
pub fn loaded(
    alloc: Global,
    parts: &[ElfPart<'_>],
    base: u32,
    pages: u32,
) -> Result<Vec<u8>, PackError>
    requires few { pages ≤ page_counts.high }
    requires from { All (λ p. base ≤ p.address) parts.now }
    requires to { All (λ p. p.address + length p.bytes.now ≤ base + 4096 * pages) parts.now }
    ensures bytes { IfOk result (λ v. v.items ≡ with_loaded base (replicate (4096 * pages) 0) (map seen parts.now)) }
    ensures count { IfOk result (λ v. length v.items ≡ 4096 * pages) }
    ensures want { IfErr result IsWant }
{
    let mut memory = vec![in alloc; 0; 4096 * pages as usize]?;
    for part in parts {
        store(&mut memory, (part.address - base) as usize, part.bytes);
    }
    Ok(memory)
}
