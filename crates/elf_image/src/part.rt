//! The loadable parts of a file.
ghost use Rattle.std.specs.Prelude.{◌≡◌, ◌+◌, ◌++◌, ◌<◌, ◌≤◌, length, map, not, IfOk, OnOk, OnErr};
ghost use Rattle.std.specs.List.{list_any};
ghost use Rattle.elf_image.specs.Elf as elf;
ghost use Rattle.elf_image.specs.Faults.{fault_of};
ghost use Rattle.elf_image.specs.Views.{seen};

use crate::fields::{rule, word};
use crate::{ElfCause, ElfFault};
use arrayvec::ArrayVec;

/// A loadable part: its bytes in the file, and after them zeros up to its size in memory.
#[derive(Clone, Copy, Debug, Default)]
pub struct ElfPart<'a> {
    pub address: u32,
    pub bytes: &'a [u8],
    /// How many bytes it has in memory.
    pub size: u32,
}

/// The address after the last one.
fn end(part: &ElfPart) -> u64
    ensures { result ≡ part.now.address + part.now.size }
{
    part.address as u64 + part.size as u64
}

/// There is an address in both.
fn overlap(a: &ElfPart, b: &ElfPart) -> bool
    ensures { result ≡ elf.overlap (seen a.now) (seen b.now) }
{
    (a.address.max(b.address) as u64) < end(a).min(end(b))
}

/// A part has an address in one of some others.
fn overlaps(part: &ElfPart, others: &[ElfPart]) -> bool
    ensures { result ≡ list_any (λ other. elf.overlap (seen part.now) (seen other)) others.now }
{
    others.iter().any(|other| overlap(part, other))
}

/// A part has no address in any of some others.
fn is_apart(part: &ElfPart, others: &[ElfPart]) -> bool
    ensures { result ≡ not (list_any (elf.overlap (seen part.now)) (map seen others.now)) }
{
    !overlaps(part, others)
}

/// The program header at an offset is that of no bytes, neither in the file nor in memory.
fn is_empty(file: &[u8], at: usize) -> bool
    requires { at + 32 ≤ length file.now }
    ensures { result ≡ elf.is_empty file.now at }
{
    word(file, at + 16) == 0 && word(file, at + 20) == 0
}

/// The program header at an offset is that of a loadable part, which is not empty.
fn is_loadable(file: &[u8], at: usize) -> bool
    requires { at + 32 ≤ length file.now }
    ensures { result ≡ elf.is_loadable file.now at }
{
    word(file, at) == 1 && !is_empty(file, at)
}

/// The loadable part of the program header at an offset, which comes after others.
#[tactic(auto, unfolding(crate::specs::Elf::part_fault))]
fn part_at<'a>(file: &'a [u8], before: &[ElfPart], at: usize) -> Result<ElfPart<'a>, ElfFault>
    requires { at + 32 ≤ length file.now }
    ensures fault { fault_of result ≡ elf.part_fault file.now (map seen before.now) at }
    ensures part { IfOk result (λ p. seen p ≡ elf.part_at file.now at) }
    ensures room { OnOk result (length before.now < 16) }
{
    let from = word(file, at + 4) as usize;
    let address = word(file, at + 8);
    let count = word(file, at + 16);
    let size = word(file, at + 20);
    let to = from + count as usize;
    rule(to <= file.len(), ElfCause::BytesOutside, at + 4)?;
    rule(count <= size, ElfCause::MoreBytesThanSize, at + 16)?;
    rule(
        address as u64 + size as u64 <= 1 << 32,
        ElfCause::AddressesOutside,
        at + 8,
    )?;
    let part = ElfPart {
        address,
        bytes: &file[from..to],
        size,
    };
    rule(is_apart(&part, before), ElfCause::Overlap, at + 8)?;
    rule(before.len() < 16, ElfCause::TooManyParts, at)?;
    Ok(part)
}

/// Adds the part of the program header at an offset, if it is loadable.
#[tactic(auto, unfolding(crate::specs::Elf::loaded, crate::specs::Elf::load_fault))]
pub fn load<'a>(
    file: &'a [u8],
    parts: &mut ArrayVec<ElfPart<'a>, 16>,
    at: usize,
) -> Result<(), ElfFault>
    requires { at + 32 ≤ length file.now }
    ensures fault { fault_of result ≡ elf.load_fault file.now (map seen parts.old.items) at }
    ensures parts { OnOk result (map seen parts.new.items ≡ map seen parts.old.items ++ elf.loaded file.now at) }
    ensures kept { OnErr result (parts.new ≡ parts.old) }
{
    if is_loadable(file, at) {
        let part = part_at(file, parts.as_slice(), at)?;
        parts.push(part);
    }
    Ok(())
}
