//! The image of a file.
ghost use Rattle.std.specs.Prelude.{◌≡◌, ◌≤◌, length, map, None, IfOk, OnOk};
ghost use Rattle.elf_image.specs.Elf as elf;
ghost use Rattle.elf_image.specs.Faults.{fault_of};
ghost use Rattle.elf_image.specs.Image.{IsImage};
ghost use Rattle.elf_image.specs.Views.{seen, seen_image};

use crate::fields::{rule, word};
use crate::header::{check_header, header_at, header_count};
use crate::part::{ElfPart, load};
use crate::{ElfCause, ElfFault};
use arrayvec::ArrayVec;

/// What an ELF file puts into memory.
#[derive(Drop)]
pub struct ElfImage<'a> {
    /// The address of the first instruction.
    pub entry: u32,
    /// The loadable parts in the order of their program headers.
    pub parts: ArrayVec<ElfPart<'a>, 16>,
}

/// The loadable parts.
fn load_parts(file: &[u8]) -> Result<ArrayVec<ElfPart<'_>, 16>, ElfFault>
    requires long { 52 ≤ length file.now }
    requires inside { elf.header_at file.now (elf.header_count file.now) ≤ length file.now }
    ensures fault { fault_of result ≡ elf.parts_fault file.now (elf.header_count file.now) }
    ensures parts { IfOk result (λ found. map seen found.items ≡ elf.parts file.now (elf.header_count file.now)) }
{
    let mut parts = ArrayVec::new();
    for number in 0..header_count(file) {
        load(file, &mut parts, header_at(file, number))?;
    }
    Ok(parts)
}

/// The image of an ELF file, or its first fault.
#[tactic(auto, unfolding(crate::specs::Elf::elf_fault))]
pub fn read_elf(file: &[u8]) -> Result<ElfImage<'_>, ElfFault>
    // A file without a fault is read, and another one is refused with its first fault.
    ensures fault { fault_of result ≡ elf.elf_fault file.now }
    // The image is what the fields say.
    ensures image { IfOk result (λ image. seen_image image ≡ elf.elf_image file.now) }
    // It has 1 to 16 parts, which lie in the address space, and no two of them have an address in common.
    ensures fits { IfOk result (λ image. IsImage (seen_image image)) }
{
    check_header(file)?;
    let parts = load_parts(file)?;
    rule(parts.len() > 0, ElfCause::NoPart, 44)?;
    Ok(ElfImage {
        entry: word(file, 24),
        parts,
    })
}
