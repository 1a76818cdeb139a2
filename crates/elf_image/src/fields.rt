//! Numbers of a file, and rules.
ghost use Rattle.std.specs.Prelude.{◌≡◌, ◌+◌, ◌≤◌, length};
ghost use Rattle.elf_image.specs.Elf as elf;
ghost use Rattle.elf_image.specs.Faults.{fault_of};

use crate::{ElfCause, ElfFault};

/// The number of two bytes at an offset.
pub fn half(file: &[u8], at: usize) -> u16
    requires { at + 2 ≤ length file.now }
    ensures { result ≡ elf.half file.now at }
{
    u16::from_le_bytes([file[at], file[at + 1]])
}

/// The number of four bytes at an offset.
pub fn word(file: &[u8], at: usize) -> u32
    requires { at + 4 ≤ length file.now }
    ensures { result ≡ elf.word file.now at }
{
    u32::from_le_bytes([file[at], file[at + 1], file[at + 2], file[at + 3]])
}

/// A rule of the field at an offset.
pub fn rule(holds: bool, cause: ElfCause, at: usize) -> Result<(), ElfFault>
    ensures { fault_of result ≡ elf.rule holds cause at }
{
    if holds {
        return Ok(());
    }
    Err(ElfFault {
        cause,
        at: at as u64,
    })
}
