//! The header of a file.
ghost use Rattle.std.specs.Prelude.{◌≡◌, ◌^◌, ◌<◌, ◌≤◌, length, OnOk};
ghost use Rattle.elf_image.specs.Elf as elf;
ghost use Rattle.elf_image.specs.Faults.{fault_of};

use crate::fields::{half, rule, word};
use crate::{ElfCause, ElfFault};

#[tactic(auto, unfolding(crate::specs::Elf::ident_fault))]
fn check_ident(file: &[u8]) -> Result<(), ElfFault>
    requires { 52 ≤ length file.now }
    ensures { fault_of result ≡ elf.ident_fault file.now }
{
    rule(&file[..4] == b"\x7fELF".as_slice(), ElfCause::NoMagic, 0)?;
    rule(file[4] == 1, ElfCause::OtherClass, 4)?;
    rule(file[5] == 1, ElfCause::OtherByteOrder, 5)?;
    rule(file[6] == 1, ElfCause::OtherVersion, 6)
}

#[tactic(auto, unfolding(crate::specs::Elf::kind_fault))]
fn check_kind(file: &[u8]) -> Result<(), ElfFault>
    requires { 52 ≤ length file.now }
    ensures { fault_of result ≡ elf.kind_fault file.now }
{
    rule(half(file, 16) == 2, ElfCause::NotExecutable, 16)?;
    rule(half(file, 18) == 243, ElfCause::OtherMachine, 18)?;
    rule(word(file, 20) == 1, ElfCause::OtherVersion, 20)
}

#[tactic(auto, unfolding(crate::specs::Elf::flags_fault))]
fn check_flags(file: &[u8]) -> Result<(), ElfFault>
    requires { 52 ≤ length file.now }
    ensures { fault_of result ≡ elf.flags_fault file.now }
{
    let flags = word(file, 36);
    rule(flags & 0x1 == 0, ElfCause::Compressed, 36)?;
    rule(flags & 0x6 == 0, ElfCause::FloatRegisters, 36)?;
    rule(flags & 0x8 == 0, ElfCause::FewRegisters, 36)?;
    rule(flags < 0x20, ElfCause::OtherFlags, 36)
}

/// How many program headers there are.
pub fn header_count(file: &[u8]) -> usize
    requires { 52 ≤ length file.now }
    ensures count { result ≡ elf.header_count file.now }
    ensures few { result < 2 ^ 16 }
{
    half(file, 44) as usize
}

/// Where a program header begins.
pub fn header_at(file: &[u8], number: usize) -> usize
    requires long { 52 ≤ length file.now }
    requires few { number < 2 ^ 16 }
    ensures { result ≡ elf.header_at file.now number }
{
    word(file, 28) as usize + 32 * number
}

#[tactic(auto, unfolding(crate::specs::Elf::table_fault))]
fn check_table(file: &[u8]) -> Result<(), ElfFault>
    requires { 52 ≤ length file.now }
    ensures fault { fault_of result ≡ elf.table_fault file.now }
    ensures inside { OnOk result (elf.header_at file.now (elf.header_count file.now) ≤ length file.now) }
{
    rule(half(file, 42) == 32, ElfCause::HeaderSize, 42)?;
    let count = header_count(file);
    rule(count < 0xffff, ElfCause::TooManyHeaders, 44)?;
    rule(
        header_at(file, count) <= file.len(),
        ElfCause::HeadersOutside,
        28,
    )
}

/// The header has no fault.
#[tactic(auto, unfolding(crate::specs::Elf::header_fault))]
pub fn check_header(file: &[u8]) -> Result<(), ElfFault>
    ensures fault { fault_of result ≡ elf.header_fault file.now }
    ensures long { OnOk result (52 ≤ length file.now) }
    ensures inside { OnOk result (elf.header_at file.now (elf.header_count file.now) ≤ length file.now) }
{
    rule(file.len() >= 52, ElfCause::Short, file.len())?;
    check_ident(file)?;
    check_kind(file)?;
    check_flags(file)?;
    check_table(file)
}
