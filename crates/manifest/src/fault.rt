//! Why a manifest means no bundle.
ghost use Rattle.std.specs.Prelude.{◌≡◌};
ghost use Rattle.manifest.specs.declared.fault.PackFault.TheVariants as faults;
ghost use Rattle.manifest.specs.declared.fault.PackError.TheVariants as errors;

use crate::key::{Key, ManifestTable};
use asm_text::TextFault;
use elf_image::ElfFault;
use std::alloc::{AllocError, AllocFailed};

/// What is wrong at a key.
#[derive(Clone, Copy, Debug, PartialEq, Eq)]
pub enum KeyFault {
    /// The key is needed, and is not there.
    Missing,
    /// Neither this key, which names a file of bytes, nor the one that names a text is there.
    NoSource,
    /// It is no whole number from the first of these to the second.
    NoNumber(u32, u32),
    /// A turn of the schedule is no whole number up to this, the last hart's.
    NoTurn(u32),
    /// It is no multiple of this number.
    NoMultiple(u32),
    /// It is no text.
    NoName,
    /// It is no list.
    NoList,
    /// It is no table.
    NoTable,
    /// The list has no elements.
    TooFew,
    /// The list has more elements than this.
    TooMany(u32),
    /// Beside this key, which names a file of bytes, the other one names a text.
    TwoSources,
    /// Beside this key stands `elf`, which says the same of itself.
    BesideElf,
    /// The file has no bytes, or is not there.
    NoFile,
    /// It is no ELF file that can be loaded.
    NoElf(ElfFault),
    /// The part of the file from this address on does not lie in RAM.
    PartOutside(u32),
    /// The entry in the file, which is this, does not lie in the program's pages.
    EntryOutside(u32),
    /// The entry in the file, which is this, is no multiple of 4.
    UnalignedEntry(u32),
    /// There would be more than 16 segments.
    TooManySegments,
    /// The file has more bytes than there is room for.
    NoRoom(u32),
    /// What begins here goes past the end of RAM.
    PastRam,
    /// The pages that begin here go past the end of the addresses.
    PastAddresses,
    /// The bundle has more than 67,108,864 bytes in version 2.
    TooLarge,
}

/// What is wrong at a key of a table.
#[derive(Clone, Copy, Debug, PartialEq, Eq)]
pub struct FaultyKey {
    pub part: ManifestTable,
    pub key: Key,
    pub wrong: KeyFault,
}

/// Why a manifest means no bundle.
#[derive(Debug, Drop)]
pub enum PackFault {
    /// The manifest has more than 1,048,576 bytes.
    TooLong,
    /// The manifest has no bytes, or is not there.
    NoBytes,
    /// The manifest is no UTF-8.
    NotText,
    /// The manifest is no TOML document; what its reader says.
    NotToml(String),
    /// What stands at a key is wrong.
    AtKey(FaultyKey),
    /// There is no key of this name in this table.
    UnknownKey {
        part: ManifestTable,
        name: String,
    },
    /// The assembler text of this file is faulty.
    FaultyText {
        part: ManifestTable,
        name: String,
        text: String,
        fault: TextFault,
    },
}

/// Why there is no bundle.
#[derive(Debug, Drop)]
pub enum PackError {
    /// A file could not be read.
    ReadFault,
    NoMemory,
    Faulty(PackFault),
}

impl From<FaultyKey> for PackError {
    ghost from_gives = { λ fault error. error ≡ errors.Faulty (faults.AtKey fault) };

    fn from(fault: FaultyKey) -> PackError {
        PackError::Faulty(PackFault::AtKey(fault))
    }
}

impl From<AllocError> for PackError {
    ghost from_gives = { λ _ error. error ≡ errors.NoMemory };

    fn from(_: AllocError) -> PackError {
        PackError::NoMemory
    }
}

impl<T: Drop> From<AllocFailed<T>> for PackError {
    ghost from_gives = { λ _ error. error ≡ errors.NoMemory };

    fn from(_: AllocFailed<T>) -> PackError {
        PackError::NoMemory
    }
}
