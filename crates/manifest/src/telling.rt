//! Why there is no bundle, in words.
ghost use Rattle.std.specs.Prelude.{◌≡◌, Some};
ghost use Rattle.std.specs.Fmt.{DisplaysOnOk};
ghost use Rattle.manifest.specs.Telling as spec;
ghost use Rattle.manifest.specs.Faults.{fault_of};

use crate::fault::{FaultyKey, KeyFault, PackFault};
use crate::key::ManifestTable;
use asm_text::{FaultyText, TextFault};
use elf_image::ElfCause;
use std::fmt;

/// The manifest in a file of this name that means no bundle, and why. It shows the table and the key, and what is wrong
/// there.
#[derive(Clone, Copy)]
pub struct FaultyManifest<'a> {
    pub name: &'a str,
    pub fault: &'a PackFault,
}

/// An address, which is shown in hexadecimal digits.
#[derive(Clone, Copy)]
struct ShownAddress {
    address: u32,
}

impl fmt::Display for ShownAddress {
    ghost output = { λ shown. Some (spec.address_text shown.address) };

    fn fmt<W: fmt::Write>(&self, f: &mut fmt::Formatter<W>) -> fmt::Result {
        f.write_str("0x")?;
        fmt::LowerHex::fmt(&self.address, f)
    }
}

/// Why a file cannot be loaded.
fn elf_words(cause: ElfCause) -> &'static str
    ensures { result.now ≡ spec.elf_words cause }
{
    match cause {
        ElfCause::Short => "it ends before its header does",
        ElfCause::NoMagic => "it is no ELF file",
        ElfCause::OtherClass => "it is not of 32 bits",
        ElfCause::OtherByteOrder => "its numbers are not little-endian",
        ElfCause::OtherVersion => "the version is not 1",
        ElfCause::NotExecutable => "it is not a program at fixed addresses",
        ElfCause::OtherMachine => "it is not for RISC-V",
        ElfCause::Compressed => "it has compressed instructions",
        ElfCause::FloatRegisters => "it passes numbers in floating-point registers",
        ElfCause::FewRegisters => "it is for 16 registers",
        ElfCause::OtherFlags => "a flag is not known",
        ElfCause::HeaderSize => "the program headers are not of 32 bytes",
        ElfCause::TooManyHeaders => "there are 65535 program headers or more",
        ElfCause::HeadersOutside => "the program headers go past the end of the file",
        ElfCause::BytesOutside => "the bytes of a part go past the end of the file",
        ElfCause::MoreBytesThanSize => "a part has more bytes in the file than in memory",
        ElfCause::AddressesOutside => "a part goes past the last address",
        ElfCause::Overlap => "a part has an address of a part before it",
        ElfCause::TooManyParts => "there are more than 16 loadable parts",
        ElfCause::NoPart => "there is no loadable part",
    }
}

impl fmt::Display for ManifestTable {
    ghost output = { λ part. Some (spec.part_text part) };

    fn fmt<W: fmt::Write>(&self, f: &mut fmt::Formatter<W>) -> fmt::Result {
        match self {
            ManifestTable::Image => Ok(()),
            ManifestTable::Segment(number) => write!(f, "segment {number}: "),
            ManifestTable::Disk => f.write_str("disk: "),
            ManifestTable::File(number) => write!(f, "disk: file {number}: "),
            ManifestTable::Program(number) => write!(f, "program {number}: "),
        }
    }
}

impl fmt::Display for KeyFault {
    ghost output = { λ wrong. Some (spec.wrong_words wrong) };

    fn fmt<W: fmt::Write>(&self, f: &mut fmt::Formatter<W>) -> fmt::Result {
        match self {
            KeyFault::Missing => f.write_str("it is missing"),
            KeyFault::NoSource => f.write_str("it is missing, and so is `text`"),
            KeyFault::NoNumber(least, most) => {
                write!(f, "it must be a whole number from {least} to {most}")
            }
            KeyFault::NoTurn(last) => write!(
                f,
                "each turn must be a whole number from 0 to {last}"
            ),
            KeyFault::NoMultiple(of) => write!(f, "it must be a multiple of {of}"),
            KeyFault::NoName => f.write_str("it must be the name of a file, in quotes"),
            KeyFault::NoList => f.write_str("it must be a list"),
            KeyFault::NoTable => f.write_str("it must be a table"),
            KeyFault::TooFew => f.write_str("it must have at least 1 element"),
            KeyFault::TooMany(most) => write!(f, "it must have at most {most} elements"),
            KeyFault::TwoSources => f.write_str("it stands beside `text`: remove one of them"),
            KeyFault::BesideElf => f.write_str("it stands beside `elf`: remove one of them"),
            KeyFault::NoFile => f.write_str("the file is empty, or is not there"),
            KeyFault::NoRoom(room) => {
                write!(f, "there is room for {room} bytes, and there are more")
            }
            KeyFault::NoElf(fault) => {
                let words = elf_words(fault.cause);
                write!(f, "at byte {} of the file: {words}", fault.at)
            }
            KeyFault::PartOutside(address) => {
                let address = ShownAddress { address: *address };
                write!(f, "the part at {address} in the file does not lie in RAM")
            }
            KeyFault::EntryOutside(entry) => {
                let entry = ShownAddress { address: *entry };
                write!(
                    f,
                    "the entry {entry} in the file does not lie in the program's pages"
                )
            }
            KeyFault::UnalignedEntry(entry) => {
                let entry = ShownAddress { address: *entry };
                write!(f, "the entry {entry} in the file is not a multiple of 4")
            }
            KeyFault::TooManySegments => f.write_str("there would be more than 16 segments"),
            KeyFault::PastRam => f.write_str("what begins here goes past the end of RAM"),
            KeyFault::PastAddresses => {
                f.write_str("the pages that begin here go past the last address")
            }
            KeyFault::TooLarge => f.write_str("the bundle would have more than 67108864 bytes"),
        }
    }
}

/// Writes what is wrong with the text in a file of this name, which a table names.
fn write_faulty_text<W: fmt::Write>(
    part: &ManifestTable,
    name: &str,
    text: &str,
    fault: TextFault,
    f: &mut fmt::Formatter<W>,
) -> fmt::Result
    ensures { DisplaysOnOk W.write_str_gives f.old result
        (Some (spec.faulty_text_line part.now name.now text.now fault)) f.new }
{
    let faulty = FaultyText { name, text, fault };
    write!(f, "{part}text: the file is not assembler text\n{faulty}")
}

impl fmt::Display for FaultyKey {
    ghost output = { λ fault. Some (spec.key_fault_line fault) };

    fn fmt<W: fmt::Write>(&self, f: &mut fmt::Formatter<W>) -> fmt::Result {
        let key = self.key.name();
        write!(f, "{}{key}: {}\n", self.part, self.wrong)
    }
}

impl fmt::Display for PackFault {
    ghost output = { λ fault. Some (spec.fault_line (fault_of fault)) };

    fn fmt<W: fmt::Write>(&self, f: &mut fmt::Formatter<W>) -> fmt::Result {
        match self {
            PackFault::TooLong => f.write_str("the file has more than 1048576 bytes\n"),
            PackFault::NoBytes => f.write_str("the file is empty, or is not there\n"),
            PackFault::NotText => f.write_str("the file is not text in UTF-8\n"),
            PackFault::NotToml(words) => write!(f, "not a TOML document: {words}\n"),
            PackFault::AtKey(fault) => write!(f, "{fault}"),
            PackFault::UnknownKey { part, name } => {
                write!(f, "{part}{name}: there is no key of this name here\n")
            }
            PackFault::FaultyText {
                part,
                name,
                text,
                fault,
            } => { write_faulty_text(part, name.as_str(), text.as_str(), *fault, f) }
        }
    }
}

impl fmt::Display for FaultyManifest<'_> {
    ghost output = { λ m. Some (spec.pack_text m.name.now (fault_of m.fault.now)) };

    fn fmt<W: fmt::Write>(&self, f: &mut fmt::Formatter<W>) -> fmt::Result {
        write!(f, "{}: {}", self.name, self.fault)
    }
}
