//! The bytes that a table of a manifest names: those of a file, or of the words of an assembler text.
ghost use Rattle.std.specs.Prelude.{◌≡◌, ◌↔◌, IfOk, IfErr, IsTrue, string_bytes};
ghost use Rattle.toml.specs.View.{view};
ghost use Rattle.rv_asm.specs.declared.fault.AsmFault.TheVariants as asm;
ghost use Rattle.asm_text.specs.declared.fault.TextFault.TheVariants as text_fault;
ghost use Rattle.command_parts.specs.Outside.{files};
ghost use Rattle.manifest.specs.declared.key.Key.TheVariants as keys;
ghost use Rattle.manifest.specs.Faults.{ReturnsRead, Then};
ghost use Rattle.manifest.specs.Sources.{AtPath, ElfReads, IsFileAt, IsPath, SourceReads, TextReads};
ghost use Rattle.manifest.specs.Images.{beside_no_elf};
ghost use Rattle.manifest.specs.Reading.{IsNoFault, IsNoReadFault, IsWant, IsWhole, ReadsParts};

use crate::fault::{KeyFault, PackError, PackFault};
use crate::fields::NamedTable;
use crate::key::{Key, ManifestTable};
use asm_text::{TextFault, assembled, shown_text};
use cloak_base::LARGEST_BUNDLE;
use command_parts::{Refusal, read_front};
use io_traits::Shelf;
use rv_asm::AsmFault;
use std::alloc::Global;
use toml::Value;

/// The keys that stand beside no `elf`.
const BESIDE_NO_ELF: [Key; 5] = [Key::Address, Key::Text, Key::Bytes, Key::Base, Key::Entry];

/// The name of a file that a manifest names, from the manifest's folder on.
fn path_of(alloc: Global, manifest: &str, name: &str) -> Result<String, PackError>
    ensures path { IfOk result (λ path. IsPath manifest.now name.now (string_bytes path)) }
    ensures want { IfErr result IsWant }
{
    if name.starts_with('/') {
        return Ok(String::from_str(alloc, name)?);
    }
    let path = match manifest.rsplit_once('/') {
        Some((folder, _)) => format!(in alloc; "{folder}/{name}")?,
        None => String::from_str(alloc, name)?,
    };
    Ok(path)
}

/// All bytes of a file; none if it has more than `limit`.
pub fn read_whole<S: Shelf>(
    alloc: Global,
    shelf: &mut S,
    name: &str,
    limit: u32,
) -> Result<Option<Vec<u8>>, PackError>
    requires { S.is_settled shelf.old }
    ensures whole { IfOk result (IsWhole (S.held shelf.old name.now) limit) }
    ensures no_fault { IfErr result IsNoFault }
    ensures reads { ReadsParts (files S.Shelf shelf.old) (files S.Shelf shelf.new) result }
    ensures settled { S.is_settled shelf.new }
{
    let bytes = match read_front(alloc, shelf, name, u64::from(limit) + 1) {
        Ok(bytes) => bytes,
        Err(Refusal::ReadFault) => return Err(PackError::ReadFault),
        Err(_) => return Err(PackError::NoMemory),
    };
    if bytes.len() as u64 > u64::from(limit) {
        return Ok(None);
    }
    Ok(Some(bytes))
}

/// The bytes of the file of this name, which a key of a table names.
fn named_file<S: Shelf>(
    alloc: Global,
    shelf: &mut S,
    path: &str,
    place: NamedTable<'_>,
    key: Key,
) -> Result<Vec<u8>, PackError>
    requires { S.is_settled shelf.old }
    ensures read { ReturnsRead (λ v. v.items) (IsFileAt place.entry.part key (S.held shelf.old path.now)) result }
    ensures reads { ReadsParts (files S.Shelf shelf.old) (files S.Shelf shelf.new) result }
    ensures settled { S.is_settled shelf.new }
{
    match read_whole(alloc, shelf, path, LARGEST_BUNDLE) {
        Ok(Some(bytes)) => {
            if bytes.as_slice().is_empty() {
                return Err(PackError::from(place.fault(key, KeyFault::NoFile)));
            }
            Ok(bytes)
        }
        Ok(None) => Err(PackError::from(place.fault(key, KeyFault::NoRoom(LARGEST_BUNDLE)))),
        Err(error) => Err(error),
    }
}

/// This fault is want of memory.
fn is_want(fault: TextFault) -> bool
    ensures { IsTrue result ↔ (fault ≡ text_fault.Faulty asm.NoMemory) }
{
    matches!(fault, TextFault::Faulty(AsmFault::NoMemory))
}

/// The bytes of the words of the assembler text in the file of this name.
fn words_of(
    alloc: Global,
    part: ManifestTable,
    name: String,
    text: &[u8],
) -> Result<Vec<u8>, PackError>
    ensures read { ReturnsRead (λ v. v.items) (TextReads part (string_bytes name) text.now) result }
    ensures no_read { IfErr result IsNoReadFault }
{
    let fault = match assembled(alloc, text) {
        Ok(bytes) => return Ok(bytes),
        Err(fault) => fault,
    };
    if is_want(fault) {
        return Err(PackError::NoMemory);
    }
    let text = String::from_str(alloc, shown_text(text))?;
    Err(PackError::Faulty(PackFault::FaultyText {
        part,
        name,
        text,
        fault,
    }))
}

/// The bytes of the file of a name, which a key of a table names.
fn flat_source<S: Shelf>(
    alloc: Global,
    shelf: &mut S,
    manifest: &str,
    place: NamedTable<'_>,
    name: &str,
    key: Key,
) -> Result<Vec<u8>, PackError>
    requires { S.is_settled shelf.old }
    ensures source { ReturnsRead (λ v. v.items)
        (AtPath manifest.now name.now (λ path. IsFileAt place.entry.part key (S.held shelf.old path))) result }
    ensures reads { ReadsParts (files S.Shelf shelf.old) (files S.Shelf shelf.new) result }
    ensures settled { S.is_settled shelf.new }
{
    let path = path_of(alloc, manifest, name)?;
    named_file(alloc, shelf, path.as_str(), place, key)
}

/// The bytes of the words of the assembler text in the file of a name.
fn text_source<S: Shelf>(
    alloc: Global,
    shelf: &mut S,
    manifest: &str,
    place: NamedTable<'_>,
    name: &str,
) -> Result<Vec<u8>, PackError>
    requires { S.is_settled shelf.old }
    ensures source { ReturnsRead (λ v. v.items)
        (AtPath manifest.now name.now (λ path.
        Then (IsFileAt place.entry.part keys.Text (S.held shelf.old path)) (TextReads place.entry.part path))) result }
    ensures reads { ReadsParts (files S.Shelf shelf.old) (files S.Shelf shelf.new) result }
    ensures settled { S.is_settled shelf.new }
{
    let path = path_of(alloc, manifest, name)?;
    let text = named_file(alloc, shelf, path.as_str(), place, Key::Text)?;
    words_of(alloc, place.part, path, text.as_slice())
}

/// The bytes that a table names: those of a file at `bytes`, or those of the words of an assembler text at `text`.
pub fn source<S: Shelf>(
    alloc: Global,
    shelf: &mut S,
    manifest: &str,
    place: NamedTable<'_>,
) -> Result<Vec<u8>, PackError>
    requires { S.is_settled shelf.old }
    ensures source { ReturnsRead (λ v. v.items)
        (SourceReads (S.held shelf.old) manifest.now place.entry.part (view place.entry.table.now)) result }
    ensures reads { ReadsParts (files S.Shelf shelf.old) (files S.Shelf shelf.new) result }
    ensures settled { S.is_settled shelf.new }
{
    let flat = place.file_name(Key::Bytes)?;
    let written = place.file_name(Key::Text)?;
    match (flat, written) {
        (Some(name), None) => flat_source(alloc, shelf, manifest, place, name, Key::Bytes),
        (None, Some(name)) => text_source(alloc, shelf, manifest, place, name),
        (None, None) => Err(PackError::from(place.fault(Key::Bytes, KeyFault::NoSource))),
        (Some(_), Some(_)) => Err(PackError::from(place.fault(Key::Bytes, KeyFault::TwoSources))),
    }
}

/// The bytes of the ELF file that a table names by this value.
pub fn elf_file<S: Shelf>(
    alloc: Global,
    shelf: &mut S,
    manifest: &str,
    place: NamedTable<'_>,
    value: &Value,
) -> Result<Vec<u8>, PackError>
    requires { S.is_settled shelf.old }
    ensures read { ReturnsRead (λ v. v.items) (ElfReads (S.held shelf.old) manifest.now place.entry.part beside_no_elf
        (view place.entry.table.now) (view value.now)) result }
    ensures reads { ReadsParts (files S.Shelf shelf.old) (files S.Shelf shelf.new) result }
    ensures settled { S.is_settled shelf.new }
{
    place.stands_alone(&BESIDE_NO_ELF)?;
    let Some(name) = value.as_str() else {
        return Err(PackError::from(place.fault(Key::Elf, KeyFault::NoName)));
    };
    flat_source(alloc, shelf, manifest, place, name, Key::Elf)
}
