//! The programs of an image.
ghost use Rattle.std.specs.Prelude.{◌≡◌, ◌+◌, ◌*◌, ◌-◌, ◌%◌, ◌^◌, ◌≤◌, ◌<◌, ◌++◌, length, replicate, All, IfOk, IfErr};
ghost use Rattle.toml.specs.View.{view, items_view};
ghost use Rattle.command_parts.specs.Outside.{files};
ghost use Rattle.cloak_model.specs.Bundle.{IsProgramIn, page_counts, key_numbers};
ghost use Rattle.elf_image.specs.Image.{IsImage};
ghost use Rattle.elf_image.specs.Views.{seen_image};
ghost use Rattle.manifest.specs.declared.key.Key.TheVariants as keys;
ghost use Rattle.manifest.specs.Keys.{stands_at};
ghost use Rattle.manifest.specs.Fields.{number_or_at};
ghost use Rattle.manifest.specs.Parts as spec;
ghost use Rattle.manifest.specs.Parts.{base_at, frame_at, pages_at, program_at, start_at};
ghost use Rattle.manifest.specs.Loading as loading;
ghost use Rattle.manifest.specs.Loading.{elf_program_at, elf_start_at, image_program_at};
ghost use Rattle.manifest.specs.Faults.{ReturnsRead, by_keys};
ghost use Rattle.manifest.specs.Images.{ProgramBy, ProgramReads, ProgramsRead};
ghost use Rattle.manifest.specs.Reading.{IsNoReadFault, IsWant, ReadsParts};

use crate::fault::{FaultyKey, KeyFault, PackError};
use crate::fields::{NamedTable, expect_multiple};
use crate::key::{Key, ManifestTable};
use crate::loading::{base_of, image_of, loaded, span};
use crate::sources::{elf_file, source};
use cloak_base::Start;
use cloak_model::{Program, Sequence};
use elf_image::ElfImage;
use io_traits::Shelf;
use std::alloc::Global;
use toml::Value;

/// The keys of a program.
const KEYS: [Key; 9] = [
    Key::Text,
    Key::Bytes,
    Key::Elf,
    Key::Pages,
    Key::Place,
    Key::Base,
    Key::Entry,
    Key::Stack,
    Key::KeyNumber,
];

/// These bytes with zeros after them, in this many pages.
fn padded(bytes: Vec<u8>, pages: u32) -> Result<Vec<u8>, PackError>
    requires few { pages ≤ page_counts.high }
    requires inside { length bytes.items ≤ 4096 * pages }
    ensures padded { IfOk result (λ v. v.items ≡ bytes.items ++ replicate (4096 * pages - length bytes.items) 0) }
    ensures want { IfErr result IsWant }
{
    let mut bytes = bytes;
    bytes.resize(4096 * pages as usize, 0)?;
    Ok(bytes)
}

/// The address of the first of this many pages.
#[tactic(auto, unfolding(crate::specs::Parts::base_at))]
fn base_address(place: NamedTable<'_>, pages: u32) -> Result<u32, FaultyKey>
    requires { pages ≤ page_counts.high }
    ensures read { result ≡ base_at place.entry.part (view place.entry.table.now) pages }
    ensures base { IfOk result (λ n. n % 4096 ≡ 0) }
    ensures top { IfOk result (λ n. n + 4096 * pages ≤ 2 ^ 32) }
{
    let given = place.needed_number(Key::Base, 0, u32::MAX)?;
    let base = expect_multiple(place, Key::Base, 4096, given)?;
    if u64::from(base) + 4096 * u64::from(pages) > 1 << 32 {
        return Err(place.fault(Key::Base, KeyFault::PastAddresses));
    }
    Ok(base)
}

/// Where a program of this many pages from a base on begins, if this is its entry.
#[tactic(auto, unfolding(crate::specs::Parts::start_from))]
fn start_from(place: NamedTable<'_>, pages: u32, base: u32, entry: u32) -> Result<Start, FaultyKey>
    requires few { pages ≤ page_counts.high }
    ensures read { result ≡ spec.start_from place.entry.part (view place.entry.table.now) pages base entry }
    ensures pages { IfOk result (λ s. s.pages ≡ pages) }
    ensures base { IfOk result (λ s. s.base ≡ base) }
    ensures entry { IfOk result (λ s. s.entry ≡ entry) }
    ensures stack_fits { IfOk result (λ s. s.sp < 2 ^ 32) }
{
    let top = u64::from(base) + 4096 * u64::from(pages);
    let sp = place.number_or(Key::Stack, 0, u32::MAX, (top % (1 << 32)) as u32)?;
    Ok(Start {
        pages,
        base,
        entry,
        sp,
    })
}

/// Where a program of this many pages begins.
#[tactic(auto, unfolding(crate::specs::Parts::start_at))]
fn start(place: NamedTable<'_>, pages: u32) -> Result<Start, FaultyKey>
    requires { pages ≤ page_counts.high }
    ensures read { result ≡ start_at place.entry.part (view place.entry.table.now) pages }
    ensures pages { IfOk result (λ s. s.pages ≡ pages) }
    ensures base_fits { IfOk result (λ s. s.base % 4096 ≡ 0) }
    ensures top_fits { IfOk result (λ s. s.base + 4096 * pages ≤ 2 ^ 32) }
    ensures entry_fits { IfOk result (λ s. (s.entry % 4 ≡ 0) × (s.entry < 2 ^ 32)) }
    ensures stack_fits { IfOk result (λ s. s.sp < 2 ^ 32) }
{
    let base = base_address(place, pages)?;
    let given = place.number_or(Key::Entry, 0, u32::MAX, base)?;
    let entry = expect_multiple(place, Key::Entry, 4, given)?;
    start_from(place, pages, base, entry)
}

/// The entry of a file, which lies in the pages from the base on.
#[tactic(auto, unfolding(crate::specs::Loading::entry_in))]
fn entry_in(place: NamedTable<'_>, base: u32, pages: u32, entry: u32) -> Result<u32, FaultyKey>
    requires { pages ≤ page_counts.high }
    ensures read { result ≡ loading.entry_in place.entry.part base pages entry }
    ensures multiple { IfOk result (λ n. n % 4 ≡ 0) }
{
    let top = u64::from(base) + 4096 * u64::from(pages);
    if entry < base || top <= u64::from(entry) {
        return Err(place.fault(Key::Elf, KeyFault::EntryOutside(entry)));
    }
    if entry % 4 != 0 {
        return Err(place.fault(Key::Elf, KeyFault::UnalignedEntry(entry)));
    }
    Ok(entry)
}

/// Where a program of this many pages of an ELF file begins.
#[tactic(auto, unfolding(crate::specs::Loading::elf_start_at))]
fn elf_start(
    place: NamedTable<'_>,
    image: &ElfImage<'_>,
    base: u32,
    pages: u32,
) -> Result<Start, FaultyKey>
    requires few { pages ≤ page_counts.high }
    requires base { base ≡ loading.base_of (seen_image image.now).parts }
    requires multiple { base % 4096 ≡ 0 }
    ensures read { result ≡ elf_start_at place.entry.part (view place.entry.table.now) (seen_image image.now) pages }
    ensures pages { IfOk result (λ s. s.pages ≡ pages) }
    ensures base_fits { IfOk result (λ s. s.base % 4096 ≡ 0) }
    ensures top_fits { IfOk result (λ s. s.base + 4096 * pages ≤ 2 ^ 32) }
    ensures entry_fits { IfOk result (λ s. (s.entry % 4 ≡ 0) × (s.entry < 2 ^ 32)) }
    ensures stack_fits { IfOk result (λ s. s.sp < 2 ^ 32) }
{
    if u64::from(base) + 4096 * u64::from(pages) > 1 << 32 {
        return Err(place.fault(Key::Elf, KeyFault::PastAddresses));
    }
    let entry = entry_in(place, base, pages, image.entry)?;
    start_from(place, pages, base, entry)
}

/// How many pages a program has, which its bytes fit in. A key names these bytes.
#[tactic(auto, unfolding(crate::specs::Parts::pages_at))]
fn page_count(place: NamedTable<'_>, key: Key, length: usize) -> Result<u32, FaultyKey>
    ensures read { result ≡ pages_at place.entry.part (view place.entry.table.now) key length }
    ensures range { IfOk result (λ n. (page_counts.low ≤ n) × (n ≤ page_counts.high)) }
    ensures inside { IfOk result (λ n. length ≤ 4096 * n) }
{
    let needed = length.div_ceil(4096).max(1);
    if needed > 1024 {
        return Err(place.fault(key, KeyFault::NoRoom(4096 * 1024)));
    }
    let pages = place.number_or(Key::Pages, 1, 1024, needed as u32)?;
    if length > 4096 * pages as usize {
        return Err(place.fault(Key::Pages, KeyFault::NoRoom(4096 * pages)));
    }
    Ok(pages)
}

/// The frame of the first of some pages.
#[tactic(auto, unfolding(crate::specs::Parts::frame_at))]
fn first_frame(place: NamedTable<'_>, frames: u32, pages: u32) -> Result<u32, FaultyKey>
    ensures read { result ≡ frame_at place.entry.part (view place.entry.table.now) frames pages }
    ensures inside { IfOk result (λ n. n + pages ≤ frames) }
{
    let frame = place.needed_number(Key::Place, 0, 4095)?;
    if u64::from(frame) + u64::from(pages) > u64::from(frames) {
        return Err(place.fault(Key::Place, KeyFault::PastRam));
    }
    Ok(frame)
}

/// The number of a program's key.
fn key_number(place: NamedTable<'_>) -> Result<u32, FaultyKey>
    ensures read { result ≡ number_or_at place.entry.part (view place.entry.table.now) keys.KeyNumber key_numbers 0 }
    ensures few { IfOk result (λ n. n ≤ key_numbers.high) }
{
    place.number_or(Key::KeyNumber, 0, 3, 0)
}

/// The program of these bytes that a table means.
fn placed_program(place: NamedTable<'_>, bytes: Vec<u8>, frames: u32) -> Result<Program, PackError>
    ensures read { ReturnsRead (λ p. p)
        (λ r. r ≡ by_keys (program_at place.entry.part (view place.entry.table.now) frames bytes.items)) result }
    ensures no_read { IfErr result IsNoReadFault }
    ensures in_image { IfOk result (IsProgramIn frames) }
{
    let pages = page_count(place, Key::Bytes, bytes.as_slice().len())?;
    let frame = first_frame(place, frames, pages)?;
    let start = start(place, pages)?;
    let key = key_number(place)?;
    Ok(Program {
        place: frame,
        start,
        key,
        bytes: Sequence::new(padded(bytes, pages)?),
    })
}

/// The program of an image that a table means.
fn elf_program(
    alloc: Global,
    place: NamedTable<'_>,
    image: &ElfImage<'_>,
    frames: u32,
) -> Result<Program, PackError>
    requires { IsImage (seen_image image.now) }
    ensures read { ReturnsRead (λ p. p) (λ r. r ≡ by_keys (image_program_at place.entry.part
        (view place.entry.table.now) frames (seen_image image.now))) result }
    ensures no_read { IfErr result IsNoReadFault }
    ensures in_image { IfOk result (IsProgramIn frames) }
{
    let parts = image.parts.as_slice();
    let base = base_of(parts);
    let pages = page_count(place, Key::Elf, span(parts, base))?;
    let frame = first_frame(place, frames, pages)?;
    let start = elf_start(place, image, base, pages)?;
    let key = key_number(place)?;
    Ok(Program {
        place: frame,
        start,
        key,
        bytes: Sequence::new(loaded(alloc, parts, base, pages)?),
    })
}

/// The program of an ELF file that a table means.
fn program_of_file(
    alloc: Global,
    place: NamedTable<'_>,
    file: &[u8],
    frames: u32,
) -> Result<Program, PackError>
    ensures read { ReturnsRead (λ p. p) (λ r. r ≡ by_keys (elf_program_at place.entry.part
        (view place.entry.table.now) frames file.now)) result }
    ensures no_read { IfErr result IsNoReadFault }
    ensures in_image { IfOk result (IsProgramIn frames) }
{
    let image = image_of(place, file)?;
    elf_program(alloc, place, &image, frames)
}

/// The program that a table means by its keys.
fn program_by<S: Shelf>(
    alloc: Global,
    shelf: &mut S,
    manifest: &str,
    place: NamedTable<'_>,
    frames: u32,
) -> Result<Program, PackError>
    requires { S.is_settled shelf.old }
    ensures read { ReturnsRead (λ p. p) (ProgramBy (S.held shelf.old) manifest.now place.entry.part frames
        (view place.entry.table.now) (stands_at keys.Elf (view place.entry.table.now))) result }
    ensures in_image { IfOk result (IsProgramIn frames) }
    ensures reads { ReadsParts (files S.Shelf shelf.old) (files S.Shelf shelf.new) result }
    ensures settled { S.is_settled shelf.new }
{
    let Some(value) = place.value(Key::Elf) else {
        let bytes = source(alloc, shelf, manifest, place)?;
        return placed_program(place, bytes, frames);
    };
    let file = elf_file(alloc, shelf, manifest, place, value)?;
    program_of_file(alloc, place, file.as_slice(), frames)
}

/// The program that the table of this number means.
fn program<S: Shelf>(
    alloc: Global,
    shelf: &mut S,
    manifest: &str,
    table: &Value,
    number: usize,
    frames: u32,
) -> Result<Program, PackError>
    requires { S.is_settled shelf.old }
    ensures read { ReturnsRead (λ p. p)
        (ProgramReads (S.held shelf.old) manifest.now frames number (view table.now)) result }
    ensures in_image { IfOk result (IsProgramIn frames) }
    ensures reads { ReadsParts (files S.Shelf shelf.old) (files S.Shelf shelf.new) result }
    ensures settled { S.is_settled shelf.new }
{
    let part = ManifestTable::Program(number);
    let place = NamedTable { part, table };
    place.has_only(alloc, &KEYS)?;
    program_by(alloc, shelf, manifest, place, frames)
}

/// The programs that tables mean.
pub fn programs<S: Shelf>(
    alloc: Global,
    shelf: &mut S,
    manifest: &str,
    tables: &[Value],
    frames: u32,
) -> Result<Vec<Program>, PackError>
    requires { S.is_settled shelf.old }
    ensures read { ReturnsRead (λ v. v.items)
        (ProgramsRead (S.held shelf.old) manifest.now frames (items_view tables.now)) result }
    ensures count { IfOk result (λ v. length v.items ≡ length tables.now) }
    ensures in_image { IfOk result (λ v. All (IsProgramIn frames) v.items) }
    ensures reads { ReadsParts (files S.Shelf shelf.old) (files S.Shelf shelf.new) result }
    ensures settled { S.is_settled shelf.new }
{
    let mut programs = Vec::new(alloc);
    for (index, table) in tables.iter().enumerate() {
        let program = program(alloc, shelf, manifest, table, index + 1, frames)?;
        programs.push(program)?;
    }
    Ok(programs)
}
