//! The disk of an image.
ghost use Rattle.std.specs.Prelude.{◌≡◌, ◌≤◌, ◌*◌, ◌%◌, IfOk, IfErr, MatchResult, length, replicate, Ok, Err};
ghost use Rattle.toml.specs.View.{view, items_view};
ghost use Rattle.command_parts.specs.Outside.{files};
ghost use Rattle.cloak_model.specs.Bundle.{block_counts};
ghost use Rattle.manifest.specs.declared.key.Key.TheVariants as keys;
ghost use Rattle.manifest.specs.Keys.{stands_at};
ghost use Rattle.manifest.specs.Parts.{stored_at};
ghost use Rattle.manifest.specs.Faults.{ReturnsRead};
ghost use Rattle.manifest.specs.Sources.{InTurn};
ghost use Rattle.manifest.specs.Images.{DiskReads, DiskTableReads, FileReads};
ghost use Rattle.manifest.specs.Reading.{IsWant, ReadsParts};

use crate::fault::{FaultyKey, KeyFault, PackError};
use crate::fields::NamedTable;
use crate::key::{Key, ManifestTable};
use crate::loading::store;
use crate::sources::source;
use io_traits::Shelf;
use std::alloc::Global;
use toml::Value;

/// Stores the bytes of the file that a table means at its block.
#[tactic(auto, unfolding(crate::specs::Parts::stored_at))]
fn place_file(place: NamedTable<'_>, bytes: &[u8], disk: &mut [u8]) -> Result<(), FaultyKey>
    requires { length disk.old ≤ 4096 * block_counts.high }
    ensures { MatchResult result
        (λ _. stored_at place.entry.part (view place.entry.table.now) disk.old bytes.now ≡ Ok disk.new)
        (λ e. stored_at place.entry.part (view place.entry.table.now) disk.old bytes.now ≡ Err e) }
{
    let block = place.needed_number(Key::Block, 0, 4095)?;
    let at = 4096 * block as usize;
    if at > disk.len() || bytes.len() > disk.len() - at {
        let room = disk.len().saturating_sub(at);
        return Err(place.fault(Key::Block, KeyFault::NoRoom(room as u32)));
    }
    store(disk, at, bytes);
    Ok(())
}

/// Stores the file that the table of this number means.
fn disk_file<S: Shelf>(
    alloc: Global,
    shelf: &mut S,
    manifest: &str,
    table: &Value,
    number: usize,
    disk: &mut [u8],
) -> Result<(), PackError>
    requires settled { S.is_settled shelf.old }
    requires small { length disk.old ≤ 4096 * block_counts.high }
    ensures read { ReturnsRead (λ _. disk.new)
        (FileReads (S.held shelf.old) manifest.now number (view table.now) disk.old) result }
    ensures reads { ReadsParts (files S.Shelf shelf.old) (files S.Shelf shelf.new) result }
    ensures settled { S.is_settled shelf.new }
{
    let part = ManifestTable::File(number);
    let place = NamedTable { part, table };
    place.has_only(alloc, &[Key::Block, Key::Text, Key::Bytes])?;
    let bytes = source(alloc, shelf, manifest, place)?;
    place_file(place, bytes.as_slice(), disk)?;
    Ok(())
}

/// Stores the files that tables mean, one after another.
fn place_files<S: Shelf>(
    alloc: Global,
    shelf: &mut S,
    manifest: &str,
    tables: &[Value],
    disk: &mut [u8],
) -> Result<(), PackError>
    requires settled { S.is_settled shelf.old }
    requires small { length disk.old ≤ 4096 * block_counts.high }
    ensures read { ReturnsRead (λ _. disk.new)
        (InTurn (FileReads (S.held shelf.old) manifest.now) 1 (items_view tables.now) disk.old) result }
    ensures reads { ReadsParts (files S.Shelf shelf.old) (files S.Shelf shelf.new) result }
    ensures settled { S.is_settled shelf.new }
{
    for (index, table) in tables.iter().enumerate() {
        disk_file(alloc, shelf, manifest, table, index + 1, disk)?;
    }
    Ok(())
}

/// The blocks of zeros of a disk.
fn blank_disk(alloc: Global, blocks: u32) -> Result<Vec<u8>, PackError>
    requires { blocks ≤ block_counts.high }
    ensures zeros { IfOk result (λ v. v.items ≡ replicate (4096 * blocks) 0) }
    ensures want { IfErr result IsWant }
{
    Ok(vec![in alloc; 0; blocks as usize * 4096]?)
}

/// The disk that a table means.
fn disk_of<S: Shelf>(
    alloc: Global,
    shelf: &mut S,
    manifest: &str,
    table: &Value,
) -> Result<Vec<u8>, PackError>
    requires { S.is_settled shelf.old }
    ensures read { ReturnsRead (λ v. v.items) (DiskTableReads (S.held shelf.old) manifest.now (view table.now)) result }
    ensures blocks { IfOk result (λ v. length v.items % 4096 ≡ 0) }
    ensures few { IfOk result (λ v. length v.items ≤ 4096 * block_counts.high) }
    ensures reads { ReadsParts (files S.Shelf shelf.old) (files S.Shelf shelf.new) result }
    ensures settled { S.is_settled shelf.new }
{
    let part = ManifestTable::Disk;
    let place = NamedTable { part, table };
    place.has_only(alloc, &[Key::Blocks, Key::File])?;
    let blocks = place.needed_number(Key::Blocks, 0, 4096)?;
    let tables = place.list(Key::File)?;
    let mut disk = blank_disk(alloc, blocks)?;
    place_files(alloc, shelf, manifest, tables, &mut disk)?;
    Ok(disk)
}

/// The disk that a document means.
pub fn disk<S: Shelf>(
    alloc: Global,
    shelf: &mut S,
    manifest: &str,
    document: &Value,
) -> Result<Vec<u8>, PackError>
    requires { S.is_settled shelf.old }
    ensures read { ReturnsRead (λ v. v.items)
        (DiskReads (S.held shelf.old) manifest.now (stands_at keys.Disk (view document.now))) result }
    ensures blocks { IfOk result (λ v. length v.items % 4096 ≡ 0) }
    ensures few { IfOk result (λ v. length v.items ≤ 4096 * block_counts.high) }
    ensures reads { ReadsParts (files S.Shelf shelf.old) (files S.Shelf shelf.new) result }
    ensures settled { S.is_settled shelf.new }
{
    let place = NamedTable {
        part: ManifestTable::Image,
        table: document,
    };
    let Some(table) = place.value(Key::Disk) else {
        return Ok(Vec::new(alloc));
    };
    if table.as_table().is_none() {
        return Err(PackError::from(place.fault(Key::Disk, KeyFault::NoTable)));
    }
    disk_of(alloc, shelf, manifest, table)
}
