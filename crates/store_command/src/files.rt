//! The files that a run over cloaked files leaves for the next one.
ghost use Rattle.std.specs.Prelude.{◌≡◌, ◌≢◌, ◌≤◌, length};
ghost use Rattle.cloak_model.specs.StoredFiles.{store_bytes};
ghost use Rattle.cloak_model.specs.StoreFault.{largest_store};
ghost use Rattle.command_words.specs.Request.{names_of};
ghost use Rattle.command_parts.specs.Outside.{files as files_of};
ghost use Rattle.store_command.specs.Writing.{LeavesFiles, WritesFiles};

use crate::prepare::ForStoring;
use cloak_base::{Failed, Stop};
use command_parts::write_file;
use command_words::StoreFiles;
use io_traits::Shelf;
use sealed_store::write_store;

/// Writes the store file with this counter, and then the bundle.
fn write_files<S: Shelf>(
    shelf: &mut S,
    files: &StoreFiles<'_>,
    counter: u64,
    left: &mut ForStoring,
) -> Result<(), Failed>
    requires apart { files.now.new_name.now ≢ files.now.next_name.now }
    requires room { largest_store ≤ length left.old.room.items }
    ensures { WritesFiles (names_of files.now) (store_bytes left.old.mac counter left.old.table) left.old.next.items
        (files_of S.Shelf shelf.old) (files_of S.Shelf shelf.new) result }
{
    let length = write_store(&left.table, &left.mac, counter, left.room.as_mut_slice());
    write_file(shelf, files.new_name, &left.room[..length])?;
    write_file(shelf, files.next_name, left.next.as_slice())
}

/// Does so, unless a missing random draw stopped the run.
pub(crate) fn leave_files<S: Shelf>(
    stop: &Stop,
    shelf: &mut S,
    files: &StoreFiles<'_>,
    counter: u64,
    left: &mut ForStoring,
) -> Result<(), Failed>
    requires apart { files.now.new_name.now ≢ files.now.next_name.now }
    requires room { largest_store ≤ length left.old.room.items }
    ensures { LeavesFiles stop.now (names_of files.now) (store_bytes left.old.mac counter left.old.table)
        left.old.next.items (files_of S.Shelf shelf.old) (files_of S.Shelf shelf.new) result }
{
    match *stop {
        Stop::NoRandom => Ok(()),
        Stop::Halt(_) | Stop::Budget => write_files(shelf, files, counter, left),
    }
}
