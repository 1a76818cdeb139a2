//! The secret file and the store file of a run, as they are read.
ghost use Rattle.std.specs.Prelude.{◌≡◌, ◌≢◌, [], IfErr};
ghost use Rattle.io_traits.specs.Told.{SameFiles};
ghost use Rattle.command_parts.specs.Files.{TellsUnread};
ghost use Rattle.old_files.specs.Reading.{ReadsOld, ReadsSecret};

use crate::secret::{SECRET_LENGTH, Secret};
use command_parts::{Refusal, read_front};
use io_traits::Shelf;
use protect_meta::FileTable;
use sealed_store::{LONGEST_STORE, read_store};
use std::alloc::Global;

/// The secret that a file has.
pub fn read_secret<S: Shelf>(alloc: Global, shelf: &mut S, name: &str) -> Result<Secret, Refusal>
    requires { S.is_settled shelf.old }
    ensures secret { ReadsSecret (S.held shelf.old name.now)
        (S.reading_faults shelf.old) (S.reading_faults shelf.new) result }
    ensures unread { IfErr result (TellsUnread (S.unread shelf.new) name.now) }
    ensures files { SameFiles (S.held shelf.old) (S.held shelf.new) }
    ensures writing { S.writing_faults shelf.new ≡ S.writing_faults shelf.old }
    ensures settled { S.is_settled shelf.new }
{
    let bytes = match read_front(alloc, shelf, name, SECRET_LENGTH as u64) {
        Ok(bytes) => bytes,
        Err(refusal) => return Err(refusal),
    };
    if bytes.len() < SECRET_LENGTH {
        return Err(Refusal::ShortSecret);
    }
    Ok(Secret::of(bytes.as_slice()))
}

/// Reads what an earlier run left into an empty table. With counter 0 there is nothing, and the file is not asked for.
pub fn read_old<S: Shelf>(
    alloc: Global,
    shelf: &mut S,
    name: &str,
    mac: &[u8; 16],
    counter: u64,
    table: &mut FileTable,
) -> Result<(), Refusal>
    requires settled { S.is_settled shelf.old }
    requires empty { table.old ≡ [] }
    ensures old { ReadsOld (S.held shelf.old name.now) mac.now counter
        (S.reading_faults shelf.old) (S.reading_faults shelf.new) table.new result }
    ensures not_first { IfErr result (λ _. counter ≢ 0) }
    ensures unread { IfErr result (TellsUnread (S.unread shelf.new) name.now) }
    ensures files { SameFiles (S.held shelf.old) (S.held shelf.new) }
    ensures writing { S.writing_faults shelf.new ≡ S.writing_faults shelf.old }
    ensures settled { S.is_settled shelf.new }
{
    if counter == 0 {
        return Ok(());
    }
    let bytes = match read_front(alloc, shelf, name, LONGEST_STORE as u64 + 1) {
        Ok(bytes) => bytes,
        Err(refusal) => return Err(refusal),
    };
    match read_store(bytes.as_slice(), mac, counter, table) {
        Ok(()) => Ok(()),
        Err(fault) => Err(Refusal::BadStore(fault)),
    }
}
