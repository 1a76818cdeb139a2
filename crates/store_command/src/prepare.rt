//! A run over cloaked files that can begin, from the files that the words name.
ghost use Rattle.std.specs.Prelude.{◌≡◌, ◌<◌, ◌-◌, ◌^◌, IfOk};
ghost use Rattle.cloak_machine.specs.Standing.{steps_made};
ghost use Rattle.command_words.specs.Request.{names_of, randomness_of};
ghost use Rattle.command_parts.specs.Outside.{files};
ghost use Rattle.store_command.specs.Preparing.{CanEnd, PreparesStored, refused_by};

use crate::place::disk_place;
use cloak_machine::{Machine, StoredFault};
use cloak_model::Bundle;
use command_parts::{Refusal, read_bundle_with_bytes};
use command_words::StoreRequest;
use io_traits::Shelf;
use old_files::{read_old, read_secret};
use protect_meta::FileTable;
use run_command::{image_is_of_bytes, open_stream};
use sealed_store::LONGEST_STORE;
use std::alloc::Global;

/// A machine before its first step, with all memory that the command needs until its end.
#[derive(Drop)]
pub(crate) struct PreparedStore {
    pub machine: Machine,
    pub left: ForStoring,
}

/// What the files of the end are made of.
#[derive(Drop)]
pub(crate) struct ForStoring {
    /// The key for the code of the store file.
    pub mac: [u8; 16],
    /// What the files hold: empty until the end.
    pub table: FileTable,
    /// Room for the longest store file.
    pub room: Vec<u8>,
    /// The bytes of the bundle, whose disk is replaced by that of the end.
    pub next: Vec<u8>,
    /// Where the disk begins there, and where it ends.
    pub disk_from: usize,
    pub disk_end: usize,
}

/// Why a run over cloaked files does not open.
fn refusal_of(fault: StoredFault) -> Refusal
    ensures { result ≡ refused_by fault }
{
    match fault {
        StoredFault::NoRandom => Refusal::NoPageDraw,
        StoredFault::NoRoom(domain) => Refusal::NoRoom(domain),
        StoredFault::NoMemory => Refusal::NoMemory,
    }
}

/// The machine of the run that is asked for, or why there is none. The files are asked for in this order: bundle, secret,
/// store file, stream.
pub(crate) fn prepare_stored<S: Shelf>(
    alloc: Global,
    store: &StoreRequest<'_>,
    shelf: &mut S,
) -> Result<PreparedStore, Refusal>
    requires settled { S.is_settled shelf.old }
    requires reading { S.reading_faults shelf.old < 2 ^ 64 - 1 }
    ensures prepares { PreparesStored (names_of store.now.files) store.now.counter store.now.steps
        (randomness_of store.now.randomness) (files S.Shelf shelf.old) (files S.Shelf shelf.new) result }
    ensures fresh { IfOk result (λ prepared. steps_made prepared.machine ≡ 0) }
    ensures can_end { IfOk result (λ prepared. CanEnd prepared.left) }
{
    let (bundle, next) = match read_bundle_with_bytes(alloc, shelf, store.files.bundle) {
        Ok(read) => read,
        Err(refusal) => return Err(refusal),
    };
    let secret = match read_secret(alloc, shelf, store.files.secret_name) {
        Ok(secret) => secret,
        Err(refusal) => return Err(refusal),
    };
    let Ok(mut table) = FileTable::open(alloc) else {
        return Err(Refusal::NoMemory);
    };
    let Ok(room) = vec![in alloc; 0; LONGEST_STORE] else {
        return Err(Refusal::NoMemory);
    };
    if let Err(refusal) = read_old(
        alloc,
        shelf,
        store.files.old_name,
        &secret.mac,
        store.counter,
        &mut table,
    ) {
        return Err(refusal);
    }
    let stream = match open_stream(alloc, shelf, &store.randomness) {
        Ok(stream) => stream,
        Err(refusal) => return Err(refusal),
    };
    image_is_of_bytes(&bundle);
    let disk_from = disk_place(&bundle);
    let Bundle { kernel, programs } = bundle;
    let disk_end = disk_from + kernel.disk.as_slice().len();
    let machine = match Machine::open_stored(alloc, kernel, programs, stream, secret.keys, &table) {
        Ok(machine) => machine,
        Err(fault) => return Err(refusal_of(fault)),
    };
    table.clear();
    let left = ForStoring {
        mac: secret.mac,
        table,
        room,
        next,
        disk_from,
        disk_end,
    };
    Ok(PreparedStore { machine, left })
}
