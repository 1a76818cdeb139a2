//! A program that runs alone with the cloaked files of an earlier run.
ghost use Rattle.std.specs.Prelude.{◌≡◌, ◌<◌, length, slice_get, Some};
ghost use Rattle.io_traits.specs.Told.{SameFiles};
ghost use Rattle.cloak_model.specs.Bundle.{IsInGrammar};
ghost use Rattle.cloak_model.specs.declared.image.Program.{Program as AnyProgram};
ghost use Rattle.old_files.specs.Reading.{keys_of};
ghost use Rattle.command_words.specs.Request.{old_of};
ghost use Rattle.read_back.specs.Over.{OpensOverAs, program_key};

use alone_files::{FilesFault, give_files};
use alone_views::DomainAlone;
use cloak_model::{Bundle, Program};
use command_parts::Refusal;
use command_words::OldFiles;
use io_traits::Shelf;
use old_files::{Secret, read_old, read_secret};
use protect_meta::FileTable;
use std::alloc::Global;

/// A program that runs alone before its first item, and whether each page of its files was found.
#[derive(Drop)]
pub struct ProgramOver {
    pub program: DomainAlone,
    pub whole: bool,
}

/// The key of a program's pages.
fn key_of(secret: &Secret, program: &Program) -> [u8; 16]
    requires { program.now.key < 4 }
    ensures { result ≡ program_key (keys_of secret.now) program.now }
{
    secret.keys[program.key as usize]
}

/// The program of this number of a bundle, with the files that an earlier run left. Its pages are looked for on the disk of
/// the bundle. The files are asked for in this order: secret, store file.
pub fn open_over<S: Shelf>(
    alloc: Global,
    bundle: &Bundle,
    number: u32,
    old: &OldFiles<'_>,
    shelf: &mut S,
) -> Result<ProgramOver, Refusal>
    requires settled { S.is_settled shelf.old }
    requires bundle { IsInGrammar bundle.now }
    requires number { number < length bundle.now.programs }
    ensures opens { (p : AnyProgram) → slice_get bundle.now.programs number ≡ Some p →
        OpensOverAs (S.held shelf.old) (old_of old.now) bundle.now number p
        (S.reading_faults shelf.old) (S.reading_faults shelf.new) (S.unread shelf.new) result }
    ensures files { SameFiles (S.held shelf.old) (S.held shelf.new) }
    ensures writing { S.writing_faults shelf.new ≡ S.writing_faults shelf.old }
    ensures settled { S.is_settled shelf.new }
{
    let secret = match read_secret(alloc, shelf, old.secret_name) {
        Ok(secret) => secret,
        Err(refusal) => return Err(refusal),
    };
    let Ok(mut table) = FileTable::open(alloc) else {
        return Err(Refusal::NoMemory);
    };
    if let Err(refusal) = read_old(
        alloc,
        shelf,
        old.old_name,
        &secret.mac,
        old.counter,
        &mut table,
    ) {
        return Err(refusal);
    }
    let program = &bundle.programs.as_slice()[number as usize];
    let Ok(mut alone) = DomainAlone::open(alloc, &bundle.kernel, number, program) else {
        return Err(Refusal::NoMemory);
    };
    let key = key_of(&secret, program);
    let disk = bundle.kernel.disk.as_slice();
    match give_files(alloc, &mut alone, number, &table, &key, disk) {
        Ok(whole) => Ok(ProgramOver {
            program: alone,
            whole,
        }),
        Err(FilesFault::NoRoom) => Err(Refusal::NoRoom(number)),
        Err(FilesFault::NoMemory) => Err(Refusal::NoMemory),
    }
}
