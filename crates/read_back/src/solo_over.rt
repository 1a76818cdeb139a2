//! The command `solo` for the record of a run over cloaked files.
ghost use Rattle.std.specs.Prelude.{◌≡◌, ◌<◌, ◌-◌, ◌^◌, ℕ};
ghost use Rattle.io_traits.specs.Sinks.{PutsTo};
ghost use Rattle.io_traits.specs.Told.{SameFiles};
ghost use Rattle.cloak_model.specs.declared.image.KernelImage.{KernelImage};
ghost use Rattle.cloak_model.specs.Parts.{DomainPart};
ghost use Rattle.command_words.specs.Request.{asked_of_solo_over};
ghost use Rattle.command_parts.specs.Outside.{outside};
ghost use Rattle.read_back.specs.Answering.{program_unfit};
ghost use Rattle.read_back.specs.AnsweringOver.{SoloOverAnswers, missing_line, over_text};
ghost use Rattle.read_back.specs.Reading.{ShowsRecord};
ghost use Rattle.read_back.specs.Viewing.{Begins};

use crate::over::{ProgramOver, open_over};
use crate::solo::solo_record;
use cloak_base::Failed;
use command_parts::{Refusal, Status, read_bundle, refuse};
use command_words::SoloOverRequest;
use io_traits::{Shelf, Sink, put_all};
use std::alloc::Global;

/// Says that pages are taken as never shown, if some were not found.
pub fn show_missing<O: Sink>(out: &mut O, whole: bool) -> Result<(), Failed>
    ensures { PutsTo O.Sink out.old out.new (missing_line whole) result }
{
    if whole {
        return Ok(());
    }
    put_all(out, b"files: a page is not on the disk\n")
}

/// Reads a record back with a program that runs alone with files.
fn solo_over_record<S: Shelf, O: Sink>(
    over: ProgramOver,
    name: &str,
    shelf: &mut S,
    out: &mut O,
) -> Status
    requires settled { S.is_settled shelf.old }
    requires output { O.faults out.old < 2 ^ 64 - 1 }
    ensures shows { (d : ℕ) (k : KernelImage) (p : DomainPart) → Begins d k p over.program →
        ShowsRecord (program_unfit d k p) (over_text over.whole d k p) name.now result
        (outside S.Shelf O.Sink shelf.old out.old) (outside S.Shelf O.Sink shelf.new out.new) }
    ensures files { SameFiles (S.held shelf.old) (S.held shelf.new) }
    ensures writing { S.writing_faults shelf.new ≡ S.writing_faults shelf.old }
{
    let ProgramOver { program, whole } = over;
    match show_missing(out, whole) {
        Ok(()) => solo_record(program, name, shelf, out),
        Err(_) => Status::WriteFault,
    }
}

/// Shows what a program of a bundle alone, with the cloaked files of an earlier run, makes of a record, with the files of a
/// shelf on which nothing is gathered. The files are asked for in this order: bundle, secret, store file, record.
pub fn solo_over_command<S: Shelf, O: Sink>(
    alloc: Global,
    over: &SoloOverRequest<'_>,
    shelf: &mut S,
    out: &mut O,
) -> Status
    requires settled { S.is_settled shelf.old }
    requires reading { S.reading_faults shelf.old < 2 ^ 64 - 1 }
    requires output { O.faults out.old < 2 ^ 64 - 1 }
    ensures answers { SoloOverAnswers (asked_of_solo_over over.now)
        (outside S.Shelf O.Sink shelf.old out.old) (outside S.Shelf O.Sink shelf.new out.new) result }
    ensures files { SameFiles (S.held shelf.old) (S.held shelf.new) }
    ensures writing { S.writing_faults shelf.new ≡ S.writing_faults shelf.old }
{
    let bundle = match read_bundle(alloc, shelf, over.solo.files.bundle) {
        Ok(bundle) => bundle,
        Err(refusal) => return refuse(out, &refusal),
    };
    if over.solo.domain as usize >= bundle.programs.as_slice().len() {
        return refuse(out, &Refusal::NoSuchDomain);
    }
    match open_over(alloc, &bundle, over.solo.domain, &over.old, shelf) {
        Ok(program) => solo_over_record(program, over.solo.files.record_name, shelf, out),
        Err(refusal) => refuse(out, &refusal),
    }
}
