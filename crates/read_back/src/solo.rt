//! The command `solo`.
ghost use Rattle.std.specs.Prelude.{◌≡◌, ◌<◌, ◌-◌, ◌^◌, ℕ, List, Some, None, length};
ghost use Rattle.io_traits.specs.Sinks.{PutsTo};
ghost use Rattle.io_traits.specs.Told.{SameFiles};
ghost use Rattle.cloak_model.specs.declared.image.KernelImage.{KernelImage};
ghost use Rattle.cloak_model.specs.Parts.{DomainPart};
ghost use Rattle.cloak_model.specs.DomainAlone as model;
ghost use Rattle.command_words.specs.Request.{asked_of_solo};
ghost use Rattle.alone_views.specs.DomainStanding.{StandsForDomain};
ghost use Rattle.command_parts.specs.Outside.{outside};
ghost use Rattle.cloak_model.specs.DomainState.{domain_line};
ghost use Rattle.read_back.specs.Answering.{SoloAnswers, program_text, program_unfit};
ghost use Rattle.read_back.specs.Reading.{ShowsRecord};
ghost use Rattle.read_back.specs.Text.{lines_or_fault};
ghost use Rattle.read_back.specs.Viewing.{Begins, SolosTo};

use crate::ending::{Ending, show_fault, status};
use crate::items::{TakeItems, for_each_item};
use alone_views::{DomainAlone, Unfit};
use cloak_base::Failed;
use cloak_model::Item;
use command_parts::{Refusal, Status, read_bundle, refuse};
use command_words::SoloRequest;
use io_traits::{Shelf, Sink};
use std::alloc::Global;

impl TakeItems for DomainAlone {
    ghost use Rattle.read_back.specs.Viewing.{TookAlone};

    type Stop = Unfit;

    ghost took = { TookAlone };

    fn take_item(&mut self, item: &Item<'_>) -> Result<(), Unfit> {
        self.take(item)
    }
}

/// Gives the items of a record to a program that runs alone, up to the first that does not fit or the first fault, and
/// returns how reading ended.
fn read_program<S: Shelf>(program: &mut DomainAlone, name: &str, shelf: &mut S) -> Ending
    requires settled { S.is_settled shelf.old }
    ensures solos { (d : ℕ) (k : KernelImage) (p : DomainPart) → Begins d k p program.old →
        SolosTo d k p program.new (S.held shelf.old name.now)
        (S.reading_faults shelf.old) (S.reading_faults shelf.new) (Some result) }
    ensures files { SameFiles (S.held shelf.old) (S.held shelf.new) }
    ensures writing { S.writing_faults shelf.new ≡ S.writing_faults shelf.old }
{
    match for_each_item(name, shelf, program) {
        Ok(ending) => ending,
        Err(unfit) => Ending::Unfit(unfit.step),
    }
}

/// Shows the program's line, or why reading ended.
fn show_end<O: Sink>(program: DomainAlone, ending: &Ending, out: &mut O) -> Result<(), Failed>
    ensures { (number : ℕ) (turns : List ℕ) (s : model.DomainAlone) → StandsForDomain number turns program s →
        length s.part.domain.loads < 2 ^ 64 → (ending.now ≡ Ending.Whole → s.unfit ≡ None) →
        PutsTo O.Sink out.old out.new (lines_or_fault (domain_line s.part.domain) ending.now) result }
{
    match ending {
        Ending::Whole => program.report(out),
        _ => show_fault(out, ending),
    }
}

/// Reads a record back with a program that runs alone.
pub(crate) fn solo_record<S: Shelf, O: Sink>(
    program: DomainAlone,
    name: &str,
    shelf: &mut S,
    out: &mut O,
) -> Status
    requires settled { S.is_settled shelf.old }
    requires output { O.faults out.old < 2 ^ 64 - 1 }
    ensures shows { (d : ℕ) (k : KernelImage) (p : DomainPart) → Begins d k p program →
        ShowsRecord (program_unfit d k p) (program_text d k p) name.now result
        (outside S.Shelf O.Sink shelf.old out.old) (outside S.Shelf O.Sink shelf.new out.new) }
    ensures files { SameFiles (S.held shelf.old) (S.held shelf.new) }
    ensures writing { S.writing_faults shelf.new ≡ S.writing_faults shelf.old }
{
    let mut program = program;
    let ending = read_program(&mut program, name, shelf);
    match show_end(program, &ending, out) {
        Ok(()) => status(&ending),
        Err(_) => Status::WriteFault,
    }
}

/// Shows what a program of a bundle alone makes of a record, with the files of a shelf on which nothing is gathered.
pub fn solo_command<S: Shelf, O: Sink>(
    alloc: Global,
    solo: &SoloRequest<'_>,
    shelf: &mut S,
    out: &mut O,
) -> Status
    requires settled { S.is_settled shelf.old }
    requires reading { S.reading_faults shelf.old < 2 ^ 64 - 1 }
    requires output { O.faults out.old < 2 ^ 64 - 1 }
    ensures answers { SoloAnswers (asked_of_solo solo.now)
        (outside S.Shelf O.Sink shelf.old out.old) (outside S.Shelf O.Sink shelf.new out.new) result }
    ensures files { SameFiles (S.held shelf.old) (S.held shelf.new) }
    ensures writing { S.writing_faults shelf.new ≡ S.writing_faults shelf.old }
{
    let bundle = match read_bundle(alloc, shelf, solo.files.bundle) {
        Ok(bundle) => bundle,
        Err(refusal) => return refuse(out, &refusal),
    };
    let programs = bundle.programs.as_slice();
    let number = solo.domain as usize;
    if number >= programs.len() {
        return refuse(out, &Refusal::NoSuchDomain);
    }
    let program = &programs[number];
    match DomainAlone::open(alloc, &bundle.kernel, solo.domain, program) {
        Ok(program) => solo_record(program, solo.files.record_name, shelf, out),
        Err(_) => refuse(out, &Refusal::NoMemory),
    }
}
