//! The side of a program of a run over cloaked files.
ghost use Rattle.std.specs.Prelude.{◌≡◌, ◌<◌};
ghost use Rattle.io_traits.specs.Told.{SameFiles};
ghost use Rattle.cloak_model.specs.Bundle.{IsInGrammar};
ghost use Rattle.cloak_model.specs.Parts.{DomainPart};
ghost use Rattle.cloak_model.specs.declared.image.KernelImage.{KernelImage};
ghost use Rattle.cloak_model.specs.DomainAlone as program_model;
ghost use Rattle.alone_views.specs.DomainStanding.{StandsForDomain};
ghost use Rattle.command_parts.specs.Outside.{outside};
ghost use Rattle.command_words.specs.Request.{old_of};
ghost use Rattle.read_back.specs.Answering.{program_unfit};
ghost use Rattle.read_back.specs.Reading.{ShowsRecord};
ghost use Rattle.run_trace.specs.AnsweringOver.{ShowsOver, TraceOverAnswers, over_text};

use crate::choice::TraceChoice;
use crate::command::trace_program;
use crate::refusing::{is_there, refuse_hart};
use cloak_model::Bundle;
use command_parts::{Refusal, Status, read_bundle, refuse};
use command_words::OldFiles;
use io_traits::{Shelf, Sink};
use read_back::{ProgramOver, open_over, show_missing};
use std::alloc::Global;

/// Shows the trace of a program's side, with a program that runs alone with files.
fn trace_over<S: Shelf, O: Sink>(
    over: ProgramOver,
    number: u32,
    choice: &TraceChoice,
    name: &str,
    shelf: &mut S,
    out: &mut O,
) -> Status
    requires settled { S.is_settled shelf.old }
    requires number { number < 4 }
    ensures shows { (k : KernelImage) (p : DomainPart) →
        StandsForDomain number k.schedule over.program (program_model.opened_with_part p) →
        ShowsRecord (program_unfit number k p) (over_text over.whole choice.now number k p) name.now result
        (outside S.Shelf O.Sink shelf.old out.old) (outside S.Shelf O.Sink shelf.new out.new) }
    ensures files { SameFiles (S.held shelf.old) (S.held shelf.new) }
    ensures writing { S.writing_faults shelf.new ≡ S.writing_faults shelf.old }
{
    let ProgramOver { program, whole } = over;
    match show_missing(out, whole) {
        Ok(()) => trace_program(program, number, choice, name, shelf, out),
        Err(_) => Status::WriteFault,
    }
}

/// Shows the trace of the side of one program of a bundle, which began with the files of an earlier run.
fn trace_over_bundle<S: Shelf, O: Sink>(
    alloc: Global,
    bundle: &Bundle,
    number: u32,
    old: &OldFiles<'_>,
    choice: &TraceChoice,
    name: &str,
    shelf: &mut S,
    out: &mut O,
) -> Status
    requires settled { S.is_settled shelf.old }
    requires bundle { IsInGrammar bundle.now }
    ensures shows { ShowsOver number (old_of old.now) bundle.now choice.now name.now
        (outside S.Shelf O.Sink shelf.old out.old) (outside S.Shelf O.Sink shelf.new out.new) result }
    ensures files { SameFiles (S.held shelf.old) (S.held shelf.new) }
    ensures writing { S.writing_faults shelf.new ≡ S.writing_faults shelf.old }
{
    if number as usize >= bundle.programs.as_slice().len() {
        return refuse(out, &Refusal::NoSuchDomain);
    }
    match open_over(alloc, bundle, number, old, shelf) {
        Ok(over) => trace_over(over, number, choice, name, shelf, out),
        Err(refusal) => refuse(out, &refusal),
    }
}

/// Shows a line for each step that is chosen of a run over cloaked files, from its record: of the side of the program of
/// this number, which began with the files of an earlier run.
pub fn trace_over_command<S: Shelf, O: Sink>(
    alloc: Global,
    bundle_name: &str,
    record_name: &str,
    number: u32,
    old: &OldFiles<'_>,
    choice: &TraceChoice,
    shelf: &mut S,
    out: &mut O,
) -> Status
    requires { S.is_settled shelf.old }
    ensures answers { TraceOverAnswers bundle_name.now record_name.now number (old_of old.now) choice.now
        (outside S.Shelf O.Sink shelf.old out.old) (outside S.Shelf O.Sink shelf.new out.new) result }
    ensures files { SameFiles (S.held shelf.old) (S.held shelf.new) }
    ensures writing { S.writing_faults shelf.new ≡ S.writing_faults shelf.old }
{
    let bundle = match read_bundle(alloc, shelf, bundle_name) {
        Ok(bundle) => bundle,
        Err(refusal) => return refuse(out, &refusal),
    };
    if is_there(choice.hart, bundle.kernel.harts) {
        trace_over_bundle(alloc, &bundle, number, old, choice, record_name, shelf, out)
    } else {
        refuse_hart(out)
    }
}
