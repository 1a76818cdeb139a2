//! The command `trace`.
ghost use Rattle.std.specs.Prelude.{◌≡◌, ◌<◌, ℕ, List, None, Some, Ok};
ghost use Rattle.cloak_model.specs.declared.image.KernelImage.{KernelImage};
ghost use Rattle.cloak_model.specs.Bundle.{IsInGrammar};
ghost use Rattle.cloak_model.specs.Parts.{DomainPart};
ghost use Rattle.cloak_model.specs.DomainAlone as program_model;
ghost use Rattle.cloak_model.specs.KernelAlone as model;
ghost use Rattle.alone_views.specs.DomainStanding.{StandsForDomain};
ghost use Rattle.alone_views.specs.KernelStanding.{StandsForKernel};
ghost use Rattle.command_parts.specs.Outside.{outside};
ghost use Rattle.io_traits.specs.Told.{SameFiles};
ghost use Rattle.kernel_report.specs.Putting.{PutsMore, putting};
ghost use Rattle.read_back.specs.Answering.{program_unfit, viewed_unfit};
ghost use Rattle.read_back.specs.Reading.{ShowsRecord};
ghost use Rattle.record_text.specs.Reading.{status_shown};
ghost use Rattle.run_trace.specs.Answering.{ShowsBundle, TraceAnswers};
ghost use Rattle.run_trace.specs.ProgramTracing.{last_own_line, program_text};
ghost use Rattle.run_trace.specs.Tracing.{kernel_text, last_line};

use crate::choice::TraceChoice;
use crate::kernel_items::trace_kernel_items;
use crate::kernel_side::put_end;
use crate::program_items::trace_program_items;
use crate::program_side::put_program_end;
use crate::refusing::{is_there, refuse_hart};
use alone_views::{DomainAlone, KernelAlone};
use cloak_model::Bundle;
use command_parts::{Refusal, Status, read_bundle, refuse};
use io_traits::{Shelf, Sink};
use kernel_report::lines::SoFar;
use read_back::{Ending, show_fault, status};
use std::alloc::Global;

/// The last line: the last step, or why the record was not read to its end.
fn put_last<O: Sink>(out: &mut O, kernel: &KernelAlone, ending: &Ending) -> SoFar
    ensures { (turns : List ℕ) (s : model.KernelAlone) → StandsForKernel kernel.now turns s →
        PutsMore (putting O.Sink out.old (Ok tt)) (putting O.Sink out.new result) (last_line s ending.now) }
{
    match ending {
        Ending::Whole => put_end(out, Ok(()), kernel),
        Ending::Unfit(_) => show_fault(out, ending),
        Ending::Fault(_) => show_fault(out, ending),
        Ending::Unread => show_fault(out, ending),
    }
}

/// The status for how reading ended and showing went.
fn answer(so_far: SoFar, ending: &Ending) -> Status
    ensures { result ≡ status_shown ending.now so_far }
{
    match so_far {
        Ok(()) => status(ending),
        Err(_) => Status::WriteFault,
    }
}

/// Shows the trace of the kernel's side, with a kernel that runs alone.
fn trace_kernel<S: Shelf, O: Sink>(
    kernel: KernelAlone,
    choice: &TraceChoice,
    name: &str,
    shelf: &mut S,
    out: &mut O,
) -> Status
    requires { S.is_settled shelf.old }
    ensures shows { (k : KernelImage) → StandsForKernel kernel k.schedule (model.opened_kernel k) →
        ShowsRecord (viewed_unfit k) (kernel_text choice.now k) name.now result
        (outside S.Shelf O.Sink shelf.old out.old) (outside S.Shelf O.Sink shelf.new out.new) }
    ensures files { SameFiles (S.held shelf.old) (S.held shelf.new) }
    ensures writing { S.writing_faults shelf.new ≡ S.writing_faults shelf.old }
{
    let mut kernel = kernel;
    match trace_kernel_items(&mut kernel, choice, name, shelf, out) {
        Ok(ending) => {
            let so_far = put_last(out, &kernel, &ending);
            answer(so_far, &ending)
        }
        Err(_) => Status::WriteFault,
    }
}

/// Shows the trace of the kernel's side of a bundle.
fn trace_kernel_side<S: Shelf, O: Sink>(
    alloc: Global,
    bundle: &Bundle,
    choice: &TraceChoice,
    name: &str,
    shelf: &mut S,
    out: &mut O,
) -> Status
    requires settled { S.is_settled shelf.old }
    requires bundle { IsInGrammar bundle.now }
    ensures shows { ShowsBundle None bundle.now choice.now name.now
        (outside S.Shelf O.Sink shelf.old out.old) (outside S.Shelf O.Sink shelf.new out.new) result }
    ensures files { SameFiles (S.held shelf.old) (S.held shelf.new) }
    ensures writing { S.writing_faults shelf.new ≡ S.writing_faults shelf.old }
{
    match KernelAlone::open(alloc, &bundle.kernel) {
        Ok(kernel) => trace_kernel(kernel, choice, name, shelf, out),
        Err(_) => refuse(out, &Refusal::NoMemory),
    }
}

/// The last line of a program's side.
fn put_last_of_program<O: Sink>(out: &mut O, program: &DomainAlone, ending: &Ending) -> SoFar
    ensures { (number : ℕ) (turns : List ℕ) (s : program_model.DomainAlone) →
        StandsForDomain number turns program.now s → (ending.now ≡ Ending.Whole → s.unfit ≡ None) →
        PutsMore (putting O.Sink out.old (Ok tt)) (putting O.Sink out.new result) (last_own_line s ending.now) }
{
    match ending {
        Ending::Whole => put_program_end(out, Ok(()), program),
        Ending::Unfit(_) => show_fault(out, ending),
        Ending::Fault(_) => show_fault(out, ending),
        Ending::Unread => show_fault(out, ending),
    }
}

/// Shows the trace of a program's side, with a program that runs alone.
pub(crate) fn trace_program<S: Shelf, O: Sink>(
    program: DomainAlone,
    number: u32,
    choice: &TraceChoice,
    name: &str,
    shelf: &mut S,
    out: &mut O,
) -> Status
    requires settled { S.is_settled shelf.old }
    requires number { number < 4 }
    ensures shows { (k : KernelImage) (p : DomainPart) →
        StandsForDomain number k.schedule program (program_model.opened_with_part p) →
        ShowsRecord (program_unfit number k p) (program_text choice.now number k p) name.now result
        (outside S.Shelf O.Sink shelf.old out.old) (outside S.Shelf O.Sink shelf.new out.new) }
    ensures files { SameFiles (S.held shelf.old) (S.held shelf.new) }
    ensures writing { S.writing_faults shelf.new ≡ S.writing_faults shelf.old }
{
    let mut program = program;
    match trace_program_items(&mut program, number, choice, name, shelf, out) {
        Ok(ending) => {
            let so_far = put_last_of_program(out, &program, &ending);
            answer(so_far, &ending)
        }
        Err(_) => Status::WriteFault,
    }
}

/// Shows the trace of the side of one program of a bundle.
fn trace_program_side<S: Shelf, O: Sink>(
    alloc: Global,
    bundle: &Bundle,
    number: u32,
    choice: &TraceChoice,
    name: &str,
    shelf: &mut S,
    out: &mut O,
) -> Status
    requires settled { S.is_settled shelf.old }
    requires bundle { IsInGrammar bundle.now }
    ensures shows { ShowsBundle (Some number) bundle.now choice.now name.now
        (outside S.Shelf O.Sink shelf.old out.old) (outside S.Shelf O.Sink shelf.new out.new) result }
    ensures files { SameFiles (S.held shelf.old) (S.held shelf.new) }
    ensures writing { S.writing_faults shelf.new ≡ S.writing_faults shelf.old }
{
    let programs = bundle.programs.as_slice();
    if number as usize >= programs.len() {
        return refuse(out, &Refusal::NoSuchDomain);
    }
    let program = &programs[number as usize];
    match DomainAlone::open(alloc, &bundle.kernel, number, program) {
        Ok(program) => trace_program(program, number, choice, name, shelf, out),
        Err(_) => refuse(out, &Refusal::NoMemory),
    }
}

/// Shows what is meant of the run of a bundle.
fn trace_bundle<S: Shelf, O: Sink>(
    alloc: Global,
    bundle: &Bundle,
    program: Option<u32>,
    choice: &TraceChoice,
    name: &str,
    shelf: &mut S,
    out: &mut O,
) -> Status
    requires settled { S.is_settled shelf.old }
    requires bundle { IsInGrammar bundle.now }
    ensures shows { ShowsBundle program bundle.now choice.now name.now
        (outside S.Shelf O.Sink shelf.old out.old) (outside S.Shelf O.Sink shelf.new out.new) result }
    ensures files { SameFiles (S.held shelf.old) (S.held shelf.new) }
    ensures writing { S.writing_faults shelf.new ≡ S.writing_faults shelf.old }
{
    match program {
        None => trace_kernel_side(alloc, bundle, choice, name, shelf, out),
        Some(number) => { trace_program_side(alloc, bundle, number, choice, name, shelf, out) }
    }
}

/// Shows a line for each step of the run of a bundle that is chosen, from its record: of the kernel's side, or of that of
/// one program. A hart that the bundle does not have is refused.
pub fn trace_command<S: Shelf, O: Sink>(
    alloc: Global,
    bundle_name: &str,
    record_name: &str,
    program: Option<u32>,
    choice: &TraceChoice,
    shelf: &mut S,
    out: &mut O,
) -> Status
    requires { S.is_settled shelf.old }
    ensures answers { TraceAnswers bundle_name.now record_name.now program choice.now
        (outside S.Shelf O.Sink shelf.old out.old) (outside S.Shelf O.Sink shelf.new out.new) result }
    ensures files { SameFiles (S.held shelf.old) (S.held shelf.new) }
    ensures writing { S.writing_faults shelf.new ≡ S.writing_faults shelf.old }
{
    let bundle = match read_bundle(alloc, shelf, bundle_name) {
        Ok(bundle) => bundle,
        Err(refusal) => return refuse(out, &refusal),
    };
    if is_there(choice.hart, bundle.kernel.harts) {
        trace_bundle(alloc, &bundle, program, choice, record_name, shelf, out)
    } else {
        refuse_hart(out)
    }
}
