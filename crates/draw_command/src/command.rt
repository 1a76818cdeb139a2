//! The command `draw`.
ghost use Rattle.std.specs.Prelude.{◌≡◌, IfOk};
ghost use Rattle.cloak_model.specs.Bundle.{IsInGrammar};
ghost use Rattle.io_traits.specs.Told.{SameFiles};
ghost use Rattle.command_parts.specs.Outside.{outside, output};
ghost use Rattle.draw_command.specs.Drawing.{Concludes, DrawAnswers, MakesPicture, OpensRun, ReadsOnce, ShowsEnding};
ghost use Rattle.draw_command.specs.Drawing as spec;
ghost use Rattle.svg_text.specs.Writing.{IsPicture};

use crate::reading::read_run;
use crate::run::Run;
use alone_views::KernelAlone;
use cloak_base::NoMemory;
use cloak_model::Bundle;
use command_parts::{Refusal, Status, read_bundle, refuse, write_file};
use io_traits::{Shelf, Sink};
use read_back::{Ending, show_fault, status};
use run_notes::Plan;
use run_picture::{Picture, RecordEnd, draw};
use std::alloc::Global;

/// A record that was read, and how that ended.
#[derive(Drop)]
pub struct Once {
    run: Run,
    pub ending: Ending,
}

/// What was made of a record.
#[derive(Drop)]
pub enum Made {
    /// The text of a picture.
    Drawn { text: Vec<u8>, ending: Ending },
    /// It could not be read.
    Unread,
    NoMemory,
}

/// The run of a bundle before its first item.
fn open_run(alloc: Global, bundle: &Bundle, plan: &Plan) -> Result<Run, NoMemory>
    requires { IsInGrammar bundle.now }
    ensures { IfOk result (λ run. OpensRun bundle.now.kernel run) }
{
    let kernel = KernelAlone::open(alloc, &bundle.kernel)?;
    let run = Run::open(alloc, bundle, kernel, plan)?;
    Ok(run)
}

/// Reads a record from its beginning with the run of a bundle.
fn read_once<S: Shelf>(
    alloc: Global,
    bundle: &Bundle,
    plan: &Plan,
    name: &str,
    shelf: &mut S,
) -> Result<Once, NoMemory>
    requires settled { S.is_settled shelf.old }
    requires bundle { IsInGrammar bundle.now }
    ensures reads { ReadsOnce bundle.now.kernel (S.held shelf.old name.now)
        (S.reading_faults shelf.old) (S.reading_faults shelf.new) result }
    ensures files { SameFiles (S.held shelf.old) (S.held shelf.new) }
    ensures writing { S.writing_faults shelf.new ≡ S.writing_faults shelf.old }
    ensures settled { S.is_settled shelf.new }
{
    let mut run = open_run(alloc, bundle, plan)?;
    let ending = read_run(&mut run, name, shelf);
    Ok(Once { run, ending })
}

/// Reading ended by a fault of reading.
fn is_unread(ending: &Ending) -> bool
    ensures { result ≡ spec.is_unread ending.now }
{
    matches!(ending, Ending::Unread)
}

/// What is drawn of a run that was read.
fn plan_of(alloc: Global, run: &Run) -> Result<Plan, NoMemory> {
    let notes = &run.side.notes;
    let frames = notes.frame_weights.as_slice();
    let blocks = notes.block_weights.as_slice();
    Plan::of(
        alloc,
        notes.steps,
        notes.steps.max(notes.step),
        frames,
        blocks,
    )
}

/// How the record ended, for its picture.
fn end_of(ending: &Ending) -> RecordEnd {
    match ending {
        Ending::Whole => RecordEnd::Whole,
        Ending::Unfit(step) => RecordEnd::Unfit(*step),
        Ending::Fault(_) | Ending::Unread => RecordEnd::Broken,
    }
}

/// The text of the picture of a run that was read with a plan.
fn drawn(
    alloc: Global,
    bundle: &Bundle,
    name: &str,
    plan: &Plan,
    once: &mut Once,
) -> Result<Vec<u8>, NoMemory>
    ensures text { IfOk result (λ text. IsPicture text.items) }
    ensures ending { once.new.ending ≡ once.old.ending }
{
    once.run.side.notes.end(plan.end);
    let p = Picture {
        name,
        notes: &once.run.side.notes,
        plan,
        end: end_of(&once.ending),
        programs: bundle.programs.as_slice().len() as u64,
    };
    draw(alloc, &p)
}

/// Reads a record once more, and draws it.
fn draw_with<S: Shelf>(
    alloc: Global,
    bundle: &Bundle,
    bundle_name: &str,
    plan: &Plan,
    name: &str,
    shelf: &mut S,
) -> Made
    requires settled { S.is_settled shelf.old }
    requires bundle { IsInGrammar bundle.now }
    ensures makes { MakesPicture bundle.now.kernel (S.held shelf.old name.now)
        (S.reading_faults shelf.old) (S.reading_faults shelf.new) result }
    ensures files { SameFiles (S.held shelf.old) (S.held shelf.new) }
    ensures writing { S.writing_faults shelf.new ≡ S.writing_faults shelf.old }
{
    let mut once = match read_once(alloc, bundle, plan, name, shelf) {
        Ok(once) => once,
        Err(_) => return Made::NoMemory,
    };
    if is_unread(&once.ending) {
        return Made::Unread;
    }
    match drawn(alloc, bundle, bundle_name, plan, &mut once) {
        Ok(text) => Made::Drawn {
            text,
            ending: once.ending,
        },
        Err(_) => Made::NoMemory,
    }
}

/// Reads a record twice: for what is drawn, and to draw it.
fn make_picture<S: Shelf>(
    alloc: Global,
    bundle: &Bundle,
    bundle_name: &str,
    name: &str,
    shelf: &mut S,
) -> Made
    requires settled { S.is_settled shelf.old }
    requires bundle { IsInGrammar bundle.now }
    ensures makes { MakesPicture bundle.now.kernel (S.held shelf.old name.now)
        (S.reading_faults shelf.old) (S.reading_faults shelf.new) result }
    ensures files { SameFiles (S.held shelf.old) (S.held shelf.new) }
    ensures writing { S.writing_faults shelf.new ≡ S.writing_faults shelf.old }
{
    let first = match read_once(alloc, bundle, &Plan::none(alloc), name, shelf) {
        Ok(once) => once,
        Err(_) => return Made::NoMemory,
    };
    if is_unread(&first.ending) {
        return Made::Unread;
    }
    match plan_of(alloc, &first.run) {
        Ok(plan) => draw_with(alloc, bundle, bundle_name, &plan, name, shelf),
        Err(_) => Made::NoMemory,
    }
}

/// Shows the line for how reading ended, and returns its status, or the write fault.
fn show_ending<O: Sink>(out: &mut O, ending: &Ending) -> Status
    ensures { ShowsEnding ending.now (output O.Sink out.old) (output O.Sink out.new) result }
{
    match show_fault(out, ending) {
        Ok(()) => status(ending),
        Err(_) => Status::WriteFault,
    }
}

/// Writes what was made, or shows why there is nothing.
fn conclude<S: Shelf, O: Sink>(made: &Made, name: &str, shelf: &mut S, out: &mut O) -> Status
    ensures { Concludes made.now name.now
        (outside S.Shelf O.Sink shelf.old out.old) (outside S.Shelf O.Sink shelf.new out.new) result }
{
    match made {
        Made::Drawn { text, ending } => match write_file(shelf, name, text.as_slice()) {
            Ok(()) => show_ending(out, ending),
            Err(_) => Status::WriteFault,
        },
        Made::Unread => show_ending(out, &Ending::Unread),
        Made::NoMemory => refuse(out, &Refusal::NoMemory),
    }
}

/// Draws the run of a bundle, from its record, to a file. A record that does not fit, or is none, is drawn as far as it does.
pub fn draw_command<S: Shelf, O: Sink>(
    alloc: Global,
    bundle_name: &str,
    record_name: &str,
    out_name: &str,
    shelf: &mut S,
    out: &mut O,
) -> Status
    requires { S.is_settled shelf.old }
    ensures { DrawAnswers bundle_name.now record_name.now out_name.now
        (outside S.Shelf O.Sink shelf.old out.old) (outside S.Shelf O.Sink shelf.new out.new) result }
{
    let bundle = match read_bundle(alloc, shelf, bundle_name) {
        Ok(bundle) => bundle,
        Err(refusal) => return refuse(out, &refusal),
    };
    let made = make_picture(alloc, &bundle, bundle_name, record_name, shelf);
    conclude(&made, out_name, shelf, out)
}
