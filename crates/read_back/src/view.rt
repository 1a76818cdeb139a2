//! The command `view`.
ghost use Rattle.std.specs.Prelude.{◌≡◌, ◌<◌, ◌-◌, ◌^◌, ◌++◌, ℕ, List, true, None, codes, length};
ghost use Rattle.io_traits.specs.Sinks.{PutsTo};
ghost use Rattle.io_traits.specs.Told.{SameFiles};
ghost use Rattle.cloak_model.specs.declared.image.KernelImage.{KernelImage};
ghost use Rattle.cloak_model.specs.KernelAlone as model;
ghost use Rattle.command_words.specs.Request.{asked_of_view};
ghost use Rattle.alone_views.specs.KernelStanding.{StandsForKernel};
ghost use Rattle.cloak_model.specs.Report.{kernel_lines};
ghost use Rattle.command_parts.specs.Outside.{outside};
ghost use Rattle.read_back.specs.Answering.{ViewAnswers, viewed_text, viewed_unfit};
ghost use Rattle.read_back.specs.Reading.{ShowsRecord};
ghost use Rattle.read_back.specs.Text.{lines_or_fault};
ghost use Rattle.read_back.specs.Screen.{GaveScreen};
ghost use Rattle.read_back.specs.Viewing.{ViewsTo};

use crate::ending::{Ending, show_fault, status};
use crate::items::{TakeItems, for_each_item};
use crate::screen::Screen;
use alone_views::{KernelAlone, Unfit};
use cloak_base::Failed;
use cloak_model::Item;
use command_parts::{Refusal, Status, read_bundle, refuse};
use command_words::RecordRequest;
use io_traits::{Shelf, Sink, put_all};
use std::alloc::Global;

/// A kernel that runs alone, and the screen that shows its console.
#[derive(Drop)]
struct Viewing<'a, 'o, O: Sink> {
    kernel: &'a mut KernelAlone,
    screen: &'a mut Screen<'o, O>,
}

impl<'a, 'o, O: Sink> TakeItems for Viewing<'a, 'o, O> {
    ghost use Rattle.read_back.specs.Viewing.{TookInView};

    /// What was unfit; nothing if the screen failed.
    type Stop = Option<Unfit>;

    ghost took = { TookInView O.Sink };

    fn take_item(&mut self, item: &Item<'_>) -> Result<(), Option<Unfit>> {
        if let Err(unfit) = self.kernel.take(item, self.screen) {
            return Err(Some(unfit));
        }
        if self.screen.failed {
            return Err(None);
        }
        Ok(())
    }
}

/// Gives the items of a record to a kernel that runs alone, up to the first that does not fit or the first fault, and
/// returns how reading ended. There is no ending if the screen failed before.
fn read_kernel<S: Shelf, O: Sink>(
    kernel: &mut KernelAlone,
    name: &str,
    shelf: &mut S,
    screen: &mut Screen<'_, O>,
) -> Option<Ending>
    requires settled { S.is_settled shelf.old }
    ensures views { (k : KernelImage) → StandsForKernel kernel.old k.schedule (model.opened_kernel k) →
        ViewsTo (GaveScreen O.Sink) screen.old screen.new k kernel.new (S.held shelf.old name.now)
        (S.reading_faults shelf.old) (S.reading_faults shelf.new) result }
    ensures failed { result ≡ None → screen.new.failed ≡ true }
    ensures same_out { screen.new.out.ghost_name ≡ screen.old.out.ghost_name }
    ensures files { SameFiles (S.held shelf.old) (S.held shelf.new) }
    ensures writing { S.writing_faults shelf.new ≡ S.writing_faults shelf.old }
{
    let mut viewing = Viewing { kernel, screen };
    match for_each_item(name, shelf, &mut viewing) {
        Ok(ending) => Some(ending),
        Err(Some(unfit)) => Some(Ending::Unfit(unfit.step)),
        Err(None) => None,
    }
}

/// Shows the rest of the console's line, and the kernel's lines or why reading ended.
fn show_end<O: Sink>(kernel: KernelAlone, ending: &Ending, out: &mut O) -> Result<(), Failed>
    ensures { (turns : List ℕ) (s : model.KernelAlone) → StandsForKernel kernel turns s →
        length s.kernel.console < 2 ^ 64 →
        PutsTo O.Sink out.old out.new (codes "\n" ++ lines_or_fault (kernel_lines s.kernel) ending.now) result }
{
    put_all(out, b"\n")?;
    match ending {
        Ending::Whole => kernel.report(out),
        _ => show_fault(out, ending),
    }
}

/// Reads a record back with a kernel that runs alone.
fn view_record<S: Shelf, O: Sink>(
    kernel: KernelAlone,
    name: &str,
    shelf: &mut S,
    out: &mut O,
) -> Status
    requires settled { S.is_settled shelf.old }
    requires output { O.faults out.old < 2 ^ 64 - 1 }
    ensures shows { (k : KernelImage) → StandsForKernel kernel k.schedule (model.opened_kernel k) →
        ShowsRecord (viewed_unfit k) (viewed_text k) name.now result
        (outside S.Shelf O.Sink shelf.old out.old) (outside S.Shelf O.Sink shelf.new out.new) }
    ensures files { SameFiles (S.held shelf.old) (S.held shelf.new) }
    ensures writing { S.writing_faults shelf.new ≡ S.writing_faults shelf.old }
{
    let mut kernel = kernel;
    let mut screen = Screen { out, failed: false };
    let ended = read_kernel(&mut kernel, name, shelf, &mut screen);
    if screen.failed {
        return Status::WriteFault;
    }
    match ended {
        Some(ending) => match show_end(kernel, &ending, out) {
            Ok(()) => status(&ending),
            Err(_) => Status::WriteFault,
        },
        None => Status::WriteFault,
    }
}

/// Shows what the kernel of a bundle alone makes of a record, with the files of a shelf on which nothing is gathered.
pub fn view_command<S: Shelf, O: Sink>(
    alloc: Global,
    files: &RecordRequest<'_>,
    shelf: &mut S,
    out: &mut O,
) -> Status
    requires settled { S.is_settled shelf.old }
    requires reading { S.reading_faults shelf.old < 2 ^ 64 - 1 }
    requires output { O.faults out.old < 2 ^ 64 - 1 }
    ensures answers { ViewAnswers (asked_of_view files.now)
        (outside S.Shelf O.Sink shelf.old out.old) (outside S.Shelf O.Sink shelf.new out.new) result }
    ensures files { SameFiles (S.held shelf.old) (S.held shelf.new) }
    ensures writing { S.writing_faults shelf.new ≡ S.writing_faults shelf.old }
{
    let bundle = match read_bundle(alloc, shelf, files.bundle) {
        Ok(bundle) => bundle,
        Err(refusal) => return refuse(out, &refusal),
    };
    match KernelAlone::open(alloc, &bundle.kernel) {
        Ok(kernel) => view_record(kernel, files.record_name, shelf, out),
        Err(_) => refuse(out, &Refusal::NoMemory),
    }
}
