//! A record, from its first item to its end or its first fault, with a program that runs alone.
ghost use Rattle.std.specs.Prelude.{◌≡◌, ◌<◌, Ok};
ghost use Rattle.cloak_model.specs.declared.image.KernelImage.{KernelImage};
ghost use Rattle.cloak_model.specs.Parts.{DomainPart};
ghost use Rattle.cloak_model.specs.DomainAlone as model;
ghost use Rattle.alone_views.specs.DomainStanding.{StandsForDomain};
ghost use Rattle.io_traits.specs.Told.{SameFiles};
ghost use Rattle.kernel_report.specs.Putting.{putting};
ghost use Rattle.run_trace.specs.ProgramTracing.{TracesOwn};

use crate::choice::TraceChoice;
use crate::program_side::trace_program_item;
use crate::stop::{TraceStop, go_on};
use alone_views::DomainAlone;
use cloak_base::Failed;
use cloak_model::Item;
use io_traits::{Shelf, Sink};
use read_back::{Ending, TakeItems, for_each_item};

/// The number of a program.
#[derive(Clone, Copy)]
struct ProgramNumber {
    value: u32,
    ghost below_four: { value < 4 },
}

/// A program of this number that runs alone, and the output that shows what its items add.
#[derive(Drop)]
struct ProgramTrace<'a, O: Sink> {
    program: &'a mut DomainAlone,
    number: ProgramNumber,
    choice: &'a TraceChoice,
    out: &'a mut O,
}

impl<'a, O: Sink> TakeItems for ProgramTrace<'a, O> {
    ghost use Rattle.run_trace.specs.ProgramTaking.{TookInOwn};

    type Stop = TraceStop;

    ghost took = { TookInOwn O.Sink };

    fn take_item(&mut self, item: &Item<'_>) -> Result<(), TraceStop> {
        let (shown, taken) = trace_program_item(
            self.program,
            self.number.value,
            self.choice,
            item,
            self.out,
            Ok(()),
        );
        go_on(shown, taken)
    }
}

/// Gives the items of a record to a program of this number that runs alone, and shows what they add, up to the first that
/// does not fit, the first fault, or where the output fails.
pub fn trace_program_items<S: Shelf, O: Sink>(
    program: &mut DomainAlone,
    number: u32,
    choice: &TraceChoice,
    name: &str,
    shelf: &mut S,
    out: &mut O,
) -> Result<Ending, Failed>
    requires settled { S.is_settled shelf.old }
    requires number { number < 4 }
    ensures traces { (k : KernelImage) (p : DomainPart) →
        StandsForDomain number k.schedule program.old (model.opened_with_part p) →
        TracesOwn choice.now number k p program.new (S.held shelf.old name.now)
        (S.reading_faults shelf.old) (S.reading_faults shelf.new)
        (putting O.Sink out.old (Ok tt)) (putting O.Sink out.new) result }
    ensures files { SameFiles (S.held shelf.old) (S.held shelf.new) }
    ensures writing { S.writing_faults shelf.new ≡ S.writing_faults shelf.old }
{
    let mut tracing = ProgramTrace {
        program,
        number: ProgramNumber { value: number },
        choice,
        out,
    };
    match for_each_item(name, shelf, &mut tracing) {
        Ok(ending) => Ok(ending),
        Err(TraceStop::Unfit(unfit)) => Ok(Ending::Unfit(unfit.step)),
        Err(TraceStop::Failed(failed)) => Err(failed),
    }
}
