//! A record, from its first item to its end or its first fault, with a kernel that runs alone.
ghost use Rattle.std.specs.Prelude.{◌≡◌, Ok};
ghost use Rattle.cloak_model.specs.declared.image.KernelImage.{KernelImage};
ghost use Rattle.cloak_model.specs.KernelAlone as model;
ghost use Rattle.alone_views.specs.KernelStanding.{StandsForKernel};
ghost use Rattle.io_traits.specs.Told.{SameFiles};
ghost use Rattle.kernel_report.specs.Putting.{putting};
ghost use Rattle.run_trace.specs.Tracing.{Traces};

use crate::choice::TraceChoice;
use crate::kernel_side::trace_item;
use crate::stop::{TraceStop, go_on};
use alone_views::KernelAlone;
use cloak_base::Failed;
use cloak_model::Item;
use io_traits::{Shelf, Sink};
use read_back::{Ending, TakeItems, for_each_item};

/// A kernel that runs alone, and the output that shows what its items add.
#[derive(Drop)]
struct KernelTrace<'a, O: Sink> {
    kernel: &'a mut KernelAlone,
    choice: &'a TraceChoice,
    out: &'a mut O,
}

impl<'a, O: Sink> TakeItems for KernelTrace<'a, O> {
    ghost use Rattle.run_trace.specs.KernelTaking.{TookInTrace};

    type Stop = TraceStop;

    ghost took = { TookInTrace O.Sink };

    fn take_item(&mut self, item: &Item<'_>) -> Result<(), TraceStop> {
        let (shown, taken) = trace_item(self.kernel, self.choice, item, self.out, Ok(()));
        go_on(shown, taken)
    }
}

/// Gives the items of a record to a kernel that runs alone, and shows what they add, up to the first that does not fit,
/// the first fault, or where the output fails.
pub fn trace_kernel_items<S: Shelf, O: Sink>(
    kernel: &mut KernelAlone,
    choice: &TraceChoice,
    name: &str,
    shelf: &mut S,
    out: &mut O,
) -> Result<Ending, Failed>
    requires { S.is_settled shelf.old }
    ensures traces { (k : KernelImage) → StandsForKernel kernel.old k.schedule (model.opened_kernel k) →
        Traces choice.now k kernel.new (S.held shelf.old name.now)
        (S.reading_faults shelf.old) (S.reading_faults shelf.new)
        (putting O.Sink out.old (Ok tt)) (putting O.Sink out.new) result }
    ensures files { SameFiles (S.held shelf.old) (S.held shelf.new) }
    ensures writing { S.writing_faults shelf.new ≡ S.writing_faults shelf.old }
{
    let mut tracing = KernelTrace {
        kernel,
        choice,
        out,
    };
    match for_each_item(name, shelf, &mut tracing) {
        Ok(ending) => Ok(ending),
        Err(TraceStop::Unfit(unfit)) => Ok(Ending::Unfit(unfit.step)),
        Err(TraceStop::Failed(failed)) => Err(failed),
    }
}
