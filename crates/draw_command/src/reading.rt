//! A record, from its first item to its end, its first fault, or the first item that does not fit.
ghost use Rattle.std.specs.Prelude.{◌≡◌};
ghost use Rattle.cloak_model.specs.declared.image.KernelImage.{KernelImage};
ghost use Rattle.cloak_model.specs.KernelAlone as model;
ghost use Rattle.alone_views.specs.KernelStanding.{StandsForKernel};
ghost use Rattle.io_traits.specs.Told.{SameFiles};
ghost use Rattle.draw_command.specs.Replaying.{ReadsRun};

use crate::run::Run;
use alone_views::Unfit;
use cloak_model::Item;
use io_traits::Shelf;
use read_back::{Ending, TakeItems, for_each_item};

impl TakeItems for Run {
    ghost use Rattle.draw_command.specs.Reading.{TookInRun};

    type Stop = Unfit;

    ghost took = { TookInRun };

    fn take_item(&mut self, item: &Item<'_>) -> Result<(), Unfit> {
        self.take(item)
    }
}

/// Gives the items of a record to a run, up to the first that does not fit or the first fault. Returns how reading ended.
pub fn read_run<S: Shelf>(run: &mut Run, name: &str, shelf: &mut S) -> Ending
    requires { S.is_settled shelf.old }
    ensures reads { (k : KernelImage) → StandsForKernel run.old.kernel k.schedule (model.opened_kernel k) →
        ReadsRun k (S.held shelf.old name.now) (S.reading_faults shelf.old) (S.reading_faults shelf.new) result }
    ensures files { SameFiles (S.held shelf.old) (S.held shelf.new) }
    ensures writing { S.writing_faults shelf.new ≡ S.writing_faults shelf.old }
    ensures settled { S.is_settled shelf.new }
{
    match for_each_item(name, shelf, run) {
        Ok(ending) => ending,
        Err(unfit) => Ending::Unfit(unfit.step),
    }
}
