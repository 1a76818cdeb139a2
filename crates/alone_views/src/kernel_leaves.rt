//! The Leaves of a kernel that runs alone: a hart leaves the context that it runs.
ghost use Rattle.std.specs.Prelude.{◌<◌, length};
ghost use Rattle.cloak_model.specs.KernelAlone as spec;

use crate::kernel::KernelAlone;
use crate::kernel_stage::KernelStage;
use cloak_base::Shown;
use host_calls::leave;

impl KernelAlone {
    ghost use Rattle.alone_views.specs.KernelChanges.{ChangesTo};

    /// A hart leaves the context that it runs by a trap, which ends its reservation.
    fn leave_context(&mut self, hart: usize, ctx: u32, shown: &Shown)
        requires { hart < length self.old.harts.items }
        ensures { ChangesTo self.old self.new (spec.take_leave (spec.Inside hart ctx) shown.now) }
    {
        if shown.ctx == ctx {
            leave(&mut self.harts[hart], shown);
            self.ram.reservations.unmark(hart as u32);
            self.stage = KernelStage::Left;
        } else {
            self.refuse();
        }
    }

    /// Takes a Leave.
    pub(crate) fn take_leave(&mut self, shown: &Shown)
        ensures { ChangesTo self.old self.new (λ s. spec.take_leave s.stage shown.now s) }
    {
        match self.stage {
            KernelStage::Inside { hart, ctx } => self.leave_context(hart, ctx, shown),
            KernelStage::Between => self.refuse(),
            KernelStage::Outside { .. } => self.refuse(),
            KernelStage::Left => self.refuse(),
        }
    }
}
