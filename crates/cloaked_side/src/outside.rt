//! The step of a hart outside.
ghost use Rattle.std.specs.Prelude.{◌≡◌, false, None, []};
ghost use Rattle.cloak_model.specs.Cloaking.{CloakedMemory};
ghost use Rattle.cloak_model.specs.Ahead.{settled_step};
ghost use Rattle.cloak_model.specs.Joint.{cloak_outside};
ghost use Rattle.cloak_model.specs.KernelStep as plain;
ghost use Rattle.cloak_model.specs.World.{Cloaked, events_of, items_of};
ghost use Rattle.cloak_model.specs.Exchange.{EmitsSome};
ghost use Rattle.cloaked_side.specs.Holding.{Holds, HoldsNoMore, SameSize};
ghost use Rattle.cloaked_side.specs.Telling.{TellsSide};
ghost use Rattle.cloaked_side.specs.Tracking.{GoesBy};

use crate::memory::Memory;
use crate::side::{OUTSIDE, Side};
use cloak_model::Emit;
use host_calls::{Disk, Hart, Kernel, kernel_step};

/// Makes the plain step of a hart outside. Each frame that it reaches is settled at the access, which has the same
/// result as settling all that it touches ahead of the step.
pub fn outside_step<E: Emit>(h: &mut Hart, d: &mut Disk, memory: &mut Memory, e: &mut E) -> Kernel
    ensures size { SameSize memory.old memory.new }
    ensures no_more { HoldsNoMore memory.old.pager memory.new.pager }
    ensures counting { memory.new.counting ≡ memory.old.counting }
    ensures emits_some { EmitsSome E.gave e.old e.new }
    ensures tells { (m : CloakedMemory) → Holds memory.old m → m.ledger.clashed ≡ false →
        TellsSide E.gave e.old e.new memory.new (record { hart = h.new; disk = d.new; ending = result })
        (settled_step h.old d.old (cloak_outside m h.old)) }
    ensures goes { (m : CloakedMemory) → Holds memory.old m → m.ledger.clashed ≡ false →
        let told = plain.kernel_step h.old d.old (Cloaked (cloak_outside m h.old)) in GoesBy memory.old memory.new
        (record { space = None; events = events_of told.world; items = items_of told.world; changed = [] }) }
{
    let mut side = Side {
        memory,
        emitter: e,
        violation: None,
        domain: 0,
        regime: OUTSIDE,
    };
    let ending = kernel_step(h, d, &mut side);
    // No effect at run time. The proof reads what was lent from these uses.
    let Side {
        memory,
        emitter,
        ..
    } = side;
    let _ = &*memory;
    let _ = &*emitter;
    ending
}
