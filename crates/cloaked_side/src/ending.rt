//! The end of a domain's pages.
ghost use Rattle.std.specs.Prelude.{◌≡◌, ◌≢◌, ◌<◌, ℕ, [], None, Some};
ghost use Rattle.cloak_model.specs.Cloaking.{CloakedMemory};
ghost use Rattle.cloak_model.specs.Ending.{settled_for, ask_end};
ghost use Rattle.cloak_model.specs.Exchange.{EmitsSome};
ghost use Rattle.cloak_model.specs.Fork.{forget_each};
ghost use Rattle.cloak_model.specs.Opening.{numbers_below};
ghost use Rattle.cloak_model.specs.World.{events_of, items_of};
ghost use Rattle.cloak_pager.specs.State.{IsNoneHeld, IsNoneOwed, held_in};
ghost use Rattle.cloaked_side.specs.Ending.{EndsPages, ended_world};
ghost use Rattle.cloaked_side.specs.Holding.{Holds, SameSize, domains_in, frames_of};
ghost use Rattle.cloaked_side.specs.Tracking.{GoesBy};

use crate::memory::Memory;
use crate::side::{OUTSIDE, Side};
use cloak_base::Frame;
use cloak_model::Emit;

impl<'m, 'e, E: Emit> Side<'m, 'e, E> {
    ghost use Rattle.cloak_model.specs.Asking.{Keeps};
    ghost use Rattle.cloaked_side.specs.Seeing.{Becomes, FollowsAlways, StaysWithin};
    ghost use Rattle.cloak_model.specs.Script.{played};

    /// Settles the frames that are owed pages of a domain, by rising number, even after a missing draw.
    fn settle_owed(&mut self, domain: u32)
        ensures sees { Becomes E.gave self.old self.new (settled_for domain 0 (frames_of self.old.memory.now)) }
        ensures keeps { Keeps (StaysWithin E.gave) self.old self.new }
        ensures cleared { (r : ℕ) → r < 16 → IsNoneOwed self.new.memory.now.pager domain r }
    {
        let every = [true; 16];
        let count = self.memory.pager.count();
        for i in 0..count {
            self.clear_frame(domain, &every, Frame(i));
        }
        self.memory.pager.whole();
    }

    /// Drops the pages of each resource of a domain of whose pages no frame is owed one.
    fn drop_resources(&mut self, domain: u32)
        requires domain { domain < domains_in self.old.memory.now }
        requires cleared { (r : ℕ) → r < 16 → IsNoneOwed self.old.memory.now.pager domain r }
        ensures told { FollowsAlways E.gave self.old self.new tt (played (forget_each domain (numbers_below 16))) }
        ensures keeps { Keeps (StaysWithin E.gave) self.old self.new }
        ensures none { (r : ℕ) → IsNoneHeld self.new.memory.now.pager domain r }
    {
        for n in 0..16 {
            self.drop_resource(domain, n);
        }
        self.memory.pager.whole();
    }

    /// Ends the pages of a domain.
    fn end_domain(&mut self, domain: u32)
        requires there { domain < domains_in self.old.memory.now }
        ensures told { FollowsAlways E.gave self.old self.new tt (ask_end domain) }
        ensures keeps { Keeps (StaysWithin E.gave) self.old self.new }
        ensures none { (r : ℕ) → IsNoneHeld self.new.memory.now.pager domain r }
    {
        self.settle_owed(domain);
        self.drop_resources(domain);
    }
}

/// Ends a domain's pages: frames that are owed one of them are settled by rising number, even after a missing draw;
/// then the pages of each resource are dropped, and the frames that held one show what was last shown.
pub fn end_pages<E: Emit>(memory: &mut Memory, domain: u8, e: &mut E)
    requires there { domain < domains_in memory.old }
    ensures size { SameSize memory.old memory.new }
    ensures counting { memory.new.counting ≡ memory.old.counting }
    ensures emits_some { EmitsSome E.gave e.old e.new }
    ensures others { (k : ℕ) (q : _) → q.domain ≢ domain → held_in memory.new.pager k ≡ Some q →
        held_in memory.old.pager k ≡ Some q }
    ensures none { (r : ℕ) → IsNoneHeld memory.new.pager domain r }
    ensures ends { (m : CloakedMemory) → Holds memory.old m →
        EndsPages E.gave e.old e.new memory.new (ended_world m domain) }
    ensures goes { (m : CloakedMemory) → Holds memory.old m → let w = ended_world m domain in
        GoesBy memory.old memory.new
        (record { space = None; events = events_of w; items = items_of w; changed = [] }) }
{
    let mut side = Side {
        memory,
        emitter: e,
        violation: None,
        domain,
        regime: OUTSIDE,
    };
    side.end_domain(domain as u32);
    // No effect at run time. The proof reads what was lent from these uses.
    let Side {
        memory,
        emitter,
        ..
    } = side;
    let _ = &*memory;
    let _ = &*emitter;
}
