//! The closing of a joint run.
ghost use Rattle.std.specs.Prelude.{◌≡◌, ℕ};
ghost use Rattle.cloak_model.specs.Cloaking.{CloakedMemory};
ghost use Rattle.cloak_model.specs.Hart.{Hart as AnyHart};
ghost use Rattle.cloak_model.specs.Exchange.{EmitsSome};
ghost use Rattle.cloak_model.specs.Joint.{cloak_outside};
ghost use Rattle.cloak_model.specs.Parts as model;
ghost use Rattle.cloak_model.specs.Run.{closing, settled_below};
ghost use Rattle.cloak_pager.specs.State.{held_in};
ghost use Rattle.cloaked_side.specs.Holding.{Holds, SameSize, frames_of};
ghost use Rattle.joint_machine.specs.Closing.{SettlesFrames};

use crate::joint::Joint;
use cloak_base::Frame;
use cloak_model::Emit;
use cloaked_side::Memory;

/// Settles all frames, by rising number.
fn settle_all<E: Emit>(memory: &mut Memory, e: &mut E)
    ensures size { SameSize memory.old memory.new }
    ensures outside { (k : ℕ) → held_in memory.new.pager k ≡ None }
    ensures emits_some { EmitsSome E.gave e.old e.new }
    ensures settles { (m : CloakedMemory) (h : AnyHart) → Holds memory.old m →
        SettlesFrames E.gave e.old e.new memory.new (settled_below (frames_of memory.old) (cloak_outside m h)) }
{
    let count = memory.pager.count();
    for i in 0..count {
        memory.settle(Frame(i), e);
    }
    memory.pager.whole();
}

impl Joint {
    ghost use Rattle.joint_machine.specs.Standing.{harts_of, AllOutside, ShowsAs, StandsForJoint};

    /// Settles all frames, by rising number, as a run ends. Afterwards every frame is as the kernel sees it.
    pub fn close<E: Emit>(&mut self, e: &mut E)
        ensures harts { harts_of self.new ≡ harts_of self.old }
        ensures emits_some { EmitsSome E.gave e.old e.new }
        ensures outside { AllOutside self.new }
        ensures closes { (j : model.Joint) → StandsForJoint self.old j →
            ShowsAs E.gave e.old e.new self.new (closing j) }
    {
        settle_all(&mut self.memory, e);
    }
}
