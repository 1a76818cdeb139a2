//! A machine that is frozen, and one that goes on from a frozen state.
ghost use Rattle.std.specs.Prelude.{◌≡◌, ◌≤◌, IfErr, IfOk, IfSome, false, length};
ghost use Rattle.cloak_model.specs.Bundle.{IsInGrammar};
ghost use Rattle.cloak_model.specs.Joint.{Moment};
ghost use Rattle.frozen_state.specs.FrozenState.{frozen_of};
ghost use Rattle.frozen_state.specs.Ranges.{IsInRange};
ghost use Rattle.joint_machine.specs.Freezing.{HasRoom};
ghost use Rattle.joint_machine.specs.Thawing.{IsThawFault};
ghost use Rattle.cloak_machine.specs.Standing.{StandsForMoment, steps_made};
ghost use Rattle.cloak_machine.specs.Thawing.{ThawsMachine};

use crate::machine::Machine;
use crate::schedule::Schedule;
use arrayvec::ArrayVec;
use cloak_model::Bundle;
use frozen_state::{Frozen, FrozenRoom};
use io_traits::Stream;
use joint_machine::{Joint, ThawFault};
use kernel_report::Console;
use std::alloc::Global;

impl Machine {
    /// The state of the machine, under these vectors: one for each program by rising number, and then one for each frame
    /// that is owed a page. None if there are too few, or no room. Nothing is drawn of the run's stream, and no memory is
    /// taken: the state has the memory of the room and of the disk. After a draw that was missing nothing is told, since
    /// newest bytes of a page were lost.
    pub fn freeze(self, ivs: &mut Stream, room: FrozenRoom) -> Option<Frozen>
        ensures state { (m : Moment) → StandsForMoment self m → m.joint.memory.ledger.missed ≡ false →
            HasRoom (length m.joint.harts) (length m.joint.memory.ram) (length m.joint.domains) room →
            result ≡ frozen_of m.joint m.steps ivs.old }
        ensures few { IfSome result (λ f. length f.recorded ≤ 65536) }
    {
        let Machine { joint, steps, .. } = self;
        joint.freeze(steps, ivs, room)
    }

    /// The machine that goes on from a frozen state of a guest image, under the run's stream: after its keys and the draws
    /// that were made this hands out the next ones. The tests stand in the order of the faults. Its console, and the loads
    /// of its programs, are counted from here on. Its opening was before.
    pub fn thaw(alloc: Global, b: &Bundle, s: Stream, f: Frozen) -> Result<Machine, ThawFault>
        requires image { IsInGrammar b.now }
        requires range { IsInRange b.now.kernel (length b.now.programs) f }
        ensures thaws { IfOk result (ThawsMachine b.now s f) }
        ensures faults { IfErr result (IsThawFault b.now s f) }
        ensures steps { IfOk result (λ machine. steps_made machine ≡ f.steps) }
    {
        let steps = f.steps;
        let schedule = Schedule::open_at(alloc, b.kernel.schedule.as_slice(), steps)?;
        let joint = match Joint::thaw(alloc, b, s, f) {
            Ok(joint) => joint,
            Err(fault) => return Err(fault),
        };
        Ok(Machine {
            joint,
            schedule,
            steps,
            console: Console::new(),
            placings: ArrayVec::new(),
        })
    }
}
