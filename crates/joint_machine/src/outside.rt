//! The step of a hart outside.
ghost use Rattle.std.specs.Prelude.{◌≡◌, ◌<◌, false};
ghost use Rattle.cloak_model.specs.Ahead.{settled_step};
ghost use Rattle.cloak_model.specs.Exchange.{EmitsSome};
ghost use Rattle.cloak_model.specs.Joint as spec;
ghost use Rattle.cloak_model.specs.Joint.{hart_in, cloak_outside};
ghost use Rattle.cloak_model.specs.Parts as parts;
ghost use Rattle.cloaked_side.specs.Tracking.{GoesBy};
ghost use Rattle.shadow_fold.specs.Events as events;

use crate::ended_step::EndedStep;
use crate::joint::Joint;
use cloak_model::Emit;
use cloaked_side::outside_step;
use host_calls::Kernel;

impl Joint {
    ghost use Rattle.joint_machine.specs.Standing.{StandsForJoint, harts_of};
    ghost use Rattle.joint_machine.specs.Turning.{EndsTurn, StepsPlainly};

    /// Makes the plain step of a hart.
    fn step_plainly<E: Emit>(&mut self, number: usize, e: &mut E) -> Kernel
        requires { number < harts_of self.old }
        ensures harts { harts_of self.new ≡ harts_of self.old }
        ensures emits_some { EmitsSome E.gave e.old e.new }
        ensures steps { (j : parts.Joint) → StandsForJoint self.old j → j.memory.ledger.clashed ≡ false →
            StepsPlainly E.gave e.old e.new self.new result j number
            (settled_step (hart_in j number) j.disk (cloak_outside j.memory (hart_in j number))) }
        ensures counting { self.new.memory.counting ≡ self.old.memory.counting }
        ensures goes { (j : parts.Joint) → StandsForJoint self.old j → j.memory.ledger.clashed ≡ false →
            GoesBy self.old.memory self.new.memory (events.asked_outside j (hart_in j number)) }
    {
        outside_step(&mut self.harts[number], &mut self.disk, &mut self.memory, e)
    }

    /// Makes the step of a hart outside: its plain step, which may resume a context.
    pub(crate) fn outside<E: Emit>(&mut self, number: usize, e: &mut E) -> EndedStep
        requires { number < harts_of self.old }
        ensures harts { harts_of self.new ≡ harts_of self.old }
        ensures emits_some { EmitsSome E.gave e.old e.new }
        ensures turns { (j : parts.Joint) → StandsForJoint self.old j → j.memory.ledger.clashed ≡ false →
            EndsTurn E.gave e.old e.new self.new result (spec.outside_step j number (hart_in j number)) }
        ensures counting { self.new.memory.counting ≡ self.old.memory.counting }
        ensures goes { (j : parts.Joint) → StandsForJoint self.old j → j.memory.ledger.clashed ≡ false →
            GoesBy self.old.memory self.new.memory (events.asked_outside j (hart_in j number)) }
    {
        match self.step_plainly(number, e) {
            Kernel::Stay => EndedStep::met(None),
            Kernel::Trapped => EndedStep::met(None),
            Kernel::Put(b) => EndedStep {
                console: Some(b),
                violation: None,
                halt: None,
            },
            Kernel::Halt(value) => EndedStep {
                console: None,
                violation: None,
                halt: Some(value),
            },
            Kernel::Resume { ctx, answer } => EndedStep::met(self.resume(number, ctx, answer, e)),
        }
    }
}
