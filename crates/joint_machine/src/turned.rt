ghost use Rattle.std.specs.Prelude.{◌≡◌, ◌<◌, false};
ghost use Rattle.cloak_model.specs.Exchange.{EmitsSome};
ghost use Rattle.cloak_model.specs.Joint.{hart_in};
ghost use Rattle.cloak_model.specs.Parts as model;
ghost use Rattle.cloaked_side.specs.Tracking.{AreMapped, GoesBy};
ghost use Rattle.joint_machine.specs.Mapping.{MakesIn};
ghost use Rattle.space_law.specs.Mapping.{mapped_in};
ghost use Rattle.shadow_fold.specs.Events.{asked_of, asked_with_end};

use crate::ended_step::EndedStep;
use crate::joint::Joint;
use cloak_base::Stop;
use cloak_model::Emit;

/// How a step ended.
#[derive(Clone, Copy)]
pub struct Turned {
    /// The byte that it showed on the console.
    pub console: Option<u8>,
    /// Why it stopped the run.
    pub stop: Option<Stop>,
}

impl Joint {
    ghost use Rattle.joint_machine.specs.Standing.{StandsForJoint, TakesTurn, harts_of, step_in, turn_in};
    ghost use Rattle.joint_machine.specs.Turning.{EndsTurn};

    /// Makes the next step of a hart, by the context that it is inside, but for the end of a domain.
    #[inline(always)]
    fn step<E: Emit>(&mut self, number: usize, e: &mut E) -> EndedStep
        requires { number < harts_of self.old }
        ensures harts { harts_of self.new ≡ harts_of self.old }
        ensures emits_some { EmitsSome E.gave e.old e.new }
        ensures turns { (j : model.Joint) → StandsForJoint self.old j →
            (turn_in j number).joint.memory.ledger.clashed ≡ false →
            EndsTurn E.gave e.old e.new self.new result (turn_in j number) }
        ensures counting { self.new.memory.counting ≡ self.old.memory.counting }
        ensures goes { (j : model.Joint) → StandsForJoint self.old j →
            (turn_in j number).joint.memory.ledger.clashed ≡ false →
            GoesBy self.old.memory self.new.memory
            (asked_of j number (hart_in j number) (hart_in j number).inside) }
        ensures makes { (j : model.Joint) → StandsForJoint self.old j →
            MakesIn (mapped_in j) (asked_of j number (hart_in j number) (hart_in j number).inside) }
    {
        match self.harts[number].inside {
            None => self.outside(number, e),
            Some(ctx) => self.inside(number, ctx, e),
        }
    }

    /// Makes the next step of a hart, and ends the domain of a violation that it met. What it shows and answers is emitted
    /// as it comes about, except for the console's byte, which is returned.
    #[inline(always)]
    pub fn turn<E: Emit>(&mut self, number: usize, e: &mut E) -> Turned
        requires { number < harts_of self.old }
        ensures harts { harts_of self.new ≡ harts_of self.old }
        ensures emits_some { EmitsSome E.gave e.old e.new }
        ensures turns { (j : model.Joint) → StandsForJoint self.old j →
            (step_in j number).joint.memory.ledger.clashed ≡ false →
            TakesTurn E.gave e.old e.new self.new result (step_in j number) }
        ensures counting { self.new.memory.counting ≡ self.old.memory.counting }
        ensures goes { (j : model.Joint) → StandsForJoint self.old j →
            (step_in j number).joint.memory.ledger.clashed ≡ false →
            GoesBy self.old.memory self.new.memory (asked_with_end j number) }
        ensures maps { (j : model.Joint) → StandsForJoint self.old j →
            (step_in j number).joint.memory.ledger.clashed ≡ false → AreMapped (mapped_in j) self.old.memory →
            AreMapped (mapped_in (step_in j number).joint) self.new.memory }
    {
        let inside = self.harts[number].inside;
        let ended = self.step(number, e);
        self.answer_any(inside, ended.violation, e);
        Turned {
            console: ended.console,
            stop: ended.stop(self.memory.missed),
        }
    }
}
