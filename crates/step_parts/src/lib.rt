//! The plain step of a hart taken apart: one definition for each function that makes it (`specs/Parts`), for the crates
//! that make the step and for laws on it. No definition of the machine rests on these; that they are the step of
//! `cloak_model` is the law here.
//!
//! No body changes a law, so there is no wrong body to refuse here. These changed definitions were tried on a copy, and
//! with none of them did the proof go through. Of the step: a load is never signed; a store asks for its address as a
//! load does; the interrupt is tested before the timer falls; the timer stands. Of its parts: a store does not go on;
//! SC gives 1 if it stored; an operation asks for its address as a load does; every even address is aligned; no step
//! ends a reservation.
#![tactic(auto)]

ghost use Rattle.step_parts.specs.SameStep.{IsTheStep};

/// Its contract is the law: over every world, for every hart and disk, the parts make the step.
pub fn law_of_parts()
    ensures { IsTheStep }
{}
