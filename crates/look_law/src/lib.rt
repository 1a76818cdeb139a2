//! A law on the definitions alone: how often a step asks where an access leads (`cloak_model`, `specs/Events`, Look). It
//! does so at most twice: for the fetch of its instruction and for its load, store or atomic access; or, of a call that
//! copies a byte, for the byte's page and for its place in the area of the call. An interrupt asks for none, nor does the
//! end of a domain after a step. So a run of n steps asks at most 2 * n times, and no count of that reaches its last
//! number in the steps that a run may have.
//!
//! No body changes a law, so there is no wrong body to refuse here. These changed definitions were tried on a copy,
//! and with none of them did the proof go through: what is touched counts, too, or what is offered, or what the end of
//! a domain drops; a step asks at most once; a run asks at most as often as it makes steps.
#![tactic(auto)]

ghost use Rattle.look_law.specs.Looks.{CountsAreFew, StepLooksTwice};

/// A step asks at most twice where an access leads. It does nothing: its contract is the law.
pub fn law_of_looks()
    ensures step { StepLooksTwice }
    ensures counts { CountsAreFew }
{}
