//! A law on the definitions alone: each hypercall is of one of twelve kinds (`specs/Kinds`), which say what contexts,
//! resources and world are after it. The laws on what hypercalls do go over the kinds, and not over the definitions,
//! which have parts that go by cases. So a new hypercall of one of these kinds is named here once for all such laws.
//!
//! No body changes a law, so there is no wrong body to refuse here. With these changed definitions, tried on a copy,
//! the proofs did not go through: a MAP that is refused for an overlap takes all regions of its space; THREAD answers
//! the number of the caller; a fork answers the number of a new context and leaves contexts and resources as they were;
//! an EXIT whose space stays leaves its hart inside.
#![tactic(auto)]

ghost use Rattle.hypercall_kinds.specs.Kinds.{HypercallsHaveKinds};

/// Each hypercall is of a kind. It does nothing: its contract is the law.
pub fn law_of_kinds()
    ensures { HypercallsHaveKinds }
{}
