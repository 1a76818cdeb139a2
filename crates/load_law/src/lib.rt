//! Laws on the definitions alone: how a step of a joint run (`cloak_model`, `specs/Run`) ends in which a context of a
//! program is to make a cloaked load. It completes this load, or the context leaves to the kernel with a fault, or the
//! program's domain ends by a violation, or the run stops for want of a draw. It is exactly one of these
//! (`specs/Outcomes`). What a completed load returns is said in `latest_store`. Here it is said that no load is passed
//! over, and that a step completes no load but the one that was due.
//!
//! Which load is due (`specs/Due`) is told as what a step does to pages (`latest_store`, `specs/Deeds`): by the
//! contexts and the regions of the program, and by the history before the step. So a load is due also if the fetch of
//! its instruction is not granted. An interrupt that is due goes before the step of a context, which is made later.
//!
//! The law of due loads holds of both beginnings, with files as in `latest_store`. That no other load is completed, and
//! that a missing draw stops the run, hold of every bundle, also of one that no file spells.
//!
//! No body changes a law, so there is no wrong body to refuse here. These changed definitions were tried on a copy, each
//! in place of the definition that a lemma of these proofs is about, and none of these lemmas went through: a load
//! whose page is absent completes with zero; an atomic operation whose word is absent leaves with another register; a
//! page that differs is noted as a violation, and its load is granted; a byte is put though a draw was missing; a
//! missing draw does not stop the run; a domain that ends is not listed. The crates below were not tried with them.
#![tactic(auto)]

ghost use Rattle.load_law.specs.Outcomes.{DueLoadsEnd, ListedStay, MissingDrawsStop, OnlyDueLoads};

/// A load that is due is completed, or its context leaves with a fault, or its domain ends, or the run stops. No other
/// load is completed. It does nothing: its contract is the law.
pub fn law_of_due_loads()
    ensures ends { DueLoadsEnd }
    ensures due { OnlyDueLoads }
    ensures stops { MissingDrawsStop }
    ensures listed { ListedStay }
{}
