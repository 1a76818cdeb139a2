//! A law on the definitions alone: what every question and every change of a program's step keeps, the step keeps. A
//! step is a script: it asks and changes, one after another, each by the answers before it (`proofs/Scripts`). The
//! script of a step (`proofs/StepScripts`, and the scripts of its parts) is gone through once for all such properties
//! (`proofs/Folding`), and each question once for what each change of a world keeps (`proofs/Questions`). All that the
//! end of a domain asks keeps it too (`proofs/Endings`). The parts of a program's step stand on that, and the laws on
//! steps do. The laws here have one of these properties: the page tables that spaces were first resumed with.
//!
//! No body changes a law, so there is no wrong body to refuse here. With these changed definitions, tried on a copy,
//! the proofs did not go through: the pages of a resource are dropped with all page tables that are recorded; a frame
//! that is settled forgets them, with a draw, or only without one; the count of draws is kept like a page table; so is
//! the number of items that were written.
#![tactic(auto)]

ghost use Rattle.script_fold.specs.Tables.{EndKeepsTables, StepKeepsTables};

/// A step of a program leaves the recorded page tables as they are. It does nothing: its contract is the law.
pub fn law_of_tables()
    ensures { StepKeepsTables }
{}

/// What the end of a domain asks leaves the recorded page tables as they are. It does nothing: its contract is the law.
pub fn law_of_ends()
    ensures { EndKeepsTables }
{}
