//! Laws on the definitions alone (`cloak_model`, `specs/Run`): reservations of LR and SC inside, and the registers of
//! contexts. A context has a reservation only of a word that it reserved with LR in an earlier step, and of which no byte
//! was written since: no store, operation, SC or byte of a READ reached it, and its page was not made, copied over or
//! dropped (`latest_store`, `writes_in`). For what is reserved is of a resource that the context's space may map, so of
//! one in use; what a hypercall makes was free before, and what it drops is free after it. So SC stores only such a
//! word, and says by its register whether it stored. After each step that a context made its registers are what its
//! instruction says, of which that of a completed load has the value that was stored last, extended; no other step
//! changes them, but for the answer of a call for which the context waits.
//!
//! What a step does is told as in `latest_store`, `specs/Deeds`: by the contexts and regions of its program, what the
//! program was answered in the step, and the history before it. The laws hold of the run of every image in the grammar,
//! from whatever beginning: as a run begins, no context has a reservation, even if files were added. That no other step
//! changes registers holds of every bundle, also of one that no file spells.
//!
//! No body changes a law, so there is no wrong body to refuse here. With none of these changed definitions, tried on a
//! copy, did the proofs go through: LR is said to reserve nothing; SC is said to store also a word that its context
//! has not reserved; SC is said to write 1 as it stores; what is reserved is said to be private to the context's space; a
//! load is said to put its value into the register as it was read; SC's register is told the other way round; a FORK is
//! said to answer 0; a call is said to be answered in x11.
#![tactic(auto)]

ghost use Rattle.context_law.specs.Inside.{ConditionalsEnd, ContextsKeepReservations, ContextsReserveUsed};
ghost use Rattle.context_law.specs.Inside.{ContextsStoreReserved};
ghost use Rattle.context_law.specs.Registers.{RunsHaveRegisters, RunsKeepRegisters};

/// A reservation was made with LR, and its word was not written since; it is of a resource in use; SC stores only a word
/// that its context has reserved so, and its register says whether it stored. It does nothing: its contract is the law.
pub fn law_of_context_reservations()
    ensures kept { ContextsKeepReservations }
    ensures used { ContextsReserveUsed }
    ensures stored { ContextsStoreReserved }
    ensures ends { ConditionalsEnd }
{}

/// After each step that a context made its registers are what its instruction says, and other steps leave them. It does
/// nothing: its contract is the law.
pub fn law_of_registers()
    ensures own { RunsHaveRegisters }
    ensures others { RunsKeepRegisters }
{}
