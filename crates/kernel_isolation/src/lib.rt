//! Laws on the definitions alone: the kernel's half of isolation. In a joint run (`cloak_model`, `specs/Run`) the
//! kernel's part of the machine, with the reservations of its harts, is a function of the kernel's image and the outward
//! half of the exchange, after each step and at the end: it is the part of the kernel alone (`specs/KernelAlone`), which
//! reads them and finds no item unfit. So what a program's pages hold, and what the ledger keeps, reaches the kernel by
//! the outward items alone. The laws hold of the run of every bundle, also of one that no file spells, and of every
//! beginning (`specs/Beginning`): of a run from a random stream alone, and of one over any files, whatever they hold.
//!
//! No body changes a law, so there is no wrong body to refuse here. These changed definitions were tried on a copy,
//! and with none of them did the proofs go through. Of the kernel alone: the timer of a hart inside does not count; a
//! Put must be at a multiple of 4; a Cipher outside steps is unfit; Close ends no step; a Put is inward; a hart that
//! leaves keeps its reservation; a Cipher ends no reservation. Of the run: the last page of a program is not shown in
//! the opening; the closing writes nothing; steps follow one that stopped the run; a hart that leaves stays as it was;
//! a program's step that stops the run writes nothing; what is settled ahead of a step is not written; a step of a
//! context that has no program shows a byte on the console. Of the outward half, for its law: a Put is none of it, nor
//! is a Leave, nor the marker of a step. Of an exchange, for its law: a Put may not stand in a step; opening and
//! closing show nothing; the items of the closing stand before Close.
#![tactic(auto)]

ghost use Rattle.kernel_isolation.specs.Isolation.{KernelDependsOnHalf, KernelEndsAlone, KernelIsAlone, OutwardHalfSuffices, WritesAnExchange};

/// The kernel alone ignores inward items, forged ones too. It does nothing: its contract is the law.
pub fn law_of_outward_halves()
    ensures { OutwardHalfSuffices }
{}

/// The kernel's part of a run is that of the kernel alone: after each step and at the end, and so it is one in runs with
/// one kernel image and one outward half. It does nothing: its contract is the law.
pub fn law_of_kernel_isolation()
    ensures steps { KernelIsAlone }
    ensures end { KernelEndsAlone }
    ensures half { KernelDependsOnHalf }
{}

/// What a run writes is in the order of an exchange. It does nothing: its contract is the law.
pub fn law_of_exchanges()
    ensures { WritesAnExchange }
{}
