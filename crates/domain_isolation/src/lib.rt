//! Laws on the definitions alone: a program's half of isolation. In a joint run (`cloak_model`, `specs/Run`) what a
//! program has, its contexts and resources, its loads and the newest bytes of its pages, is a function of its image,
//! its files of an earlier run, if it has any, the schedule and its own half of the exchange, after each step and at
//! the end: it is the part of the program alone (`specs/DomainAlone`), which begins with the pages of its files, reads
//! its items and finds none unfit. So the kernel, the other programs and their files, the keys and the random stream
//! reach a program by its inward items alone. The laws hold of every beginning (`specs/Beginning`), whatever its files
//! hold.
//!
//! No body changes a law, so there is no wrong body to refuse here. These changed definitions were tried on a copy,
//! and with none of them did the proofs go through. Of the joint machine: the timer is told to program 0; a resuming
//! tells an answer other than the one that the context takes; a context that leaves stays marked as running; a hart
//! that resumes a context stays outside; a step that met a violation goes on; a copy of pages goes to program 0; a
//! load of memory that is not the program's own is told more than its bytes. Of the program alone: its pages begin as
//! zeros; its turns go by the next hart. Of the inward half, for its law: a Word is none of it, nor is a Timer, nor
//! the marker of a step.
#![tactic(auto)]

ghost use Rattle.domain_isolation.specs.Isolation.{DomainDependsOnHalf, DomainEndsAlone, DomainIsAlone, InwardHalfSuffices};

/// The program alone, from any part on, ignores the items that are not in its half, forged ones too. It does nothing:
/// its contract is the law.
pub fn law_of_inward_halves()
    ensures { InwardHalfSuffices }
{}

/// A program's part of a run is that of the program alone. It does nothing: its contract is the law.
pub fn law_of_domain_isolation()
    ensures steps { DomainIsAlone }
    ensures end { DomainEndsAlone }
    ensures half { DomainDependsOnHalf }
{}
