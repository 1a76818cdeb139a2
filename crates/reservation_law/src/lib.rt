//! Laws on the definitions alone (`cloak_model`, `specs/Run`): reservations of LR and SC. A hart has a reservation
//! only of a word that it reserved with LR in an earlier step, and of which no step wrote a byte since: no hart, no
//! settling of a cloaked page, no store of a program outside its pages, no transfer from the disk. So SC stores
//! only such a word. `specs/Writes` says which bytes of RAM a step writes, and the third law that it writes no
//! others. All three hold of the run of every bundle, even of one that no file spells, and from whatever beginning:
//! as a run begins, no hart has a reservation.
//!
//! No body changes a law, so there is no wrong body to refuse here. These changed definitions were tried on a copy,
//! and with each of them the proofs of all three laws were refused: LR is said to do nothing; SC is said to store
//! even if its hart has not reserved the word, or to write nothing; an atomic memory operation is said to write
//! two bytes, READ half a frame, a Cipher all but four bytes, a Put nothing; a step is said to be of the hart whose
//! turn is next.
#![tactic(auto)]

ghost use Rattle.reservation_law.specs.Reservations.{ReservationsAreKept, ConditionalsStoreReserved, BytesStay};

/// A reservation was made with LR, and its word was not written since. It does nothing: its contract is the law.
pub fn law_of_reservations()
    ensures { ReservationsAreKept }
{}

/// SC stores only a word that its hart has reserved so. It does nothing: its contract is the law.
pub fn law_of_conditionals()
    ensures { ConditionalsStoreReserved }
{}

/// A step writes no byte of RAM but those that are told. It does nothing: its contract is the law.
pub fn law_of_writes()
    ensures { BytesStay }
{}
