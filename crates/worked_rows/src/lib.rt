//! Worked rows of the definitions: runs and steps that are small enough to be written out, with what the definitions of
//! `cloak_model` make of them. Nothing here runs, and nothing stands on it; a definition that is changed so that one of
//! these rows comes out otherwise is refused here.
//!
//! The rows stand in `specs/`, each with the words that say what it is. They are computed from the definitions alone,
//! with the cipher and the digest left as they are applied: a row says which page is enciphered under which draw, and
//! not the bytes of the ciphertext.
//!
//! Each row of a run says whether pages clashed in it: that none did is the premise of what `run` promises. In one run
//! the kernel flips a bit of a page, and two different pages are compared; the row says that they clash if they have one
//! digest. In all others none did. `specs/PremiseRows` has runs that meet at once what the laws on runs ask of a run.
//!
//! No body turns a row, so there is no wrong body to refuse here. These changed definitions of atomic instructions were
//! tried on a copy, and the rows refused each. Of words and operations: LR may have a second operand; the least of two
//! words is that of unsigned ones. Of reservations of harts: a store of the value that stood there ends none, as if SC
//! compared the word; a store ends those of its own address alone; a trap ends none; an SC that stores nothing ends
//! none; SC looks at its reservation before its frame is settled. Of contexts: a store of the value that stood there
//! ends no reservation, nor does an operation, a copied byte, or a trap; SC completes a load, if it stores, or if it
//! does not; an operation takes another word than the one that stood there; an address that is not cloaked goes before
//! one that is no multiple of 4; LR leaves there with the cause of stores.
#![tactic(auto)]

mod atomics;
mod images;
mod joint_runs;
mod machines_alone;
mod memory;
mod premises;
mod programs;
mod stores;

pub use atomics::rows_of_atomics;
pub use images::rows_of_images;
pub use joint_runs::rows_of_joint_runs;
pub use machines_alone::rows_of_machines_alone;
pub use memory::rows_of_cloaked_memory;
pub use premises::rows_of_premises;
pub use programs::rows_of_a_program;
pub use stores::rows_of_stores;
