//! A run that is stopped and saved: what its state is, the file that spells it, and when a run goes on from it.
//!
//! `Frozen` is plain data: all that a run goes on with, and of cloaked pages and of programs nothing but ciphertext. The
//! definitions say which value a joint machine has after some steps (`specs/FrozenState`), the bytes of its file, the
//! first fault of a file that is none (`specs/FrozenFault`), and the states from which a run goes on as if it had never
//! been stopped (`specs/Thawing`, `specs/Continuing`). A program without its pages is one page of bytes
//! (`specs/DomainPage`), which is sealed under the program's key.
//!
//! The layer above may rely on this: all memory that a state takes is taken by `FrozenRoom::open`, before a step is made;
//! and a room that is filled up is the state of its lists, with no copy made of them.
#![tactic(auto)]

mod fault;
mod frozen;
mod room;

pub use fault::FrozenFault;
pub use frozen::{Frozen, FrozenDomain, FrozenFrame, FrozenHart, FrozenPage};
pub use room::FrozenRoom;
