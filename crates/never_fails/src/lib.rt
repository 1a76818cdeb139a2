//! A shelf and an output on which no call fails, for runs whose bytes nobody keeps: what is written is counted and hashed.
//!
//! The layer above may rely on this: their counts of faults are 0 in every state, so over them the clauses of a command
//! (`cloak_commands`, `complete`) allow no answer that a fault has.
#![tactic(auto)]

mod shelf;
mod sink;
mod sum;

pub use shelf::NeverShelf;
pub use sink::NeverSink;
