//! The command `stats`: the joint run of a bundle, of which only its stop and the counts of its shadow entries are
//! shown.
//!
//! The layer above may rely on this: `stats_command` makes the run that `run` makes of the same bundle, steps and
//! random bytes, writes no file, and returns each status by its cause (`specs/Answering`).
#![tactic(auto)]

mod command;
mod counting;
mod showing;

pub use command::stats_command;
