//! The top call, `cloak`, over any words, files and output.
//!
//! `cloak` reads the words and hands them to the command that they name: `run` (`run_command`), `view` and `solo`
//! (`read_back`), `gen`, `demo` and `upgrade` (`image_commands`), `stats` (`stats_command`), `store` (`store_command`),
//! `freeze` and `thaw` (`frozen_commands`).
//! `run_program` also writes out what is gathered; its clause `exits` gives each status its cause and each command what it
//! writes. `program_over` puts a shelf over a disk and a sink over an output, and calls it; its clauses speak of the own
//! bytes of the disk and the output. `sentence` says why a status came, by the words as `read_again` reads them. The
//! program `cloak_cli` calls these with the system's words, files and output.
#![tactic(auto)]

mod command;
mod over;
mod program;
mod words;

pub use command::cloak;
pub use over::{Ended, program_over};
pub use program::{read_again, run_program, sentence};
pub use words::ProgramWords;
