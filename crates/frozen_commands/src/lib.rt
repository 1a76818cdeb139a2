//! The commands `freeze` and `thaw`: a run that is stopped and saved, and its rest.
//!
//! The layer above may rely on this: `freeze_command` and `thaw_command` return each status by its cause. A run that no
//! step stopped has record and console of its steps, and the file of its state under the vectors; one that a step
//! stopped ends as `run` does. For each machine that can go on with the state that a file spells, `thaw` writes exactly
//! what is due of its rest: so the two records together are the record of one run (`frozen_promise`). It carries the
//! laws of that whole run (`specs/WholeRun`). All memory is taken before the first step. Of any two runs that calls of
//! `freeze` made `law_of_two_frozen_runs` says what the kernel, or a program, sees of them alone.
#![tactic(auto)]

mod digest;
mod first;
mod freeze;
mod freezing;
mod laws;
mod rest;
mod saving;
mod shapes;
mod state;
mod thaw;
mod thawing;

pub use freeze::freeze_command;
pub use laws::law_of_two_frozen_runs;
pub use thaw::thaw_command;
