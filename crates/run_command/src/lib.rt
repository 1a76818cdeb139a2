//! The command `run`: the joint run of a bundle, its record, its console and its report.
//!
//! The layer above may rely on this: `run_command` returns each status by its cause, and writes what is due of the run
//! (`cloak_model`, `specs/Run`) to record and output, or a front of it if writing fails. Other commands that make a run
//! take `prepare_run`, which opens its machine from the files that the words name, or says why there is none;
//! `write_steps`, `run_steps` and `write_end`, which write its parts; `Unheard`, which writes nothing; and
//! `stop_status`. Of any two runs that were made `law_of_two_runs` says what the kernel, or a program, sees of them alone.
//!
//! No body changes `law_of_two_runs`. These changed definitions were tried on a copy, and with none of them did its
//! proof go through: the two runs have one inward half for program 0, where the kernel is meant; the second image has
//! the program at the next number; the items are those of the record's file as it was before the call.
#![tactic(auto)]

mod command;
mod laws;
mod outlet;
mod pen;
mod prepare;
mod run;
mod unheard;

pub use command::run_command;
pub use laws::law_of_two_runs;
pub use outlet::Outlet;
pub use pen::RecordPen;
pub use prepare::{image_is_of_bytes, open_stream, prepare_run};
pub use run::{run_steps, stop_status, write_end, write_steps};
pub use unheard::Unheard;
