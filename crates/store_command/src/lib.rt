//! The command `store`: a run whose cloaked files go on from an earlier one.
//!
//! The layer above may rely on this: `store_command` returns each status by its cause. For all contents that the store
//! file stands for, it writes record, console and report of the run over them, then the store file of what the files
//! hold at the end, and the bundle with the disk of the end (`specs/Leaving`); or a front of that if writing fails. All
//! memory is taken before the first step. Of two calls, `law_of_next_runs` says that the second goes on over what the
//! first left, if it reads what that wrote; and `law_of_two_stored_runs` what the kernel, or a program, sees of two
//! runs alone.
//!
//! No body changes `law_of_next_runs`. These changed definitions were tried on a copy, and with neither of them did its
//! proof go through: the second call names the counter that the first one read; the file NEW is the one of before the
//! call.
#![tactic(auto)]

mod command;
mod files;
mod laws;
mod place;
mod prepare;
mod run;

pub use command::store_command;
pub use laws::{law_of_next_runs, law_of_two_stored_runs};
