//! What all commands of the program share: the statuses, the reasons for which a command does nothing but show one line, the
//! bytes of files, the bundle that a file is, a file that is written whole, and how a program ends.
//!
//! The layer above may rely on this: `read_bundle` returns the bundle of a file or its first fault, `refuse` shows
//! exactly the line of a reason and returns its status, and `specs/NoRun` says which cause each reason has. `write_out`
//! returns a status only if what was gathered is written out (`specs/Exiting`).
#![tactic(auto)]

mod bundle;
mod files;
mod refusal;
mod status;
mod writing;

pub use bundle::{read_bundle, read_bundle_with_bytes};
pub use files::read_front;
pub use refusal::{Refusal, refuse, show_decimal, show_numbered};
pub use status::Status;
pub use writing::{write_file, write_out};
