//! The words of a command line: what they ask for, or the first thing that is wrong with them.
//!
//! `specs/Command` is this project's own rule (`docs/MACHINE.md`, "Words"), over what `clap` says of a simple command. The
//! layer above may rely on this: `read_words` returns exactly what the words ask for, or has no memory to read them.
#![tactic(auto)]

mod command_name;
mod form;
mod found;
mod frozen_request;
mod generated_request;
mod number;
mod record_request;
mod request;
mod run_request;
mod store_request;
mod upgrade_request;
mod usage_fault;

pub use frozen_request::{FreezeFiles, FreezeRequest, ThawFiles, ThawRequest};
pub use generated_request::{DemoRequest, GenRequest};
pub use record_request::{OldFiles, RecordRequest, SoloOverRequest, SoloRequest};
pub use request::{Request, read_words};
pub use run_request::{Randomness, RunRequest, StatsRequest};
pub use store_request::{StoreFiles, StoreRequest};
pub use upgrade_request::UpgradeRequest;
pub use usage_fault::UsageFault;
