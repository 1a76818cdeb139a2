//! What an earlier run left of its cloaked files, as commands read it: the secret file, and the store file under it.
//!
//! The layer above may rely on this: `read_secret` returns the secret that a file has, and `read_old` the table of a store
//! file under its code and this counter, each with its refusals by their causes (`specs/Reading`). With counter 0 there are
//! no files, and none is asked for.
#![tactic(auto)]

mod reading;
mod secret;

pub use reading::{read_old, read_secret};
pub use secret::Secret;
