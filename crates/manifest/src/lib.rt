//! The manifest of a guest image: a TOML document that says what stands where, and the bundle that it means.
//!
//! What a manifest means is `specs/Images`: a bundle, or a first fault. The layer above may rely on this:
//! `pack_command` writes exactly the file of version 2 of the bundle that a manifest means, or shows its first fault:
//! the table, the key, and what is wrong there.
#![tactic(auto)]

mod disk;
mod fault;
mod fields;
mod image;
mod kernel;
mod key;
mod loading;
mod pack;
mod programs;
mod room;
mod segments;
mod sources;
mod telling;

pub use fault::{FaultyKey, KeyFault, PackError, PackFault};
pub use key::{Key, ManifestTable};
pub use pack::pack_command;
