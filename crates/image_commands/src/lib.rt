//! The commands `gen` and `demo`, which make the image of a number, and `upgrade`, which writes an image again.
//!
//! The layer above may rely on this: `gen_command` writes the file of the image and shows its line, and `demo_command`
//! shows what the run of the image ends with, under the random stream of the same number, and asks nothing of files.
//! `upgrade_command` writes version 2 of a bundle and shows its line. Each returns its statuses as `specs/Generating`,
//! `specs/Demonstrating` and `specs/Upgrading` say.
#![tactic(auto)]

mod demonstrating;
mod generating;
mod upgrading;

pub use demonstrating::demo_command;
pub use generating::gen_command;
pub use upgrading::upgrade_command;
