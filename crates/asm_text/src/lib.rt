//! Assembler texts as people write them: the flat bytes of a text's words, or its fault told by its line and in words.
//!
//! The layer above may rely on this: `assembled` returns exactly the bytes of the words that a text is assembled to, or
//! its first fault; a `FaultyText` shows exactly what `specs/Telling` says of it. `asm_command` is the command `asm`.
//! What it shares with other commands that make a file of what they read is `conclude`, with `specs/Making`.
#![tactic(auto)]

mod assembling;
mod command;
mod fault;
mod making;
mod telling;

pub use assembling::assembled;
pub use command::asm_command;
pub use fault::TextFault;
pub use making::{Reason, conclude, reason_of};
pub use telling::{FaultyText, shown_text};
