//! The words of the tools' command line, read by `clap`: what they ask for, or the text that says what is wrong with them,
//! or help.
//!
//! `specs/ToolCommand` says what is asked, over what `clap` says of a simple command. The layer above may rely on this:
//! `read_tool_words` returns exactly what the words ask for, and a text exactly if `clap` finds a fault in them.
#![tactic(auto)]

mod form;
mod found;
mod reading;
mod request;

pub use reading::read_tool_words;
pub use request::{DisasmRequest, OldNamed, ShowRequest, ToolRequest, ToolWords, TraceRequest};
