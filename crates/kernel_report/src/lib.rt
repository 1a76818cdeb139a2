//! The kernel's lines of the report, and what they are made of: the console with its digest (`Console`), and texts that
//! are put to a sink one after another, up to the first that fails (`lines`).
//!
//! `KernelLines` is what the lines of console, memory, disk and harts say, and `put_kernel` puts them. A `Console` keeps
//! the digest and the count of what it was shown, and not the bytes: `ConsoleShows` relates it to them. What a put
//! ensures is `PutsMore`: after whatever was put so far, this text was put too, unless something failed before; so
//! the contracts of texts that are put in a row add up (`proofs/PutFacts`, `then`). `proofs/KernelSaid` says that lines
//! which say what a part of the kernel is are the `kernel_lines` of the definitions.
#![tactic(auto)]

mod console;
mod kernel;
pub mod lines;

pub use console::Console;
pub use kernel::{KernelLines, put_kernel};
