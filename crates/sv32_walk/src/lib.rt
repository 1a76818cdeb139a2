//! The page-table walk of Sv32 (RISC-V privileged manual, "Sv32: Page-Based 32-bit Virtual-Memory Systems",
//! as of version 1.12: A and D are not updated by hardware).
//!
//! `walk` reads one or two words of a memory, each when it reaches it, and returns the physical address with
//! the frames of the words that led to it, or the exact cause of the fault. The memory is anything that tells
//! words. What it stands for is a world of plain data, and the walk is the definition over whatever world that
//! is; over a memory whose words do not change it is the walk over the whole of memory.
//!
//! Nothing is cached: each walk reads the tables as they are.
#![tactic(auto)]

mod entry;
mod walk_levels;
mod words;

pub use cloak_model::{Access, Walked};
pub use walk_levels::walk;
pub use words::WordMemory;
