//! A run as it is made again from its image and its record.
//!
//! The record has neither the kernel's own steps nor the page that a frame holds. Both follow from it: the kernel alone makes
//! its steps again, and each program alone tells the page of each of its questions (`alone_views`). `Machines` is the kernel
//! and the programs, each alone. `Watch` is the run with what is noted of it: which step is open, what is told of contexts and
//! of the page tables of spaces, for which context a hart asked (`specs/Noted`), what the program asked for in the step
//! (`specs/Questions`), and which page each frame holds, with what was last shown of each page (`specs/PagesTold`).
//!
//! The layer above may rely on this: `take` tells whether an item fits the kernel alone and each program alone, or the step at
//! which it does not fit one of them. After items that fit, the machines stand for what the definitions make of these items,
//! and notes, questions and pages are those of the definitions. `take` also returns what the item shows of a page, by the
//! definition.
#![tactic(auto)]

mod contexts;
mod frames;
mod machines;
mod notes;
mod pages;
mod questions;
mod silent;
mod watch;

pub use contexts::{FirstTable, ToldContext, ToldContexts};
pub use frames::{DiskCall, PresentedPage, Tables, disk_call, frame_at, tables_of};
pub use machines::{HartWords, Machines, StandingContext};
pub use notes::{Asking, Notes};
pub use pages::{Pages, Showing};
pub use questions::Questions;
pub use watch::Watch;
