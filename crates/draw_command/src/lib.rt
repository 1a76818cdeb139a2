//! The command `draw`: one picture of a run in SVG, from its image and its record alone.
//!
//! The items of the record go one after another to the kernel alone and to each program alone (`alone_views`), and what they
//! tell is noted (`run_notes`). A fork, and the end of a space, are told from the contexts of a program before and after an
//! item. The record is read twice: first for what is drawn, then to draw it.
//!
//! The layer above may rely on this: `draw_command` returns the status that the files and the output make (`specs/Drawing`): that
//! of the record as `view` has it, or of what failed. What it writes is a picture (`svg_text`), for every record: one
//! that does not fit, or is none, is drawn as far as it does. It changes no other file. Which items of a program fit
//! changes the picture, and not the status.
#![tactic(auto)]

mod command;
mod ear;
mod frames;
mod reading;
mod run;
mod spaces;

pub use command::draw_command;
