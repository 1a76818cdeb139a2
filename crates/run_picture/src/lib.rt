//! The picture of a run as a text in SVG, of what is kept of the run (`run_notes`).
//!
//! `draw` puts rows one below another on a `Canvas`: harts, frames, the disk and the console, with a title and a legend. If
//! there are more elements than a picture has room for, it does so again with wider columns.
//!
//! The layer above may rely on this: each text that `draw` returns is a picture (`svg_text`): well-formed, with at most
//! 2,000 elements. What is told in words is what `specs/Words` says. That each note comes to its place is tested, and no clause
//! says it.
#![tactic(auto)]

mod bars;
mod canvas;
mod console;
mod drawing;
mod glyphs;
mod harts;
mod head;
mod names;
mod sentences;
mod style;

pub use drawing::{Picture, RecordEnd, draw};
