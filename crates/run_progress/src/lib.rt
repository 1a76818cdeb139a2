//! A long run tells how far it is, on standard error, while it is made.
//!
//! `WatchedFiles` is a disk that does what another one does, which is proved, and says of each piece that is written
//! that it was. A run gathers its record and writes it out in pieces of 64 KiB, so nothing is done at a step: a
//! `Progress` looks at the clock at each such piece, and finds in it the number of the last step. It tells after one
//! second, and then each time when twice as long has gone by, so that a long run has few lines. What it tells is in no
//! clause.
#![tactic(auto)]

mod piece;
mod progress;
mod watched_files;

pub use piece::last_step;
pub use progress::Progress;
pub use watched_files::{Watch, WatchedFiles};
