//! Why there is no story.

use read_back::Ending;

/// Why there is no story.
#[derive(Clone, Copy)]
pub enum Untold {
    /// The record is none, or does not fit, or could not be read.
    Ended(Ending),
    NoMemory,
}
