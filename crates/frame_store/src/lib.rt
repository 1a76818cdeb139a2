//! The frames of RAM, and one right for each.
//!
//! A frame is shown to the outside, holds a cloaked page as it was last shown (clean), or holds newer bytes of a page
//! (changed). Its right says which, and a reader or writer asks for the right of its kind. Opening makes one right for
//! each frame; each transition takes the right by value and returns the next one, and nothing else makes a right,
//! copies one or changes what it names. So whoever holds a right holds the only one of its frame.
//!
//! The layer above may rely on this: a transition replaces all 4096 bytes of its frame and leaves every other frame,
//! and no call takes memory after the opening. Which bytes belong there is not a matter of this crate.
#![tactic(auto)]

mod rights;

pub use rights::{ChangedRight, CleanRight, FrameStore, OutsideRight, promote};
