//! The record of a run, `CLOAKREC` and items (`cloak_model`, `specs/Exchange`): its items in bytes.
//!
//! The layer above may rely on this: `write_item` writes exactly the bytes of an item, at most `LONGEST`, into a buffer of
//! the caller, and copies a page once. Of the most frequent items the bytes are made apart.
#![tactic(auto)]

mod item_bytes;

pub use item_bytes::{LONGEST, ok_bytes, step_bytes, word_bytes, write_item};
