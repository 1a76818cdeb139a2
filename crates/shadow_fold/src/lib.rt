//! Shadow page tables as a matter of definitions: translations that are known, so that a hit needs no walk, which
//! events of a run end them, and what is counted.
//!
//! No body changes a law, so there is no wrong body of one to refuse here. These changed definitions were tried on a
//! copy, and with none of them did the proof of its law go through. Of following: an offer ends no entry of another
//! frame that held the page; the settling of a frame ends no entry; all entries stay when a new one finds no room. Of
//! agreement: an entry becomes live that need not agree; the entries stay that are to end, and the others end; what is
//! found is for the next page. Of the rows: each access counts as a miss; each count rises by two; kinds are not told
//! apart.
#![tactic(auto)]

mod entry;
mod laws;

pub use entry::{Entry, Regime, ShadowCounts};
pub use laws::{law_of_agreement, law_of_following, rows_of_counts};
