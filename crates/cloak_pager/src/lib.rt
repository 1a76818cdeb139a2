//! The pager: what each frame of RAM holds, and how a cloaked page comes into a frame and out of it.
//!
//! A frame is outside, or holds a cloaked page in plain text, unchanged or changed since it was last shown. The pager
//! keeps the frames, the right of each, the metadata of the pages that were shown, the keys and a count of the reads
//! of outside frames; beside them only an index of where each page is. There is no second copy of a page, and no plain
//! byte outside the frames. No call takes memory after the opening.
//!
//! The layer above may rely on this: for every memory that the pager stands for (`StandsForMemory`), each call returns
//! and does what the rules of cloaking tell of it, and the pager then stands for the result; `law_of_calls` says this
//! of every list of calls. The order in which frames are touched before an offer is up to the layer above. What
//! freezing and thawing a frame do is told of the pager alone (`specs/Freezing`): a pager with a frozen frame stands
//! for no memory that has the newest bytes of its page.
//!
//! No body changes `law_of_calls`. These changed definitions were tried on a copy, and with none of them did its
//! proof go through: a content that is restored need not be sealed; an offer may take a draw; a touch that finds no
//! draw loses no page; a reading is told also of a page whose newest bytes are lost.
#![tactic(auto)]

mod frame_right;
mod freezing;
mod keys;
mod law;
mod moves;
mod offering;
mod outside_bytes;
mod pager;
mod plain_bytes;
mod touching;
mod turning;

pub use frame_right::FrameRight;
pub use law::law_of_calls;
pub use offering::Offered;
pub use pager::Pager;
pub use touching::Touched;
