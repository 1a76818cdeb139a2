//! Guest images whose kernels attack the programs that they run, or keep the rules of cloaking and watch.
//!
//! `hostile` makes the image of a number as `specs/Images` says: kernels and programs are tables of words, with frames,
//! harts, page tables and blocks around them. The layer above may rely on this: the bundle is the one of its number,
//! it is in the grammar of bundles, and its file of version 2 is not too large.
//!
//! Each image has a file in `images`, with the assembler text of each table beside it. That the assembler makes the
//! table of its text is tested. What each image does when it runs `.ci/hostile` tries, and `docs/HOSTILE.md` tells.
#![tactic(auto)]

mod draft;
mod images;
mod making;
mod shared;

pub use images::IMAGES;
pub use making::hostile;

#[cfg(test)]
mod tests;
