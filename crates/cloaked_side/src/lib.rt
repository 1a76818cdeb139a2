//! What the step of a hart reaches in a machine with cloaked programs: its memory over the pager, and the emitter.
//!
//! `Memory` settles frames and offers pages, and emits what the kernel is shown on the way. A `Side` is made of it for
//! one step. It answers what the plain step asks (`WordMemory` of `sv32_walk`, `Ram` of `host_calls`), each time
//! settling the frame first. A `ProgramSide` is a side with the regime of a context. It answers what the step of a
//! cloaked program asks (`PageSide` of `cloak_model`), and writes each answer. Whatever writes what the kernel sees
//! ends the reservations of words that it wrote; a page that is sealed again as it was last shown was not written. A
//! side holds no page and copies none. `outside_step` is the plain step over it, `end_pages` the end of a domain's
//! pages.
//!
//! The layer above may rely on this: for every joint world that a side stands for (`specs/Seeing`), each call returns
//! what the definition tells, the emitter was given exactly the items that the world has written since, and the side
//! then stands for the next world; an offer unless two different pages with one digest were compared. Whatever it
//! stands for, its memory and emitter are still the ones that it was made of, the counts of frames and domains stay,
//! and no frame comes to hold a page of a domain other than the one that is served.
#![tactic(auto)]

mod atomic;
mod clearing;
mod ending;
mod inside;
mod leading;
mod memory;
mod outside;
mod program_side;
mod side;

pub use ending::end_pages;
pub use memory::Memory;
pub use outside::outside_step;
pub use program_side::{ProgramSide, regime_inside, regime_of};
pub use side::{OUTSIDE, Side};
