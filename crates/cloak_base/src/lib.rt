//! The names that every part of the machine and its monitor shares: frames, harts, contexts, pages
//! and spaces, the modes of a hart and the kinds of an access, what ends a run, what a hart shows as
//! it leaves a context, the registers of a hart, and the value of a random stream with its next draw.
//!
//! Nothing here decides anything. The numbers are those of the bundle and the report; a physical
//! address is `RAM_START + 4096 * frame + offset`.
#![tactic(auto)]

mod causes;
mod constants;
mod names;
mod registers;

pub use causes::{Failed, NoMemory, Shown, Stop, Violation};
pub use constants::{
    EXIT, LARGEST_BUNDLE, RAM_START, TIMER_CAUSE, TRAMPOLINE, frame_of, is_in_frames, place_of,
    ram_end,
};
pub use names::{CtxId, Frame, HartId, Kind, Meta, Mode, PageId, SpaceId, Start};
pub use registers::Regs;
