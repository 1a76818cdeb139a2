//! What a hart outside is about to do.
ghost use Rattle.std.specs.Prelude.{◌≡◌, ◌≤◌, length};
ghost use Rattle.step_lines.specs.Ahead as spec;

use crate::memory::{led, value_there};
use crate::reach::{MemoryReach, reach_of};
use crate::sight::{HartSight, sight_of};
use cloak_base::Kind;
use host_calls::Hart;

/// What an instruction reaches in RAM.
#[derive(Clone, Copy)]
pub struct ReachedMemory {
    pub is_store: bool,
    pub address: u32,
    /// The address in RAM to which this leads.
    pub place: u32,
    /// How many bytes.
    pub width: u32,
    /// What stands there before the step.
    pub value: u32,
}

/// A hart outside before its step.
#[derive(Clone, Copy)]
pub struct HartAhead {
    pub sight: HartSight,
    /// The word at its program counter, if one can be fetched.
    pub word: Option<u32>,
    /// What the instruction reaches in RAM.
    pub reached: Option<ReachedMemory>,
}

/// The kind of an access.
fn reach_kind(r: &MemoryReach) -> Kind
    ensures { result ≡ spec.reach_kind r.now }
{
    if r.is_store { Kind::Store } else { Kind::Load }
}

/// What an access reaches.
fn reached_by(frames: &[[u8; 4096]], h: &Hart, r: &MemoryReach) -> Option<ReachedMemory>
    requires { length frames.now ≤ 4096 }
    ensures { result ≡ spec.reached_by frames.now h.now r.now }
{
    match led(frames, h, reach_kind(r), r.address) {
        None => None,
        Some(place) => Some(ReachedMemory {
            is_store: r.is_store,
            address: r.address,
            place,
            width: r.width,
            value: value_there(frames, place, r.width),
        }),
    }
}

/// What the instruction of a word reaches.
fn reached_of(frames: &[[u8; 4096]], h: &Hart, word: Option<u32>) -> Option<ReachedMemory>
    requires { length frames.now ≤ 4096 }
    ensures { result ≡ spec.reached_if frames.now h.now word }
{
    match word {
        None => None,
        Some(word) => match reach_of(&h.regs, h.pc, word) {
            None => None,
            Some(r) => reached_by(frames, h, &r),
        },
    }
}

/// The word at the program counter, if one can be fetched.
fn word_ahead(frames: &[[u8; 4096]], h: &Hart) -> Option<u32>
    requires { length frames.now ≤ 4096 }
    ensures { result ≡ spec.word_ahead frames.now h.now }
{
    match led(frames, h, Kind::Fetch, h.pc) {
        None => None,
        Some(place) => Some(value_there(frames, place, 4)),
    }
}

/// What a hart outside is about to do, over the frames as the kernel sees them.
pub fn look_ahead(frames: &[[u8; 4096]], h: &Hart) -> HartAhead
    requires { length frames.now ≤ 4096 }
    ensures { result ≡ spec.ahead_of frames.now h.now }
{
    let word = word_ahead(frames, h);
    HartAhead {
        sight: sight_of(h),
        word,
        reached: reached_of(frames, h, word),
    }
}
