ghost use Rattle.std.specs.Prelude.{◌≡◌, ◌≤◌, ◌<◌, IsTrue};
ghost use Rattle.cloak_base.specs.Constants as spec;

use crate::names::Frame;

/// The physical address where RAM begins.
pub const RAM_START: u32 = 0x8000_0000;

/// The address where a hart that runs a context waits in U mode.
pub const TRAMPOLINE: u32 = 0x0000_1000;

/// The cause of the timer interrupt (RISC-V privileged manual, scause).
pub const TIMER_CAUSE: u32 = 0x8000_0005;

/// The number of the hypercall EXIT, which an ending shows, too.
pub const EXIT: u32 = 0x4f56_0007;

/// The bytes of the largest file of an image.
pub const LARGEST_BUNDLE: u32 = 67_108_864;

/// The physical address after the last byte of RAM.
pub fn ram_end(frames: u32) -> u64
    ensures { result ≡ spec.ram_end frames }
{
    RAM_START as u64 + 4096 * frames as u64
}

/// The frame of a physical address in RAM; of one below it frame 0.
#[inline]
pub fn frame_of(pa: u32) -> Frame
    ensures { result.0 ≡ spec.frame_of pa }
{
    Frame(pa.saturating_sub(RAM_START) / 4096)
}

/// The place of a physical address in its frame, in bytes; of one below RAM 0.
#[inline]
pub fn place_of(pa: u32) -> usize
    ensures value { result ≡ spec.place_of pa }
    ensures inside { result < 4096 }
{
    (pa.saturating_sub(RAM_START) % 4096) as usize
}

/// The physical address lies in RAM of this many frames.
#[inline]
pub fn is_in_frames(frames: u32, pa: u64) -> bool
    ensures value { result ≡ spec.is_in_frames frames pa }
    ensures low { IsTrue result → spec.ram_start ≤ pa }
    ensures high { IsTrue result → pa < spec.ram_end frames }
{
    pa >= RAM_START as u64 && (pa - RAM_START as u64) / 4096 < frames as u64
}
