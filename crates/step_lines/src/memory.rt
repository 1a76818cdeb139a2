//! Frames that are only read: walks by page tables, and values.
ghost use Rattle.std.specs.Prelude.{◌≡◌, ◌≤◌, true, length};
ghost use Rattle.cloak_base.specs.Constants.{is_in_frames};
ghost use Rattle.cloak_model.specs.Csr as csrs;
ghost use Rattle.cloak_model.specs.Effect.{IsWidth, is_width};
ghost use Rattle.cloak_model.specs.KernelStep.{access};
ghost use Rattle.step_lines.specs.Leading as spec;

use cloak_base::{Kind, frame_of, is_in_frames, place_of};
use cloak_model::{Access, value_in, word_in};
use host_calls::Hart;
use sv32_walk::{WordMemory, walk};

/// Frames as the kernel sees them.
#[derive(Drop)]
struct SeenFrames<'f> {
    frames: &'f [[u8; 4096]],
    ghost few: { length frames.now ≤ 4096 },
}

/// The address lies in RAM.
fn is_inside(frames: &[[u8; 4096]], pa: u64) -> bool
    requires { length frames.now ≤ 4096 }
    ensures { result ≡ is_in_frames (length frames.now) pa }
{
    is_in_frames(frames.len() as u32, pa)
}

#[tactic(auto, unfolding(cloak_model::specs::Ask::ask_word))]
impl<'f> WordMemory for SeenFrames<'f> {
    ghost use Rattle.std.specs.Prelude.{[]};
    ghost use Rattle.cloak_model.specs.World.{Flat};

    ghost stands_for = { λ first side w. w ≡ Flat (record { ram = side.frames.now; marks = [] }) };

    ghost kept = { λ first side. Unit {0} };

    fn word(&mut self, pa: u64) -> Option<u32> {
        if !is_inside(self.frames, pa) {
            return None;
        }
        let pa = pa as u32;
        Some(word_in(&self.frames[frame_of(pa).0 as usize], place_of(pa)))
    }
}

/// The address in RAM where an access leads by the tables of this `satp`, if it leads there.
fn led_by(frames: &[[u8; 4096]], satp: u32, a: &Access) -> Option<u32>
    requires { length frames.now ≤ 4096 }
    ensures { result ≡ spec.led_by frames.now satp a.now }
{
    let mut memory = SeenFrames { frames };
    match walk(satp, a.mode, a.sum, a.mxr, a.va, a.kind, &mut memory) {
        Err(_) => None,
        Ok(walked) => {
            if is_inside(frames, walked.pa) {
                Some(walked.pa as u32)
            } else {
                None
            }
        }
    }
}

/// An access of a hart.
fn access_of(h: &Hart, kind: Kind, va: u32) -> Access
    ensures { result ≡ access h.now kind va }
{
    Access {
        mode: h.mode,
        sum: h.csrs.sum(),
        mxr: h.csrs.mxr(),
        va,
        kind,
    }
}

/// `satp` of a hart.
fn satp_of(h: &Hart) -> u32
    ensures { result ≡ csrs.satp_of h.now.csrs }
{
    h.csrs.satp()
}

/// The address in RAM where an access of a hart leads, if it leads there.
pub fn led(frames: &[[u8; 4096]], h: &Hart, kind: Kind, va: u32) -> Option<u32>
    requires { length frames.now ≤ 4096 }
    ensures { result ≡ spec.led frames.now h.now kind va }
{
    let satp = satp_of(h);
    let a = access_of(h, kind, va);
    led_by(frames, satp, &a)
}

/// An access has this width.
pub fn is_width(width: u32) -> bool
    ensures value { result ≡ is_width width }
    ensures width { result ≡ true → IsWidth width }
{
    matches!(width, 1 | 2 | 4)
}

/// The value of so many bytes at an address of RAM that is a multiple of their count; 0 if there is none.
pub fn value_there(frames: &[[u8; 4096]], pa: u32, width: u32) -> u32
    requires { length frames.now ≤ 4096 }
    ensures { result ≡ spec.value_there frames.now pa width }
{
    if is_width(width) && (is_inside(frames, pa as u64) && pa % width == 0) {
        value_in(&frames[frame_of(pa).0 as usize], place_of(pa), width)
    } else {
        0
    }
}
