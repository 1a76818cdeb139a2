//! Where a program's question leads, by the tables of a hart.
ghost use Rattle.std.specs.Prelude.{◌≡◌, ◌≤◌, ◌<◌, length};
ghost use Rattle.draw_command.specs.Doing as spec;

use cloak_base::{Kind, Mode, frame_of, is_in_frames, place_of};
use cloak_model::word_in;
use host_calls::Hart;
use sv32_walk::{WordMemory, walk};

/// Frames as the kernel sees them.
#[derive(Drop)]
struct SeenFrames<'f> {
    frames: &'f [[u8; 4096]],
    ghost few: { length frames.now ≤ 4096 },
}

#[tactic(auto, unfolding(cloak_model::specs::Ask::ask_word))]
impl<'f> WordMemory for SeenFrames<'f> {
    ghost use Rattle.std.specs.Prelude.{[]};
    ghost use Rattle.cloak_model.specs.World.{Flat};

    ghost stands_for = { λ first side w. w ≡ Flat (record { ram = side.frames.now; marks = [] }) };

    ghost kept = { λ first side. Unit {0} };

    fn word(&mut self, pa: u64) -> Option<u32> {
        if !is_in_frames(self.frames.len() as u32, pa) {
            return None;
        }
        let pa = pa as u32;
        Some(word_in(&self.frames[frame_of(pa).0 as usize], place_of(pa)))
    }
}

/// The frame that an address of a program leads to, on a hart, for an access.
pub fn frame_led(frames: &[[u8; 4096]], hart: &Hart, address: u32, kind: Kind) -> Option<u32>
    requires { length frames.now ≤ 4096 }
{
    let mut memory = SeenFrames { frames };
    let csrs = &hart.csrs;
    match walk(
        csrs.satp(),
        Mode::U,
        csrs.sum(),
        csrs.mxr(),
        address,
        kind,
        &mut memory,
    ) {
        Ok(walked) => {
            if is_in_frames(frames.len() as u32, walked.pa) {
                Some(frame_of(walked.pa as u32).0)
            } else {
                None
            }
        }
        Err(_) => None,
    }
}

/// The byte at a place of a frame, counted from another place, differs from that of a value.
fn differs_at(bytes: &[u8; 4096], place: usize, value: u32, i: usize) -> bool
    requires inside { place < 4096 }
    requires byte { i < 4 }
    ensures { result ≡ spec.differs_at bytes.now place value i }
{
    let was = value.to_le_bytes()[i];
    match bytes.get(place + i) {
        Some(now) => *now != was,
        None => false,
    }
}

/// The bytes from a place of a frame on differ from those of a value.
pub fn differs(bytes: &[u8; 4096], place: usize, width: u32, value: u32) -> bool
    requires { place < 4096 }
    ensures { result ≡ spec.differs bytes.now place width value }
{
    (0 < width && differs_at(bytes, place, value, 0))
        || ((1 < width && differs_at(bytes, place, value, 1))
            || ((2 < width && differs_at(bytes, place, value, 2))
                || (3 < width && differs_at(bytes, place, value, 3))))
}
