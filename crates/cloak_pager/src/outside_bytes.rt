ghost use Rattle.std.specs.Prelude.{◌≡◌, ◌<◌, ◌%◌, length};
ghost use Rattle.std.specs.Borrow.{sem};
ghost use Rattle.cloak_model.specs.Memory.{with_value_in};
ghost use Rattle.cloak_model.specs.Effect.{IsWidth};

use crate::frame_right::FrameRight;
use crate::pager::Pager;
use cloak_base::Frame;
use cloak_model::set_value_in;

impl Pager {
    ghost use Rattle.cloak_pager.specs.State.{held_in, bytes_in};
    ghost use Rattle.cloak_pager.specs.Turns.{HasBytes};
    ghost use Rattle.cloak_pager.specs.Lending.{CountsRead};
    ghost use Rattle.cloak_pager.specs.Asking.{FollowsCallStill, SeesFrame, after_write_outside, after_fill_outside};

    /// The bytes that the kernel sees in the frame. Counts one read.
    pub fn read_outside(&mut self, f: Frame) -> &[u8; 4096]
        requires inside { f.0 < length self.old.frames }
        requires outside { held_in self.old f.0 ≡ None }
        ensures* counted { sem 𝓛 (CountsRead self.entry) }
        ensures value { result.now ≡ bytes_in self.old f.0 }
        ensures model { SeesFrame self.old f.0 result.now }
    {
        if self.reads < u64::MAX {
            self.reads += 1;
        }
        match &self.rights[f.0 as usize] {
            FrameRight::Outside(right) => self.frames.outside(right),
            _ => unreachable!(),
        }
    }

    /// Stores the lowest `width` bytes of a value at a place of the frame.
    pub fn write_outside(&mut self, f: Frame, at: u32, width: u32, v: u32)
        requires inside { f.0 < length self.old.frames }
        requires outside { held_in self.old f.0 ≡ None }
        requires width { IsWidth width }
        requires aligned { at % width ≡ 0 }
        requires within { at < 4096 }
        ensures state { HasBytes self.old self.new f.0 (with_value_in (bytes_in self.old f.0) at width v) }
        ensures model { FollowsCallStill self.old self.new tt
            (after_write_outside f.0 (record { at = at; width = width; value = v })) }
    {
        match &self.rights[f.0 as usize] {
            FrameRight::Outside(right) => set_value_in(
                self.frames.outside_mut(right),
                at as usize,
                width,
                v,
            ),
            _ => unreachable!(),
        }
    }

    /// Stores a whole page in the frame.
    pub fn fill_outside(&mut self, f: Frame, b: &[u8; 4096])
        requires inside { f.0 < length self.old.frames }
        requires outside { held_in self.old f.0 ≡ None }
        ensures state { HasBytes self.old self.new f.0 b.now }
        ensures model { FollowsCallStill self.old self.new tt (after_fill_outside f.0 b.now) }
    {
        match &self.rights[f.0 as usize] {
            FrameRight::Outside(right) => *self.frames.outside_mut(right) = *b,
            _ => unreachable!(),
        }
    }
}
