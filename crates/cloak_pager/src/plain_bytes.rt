ghost use Rattle.std.specs.Prelude.{◌≡◌, ℕ, ◌<◌, ◌%◌};
ghost use Rattle.cloak_model.specs.Memory.{with_value_in};
ghost use Rattle.cloak_model.specs.Effect.{IsWidth};
ghost use Rattle.cloak_model.specs.Memory.{value_in};

use crate::frame_right::FrameRight;
use crate::pager::Pager;
use cloak_base::{Frame, PageId};
use cloak_model::{set_value_in, value_in};

impl Pager {
    ghost use Rattle.cloak_pager.specs.State.{held_in, owed_at, bytes_in};
    ghost use Rattle.cloak_pager.specs.Turns.{HasBytes};
    ghost use Rattle.cloak_pager.specs.Asking.{FollowsCallStill, after_write_plain, ReadsNewest};

    /// The `width` bytes at a place of the page as a number, from the frame that holds it. The contract alone
    /// names the page.
    #[inline(always)]
    pub fn read_plain(&self, q: PageId, f: Frame, at: u32, width: u32) -> u32
        requires held { held_in self.now f.0 ≡ Some q }
        requires width { IsWidth width }
        requires aligned { at % width ≡ 0 }
        requires within { at < 4096 }
        ensures value { result ≡ value_in (bytes_in self.now f.0) at width }
        ensures model { ReadsNewest self.now q at width result }
    {
        let held = &self.rights[f.0 as usize];
        if let FrameRight::Changed(right) = held {
            return value_in(self.frames.changed(right), at as usize, width);
        }
        match held {
            FrameRight::Clean(right) => value_in(self.frames.plain(right), at as usize, width),
            _ => unreachable!(),
        }
    }

    /// Stores the lowest `width` bytes of a value at a place of the page, in the frame that is owed it.
    #[inline(always)]
    pub fn write_plain(&mut self, q: PageId, f: Frame, at: u32, width: u32, v: u32)
        requires owed { owed_at self.old f.0 ≡ Some q }
        requires width { IsWidth width }
        requires aligned { at % width ≡ 0 }
        requires within { at < 4096 }
        ensures state { HasBytes self.old self.new f.0 (with_value_in (bytes_in self.old f.0) at width v) }
        ensures model { FollowsCallStill self.old self.new tt
            (after_write_plain q (record { at = at; width = width; value = v })) }
    {
        match &self.rights[f.0 as usize] {
            FrameRight::Changed(right) => set_value_in(
                self.frames.changed_mut(right),
                at as usize,
                width,
                v,
            ),
            _ => unreachable!(),
        }
    }
}
