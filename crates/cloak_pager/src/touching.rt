ghost use Rattle.std.specs.Prelude.{◌≡◌, ℕ, ◌<◌, length};
ghost use Rattle.cloak_base.specs.Random.{next_draw};

use crate::frame_right::FrameRight;
use crate::pager::Pager;
use cloak_base::Frame;
use io_traits::Stream;

/// What a touch did.
#[derive(Clone, Copy, Debug, PartialEq, Eq)]
pub enum Touched {
    /// The frame was outside.
    Quiet,
    /// It held a page unchanged, and shows the page's record again.
    Resealed,
    /// It held a page changed, and shows it under a new draw.
    Sealed,
    /// It held a page changed, no draw was left, and it shows zeros.
    Wiped,
}

impl Pager {
    ghost use Rattle.cloak_pager.specs.State.{right_at, owed_at};
    ghost use Rattle.cloak_pager.specs.Turns.{touched_by, left_by, TouchTurns, StaysBut, CloseTurns, IsClosed};
    ghost use Rattle.cloak_pager.specs.Asking.{FollowsCall, FollowsCallStill, after_touch, shown_by, after_close};

    /// Makes the frame outside. Inlined into its callers, since most frames are outside already.
    #[inline(always)]
    pub fn touch(&mut self, f: Frame, s: &mut Stream) -> Touched
        requires { f.0 < length self.old.frames }
        ensures exact_cause { result ≡ touched_by (right_at self.old f.0) (next_draw s.old) }
        ensures state { TouchTurns (right_at self.old f.0) (next_draw s.old) self.old self.new f.0 }
        ensures drawn { s.new ≡ left_by (right_at self.old f.0) (next_draw s.old) s.old }
        ensures outside { right_at self.new f.0 ≡ FrameRight.Outside f }
        ensures stays { StaysBut f.0 self.old self.new }
        ensures model { FollowsCall self.old s.old self.new s.new (shown_by result f.0 self.new) (after_touch f.0) }
    {
        match &self.rights[f.0 as usize] {
            FrameRight::Outside(_) => Touched::Quiet,
            FrameRight::Clean(_) => {
                self.reseal_frame(f);
                Touched::Resealed
            }
            FrameRight::Changed(_) => {
                match s.draw() {
                    Some(iv) => {
                        self.seal_frame(f, iv);
                        Touched::Sealed
                    }
                    None => {
                        self.wipe_frame(f);
                        Touched::Wiped
                    }
                }
            }
            FrameRight::Spent => unreachable!(),
        }
    }

    /// Makes a frame outside that is owed nothing.
    fn close_frame(&mut self, f: Frame)
        requires inside { f.0 < length self.old.frames }
        requires unowed { owed_at self.old f.0 ≡ None }
        ensures { CloseTurns (right_at self.old f.0) self.old self.new f.0 }
    {
        match &self.rights[f.0 as usize] {
            FrameRight::Outside(_) => {}
            FrameRight::Clean(_) => self.reseal_frame(f),
            _ => unreachable!(),
        }
    }

    /// Makes every frame outside. Frames that hold a page unchanged show its record again.
    pub fn close(&mut self)
        requires { (k : ℕ) → owed_at self.old k ≡ None }
        ensures state { IsClosed self.old self.new }
        ensures model { FollowsCallStill self.old self.new tt after_close }
    {
        for i in 0..self.rights.len() {
            self.close_frame(Frame(i as u32));
        }
    }
}
