//! Atomic accesses of the kernel, and the reservations of its harts.
ghost use Rattle.std.specs.Prelude.{◌≡◌, ◌%◌, IfOk, None, false};
ghost use Rattle.cloak_model.specs.Ask as ask;

use crate::side::Side;
use cloak_model::{Access, Emit};
use multi_shadow::Regime;

/// The word to which an access was led that is not cloaked.
#[derive(Clone, Copy)]
pub(crate) struct LedWord {
    /// Its address in RAM.
    pub pa: u32,
    pub word: u32,
}

/// Whether the word at this address is the one that is marked.
pub(crate) fn is_reserved(mark: Option<u32>, pa: u32) -> bool
    ensures { result ≡ ask.is_reserved pa mark }
{
    match mark {
        None => false,
        Some(marked) => marked == pa,
    }
}

impl<'m, 'e, E: Emit> Side<'m, 'e, E> {
    ghost use Rattle.cloak_model.specs.Asking.{FollowsFrom, Keeps};
    ghost use Rattle.cloak_model.specs.World.{World, is_clashed};
    ghost use Rattle.cloaked_side.specs.Atomic.{ask_led_word};
    ghost use Rattle.cloaked_side.specs.Holding.{IsValueOutside, frames_of};
    ghost use Rattle.cloaked_side.specs.Seeing.{Sees, FollowsAlways, StaysWithin, space_in};

    /// The word to which an access of the kernel leads, or the cause of its fault. Its frame is settled then.
    pub(crate) fn led_word(&mut self, satp: u32, access: Access) -> Result<LedWord, u32>
        requires aligned { access.va % 4 ≡ 0 }
        ensures follows { (first : _) (w : World) → Sees E.gave first self.old w → space_in self.old.regime ≡ None →
            is_clashed (ask.ask_led satp access w).world ≡ false →
            FollowsFrom (Sees E.gave first) self.new result (ask_led_word satp access w) }
        ensures keeps { Keeps (StaysWithin E.gave) self.old self.new }
        ensures same_count { frames_of self.new.memory.now ≡ frames_of self.old.memory.now }
        ensures value { IfOk result (λ led. IsValueOutside self.new.memory.now led.pa 4) }
    {
        let regime = Regime::Outside {
            satp,
            mode: access.mode,
            sum: access.sum,
            mxr: access.mxr,
        };
        match self.led(&regime, access.va, access.kind, None) {
            Err(cause) => Err(cause),
            Ok(led) => {
                self.settle_led(&regime, access.va, access.kind, &led);
                let word = self.read_settled(led.pa, 4);
                Ok(LedWord { pa: led.pa, word })
            }
        }
    }

    /// A hart reserves the word at this address.
    pub(crate) fn reserve_word(&mut self, hart: u32, pa: u32)
        ensures told { FollowsAlways E.gave self.old self.new tt (ask.ask_mark hart pa) }
        ensures keeps { Keeps (StaysWithin E.gave) self.old self.new }
        ensures same_count { frames_of self.new.memory.now ≡ frames_of self.old.memory.now }
    {
        self.memory.reservations.mark(hart, pa);
    }

    /// A hart has no reservation any more.
    pub(crate) fn release(&mut self, hart: u32)
        ensures told { FollowsAlways E.gave self.old self.new tt (ask.ask_unmark hart) }
        ensures keeps { Keeps (StaysWithin E.gave) self.old self.new }
        ensures same_count { frames_of self.new.memory.now ≡ frames_of self.old.memory.now }
    {
        self.memory.reservations.unmark(hart);
    }

    /// Stores a word in an outside frame, if a hart has reserved that word. Whether it was stored; the hart's
    /// reservation ends either way.
    pub(crate) fn write_if(&mut self, reserved: bool, hart: u32, pa: u32, v: u32) -> bool
        requires value { IsValueOutside self.old.memory.now pa 4 }
        ensures told { FollowsAlways E.gave self.old self.new result (ask.stored_if reserved hart pa v) }
        ensures keeps { Keeps (StaysWithin E.gave) self.old self.new }
        ensures same_count { frames_of self.new.memory.now ≡ frames_of self.old.memory.now }
    {
        if !reserved {
            self.release(hart);
            return false;
        }
        self.write_settled(pa, 4, v);
        self.release(hart);
        true
    }
}
