ghost use Rattle.std.specs.Prelude.{◌≡◌, ◌<◌, length, is_some};

use crate::atomic::is_reserved;
use crate::memory::Memory;
use cloak_base::{Frame, Mode, Violation, frame_of, place_of};
use cloak_model::{Access, Emit, value_in};
use host_calls::Ram;
use multi_shadow::Regime;
use rv_atomic::{AtomicOp, combine};
use sv32_walk::WordMemory;

/// What the step of a hart reaches: memory, and the emitter of what it writes.
#[derive(Drop)]
pub struct Side<'m, 'e, E: Emit> {
    pub memory: &'m mut Memory,
    pub emitter: &'e mut E,
    /// What the kernel presented in place of what is recorded.
    pub violation: Option<Violation>,
    /// The domain of the context that asks, or that ends; 0 outside.
    pub domain: u8,
    /// Who translates for the context that asks, or `OUTSIDE`.
    pub regime: Regime,
}

/// The regime of a side for no context. It translates nothing: each access of the kernel says how it is translated.
pub const OUTSIDE: Regime = Regime::Outside {
    satp: 0,
    mode: Mode::S,
    sum: false,
    mxr: false,
};

impl<'m, 'e, E: Emit> Side<'m, 'e, E> {
    ghost use Rattle.cloak_model.specs.World.{settled};
    ghost use Rattle.cloak_model.specs.Asking.{Keeps};
    ghost use Rattle.cloak_pager.specs.State.{held_in};
    ghost use Rattle.cloak_model.specs.Cloaking.{CloakedMemory, settle};
    ghost use Rattle.cloaked_side.specs.Holding.{Holds, Settles, IsValueOutside, frames_of};
    ghost use Rattle.cloaked_side.specs.Seeing.{Becomes, FollowsAlways, StaysWithin};
    ghost use Rattle.cloaked_side.specs.Tracking.{TracksBy, spent_in};
    ghost use Rattle.shadow_fold.specs.Reads.{Spends};
    ghost use Rattle.shadow_fold.specs.Fold.{frame, touched};
    ghost use Rattle.shadow_fold.specs.Following.{killed_if};
    ghost use Rattle.cloak_model.specs.Ask.{shown_value, stored_value};

    /// Settles a frame.
    #[inline(always)]
    pub fn settle(&mut self, f: Frame)
        requires { f.0 < frames_of self.old.memory.now }
        ensures sees { Becomes E.gave self.old self.new (settled f.0) }
        ensures keeps { Keeps (StaysWithin E.gave) self.old self.new }
        ensures same_count { frames_of self.new.memory.now ≡ frames_of self.old.memory.now }
        ensures outside { held_in self.new.memory.now.pager f.0 ≡ None }
        ensures ends { self.new.memory.now.shadows ≡ killed_if (is_some (held_in self.old.memory.now.pager f.0)) (frame f.0)
            self.old.memory.now.shadows }
        ensures counting { self.new.memory.now.counting ≡ self.old.memory.now.counting }
        ensures tracks { TracksBy self.old.memory.now self.new.memory.now (touched (frame f.0)) }
        ensures spends { (m : CloakedMemory) → Holds self.old.memory.now m →
            Spends 0 (length (settle f.0 m).ciphers) (spent_in self.old.memory.now) (spent_in self.new.memory.now) }
        ensures settles { (m : CloakedMemory) → Holds self.old.memory.now m →
            Settles E.gave self.old.emitter.now self.new.emitter.now self.new.memory.now (settle f.0 m) }
        ensures violation { self.new.violation ≡ self.old.violation }
        ensures domain { self.new.domain ≡ self.old.domain }
        ensures regime { self.new.regime ≡ self.old.regime }
    {
        self.memory.settle(f, self.emitter);
    }

    /// The value at an address in an outside frame.
    pub(crate) fn read_settled(&mut self, pa: u32, width: u32) -> u32
        requires value { IsValueOutside self.old.memory.now pa width }
        ensures told { FollowsAlways E.gave self.old self.new result (shown_value pa width) }
        ensures keeps { Keeps (StaysWithin E.gave) self.old self.new }
        ensures same_count { frames_of self.new.memory.now ≡ frames_of self.old.memory.now }
    {
        value_in(
            self.memory.pager.read_outside(frame_of(pa)),
            place_of(pa),
            width,
        )
    }

    /// Stores the lowest bytes of a word at an address in an outside frame. Translations through the frame end, and so
    /// do reservations of the word.
    pub(crate) fn write_settled(&mut self, pa: u32, width: u32, v: u32)
        requires value { IsValueOutside self.old.memory.now pa width }
        ensures told { FollowsAlways E.gave self.old self.new tt (stored_value pa width v) }
        ensures keeps { Keeps (StaysWithin E.gave) self.old self.new }
        ensures regime { self.new.regime ≡ self.old.regime }
        ensures same_count { frames_of self.new.memory.now ≡ frames_of self.old.memory.now }
    {
        let f = frame_of(pa);
        self.memory.reservations.word_written(pa);
        self.memory
            .pager
            .write_outside(f, place_of(pa) as u32, width, v);
        self.memory.shadows.kill_dependents(f);
    }
}

impl<'m, 'e, E: Emit> WordMemory for Side<'m, 'e, E> {
    ghost use Rattle.cloaked_side.specs.Seeing.{SeesWalking, StaysWalking};

    ghost stands_for = { λ first side w. SeesWalking E.gave first side w };

    ghost kept = { λ first side. StaysWalking E.gave first side };

    #[tactic(auto, unfolding(cloak_model::specs::Ask::ask_word))]
    fn word(&mut self, pa: u64) -> Option<u32> {
        if !self.memory.is_inside(pa) {
            return None;
        }
        let pa = pa as u32;
        let f = frame_of(pa);
        self.settle(f);
        Some(value_in(self.memory.pager.read_outside(f), place_of(pa), 4))
    }
}

impl<'m, 'e, E: Emit> Ram for Side<'m, 'e, E> {
    ghost use Rattle.cloaked_side.specs.Holding.{frames_of};
    ghost use Rattle.cloaked_side.specs.Seeing.{SeesOutside, StaysWithin};

    ghost stands_for = { λ first side w. SeesOutside E.gave first side w };

    ghost kept = { λ first side. StaysWithin E.gave first side };

    ghost count = { λ side. frames_of side.memory.now };

    // Made twice for a hart outside: for its fetches, and for its loads.
    #[inline(always)]
    fn load(&mut self, satp: u32, access: Access, width: u32) -> Result<u32, u32> {
        let regime = Regime::Outside {
            satp,
            mode: access.mode,
            sum: access.sum,
            mxr: access.mxr,
        };
        match self.led(&regime, access.va, access.kind, None) {
            Err(cause) => Err(cause),
            Ok(led) => {
                self.settle_led(&regime, access.va, access.kind, &led);
                Ok(self.read_settled(led.pa, width))
            }
        }
    }

    fn store(&mut self, satp: u32, access: Access, width: u32, v: u32) -> Result<(), u32> {
        let regime = Regime::Outside {
            satp,
            mode: access.mode,
            sum: access.sum,
            mxr: access.mxr,
        };
        match self.led(&regime, access.va, access.kind, None) {
            Err(cause) => Err(cause),
            Ok(led) => {
                self.settle_led(&regime, access.va, access.kind, &led);
                self.write_settled(led.pa, width, v);
                Ok(())
            }
        }
    }

    fn reserve(&mut self, satp: u32, access: Access, hart: u32) -> Result<u32, u32> {
        match self.led_word(satp, access) {
            Err(cause) => Err(cause),
            Ok(led) => {
                self.reserve_word(hart, led.pa);
                Ok(led.word)
            }
        }
    }

    fn store_conditional(
        &mut self,
        satp: u32,
        access: Access,
        hart: u32,
        v: u32,
    ) -> Result<bool, u32> {
        match self.led_word(satp, access) {
            Err(cause) => Err(cause),
            Ok(led) => {
                let mark = self.memory.reservations.marked(hart);
                Ok(self.write_if(is_reserved(mark, led.pa), hart, led.pa, v))
            }
        }
    }

    fn combine(
        &mut self,
        satp: u32,
        access: Access,
        op: AtomicOp,
        operand: u32,
    ) -> Result<u32, u32> {
        match self.led_word(satp, access) {
            Err(cause) => Err(cause),
            Ok(led) => {
                self.write_settled(led.pa, 4, combine(op, led.word, operand));
                Ok(led.word)
            }
        }
    }

    fn unmark(&mut self, hart: u32) {
        self.release(hart);
    }

    fn frame(&mut self, f: Frame) -> &[u8; 4096] {
        self.settle(f);
        self.memory.pager.read_outside(f)
    }

    fn fill(&mut self, f: Frame, b: &[u8; 4096]) {
        self.settle(f);
        self.memory.reservations.frame_written(f);
        self.memory.pager.fill_outside(f, b);
        self.memory.shadows.kill_dependents(f);
    }

    #[tactic(auto, unfolding(cloak_model::specs::Ask::ask_count))]
    fn frames(&self) -> u32 {
        self.memory.pager.count()
    }
}
