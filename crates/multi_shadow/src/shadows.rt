ghost use Rattle.std.specs.Prelude.{◌≡◌, ◌∷◌, ◌<◌, ◌≤◌, ◌^◌, true, false, length, find, option_map, IfOk, OnErr};
ghost use Rattle.std.specs.List.Sorted.{IsPermutation};
ghost use Rattle.shadow_fold.specs.Entries.{is_for, is_target, is_table, is_of_space, IsWithin};
ghost use Rattle.multi_shadow.specs.Placed.{IsPower};
ghost use Rattle.shadow_fold.specs.Following.{AreBirthCalls};
ghost use Rattle.shadow_fold.specs.Table.{empty_table, is_known, looked, ending, emptied, with_room, with_live};

use crate::entry::is_within;
use crate::places::{prune_all, prune_frame, search};
use crate::recent::{Recent, keep};
use chain_arena::{Chain, ChainArena};
use cloak_base::{Frame, Kind, Mode, NoMemory, SpaceId};
use shadow_fold::{Entry, Regime, ShadowCounts};
use std::alloc::Global;
use std::marker::Model;

/// How many entries may be live. The arena has a slot for each.
const ROOM: u32 = 1024;

/// For how many misses nothing should be learnt, if what was learnt was ended before a look found it.
const PAUSE: u8 = 15;

/// What lies in a slot that is not in use.
const NO_ENTRY: Entry = Entry {
    regime: Regime::Outside {
        satp: 0,
        mode: Mode::U,
        sum: false,
        mxr: false,
    },
    page: 0,
    kind: Kind::Fetch,
    frame: Frame(0),
    pt1: None,
    pt0: None,
    cloaked: None,
};

/// The live entries and their counts.
#[derive(Drop)]
pub struct Shadows {
    frames: u32,
    heads: u32,
    arena: ChainArena<Entry>,
    recent: Recent,
    counts: ShadowCounts,
    /// How many looks had found an entry when a recent one was last ended through its tables. The model does not show
    /// it.
    hits: u64,
    /// For how many misses more it is not worth it to learn. The model does not show it.
    pause: u8,
}

impl Model for Shadows {
    ghost use Rattle.shadow_fold.specs.Table.{Table};
    ghost use Rattle.multi_shadow.specs.Recent.{live_of};

    ghost Value = { Table };

    ghost view = { λ s. record { frames = s.frames; live = live_of s.recent s.arena; counts = s.counts } };

    ghost use Rattle.multi_shadow.specs.Kept.{AreKept};

    ghost invariant = { AreKept };
}

/// The least power of two that is a number or more. Err if it is no `u32`: for a number above 2^31.
fn power_from(number: u32) -> Result<u32, NoMemory>
    ensures power { IfOk result (λ n. (number ≤ n) × IsPower n) }
    ensures refused { OnErr result (2 ^ 31 < number) }
{
    if number <= 1 {
        return Ok(1);
    }
    let places = (number - 1).ilog2() + 1;
    if places > 31 {
        return Err(NoMemory);
    }
    Ok(1 << places)
}

/// A recent entry was ended through its tables, or none was. If no look has found an entry since one was last ended
/// like this, what is learnt is not found, and nothing should be learnt for the next misses.
#[inline(always)]
fn note_end(ended: bool, counts: &ShadowCounts, hits: &mut u64, pause: &mut u8) {
    if ended {
        let now = counts.accesses.saturating_sub(counts.misses);
        if now == *hits {
            *pause = PAUSE;
        }
        *hits = now;
    }
}

impl Shadows {
    /// No entry is live. The one call that takes memory: there is room for 1024 entries.
    pub fn open(alloc: Global, frames: u32) -> Result<Shadows, NoMemory>
        ensures { IfOk result (λ s. s ≡ empty_table frames) }
    {
        let heads = power_from(frames)?;
        let arena = ChainArena::open(alloc, ROOM, heads, NO_ENTRY)?;
        let counts = ShadowCounts {
            accesses: 0,
            misses: 0,
            flushes: 0,
        };
        Ok(Shadows {
            frames,
            heads,
            arena,
            recent: Recent::empty(),
            counts,
            hits: 0,
            pause: 0,
        })
    }

    /// The live entry of this regime, page and kind. One access, and one miss if there is none.
    #[inline(always)]
    pub fn find(&mut self, v: &Regime, page: u32, kind: Kind) -> Option<Entry>
        ensures exact { result ≡ find (is_for v.now page kind) self.old.live }
        ensures counted { self.new ≡ looked v.now page kind self.old }
    {
        self.counts.accesses = self.counts.accesses.saturating_add(1);
        match self.look(v, page, kind) {
            Some(e) => Some(*e),
            None => {
                self.counts.misses = self.counts.misses.saturating_add(1);
                None
            }
        }
    }

    /// The same, with nothing counted: the recent entry, or one in the arena.
    #[inline(always)]
    fn look<'a>(&'a self, v: &Regime, page: u32, kind: Kind) -> Option<&'a Entry>
        ensures { option_map (λ e. e.now) result ≡ find (is_for v.now page kind) self.now.live }
    {
        match self.recent.find(v, page, kind) {
            Some(e) => Some(e),
            None => search(&self.arena, self.heads, v, page, kind),
        }
    }

    /// Makes an entry live, unless one of its regime, page and kind is, or one of its frames is none of the table's. Nothing
    /// is counted as an access.
    #[inline(always)]
    pub fn learn(&mut self, e: Entry)
        ensures born { IsWithin self.old.frames e → AreBirthCalls (is_known e.regime e.page e.kind self.old) e self.old self.new }
        ensures beyond { (IsWithin self.old.frames e → ⊥) → self.new ≡ self.old }
    {
        if is_within(self.frames, &e) {
            let known = self.look(&e.regime, e.page, e.kind).is_some();
            if !known {
                self.insert(e);
            }
        }
    }

    /// Makes an entry live of which a look has missed, and which was not learnt since, unless one of its frames is none of the
    /// table's. Nothing is counted as an access, and nothing is looked for.
    #[inline(always)]
    pub fn learn_missed(&mut self, e: Entry)
        requires unknown { is_known e.regime e.page e.kind self.old ≡ false }
        ensures born { IsWithin self.old.frames e → AreBirthCalls false e self.old self.new }
        ensures beyond { (IsWithin self.old.frames e → ⊥) → self.new ≡ self.old }
    {
        if is_within(self.frames, &e) {
            self.insert(e);
        }
    }

    /// Whether it is worth it to learn an entry of which a look has missed. If the last ones were ended through their
    /// tables before a look found one, it is not, for some misses. A hint: no clause rests on it.
    #[inline(always)]
    pub fn is_worth_learning(&mut self) -> bool
        ensures { self.new ≡ self.old }
    {
        if self.pause == 0 {
            return true;
        }
        self.pause -= 1;
        false
    }

    /// The entry becomes live. If 1024 are live, all of them end first, and a flush is counted.
    #[inline(always)]
    pub(crate) fn insert(&mut self, e: Entry)
        requires unknown { is_known e.regime e.page e.kind self.old ≡ false }
        requires within { IsWithin self.old.frames e }
        ensures live { IsPermutation (e ∷ (with_room self.old).live) self.new.live }
        ensures rest { self.new ≡ with_live self.new.live (with_room self.old) }
    {
        self.make_room();
        self.put(e);
    }

    #[inline(always)]
    fn is_full(&self) -> bool
        ensures full { result ≡ true → 1024 ≤ length self.now.live }
        ensures room { result ≡ false → length self.now.live < 1024 }
    {
        self.recent.count() + self.arena.used() >= ROOM as usize
    }

    /// If 1024 are live, all of them end, and a flush is counted.
    #[inline(always)]
    fn make_room(&mut self)
        ensures { self.new ≡ with_room self.old }
    {
        if self.is_full() {
            self.flush();
        }
    }

    /// The entry becomes live, for which there is room.
    #[inline(always)]
    fn put(&mut self, e: Entry)
        requires unknown { is_known e.regime e.page e.kind self.old ≡ false }
        requires within { IsWithin self.old.frames e }
        requires room { length self.old.live < 1024 }
        ensures live { IsPermutation (e ∷ self.old.live) self.new.live }
        ensures rest { self.new ≡ with_live self.new.live self.old }
    {
        keep(&mut self.recent, &mut self.arena, self.heads, e);
    }

    /// Ends the entries that lead to this frame.
    pub fn kill_target(&mut self, f: Frame)
        ensures { self.new ≡ ending (is_target f) self.old }
    {
        self.recent.end_target(f);
        prune_frame(&mut self.arena, self.heads, Chain::Target, f);
    }

    /// Ends the entries of which this is a table frame.
    #[inline(always)]
    pub fn kill_dependents(&mut self, f: Frame)
        ensures { self.new ≡ ending (is_table f) self.old }
    {
        let ended = self.recent.end_dependents(f);
        note_end(ended, &self.counts, &mut self.hits, &mut self.pause);
        prune_frame(&mut self.arena, self.heads, Chain::First, f);
        prune_frame(&mut self.arena, self.heads, Chain::Second, f);
    }

    /// Ends the entries of the regimes of this space.
    pub fn kill_space(&mut self, s: SpaceId)
        ensures { self.new ≡ ending (is_of_space s) self.old }
    {
        self.recent.end_space(s);
        prune_all(&mut self.arena, self.heads, Some(s));
    }

    /// Ends all entries, and counts it.
    #[cold]
    #[inline(never)]
    pub fn flush(&mut self)
        ensures { self.new ≡ emptied self.old }
    {
        self.recent = Recent::empty();
        prune_all(&mut self.arena, self.heads, None);
        self.counts.flushes = self.counts.flushes.saturating_add(1);
    }

    /// Ends all entries, and counts from zero again.
    pub fn restart(&mut self)
        ensures { self.new ≡ empty_table self.old.frames }
    {
        self.recent = Recent::empty();
        prune_all(&mut self.arena, self.heads, None);
        self.counts = ShadowCounts {
            accesses: 0,
            misses: 0,
            flushes: 0,
        };
    }

    pub fn counts(&self) -> ShadowCounts
        ensures { result ≡ self.now.counts }
    {
        self.counts
    }
}
