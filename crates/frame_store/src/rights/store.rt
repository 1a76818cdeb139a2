ghost use Rattle.std.specs.Prelude.{◌≡◌, ◌≢◌, ℕ, ◌<◌, ◌≤◌, List, length, vec_capacity, slice_get, slice_set, Some, IfOk, replicate};
ghost use Rattle.std.specs.Borrow.{sem};
ghost use Rattle.cloak_base.specs.Pages.{zero_page};
ghost use Rattle.frame_store.specs.Frames.{AreSlots, in_slots};

use super::{ChangedRight, CleanRight, OutsideRight};
use cloak_base::{Frame, NoMemory, PageId};
use std::alloc::Global;
use std::marker::Model;

/// What a frame has in which nothing was stored yet.
static ZEROS: [u8; 4096] = [0; 4096];

/// The bytes of all frames. Its value is the list of the frames, each a list of its 4096 bytes. Each frame in which
/// something was stored stands in a slot of its own. All others are zeros, and stand in slot 0. There is room for a slot
/// for each frame from the opening on, but the system gives memory only to what is written: so a frame takes memory as
/// something is stored in it, whatever its number.
#[derive(Drop)]
pub struct FrameStore {
    /// The slots: the first one has zeros.
    frames: Vec<[u8; 4096]>,
    /// The slot of each frame.
    slots: Vec<u32>,
}

impl Model for FrameStore {
    ghost use Rattle.std.specs.Prelude.{List, ℕ, vec_capacity};
    ghost use Rattle.frame_store.specs.Frames.{in_slots, AreSlots};

    ghost Value = { List (List ℕ) };

    ghost view = { λ s. in_slots s.frames.items s.slots.items };

    ghost invariant = { λ s. AreSlots s.frames.items s.slots.items (vec_capacity s.frames) };
}

/// Gives a frame in which nothing was stored a slot of its own, of zeros.
#[cold]
#[inline(never)]
fn take_slot(frames: &mut Vec<[u8; 4096]>, slots: &mut Vec<u32>, f: usize) -> usize
    requires slots { AreSlots frames.old.items slots.old.items (vec_capacity frames.old) }
    requires unstored { slice_get slots.old.items f ≡ Some 0 }
    ensures slots { AreSlots frames.new.items slots.new.items (vec_capacity frames.new) }
    ensures same { in_slots frames.new.items slots.new.items ≡ in_slots frames.old.items slots.old.items }
    ensures slot { slice_get slots.new.items f ≡ Some result }
    ensures stored { result ≢ 0 }
{
    let slot = frames.len();
    slots[f] = slot as u32;
    frames.push_reserved(ZEROS);
    slot
}

/// The slot of a frame in which something is to be stored.
#[inline(always)]
fn reach(frames: &mut Vec<[u8; 4096]>, slots: &mut Vec<u32>, f: usize) -> usize
    requires slots { AreSlots frames.old.items slots.old.items (vec_capacity frames.old) }
    requires there { f < length slots.old.items }
    ensures slots { AreSlots frames.new.items slots.new.items (vec_capacity frames.new) }
    ensures same { in_slots frames.new.items slots.new.items ≡ in_slots frames.old.items slots.old.items }
    ensures slot { slice_get slots.new.items f ≡ Some result }
    ensures stored { result ≢ 0 }
{
    let slot = slots[f] as usize;
    if slot == 0 {
        return take_slot(frames, slots, f);
    }
    slot
}

impl FrameStore {
    ghost use Rattle.frame_store.specs.Lending.{LendsFrameBytes};

    /// The one call that takes memory.
    #[tactic(auto, unfolding(cloak_base::specs::Pages::zero_page))]
    pub fn open(alloc: Global, n: u32) -> Result<(FrameStore, Vec<OutsideRight>), NoMemory>
        requires least { 64 ≤ n }
        requires most { n ≤ 4096 }
        ensures store { IfOk result (λ p. p.0 ≡ replicate n zero_page) }
        ensures count { IfOk result (λ p. length p.1.items ≡ n) }
        ensures rights { IfOk result (λ p. (k : ℕ) → k < n → slice_get p.1.items k ≡ Some (record { 0 = k })) }
    {
        let mut frames = Vec::with_capacity(alloc, n as usize + 1)?;
        frames.push_reserved(ZEROS);
        let slots = vec![in alloc; 0; n as usize]?;
        let mut rights = Vec::with_capacity(alloc, n as usize)?;
        for i in 0..n {
            rights.push(OutsideRight { frame: Frame(i) })?;
        }
        Ok((FrameStore { frames, slots }, rights))
    }

    /// The bytes of a frame.
    fn at(&self, f: Frame) -> &[u8; 4096]
        requires { f.0 < length self.now }
        ensures { slice_get self.now f.0 ≡ Some result.now }
    {
        &self.frames[self.slots[f.0 as usize] as usize]
    }

    /// Stores all bytes of a frame.
    fn fill(&mut self, f: Frame, new: &[u8; 4096])
        requires { f.0 < length self.old }
        ensures { self.new ≡ slice_set self.old f.0 new.now }
    {
        let slot = reach(&mut self.frames, &mut self.slots, f.0 as usize);
        self.frames[slot] = *new;
    }

    /// How many frames there are.
    pub fn count(&self) -> usize
        ensures { result ≡ length self.now }
    {
        self.slots.len()
    }

    pub fn outside(&self, r: &OutsideRight) -> &[u8; 4096]
        requires { r.now.0 < length self.now }
        ensures { slice_get self.now r.now.0 ≡ Some result.now }
    {
        self.at(r.frame)
    }

    pub fn outside_mut(&mut self, r: &OutsideRight) -> &mut [u8; 4096]
        requires { r.now.0 < length self.old }
        ensures* writes_back { sem 𝓛 (LendsFrameBytes self.entry r.now.0 result) }
        ensures value { slice_get self.old r.now.0 ≡ Some result.now }
    {
        let slot = reach(&mut self.frames, &mut self.slots, r.frame.0 as usize);
        &mut self.frames[slot]
    }

    pub fn plain(&self, r: &CleanRight) -> &[u8; 4096]
        requires { r.now.frame.0 < length self.now }
        ensures { slice_get self.now r.now.frame.0 ≡ Some result.now }
    {
        self.at(r.frame)
    }

    pub fn changed(&self, r: &ChangedRight) -> &[u8; 4096]
        requires { r.now.frame.0 < length self.now }
        ensures { slice_get self.now r.now.frame.0 ≡ Some result.now }
    {
        self.at(r.frame)
    }

    pub fn changed_mut(&mut self, r: &ChangedRight) -> &mut [u8; 4096]
        requires { r.now.frame.0 < length self.old }
        ensures* writes_back { sem 𝓛 (LendsFrameBytes self.entry r.now.frame.0 result) }
        ensures value { slice_get self.old r.now.frame.0 ≡ Some result.now }
    {
        let slot = reach(&mut self.frames, &mut self.slots, r.frame.0 as usize);
        &mut self.frames[slot]
    }

    /// The frame holds page `q`, as it was last shown.
    pub fn to_clean(&mut self, r: OutsideRight, q: PageId, new: &[u8; 4096]) -> CleanRight
        requires { r.0 < length self.old }
        ensures bytes { self.new ≡ slice_set self.old r.0 new.now }
        ensures right { result ≡ record { frame = r; page = q } }
    {
        self.fill(r.frame, new);
        CleanRight {
            frame: r.frame,
            page: q,
        }
    }

    /// The frame holds page `q`, of which nothing was shown yet.
    #[tactic(auto, unfolding(cloak_base::specs::Pages::zero_page))]
    pub fn to_fresh(&mut self, r: OutsideRight, q: PageId) -> ChangedRight
        requires { r.0 < length self.old }
        ensures bytes { self.new ≡ slice_set self.old r.0 zero_page }
        ensures right { result ≡ record { frame = r; page = q } }
    {
        self.fill(r.frame, &ZEROS);
        ChangedRight {
            frame: r.frame,
            page: q,
        }
    }

    /// The frame is the outside's again.
    pub fn from_clean(&mut self, r: CleanRight, new: &[u8; 4096]) -> OutsideRight
        requires { r.frame.0 < length self.old }
        ensures bytes { self.new ≡ slice_set self.old r.frame.0 new.now }
        ensures right { result ≡ r.frame }
    {
        self.fill(r.frame, new);
        OutsideRight { frame: r.frame }
    }

    /// The frame is the outside's again.
    pub fn from_changed(&mut self, r: ChangedRight, new: &[u8; 4096]) -> OutsideRight
        requires { r.frame.0 < length self.old }
        ensures bytes { self.new ≡ slice_set self.old r.frame.0 new.now }
        ensures right { result ≡ r.frame }
    {
        self.fill(r.frame, new);
        OutsideRight { frame: r.frame }
    }
}
