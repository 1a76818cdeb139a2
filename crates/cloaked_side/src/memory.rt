ghost use Rattle.std.specs.Prelude.{◌≡◌, ◌≢◌, ◌==◌, ◌^◌, IsTrue, ℕ, Bool, true, false, not, ◌<◌, ◌≤◌, [], ◌∷◌, Option, is_some, length, map};
ghost use Rattle.cloak_base.specs.Constants.{frame_of, ram_start, is_in_frames};
ghost use Rattle.cloak_model.specs.Items.{Cipher};
ghost use Rattle.shadow_fold.specs.Entries.{is_of_space};
ghost use Rattle.shadow_fold.specs.Table.{empty_table, ending, killed};

use cloak_base::{Frame, PageId, SpaceId, is_in_frames};
use cloak_model::{Emit, Item};
use cloak_pager::{Offered, Pager, Touched};
use host_calls::Reservations;
use io_traits::Stream;
use multi_shadow::Shadows;

/// The frames of RAM with the cloaked pages in them, the random stream, the reservations of the harts, and the
/// translations that are known.
#[derive(Drop)]
pub struct Memory {
    pub pager: Pager,
    pub stream: Stream,
    /// The draws that were made for pages, up to the last count.
    pub draws: u64,
    /// A draw was missing.
    pub missed: bool,
    /// The reservations of the harts, of words of the frames as the kernel sees them.
    pub reservations: Reservations,
    /// The translations that are known.
    pub shadows: Shadows,
    /// Accesses without paging go through them too, as is due if accesses are counted.
    pub counting: bool,
}

/// Ends the translations that lead to a frame or through it. Kept out of line, since few frames that are settled held a
/// page.
#[cold]
#[inline(never)]
fn end_entries(shadows: &mut Shadows, f: Frame)
    ensures { shadows.new ≡ killed f shadows.old }
{
    shadows.kill_target(f);
    shadows.kill_dependents(f);
}

impl Memory {
    ghost use Rattle.cloak_model.specs.Cloaking.{CloakedMemory, settle, offer};
    ghost use Rattle.cloak_model.specs.Joint.{without_mark};
    ghost use Rattle.cloak_model.specs.Memory.{unless_written, with_mark};
    ghost use Rattle.cloak_model.specs.Exchange.{Emits, EmitsSome, item_pieces};
    ghost use Rattle.cloak_pager.specs.State.{held_in, owed_at, bytes_in};
    ghost use Rattle.cloak_pager.specs.Turns.{IsReadOnce, StaysBut};
    ghost use Rattle.protect_meta.specs.Pages.{IsIn};
    ghost use Rattle.cloaked_side.specs.Offering.{Rooms, OffersPage, OfferLeaves};
    ghost use Rattle.cloaked_side.specs.Holding.{Holds, Settles, SameSize, HoldsNoMore};
    ghost use Rattle.cloaked_side.specs.Holding.{frames_of, domains_in};
    ghost use Rattle.cloaked_side.specs.Tracking.{Tracks, TracksBy, MapsStill, room_made, spent_in};
    ghost use Rattle.shadow_fold.specs.Fold.{frame, fresh_fold, touched};
    ghost use Rattle.shadow_fold.specs.Following.{killed_if};
    ghost use Rattle.shadow_fold.specs.Reads.{Spends};

    /// Settles a frame, and emits what the kernel is shown of it. A frame that shows its page's record again was not
    /// written, so reservations in it stay.
    #[inline(always)]
    pub fn settle<E: Emit>(&mut self, f: Frame, e: &mut E)
        requires { f.0 < frames_of self.old }
        ensures outside { held_in self.new.pager f.0 ≡ None }
        ensures same { SameSize self.old self.new }
        ensures stays { StaysBut f.0 self.old.pager self.new.pager }
        ensures emits_some { EmitsSome E.gave e.old e.new }
        ensures settles { (m : CloakedMemory) → Holds self.old m → Settles E.gave e.old e.new self.new (settle f.0 m) }
        ensures tracks { TracksBy self.old self.new (touched (frame f.0)) }
        ensures spends { (m : CloakedMemory) → Holds self.old m →
            Spends 0 (length (settle f.0 m).ciphers) (spent_in self.old) (spent_in self.new) }
        ensures ends { self.new.shadows ≡ killed_if (is_some (held_in self.old.pager f.0)) (frame f.0) self.old.shadows }
        ensures counting { self.new.counting ≡ self.old.counting }
    {
        match self.pager.touch(f, &mut self.stream) {
            Touched::Quiet => {}
            Touched::Resealed => end_entries(&mut self.shadows, f),
            Touched::Sealed => {
                end_entries(&mut self.shadows, f);
                self.draws = self.draws.saturating_add(1);
                self.emit_frame(f, e);
            }
            Touched::Wiped => {
                end_entries(&mut self.shadows, f);
                self.missed = true;
                self.emit_frame(f, e);
            }
        }
    }

    /// Whether the frame holds the page.
    #[inline(always)]
    fn is_held(&self, q: PageId, g: Frame) -> bool
        requires { g.0 < frames_of self.now }
        ensures held { IsTrue result → held_in self.now.pager g.0 ≡ Some q }
        ensures not_held { result ≡ false → held_in self.now.pager g.0 ≢ Some q }
    {
        self.pager.holds(g) == Some(q)
    }

    /// The page whose newest bytes a frame has yet to show.
    pub fn owed_page(&self, f: Frame) -> Option<PageId>
        requires { f.0 < frames_of self.now }
        ensures { result ≡ owed_at self.now.pager f.0 }
    {
        if self.pager.owed(f) {
            self.pager.holds(f)
        } else {
            None
        }
    }

    /// Settles what must be settled before this page comes into this frame, which does not hold it: the frame, and the
    /// frame that holds the page. Returns whether no draw was missing.
    #[inline(never)]
    fn make_room<E: Emit>(&mut self, q: PageId, g: Frame, e: &mut E) -> bool
        requires inside { g.0 < frames_of self.old }
        requires page { IsIn (domains_in self.old) q }
        requires drawn { self.old.missed ≡ false }
        requires away { held_in self.old.pager g.0 ≢ Some q }
        ensures same { SameSize self.old self.new }
        ensures emits_some { EmitsSome E.gave e.old e.new }
        ensures missed { result ≡ not self.new.missed }
        ensures room { IsTrue result → held_in self.new.pager g.0 ≡ None }
        ensures alone { IsTrue result → (k : ℕ) → held_in self.new.pager k ≡ Some q → k ≡ g.0 }
        ensures no_more { HoldsNoMore self.old.pager self.new.pager }
        ensures rooms { (m : CloakedMemory) → Holds self.old m → Rooms E.gave e.old e.new self.new result q g.0 m }
        ensures tracks { (m : CloakedMemory) → Holds self.old m → TracksBy self.old self.new (room_made q g.0 m) }
        ensures spends { (m : CloakedMemory) → Holds self.old m → (write : Bool) →
            Spends 0 (length (offer q g.0 write m).ciphers) (spent_in self.old) (spent_in self.new) }
        ensures maps { MapsStill self.old self.new }
        ensures counting { self.new.counting ≡ self.old.counting }
        ensures drawn { IsTrue result → (m : CloakedMemory) → Holds self.old m → (settle g.0 m).missed ≡ false }
    {
        self.pager.whole();
        self.settle(g, e);
        if self.missed {
            return false;
        }
        let Some(home) = self.pager.home(q) else {
            return true;
        };
        self.pager.whole();
        self.settle(home, e);
        !self.missed
    }

    /// Offers a page in a frame, for reading or for writing. Returns whether it was granted: the frame holds the page
    /// then. It was not if a draw was missing, or if the frame's bytes are not those that were last shown of the page.
    #[inline(always)]
    pub fn offer<E: Emit>(&mut self, q: PageId, g: Frame, write: bool, e: &mut E) -> bool
        requires inside { g.0 < frames_of self.old }
        requires page { IsIn (domains_in self.old) q }
        requires drawn { self.old.missed ≡ false }
        ensures offers { OffersPage E.gave e.old e.new self.old self.new q g.0 write result }
        ensures leaves { OfferLeaves E.gave e.old e.new self.old self.new q g.0 write result }
    {
        if self.pager.is_ready(q, g, write) {
            return true;
        }
        self.offer_anew(q, g, write, e)
    }

    /// The same, whatever the frame holds. Kept out of line, since a page that is hit is ready.
    #[cold]
    #[inline(never)]
    fn offer_anew<E: Emit>(&mut self, q: PageId, g: Frame, write: bool, e: &mut E) -> bool
        requires inside { g.0 < frames_of self.old }
        requires page { IsIn (domains_in self.old) q }
        requires drawn { self.old.missed ≡ false }
        ensures offers { OffersPage E.gave e.old e.new self.old self.new q g.0 write result }
        ensures leaves { OfferLeaves E.gave e.old e.new self.old self.new q g.0 write result }
    {
        if self.is_held(q, g) {
            self.pager.whole();
            return match self.pager.offer(q, g, write) {
                Offered::Ready => true,
                Offered::Mismatch => false,
            };
        }
        if !self.make_room(q, g, e) {
            return false;
        }
        match self.pager.offer(q, g, write) {
            Offered::Ready => {
                end_entries(&mut self.shadows, g);
                true
            }
            Offered::Mismatch => false,
        }
    }

    /// Begins to count accesses: what was known ends, and from now on accesses without paging are kept too.
    pub fn count_accesses(&mut self)
        ensures state { self.new ≡ record self.old { shadows = empty_table self.old.shadows.frames; counting = true } }
        ensures holds { (m : CloakedMemory) → Holds self.old m → Holds self.new m }
        ensures tracks { ((k : ℕ) → held_in self.old.pager k ≡ None) → (frames : ℕ) → Tracks self.new (fresh_fold frames) }
    {
        self.shadows.restart();
        self.counting = true;
    }

    /// A hart has no reservation any more.
    pub fn unmark(&mut self, hart: u32)
        ensures state { self.new ≡ record self.old { reservations = with_mark hart None self.old.reservations } }
        ensures holds { (m : CloakedMemory) → Holds self.old m → Holds self.new (without_mark hart m) }
    {
        self.reservations.unmark(hart);
    }

    /// The regions of a space changed, or it ended: what was known of its pages ends.
    pub fn end_space(&mut self, s: SpaceId)
        ensures { self.new ≡ record self.old { shadows = ending (is_of_space s) self.old.shadows } }
    {
        self.shadows.kill_space(s);
    }

    /// The address lies in RAM.
    #[inline]
    pub fn is_inside(&self, pa: u64) -> bool
        ensures value { result ≡ is_in_frames (frames_of self.now) pa }
        ensures low { IsTrue result → pa < 2 ^ 32 }
        ensures high { IsTrue result → ram_start ≤ pa }
    {
        is_in_frames(self.pager.count(), pa)
    }

    /// Emits what the kernel is shown of an outside frame that was written. Reservations in it end.
    #[cold]
    #[inline(never)]
    fn emit_frame<E: Emit>(&mut self, f: Frame, e: &mut E)
        requires inside { f.0 < frames_of self.old }
        requires outside { held_in self.old.pager f.0 ≡ None }
        ensures read { IsReadOnce self.old.pager self.new.pager }
        ensures stream { self.new.stream ≡ self.old.stream }
        ensures draws { self.new.draws ≡ self.old.draws }
        ensures missed { self.new.missed ≡ self.old.missed }
        ensures shadows { self.new.shadows ≡ self.old.shadows }
        ensures reservations { self.new.reservations ≡
            map (unless_written (λ mark. frame_of mark == f.0)) self.old.reservations }
        ensures counting { self.new.counting ≡ self.old.counting }
        ensures emits { Emits E.gave e.old e.new (item_pieces (Cipher f.0 (bytes_in self.old.pager f.0) ∷ [])) }
    {
        self.reservations.frame_written(f);
        e.item(&Item::Cipher {
            frame: f.0,
            bytes: self.pager.read_outside(f),
        });
    }
}
