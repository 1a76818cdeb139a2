ghost use Rattle.std.specs.Prelude.{◌≡◌, ◌≢◌, ℕ, ◌<◌, ◌⊎◌, length, IsTrue, is_some};
ghost use Rattle.cloak_base.specs.Random.{next_draw};

use crate::frame_right::FrameRight;
use crate::pager::Pager;
use aes_cbc::seal_page;
use cloak_base::{Frame, Meta, PageId};
use io_traits::Stream;
use sha2::{Digest, Sha256};

/// How an offer ended.
#[derive(Clone, Copy, Debug, PartialEq, Eq)]
pub enum Offered {
    /// The frame holds the page.
    Ready,
    /// The frame's bytes are not those that were last shown of the page.
    Mismatch,
}

impl Pager {
    ghost use Rattle.protect_meta.specs.Pages.{IsIn};
    ghost use Rattle.protect_meta.specs.Table.{meta_at, domains_of};
    ghost use Rattle.cloak_pager.specs.State.{right_at, held_in, owed_at, bytes_in, IsFresh};
    ghost use Rattle.cloak_pager.specs.Turns.{end_of_offer, shown_by_digest, OfferedTurns, ShownTurns, PlaceTurns};
    ghost use Rattle.cloak_pager.specs.Turns.{StaysBut, IsPlaced, IsRestored};
    ghost use Rattle.cloak_pager.specs.Asking.{FollowsCall, FollowsCallUnclashed, StandsRestored};
    ghost use Rattle.cloak_pager.specs.Asking.{after_offer, answer_of, after_place};

    /// Gives the page to the frame, for reading or for writing.
    #[inline(always)]
    pub fn offer(&mut self, q: PageId, g: Frame, write: bool) -> Offered
        requires inside { g.0 < length self.old.frames }
        requires page { IsIn (domains_of self.old.table) q }
        requires room { (held_in self.old g.0 ≡ None) ⊎ (held_in self.old g.0 ≡ Some q) }
        requires alone { (k : ℕ) → held_in self.old k ≡ Some q → k ≡ g.0 }
        ensures exact_cause { result ≡
            end_of_offer (right_at self.old g.0) (meta_at self.old.table q) (bytes_in self.old g.0) }
        ensures state { OfferedTurns result (right_at self.old g.0) (meta_at self.old.table q) write
            self.old self.new q g.0 }
        ensures stays { StaysBut g.0 self.old self.new }
        ensures held { result ≡ Offered.Ready → held_in self.new g.0 ≡ Some q }
        ensures owed { result ≡ Offered.Ready → IsTrue write → owed_at self.new g.0 ≡ Some q }
        ensures model { FollowsCallUnclashed self.old self.new (answer_of result) (after_offer q g.0 write) }
    {
        let held = &self.rights[g.0 as usize];
        if let FrameRight::Changed(_) = held {
            return Offered::Ready;
        }
        if !write {
            if let FrameRight::Clean(_) = held {
                return Offered::Ready;
            }
        }
        self.offer_anew(q, g, write)
    }

    /// The same, whatever the frame holds.
    #[cold]
    #[inline(never)]
    fn offer_anew(&mut self, q: PageId, g: Frame, write: bool) -> Offered
        requires inside { g.0 < length self.old.frames }
        requires page { IsIn (domains_of self.old.table) q }
        requires room { (held_in self.old g.0 ≡ None) ⊎ (held_in self.old g.0 ≡ Some q) }
        requires alone { (k : ℕ) → held_in self.old k ≡ Some q → k ≡ g.0 }
        ensures exact_cause { result ≡
            end_of_offer (right_at self.old g.0) (meta_at self.old.table q) (bytes_in self.old g.0) }
        ensures state { OfferedTurns result (right_at self.old g.0) (meta_at self.old.table q) write
            self.old self.new q g.0 }
        ensures stays { StaysBut g.0 self.old self.new }
        ensures held { result ≡ Offered.Ready → held_in self.new g.0 ≡ Some q }
        ensures owed { result ≡ Offered.Ready → IsTrue write → owed_at self.new g.0 ≡ Some q }
        ensures model { FollowsCallUnclashed self.old self.new (answer_of result) (after_offer q g.0 write) }
    {
        match &self.rights[g.0 as usize] {
            FrameRight::Outside(_) => {
                match self.table.get(q) {
                    Some(meta) => self.offer_shown(q, g, write, &meta),
                    None => {
                        self.first_frame(q, g);
                        Offered::Ready
                    }
                }
            }
            FrameRight::Clean(_) => {
                if write {
                    self.change_frame(g);
                }
                Offered::Ready
            }
            FrameRight::Changed(_) => Offered::Ready,
            FrameRight::Spent => unreachable!(),
        }
    }

    /// The page was shown before: its frame is opened if the bytes are those that were shown.
    #[cold]
    #[inline(never)]
    fn offer_shown(&mut self, q: PageId, g: Frame, write: bool, m: &Meta) -> Offered
        requires inside { g.0 < length self.old.frames }
        requires page { IsIn (domains_of self.old.table) q }
        requires outside { held_in self.old g.0 ≡ None }
        requires nowhere { (k : ℕ) → held_in self.old k ≢ Some q }
        requires shown { meta_at self.old.table q ≡ Some m.now }
        ensures exact_cause { result ≡ shown_by_digest m.now (bytes_in self.old g.0) }
        ensures state { ShownTurns result m.now write self.old self.new q g.0 }
    {
        if self.open_frame(q, g, m) {
            if write {
                self.change_frame(g);
            }
            Offered::Ready
        } else {
            Offered::Mismatch
        }
    }

    /// Seals a page of these bytes into the outside frame. False, and nothing is placed, if no draw is left.
    pub fn place(&mut self, q: PageId, f: Frame, bytes: &[u8; 4096], s: &mut Stream) -> bool
        requires inside { f.0 < length self.old.frames }
        requires page { IsIn (domains_of self.old.table) q }
        requires outside { held_in self.old f.0 ≡ None }
        requires fresh { IsFresh self.old q }
        ensures exact_cause { result ≡ is_some (next_draw s.old) }
        ensures state { PlaceTurns (next_draw s.old) s.old self.old self.new s.new q f.0 bytes.now }
        ensures rights { self.new.rights ≡ self.old.rights }
        ensures stays { StaysBut f.0 self.old self.new }
        ensures model { FollowsCall self.old s.old self.new s.new result (after_place q f.0 bytes.now) }
    {
        match s.draw() {
            Some(iv) => {
                self.place_under(q, f, bytes, &iv);
                true
            }
            None => false,
        }
    }

    fn place_under(&mut self, q: PageId, f: Frame, bytes: &[u8; 4096], iv: &[u8; 16])
        requires inside { f.0 < length self.old.frames }
        requires page { IsIn (domains_of self.old.table) q }
        requires outside { held_in self.old f.0 ≡ None }
        ensures { IsPlaced self.old self.new q f.0 bytes.now iv.now }
    {
        match &self.rights[f.0 as usize] {
            FrameRight::Outside(right) => {
                let mut page = *bytes;
                seal_page(self.keys.of(q), iv, &mut page);
                let digest = Sha256::digest(page.as_slice());
                *self.frames.outside_mut(right) = page;
                self.table.set(q, Meta { iv: *iv, digest });
            }
            _ => unreachable!(),
        }
    }

    /// Takes the metadata of a page that was sealed elsewhere under its key: the page goes on with that content.
    pub fn restore(&mut self, q: PageId, m: Meta)
        requires page { IsIn (domains_of self.old.table) q }
        requires fresh { IsFresh self.old q }
        ensures state { IsRestored self.old self.new q m }
        ensures model { StandsRestored self.old self.new q m }
    {
        self.table.set(q, m);
    }
}
