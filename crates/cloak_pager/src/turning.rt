ghost use Rattle.std.specs.Prelude.{◌≡◌, ◌≢◌, ℕ, ◌<◌, length, true, false};
ghost use Rattle.cloak_base.specs.declared.names.PageId.{PageId as AnyPage};
ghost use Rattle.sha2.specs.Sha256.{sha256};
ghost use Rattle.cloak_base.specs.Pages.{zero_page};

use crate::frame_right::FrameRight;
use crate::pager::Pager;
use cloak_base::{Frame, Meta, PageId};
use page_states::{change, first_page, open_page, reseal, seal, wipe};
use std::mem;

// Each takes the right of one frame out, turns it, and puts the next one in its place.
impl Pager {
    ghost use Rattle.protect_meta.specs.Pages.{IsIn};
    ghost use Rattle.protect_meta.specs.Table.{meta_at, domains_of};
    ghost use Rattle.cloak_pager.specs.State.{key_for, right_at, held_in, owed_at, bytes_in};
    ghost use Rattle.page_states.specs.Opening.{OpensTo};
    ghost use Rattle.cloak_pager.specs.Turns.{IsClean, IsChanged, IsResealed, IsSealed, IsWiped, HoldsNow};

    #[cold]
    #[inline(never)]
    pub(crate) fn reseal_frame(&mut self, f: Frame)
        requires inside { f.0 < length self.old.frames }
        requires clean { IsClean (right_at self.old f.0) }
        ensures { (q : AnyPage) → held_in self.old f.0 ≡ Some q → IsResealed self.old self.new f.0 q }
    {
        match mem::replace(&mut self.rights[f.0 as usize], FrameRight::Spent) {
            FrameRight::Clean(right) => {
                let page = right.page();
                match self.table.get(page) {
                    Some(meta) => {
                        self.rights[f.0 as usize] = FrameRight::Outside(reseal(
                            &mut self.frames,
                            right,
                            &meta,
                            self.keys.of(page),
                        ));
                    }
                    None => unreachable!(),
                }
            }
            _ => unreachable!(),
        }
    }

    #[cold]
    #[inline(never)]
    pub(crate) fn seal_frame(&mut self, f: Frame, iv: [u8; 16])
        requires inside { f.0 < length self.old.frames }
        requires changed { IsChanged (right_at self.old f.0) }
        ensures { (q : AnyPage) → held_in self.old f.0 ≡ Some q → IsSealed self.old self.new f.0 q iv }
    {
        match mem::replace(&mut self.rights[f.0 as usize], FrameRight::Spent) {
            FrameRight::Changed(right) => {
                let page = right.page();
                let (right, meta) = seal(&mut self.frames, right, iv, self.keys.of(page));
                self.table.set(page, meta);
                self.rights[f.0 as usize] = FrameRight::Outside(right);
            }
            _ => unreachable!(),
        }
    }

    #[cold]
    #[inline(never)]
    pub(crate) fn wipe_frame(&mut self, f: Frame)
        requires inside { f.0 < length self.old.frames }
        requires changed { IsChanged (right_at self.old f.0) }
        ensures { IsWiped self.old self.new f.0 }
    {
        match mem::replace(&mut self.rights[f.0 as usize], FrameRight::Spent) {
            FrameRight::Changed(right) => {
                self.rights[f.0 as usize] = FrameRight::Outside(wipe(&mut self.frames, right));
            }
            _ => unreachable!(),
        }
    }

    /// Opens the outside frame as page `q`, if its bytes have the digest of the metadata.
    pub(crate) fn open_frame(&mut self, q: PageId, g: Frame, m: &Meta) -> bool
        requires inside { g.0 < length self.old.frames }
        requires page { IsIn (domains_of self.old.table) q }
        requires outside { held_in self.old g.0 ≡ None }
        requires nowhere { (k : ℕ) → held_in self.old k ≢ Some q }
        requires shown { meta_at self.old.table q ≡ Some m.now }
        ensures recorded { result ≡ true → sha256 (bytes_in self.old g.0) ≡ m.now.digest }
        ensures opened { result ≡ true →
            OpensTo (key_for self.old q) m.now.iv (bytes_in self.old g.0) (HoldsNow self.old self.new q g.0 false) }
        ensures clean { result ≡ true → IsClean (right_at self.new g.0) × (held_in self.new g.0 ≡ Some q) }
        ensures refused { result ≡ false → (sha256 (bytes_in self.old g.0) ≢ m.now.digest) × (self.new ≡ self.old) }
    {
        match mem::replace(&mut self.rights[g.0 as usize], FrameRight::Spent) {
            FrameRight::Outside(right) => {
                match open_page(&mut self.frames, right, q, m, self.keys.of(q)) {
                    Ok(opened) => {
                        self.rights[g.0 as usize] = FrameRight::Clean(opened);
                        self.homes.set(q, g);
                        true
                    }
                    Err(same) => {
                        self.rights[g.0 as usize] = FrameRight::Outside(same);
                        false
                    }
                }
            }
            _ => unreachable!(),
        }
    }

    /// Gives the outside frame to page `q`, of which nothing was shown yet.
    #[cold]
    #[inline(never)]
    pub(crate) fn first_frame(&mut self, q: PageId, g: Frame)
        requires inside { g.0 < length self.old.frames }
        requires page { IsIn (domains_of self.old.table) q }
        requires outside { held_in self.old g.0 ≡ None }
        requires nowhere { (k : ℕ) → held_in self.old k ≢ Some q }
        ensures { HoldsNow self.old self.new q g.0 true zero_page }
    {
        match mem::replace(&mut self.rights[g.0 as usize], FrameRight::Spent) {
            FrameRight::Outside(right) => {
                self.rights[g.0 as usize] = FrameRight::Changed(first_page(
                    &mut self.frames,
                    right,
                    q,
                ));
                self.homes.set(q, g);
            }
            _ => unreachable!(),
        }
    }

    /// Before the first write to a page that the frame holds unchanged.
    pub(crate) fn change_frame(&mut self, g: Frame)
        requires inside { g.0 < length self.old.frames }
        requires clean { IsClean (right_at self.old g.0) }
        ensures { (q : AnyPage) → held_in self.old g.0 ≡ Some q →
            HoldsNow self.old self.new q g.0 true (bytes_in self.old g.0) }
    {
        match mem::replace(&mut self.rights[g.0 as usize], FrameRight::Spent) {
            FrameRight::Clean(right) => {
                self.rights[g.0 as usize] = FrameRight::Changed(change(right));
            }
            _ => unreachable!(),
        }
    }
}
