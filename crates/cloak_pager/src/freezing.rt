ghost use Rattle.std.specs.Prelude.{◌≡◌, ◌≢◌, ℕ, ◌<◌, length, true, false, Some, None};
ghost use Rattle.sha2.specs.Sha256.{sha256};
ghost use Rattle.cloak_model.specs.Chain.{cbc};
ghost use Rattle.cloak_model.specs.Ledger.{domain_key};
ghost use Rattle.page_states.specs.Opening.{IsPlain, OpensTo};

use crate::frame_right::FrameRight;
use crate::pager::Pager;
use cloak_base::{Frame, Meta, PageId};
use page_states::{change, open_page, seal};
use std::mem;

// A frozen frame shows its page under an IV of which no metadata tells. So the pager then stands for no memory with the
// page's newest bytes, and whoever wants to thaw the frame keeps what `freeze_frame` returned.
impl Pager {
    ghost use Rattle.protect_meta.specs.Pages.{IsIn};
    ghost use Rattle.protect_meta.specs.Table.{domains_of};
    ghost use Rattle.cloak_pager.specs.State.{key_for, right_at, held_in, owed_at, bytes_in};
    ghost use Rattle.cloak_pager.specs.Turns.{StaysBut, HoldsNow};
    ghost use Rattle.cloak_pager.specs.Freezing.{FreezesFrame};

    /// Seals the page that the frame is owed, under this IV, and makes the frame outside. Returns what must be known to
    /// open it again. The metadata of the page stays.
    pub fn freeze_frame(&mut self, f: Frame, iv: [u8; 16]) -> Meta
        requires { owed_at self.old f.0 ≢ None }
        ensures state { FreezesFrame self.old self.new f.0 iv result }
        ensures outside { right_at self.new f.0 ≡ FrameRight.Outside f }
        ensures stays { StaysBut f.0 self.old self.new }
    {
        match mem::replace(&mut self.rights[f.0 as usize], FrameRight::Spent) {
            FrameRight::Changed(right) => {
                let page = right.page();
                let (right, meta) = seal(&mut self.frames, right, iv, self.keys.of(page));
                self.rights[f.0 as usize] = FrameRight::Outside(right);
                meta
            }
            _ => unreachable!(),
        }
    }

    /// Opens what the outside frame shows as page `q`, and the frame is owed that page then. False, and nothing changed,
    /// if what it shows has not the digest of `m`.
    pub fn thaw_frame(&mut self, f: Frame, q: PageId, m: &Meta) -> bool
        requires inside { f.0 < length self.old.frames }
        requires page { IsIn (domains_of self.old.table) q }
        requires outside { held_in self.old f.0 ≡ None }
        requires nowhere { (k : ℕ) → held_in self.old k ≢ Some q }
        ensures recorded { result ≡ true → sha256 (bytes_in self.old f.0) ≡ m.now.digest }
        ensures opened { result ≡ true →
            OpensTo (key_for self.old q) m.now.iv (bytes_in self.old f.0) (HoldsNow self.old self.new q f.0 true) }
        ensures owed { result ≡ true → owed_at self.new f.0 ≡ Some q }
        ensures refused { result ≡ false → (sha256 (bytes_in self.old f.0) ≢ m.now.digest) × (self.new ≡ self.old) }
        ensures stays { StaysBut f.0 self.old self.new }
    {
        match mem::replace(&mut self.rights[f.0 as usize], FrameRight::Spent) {
            FrameRight::Outside(right) => {
                match open_page(&mut self.frames, right, q, m, self.keys.of(q)) {
                    Ok(opened) => {
                        self.rights[f.0 as usize] = FrameRight::Changed(change(opened));
                        self.homes.set(q, f);
                        true
                    }
                    Err(same) => {
                        self.rights[f.0 as usize] = FrameRight::Outside(same);
                        false
                    }
                }
            }
            _ => unreachable!(),
        }
    }

    /// Enciphers a page of bytes in place, under the key of a domain.
    pub fn seal_bytes(&self, domain: u32, iv: &[u8; 16], p: &mut [u8; 4096])
        ensures { p.new ≡ cbc (domain_key self.now.keys domain) iv.now p.old }
    {
        aes_cbc::seal_page(self.keys.of_domain(domain), iv, p);
    }

    /// Deciphers a page of bytes in place, whatever they are, under the key of a domain.
    pub fn open_bytes(&self, domain: u32, iv: &[u8; 16], p: &mut [u8; 4096])
        ensures { IsPlain (domain_key self.now.keys domain) iv.now p.old p.new }
    {
        aes_cbc::open_page(self.keys.of_domain(domain), iv, p);
    }
}
