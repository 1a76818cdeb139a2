ghost use Rattle.std.specs.Prelude.{◌≡◌, ◌≢◌, ◌<◌, List, [], ℕ, length, slice_index_or, slice_set, IfOk, IfErr};
ghost use Rattle.sha2.specs.Sha256.{sha256};
ghost use Rattle.cloak_base.specs.Pages.{zero_page};
ghost use Rattle.cloak_model.specs.Chain.{cbc};
ghost use Rattle.aes_block.specs.Bytes.{IsBytes};
ghost use Rattle.page_states.specs.Opening.{IsPlain, OpensTo};

use aes_block::KeySchedule;
use cloak_base::{Meta, PageId};
use frame_store::{ChangedRight, CleanRight, FrameStore, OutsideRight};
use sha2::{Digest, Sha256};

// The new bytes are made in one local page, and no call does with less: a transition of the store takes all of them by
// reference while it writes the store, so they lie outside it.

fn open_bytes(page: &mut [u8; 4096], iv: &[u8; 16], k: &KeySchedule)
    ensures { IsPlain k.now iv.now page.old page.new }
{
    aes_cbc::open_page(k, iv, page);
}

fn seal_bytes(page: &mut [u8; 4096], iv: &[u8; 16], k: &KeySchedule)
    ensures plain { IsBytes 4096 page.old }
    ensures sealed { page.new ≡ cbc k.now iv.now page.old }
{
    aes_cbc::seal_page(k, iv, page);
}

/// Opens the frame as page `q`, if it holds what `m` records.
#[tactic(auto, using(std::proofs::lemmas::Option::get_or_from_slice_get))]
pub fn open_page(
    s: &mut FrameStore,
    r: OutsideRight,
    q: PageId,
    m: &Meta,
    k: &KeySchedule,
) -> Result<CleanRight, OutsideRight>
    requires { r.0 < length s.old }
    ensures opened_where_recorded { IfOk result (λ _. sha256 (slice_index_or s.old r.0 []) ≡ m.now.digest) }
    ensures refused_where_not { IfErr result (λ _. sha256 (slice_index_or s.old r.0 []) ≢ m.now.digest) }
    ensures bytes { IfOk result (λ _.
        OpensTo k.now m.now.iv (slice_index_or s.old r.0 []) (λ plain. s.new ≡ slice_set s.old r.0 plain)) }
    ensures right { IfOk result (λ n. n ≡ record { frame = r; page = q }) }
    ensures unchanged { IfErr result (λ same. (same ≡ r) × (s.new ≡ s.old)) }
{
    if Sha256::digest(s.outside(&r).as_slice()) != m.digest {
        return Err(r);
    }
    let mut page = *s.outside(&r);
    open_bytes(&mut page, &m.iv, k);
    Ok(s.to_clean(r, q, &page))
}

/// Gives the frame to page `q`, of which nothing was shown yet.
pub fn first_page(s: &mut FrameStore, r: OutsideRight, q: PageId) -> ChangedRight
    requires { r.0 < length s.old }
    ensures bytes { s.new ≡ slice_set s.old r.0 zero_page }
    ensures right { result ≡ record { frame = r; page = q } }
{
    s.to_fresh(r, q)
}

/// Before the first write.
pub fn change(r: CleanRight) -> ChangedRight
    ensures { result ≡ r }
{
    frame_store::promote(r)
}

/// Shows again what was shown before, if `m` is what the frame was opened with.
pub fn reseal(s: &mut FrameStore, r: CleanRight, m: &Meta, k: &KeySchedule) -> OutsideRight
    requires { r.frame.0 < length s.old }
    ensures bytes { s.new ≡ slice_set s.old r.frame.0 (cbc k.now m.now.iv (slice_index_or s.old r.frame.0 [])) }
    ensures right { result ≡ r.frame }
{
    let mut page = *s.plain(&r);
    seal_bytes(&mut page, &m.iv, k);
    s.from_clean(r, &page)
}

/// Shows the changed page under an IV that was used for no other, and returns what must be recorded of it.
pub fn seal(
    s: &mut FrameStore,
    r: ChangedRight,
    iv: [u8; 16],
    k: &KeySchedule,
) -> (OutsideRight, Meta)
    requires { r.frame.0 < length s.old }
    ensures bytes { s.new ≡ slice_set s.old r.frame.0 (cbc k.now iv (slice_index_or s.old r.frame.0 [])) }
    ensures plain { IsBytes 4096 (slice_index_or s.old r.frame.0 []) }
    ensures iv { result.1.iv ≡ iv }
    ensures digest { result.1.digest ≡ sha256 (cbc k.now iv (slice_index_or s.old r.frame.0 [])) }
    ensures right { result.0 ≡ r.frame }
{
    let mut page = *s.changed(&r);
    seal_bytes(&mut page, &iv, k);
    let digest = Sha256::digest(page.as_slice());
    (s.from_changed(r, &page), Meta { iv, digest })
}

/// Shows nothing of the page.
#[tactic(auto, unfolding(cloak_base::specs::Pages::zero_page))]
pub fn wipe(s: &mut FrameStore, r: ChangedRight) -> OutsideRight
    requires { r.frame.0 < length s.old }
    ensures bytes { s.new ≡ slice_set s.old r.frame.0 zero_page }
    ensures right { result ≡ r.frame }
{
    s.from_changed(r, &[0; 4096])
}
