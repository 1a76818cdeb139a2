//! The fields of a body, each at its offset. A field that is not whole is named by the first byte that is missing, and
//! one that breaks its rule by its offset.
ghost use Rattle.std.specs.Prelude.{◌≡◌, ◌+◌, ◌≤◌, ◌<◌, ◌∷◌, [], length, take, drop, slice_index, IfOk, OnOk};
ghost use Rattle.cloak_model.specs.Fields as spec;
ghost use Rattle.cloak_model.specs.Fields.{fault_in, first_in};
ghost use Rattle.cloak_model.specs.StoreFault.{long_at};
ghost use Rattle.frozen_state.specs.FrozenFault as format;
ghost use Rattle.frozen_state.specs.FrozenFault.{any_in, maybe_fields, after_maybe, page_at};
ghost use Rattle.field_facts.specs.Faults.{fault_of};
ghost use Rattle.frozen_run.specs.Reading.{maybe_in, meta_in};

use cloak_base::{Meta, PageId};
use frozen_state::FrozenFault;

/// Whether `n` bytes are there from an offset on.
pub fn whole(body: &[u8], at: usize, n: usize) -> Result<(), FrozenFault>
    requires { at ≤ length body.now }
    ensures fault { fault_of result ≡ fault_in body.now (any_in body.now at n) }
    ensures inside { OnOk result (at + n ≤ length body.now) }
{
    if body.len() - at < n {
        return Err(FrozenFault::Form(body.len() as u64));
    }
    Ok(())
}

/// `N` bytes.
fn bytes<const N: usize>(body: &[u8], at: usize) -> Result<[u8; N], FrozenFault>
    requires { at ≤ length body.now }
    ensures fault { fault_of result ≡ fault_in body.now (any_in body.now at N) }
    ensures value { IfOk result (λ bytes. bytes ≡ take N (drop at body.now)) }
    ensures inside { OnOk result (at + N ≤ length body.now) }
{
    whole(body, at, N)?;
    let mut bytes = [0; N];
    bytes.copy_from_slice(&body[at..at + N]);
    Ok(bytes)
}

/// The bytes of a page, which are put into their place.
pub fn read_page(body: &[u8], at: usize, into: &mut [u8; 4096]) -> Result<(), FrozenFault>
    requires { at ≤ length body.now }
    ensures fault { fault_of result ≡ fault_in body.now (any_in body.now at 4096) }
    ensures value { OnOk result (into.new ≡ take 4096 (drop at body.now)) }
    ensures inside { OnOk result (at + 4096 ≤ length body.now) }
{
    whole(body, at, 4096)?;
    into.copy_from_slice(&body[at..at + 4096]);
    Ok(())
}

/// A byte below a limit.
pub fn byte_below(body: &[u8], at: usize, limit: u8) -> Result<u8, FrozenFault>
    requires { at ≤ length body.now }
    ensures fault { fault_of result ≡ fault_in body.now (format.byte_below body.now at limit) }
    ensures value { IfOk result (λ b. b ≡ slice_index body.now at) }
    ensures inside { OnOk result (at + 1 ≤ length body.now) }
{
    whole(body, at, 1)?;
    let byte = body[at];
    if byte >= limit {
        return Err(FrozenFault::Form(at as u64));
    }
    Ok(byte)
}

/// A number of 32 bits.
pub fn word(body: &[u8], at: usize) -> Result<u32, FrozenFault>
    requires { at ≤ length body.now }
    ensures fault { fault_of result ≡ fault_in body.now (any_in body.now at 4) }
    ensures value { IfOk result (λ n. n ≡ spec.number body.now at) }
    ensures inside { OnOk result (at + 4 ≤ length body.now) }
{
    let bytes = bytes(body, at)?;
    Ok(u32::from_le_bytes(bytes))
}

/// A number of 32 bits below a limit.
pub fn word_below(body: &[u8], at: usize, limit: u32) -> Result<u32, FrozenFault>
    requires { at ≤ length body.now }
    ensures fault { fault_of result ≡ fault_in body.now (format.word_below body.now at limit) }
    ensures value { IfOk result (λ n. n ≡ spec.number body.now at) }
    ensures inside { OnOk result (at + 4 ≤ length body.now) }
    ensures below { IfOk result (λ n. n < limit) }
{
    let n = word(body, at)?;
    if n >= limit {
        return Err(FrozenFault::Form(at as u64));
    }
    Ok(n)
}

/// A number of 64 bits.
pub fn long(body: &[u8], at: usize) -> Result<u64, FrozenFault>
    requires { at ≤ length body.now }
    ensures fault { fault_of result ≡ fault_in body.now (any_in body.now at 8) }
    ensures value { IfOk result (λ n. n ≡ long_at body.now at) }
    ensures inside { OnOk result (at + 8 ≤ length body.now) }
{
    let bytes = bytes(body, at)?;
    Ok(u64::from_le_bytes(bytes))
}

/// Nothing or a number of 32 bits, and the offset after it.
pub fn maybe_word(body: &[u8], at: usize) -> Result<(Option<u32>, usize), FrozenFault>
    requires { at ≤ length body.now }
    ensures fault { fault_of result ≡ first_in body.now (maybe_fields body.now at) }
    ensures value { IfOk result (λ m. m.0 ≡ maybe_in body.now at) }
    ensures next { IfOk result (λ m. m.1 ≡ after_maybe body.now at) }
    ensures inside { IfOk result (λ m. m.1 ≤ length body.now) }
{
    if byte_below(body, at, 2)? == 1 {
        let word = word(body, at + 1)?;
        return Ok((Some(word), at + 5));
    }
    Ok((None, at + 1))
}

/// Domain, resource and page, each below its limit.
pub fn page_id(body: &[u8], at: usize, programs: u32) -> Result<PageId, FrozenFault>
    requires { at ≤ length body.now }
    ensures fault { fault_of result ≡ first_in body.now
        (format.word_below body.now at programs ∷ format.word_below body.now (at + 4) 16
        ∷ format.word_below body.now (at + 8) 1024 ∷ []) }
    ensures value { IfOk result (λ q. q ≡ page_at body.now at) }
    ensures inside { OnOk result (at + 12 ≤ length body.now) }
    ensures domain { IfOk result (λ q. q.domain < programs) }
    ensures resource { IfOk result (λ q. q.resource < 16) }
    ensures page { IfOk result (λ q. q.page < 1024) }
{
    let domain = word_below(body, at, programs)?;
    let resource = word_below(body, at + 4, 16)?;
    let page = word_below(body, at + 8, 1024)?;
    Ok(PageId {
        domain,
        resource,
        page,
    })
}

/// An initialization vector and a digest.
pub fn meta(body: &[u8], at: usize) -> Result<Meta, FrozenFault>
    requires { at ≤ length body.now }
    ensures fault { fault_of result ≡ first_in body.now (any_in body.now at 16 ∷ any_in body.now (at + 16) 32 ∷ []) }
    ensures value { IfOk result (λ m. m ≡ meta_in body.now at) }
    ensures inside { OnOk result (at + 48 ≤ length body.now) }
{
    let iv = bytes(body, at)?;
    let digest = bytes(body, at + 16)?;
    Ok(Meta { iv, digest })
}
