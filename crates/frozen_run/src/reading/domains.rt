//! The programs of a frozen state.
ghost use Rattle.std.specs.Prelude.{◌≡◌, ◌≤◌, ◌<◌, ◌^◌, length, IfOk, IfErr, OnOk};
ghost use Rattle.cloak_model.specs.Fields.{first_in, parts, after_parts};
ghost use Rattle.frozen_state.specs.declared.fault.FrozenFault.TheVariants as faults;
ghost use Rattle.frozen_state.specs.FrozenFault.{maybe_fields, after_maybe, violation_fields, after_violation, domain_fields, after_domain};
ghost use Rattle.field_facts.specs.Faults.{fault_of};
ghost use Rattle.frozen_run.specs.Reading.{TellsFirst, values, maybe_in, violation_in, domain_in, domains_in};

use super::fields::{byte_below, maybe_word, meta, read_page, word, word_below};
use cloak_base::{Frame, Meta, PageId, Violation};
use frozen_state::{FrozenDomain, FrozenFault};
use std::alloc::Global;

/// What ended domain `d`, if something did, and the offset after it.
#[tactic(auto, unfolding(frozen_state::specs::FrozenFault::violation_fields, crate::specs::Reading::violation_in))]
fn violation(
    body: &[u8],
    at: usize,
    d: u32,
    frames: u32,
) -> Result<(Option<Violation>, usize), FrozenFault>
    requires { at ≤ length body.now }
    ensures fault { fault_of result ≡ first_in body.now (violation_fields body.now frames at) }
    ensures value { IfOk result (λ v. v.0 ≡ violation_in body.now d at) }
    ensures next { IfOk result (λ v. v.1 ≡ after_violation body.now at) }
    ensures inside { IfOk result (λ v. v.1 ≤ length body.now) }
{
    match byte_below(body, at, 4)? {
        1 => {
            let resource = word_below(body, at + 1, 16)?;
            let page = word_below(body, at + 5, 1024)?;
            let frame = word_below(body, at + 9, frames)?;
            let page = PageId {
                domain: d,
                resource,
                page,
            };
            let frame = Frame(frame);
            Ok((Some(Violation::Page { page, frame }), at + 13))
        }
        2 => {
            let ctx = word(body, at + 1)?;
            Ok((Some(Violation::Context { ctx }), at + 5))
        }
        3 => {
            let ctx = word(body, at + 1)?;
            let root = word(body, at + 5)?;
            Ok((Some(Violation::Mapping { ctx, root }), at + 9))
        }
        _ => Ok((None, at + 1)),
    }
}

/// The page tables of eight spaces, and the offset after them.
fn roots(body: &[u8], from: usize) -> Result<([Option<u32>; 8], usize), FrozenFault>
    requires { from ≤ length body.now }
    ensures fault { fault_of result ≡ first_in body.now (parts (maybe_fields body.now) (after_maybe body.now) 8 from) }
    ensures value { IfOk result (λ r. r.0 ≡ values (maybe_in body.now) (after_maybe body.now) 8 from) }
    ensures next { IfOk result (λ r. r.1 ≡ after_parts (after_maybe body.now) 8 from) }
    ensures inside { IfOk result (λ r. r.1 ≤ length body.now) }
{
    let mut roots = [None; 8];
    let mut at = from;
    for i in 0..8 {
        let (root, next) = maybe_word(body, at)?;
        roots[i] = root;
        at = next;
    }
    Ok((roots, at))
}

/// Reads domain `d` into its place, and returns the offset after it.
fn read_domain(
    body: &[u8],
    at: usize,
    d: u32,
    frames: u32,
    into: &mut FrozenDomain,
) -> Result<usize, FrozenFault>
    requires { at ≤ length body.now }
    ensures fault { fault_of result ≡ first_in body.now (domain_fields body.now frames at) }
    ensures value { OnOk result (into.new ≡ domain_in body.now d at) }
    ensures next { IfOk result (λ end. end ≡ after_domain body.now at) }
    ensures inside { IfOk result (λ end. end ≤ length body.now) }
{
    let (violation, tables) = violation(body, at, d, frames)?;
    let (roots, sealed) = roots(body, tables)?;
    let meta = meta(body, sealed)?;
    read_page(body, sealed + 48, &mut into.page)?;
    into.violation = violation;
    into.roots = roots;
    into.meta = meta;
    Ok(sealed + 4144)
}

/// Places for `n` domains.
fn places(alloc: Global, n: u32) -> Result<Vec<FrozenDomain>, FrozenFault>
    ensures count { IfOk result (λ places. length places.items ≡ n) }
    ensures fault { IfErr result (λ fault. fault ≡ faults.NoMemory) }
{
    let mut places = Vec::with_capacity(alloc, n as usize)?;
    for _ in 0..n {
        places.push_reserved(FrozenDomain {
            violation: None,
            roots: [None; 8],
            meta: Meta {
                iv: [0; 16],
                digest: [0; 32],
            },
            page: [0; 4096],
        });
    }
    Ok(places)
}

/// Reads as many domains as there are places, and returns the offset after them.
fn fill(
    body: &[u8],
    from: usize,
    frames: u32,
    into: &mut [FrozenDomain],
) -> Result<usize, FrozenFault>
    requires at { from ≤ length body.now }
    requires few { length into.old < 2 ^ 32 }
    ensures fault { fault_of result ≡ first_in body.now
        (parts (domain_fields body.now frames) (after_domain body.now) (length into.old) from) }
    ensures value { OnOk result (into.new ≡ domains_in body.now 0 (length into.old) from) }
    ensures next { IfOk result (λ end. end ≡ after_parts (after_domain body.now) (length into.old) from) }
    ensures inside { IfOk result (λ end. end ≤ length body.now) }
{
    let mut at = from;
    for d in 0..into.len() {
        at = read_domain(body, at, d as u32, frames, &mut into[d])?;
    }
    Ok(at)
}

/// The `n` domains of a body, and the offset after them.
pub fn read_domains(
    alloc: Global,
    body: &[u8],
    from: usize,
    frames: u32,
    n: u32,
) -> Result<(Vec<FrozenDomain>, usize), FrozenFault>
    requires { from ≤ length body.now }
    ensures fault { TellsFirst result (first_in body.now
        (parts (domain_fields body.now frames) (after_domain body.now) n from)) }
    ensures value { IfOk result (λ r. r.0.items ≡ domains_in body.now 0 n from) }
    ensures next { IfOk result (λ r. r.1 ≡ after_parts (after_domain body.now) n from) }
    ensures inside { IfOk result (λ r. r.1 ≤ length body.now) }
{
    let mut domains = places(alloc, n)?;
    let end = fill(body, from, frames, &mut domains)?;
    Ok((domains, end))
}
