//! The recorded pages of a frozen state.
ghost use Rattle.std.specs.Prelude.{◌≡◌, ◌+◌, ◌*◌, ◌≤◌, length, None, IfOk, OnOk};
ghost use Rattle.cloak_model.specs.Fields.{first_in};
ghost use Rattle.frozen_state.specs.Ranges as ranges;
ghost use Rattle.frozen_state.specs.FrozenFault as format;
ghost use Rattle.frozen_state.specs.FrozenFault.{page_at, page_fields, recorded_fields};
ghost use Rattle.field_facts.specs.Faults.{fault_of};
ghost use Rattle.frozen_run.specs.Reading.{TellsFirst, values, recorded_in, after_recorded};

use super::fields::{meta, page_id};
use cloak_base::PageId;
use frozen_state::{FrozenFault, FrozenPage};
use std::alloc::Global;

/// The bytes of a recorded page.
const SIZE: usize = 60;

/// A page stands before another, by domain, resource and page.
fn precedes(p: PageId, q: PageId) -> bool
    ensures { result ≡ ranges.precedes p q }
{
    p.domain < q.domain
        || p.domain == q.domain
            && (p.resource < q.resource || p.resource == q.resource && p.page < q.page)
}

/// A page may stand after the last one.
fn rises(last: Option<PageId>, q: PageId) -> bool
    ensures { result ≡ format.rises last q }
{
    match last {
        None => true,
        Some(p) => precedes(p, q),
    }
}

/// A page that is recorded, and rises from the last one.
fn recorded(
    body: &[u8],
    at: usize,
    programs: u32,
    last: Option<PageId>,
) -> Result<FrozenPage, FrozenFault>
    requires { at ≤ length body.now }
    ensures fault { fault_of result ≡ first_in body.now
        (page_fields body.now programs (format.rises last (page_at body.now at)) at) }
    ensures value { IfOk result (λ p. p ≡ recorded_in body.now at) }
    ensures inside { OnOk result (at + 60 ≤ length body.now) }
{
    let page = page_id(body, at, programs)?;
    if !rises(last, page) {
        return Err(FrozenFault::Form(at as u64));
    }
    let meta = meta(body, at + 12)?;
    Ok(FrozenPage { page, meta })
}

/// The `n` recorded pages of a body, and the offset after them. Memory is taken for no more pages than the body has bytes
/// for.
pub fn read_recorded(
    alloc: Global,
    body: &[u8],
    from: usize,
    programs: u32,
    n: u32,
) -> Result<(Vec<FrozenPage>, usize), FrozenFault>
    requires { from ≤ length body.now }
    ensures fault { TellsFirst result (first_in body.now (recorded_fields body.now programs n None from)) }
    ensures value { IfOk result (λ r. r.0.items ≡ values (recorded_in body.now) after_recorded n from) }
    ensures next { IfOk result (λ r. r.1 ≡ from + 60 * n) }
    ensures inside { IfOk result (λ r. r.1 ≤ length body.now) }
{
    let room = (n as usize).min((body.len() - from) / SIZE);
    let mut pages = Vec::with_capacity(alloc, room)?;
    let mut last = None;
    let mut at = from;
    for _ in 0..n {
        let page = recorded(body, at, programs, last)?;
        pages.push_reserved(page);
        last = Some(page.page);
        at += SIZE;
    }
    Ok((pages, at))
}
