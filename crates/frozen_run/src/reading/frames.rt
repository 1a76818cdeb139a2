//! The frames of a frozen state.
ghost use Rattle.std.specs.Prelude.{◌≡◌, ◌+◌, ◌*◌, ◌≤◌, ◌∷◌, not, [], List, length, IfOk, IfErr, OnOk};
ghost use Rattle.std.specs.List.{list_any};
ghost use Rattle.cloak_base.specs.Pages.{same_page};
ghost use Rattle.cloak_base.specs.declared.names.PageId.{PageId};
ghost use Rattle.cloak_model.specs.Fields.{first_in, after_parts};
ghost use Rattle.frozen_state.specs.declared.fault.FrozenFault.TheVariants as faults;
ghost use Rattle.frozen_state.specs.FrozenFault.{page_at, page_fields, frames_fields, after_frame};
ghost use Rattle.frozen_run.specs.OwedPages.{TellsOwed};
ghost use Rattle.field_facts.specs.Faults.{fault_of};
ghost use Rattle.frozen_run.specs.Reading.{TellsFirst, values, meta_in, frame_in, frame_fields, seen_after};

use super::fields::{byte_below, meta, page_id, read_page};
use super::owed::{none_owed, note_owed};
use cloak_base::{Meta, PageId};
use frozen_state::{FrozenFault, FrozenFrame};
use std::alloc::Global;

/// The page that a frame is owed, which no earlier frame is owed, and its metadata.
fn owed_page(
    body: &[u8],
    at: usize,
    programs: u32,
    row: &mut [bool],
) -> Result<(PageId, Meta), FrozenFault>
    requires at { at ≤ length body.now }
    requires row { length row.old ≡ programs * 16384 }
    ensures fault { (seen : List PageId) → TellsOwed programs row.old seen → fault_of result ≡ first_in body.now
        (page_fields body.now programs (not (list_any (same_page (page_at body.now at)) seen)) at) }
    ensures row { (seen : List PageId) → TellsOwed programs row.old seen →
        OnOk result (TellsOwed programs row.new (page_at body.now at ∷ seen)) }
    ensures value { IfOk result (λ o. o ≡ (page_at body.now at, meta_in body.now (at + 12))) }
    ensures inside { OnOk result (at + 60 ≤ length body.now) }
    ensures length { length row.new ≡ length row.old }
{
    let page = page_id(body, at, programs)?;
    if !note_owed(row, page) {
        return Err(FrozenFault::Form(at as u64));
    }
    let meta = meta(body, at + 12)?;
    Ok((page, meta))
}

/// Reads a frame into its place, and returns the offset after it.
fn read_frame(
    body: &[u8],
    at: usize,
    programs: u32,
    row: &mut [bool],
    into: &mut FrozenFrame,
) -> Result<usize, FrozenFault>
    requires at { at ≤ length body.now }
    requires row { length row.old ≡ programs * 16384 }
    ensures fault { (seen : List PageId) → TellsOwed programs row.old seen →
        fault_of result ≡ first_in body.now (frame_fields body.now programs seen at) }
    ensures row { (seen : List PageId) → TellsOwed programs row.old seen →
        OnOk result (TellsOwed programs row.new (seen_after body.now seen at)) }
    ensures value { OnOk result (into.new ≡ frame_in body.now at) }
    ensures next { IfOk result (λ end. end ≡ after_frame body.now at) }
    ensures inside { IfOk result (λ end. end ≤ length body.now) }
    ensures length { length row.new ≡ length row.old }
{
    read_page(body, at, &mut into.bytes)?;
    if byte_below(body, at + 4096, 2)? == 1 {
        let owed = owed_page(body, at + 4097, programs, row)?;
        into.owed = Some(owed);
        return Ok(at + 4157);
    }
    into.owed = None;
    Ok(at + 4097)
}

/// Places for `n` frames.
fn places(alloc: Global, n: u32) -> Result<Vec<FrozenFrame>, FrozenFault>
    ensures count { IfOk result (λ places. length places.items ≡ n) }
    ensures fault { IfErr result (λ fault. fault ≡ faults.NoMemory) }
{
    let mut places = Vec::with_capacity(alloc, n as usize)?;
    for _ in 0..n {
        places.push_reserved(FrozenFrame {
            bytes: [0; 4096],
            owed: None,
        });
    }
    Ok(places)
}

/// Reads as many frames as there are places, and returns the offset after them. At first no page is owed.
fn fill(
    body: &[u8],
    from: usize,
    programs: u32,
    row: &mut [bool],
    into: &mut [FrozenFrame],
) -> Result<usize, FrozenFault>
    requires at { from ≤ length body.now }
    requires row { TellsOwed programs row.old [] }
    ensures fault { fault_of result ≡ first_in body.now (frames_fields body.now programs (length into.old) [] from) }
    ensures value { OnOk result (into.new ≡ values (frame_in body.now) (after_frame body.now) (length into.old) from) }
    ensures next { IfOk result (λ end. end ≡ after_parts (after_frame body.now) (length into.old) from) }
    ensures inside { IfOk result (λ end. end ≤ length body.now) }
{
    let mut at = from;
    for f in 0..into.len() {
        at = read_frame(body, at, programs, row, &mut into[f])?;
    }
    Ok(at)
}

/// The `n` frames of a body, and the offset after them.
pub fn read_frames(
    alloc: Global,
    body: &[u8],
    from: usize,
    programs: u32,
    n: u32,
) -> Result<(Vec<FrozenFrame>, usize), FrozenFault>
    requires { from ≤ length body.now }
    ensures fault { TellsFirst result (first_in body.now (frames_fields body.now programs n [] from)) }
    ensures value { IfOk result (λ r. r.0.items ≡ values (frame_in body.now) (after_frame body.now) n from) }
    ensures next { IfOk result (λ r. r.1 ≡ after_parts (after_frame body.now) n from) }
    ensures inside { IfOk result (λ r. r.1 ≤ length body.now) }
{
    let mut row = none_owed(alloc, programs)?;
    let mut frames = places(alloc, n)?;
    let end = fill(body, from, programs, &mut row, &mut frames)?;
    Ok((frames, end))
}
