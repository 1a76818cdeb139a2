//! Which pages are owed to frames.
ghost use Rattle.std.specs.Prelude.{◌≡◌, ◌*◌, ◌<◌, not, false, true, [], length, slice_index_or, slice_set, IfOk, IfErr};
ghost use Rattle.frozen_state.specs.declared.fault.FrozenFault.TheVariants as faults;
ghost use Rattle.frozen_run.specs.OwedPages.{TellsOwed, place_of};

use cloak_base::PageId;
use frozen_state::FrozenFault;
use std::alloc::Global;

/// The place of a page in a row of all pages.
fn place(q: PageId) -> usize
    ensures { result ≡ place_of q }
{
    (q.domain as usize * 16 + q.resource as usize) * 1024 + q.page as usize
}

/// A row for the pages of this many programs, none of which is owed.
pub fn none_owed(alloc: Global, programs: u32) -> Result<Vec<bool>, FrozenFault>
    ensures none { IfOk result (λ row. TellsOwed programs row.items []) }
    ensures fault { IfErr result (λ fault. fault ≡ faults.NoMemory) }
{
    Ok(vec![in alloc; false; programs as usize * 16384]?)
}

/// Notes that a page is owed, and returns whether it was not owed before.
pub fn note_owed(row: &mut [bool], q: PageId) -> bool
    requires { place_of q < length row.old }
    ensures new { result ≡ not (slice_index_or row.old (place_of q) false) }
    ensures noted { row.new ≡ slice_set row.old (place_of q) true }
{
    let at = place(q);
    let owed = row[at];
    row[at] = true;
    !owed
}
