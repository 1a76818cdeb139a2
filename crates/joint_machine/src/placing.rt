//! The pages of programs as a run begins.
ghost use Rattle.std.specs.Prelude.{◌≡◌, ◌≤◌, ◌+◌, ◌-◌, ◌<◌, ℕ, [], length, reverse, take, drop, All};
ghost use Rattle.cloak_model.specs.Bundle.{IsProgramIn};
ghost use Rattle.cloak_model.specs.Cloaking.{CloakedMemory};
ghost use Rattle.cloak_model.specs.Opening as spec;
ghost use Rattle.cloak_model.specs.PageMoves.{place};
ghost use Rattle.cloak_pager.specs.State.{held_in};
ghost use Rattle.cloaked_side.specs.Holding.{Holds, SameSize, domains_in, frames_of};
ghost use Rattle.joint_machine.specs.Starting.{IsReady, KeepsUnplaced, PlacesTo};

use cloak_base::{Frame, PageId};
use cloak_model::{Program, Sequence};
use cloaked_side::Memory;

/// Takes the next page out of bytes of which the last one stands first. They are given back.
fn take_page(bytes: &mut Vec<u8>) -> [u8; 4096]
    requires { 4096 ≤ length bytes.old.items }
    ensures page { result ≡ reverse (drop (length bytes.old.items - 4096) bytes.old.items) }
    ensures rest { bytes.new.items ≡ take (length bytes.old.items - 4096) bytes.old.items }
{
    let from = bytes.len() - 4096;
    let Ok(mut page) = <[u8; 4096]>::try_from(&bytes[from..]) else {
        unreachable!();
    };
    page.reverse();
    bytes.truncate(from);
    bytes.shrink_to_fit();
    page
}

/// Places a page of a program, whose first page is placed in this frame, by the next draw. False if there is none.
fn place_page(memory: &mut Memory, domain: u32, first: u32, page: u32, bytes: &[u8; 4096]) -> bool
    requires domain { domain < domains_in memory.old }
    requires page { page < 1024 }
    requires frame { first + page < frames_of memory.old }
    requires ready { IsReady memory.old.pager domain page }
    ensures size { SameSize memory.old memory.new }
    ensures ready { IsReady memory.new.pager domain (page + 1) }
    ensures others { KeepsUnplaced memory.old.pager memory.new.pager }
    ensures empty { memory.old.shadows.live ≡ [] → memory.new.shadows.live ≡ [] }
    ensures places { (m : CloakedMemory) → Holds memory.old m → PlacesTo memory.new result
        (place (record { domain = domain; resource = 0; page = page }) (first + page) bytes.now m) }
{
    memory.pager.whole();
    let q = PageId {
        domain,
        resource: 0,
        page,
    };
    let f = Frame(first + page);
    if !memory.pager.place(q, f, bytes, &mut memory.stream) {
        return false;
    }
    memory.reservations.frame_written(f);
    memory.shadows.kill_dependents(f);
    memory.draws = memory.draws.saturating_add(1);
    true
}

/// Places all pages of a program, by rising number, and gives each one's bytes back as it is placed. False if a draw is
/// missing.
fn place_pages(memory: &mut Memory, domain: u32, p: Program) -> bool
    requires domain { domain < domains_in memory.old }
    requires program { IsProgramIn (frames_of memory.old) p }
    requires ready { IsReady memory.old.pager domain 0 }
    ensures size { SameSize memory.old memory.new }
    ensures ready { IsReady memory.new.pager (domain + 1) 0 }
    ensures others { KeepsUnplaced memory.old.pager memory.new.pager }
    ensures empty { memory.old.shadows.live ≡ [] → memory.new.shadows.live ≡ [] }
    ensures places { (m : CloakedMemory) → Holds memory.old m →
        PlacesTo memory.new result (spec.place_pages domain p p.start.pages m) }
{
    let Program {
        place,
        start,
        bytes,
        ..
    } = p;
    let mut bytes = bytes.into_vec();
    bytes.reverse();
    for page in 0..start.pages {
        if !place_page(memory, domain, place, page, &take_page(&mut bytes)) {
            return false;
        }
    }
    true
}

/// Places the pages of all programs, in order, and gives their bytes back. False if a draw is missing.
pub(crate) fn place_programs(memory: &mut Memory, programs: Sequence<Program>) -> bool
    requires domains { domains_in memory.old ≡ length programs }
    requires programs { All (IsProgramIn (frames_of memory.old)) programs }
    requires few { length programs ≤ 4 }
    requires ready { IsReady memory.old.pager 0 0 }
    ensures size { SameSize memory.old memory.new }
    ensures outside { (k : ℕ) → held_in memory.new.pager k ≡ None }
    ensures others { KeepsUnplaced memory.old.pager memory.new.pager }
    ensures empty { memory.old.shadows.live ≡ [] → memory.new.shadows.live ≡ [] }
    ensures places { (m : CloakedMemory) → Holds memory.old m →
        PlacesTo memory.new result (spec.place_programs 0 programs m) }
{
    let mut programs = programs.into_vec();
    programs.reverse();
    let mut domain = 0;
    while let Some(p) = programs.pop() {
        if !place_pages(memory, domain, p) {
            return false;
        }
        domain += 1;
    }
    true
}
