//! Which page each frame holds, and what was last shown of each page.
ghost use Rattle.std.specs.Prelude.{◌≡◌, ◌<◌, ◌≤◌, IfOk, List, None, Some, length, map, replicate, slice_index_or, slice_set, if◌then◌else◌};
ghost use Rattle.cloak_model.specs.declared.image.Bundle.{Bundle};
ghost use Rattle.cloak_model.specs.Items.{Item};
ghost use Rattle.replayed_run.specs.Machines.{StandAlone};
ghost use Rattle.replayed_run.specs.PagesTold as spec;
ghost use Rattle.replayed_run.specs.PagesTold.{pages_of};

use crate::machines::Machines;
use cloak_base::{NoMemory, PageId};
use cloak_model::Program;
use std::alloc::Global;

/// Bytes of a page that the kernel was shown.
#[derive(Clone, Copy)]
pub struct Showing {
    pub page: PageId,
    pub frame: u32,
    /// The step in which they were shown, 0 for the opening.
    pub step: u32,
    pub digest: [u8; 32],
}

/// The pages of a run.
#[derive(Drop)]
pub struct Pages {
    /// The page that each frame holds: a program reached it there, and it was not shown since.
    held: Vec<Option<PageId>>,
    /// What was last shown of each page, if that is known.
    last: Vec<Option<Showing>>,
}

/// Where a page stands among all: 4 programs, of each 16 resources, of each 1024 pages.
fn place_of(page: PageId) -> usize
    ensures { result ≡ spec.place_of page }
{
    (page.domain as usize * 16 + page.resource as usize) * 1024 + page.page as usize
}

/// How many places there are.
#[tactic(auto, unfolding(crate::specs::PagesTold::places))]
fn places() -> usize
    ensures { result ≡ spec.places }
{
    4 * 16 * 1024
}

/// Frames that hold no page.
fn none_held(alloc: Global, frames: u32) -> Result<Vec<Option<PageId>>, NoMemory>
    ensures { IfOk result (λ held. held.items ≡ replicate frames None) }
{
    Ok(vec![in alloc; None; frames as usize]?)
}

/// Pages of which none was shown.
fn none_shown(alloc: Global) -> Result<Vec<Option<Showing>>, NoMemory>
    ensures { IfOk result (λ last. last.items ≡ replicate spec.places None) }
{
    Ok(vec![in alloc; None; places()]?)
}

/// Sets the page that a frame holds.
fn set_held(held: &mut [Option<PageId>], frame: usize, now: Option<PageId>)
    ensures { held.new ≡ slice_set held.old frame now }
{
    if frame < held.len() {
        held[frame] = now;
    }
}

/// Sets what was last shown of the page at a place.
fn set_last(last: &mut [Option<Showing>], place: usize, now: Option<Showing>)
    ensures { last.new ≡ slice_set last.old place now }
{
    if place < last.len() {
        last[place] = now;
    }
}

/// What was last shown of a page is of this program, and of a resource that is not there any more.
fn is_gone(machines: &Machines, domain: u32, was: &Option<Showing>) -> bool
    ensures { (b : Bundle) (items : List Item) → StandAlone b items machines.now →
        spec.forgotten b items domain was.now ≡ if result then None else was.now }
{
    match was {
        None => false,
        Some(Showing { page, .. }) => {
            page.domain == domain && !machines.has_resource(domain, page.resource)
        }
    }
}

/// What was last shown of the page at this place is of no more use if it is of a resource of this program that ended.
fn forget_at(last: &mut [Option<Showing>], place: usize, machines: &Machines, domain: u32)
    requires { place < length last.old }
    ensures { (b : Bundle) (items : List Item) → StandAlone b items machines.now → last.new ≡
        slice_set last.old place (spec.forgotten b items domain (slice_index_or last.old place None)) }
{
    if is_gone(machines, domain, &last[place]) {
        last[place] = None;
    }
}

/// What was last shown of the pages of a program's resources that ended is of no more use.
fn forget_ended(last: &mut [Option<Showing>], machines: &Machines, domain: u32)
    ensures { (b : Bundle) (items : List Item) → StandAlone b items machines.now →
        last.new ≡ map (spec.forgotten b items domain) last.old }
{
    for place in 0..last.len() {
        forget_at(last, place, machines, domain);
    }
}

impl Pages {
    /// The pages as a run begins: those of the programs stand in their frames, and none was shown.
    pub fn open(alloc: Global, frames: u32, programs: &[Program]) -> Result<Pages, NoMemory>
        requires { length programs.now ≤ 4 }
        ensures { IfOk result (λ pages. pages_of pages ≡ spec.opened_pages frames programs.now) }
    {
        let mut pages = Pages {
            held: none_held(alloc, frames)?,
            last: none_shown(alloc)?,
        };
        for number in 0..programs.len() {
            pages.place(number as u32, &programs[number]);
        }
        Ok(pages)
    }

    /// The pages of a program stand in their frames.
    fn place(&mut self, domain: u32, program: &Program)
        ensures { pages_of self.new ≡ spec.program_placed domain (Some program.now) (pages_of self.old) }
    {
        for number in 0..program.start.pages {
            let page = PageId {
                domain,
                resource: 0,
                page: number,
            };
            self.reach(page, program.place as usize + number as usize);
        }
    }

    /// A program reached a page in a frame.
    pub fn reach(&mut self, page: PageId, frame: usize)
        ensures { pages_of self.new ≡ spec.reached page frame (pages_of self.old) }
    {
        set_held(self.held.as_mut_slice(), frame, Some(page));
    }

    /// The page that a frame holds.
    fn held_by(&self, frame: usize) -> Option<PageId>
        ensures { result ≡ spec.held_by (pages_of self.now) frame }
    {
        let held = self.held.as_slice();
        if frame < held.len() {
            held[frame]
        } else {
            None
        }
    }

    /// What was last shown of a page.
    pub fn shown(&self, page: PageId) -> Option<Showing>
        ensures { result ≡ spec.last_shown (pages_of self.now) page }
    {
        let last = self.last.as_slice();
        let place = place_of(page);
        if place < last.len() {
            last[place]
        } else {
            None
        }
    }

    /// A frame holds this page no more, of which this was last shown.
    fn let_go(&mut self, frame: usize, page: PageId, now: Option<Showing>)
        ensures { pages_of self.new ≡ record {
          held = slice_set self.old.held.items frame None;
          last = slice_set self.old.last.items (spec.place_of page) now;
        } }
    {
        set_held(self.held.as_mut_slice(), frame, None);
        set_last(self.last.as_mut_slice(), place_of(page), now);
    }

    /// A frame shows bytes of this digest. They are of the page that it held.
    pub fn show(&mut self, frame: u32, step: u32, digest: [u8; 32]) -> Option<Showing>
        ensures pages { pages_of self.new ≡
            spec.shown (spec.showing_of frame step digest (spec.held_by (pages_of self.old) frame)) (pages_of self.old) }
        ensures shows { result ≡ spec.showing_of frame step digest (spec.held_by (pages_of self.old) frame) }
    {
        match self.held_by(frame as usize) {
            None => None,
            Some(page) => {
                let showing = Showing {
                    page,
                    frame,
                    step,
                    digest,
                };
                self.let_go(frame as usize, page, Some(showing));
                Some(showing)
            }
        }
    }

    /// Resources of a program ended, and their pages: what is shown of such a page from now on is of another resource.
    pub fn forget(&mut self, machines: &Machines, domain: u32)
        ensures { (b : Bundle) (items : List Item) → StandAlone b items machines.now →
            pages_of self.new ≡ spec.ended_forgotten b items domain (pages_of self.old) }
    {
        forget_ended(self.last.as_mut_slice(), machines, domain);
    }

    /// A frame shows zeros: the page that it held is no more.
    pub fn wipe(&mut self, frame: u32)
        ensures { pages_of self.new ≡ spec.page_gone frame (spec.held_by (pages_of self.old) frame) (pages_of self.old) }
    {
        if let Some(page) = self.held_by(frame as usize) {
            self.let_go(frame as usize, page, None);
        }
    }
}
