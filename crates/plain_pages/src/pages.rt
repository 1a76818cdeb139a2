ghost use Rattle.std.specs.Prelude.{◌≡◌, ◌<◌, ◌≤◌, ◌+◌, ◌-◌, ◌*◌, ◌%◌, ℕ, List, [], slice_index_or, slice_set, length, vec_capacity, replicate, IfOk};
ghost use Rattle.cloak_base.specs.Pages.{zero_page};
ghost use Rattle.cloak_model.specs.Effect.{IsWidth};
ghost use Rattle.cloak_model.specs.Memory.{with_value_in};
ghost use Rattle.cloak_model.specs.Opening.{program_page};
ghost use Rattle.plain_pages.specs.Places.{page_at_start, pages_to};

use cloak_base::{NoMemory, PageId};
use cloak_model::{Program, set_value_in};
use std::alloc::Global;
use std::marker::Model;

/// A page in which nothing was stored yet.
static ZEROS: [u8; 4096] = [0; 4096];

/// The pages of all resources, one resource of 1024 pages after another. Pages after the last one in which something
/// was stored are zeros, and only their room is there: the system gives it memory as something is stored.
#[derive(Drop)]
pub struct PlainPages {
    kept: Vec<[u8; 4096]>,
}

impl Model for PlainPages {
    ghost use Rattle.std.specs.Prelude.{List, ℕ, length, vec_capacity};
    ghost use Rattle.plain_pages.specs.Places.{HasRoom, pages_to};

    ghost Value = { List (List ℕ) };

    ghost view = { λ p. pages_to p.kept.items 16384 };

    ghost invariant = { λ p. HasRoom (length p.kept.items) (vec_capacity p.kept) };
}

/// Where a page stands among those of all resources.
pub fn page_place(q: PageId) -> usize
    requires resource { q.resource < 16 }
    requires page { q.page < 1024 }
    ensures value { result ≡ q.resource * 1024 + q.page }
    ensures inside { result < 16384 }
{
    q.resource as usize * 1024 + q.page as usize
}

/// The bytes of a page of a program.
fn page_bytes(p: &Program, page: u32) -> &[u8; 4096]
    requires { 4096 * page + 4096 ≤ length p.now.bytes }
    ensures { result.now ≡ program_page p.now.bytes page }
{
    let at = page as usize * 4096;
    let Ok(bytes) = <&[u8; 4096]>::try_from(&p.bytes.as_slice()[at..at + 4096]) else {
        unreachable!();
    };
    bytes
}

/// Makes pages of zeros up to this place.
#[tactic(auto, unfolding(cloak_base::specs::Pages::zero_page))]
fn reach(kept: &mut Vec<[u8; 4096]>, place: usize)
    requires { place < vec_capacity kept.old }
    ensures pages { kept.new.items ≡ pages_to kept.old.items (place + 1) }
    ensures capacity { vec_capacity kept.new ≡ vec_capacity kept.old }
{
    while kept.len() <= place {
        kept.push_reserved([0; 4096]);
    }
}

impl PlainPages {
    /// The pages as a program starts. The one call that takes memory.
    pub fn open(alloc: Global, p: &Program) -> Result<PlainPages, NoMemory>
        requires few { p.now.start.pages ≤ 1024 }
        requires bytes { length p.now.bytes ≡ 4096 * p.now.start.pages }
        ensures count { IfOk result (λ pages. length pages ≡ 16384) }
        ensures pages { IfOk result (λ pages. (k : ℕ) → k < 16384 → slice_index_or pages k [] ≡ page_at_start p.now k) }
    {
        let mut kept = Vec::with_capacity(alloc, 16384)?;
        for page in 0..p.start.pages {
            kept.push_reserved(*page_bytes(p, page));
        }
        Ok(PlainPages { kept })
    }

    /// The bytes of the page at a place.
    #[tactic(auto, unfolding(cloak_base::specs::Pages::zero_page))]
    pub fn at(&self, place: usize) -> &[u8; 4096]
        requires { place < 16384 }
        ensures { result.now ≡ slice_index_or self.now place [] }
    {
        if place < self.kept.len() {
            &self.kept[place]
        } else {
            &ZEROS
        }
    }

    /// Stores the lowest 1, 2 or 4 bytes of a value at a place in a page.
    pub fn store(&mut self, place: usize, at: u32, width: u32, value: u32)
        requires place { place < 16384 }
        requires width { IsWidth width }
        requires inside { at < 4096 }
        requires aligned { at % width ≡ 0 }
        ensures pages { self.new ≡ slice_set self.old place (with_value_in (slice_index_or self.old place []) at width value) }
    {
        reach(&mut self.kept, place);
        set_value_in(&mut self.kept[place], at as usize, width, value)
    }

    /// Makes the page at a place these bytes.
    pub fn set(&mut self, place: usize, bytes: &[u8; 4096])
        requires { place < 16384 }
        ensures pages { self.new ≡ slice_set self.old place bytes.now }
        ensures all { length self.old ≡ 16384 }
    {
        reach(&mut self.kept, place);
        self.kept[place] = *bytes;
    }

    /// Makes the page at a place zeros.
    #[tactic(auto, unfolding(cloak_base::specs::Pages::zero_page))]
    fn wipe_page(&mut self, place: usize)
        requires { place < 16384 }
        ensures pages { self.new ≡ slice_set self.old place zero_page }
        ensures all { length self.old ≡ 16384 }
    {
        if place < self.kept.len() {
            self.kept[place] = [0; 4096];
        }
    }

    /// Makes the page at a place that of another.
    #[tactic(auto, unfolding(cloak_base::specs::Pages::zero_page))]
    fn copy_page(&mut self, from: usize, to: usize)
        requires from { from < 16384 }
        requires to { to < 16384 }
        ensures pages { self.new ≡ slice_set self.old to (slice_index_or self.old from []) }
        ensures all { length self.old ≡ 16384 }
    {
        if from < self.kept.len() {
            reach(&mut self.kept, to);
            self.kept[to] = self.kept[from];
        } else {
            self.wipe_page(to);
        }
    }

    /// Makes the pages of a resource those of another.
    pub fn copy(&mut self, from: u32, to: u32)
        requires from { from < 16 }
        requires to { to < 16 }
        ensures inside { (k : ℕ) → to * 1024 ≤ k → k < to * 1024 + 1024 →
            slice_index_or self.new k [] ≡ slice_index_or self.old (from * 1024 + (k - to * 1024)) [] }
        ensures below { (k : ℕ) → k < to * 1024 → slice_index_or self.new k [] ≡ slice_index_or self.old k [] }
        ensures above { (k : ℕ) → to * 1024 + 1024 ≤ k → slice_index_or self.new k [] ≡ slice_index_or self.old k [] }
        ensures count { length self.new ≡ length self.old }
    {
        let source = from as usize * 1024;
        let target = to as usize * 1024;
        for page in 0..1024usize {
            self.copy_page(source + page, target + page);
        }
    }

    /// Makes the pages of a resource zeros.
    pub fn wipe(&mut self, resource: u32)
        requires { resource < 16 }
        ensures inside { (k : ℕ) → resource * 1024 ≤ k → k < resource * 1024 + 1024 → slice_index_or self.new k [] ≡ zero_page }
        ensures below { (k : ℕ) → k < resource * 1024 → slice_index_or self.new k [] ≡ slice_index_or self.old k [] }
        ensures above { (k : ℕ) → resource * 1024 + 1024 ≤ k → slice_index_or self.new k [] ≡ slice_index_or self.old k [] }
        ensures count { length self.new ≡ length self.old }
    {
        let first = resource as usize * 1024;
        for page in 0..1024usize {
            self.wipe_page(first + page);
        }
    }

    /// Makes all pages zeros.
    pub fn wipe_all(&mut self)
        ensures { self.new ≡ replicate 16384 zero_page }
    {
        self.kept.clear();
    }
}
