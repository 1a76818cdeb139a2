//! What a context of a program that runs alone is about to do, and what its pages hold.
ghost use Rattle.std.specs.Prelude.{◌≡◌, ◌<◌, ℕ, List, None, Some};
ghost use Rattle.cloak_model.specs.DomainAlone as model;
ghost use Rattle.alone_views.specs.DomainStanding.{StandsForDomain};
ghost use Rattle.run_trace.specs.ProgramTrace as spec;

use alone_views::DomainAlone;
use cloak_base::PageId;
use cloak_model::{Phase, value_in};
use step_lines::{ContextAhead, MemoryReach, ReachedPage, context_sight, is_width, reach_of};
use thread_context::Context;

/// The value of so many bytes of a page at an address that is a multiple of their count; 0 at any other.
fn value_of_page(page: &[u8; 4096], address: u32, width: u32) -> u32
    ensures { result ≡ spec.value_of_page page.now address width }
{
    if is_width(width) && address % width == 0 {
        value_in(page, (address % 4096) as usize, width)
    } else {
        0
    }
}

/// The value in a page of the program.
fn value_in_page(program: &DomainAlone, q: PageId, address: u32, width: u32) -> u32
    requires resource { q.resource < 16 }
    requires page { q.page < 1024 }
    ensures { (number : ℕ) (turns : List ℕ) (s : model.DomainAlone) →
        StandsForDomain number turns program.now s → s.unfit ≡ None →
        result ≡ spec.value_in_page s.part q address width }
{
    value_of_page(program.page(q), address, width)
}

/// The value at an address of a space; 0 if no page of the program lies there.
pub fn cloaked_value(program: &DomainAlone, space: u32, address: u32, width: u32) -> u32
    ensures { (number : ℕ) (turns : List ℕ) (s : model.DomainAlone) →
        StandsForDomain number turns program.now s → s.unfit ≡ None →
        result ≡ spec.cloaked_value s.part space address width }
{
    match program.space_page(space, address) {
        None => 0,
        Some(q) => value_in_page(program, q, address, width),
    }
}

/// The word at an address of a space, if a page of the program lies there.
fn word_there(program: &DomainAlone, space: u32, pc: u32) -> Option<u32>
    ensures { (number : ℕ) (turns : List ℕ) (s : model.DomainAlone) →
        StandsForDomain number turns program.now s → s.unfit ≡ None →
        result ≡ spec.word_by s.part pc (spec.page_there s.part space pc) }
{
    match program.space_page(space, pc) {
        None => None,
        Some(q) => Some(value_in_page(program, q, pc, 4)),
    }
}

/// The word at the program counter of a context, if its next step is an instruction of a page of its own.
fn word_of(program: &DomainAlone, c: &Context) -> Option<u32>
    ensures { (number : ℕ) (turns : List ℕ) (s : model.DomainAlone) →
        StandsForDomain number turns program.now s → s.unfit ≡ None → result ≡ spec.word_of s.part c.now }
{
    match c.phase {
        Phase::Plain => word_there(program, c.space, c.pc),
        Phase::CopyIn { .. } => None,
        Phase::Waiting => None,
        Phase::CopyOut { .. } => None,
    }
}

/// What an access reaches, which finds a page of the program with this value, or none.
fn reached_as(is_cloaked: bool, value: u32, r: &MemoryReach) -> ReachedPage
    ensures { result ≡ spec.reached_as is_cloaked value r.now }
{
    ReachedPage {
        is_store: r.is_store,
        address: r.address,
        width: r.width,
        is_cloaked,
        value,
        stored: r.stored,
    }
}

/// What an access reaches outside the program's pages; an atomic one nothing.
fn uncloaked_reached(r: &MemoryReach) -> Option<ReachedPage>
    ensures { result ≡ spec.uncloaked_reached r.now }
{
    if r.is_atomic {
        None
    } else {
        Some(reached_as(false, 0, r))
    }
}

/// What an access reaches in a space.
fn page_reached(program: &DomainAlone, space: u32, r: &MemoryReach) -> Option<ReachedPage>
    ensures { (number : ℕ) (turns : List ℕ) (s : model.DomainAlone) →
        StandsForDomain number turns program.now s → s.unfit ≡ None →
        result ≡ spec.page_reached s.part r.now (spec.page_there s.part space r.now.address) }
{
    match program.space_page(space, r.address) {
        None => uncloaked_reached(r),
        Some(q) => {
            let value = value_in_page(program, q, r.address, r.width);
            Some(reached_as(true, value, r))
        }
    }
}

/// What an access reaches in a space, if there is one.
fn page_if(program: &DomainAlone, space: u32, reach: &Option<MemoryReach>) -> Option<ReachedPage>
    ensures { (number : ℕ) (turns : List ℕ) (s : model.DomainAlone) →
        StandsForDomain number turns program.now s → s.unfit ≡ None →
        result ≡ spec.page_if s.part space reach.now }
{
    match reach {
        None => None,
        Some(r) => page_reached(program, space, r),
    }
}

/// What the instruction of a word reaches.
fn pages_reached(program: &DomainAlone, c: &Context, word: Option<u32>) -> Option<ReachedPage>
    ensures { (number : ℕ) (turns : List ℕ) (s : model.DomainAlone) →
        StandsForDomain number turns program.now s → s.unfit ≡ None →
        result ≡ spec.pages_reached s.part c.now word }
{
    match word {
        None => None,
        Some(word) => {
            let reach = reach_of(&c.regs, c.pc, word);
            page_if(program, c.space, &reach)
        }
    }
}

/// What a context is about to do.
pub fn context_ahead(program: &DomainAlone, c: &Context) -> ContextAhead
    ensures { (number : ℕ) (turns : List ℕ) (s : model.DomainAlone) →
        StandsForDomain number turns program.now s → s.unfit ≡ None →
        result ≡ spec.context_ahead s.part c.now }
{
    let word = word_of(program, c);
    ContextAhead {
        sight: context_sight(c),
        phase: c.phase,
        word,
        reached: pages_reached(program, c, word),
    }
}
