//! A program's state is written as a page.
ghost use Rattle.std.specs.Prelude.{◌≡◌, ◌<◌, ◌≤◌, ◌+◌, ◌-◌, ◌*◌, ◌∷◌, ◌++◌, ℕ, Some, length, take, replicate, option_map, All, IfSome};
ghost use Rattle.std.specs.List.{flat_map};
ghost use Rattle.cloak_model.specs.Bits.{word};
ghost use Rattle.cloak_model.specs.Contexts.{context_at};
ghost use Rattle.cloak_model.specs.DomainState as spec;
ghost use Rattle.cloak_model.specs.DomainState.{Control};
ghost use Rattle.frozen_state.specs.DomainPage as page;
ghost use Rattle.domain_page.specs.Writing.{Appends, HasHart, IsOnHart, told_bytes, state_of, parts_of};

use cloak_base::HartId;
use cloak_model::{Owner, PageWord, Phase, Region};
use resource_map::Resources;
use thread_context::{Context, Contexts};

/// Writes these bytes after the first `at` of the page, and returns where they end.
fn put(into: &mut [u8; 4096], at: usize, bytes: &[u8]) -> usize
    requires { at + length bytes.now ≤ 4096 }
    ensures { Appends into.old into.new at result bytes.now }
{
    let end = at + bytes.len();
    into[at..end].copy_from_slice(bytes);
    end
}

/// Writes these words, each in four bytes.
fn put_words(into: &mut [u8; 4096], at: usize, words: &[u32]) -> usize
    requires { at + 4 * length words.now ≤ 4096 }
    ensures written { Appends into.old into.new at result (flat_map word words.now) }
    ensures end { result ≡ at + 4 * length words.now }
{
    let mut end = at;
    for word in words {
        end = put(into, end, &word.to_le_bytes());
    }
    end
}

/// A hart's number, or 255 for none.
pub fn hart_byte(on: Option<HartId>) -> u8
    requires { HasHart on }
    ensures { result ≡ spec.hart_byte on }
{
    match on {
        Some(hart) => hart.0 as u8,
        None => 255,
    }
}

/// A phase's number, and how much is done of what.
pub fn phase_numbers(phase: &Phase) -> (u8, u32, u32)
    ensures { result.0 ∷ (word result.1 ++ word result.2) ≡ spec.phase_bytes phase.now }
{
    match *phase {
        Phase::Plain => (0, 0, 0),
        Phase::CopyIn { done } => (1, done, 0),
        Phase::Waiting => (2, 0, 0),
        Phase::CopyOut { done, total } => (3, done, total),
    }
}

/// Writes a phase, in nine bytes.
fn put_phase(into: &mut [u8; 4096], at: usize, phase: &Phase) -> usize
    requires { at + 9 ≤ 4096 }
    ensures written { Appends into.old into.new at result (spec.phase_bytes phase.now) }
    ensures end { result ≡ at + 9 }
{
    let (number, done, total) = phase_numbers(phase);
    let [a, b, c, d] = done.to_le_bytes();
    let [e, f, g, h] = total.to_le_bytes();
    put(into, at, &[number, a, b, c, d, e, f, g, h])
}

/// Writes a context, in 143 bytes: its hart, phase, space, program counter and registers but x0.
fn put_context(into: &mut [u8; 4096], at: usize, c: &Context) -> usize
    requires room { at + 143 ≤ 4096 }
    requires hart { HasHart c.now.on }
    ensures written { Appends into.old into.new at result (spec.slot_bytes (Some c.now)) }
    ensures end { result ≡ at + 143 }
{
    let hart = put(into, at, &[1, hart_byte(c.on)]);
    let phase = put_phase(into, hart, &c.phase);
    let place = put_words(into, phase, &[c.space, c.pc]);
    put_words(into, place, &c.regs.words()[1..])
}

/// Writes a slot: 0 if it is free.
fn put_slot(into: &mut [u8; 4096], at: usize, slot: &Option<Context>) -> usize
    requires room { at + 143 ≤ 4096 }
    requires hart { IsOnHart slot.now }
    ensures written { Appends into.old into.new at result (spec.slot_bytes slot.now) }
    ensures few { result ≤ at + 143 }
{
    match slot {
        None => put(into, at, &[0]),
        Some(c) => put_context(into, at, c),
    }
}

fn put_slots(into: &mut [u8; 4096], at: usize, slots: &[Option<Context>]) -> usize
    requires room { at + 143 * length slots.now ≤ 4096 }
    requires harts { All IsOnHart slots.now }
    ensures written { Appends into.old into.new at result (flat_map spec.slot_bytes slots.now) }
    ensures few { result ≤ at + 143 * length slots.now }
{
    let mut end = at;
    for slot in slots {
        end = put_slot(into, end, slot);
    }
    end
}

fn put_regions(into: &mut [u8; 4096], at: usize, regions: &[Region]) -> usize
    requires { at + 16 * length regions.now ≤ 4096 }
    ensures written { Appends into.old into.new at result (flat_map spec.region_bytes regions.now) }
    ensures end { result ≡ at + 16 * length regions.now }
{
    let mut end = at;
    for g in regions {
        end = put_words(into, end, &[g.start, g.pages, g.resource, g.first]);
    }
    end
}

/// Writes a space: 0 if it is free, and else its regions.
fn put_space(into: &mut [u8; 4096], at: usize, regions: Option<&[Region]>) -> usize
    requires room { at + 261 ≤ 4096 }
    requires regions { IfSome regions (λ list. length list.now ≤ 16) }
    ensures written { Appends into.old into.new at result (spec.space_bytes (option_map (λ list. list.now) regions.entry)) }
    ensures few { result ≤ at + 261 }
{
    match regions {
        None => put(into, at, &[0]),
        Some(list) => {
            let [a, b, c, d] = (list.len() as u32).to_le_bytes();
            let start = put(into, at, &[1, a, b, c, d]);
            put_regions(into, start, list)
        }
    }
}

fn put_spaces(into: &mut [u8; 4096], at: usize, r: &Resources) -> usize
    requires { at + 2088 ≤ 4096 }
    ensures written { Appends into.old into.new at result (flat_map spec.space_bytes r.now.spaces) }
    ensures few { result ≤ at + 2088 }
{
    r.sound();
    let mut end = at;
    for space in 0..8 {
        end = put_space(into, end, r.region_list(space));
    }
    end
}

/// Writes a number of a resource, in nine bytes at most: 0 if it is free, and else its owner and pages.
fn put_resource(into: &mut [u8; 4096], at: usize, held: Option<(Owner, u32)>) -> usize
    requires { at + 9 ≤ 4096 }
    ensures written { Appends into.old into.new at result (told_bytes held) }
    ensures few { result ≤ at + 9 }
{
    let Some((owner, pages)) = held else {
        return put(into, at, &[0]);
    };
    let (tag, number) = owner_numbers(owner);
    let [a, b, c, d] = number.to_le_bytes();
    let [e, f, g, h] = pages.to_le_bytes();
    put(into, at, &[tag, a, b, c, d, e, f, g, h])
}

/// Which kind of owner it is, and its number.
fn owner_numbers(owner: Owner) -> (u8, u32)
    ensures { result.0 ∷ word result.1 ≡ spec.owner_bytes owner }
{
    match owner {
        Owner::Space(number) => (1, number),
        Owner::File(number) => (2, number),
    }
}

fn put_resources(into: &mut [u8; 4096], at: usize, r: &Resources) -> usize
    requires { at + 144 ≤ 4096 }
    ensures written { Appends into.old into.new at result (flat_map spec.resource_bytes r.now.held) }
    ensures few { result ≤ at + 144 }
{
    r.sound();
    let mut end = at;
    for n in 0..16 {
        end = put_resource(into, end, r.resource(n));
    }
    end
}

/// Writes a reservation, in 13 bytes at most: 0 if there is none.
fn put_mark(into: &mut [u8; 4096], at: usize, mark: Option<PageWord>) -> usize
    requires { at + 13 ≤ 4096 }
    ensures written { Appends into.old into.new at result (page.mark_bytes mark) }
    ensures few { result ≤ at + 13 }
{
    let Some(word) = mark else {
        return put(into, at, &[0]);
    };
    let [a, b, c, d] = word.resource.to_le_bytes();
    let [e, f, g, h] = word.page.to_le_bytes();
    let [i, j, k, l] = word.at.to_le_bytes();
    put(into, at, &[1, a, b, c, d, e, f, g, h, i, j, k, l])
}

/// The reservation of a slot. A free slot has none.
fn mark_of(slot: &Option<Context>) -> Option<PageWord>
    ensures { page.mark_bytes result ≡ page.slot_mark_bytes slot.now }
{
    match slot {
        None => None,
        Some(c) => c.mark,
    }
}

fn put_marks(into: &mut [u8; 4096], at: usize, slots: &[Option<Context>]) -> usize
    requires { at + 13 * length slots.now ≤ 4096 }
    ensures written { Appends into.old into.new at result (flat_map page.slot_mark_bytes slots.now) }
    ensures few { result ≤ at + 13 * length slots.now }
{
    let mut end = at;
    for slot in slots {
        end = put_mark(into, end, mark_of(slot));
    }
    end
}

/// Writes slots, spaces and resources from the front on, and returns where they end.
fn put_parts(into: &mut [u8; 4096], contexts: &Contexts, resources: &Resources) -> usize
    requires { (slot : ℕ) → IsOnHart (context_at contexts.now slot) }
    ensures written { Appends into.old into.new 0 result (parts_of contexts.now resources.now) }
    ensures few { result ≤ 3376 }
{
    let slots = put_slots(into, 0, contexts.slots());
    let spaces = put_spaces(into, slots, resources);
    put_resources(into, spaces, resources)
}

/// Writes the state of a program as its line of the report has it, from the front on, and returns where it ends.
pub fn write_state(contexts: &Contexts, resources: &Resources, into: &mut [u8; 4096]) -> usize
    requires { (slot : ℕ) → IsOnHart (context_at contexts.now slot) }
    ensures few { result ≤ 4096 }
    ensures front { take result into.new ≡ parts_of contexts.now resources.now }
{
    put_parts(into, contexts, resources)
}

/// Writes the state from the front on, and returns where it ends.
fn put_state(into: &mut [u8; 4096], contexts: &Contexts, resources: &Resources) -> usize
    requires { (slot : ℕ) → IsOnHart (context_at contexts.now slot) }
    ensures written { Appends into.old into.new 0 result (state_of contexts.now resources.now) }
    ensures few { result ≤ 3480 }
{
    let held = put_parts(into, contexts, resources);
    put_marks(into, held, contexts.slots())
}

/// Writes zeros from a place on.
fn clear_from(into: &mut [u8; 4096], at: usize)
    requires { at ≤ 4096 }
    ensures { into.new ≡ take at into.old ++ replicate (4096 - at) 0 }
{
    into[at..].fill(0);
}

/// Writes contexts and resources of a program as its page.
pub fn write_page(contexts: &Contexts, resources: &Resources, into: &mut [u8; 4096])
    requires { (slot : ℕ) → IsOnHart (context_at contexts.now slot) }
    ensures { (d : Control) → d.contexts ≡ contexts.now → d.resources ≡ resources.now → into.new ≡ page.domain_page d }
{
    let end = put_state(into, contexts, resources);
    clear_from(into, end);
}
