//! Tests whether a program keeps the limits of its contexts. Those of its resources and regions hold of every value of
//! their types.
ghost use Rattle.std.specs.Prelude.{◌≡◌, ◌↔◌, ◌<◌, ◌≤◌, ℕ, length, IsTrue, IfSome};
ghost use Rattle.std.specs.List.{AllByRecursion};
ghost use Rattle.cloak_model.specs.Contexts.{context_at};
ghost use Rattle.cloak_model.specs.Resources.{regions_in};
ghost use Rattle.frozen_state.specs.Limits.{IsCall, IsCopyIn, IsCopyOut, IsPhase, WaitsOnNoHart, IsPageWord, IsSteady, IsContext, IsSpace};
ghost use Rattle.frozen_state.specs.Words.{AreWords, HasContextWords, HasSlotWords, HasOwnerWord, AreFileWords};

use cloak_base::{HartId, Regs};
use cloak_model::{Owner, PageWord, Phase};
use resource_map::Resources;
use thread_context::Context;

/// The end of the addresses.
const TOP: u64 = 1 << 32;

/// Buffer and area of a call have at most 4096 bytes, and lie among the addresses.
fn is_call(regs: &Regs) -> bool
    ensures { IsTrue result ↔ IsCall regs.now }
{
    let count = regs.get(12) as u64;
    count <= 4096 && regs.get(11) as u64 + count <= TOP && regs.get(13) as u64 + count <= TOP
}

fn is_copy_in(regs: &Regs, done: u32) -> bool
    ensures { IsTrue result ↔ IsCopyIn regs.now done }
{
    let number = regs.get(16);
    (number == 1 || number == 2) && done <= regs.get(12) && is_call(regs)
}

fn is_copy_out(regs: &Regs, done: u32, total: u32) -> bool
    ensures { IsTrue result ↔ IsCopyOut regs.now done total }
{
    regs.get(16) == 3 && done <= total && total <= regs.get(12) && is_call(regs)
}

/// A call that waits is one, if it has a buffer.
fn is_waiting(regs: &Regs) -> bool
    ensures { IsTrue result ↔ IsPhase regs.now Phase.Waiting }
{
    let number = regs.get(16);
    number < 1 || number > 3 || is_call(regs)
}

/// The registers are those that the phase needs.
fn is_phase(regs: &Regs, phase: &Phase) -> bool
    ensures { IsTrue result ↔ IsPhase regs.now phase.now }
{
    match *phase {
        Phase::Plain => true,
        Phase::CopyIn { done } => is_copy_in(regs, done),
        Phase::Waiting => is_waiting(regs),
        Phase::CopyOut { done, total } => is_copy_out(regs, done, total),
    }
}

/// A context that waits runs on no hart.
fn waits_on_no_hart(phase: &Phase, on: Option<HartId>) -> bool
    ensures { IsTrue result ↔ WaitsOnNoHart phase.now on }
{
    match *phase {
        Phase::Waiting => on.is_none(),
        _ => true,
    }
}

fn is_page_word(word: PageWord) -> bool
    ensures { IsTrue result ↔ IsPageWord word }
{
    word.resource < 16 && word.page < 1024 && word.at < 4096 && word.at % 4 == 0
}

fn is_mark(mark: Option<PageWord>) -> bool
    ensures { IsTrue result ↔ IfSome mark IsPageWord }
{
    match mark {
        None => true,
        Some(word) => is_page_word(word),
    }
}

fn is_hart(on: Option<HartId>) -> bool
    ensures { IsTrue result ↔ IfSome on (λ hart. hart.0 < 4) }
{
    match on {
        None => true,
        Some(hart) => hart.0 < 4,
    }
}

/// A context, whatever its hart and its space are.
fn is_steady(c: &Context) -> bool
    ensures { IsTrue result ↔ IsSteady c.now }
{
    let _ = c.regs.words();
    let _ = c.regs.get(0);
    is_phase(&c.regs, &c.phase) && is_mark(c.mark)
}

/// The context of a program.
fn is_context(r: &Resources, c: &Context) -> bool
    ensures { IsTrue result ↔ IsContext r.now c.now }
{
    is_steady(c) && waits_on_no_hart(&c.phase, c.on) && is_hart(c.on) && r.has_space(c.space)
}

/// A slot is free, or has the context of a program.
fn is_slot(r: &Resources, slot: &Option<Context>) -> bool
    ensures { IsTrue result ↔ IfSome slot.now (IsContext r.now) }
{
    match slot {
        None => true,
        Some(c) => is_context(r, c),
    }
}

/// Each slot is free, or has the context of a program.
pub fn are_slots(r: &Resources, slots: &[Option<Context>]) -> bool
    ensures { IsTrue result ↔ ((slot : ℕ) → IfSome (context_at slots.now slot) (IsContext r.now)) }
{
    for slot in slots {
        if !is_slot(r, slot) {
            return false;
        }
    }
    true
}

/// Registers are words. It does nothing.
fn words_fit(words: &[u32; 32])
    ensures { AreWords words.now }
{
    for word in words {
        let _word = *word;
    }
}

/// A context has words. It does nothing.
fn context_words(c: &Context)
    ensures { HasContextWords c.now }
{
    let _pc = c.pc;
    words_fit(c.regs.words());
}

/// Each slot has words. It does nothing.
pub fn slot_words(slots: &[Option<Context>])
    ensures { AllByRecursion HasSlotWords slots.now }
{
    for slot in slots {
        if let Some(c) = slot {
            context_words(c);
        }
    }
}

/// The number of a file is a word. It does nothing.
fn owner_word(owner: Owner)
    ensures { HasOwnerWord owner }
{
    if let Owner::File(_number) = owner {}
}

/// The numbers of files are words. It does nothing.
pub fn file_words(r: &Resources)
    ensures { AreFileWords r.now }
{
    r.sound();
    for n in 0..16 {
        if let Some((owner, _)) = r.resource(n) {
            owner_word(owner);
        }
    }
}

/// What holds of the regions of each space. It does nothing.
pub fn spaces_apart(r: &Resources)
    ensures { (space : ℕ) → IsSpace (regions_in r.now space) }
{
    r.sound();
    for space in 0..8 {
        r.apart(space);
    }
}
