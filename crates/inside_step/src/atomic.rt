//! Atomic instructions of a context (RISC-V unprivileged manual 20191213, chapter 8), at cloaked addresses alone. What
//! is reserved is a word of a cloaked page, and no word of RAM: the kernel may move the page as it likes.
ghost use Rattle.std.specs.Prelude.{◌≡◌, ◌≢◌, ◌<◌, ◌%◌, false, IfSome, None, is_some};
ghost use Rattle.rv_atomic.specs.Table.{InRange, atomic_instruction};
ghost use Rattle.cloak_model.specs.Asking.{Follows, FollowsWhere};
ghost use Rattle.cloak_model.specs.AskPages.{HasPages};
ghost use Rattle.cloak_model.specs.Resources.{page_at};
ghost use Rattle.cloak_model.specs.KernelStep as kernel;
ghost use Rattle.cloak_model.specs.Contexts.{word_of_page, is_reserved};
ghost use Rattle.cloak_model.specs.InsideStep as spec;
ghost use Rattle.what_stays.specs.Staying.{SideStays, ContextStays, IsAny, IsFree};
ghost use Rattle.inside_step.specs.Completion.{IsLeftOpen};
ghost use Rattle.inside_step.specs.Making.{after_instruction, TellsMark};
ghost use Rattle.cloak_model.specs.Script.{played};

use crate::instruction::{go_on_with, loaded};
use cloak_base::{Kind, PageId};
use cloak_model::{Answer, PageSide, PageWord, Ran};
use resource_map::{Resources, page_at};
use rv_atomic::{Atomic, AtomicOp, combine, decode_atomic};
use thread_context::{Context, is_reserved, word_of_page};

/// LR is a load; SC and the operations are stores.
fn atomic_kind(op: AtomicOp) -> Kind
    ensures kind { result ≡ kernel.atomic_kind op }
    ensures store { op ≢ AtomicOp.Lr → result ≡ Kind.Store }
{
    match op {
        AtomicOp::Lr => Kind::Load,
        _ => Kind::Store,
    }
}

/// The cause of an address that is no multiple of 4.
fn misaligned(op: AtomicOp) -> u32
    ensures { result ≡ kernel.misaligned op }
{
    match op {
        AtomicOp::Lr => 4,
        _ => 6,
    }
}

/// The access fault of an address that is not cloaked.
fn uncloaked(op: AtomicOp) -> u32
    ensures { result ≡ spec.uncloaked op }
{
    match op {
        AtomicOp::Lr => 5,
        _ => 7,
    }
}

/// SC at a word that is reached: the word is stored if the context has it reserved. The reservation ends either way.
#[tactic(auto, using(cloak_model::proofs::ScriptLater::laters, cloak_model::proofs::PagesLater::stay_pages), unfolding(cloak_model::specs::InsideStep::atomic_granted))]
fn store_conditional<M: PageSide>(
    c: &mut Context,
    rd: u32,
    q: PageId,
    va: u32,
    operand: u32,
    m: &mut M,
    wrote: &mut Option<PageWord>,
) -> Ran
    requires nothing_yet { wrote.old ≡ None }
    requires register { rd < 32 }
    requires aligned { va % 4 ≡ 0 }
    requires writable { M.is_writable m.old q }
    ensures follows { Follows M.stands_for m.old m.new (after_instruction c.new result wrote.new)
        (played (spec.atomic_granted c.old rd AtomicOp.Sc q va operand)) }
    ensures context { ContextStays (IsLeftOpen result) c.old c.new wrote.new }
    ensures unmarked { is_some c.old.mark ≡ false → is_some c.new.mark ≡ false }
    ensures side { SideStays M.PageSide IsAny m.old m.new }
{
    let word = word_of_page(q, va);
    let reserved = is_reserved(word, c.mark);
    c.mark = None;
    if reserved {
        m.write(q, va % 4096, 4, operand);
        *wrote = Some(word);
        go_on_with(c, rd, 0)
    } else {
        go_on_with(c, rd, 1)
    }
}

/// An operation at a word that is reached: a load of the word that stood is completed, and what the operation makes of
/// it and the operand is stored.
#[tactic(auto, using(cloak_model::proofs::ScriptLater::laters, cloak_model::proofs::PagesLater::stay_pages), unfolding(cloak_model::specs::InsideStep::atomic_granted))]
fn operate<M: PageSide>(
    c: &mut Context,
    rd: u32,
    op: AtomicOp,
    q: PageId,
    va: u32,
    operand: u32,
    m: &mut M,
    wrote: &mut Option<PageWord>,
) -> Ran
    requires nothing_yet { wrote.old ≡ None }
    requires register { rd < 32 }
    requires aligned { va % 4 ≡ 0 }
    requires not_reserve { op ≢ AtomicOp.Lr }
    requires not_conditional { op ≢ AtomicOp.Sc }
    requires reached { M.is_reached m.old q }
    requires writable { M.is_writable m.old q }
    ensures follows { Follows M.stands_for m.old m.new (after_instruction c.new result wrote.new)
        (played (spec.atomic_granted c.old rd op q va operand)) }
    ensures context { ContextStays (IsLeftOpen result) c.old c.new wrote.new }
    ensures unmarked { is_some c.old.mark ≡ false → is_some c.new.mark ≡ false }
    ensures side { SideStays M.PageSide IsAny m.old m.new }
{
    let stood = m.read(q, va % 4096, 4);
    m.write(q, va % 4096, 4, combine(op, stood, operand));
    *wrote = Some(word_of_page(q, va));
    loaded(c, rd, va, 4, false, stood)
}

/// An atomic instruction at a word that is reached. LR reads it, and reserves it.
#[tactic(auto, using(cloak_model::proofs::ScriptLater::laters, cloak_model::proofs::PagesLater::stay_pages), unfolding(cloak_model::specs::InsideStep::atomic_granted))]
fn granted<M: PageSide>(
    c: &mut Context,
    rd: u32,
    op: AtomicOp,
    q: PageId,
    va: u32,
    operand: u32,
    m: &mut M,
    wrote: &mut Option<PageWord>,
    reserved: &mut bool,
) -> Ran
    requires nothing_yet { wrote.old ≡ None }
    requires register { rd < 32 }
    requires aligned { va % 4 ≡ 0 }
    requires reached { M.is_reached m.old q }
    requires writable { op ≢ AtomicOp.Lr → M.is_writable m.old q }
    ensures follows { Follows M.stands_for m.old m.new (after_instruction c.new result wrote.new)
        (played (spec.atomic_granted c.old rd op q va operand)) }
    ensures context { ContextStays (IsLeftOpen result) c.old c.new wrote.new }
    ensures tells { TellsMark reserved.old reserved.new c.old c.new }
    ensures side { SideStays M.PageSide IsAny m.old m.new }
{
    match op {
        AtomicOp::Lr => {
            let old = m.read(q, va % 4096, 4);
            c.mark = Some(word_of_page(q, va));
            *reserved = true;
            loaded(c, rd, va, 4, false, old)
        }
        AtomicOp::Sc => store_conditional(c, rd, q, va, operand, m, wrote),
        _ => operate(c, rd, op, q, va, operand, m, wrote),
    }
}

/// An atomic instruction at an address that is a multiple of 4. At one that is not cloaked it asks nothing.
#[tactic(auto, using(cloak_model::proofs::ScriptLater::laters, cloak_model::proofs::PagesLater::stay_pages), unfolding(cloak_model::specs::InsideStep::atomic_placed))]
fn placed<M: PageSide>(
    c: &mut Context,
    r: &Resources,
    domain: u32,
    rd: u32,
    op: AtomicOp,
    va: u32,
    operand: u32,
    m: &mut M,
    wrote: &mut Option<PageWord>,
    reserved: &mut bool,
) -> Ran
    requires nothing_yet { wrote.old ≡ None }
    requires domain { domain ≡ M.serves m.old }
    requires register { rd < 32 }
    requires aligned { va % 4 ≡ 0 }
    ensures follows { FollowsWhere (HasPages domain r.now c.old.space) M.stands_for m.old m.new
        (after_instruction c.new result wrote.new)
        (played (spec.atomic_placed c.old rd op va operand (page_at domain r.now c.old.space va))) }
    ensures context { ContextStays (IsLeftOpen result) c.old c.new wrote.new }
    ensures tells { TellsMark reserved.old reserved.new c.old c.new }
    ensures side { SideStays M.PageSide (IsFree r.now) m.old m.new }
{
    let Some(q) = page_at(r, domain, c.space, va) else {
        return Ran::Trap {
            cause: uncloaked(op),
            address: va,
        };
    };
    match m.reach(q, va, atomic_kind(op)) {
        Answer::Ok => granted(c, rd, op, q, va, operand, m, wrote, reserved),
        Answer::Absent(cause) => Ran::Trap { cause, address: va },
        Answer::Word(_) | Answer::Stopped => Ran::Stopped,
    }
}

/// Makes an atomic instruction, or none, which is illegal.
#[tactic(auto, using(cloak_model::proofs::ScriptLater::laters, cloak_model::proofs::PagesLater::stay_pages), unfolding(cloak_model::specs::InsideStep::atomic_inside))]
fn atomic_step<M: PageSide>(
    c: &mut Context,
    r: &Resources,
    domain: u32,
    a: &Option<Atomic>,
    m: &mut M,
    wrote: &mut Option<PageWord>,
    reserved: &mut bool,
) -> Ran
    requires nothing_yet { wrote.old ≡ None }
    requires domain { domain ≡ M.serves m.old }
    requires range { IfSome a.now InRange }
    ensures follows { FollowsWhere (HasPages domain r.now c.old.space) M.stands_for m.old m.new
        (after_instruction c.new result wrote.new) (played (spec.atomic_inside domain r.now c.old a.now)) }
    ensures context { ContextStays (IsLeftOpen result) c.old c.new wrote.new }
    ensures tells { TellsMark reserved.old reserved.new c.old c.new }
    ensures side { SideStays M.PageSide (IsFree r.now) m.old m.new }
{
    let Some(a) = a else {
        return Ran::Trap {
            cause: 2,
            address: 0,
        };
    };
    let va = c.regs.get(a.rs1);
    let operand = c.regs.get(a.rs2);
    if va % 4 != 0 {
        return Ran::Trap {
            cause: misaligned(a.op),
            address: va,
        };
    }
    placed(c, r, domain, a.rd, a.op, va, operand, m, wrote, reserved)
}

/// Makes the atomic instruction that a word is, or none. How it ended is written to `ended`. Kept out of line, so that
/// other instructions make no room for it.
#[cold]
#[inline(never)]
fn make_atomic<M: PageSide>(
    c: &mut Context,
    r: &Resources,
    domain: u32,
    word: u32,
    m: &mut M,
    wrote: &mut Option<PageWord>,
    reserved: &mut bool,
    ended: &mut Ran,
)
    requires nothing_yet { wrote.old ≡ None }
    requires domain { domain ≡ M.serves m.old }
    ensures follows { FollowsWhere (HasPages domain r.now c.old.space) M.stands_for m.old m.new
        (after_instruction c.new ended.new wrote.new) (played (spec.atomic_inside domain r.now c.old (atomic_instruction word))) }
    ensures context { ContextStays (IsLeftOpen ended.new) c.old c.new wrote.new }
    ensures tells { TellsMark reserved.old reserved.new c.old c.new }
    ensures side { SideStays M.PageSide (IsFree r.now) m.old m.new }
{
    let a = decode_atomic(word);
    *ended = atomic_step(c, r, domain, &a, m, wrote, reserved);
}

/// Makes the atomic instruction that a word is, or none. It has places of its own for what is told of it, so that those of
/// other instructions stay in registers.
#[inline(always)]
pub(crate) fn atomic_word<M: PageSide>(
    c: &mut Context,
    r: &Resources,
    domain: u32,
    word: u32,
    m: &mut M,
    wrote: &mut Option<PageWord>,
    reserved: &mut bool,
) -> Ran
    requires nothing_yet { wrote.old ≡ None }
    requires domain { domain ≡ M.serves m.old }
    ensures follows { FollowsWhere (HasPages domain r.now c.old.space) M.stands_for m.old m.new
        (after_instruction c.new result wrote.new) (played (spec.atomic_inside domain r.now c.old (atomic_instruction word))) }
    ensures context { ContextStays (IsLeftOpen result) c.old c.new wrote.new }
    ensures tells { TellsMark reserved.old reserved.new c.old c.new }
    ensures side { SideStays M.PageSide (IsFree r.now) m.old m.new }
{
    let mut written = None;
    let mut ended = Ran::Stay;
    make_atomic(c, r, domain, word, m, &mut written, reserved, &mut ended);
    *wrote = written;
    ended
}
