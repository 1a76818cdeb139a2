//! What a program asks for in a step: its accesses, in order.
ghost use Rattle.cloak_model.specs.Items.{item_of};
ghost use Rattle.std.specs.Prelude.{◌≡◌, ◌<◌, ℕ, List, Some, None, IfSome};
ghost use Rattle.cloak_model.specs.DomainAlone as model;
ghost use Rattle.alone_views.specs.DomainStanding.{StandsForDomain};
ghost use Rattle.replayed_run.specs.Questions as spec;
ghost use Rattle.cloak_model.specs.KernelStep.{atomic_kind};
ghost use Rattle.rv_atomic.specs.Table.{InRange};

use alone_views::{AskedAccess, DomainAlone};
use cloak_base::{Kind, Regs};
use cloak_model::{Effect, Item, Phase, value_in};
use rv_atomic::{Atomic, AtomicOp, decode_atomic};
use rv_core::effect;
use rv_isa::decode;
use thread_context::Context;

/// The questions of the step that is open, or of the last one.
#[derive(Clone, Copy)]
pub struct Questions {
    /// How many of them were answered.
    pub answers: usize,
    /// The last of these.
    pub last: AskedAccess,
}

impl Questions {
    /// None was asked.
    pub fn none() -> Questions
        ensures { result ≡ spec.no_questions }
    {
        Questions {
            answers: 0,
            last: AskedAccess::Nothing,
        }
    }

    /// One more was answered.
    fn answered(self, question: AskedAccess) -> Questions
        ensures { result ≡ spec.answered self question }
    {
        Questions {
            answers: self.answers.saturating_add(1),
            last: question,
        }
    }

    /// After an item, which is the answer of a question if it is an answer.
    pub fn after(self, item: &Item<'_>, question: AskedAccess) -> Questions
        ensures { result ≡ spec.questions_after self question (item_of item.now) }
    {
        match item {
            Item::Step { .. } => Questions::none(),
            Item::Ok { .. } => self.answered(question),
            Item::Absent { .. } => self.answered(question),
            Item::Word { .. } => self.answered(question),
            Item::Stopped { .. } => self.answered(question),
            Item::Cipher { .. }
            | Item::Put { .. }
            | Item::Leave(_)
            | Item::End
            | Item::Timer { .. }
            | Item::Resume { .. }
            | Item::Ended { .. }
            | Item::Close { .. } => self,
        }
    }
}

/// An access to an address of a space.
fn access_at(program: &DomainAlone, space: u32, address: u32, kind: Kind) -> AskedAccess
    ensures { (number : ℕ) (turns : List ℕ) (s : model.DomainAlone) →
        StandsForDomain number turns program.now s → s.unfit ≡ None →
        result ≡ spec.access_at s.part space address kind }
{
    match program.space_page(space, address) {
        Some(page) => AskedAccess::Page {
            page,
            address,
            kind,
        },
        None => AskedAccess::Uncloaked { address },
    }
}

/// The word at an address in a page, if the address is a multiple of 4.
fn word_of_bytes(bytes: &[u8; 4096], address: u32) -> Option<u32>
    ensures { result ≡ spec.word_of_bytes bytes.now address }
{
    if address % 4 == 0 {
        Some(value_in(bytes, (address % 4096) as usize, 4))
    } else {
        None
    }
}

/// The word at an address of a space, if a page of the program lies there.
fn word_at(program: &DomainAlone, space: u32, address: u32) -> Option<u32>
    ensures { (number : ℕ) (turns : List ℕ) (s : model.DomainAlone) →
        StandsForDomain number turns program.now s → s.unfit ≡ None →
        result ≡ spec.word_in_page s.part address (spec.page_there s.part space address) }
{
    match program.space_page(space, address) {
        None => None,
        Some(q) => word_of_bytes(program.page(q), address),
    }
}

/// The access of an instruction of this effect.
fn access_of_effect(program: &DomainAlone, space: u32, effect: &Effect) -> AskedAccess
    ensures { (number : ℕ) (turns : List ℕ) (s : model.DomainAlone) →
        StandsForDomain number turns program.now s → s.unfit ≡ None →
        result ≡ spec.access_of_effect s.part space effect.now }
{
    match *effect {
        Effect::Load { address, .. } => access_at(program, space, address, Kind::Load),
        Effect::Store { address, .. } => access_at(program, space, address, Kind::Store),
        Effect::Write { .. } => AskedAccess::Nothing,
        Effect::Jump { .. } => AskedAccess::Nothing,
        Effect::Go { .. } => AskedAccess::Nothing,
        Effect::System => AskedAccess::Nothing,
        Effect::Nothing => AskedAccess::Nothing,
        Effect::Raise { .. } => AskedAccess::Nothing,
    }
}

/// LR loads, and the other atomic instructions store.
fn kind_of(op: AtomicOp) -> Kind
    ensures { result ≡ atomic_kind op }
{
    match op {
        AtomicOp::Lr => Kind::Load,
        _ => Kind::Store,
    }
}

/// The access of an atomic instruction.
fn access_of_atomic(
    program: &DomainAlone,
    space: u32,
    regs: &Regs,
    a: Option<Atomic>,
) -> AskedAccess
    requires { IfSome a InRange }
    ensures { (number : ℕ) (turns : List ℕ) (s : model.DomainAlone) →
        StandsForDomain number turns program.now s → s.unfit ≡ None →
        result ≡ spec.access_of_atomic s.part space regs.now a }
{
    match a {
        None => AskedAccess::Nothing,
        Some(a) => access_at(program, space, regs.get(a.rs1), kind_of(a.op)),
    }
}

/// The access of the instruction of a word.
fn access_of_instruction(
    program: &DomainAlone,
    space: u32,
    regs: &Regs,
    pc: u32,
    word: u32,
) -> AskedAccess
    ensures { (number : ℕ) (turns : List ℕ) (s : model.DomainAlone) →
        StandsForDomain number turns program.now s → s.unfit ≡ None →
        result ≡ spec.access_of_word s.part space regs.now pc (Some word) }
{
    match decode(word) {
        None => access_of_atomic(program, space, regs, decode_atomic(word)),
        Some(i) => access_of_effect(program, space, &effect(&i, regs, pc)),
    }
}

/// The access of the instruction of a word, if there is one.
fn access_of_word(
    program: &DomainAlone,
    space: u32,
    regs: &Regs,
    pc: u32,
    word: Option<u32>,
) -> AskedAccess
    ensures { (number : ℕ) (turns : List ℕ) (s : model.DomainAlone) →
        StandsForDomain number turns program.now s → s.unfit ≡ None →
        result ≡ spec.access_of_word s.part space regs.now pc word }
{
    match word {
        None => AskedAccess::Nothing,
        Some(word) => access_of_instruction(program, space, regs, pc, word),
    }
}

/// The access of the instruction at an address of a space.
fn access_there(program: &DomainAlone, space: u32, regs: &Regs, pc: u32) -> AskedAccess
    ensures { (number : ℕ) (turns : List ℕ) (s : model.DomainAlone) →
        StandsForDomain number turns program.now s → s.unfit ≡ None →
        result ≡ spec.access_there s.part space regs.now pc }
{
    let word = word_at(program, space, pc);
    access_of_word(program, space, regs, pc, word)
}

/// Byte `done` of what starts there.
fn byte_from(start: u32, done: u32) -> u32
    ensures { result ≡ spec.byte_from start done }
{
    start.wrapping_add(done)
}

/// What a step of a context asks for first.
fn first_access(program: &DomainAlone, c: &Context) -> AskedAccess
    ensures { (number : ℕ) (turns : List ℕ) (s : model.DomainAlone) →
        StandsForDomain number turns program.now s → s.unfit ≡ None →
        result ≡ spec.first_access s.part c.now c.now.phase }
{
    match c.phase {
        Phase::Plain => access_at(program, c.space, c.pc, Kind::Fetch),
        Phase::CopyIn { done } => {
            access_at(
                program,
                c.space,
                byte_from(c.regs.get(11), done),
                Kind::Load,
            )
        }
        Phase::Waiting => AskedAccess::Nothing,
        Phase::CopyOut { done, .. } => AskedAccess::Uncloaked {
            address: byte_from(c.regs.get(13), done),
        },
    }
}

/// What it asks for next.
fn second_access(program: &DomainAlone, c: &Context) -> AskedAccess
    ensures { (number : ℕ) (turns : List ℕ) (s : model.DomainAlone) →
        StandsForDomain number turns program.now s → s.unfit ≡ None →
        result ≡ spec.second_access s.part c.now c.now.phase }
{
    match c.phase {
        Phase::Plain => access_there(program, c.space, &c.regs, c.pc),
        Phase::CopyIn { done } => AskedAccess::Uncloaked {
            address: byte_from(c.regs.get(13), done),
        },
        Phase::Waiting => AskedAccess::Nothing,
        Phase::CopyOut { done, .. } => {
            access_at(
                program,
                c.space,
                byte_from(c.regs.get(11), done),
                Kind::Store,
            )
        }
    }
}

/// What a step of a context asks for after this many answers.
fn access_after(program: &DomainAlone, c: &Context, answers: usize) -> AskedAccess
    ensures { (number : ℕ) (turns : List ℕ) (s : model.DomainAlone) →
        StandsForDomain number turns program.now s → s.unfit ≡ None →
        result ≡ spec.access_after answers s.part c.now }
{
    if answers == 0 {
        first_access(program, c)
    } else if answers == 1 {
        second_access(program, c)
    } else {
        AskedAccess::Nothing
    }
}

/// What the step of the context of a slot asks for after this many answers.
fn access_in_slot(program: &DomainAlone, slot: u32, answers: usize) -> AskedAccess
    ensures { (number : ℕ) (turns : List ℕ) (s : model.DomainAlone) →
        StandsForDomain number turns program.now s → s.unfit ≡ None →
        result ≡ spec.access_in_slot answers s.part (Some slot) }
{
    match program.slot_context(slot) {
        None => AskedAccess::Nothing,
        Some(c) => access_after(program, c, answers),
    }
}

/// What the open step of a program asks for after this many answers.
pub fn access_in(program: &DomainAlone, answers: usize) -> AskedAccess
    ensures { (number : ℕ) (turns : List ℕ) (s : model.DomainAlone) →
        StandsForDomain number turns program.now s → s.unfit ≡ None → result ≡ spec.access_in answers s }
{
    match program.running() {
        None => AskedAccess::Nothing,
        Some(slot) => access_in_slot(program, slot, answers),
    }
}
