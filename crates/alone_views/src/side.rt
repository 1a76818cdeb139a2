//! The side of a program that runs alone: the bytes of its pages, and up to two answers that were handed in.
ghost use Rattle.std.specs.Prelude.{ℕ, List, ◌≡◌, ◌<◌, ◌≤◌, ◌*◌, true, false, length, IfOk};
ghost use Rattle.cloak_model.specs.Asking.{FollowsFrom};
ghost use Rattle.cloak_model.specs.AskPages as ask;
ghost use Rattle.cloak_model.specs.AskPages.{next_answer};
ghost use Rattle.cloak_model.specs.DomainAlone.{started_page};
ghost use Rattle.cloak_model.specs.Effect.{IsWidth};
ghost use Rattle.cloak_model.specs.World.{Handed};
ghost use Rattle.alone_views.specs.DomainPages.{HasPlain, ended_plain};

use crate::asked::AskedAccess;
use cloak_base::{Kind, NoMemory, PageId};
use cloak_model::{Answer, PageSide, Program, value_in};
use plain_pages::{PlainPages, page_place};
use std::alloc::Global;

/// What a question takes.
#[derive(Clone, Copy)]
pub(crate) enum QuestionKind {
    Access,
    Value,
    Clearing,
}

/// A program's pages, and answers that were handed in.
#[derive(Drop)]
pub(crate) struct HandedSide {
    pub domain: u32,
    pub pages: PlainPages,
    /// The next answer; if there is none, there is no second one.
    pub first: Option<Answer>,
    pub second: Option<Answer>,
    /// A question found no answer of its kind.
    pub unfit: bool,
    /// What was asked since answers were handed in, up to two questions.
    pub asked: [AskedAccess; 2],
    ghost all: { length pages ≡ 16384 },
}

/// How a step ended over the answers that were handed in.
#[derive(Clone, Copy)]
pub(crate) enum Handing {
    /// It used them all and is over.
    Over,
    /// It wants another.
    Wants,
    /// One is left over, or is not of the kind that its question takes.
    Wrong,
}

impl QuestionKind {
    ghost use Rattle.alone_views.specs.Side.{is_fit};

    /// The question takes an answer of this kind.
    fn takes(self, a: &Answer) -> bool
        ensures { result ≡ is_fit self a.now }
    {
        match self {
            QuestionKind::Access => !matches!(a, Answer::Word(_)),
            QuestionKind::Value => !matches!(a, Answer::Ok),
            QuestionKind::Clearing => matches!(a, Answer::Ok | Answer::Stopped),
        }
    }
}

impl HandedSide {
    ghost use Rattle.alone_views.specs.Side.{StandsForHanded, IsAloneNow, is_fit, answers_of, handing_of};

    /// The side of a program as it starts.
    pub fn open(alloc: Global, domain: u32, p: &Program) -> Result<HandedSide, NoMemory>
        requires few { p.now.start.pages ≤ 1024 }
        requires bytes { length p.now.bytes ≡ 4096 * p.now.start.pages }
        ensures pages { IfOk result (λ side. HasPlain side.pages (started_page p.now)) }
        ensures domain { IfOk result (λ side. side.domain ≡ domain) }
    {
        Ok(HandedSide {
            domain,
            pages: PlainPages::open(alloc, p)?,
            first: None,
            second: None,
            unfit: false,
            asked: [AskedAccess::Nothing; 2],
        })
    }

    /// Hands in answers for the next step.
    pub fn hand(&mut self, first: Option<Answer>, second: Option<Answer>)
        ensures pages { self.new.pages ≡ self.old.pages }
        ensures domain { self.new.domain ≡ self.old.domain }
        ensures first { self.new.first ≡ first }
        ensures second { self.new.second ≡ second }
        ensures fit { self.new.unfit ≡ false }
    {
        self.first = first;
        self.second = second;
        self.unfit = false;
        self.asked = [AskedAccess::Nothing; 2];
    }

    /// The domain ends: all pages become zeros.
    pub fn end_pages(&mut self)
        ensures pages { (plain : ℕ → ℕ → List ℕ) → HasPlain self.new.pages (ended_plain self.old.domain plain) }
        ensures domain { self.new.domain ≡ self.old.domain }
    {
        self.pages.wipe_all();
    }

    /// One question more is asked.
    fn note(&mut self, question: AskedAccess)
        ensures pages { self.new.pages ≡ self.old.pages }
        ensures domain { self.new.domain ≡ self.old.domain }
        ensures first { self.new.first ≡ self.old.first }
        ensures second { self.new.second ≡ self.old.second }
        ensures fit { self.new.unfit ≡ self.old.unfit }
    {
        let [first, _] = self.asked;
        self.asked = match first {
            AskedAccess::Nothing => [question, AskedAccess::Nothing],
            _ => [first, question],
        };
    }

    /// How the step ended that was made since answers were handed in.
    pub fn handing(&self) -> Handing
        ensures { result ≡ handing_of self.now.unfit (answers_of self.now) }
    {
        match self.first {
            Some(_) => Handing::Wrong,
            None => {
                if self.unfit {
                    Handing::Wants
                } else {
                    Handing::Over
                }
            }
        }
    }

    /// The next answer, if it is one that the question takes.
    fn take(&mut self, question: QuestionKind) -> Answer
        ensures follows { (h : Handed) → StandsForHanded self.old h →
            FollowsFrom IsAloneNow self.new result (next_answer (is_fit question) h.answers h) }
        ensures domain { self.new.domain ≡ self.old.domain }
    {
        match self.first {
            None => self.lack(),
            Some(a) => {
                if question.takes(&a) {
                    self.first = self.second;
                    self.second = None;
                    a
                } else {
                    self.lack()
                }
            }
        }
    }

    /// A question found no answer of its kind.
    fn lack(&mut self) -> Answer
        ensures answer { result ≡ Answer.Stopped }
        ensures unfit { self.new ≡ record self.old { unfit = true } }
    {
        self.unfit = true;
        Answer::Stopped
    }
}

/// An answer of which only the lowest 1, 2 or 4 bytes count.
fn of_width(width: u32, a: Answer) -> Answer
    requires { IsWidth width }
    ensures { result ≡ ask.of_width width a }
{
    match a {
        Answer::Word(value) => match width {
            1 => Answer::Word(value % 256),
            2 => Answer::Word(value % 65536),
            _ => Answer::Word(value),
        },
        other => other,
    }
}

#[tactic(auto, unfolding(cloak_model::specs::AskPages::ask_reach, cloak_model::specs::AskPages::ask_read, cloak_model::specs::AskPages::ask_write, cloak_model::specs::AskPages::ask_get, cloak_model::specs::AskPages::ask_put, cloak_model::specs::AskPages::ask_clear, cloak_model::specs::AskPages::ask_copy, cloak_model::specs::AskPages::ask_forget))]
impl PageSide for HandedSide {
    ghost use Rattle.alone_views.specs.Side.{IsAlone, IsOwnPage};

    ghost stands_for = { λ first side w. IsAlone first side w };

    ghost kept = { λ first side. Unit {0} };

    ghost serves = { λ side. side.domain };

    ghost is_reached = { λ side q. IsOwnPage side.domain q };

    ghost is_writable = { λ side q. IsOwnPage side.domain q };

    ghost is_cleared = { λ side r. r < 16 };

    ghost is_unused = { λ side n. Unit {0} };

    fn reach(&mut self, page: PageId, address: u32, kind: Kind) -> Answer {
        self.note(AskedAccess::Page {
            page,
            address,
            kind,
        });
        self.take(QuestionKind::Access)
    }

    fn read(&mut self, q: PageId, at: u32, width: u32) -> u32 {
        value_in(self.pages.at(page_place(q)), at as usize, width)
    }

    fn write(&mut self, q: PageId, at: u32, width: u32, v: u32) {
        self.pages.store(page_place(q), at, width, v)
    }

    fn get(&mut self, address: u32, width: u32) -> Answer {
        self.note(AskedAccess::Uncloaked { address });
        let taken = self.take(QuestionKind::Value);
        of_width(width, taken)
    }

    fn put(&mut self, address: u32, _: u32, _: u32) -> Answer {
        self.note(AskedAccess::Uncloaked { address });
        self.take(QuestionKind::Access)
    }

    fn clear(&mut self, _: u32, _: &[bool; 16]) -> Answer {
        self.take(QuestionKind::Clearing)
    }

    fn copy(&mut self, _: u32, from: u32, to: u32) {
        self.pages.copy(from, to);
    }

    fn forget(&mut self, _: u32, resource: u32) {
        self.pages.wipe(resource);
    }
}
