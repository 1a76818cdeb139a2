//! A program that runs alone.
ghost use Rattle.cloak_model.specs.Items.{item_of};
ghost use Rattle.std.specs.Prelude.{ℕ, List, None, false, ◌≡◌, ◌<◌, ◌==◌, ◌^◌, [], ◌∷◌, ◌++◌, All, IfOk, IfSome, length, option_map, if◌then◌else◌};
ghost use Rattle.cloak_model.specs.Bundle.{IsKernelImage, IsProgramIn};
ghost use Rattle.cloak_model.specs.Contexts.{Context, context_at};
ghost use Rattle.cloak_model.specs.DomainAlone as spec;
ghost use Rattle.cloak_model.specs.DomainAlone.{opened_domain};
ghost use Rattle.cloak_model.specs.DomainState as program;
ghost use Rattle.cloak_model.specs.DomainState.{domain_line};
ghost use Rattle.cloak_model.specs.DomainStep.{domain_step, resume_slot};
ghost use Rattle.cloak_model.specs.World.{Alone, Handed};
ghost use Rattle.hypercalls.specs.Standing.{StandsFor, control_of, number_of};
ghost use Rattle.io_traits.specs.Sinks.{PutsTo};
ghost use Rattle.io_traits.specs.Told.{Counts};
ghost use Rattle.alone_views.specs.Side.{answers_in, one_answer};

use crate::asked::AskedAccess;
use crate::side::{HandedSide, Handing};
use crate::unfit::Unfit;
use cloak_base::{Failed, HartId, NoMemory};
use cloak_model::{Answer, Item, KernelImage, Program, Went};
use hypercalls::Domain;
use io_traits::{Sink, put_all};
use std::alloc::Global;

/// Where the items stand.
#[derive(Clone, Copy)]
pub(crate) enum DomainStage {
    /// In no step: before the first one, or after the last.
    Between,
    /// In a step whose hart runs none of the program's contexts.
    Other,
    /// In a step whose hart runs the context of this slot, with the answer so far.
    Running { slot: u32, answer: Option<Answer> },
    /// In a step that has its items.
    Done,
    /// In a step that was stopped.
    Stopped,
}

/// A cloaked program that runs alone over the items of a record.
#[derive(Drop)]
pub struct DomainAlone {
    pub(crate) domain: Domain,
    pub(crate) side: HandedSide,
    /// The hart of each step, used cyclically.
    schedule: Vec<u8>,
    /// The number of the last step, 0 before the first.
    pub(crate) steps: u32,
    pub(crate) stage: DomainStage,
    unfit: Option<Unfit>,
    ghost served: { number_of domain ≡ side.domain },
    ghost some_turns: { 0 < length schedule.items },
    ghost turns: { All (λ h. h < 4) schedule.items },
}

impl DomainAlone {
    ghost use Rattle.alone_views.specs.DomainStanding.{StandsForDomain, StandsWhileFit, TakesAs, TakesDomainItem, KeepsSetting, StaysBeside, StepsAlone, IsTried, answer_by, timer_taken, step_of, then_begun, number_in, schedule_in, unfit_in, hart_at};
    ghost use Rattle.alone_views.specs.Side.{StandsForHanded};

    /// The program of this number as its run begins. The one call that takes memory.
    pub fn open(
        alloc: Global,
        k: &KernelImage,
        number: u32,
        p: &Program,
    ) -> Result<DomainAlone, NoMemory>
        requires number { number < 4 }
        requires kernel { IsKernelImage k.now }
        requires program { IsProgramIn k.now.frames p.now }
        ensures { IfOk result
            (λ machine. StandsForDomain number k.now.schedule machine (opened_domain number p.now)) }
    {
        let schedule = Vec::from_slice(alloc, k.schedule.as_slice())?;
        let side = HandedSide::open(alloc, number, p)?;
        Ok(DomainAlone {
            domain: Domain::open(number, &p.start),
            side,
            schedule,
            steps: 0,
            stage: DomainStage::Between,
            unfit: None,
        })
    }

    /// Takes the next item. An item of another half or of another domain is ignored. Once an item was unfit, nothing
    /// changes any more.
    pub fn take(&mut self, i: &Item<'_>) -> Result<(), Unfit>
        ensures takes { (number : ℕ) (schedule : List ℕ) (s : spec.DomainAlone) →
            StandsForDomain number schedule self.old s →
            TakesDomainItem number schedule self.new result (spec.take_domain_item number schedule s (item_of i.now)) }
        ensures stays_unfit { (u : Unfit) → unfit_in self.old ≡ Some u → (result ≡ Err u) × (self.new ≡ self.old) }
    {
        match self.unfit {
            None => {
                self.take_fit(i);
                self.answer()
            }
            Some(unfit) => Err(unfit),
        }
    }

    /// What the step of the last answer asked: its first two questions for an access or a value, in order.
    pub fn asked(&self) -> [AskedAccess; 2] {
        self.side.asked
    }

    /// The space of a slot's context and the hart on which this runs, none exactly if the slot is free or above 7.
    pub fn context(&self, slot: u32) -> Option<(u32, Option<HartId>)>
        ensures below_eight { IfSome result (λ told. told.0 < 8) }
        ensures value { (number : ℕ) (schedule : List ℕ) (s : spec.DomainAlone) →
            StandsForDomain number schedule self.now s → s.unfit ≡ None →
            result ≡ option_map (λ (c : Context). (c.space, c.on))
            (context_at s.part.domain.control.contexts slot) }
    {
        self.domain.context(slot)
    }

    /// What an item is answered.
    fn answer(&self) -> Result<(), Unfit>
        ensures { result ≡ answer_by (step_of (unfit_in self.now)) }
    {
        match self.unfit {
            None => Ok(()),
            Some(unfit) => Err(unfit),
        }
    }

    /// Ends the program, and writes its line of the report. One that failed has written a front of it.
    pub fn report<O: Sink>(self, out: &mut O) -> Result<(), Failed>
        ensures puts { (number : ℕ) (schedule : List ℕ) (s : spec.DomainAlone) →
            StandsForDomain number schedule self s → s.unfit ≡ None → length s.part.domain.loads < 2 ^ 64 →
            PutsTo O.Sink out.old out.new (domain_line s.part.domain) result }
        ensures faults { Counts (O.faults out.old) (O.faults out.new) result }
    {
        let DomainAlone { domain, .. } = self;
        let mut line = [0; 256];
        let count = domain.line(&mut line);
        put_all(out, &line[..count])
    }

    /// Takes an item if none was unfit.
    fn take_fit(&mut self, i: &Item<'_>)
        ensures takes { TakesAs self.old self.new
            (spec.domain_takes (number_in self.old) (schedule_in self.old) (item_of i.now)) }
        ensures keeps { KeepsSetting self.old self.new }
    {
        match *i {
            Item::Step { number } => self.take_step(number),
            Item::Close { .. } => self.end_step(),
            Item::Ok { domain } => self.take_answer_for(domain, Answer::Ok),
            Item::Absent { domain, cause } => self.take_answer_for(domain, Answer::Absent(cause)),
            Item::Word { domain, value } => self.take_answer_for(domain, Answer::Word(value)),
            Item::Stopped { domain } => self.take_answer_for(domain, Answer::Stopped),
            Item::Timer { domain } => self.take_timer_for(domain),
            Item::Resume {
                domain,
                ctx,
                answer,
            } => self.take_resume_for(domain, ctx, answer),
            Item::Ended { domain } => self.take_ended_for(domain),
            _ => {}
        }
    }

    /// Takes an answer, if it is for this domain.
    fn take_answer_for(&mut self, domain: u8, a: Answer)
        ensures takes { TakesAs self.old self.new
            (λ s. if domain == number_in self.old then spec.take_answer s.stage a s else s) }
        ensures keeps { KeepsSetting self.old self.new }
    {
        if domain as u32 == self.side.domain {
            self.take_answer(a);
        }
    }

    /// Takes an interrupt, if it is for this domain.
    fn take_timer_for(&mut self, domain: u8)
        ensures takes { TakesAs self.old self.new
            (λ s. if domain == number_in self.old then spec.take_timer s.stage s else s) }
        ensures keeps { KeepsSetting self.old self.new }
    {
        if domain as u32 == self.side.domain {
            self.take_timer();
        }
    }

    /// Takes a resuming, if it is for this domain.
    fn take_resume_for(&mut self, domain: u8, ctx: u32, answer: u32)
        ensures takes { TakesAs self.old self.new
            (λ s. if domain == number_in self.old
            then spec.take_resume (number_in self.old) s.stage ctx answer s else s) }
        ensures keeps { KeepsSetting self.old self.new }
    {
        if domain as u32 == self.side.domain {
            self.take_resume(ctx, answer);
        }
    }

    /// Takes an end, if it is of this domain.
    fn take_ended_for(&mut self, domain: u8)
        ensures takes { TakesAs self.old self.new
            (λ s. if domain == number_in self.old
            then spec.take_ended (number_in self.old) s.part.domain.control.ended s.stage s else s) }
        ensures keeps { KeepsSetting self.old self.new }
    {
        if domain as u32 == self.side.domain {
            self.take_ended();
        }
    }

    /// The last item was unfit.
    fn fail(&mut self)
        ensures unfit { unfit_in self.new ≡ Some (record { step = self.old.steps }) }
        ensures keeps { KeepsSetting self.old self.new }
    {
        self.unfit = Some(Unfit { step: self.steps });
    }

    /// The next step begins.
    fn take_step(&mut self, number: u32)
        ensures takes { TakesAs self.old self.new (λ s. spec.take_domain_step (schedule_in self.old) number s.stage s) }
        ensures keeps { KeepsSetting self.old self.new }
    {
        match self.stage {
            DomainStage::Stopped => self.fail(),
            _ => self.next_step(number),
        }
    }

    /// The step that is open has ended, and the next begins, unless an item was missing.
    fn next_step(&mut self, number: u32)
        ensures takes { TakesAs self.old self.new (λ s. then_begun (schedule_in self.old) number
            (spec.domain_step_ended s.stage s)) }
        ensures keeps { KeepsSetting self.old self.new }
    {
        self.end_step();
        match self.unfit {
            None => self.begin_step(number),
            Some(_) => {}
        }
    }

    /// The step that is open has ended. One that asked nothing is made.
    fn end_step(&mut self)
        ensures takes { TakesAs self.old self.new (λ s. spec.domain_step_ended s.stage s) }
        ensures keeps { KeepsSetting self.old self.new }
    {
        match self.stage {
            DomainStage::Running { slot, answer } => self.make_step(slot, answer),
            DomainStage::Stopped => {}
            _ => self.stage = DomainStage::Between,
        }
    }

    /// Makes the step of the context of a slot with the answer that it has.
    fn make_step(&mut self, slot: u32, answer: Option<Answer>)
        ensures takes { TakesAs self.old self.new
            (λ s. spec.made_by (spec.try_with slot (one_answer answer) s.part) s) }
        ensures keeps { KeepsSetting self.old self.new }
    {
        match self.try_step(slot, answer, None) {
            Handing::Over => self.stage = DomainStage::Between,
            _ => self.fail(),
        }
    }

    /// A step of this number begins.
    fn begin_step(&mut self, number: u32)
        ensures takes { TakesAs self.old self.new (spec.domain_step_begun (schedule_in self.old) number) }
        ensures keeps { KeepsSetting self.old self.new }
    {
        self.steps = number;
        let hart = self.hart();
        match self.slot_on(hart) {
            None => self.stage = DomainStage::Other,
            Some(slot) => self.stage = DomainStage::Running { slot, answer: None },
        }
    }

    /// The hart of the last step.
    pub(crate) fn hart(&self) -> u32
        ensures value { result ≡ hart_at (schedule_in self.now) self.now.steps }
        ensures below_four { result < 4 }
    {
        let turn = self.steps.saturating_sub(1) as usize % self.schedule.len();
        self.schedule[turn] as u32
    }

    /// The slot of the context that runs on a hart.
    fn slot_on(&self, hart: u32) -> Option<u32>
        ensures { let contexts = (control_of self.now.domain).contexts in length contexts ≡ 8 →
            result ≡ spec.slot_on hart 0 contexts }
    {
        for slot in 0..8 {
            if self.runs_on(slot, hart) {
                return Some(slot);
            }
        }
        None
    }

    /// The context of a slot runs on a hart.
    fn runs_on(&self, slot: u32, hart: u32) -> bool
        ensures { result ≡ spec.runs_on hart (context_at (control_of self.now.domain).contexts slot) }
    {
        match self.domain.context(slot) {
            Some((_, Some(on))) => on.0 == hart,
            _ => false,
        }
    }

    /// Makes the step of the context of a slot with these answers, and tells how it ended. A slot that is free makes
    /// none.
    fn try_step(&mut self, slot: u32, first: Option<Answer>, second: Option<Answer>) -> Handing
        ensures tries { (s : spec.DomainAlone) → StandsWhileFit self.old s →
            IsTried self.new result (answers_in first second) s (spec.try_with slot (answers_in first second) s.part) }
        ensures stays { StaysBeside self.old self.new }
    {
        self.side.hand(first, second);
        self.step_slot(slot);
        self.side.handing()
    }

    /// Makes the step of the context of a slot, if the slot is not free, with the answers that were handed in.
    fn step_slot(&mut self, slot: u32)
        ensures steps { (d : program.Domain) (h : Handed) → StandsFor self.old.domain d →
            StandsForHanded self.old.side h → h.unfit ≡ false →
            StepsAlone self.new (domain_step slot d (Alone h)) }
        ensures stays { StaysBeside self.old self.new }
    {
        if self.domain.context(slot).is_some() {
            let mut went = Went::Stay;
            self.domain.step(slot, &mut self.side, &mut went);
        }
    }

    /// Takes an answer.
    fn take_answer(&mut self, a: Answer)
        ensures takes { TakesAs self.old self.new (λ s. spec.take_answer s.stage a s) }
        ensures keeps { KeepsSetting self.old self.new }
    {
        match self.stage {
            DomainStage::Running { slot, answer } => self.answer_step(slot, answer, a),
            _ => self.fail(),
        }
    }

    /// Takes an answer after the one that the step of the context of a slot has.
    fn answer_step(&mut self, slot: u32, answer: Option<Answer>, a: Answer)
        ensures takes { TakesAs self.old self.new (λ s. spec.answered_by slot (one_answer answer) a
            (spec.try_with slot (one_answer answer ++ a ∷ []) s.part) s) }
        ensures keeps { KeepsSetting self.old self.new }
    {
        let (first, second) = answers_behind(answer, a);
        match self.try_step(slot, Some(first), second) {
            Handing::Over => self.stage = stage_after(a),
            Handing::Wants => {
                self.stage = DomainStage::Running {
                    slot,
                    answer: Some(first),
                }
            }
            Handing::Wrong => self.fail(),
        }
    }

    /// Takes an interrupt, which stands before every answer.
    fn take_timer(&mut self)
        ensures takes { TakesAs self.old self.new (λ s. spec.take_timer s.stage s) }
        ensures keeps { KeepsSetting self.old self.new }
    {
        match self.stage {
            DomainStage::Running { slot, answer } => match answer {
                None => self.interrupt(slot),
                Some(_) => self.fail(),
            },
            _ => self.fail(),
        }
    }

    /// The context of a slot leaves for the timer interrupt, and the step has its items.
    fn interrupt(&mut self, slot: u32)
        ensures takes { TakesAs self.old self.new (timer_taken slot) }
        ensures keeps { KeepsSetting self.old self.new }
    {
        self.stage = DomainStage::Done;
        if self.domain.context(slot).is_some() {
            self.domain.interrupt(slot);
        }
    }

    /// Takes a resuming.
    fn take_resume(&mut self, ctx: u32, answer: u32)
        ensures takes { TakesAs self.old self.new (λ s. spec.take_resume (number_in self.old) s.stage ctx answer s) }
        ensures keeps { KeepsSetting self.old self.new }
    {
        match self.stage {
            DomainStage::Other => {
                if ctx / 8 == self.side.domain {
                    self.resume(ctx % 8, answer);
                } else {
                    self.fail();
                }
            }
            _ => self.fail(),
        }
    }

    /// Takes the end of the domain, which comes once: in a step of a hart that runs none of its contexts, or after what
    /// stopped the step of one.
    fn take_ended(&mut self)
        ensures takes { TakesAs self.old self.new
            (λ s. spec.take_ended (number_in self.old) s.part.domain.control.ended s.stage s) }
        ensures keeps { KeepsSetting self.old self.new }
    {
        match self.stage {
            DomainStage::Other => {
                let ended = self.domain.has_ended();
                self.end_unless(ended);
            }
            DomainStage::Stopped => self.end(),
            _ => self.fail(),
        }
    }

    /// The domain ends, unless it has ended before: then the item was unfit.
    fn end_unless(&mut self, ended: bool)
        ensures takes { TakesAs self.old self.new
            (λ s. if ended then spec.domain_unfit s else spec.domain_gone (number_in self.old) s) }
        ensures keeps { KeepsSetting self.old self.new }
    {
        if ended {
            self.fail();
        } else {
            self.end();
        }
    }

    /// The domain ends, and the step has its items.
    fn end(&mut self)
        ensures takes { TakesAs self.old self.new (spec.domain_gone (number_in self.old)) }
        ensures keeps { KeepsSetting self.old self.new }
    {
        self.domain.end_all();
        self.side.end_pages();
        self.stage = DomainStage::Done;
    }

    /// The context of a slot runs on the hart of the step, if it is there and runs on none.
    fn resume(&mut self, slot: u32, answer: u32)
        ensures takes { TakesAs self.old self.new (λ s. spec.resumed_by
            (resume_slot slot (hart_at (schedule_in self.old) self.old.steps) answer s.part.domain.control) s) }
        ensures keeps { KeepsSetting self.old self.new }
    {
        let hart = HartId(self.hart());
        match self.domain.resume(slot, hart, answer) {
            Ok(()) => self.stage = DomainStage::Done,
            Err(_) => self.fail(),
        }
    }
}

/// Where the items stand after the last answer of a step.
fn stage_after(a: Answer) -> DomainStage
    ensures { result ≡ (if spec.is_stopped a then DomainStage.Stopped else DomainStage.Done) }
{
    match a {
        Answer::Stopped => DomainStage::Stopped,
        _ => DomainStage::Done,
    }
}

/// The answer so far, if there is one, and the next one after it.
fn answers_behind(answer: Option<Answer>, a: Answer) -> (Answer, Option<Answer>)
    ensures { answers_in (Some result.0) result.1 ≡ one_answer answer ++ a ∷ [] }
{
    match answer {
        None => (a, None),
        Some(first) => (first, Some(a)),
    }
}
