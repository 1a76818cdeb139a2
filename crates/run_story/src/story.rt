//! The story of a run, as far as its items were taken.
ghost use Rattle.cloak_model.specs.Items.{item_of};
ghost use Rattle.std.specs.Prelude.{◌≡◌, ◌++◌, [], ◌∷◌, List, ℕ, Option, Some, None, IfOk, length, is_some, slice_index_or, slice_set, string_bytes};
ghost use Rattle.std.specs.List.{count_by};
ghost use Rattle.std.specs.Fmt.{DisplaysOnOk};
ghost use Rattle.cloak_model.specs.Bundle.{IsInGrammar};
ghost use Rattle.cloak_model.specs.Record.{IsItem};
ghost use Rattle.cloak_model.specs.declared.image.Bundle.{Bundle};
ghost use Rattle.cloak_model.specs.Items.{Item as AnyItem};
ghost use Rattle.replayed_run.specs.Watching.{Watches, notes_of};
ghost use Rattle.run_story.specs.Passages.{end_reason, no_violation, passage_text, summary, violations_counted};
ghost use Rattle.run_story.specs.Telling.{AddsOutcome, IsEndTold, KeepsRest, KeepsStory, NotesItem, StoryTakes, Tells, TellsOn, due_of, story_text};
ghost use Rattle.run_story.specs.Told as spec;

use crate::presented::{AskedResume, Presented, Refused, Target, end_target, question_target};
use crate::telling::Passage;
use crate::untold::Untold;
use cloak_base::NoMemory;
use cloak_model::{Bundle, Item};
use read_back::Ending;
use replayed_run::{Asking, Watch};
use std::alloc::Global;
use std::fmt;

/// What is told of a run so far.
#[derive(Drop)]
pub struct Story {
    watch: Watch,
    /// What was presented in the step that is open.
    target: Target,
    /// The step in which each program ended.
    ended: [Option<u32>; 4],
    /// How many resumes were refused since no such program was left.
    refused: u64,
    text: String,
}

/// An item does not fit at this step.
fn unfit(step: u32) -> Untold
    ensures { result ≡ Untold.Ended (Ending.Unfit step) }
{
    Untold::Ended(Ending::Unfit(step))
}

/// Notes that a program ended in a step.
fn set_ended(ended: &mut [Option<u32>; 4], domain: usize, step: u32)
    ensures { ended.new ≡ slice_set ended.old domain (Some step) }
{
    if domain < ended.len() {
        ended[domain] = Some(step);
    }
}

/// How many programs ended.
fn programs_ended(ended: &[Option<u32>; 4]) -> usize
    ensures { result ≡ count_by is_some ended.now }
{
    ended.iter().filter(|ended| ended.is_some()).count()
}

impl Story {
    /// The story of the run of a bundle before its first item.
    pub fn open(alloc: Global, bundle: &Bundle) -> Result<Story, NoMemory>
        requires { IsInGrammar bundle.now }
        ensures { IfOk result (λ story. (told : Option (List ℕ)) → Tells bundle.now told [] story) }
    {
        Ok(Story {
            watch: Watch::open(alloc, bundle)?,
            target: Target::Nothing,
            ended: [None; 4],
            refused: 0,
            text: String::new(alloc),
        })
    }

    /// Tells more.
    pub fn tell(&mut self, passage: &Passage) -> Result<(), Untold>
        ensures told { TellsOn result }
        ensures text { IfOk result
            (λ done. string_bytes self.new.text ≡ string_bytes self.old.text ++ passage_text passage.now) }
        ensures same { KeepsStory self.old self.new }
    {
        match write!(self.text, "{passage}") {
            Ok(()) => Ok(()),
            Err(_) => Err(Untold::NoMemory),
        }
    }

    /// The step in which a program ended.
    fn ended_at(&self, domain: u32) -> Option<u32>
        ensures { result ≡ slice_index_or self.now.ended domain None }
    {
        let domain = domain as usize;
        if domain < self.ended.len() {
            self.ended[domain]
        } else {
            None
        }
    }

    /// Tells a violation that is no refused resume.
    fn tell_end(&mut self, passage: &Passage) -> Result<Option<Presented>, Untold>
        ensures adds { (step : ℕ) (v : spec.Violation) → IsEndTold v (passage_text passage.now) →
            AddsOutcome (spec.Violated v) step self.old self.new result }
        ensures same { KeepsRest self.old self.new }
    {
        match self.tell(passage) {
            Ok(()) => Ok(None),
            Err(untold) => Err(untold),
        }
    }

    /// A context was asked for. This was refused, if there is no such program or it ended before.
    fn tell_none(&mut self, step: u32, asked: Asking) -> Result<Option<Presented>, Untold>
        ensures adds { (b : Bundle) (items : List AnyItem) → Watches b items self.old.watch →
            AddsOutcome (spec.asked_outcome b step self.old.ended (Some asked)) step self.old self.new result }
        ensures same { KeepsRest self.old self.new }
    {
        let ended = self.ended_at(asked.ctx / 8);
        if ended.is_none() && self.watch.has_program(asked.ctx / 8) {
            return Err(unfit(step));
        }
        self.refused = self.refused.saturating_add(1);
        match self.tell(&Passage::Gone(step, asked, ended)) {
            Ok(()) => Ok(None),
            Err(untold) => Err(untold),
        }
    }

    /// A step ended in which no program ended by a resume.
    fn tell_asked(&mut self, step: u32, asked: Option<Asking>) -> Result<Option<Presented>, Untold>
        ensures adds { (b : Bundle) (items : List AnyItem) → Watches b items self.old.watch →
            AddsOutcome (spec.asked_outcome b step self.old.ended asked) step self.old self.new result }
        ensures same { KeepsRest self.old self.new }
    {
        match asked {
            None => Ok(None),
            Some(asked) => self.tell_none(step, asked),
        }
    }

    /// A step ended in which a program ended by a resume.
    fn tell_resume(
        &mut self,
        step: u32,
        asking: AskedResume,
        why: Refused,
        asked: Option<Asking>,
    ) -> Result<Option<Presented>, Untold>
        ensures adds { AddsOutcome (spec.resume_outcome asking why asked) step self.old self.new result }
        ensures same { KeepsRest self.old self.new }
    {
        match asked {
            None => Err(unfit(step)),
            Some(Asking { ctx, .. }) => {
                if asking.ctx == ctx {
                    self.tell_end(&Passage::Resume(asking, why))
                } else {
                    Err(unfit(step))
                }
            }
        }
    }

    /// A step ended, in which a hart may have asked for a context that it did not get.
    fn note_made(&mut self, step: u32) -> Result<Option<Presented>, Untold>
        ensures adds { (b : Bundle) (items : List AnyItem) → Watches b items self.old.watch →
            AddsOutcome (spec.step_outcome b step self.old.ended (due_of self.old.target) (notes_of self.old.watch).asked)
            step self.old self.new result }
        ensures target { self.new.target ≡ Target.Nothing }
        ensures watch { self.new.watch ≡ self.old.watch }
        ensures ended { self.new.ended ≡ self.old.ended }
    {
        let target = self.target;
        self.target = Target::Nothing;
        let asked = self.watch.asked();
        match target {
            Target::Context(asking, why) => self.tell_resume(step, asking, why, asked),
            Target::Nothing => self.tell_asked(step, asked),
            Target::Question { .. } => self.tell_asked(step, asked),
            Target::Page(_) => self.tell_asked(step, asked),
        }
    }

    /// A program ended. If it was by a resume, that is told as the step ends: then the kernel alone has asked for the context.
    fn note_ended(&mut self, step: u32, domain: u32) -> Result<Option<Presented>, Untold>
        ensures adds { AddsOutcome (spec.end_outcome step (due_of self.old.target)) step self.old self.new result }
        ensures watch { self.new.watch ≡ self.old.watch }
        ensures target { self.new.target ≡ self.old.target }
        ensures ended { self.new.ended ≡ slice_set self.old.ended domain (Some step) }
    {
        set_ended(&mut self.ended, domain as usize, step);
        match self.target {
            Target::Nothing => Err(unfit(step)),
            Target::Context(_, _) => Ok(None),
            Target::Page(presented) => Ok(Some(presented)),
            Target::Question { ctx } => self.tell_end(&Passage::Question(step, ctx)),
        }
    }

    /// Notes what is presented as a program is about to end.
    fn note_ending(&mut self, item: &Item<'_>)
        ensures due { (b : Bundle) (items : List AnyItem) → Watches b items self.old.watch →
            due_of self.new.target ≡ spec.due_met b items (notes_of self.old.watch) (due_of self.old.target) (item_of item.now) }
        ensures same { self.new ≡ record self.old { target = self.new.target } }
    {
        match item {
            Item::Ended { domain } => {
                let target = self.target;
                self.target = end_target(&self.watch, target, u32::from(*domain));
            }
            Item::Cipher { .. }
            | Item::Put { .. }
            | Item::Leave(_)
            | Item::End
            | Item::Ok { .. }
            | Item::Absent { .. }
            | Item::Word { .. }
            | Item::Timer { .. }
            | Item::Resume { .. }
            | Item::Step { .. }
            | Item::Close { .. }
            | Item::Stopped { .. } => {}
        }
    }

    /// Notes an item that the watch took in this step, after so many others.
    fn note(&mut self, item: &Item<'_>, step: u32, before: u64) -> Result<Option<Presented>, Untold>
        ensures { (b : Bundle) (items : List AnyItem) → Watches b items self.old.watch →
            NotesItem b (spec.question_in b items before) (item_of item.now) step self.old self.new result }
    {
        match item {
            Item::Stopped { .. } => {
                self.target = question_target(&self.watch, before);
                Ok(None)
            }
            Item::Ended { domain } => self.note_ended(step, u32::from(*domain)),
            Item::Step { .. } => self.note_made(step),
            Item::Close { .. } => self.note_made(step),
            Item::Cipher { .. }
            | Item::Put { .. }
            | Item::Leave(_)
            | Item::End
            | Item::Ok { .. }
            | Item::Absent { .. }
            | Item::Word { .. }
            | Item::Timer { .. }
            | Item::Resume { .. } => Ok(None),
        }
    }

    /// Takes the next item, before which there were so many, and tells the violation that it ends with. A page that was
    /// presented is returned: it is told with what was done to it before.
    pub fn take(&mut self, item: &Item<'_>, before: u64) -> Result<Option<Presented>, Untold>
        ensures { (b : Bundle) (told : Option (List ℕ)) (items : List AnyItem) → IsItem (item_of item.now) → length items ≡ before →
            Tells b told items self.old → StoryTakes b told items (item_of item.now) self.new result }
    {
        let step = self.watch.step();
        self.note_ending(item);
        match self.watch.take(item) {
            Ok(_) => self.note(item, step, before),
            Err(at) => Err(unfit(at.step)),
        }
    }
}

/// How a run ended.
fn write_end_reason<W: fmt::Write>(
    missed: bool,
    halted: Option<u32>,
    f: &mut fmt::Formatter<W>,
) -> fmt::Result
    ensures { DisplaysOnOk W.write_str_gives f.old result (Some (end_reason missed halted)) f.new }
{
    if missed {
        return f.write_str("for want of randomness");
    }
    match halted {
        Some(value) => write!(f, "by a halt with {value}"),
        None => f.write_str("by its number of steps"),
    }
}

/// The last sentence of a story without a violation.
fn write_none<W: fmt::Write>(
    steps: u32,
    missed: bool,
    halted: Option<u32>,
    f: &mut fmt::Formatter<W>,
) -> fmt::Result
    ensures { DisplaysOnOk W.write_str_gives f.old result (Some (no_violation steps missed halted)) f.new }
{
    write!(
        f,
        "There was no violation: the run has {steps} steps, and ended "
    )?;
    write_end_reason(missed, halted, f)?;
    f.write_str(".\n")
}

/// The last sentence of a story with violations.
fn write_some<W: fmt::Write>(
    steps: u32,
    ended: usize,
    refused: u64,
    f: &mut fmt::Formatter<W>,
) -> fmt::Result
    ensures { DisplaysOnOk W.write_str_gives f.old result (Some (violations_counted steps ended refused)) f.new }
{
    write!(
        f,
        "The run has {steps} steps; programs that ended: {ended}; "
    )?;
    write!(f, "resumes that were refused: {refused}.\n")
}

/// The last sentence of a story, by what is noted of its run.
fn write_summary<W: fmt::Write>(
    watch: &Watch,
    ended: usize,
    refused: u64,
    f: &mut fmt::Formatter<W>,
) -> fmt::Result
    ensures { DisplaysOnOk W.write_str_gives f.old result (Some (summary (notes_of watch.now) ended refused)) f.new }
{
    if ended != 0 {
        return write_some(watch.step(), ended, refused, f);
    }
    if refused != 0 {
        return write_some(watch.step(), ended, refused, f);
    }
    write_none(watch.step(), watch.lacks_draw(), watch.halted(), f)
}

impl fmt::Display for Story {
    ghost output = { λ s. Some (story_text s) };

    fn fmt<W: fmt::Write>(&self, f: &mut fmt::Formatter<W>) -> fmt::Result {
        f.write_str(&self.text)?;
        write_summary(&self.watch, programs_ended(&self.ended), self.refused, f)
    }
}
