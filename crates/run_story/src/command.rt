//! The command `explain`.
ghost use Rattle.cloak_model.specs.Items.{item_of};
ghost use Rattle.std.specs.Prelude.{◌≡◌, ◌≢◌, ◌<◌, ◌++◌, [], ◌∷◌, ℕ, List, Option, Some, IfOk, length};
ghost use Rattle.io_traits.specs.Told.{SameFiles};
ghost use Rattle.command_parts.specs.Outside.{outside, output};
ghost use Rattle.cloak_model.specs.Bundle.{IsInGrammar};
ghost use Rattle.cloak_model.specs.Record.{IsItem};
ghost use Rattle.cloak_model.specs.declared.image.Bundle.{Bundle};
ghost use Rattle.cloak_model.specs.Items.{Item as AnyItem};
ghost use Rattle.read_back.specs.Reading.{ReadsAs};
ghost use Rattle.run_story.specs.Answering.{BeginsSo, EndsAfter, ExplainAnswers, ShowsStory, ShowsUntold, TellsDeeds, TellsItem, TellsPage, TellsStory};
ghost use Rattle.replayed_run.specs.Alone.{FitsAlone};
ghost use Rattle.replayed_run.specs.Watching.{Watches};
ghost use Rattle.run_story.specs.Gathering.{GathersAgain};
ghost use Rattle.run_story.specs.Telling.{Tells, TellsBut, story_text};

use crate::deeds::Deeds;
use crate::presented::Presented;
use crate::story::Story;
use crate::telling::{PageStory, Passage};
use crate::untold::Untold;
use cloak_model::{Bundle, Item};
use command_parts::{Refusal, Status, read_bundle, refuse};
use io_traits::{Shelf, Sink, put_all};
use read_back::{Ending, next_item, show_fault, status};
use record_reader::Reader;
use replayed_run::Watch;
use std::alloc::Global;

/// What was gathered, as reading a record once more ended so before the question.
fn gathered(deeds: Deeds, ended: Ending) -> Result<Deeds, Untold>
    ensures counts { (before now : ℕ) → ReadsAs before now (Some ended) → TellsDeeds before now result }
    ensures same { IfOk result (λ given. (given ≡ deeds) × (ended ≢ Ending.Unread)) }
{
    match ended {
        Ending::Unread => Err(Untold::Ended(Ending::Unread)),
        Ending::Whole => Ok(deeds),
        Ending::Fault(_) => Ok(deeds),
        Ending::Unfit(_) => Ok(deeds),
    }
}

/// Reads a record once more up to the question of a violation, and gathers what was done to the page of it.
fn deeds_of<S: Shelf>(
    alloc: Global,
    bundle: &Bundle,
    watch: &mut Watch,
    presented: &Presented,
    name: &str,
    shelf: &mut S,
) -> Result<Deeds, Untold>
    requires { S.is_settled shelf.old }
    ensures counts { TellsDeeds (S.reading_faults shelf.old) (S.reading_faults shelf.new) result }
    ensures gathers { (items : List AnyItem) → Watches bundle.now [] watch.old → FitsAlone bundle.now items →
        BeginsSo (S.held shelf.old name.now) items → presented.now.before < length items →
        IfOk result (GathersAgain bundle.now (S.held shelf.old name.now) presented.now) }
    ensures files { SameFiles (S.held shelf.old) (S.held shelf.new) }
    ensures writing { S.writing_faults shelf.new ≡ S.writing_faults shelf.old }
    ensures settled { S.is_settled shelf.new }
{
    let Ok(mut deeds) = Deeds::new(alloc, bundle, *presented) else {
        return Err(Untold::NoMemory);
    };
    let mut reader = Reader::open(name);
    let mut room = [0; 4096];
    for _ in 0..presented.before {
        let item = match next_item(&mut reader, shelf, &mut room) {
            Ok(item) => item,
            Err(ended) => return gathered(deeds, ended),
        };
        match deeds.take(watch, &item) {
            Ok(true) => {}
            Ok(false) => return Ok(deeds),
            Err(_) => return Err(Untold::NoMemory),
        }
    }
    Ok(deeds)
}

/// Tells of a page that was presented, with what was done to it before.
fn tell_page<S: Shelf>(
    alloc: Global,
    bundle: &Bundle,
    story: &mut Story,
    presented: &Presented,
    name: &str,
    shelf: &mut S,
) -> Result<(), Untold>
    requires settled { S.is_settled shelf.old }
    requires bundle { IsInGrammar bundle.now }
    ensures tells { (items : List AnyItem) → BeginsSo (S.held shelf.old name.now) items →
        TellsBut bundle.now (S.held shelf.old name.now) items presented.now story.old →
        TellsPage bundle.now (S.held shelf.old name.now) items (S.reading_faults shelf.old) (S.reading_faults shelf.new)
        story.new result }
    ensures files { SameFiles (S.held shelf.old) (S.held shelf.new) }
    ensures writing { S.writing_faults shelf.new ≡ S.writing_faults shelf.old }
    ensures settled { S.is_settled shelf.new }
{
    let Ok(mut watch) = Watch::open(alloc, bundle) else {
        return Err(Untold::NoMemory);
    };
    let deeds = match deeds_of(alloc, bundle, &mut watch, presented, name, shelf) {
        Ok(deeds) => deeds,
        Err(untold) => return Err(untold),
    };
    let more = PageStory {
        presented,
        deeds: &deeds,
    };
    let Ok(more) = format!(in alloc; "{more}") else {
        return Err(Untold::NoMemory);
    };
    story.tell(&Passage::Page(*presented, more))
}

/// Takes an item of a record, before which there were so many, and tells the violation that it ends with.
fn tell_item<S: Shelf>(
    alloc: Global,
    bundle: &Bundle,
    story: &mut Story,
    item: &Item<'_>,
    before: u64,
    name: &str,
    shelf: &mut S,
) -> Result<(), Untold>
    requires settled { S.is_settled shelf.old }
    requires bundle { IsInGrammar bundle.now }
    ensures tells { (items : List AnyItem) → IsItem (item_of item.now) → length items ≡ before →
        BeginsSo (S.held shelf.old name.now) (items ++ (item_of item.now) ∷ []) →
        Tells bundle.now (S.held shelf.old name.now) items story.old →
        TellsItem bundle.now (S.held shelf.old name.now) items (item_of item.now) (S.reading_faults shelf.old)
        (S.reading_faults shelf.new) story.new result }
    ensures files { SameFiles (S.held shelf.old) (S.held shelf.new) }
    ensures writing { S.writing_faults shelf.new ≡ S.writing_faults shelf.old }
    ensures settled { S.is_settled shelf.new }
{
    match story.take(item, before) {
        Ok(Some(presented)) => tell_page(alloc, bundle, story, &presented, name, shelf),
        Ok(None) => Ok(()),
        Err(untold) => Err(untold),
    }
}

/// The story of a record of which reading ended so.
fn told_whole(story: Story, ended: Ending) -> Result<Story, Untold>
    ensures { (b : Bundle) (told : Option (List ℕ)) (items : List AnyItem) (before now : ℕ) → Tells b told items story →
        EndsAfter told items before now ended → TellsStory b told before now result }
{
    match ended {
        Ending::Whole => Ok(story),
        Ending::Unfit(step) => Err(Untold::Ended(Ending::Unfit(step))),
        Ending::Fault(fault) => Err(Untold::Ended(Ending::Fault(fault))),
        Ending::Unread => Err(Untold::Ended(Ending::Unread)),
    }
}

/// Tells the run of a record.
fn tell<S: Shelf>(
    alloc: Global,
    bundle: &Bundle,
    name: &str,
    shelf: &mut S,
) -> Result<Story, Untold>
    requires settled { S.is_settled shelf.old }
    requires bundle { IsInGrammar bundle.now }
    ensures tells { TellsStory bundle.now (S.held shelf.old name.now)
        (S.reading_faults shelf.old) (S.reading_faults shelf.new) result }
    ensures files { SameFiles (S.held shelf.old) (S.held shelf.new) }
    ensures writing { S.writing_faults shelf.new ≡ S.writing_faults shelf.old }
{
    let Ok(mut story) = Story::open(alloc, bundle) else {
        return Err(Untold::NoMemory);
    };
    let mut reader = Reader::open(name);
    let mut room = [0; 4096];
    let mut taken: u64 = 0;
    loop {
        let item = match next_item(&mut reader, shelf, &mut room) {
            Ok(item) => item,
            Err(ended) => return told_whole(story, ended),
        };
        match tell_item(alloc, bundle, &mut story, &item, taken, name, shelf) {
            Ok(()) => {}
            Err(untold) => return Err(untold),
        }
        taken += 1;
    }
}

/// Shows a story.
fn show_story<O: Sink>(alloc: Global, story: &Story, out: &mut O) -> Status
    ensures { ShowsStory (story_text story.now) (output O.Sink out.old) (output O.Sink out.new) result }
{
    let Ok(text) = format!(in alloc; "{story}") else {
        return refuse(out, &Refusal::NoMemory);
    };
    match put_all(out, text.as_bytes()) {
        Ok(()) => Status::Done,
        Err(_) => Status::WriteFault,
    }
}

/// Shows why there is no story.
fn show_untold<O: Sink>(untold: Untold, out: &mut O) -> Status
    ensures { ShowsUntold untold (output O.Sink out.old) (output O.Sink out.new) result }
{
    match untold {
        Untold::NoMemory => refuse(out, &Refusal::NoMemory),
        Untold::Ended(ending) => match show_fault(out, &ending) {
            Ok(()) => status(&ending),
            Err(_) => Status::WriteFault,
        },
    }
}

/// Tells in sentences each violation of the run of a record: what was presented, what the kernel did to it before, and
/// which rule it broke; and in the end how many programs ended and how many resumes were refused, or that there was none.
pub fn explain_command<S: Shelf, O: Sink>(
    alloc: Global,
    bundle_name: &str,
    record_name: &str,
    shelf: &mut S,
    out: &mut O,
) -> Status
    requires settled { S.is_settled shelf.old }
    ensures answers { ExplainAnswers bundle_name.now record_name.now
        (outside S.Shelf O.Sink shelf.old out.old) (outside S.Shelf O.Sink shelf.new out.new) result }
    ensures files { SameFiles (S.held shelf.old) (S.held shelf.new) }
    ensures writing { S.writing_faults shelf.new ≡ S.writing_faults shelf.old }
{
    let bundle = match read_bundle(alloc, shelf, bundle_name) {
        Ok(bundle) => bundle,
        Err(refusal) => return refuse(out, &refusal),
    };
    match tell(alloc, &bundle, record_name, shelf) {
        Ok(story) => show_story(alloc, &story, out),
        Err(untold) => show_untold(untold, out),
    }
}
