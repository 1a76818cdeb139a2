//! The title, and sentences on how the run ended.
ghost use Rattle.std.specs.Prelude.{◌≡◌, ◌++◌, [], codes, decimal, is_some, count_by};
ghost use Rattle.run_picture.specs.Words as words;
ghost use Rattle.svg_text.specs.Labels.{put_signs, signs_of};

use crate::drawing::{Picture, RecordEnd};
use svg_text::Label;

/// The last part of a path.
fn put_last_name(label: &mut Label, path: &str) {
    match path.rsplit_once('/') {
        Some((_, last)) => put_front(label, last),
        None => put_front(label, path),
    }
}

/// The front of a name.
fn put_front(label: &mut Label, name: &str) {
    let mut count = 0u32;
    for c in name.chars() {
        if count == 60 {
            label.sign(0x2026);
            return;
        }
        label.sign(c as u32);
        count = u32::saturating_add(count, 1);
    }
}

/// How many programs ended.
fn count_ended(ended: &[Option<u32>]) -> u64
    ensures { result ≡ count_by is_some ended.now }
{
    let mut count = 0;
    for step in ended {
        if step.is_some() {
            count += 1;
        }
    }
    count
}

/// How many steps there are.
#[tactic(auto, using(svg_text::proofs::Putting::put_put))]
fn put_step_count(label: &mut Label, steps: u32)
    ensures { signs_of label.new ≡ put_signs (signs_of label.old) (words.steps_words steps) }
{
    label.number(u64::from(steps));
    if steps == 1 {
        label.text(" step");
    } else {
        label.text(" steps");
    }
}

/// How the run was halted, if it was.
#[tactic(auto, using(svg_text::proofs::Putting::put_put))]
fn put_halt(label: &mut Label, halted: Option<u32>)
    ensures { signs_of label.new ≡ put_signs (signs_of label.old) (words.halt_words halted) }
{
    match halted {
        None => label.text(""),
        Some(value) => {
            label.text(", halt ");
            label.number(u64::from(value));
        }
    }
}

/// A comma, a count, and what is counted.
#[tactic(auto, using(svg_text::proofs::Putting::put_put))]
fn put_counted(label: &mut Label, count: u64, text: &str)
    ensures { signs_of label.new ≡ put_signs (signs_of label.old) (codes ", " ++ (decimal count ++ text.now)) }
{
    label.text(", ");
    label.number(count);
    label.text(text);
}

/// How many programs ended, if some did.
fn put_ended(label: &mut Label, count: u64)
    ensures { signs_of label.new ≡ put_signs (signs_of label.old) (words.ended_words count) }
{
    if count == 0 {
        label.text("");
    } else if count == 1 {
        put_counted(label, count, " program ended by a violation");
    } else {
        put_counted(label, count, " programs ended by violations");
    }
}

/// The title: the image, how many steps there are, and how the run ended.
pub fn title_of(p: &Picture<'_>) -> Label {
    let mut label = Label::new();
    put_last_name(&mut label, p.name);
    label.text(": ");
    put_step_count(&mut label, p.plan.steps);
    if p.end == RecordEnd::Whole {
        put_halt(&mut label, p.notes.halted);
        put_ended(&mut label, count_ended(&p.notes.ended));
    } else {
        label.text(", of a record that does not go on");
    }
    label
}

/// A program ended in a step.
#[tactic(auto, using(svg_text::proofs::Putting::put_put))]
pub fn ended_sentence(program: u32, step: u32) -> Label
    ensures { signs_of result ≡ put_signs [] (words.ended_sentence program step) }
{
    let mut label = Label::of("Program ");
    label.number(u64::from(program));
    label.text(" ends by a violation in step ");
    label.number(u64::from(step));
    label.text(". (./tools explain tells what was presented.)");
    label
}

/// How the run ended, in a sentence.
pub fn end_of(p: &Picture<'_>) -> Label {
    let mut label = Label::of("The end: ");
    match p.end {
        RecordEnd::Unfit(step) => {
            label.text("the record does not fit the image, from step ");
            label.number(u64::from(step));
            label.text(" on. What is drawn is the part that fits.");
        }
        RecordEnd::Broken => {
            label.text("the file is no whole record. What is drawn is the part that is one.");
        }
        RecordEnd::Whole => {
            put_whole_end(&mut label, p.notes.halted, p.plan.steps);
        }
    }
    label
}

/// How a run ended whose record is whole.
fn put_whole_end(label: &mut Label, halted: Option<u32>, steps: u32) {
    match halted {
        Some(value) => {
            label.text("the kernel halts the run with ");
            label.number(u64::from(value));
            label.text(" in step ");
        }
        None => label.text("all steps were made, or a draw was missing, after step "),
    }
    label.number(u64::from(steps));
    label.text(".");
}
