//! The rows of harts.
ghost use Rattle.std.specs.Prelude.{◌≡◌};
ghost use Rattle.run_picture.specs.Words as words;
ghost use Rattle.svg_text.specs.Labels.{put_signs, signs_of};

use crate::bars::{text_width, wider_marks};
use crate::canvas::{Area, Canvas};
use crate::glyphs::put_glyph;
use crate::names::{leave_words, mark_title, put_steps};
use cloak_base::NoMemory;
use run_notes::{HartRow, Mark, MarkKind, Turn, Turns, steps_of};
use std::alloc::Global;
use svg_text::Label;

/// The largest of some numbers, which is made smaller or larger by one.
fn change_largest(parts: &mut [u32; 5], is_down: bool) {
    let mut largest = 0;
    for part in parts.iter() {
        largest = u32::max(largest, *part);
    }
    for part in parts.iter_mut() {
        if *part == largest {
            *part = if is_down {
                part.saturating_sub(1)
            } else {
                part.saturating_add(1)
            };
            return;
        }
    }
}

/// How many are in all.
fn sum(parts: &[u32; 5]) -> u32 {
    let mut sum = 0;
    for part in parts.iter() {
        sum = u32::saturating_add(sum, *part);
    }
    sum
}

/// The time of each as quarters of the whole.
fn quarters(turn: &Turn) -> [u32; 5] {
    let whole = u64::from(turn.length());
    let mut parts = [0; 5];
    for (part, time) in parts.iter_mut().zip(turn.times.iter()) {
        let eighths = u64::from(*time).saturating_mul(8).saturating_add(whole);
        let share = match eighths.checked_div(whole.saturating_mul(2)) {
            Some(share) => share.min(4) as u32,
            None => 0,
        };
        *part = if *time == 0 { 0 } else { share.max(1) };
    }
    for _ in 0..5 {
        if sum(&parts) > 4 {
            change_largest(&mut parts, true);
        }
    }
    for _ in 0..4 {
        if sum(&parts) < 4 {
            change_largest(&mut parts, false);
        }
    }
    parts
}

/// The context of a turn, if it is one of a context.
#[tactic(auto, using(svg_text::proofs::Putting::put_put))]
fn put_context(label: &mut Label, turn: &Turn)
    ensures { signs_of label.new ≡ put_signs (signs_of label.old) (words.context_words turn.now) }
{
    if turn.count == 1 {
        label.text(", context ");
        label.number(u64::from(turn.ctx % 8));
    } else {
        label.text("");
    }
}

/// Who has the place of a number among times.
#[tactic(auto, using(svg_text::proofs::Putting::put_put))]
fn put_party(label: &mut Label, place: u32, turn: &Turn)
    ensures { signs_of label.new ≡ put_signs (signs_of label.old) (words.party_words place turn.now) }
{
    if place == 0 {
        label.text("kernel");
    } else {
        label.text("program ");
        label.number(u64::from(place) - 1);
        put_context(label, turn);
    }
}

/// The words on a bar: the form of this number, of which later ones are shorter. There are three.
fn short_party(place: u32, turn: &Turn, form: u32) -> Label {
    let mut label = Label::new();
    if form == 0 {
        put_party(&mut label, place, turn);
        return label;
    }
    if place == 0 {
        label.text(if form == 1 { "kernel" } else { "K" });
        return label;
    }
    label.text("P");
    label.number(u64::from(place).saturating_sub(1));
    if form == 1 && turn.count == 1 {
        label.text(" context ");
        label.number(u64::from(turn.ctx % 8));
    }
    label
}

/// What a bar tells, in full.
fn turn_title(place: u32, part: u32, turn: &Turn) -> Label {
    let mut label = Label::new();
    put_steps(&mut label, turn.from, turn.to);
    label.text(": ");
    put_party(&mut label, place, turn);
    if turn.count > 1 && part < 4 {
        label.text(", about ");
        label.number(u64::from(part));
        label.text("/4 of the time; ");
        label.number(u64::from(turn.count));
        label.text(" turns");
    }
    label
}

/// The class of a bar.
fn turn_class(place: u32, width: u64) -> Label {
    if place == 0 {
        return Label::of(if width > 80 { "kern" } else { "kern nb" });
    }
    let mut class = Label::of("u");
    class.number(u64::from(place.saturating_sub(1) % 4));
    class
}

/// The bars of a turn: one, or one for each that runs in it.
fn put_turn(canvas: &mut Canvas, turn: &Turn) -> Result<(), NoMemory> {
    let x = canvas.x(turn.from);
    let width = canvas.x(turn.to).saturating_sub(x).max(6);
    let mut y = canvas.y;
    let parts = quarters(turn);
    for (place, part) in parts.iter().enumerate() {
        let (place, part) = (place.min(4) as u32, *part);
        if part == 0 {
            continue;
        }
        let height = u64::from(part).saturating_mul(50);
        let area = Area {
            x,
            y,
            width,
            height,
        };
        canvas.rect(
            area,
            &turn_class(place, width),
            &turn_title(place, part, turn),
        )?;
        y = y.saturating_add(height);
        if part == 4 {
            put_party_words(canvas, place, turn, area)?;
        }
    }
    Ok(())
}

/// The words on a bar: the longest form that fits.
fn put_party_words(
    canvas: &mut Canvas,
    place: u32,
    turn: &Turn,
    area: Area,
) -> Result<(), NoMemory> {
    for form in 0..3 {
        let label = short_party(place, turn, form);
        if text_width(label.len()) < area.width {
            let x = area.x.saturating_add(area.width / 2);
            return canvas.text(x, area.y.saturating_add(145), "mid sm halo lb", &label);
        }
    }
    Ok(())
}

/// The word at a leave, or how many there are.
fn leave_label(mark: &Mark) -> Label {
    let mut label = Label::new();
    if mark.count > 1 {
        label.number(u64::from(mark.count));
        if mark.mixed {
            label.text(" leave");
            return label;
        }
        label.sign(0xd7);
    }
    leave_words(&mut label, mark);
    label
}

/// A tick for a leave below the bars, with a word if it has room right of `free`. Returns up to where there is no room.
fn put_leave(canvas: &mut Canvas, mark: &Mark, title: &Label, free: u64) -> Result<u64, NoMemory> {
    let x = canvas.between(mark.first, mark.last);
    let y = canvas.y.saturating_add(230);
    put_glyph(canvas, MarkKind::Left, x, y, title)?;
    let label = leave_label(mark);
    let half = label.len().saturating_mul(38).saturating_add(20);
    if x < free.saturating_add(half) {
        return Ok(free);
    }
    canvas.text(x, canvas.y.saturating_add(340), "mid sm dim", &label)?;
    Ok(x.saturating_add(half))
}

/// The marks of a hart.
fn put_hart_marks(
    alloc: Global,
    canvas: &mut Canvas,
    row: &HartRow,
    units: u32,
    ends: (u32, u32),
) -> Result<(), NoMemory> {
    let (steps, end) = ends;
    let marks = wider_marks(alloc, &row.marks, steps_of(units.saturating_mul(3), end))?;
    let mut free = 0;
    for mark in marks.made() {
        let title = mark_title(mark, steps);
        let x = canvas.between(mark.first, mark.last);
        match mark.kind {
            MarkKind::Left => free = put_leave(canvas, mark, &title, free)?,
            MarkKind::Stopped => {
                put_glyph(canvas, mark.kind, x, canvas.y.saturating_add(100), &title)?;
            }
            _ => put_glyph(canvas, mark.kind, x, canvas.y, &title)?,
        }
    }
    Ok(())
}

/// The row of a hart.
pub fn put_hart(
    alloc: Global,
    canvas: &mut Canvas,
    number: u64,
    row: &HartRow,
    units: u32,
    ends: (u32, u32),
) -> Result<(), NoMemory> {
    canvas.down(40);
    let mut head = Label::of("hart ");
    head.number(number);
    canvas.text(1420, canvas.y.saturating_add(140), "end", &head)?;
    let mut turns = Turns::open(alloc, steps_of(units.saturating_mul(4), ends.1))?;
    for turn in row.turns.made() {
        turns.add(*turn);
    }
    turns.flush();
    for turn in turns.made() {
        put_turn(canvas, turn)?;
    }
    put_hart_marks(alloc, canvas, row, units, ends)?;
    canvas.down(410);
    Ok(())
}
