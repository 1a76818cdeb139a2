//! The whole picture.
ghost use Rattle.std.specs.Prelude.{IfOk};
ghost use Rattle.svg_text.specs.Writing.{IsPicture};

use crate::bars::{put_block, put_frame};
use crate::canvas::{Area, Canvas, MOST, put_section};
use crate::console::put_console;
use crate::harts::put_hart;
use crate::head::put_head;
use crate::sentences::{end_of, ended_sentence, title_of};
use crate::style::{put_patterns, put_style};
use cloak_base::NoMemory;
use run_notes::{Notes, Plan};
use std::alloc::Global;
use svg_text::{Attributes, Key, Label, MOST_ELEMENTS, Markup, Tag, picture};

/// The widths of columns that are tried, in units: of frames and blocks, and of harts.
static UNITS: [(u32, u32); 11] = [
    (3, 3),
    (4, 4),
    (6, 4),
    (9, 5),
    (13, 6),
    (19, 7),
    (28, 8),
    (42, 10),
    (63, 16),
    (95, 40),
    (142, 142),
];

/// How the reading of the record ended.
#[derive(Clone, Copy, Debug, PartialEq, Eq)]
pub enum RecordEnd {
    Whole,
    /// An item of this step does not fit.
    Unfit(u32),
    /// It is no whole record.
    Broken,
}

/// What is drawn.
#[derive(Clone, Copy)]
pub struct Picture<'a> {
    /// The name of the image.
    pub name: &'a str,
    pub notes: &'a Notes,
    pub plan: &'a Plan,
    pub end: RecordEnd,
    pub programs: u64,
}

/// A sentence for each program that ended, or whose items do not fit.
fn put_ends(canvas: &mut Canvas, notes: &Notes) -> Result<(), NoMemory> {
    for (number, ended) in notes.ended.iter().enumerate() {
        if let Some(step) = ended {
            let sentence = ended_sentence(number.min(3) as u32, *step);
            canvas.text(160, canvas.y, "stopt h", &sentence)?;
            canvas.down(190);
        }
    }
    for (number, lost) in notes.lost.iter().enumerate() {
        if let Some(step) = lost {
            let mut label = Label::of("The items of program ");
            label.number(number as u64);
            label.text(" do not fit from step ");
            label.number(u64::from(*step));
            label.text(" on: what is known of its pages ends there.");
            canvas.text(160, canvas.y, "h", &label)?;
            canvas.down(190);
        }
    }
    Ok(())
}

/// How many more there are.
fn put_more(canvas: &mut Canvas, count: u32, one: &str, many: &str) -> Result<(), NoMemory> {
    if count == 0 {
        return Ok(());
    }
    canvas.down(180);
    let mut label = Label::new();
    label.number(u64::from(count));
    label.text(if count == 1 { one } else { many });
    canvas.text(1420, canvas.y, "end", &label)
}

/// The place of a row by its number, right below its head.
fn row_place(places: &[(u32, u64)], number: u32) -> Option<u64> {
    for (row, y) in places {
        if *row == number {
            return Some(*y);
        }
    }
    None
}

/// The rows of frames, with the place of each.
fn put_frame_rows(
    alloc: Global,
    canvas: &mut Canvas,
    p: &Picture<'_>,
    units: u32,
) -> Result<Vec<(u32, u64)>, NoMemory> {
    let mut places = Vec::new(alloc);
    if p.notes.frames.rows().is_empty() {
        return Ok(places);
    }
    put_section(
        canvas,
        "Frames",
        "what is in each frame of memory; the kernel finds ciphertext in each that is in use",
    )?;
    for row in p.notes.frames.rows() {
        places.push((row.number, canvas.y.saturating_add(440)))?;
        put_frame(alloc, canvas, row, units, (p.plan.steps, p.plan.end))?;
    }
    put_more(canvas, p.plan.more_frames, " more frame", " more frames")?;
    Ok(places)
}

/// The rows of blocks, with the place of each.
fn put_block_rows(
    alloc: Global,
    canvas: &mut Canvas,
    p: &Picture<'_>,
    units: u32,
) -> Result<Vec<(u32, u64)>, NoMemory> {
    let mut places = Vec::new(alloc);
    if p.notes.blocks.rows().is_empty() {
        return Ok(places);
    }
    put_section(
        canvas,
        "Disk",
        "what is in each block; lines are copies between frames and blocks, which the kernel makes",
    )?;
    for row in p.notes.blocks.rows() {
        places.push((row.number, canvas.y.saturating_add(40)))?;
        put_block(alloc, canvas, row, units, p.plan.end)?;
    }
    put_more(canvas, p.plan.more_blocks, " more block", " more blocks")?;
    Ok(places)
}

/// A line for each move between a frame and a block that have rows, if there are few moves.
fn put_moves(
    canvas: &Canvas,
    grid: &mut Canvas,
    notes: &Notes,
    frames: &[(u32, u64)],
    blocks: &[(u32, u64)],
) -> Result<(), NoMemory> {
    if notes.moves.all() as usize > notes.moves.kept().len() {
        return Ok(());
    }
    for moved in notes.moves.kept() {
        let from = row_place(frames, moved.frame);
        let to = row_place(blocks, moved.block);
        if let (Some(from), Some(to)) = (from, to) {
            let mut rest = Label::of("V");
            rest.tenths(to);
            let class = Label::of(if moved.is_write { "mv" } else { "mv in" });
            grid.path(
                canvas.middle(moved.step),
                from,
                &rest,
                &class,
                &Label::new(),
            )?;
        }
    }
    Ok(())
}

/// The distance between ticks: 1, 2 or 5 with zeros, so that there are at most nine.
fn tick_step(end: u32) -> u64 {
    let mut step = 1u64;
    for round in 0..40 {
        if u64::from(end) <= u64::saturating_mul(step, 9) {
            return step;
        }
        step = if round % 3 == 1 {
            u64::saturating_mul(step, 5) / 2
        } else {
            u64::saturating_mul(step, 2)
        };
    }
    step
}

/// A tick of the axis: a line behind all rows, and its number.
fn put_tick(
    canvas: &mut Canvas,
    grid: &mut Canvas,
    step: u32,
    top: u64,
    is_last: bool,
) -> Result<(), NoMemory> {
    let x = canvas.x(step);
    let mut rest = Label::of("V");
    rest.tenths(canvas.y);
    grid.path(x, top, &rest, &Label::of("grid"), &Label::new())?;
    let mut label = Label::new();
    if is_last {
        label.text("step ");
    }
    label.number(u64::from(step));
    let class = if is_last { "sm end" } else { "sm mid" };
    canvas.text(x, canvas.y.saturating_add(160), class, &label)
}

/// The axis of steps.
fn put_axis(canvas: &mut Canvas, grid: &mut Canvas, steps: u32, top: u64) -> Result<(), NoMemory> {
    let distance = tick_step(steps.max(1));
    let last = canvas.x(steps);
    for number in 0..10 {
        let step = distance.saturating_mul(number);
        if step < u64::from(steps) || number == 0 {
            let step = step.min(u64::from(u32::MAX)) as u32;
            if canvas.x(step).saturating_add(850) < last || step == 0 {
                put_tick(canvas, grid, step, top, false)?;
            }
        }
    }
    if steps > 0 {
        put_tick(canvas, grid, steps, top, true)?;
    }
    canvas.down(160);
    Ok(())
}

/// What a picture was made from.
fn put_foot(canvas: &mut Canvas) -> Result<(), NoMemory> {
    let made = Label::of(
        "Made from the image and the record, without any key. Drawn are frames that a page was in or that a program stores into, those with most marks.",
    );
    canvas.text(160, canvas.y, "dim sm", &made)?;
    canvas.down(160);
    let short = Label::of(
        "A bar with a line along its foot stands for many short stays. If a hart changes hands often, the height of a colour is its share of the time.",
    );
    canvas.text(160, canvas.y, "dim sm", &short)?;
    canvas.down(140);
    Ok(())
}

/// How the run ended.
fn put_end(canvas: &mut Canvas, p: &Picture<'_>) -> Result<(), NoMemory> {
    canvas.down(260);
    canvas.text(160, canvas.y, "h", &end_of(p))?;
    canvas.down(190);
    put_ends(canvas, p.notes)?;
    canvas.down(30);
    Ok(())
}

/// The body with columns of so many units, and the lines behind it.
fn draw_body(
    alloc: Global,
    p: &Picture<'_>,
    units: (u32, u32),
    grid: &mut Canvas,
) -> Result<Canvas, NoMemory> {
    let mut canvas = Canvas::new(alloc, p.plan.end);
    put_head(&mut canvas, &title_of(p), p.notes, p.programs)?;
    let top = canvas.y.saturating_add(60);
    put_section(
        &mut canvas,
        "Who runs",
        "on each hart the kernel, or a program with one of its contexts (threads)",
    )?;
    for (number, row) in p.notes.harts.iter().enumerate() {
        let ends = (p.plan.steps, p.plan.end);
        put_hart(alloc, &mut canvas, number as u64, row, units.1, ends)?;
    }
    let frames = put_frame_rows(alloc, &mut canvas, p, units.0)?;
    let blocks = put_block_rows(alloc, &mut canvas, p, units.0)?;
    put_moves(&canvas, grid, p.notes, frames.as_slice(), blocks.as_slice())?;
    put_console(&mut canvas, p.notes)?;
    put_axis(&mut canvas, grid, p.plan.steps, top)?;
    put_end(&mut canvas, p)?;
    put_foot(&mut canvas)?;
    Ok(canvas)
}

/// The element around a picture's body.
fn attributes_of(alloc: Global, height: u64) -> Result<Attributes, NoMemory> {
    let mut attributes = Attributes::new(alloc);
    attributes.put(Key::Xmlns, Label::of("http://www.w3.org/2000/svg").signs())?;
    let mut size = Label::of("0 0 1000 ");
    size.number(height);
    attributes.put(Key::ViewBox, size.signs())?;
    attributes.put(Key::Role, Label::of("img").signs())?;
    Ok(attributes)
}

/// The text of a picture.
fn text_of(
    alloc: Global,
    p: &Picture<'_>,
    canvas: &Canvas,
    grid: &Canvas,
) -> Result<Vec<u8>, NoMemory>
    ensures { IfOk result (λ text. IsPicture text.items) }
{
    let height = canvas.y / 10;
    let none = Attributes::new(alloc);
    let mut inside = Markup::new(alloc);
    let mut title = Markup::new(alloc);
    title.signs(title_of(p).signs())?;
    inside.element(Tag::Title, &none, &title)?;
    put_style(alloc, &mut inside)?;
    put_patterns(alloc, &mut inside)?;
    let mut ground = Canvas::new(alloc, 1);
    let area = Area {
        x: 0,
        y: 0,
        width: 10000,
        height: height.saturating_mul(10),
    };
    ground.rect(area, &Label::of("bg"), &Label::new())?;
    inside.element(Tag::G, &none, ground.body())?;
    inside.element(Tag::G, &none, grid.body())?;
    inside.element(Tag::G, &none, canvas.body())?;
    let attributes = attributes_of(alloc, height)?;
    if inside.count() >= MOST_ELEMENTS {
        return Ok(picture(alloc, &attributes, &Markup::new(alloc))?);
    }
    Ok(picture(alloc, &attributes, &inside)?)
}

/// The text of the picture of a run, with the narrowest columns that keep it below the most elements.
pub fn draw(alloc: Global, p: &Picture<'_>) -> Result<Vec<u8>, NoMemory>
    ensures { IfOk result (λ text. IsPicture text.items) }
{
    let mut grid = Canvas::new(alloc, p.plan.end);
    let mut canvas = draw_body(alloc, p, (2, 2), &mut grid)?;
    for units in &UNITS {
        if canvas.asked <= MOST {
            break;
        }
        grid = Canvas::new(alloc, p.plan.end);
        canvas = draw_body(alloc, p, *units, &mut grid)?;
    }
    text_of(alloc, p, &canvas, &grid)
}
