//! The rows of frames and blocks.

use crate::canvas::{Area, Canvas};
use crate::glyphs::put_glyph;
use crate::names::{mark_title, put_sight, put_steps, short_sight};
use cloak_base::NoMemory;
use run_notes::{Look, MarkKind, Marks, Row, Sight, Stay, Stays, steps_of};
use std::alloc::Global;
use svg_text::Label;

/// How wide a text of so many signs is about.
pub fn text_width(signs: u64) -> u64 {
    signs.saturating_mul(76).saturating_add(60)
}

/// The class of a bar.
fn bar_class(sight: &Sight) -> Label {
    let before = match sight.look {
        Look::Zeros => return Label::of("zero"),
        Look::Open => return Label::of("kern"),
        Look::Lost => return Label::of("cq"),
        Look::Cipher | Look::Altered => "c",
        Look::Old | Look::OldAltered => "o",
        Look::Used => "u",
        Look::Changed => "f",
    };
    let Some(domain) = sight.domain() else {
        return Label::of("cq");
    };
    let mut class = Label::of(before);
    class.number(u64::from(domain % 4));
    class
}

/// What a stay tells, in full.
fn stay_title(stay: &Stay) -> Label {
    let mut label = Label::new();
    put_steps(&mut label, stay.from, stay.to);
    label.text(": ");
    put_sight(&mut label, &stay.sight);
    if stay.count > 1 {
        label.text(" for longest; ");
        label.number(u64::from(stay.count));
        label.text(" stays are drawn as one");
    }
    label
}

/// The words on a bar: the longest form that fits.
fn put_words(canvas: &mut Canvas, sight: &Sight, area: Area) -> Result<(), NoMemory> {
    let class = if sight.look == Look::Changed {
        "mid sm on lb"
    } else {
        "mid sm halo lb"
    };
    for form in 0..4 {
        let label = short_sight(sight, form);
        if !label.is_empty() && text_width(label.len()) < area.width {
            let x = area.x.saturating_add(area.width / 2);
            return canvas.text(x, area.y.saturating_add(145), class, &label);
        }
    }
    Ok(())
}

/// A line along a bar.
fn line_along(width: u64) -> Label {
    let mut rest = Label::of("h");
    rest.tenths(width);
    rest
}

/// A dashed outline.
fn outline(width: u64) -> Label {
    let mut rest = Label::of("h");
    rest.tenths(width);
    rest.text("v20h-");
    rest.tenths(width);
    rest.text("z");
    rest
}

/// The bar of a stay.
fn put_bar(canvas: &mut Canvas, stay: &Stay, y: u64) -> Result<(), NoMemory> {
    let x = canvas.x(stay.from);
    let width = canvas.x(stay.to).saturating_sub(x).max(6);
    let area = Area {
        x,
        y,
        width,
        height: 200,
    };
    canvas.rect(area, &bar_class(&stay.sight), &stay_title(stay))?;
    let none = Label::new();
    if stay.sight.look == Look::Altered || stay.sight.look == Look::OldAltered {
        canvas.path(x, y, &outline(width), &Label::of("alt"), &none)?;
    }
    if stay.count > 1 {
        if width > 15 {
            canvas.path(
                x,
                y.saturating_add(190),
                &line_along(width),
                &Label::of("ln"),
                &none,
            )?;
        }
        return Ok(());
    }
    put_words(canvas, &stay.sight, area)
}

/// The bars of a row, by columns of so many units.
pub fn put_bars(
    alloc: Global,
    canvas: &mut Canvas,
    row: &Row,
    units: u32,
    end: u32,
    y: u64,
) -> Result<(), NoMemory> {
    let mut stays = Stays::open(alloc, steps_of(units, end))?;
    for stay in row.stays.made() {
        stays.add(*stay);
    }
    stays.end();
    for stay in stays.made() {
        put_bar(canvas, stay, y)?;
    }
    Ok(())
}

/// How far below a row's head a mark stands.
fn mark_height(kind: MarkKind) -> u64 {
    match kind {
        MarkKind::Shown | MarkKind::Altered | MarkKind::Stopped => 40,
        MarkKind::Written | MarkKind::Read => 310,
        MarkKind::Put => 20,
        _ => 160,
    }
}

/// Marks by wider columns.
pub fn wider_marks(alloc: Global, marks: &Marks, column: u32) -> Result<Marks, NoMemory> {
    let mut wider = Marks::open(alloc, column)?;
    for mark in marks.made() {
        wider.add(*mark);
    }
    Ok(wider)
}

/// The marks of a frame's row.
fn put_marks(
    alloc: Global,
    canvas: &mut Canvas,
    row: &Row,
    units: u32,
    ends: (u32, u32),
) -> Result<(), NoMemory> {
    let (steps, end) = ends;
    let marks = wider_marks(alloc, &row.marks, steps_of(units.saturating_mul(2), end))?;
    for mark in marks.made() {
        let x = canvas.between(mark.first, mark.last);
        let y = canvas.y.saturating_add(mark_height(mark.kind));
        put_glyph(canvas, mark.kind, x, y, &mark_title(mark, steps))?;
    }
    Ok(())
}

/// The row of a frame.
pub fn put_frame(
    alloc: Global,
    canvas: &mut Canvas,
    row: &Row,
    units: u32,
    ends: (u32, u32),
) -> Result<(), NoMemory> {
    canvas.down(60);
    let y = canvas.y;
    let mut head = Label::of("frame ");
    head.number(u64::from(row.number));
    canvas.text(1420, y.saturating_add(200), "end", &head)?;
    if row.had_put && !row.had_page {
        canvas.text(160, y.saturating_add(200), "sm dim", &Label::of("open"))?;
    }
    put_bars(alloc, canvas, row, units, ends.1, y.saturating_add(60))?;
    put_marks(alloc, canvas, row, units, ends)?;
    canvas.down(320);
    Ok(())
}

/// The row of a block of the disk.
pub fn put_block(
    alloc: Global,
    canvas: &mut Canvas,
    row: &Row,
    units: u32,
    end: u32,
) -> Result<(), NoMemory> {
    canvas.down(40);
    let y = canvas.y;
    let mut head = Label::of("block ");
    head.number(u64::from(row.number));
    canvas.text(1420, y.saturating_add(150), "end", &head)?;
    put_bars(alloc, canvas, row, units, end, y)?;
    canvas.down(220);
    Ok(())
}
