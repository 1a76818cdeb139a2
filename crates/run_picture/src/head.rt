//! The title and the legend.

use crate::canvas::{Area, Canvas};
use crate::glyphs::put_glyph;
use cloak_base::NoMemory;
use run_notes::{Look, MarkKind, Marks, Notes, Row};
use svg_text::Label;

/// The right end of the legend.
const RIGHT: u64 = 9850;

/// Bars of the legend, each with its class, whether it has an outline, and its words.
static BARS: [(Look, &str, &str, &str); 9] = [
    (Look::Zeros, "zero", "", "zeros"),
    (Look::Open, "kern", "box", "not cloaked"),
    (Look::Cipher, "c0", "box", "ciphertext"),
    (Look::Altered, "c0", "alt", "ciphertext, stored into"),
    (
        Look::Old,
        "o0",
        "box",
        "old ciphertext, which no page takes",
    ),
    (Look::OldAltered, "o0", "alt", "old, stored into"),
    (
        Look::Used,
        "u0",
        "box",
        "page in use, as it was last encrypted",
    ),
    (
        Look::Changed,
        "f0",
        "box",
        "page in use, changed: the kernel never saw these bytes",
    ),
    (Look::Lost, "cq", "box", "not known"),
];

/// Marks of the legend, with their words.
static GLYPHS: [(MarkKind, &str); 7] = [
    (MarkKind::Shown, "the kernel is shown new ciphertext"),
    (MarkKind::Written, "frame to disk"),
    (MarkKind::Read, "disk to frame"),
    (MarkKind::Put, "a program stores in the open"),
    (MarkKind::Altered, "the kernel stores into ciphertext"),
    (
        MarkKind::Resumed,
        "a context is resumed (above), leaves (below)",
    ),
    (MarkKind::Stopped, "a program ends by a violation"),
];

/// Where the next part of the legend stands, as wide as this: in the line, or in the next one.
fn place(canvas: &mut Canvas, x: u64, width: u64) -> u64 {
    if x.saturating_add(width) > RIGHT {
        canvas.down(190);
        160
    } else {
        x
    }
}

/// A bar of the legend.
fn put_bar(
    canvas: &mut Canvas,
    x: u64,
    width: u64,
    class: &Label,
    outline: &str,
) -> Result<(), NoMemory> {
    let area = Area {
        x,
        y: canvas.y,
        width,
        height: 120,
    };
    canvas.rect(area, class, &Label::new())?;
    if outline != "" {
        canvas.rect(area, &Label::of(outline), &Label::new())?;
    }
    Ok(())
}

/// Words of the legend.
fn put_words(canvas: &mut Canvas, x: u64, label: &Label) -> Result<(), NoMemory> {
    canvas.text(x, canvas.y.saturating_add(105), "sm", label)
}

/// How wide words of the legend are.
fn words_width(label: &Label) -> u64 {
    label.len().saturating_mul(66)
}

/// A look is in the picture.
fn is_seen(notes: &Notes, look: Look) -> bool {
    let at = |row: &Row| row.stays.made().iter().any(|stay| stay.sight.look == look);
    notes.frames.rows().iter().any(at) || notes.blocks.rows().iter().any(at)
}

/// The kinds of bars that occur.
fn put_bars(canvas: &mut Canvas, notes: &Notes) -> Result<u64, NoMemory> {
    let mut x = 160;
    for (look, class, outline, words) in &BARS {
        if !is_seen(notes, *look) {
            continue;
        }
        let label = Label::of(words);
        let width = words_width(&label).saturating_add(280);
        x = place(canvas, x, width);
        put_bar(canvas, x, 220, &Label::of(class), outline)?;
        put_words(canvas, x.saturating_add(270), &label)?;
        x = x.saturating_add(width).saturating_add(100);
    }
    Ok(x)
}

/// A kind of marks is in the picture.
fn occurs(notes: &Notes, kind: MarkKind) -> bool {
    let at = |marks: &Marks| marks.made().iter().any(|mark| mark.kind == kind);
    notes.frames.rows().iter().any(|row| at(&row.marks))
        || notes.harts.iter().any(|row| at(&row.marks))
}

/// The kinds of marks that occur.
fn put_glyphs(canvas: &mut Canvas, notes: &Notes, x: u64) -> Result<u64, NoMemory> {
    let mut x = x;
    for (kind, words) in &GLYPHS {
        if !occurs(notes, *kind) {
            continue;
        }
        let label = Label::of(words);
        let width = words_width(&label).saturating_add(200);
        x = place(canvas, x, width);
        let y = canvas.y.saturating_add(60);
        put_glyph(canvas, *kind, x.saturating_add(80), y, &Label::new())?;
        put_words(canvas, x.saturating_add(200), &label)?;
        x = x.saturating_add(width).saturating_add(100);
    }
    Ok(x)
}

/// The programs, if there are two.
fn put_programs(canvas: &mut Canvas, count: u64, x: u64) -> Result<(), NoMemory> {
    if count < 2 {
        return Ok(());
    }
    let mut x = x;
    for number in 0..count.min(4) {
        let (mut striped, mut full) = (Label::of("c"), Label::of("f"));
        striped.number(number);
        full.number(number);
        let mut label = Label::of("program ");
        label.number(number);
        label.text(" (P");
        label.number(number);
        label.text(")");
        let width = words_width(&label).saturating_add(280);
        x = place(canvas, x, width);
        put_bar(canvas, x, 110, &striped, "")?;
        put_bar(canvas, x.saturating_add(110), 110, &full, "")?;
        put_words(canvas, x.saturating_add(270), &label)?;
        x = x.saturating_add(width).saturating_add(100);
    }
    Ok(())
}

/// The title, how to read the picture, and the legend.
pub fn put_head(
    canvas: &mut Canvas,
    title: &Label,
    notes: &Notes,
    programs: u64,
) -> Result<(), NoMemory> {
    canvas.text(160, 300, "t", title)?;
    let reading = Label::of(
        "Time runs to the right, in steps. A page in use is plain for its program alone: when the kernel looks at the frame, it finds ciphertext.",
    );
    canvas.text(160, 500, "dim", &reading)?;
    canvas.y = 590;
    let x = put_bars(canvas, notes)?;
    let x = put_glyphs(canvas, notes, x)?;
    put_programs(canvas, programs, x)?;
    canvas.down(150);
    Ok(())
}
