//! The row of the console.
ghost use Rattle.std.specs.Prelude.{◌≡◌};
ghost use Rattle.run_picture.specs.Places.{byte_place, last_place};

use crate::canvas::{Canvas, LEFT, RIGHT, put_section};
use crate::names::{put_steps, sign_of_byte};
use cloak_base::NoMemory;
use run_notes::{Notes, PrintedByte};
use svg_text::Label;

/// How wide a sign of the console is.
const SIGN: u64 = 80;

/// Bytes that stand side by side.
#[derive(Clone, Copy)]
struct Group {
    x: u64,
    first: u32,
    last: u32,
    signs: Label,
}

/// The place of a byte, of which and after which so many are left: no further right than where all these fit.
fn last_place_of(left: u64) -> u64
    ensures { result ≡ last_place left }
{
    RIGHT.saturating_sub(left.saturating_mul(SIGN))
}

/// The place of a byte that was printed here, where the one before ends there, and so many are left with it: right after the
/// one before, if less than a sign would be between them.
fn place_of(at: u64, free: u64, left: u64) -> u64
    ensures { result ≡ byte_place at free left }
{
    let place = at.min(last_place_of(left));
    if place < free.saturating_add(SIGN) {
        free
    } else {
        place
    }
}

/// Puts a group of bytes.
fn put_group(canvas: &mut Canvas, group: &Group) -> Result<(), NoMemory> {
    if group.signs.is_empty() {
        return Ok(());
    }
    let mut title = Label::new();
    put_steps(&mut title, group.first.saturating_sub(1), group.last);
    title.text(": ");
    title.label(&group.signs);
    let y = canvas.y.saturating_add(150);
    canvas.titled_text(group.x, y, "mono", &group.signs, &title)
}

/// No bytes yet.
fn no_group(x: u64, step: u32) -> Group {
    Group {
        x,
        first: step,
        last: step,
        signs: Label::new(),
    }
}

/// The bytes of the console, each at its step, or right of those before it.
fn put_bytes(canvas: &mut Canvas, bytes: &[PrintedByte]) -> Result<(), NoMemory> {
    let mut group = no_group(0, 0);
    let mut free = 0;
    let mut left = bytes.len() as u64;
    for printed in bytes {
        let at = canvas.middle(printed.step).saturating_sub(SIGN / 2);
        let x = place_of(at, free, left);
        if x != free {
            put_group(canvas, &group)?;
            group = no_group(x, printed.step);
        }
        group.signs.sign(sign_of_byte(printed.byte));
        group.last = printed.step;
        free = x.saturating_add(SIGN);
        left = u64::saturating_sub(left, 1);
    }
    put_group(canvas, &group)
}

/// Strokes where bytes were printed, and the last of them as text.
fn put_strokes(canvas: &mut Canvas, notes: &Notes) -> Result<(), NoMemory> {
    let y = canvas.y.saturating_add(100);
    for mark in notes.printed.marks.made() {
        let x = canvas.x(mark.first.saturating_sub(1));
        let width = canvas.x(mark.last).saturating_sub(x).max(10);
        let mut rest = Label::of("h");
        rest.tenths(width);
        let mut title = Label::new();
        put_steps(&mut title, mark.first.saturating_sub(1), mark.last);
        title.text(": ");
        title.number(u64::from(mark.count));
        title.text(" bytes");
        canvas.path(x, y, &rest, &Label::of("ln hb"), &title)?;
    }
    let count = notes.printed.count;
    let first = count.saturating_sub(100);
    let mut label = Label::new();
    if first > 0 {
        label.sign(0x2026);
    }
    for number in first..count {
        label.sign(sign_of_byte(notes.printed.byte(number)));
    }
    canvas.text(LEFT, canvas.y.saturating_add(300), "mono sm", &label)?;
    canvas.down(180);
    Ok(())
}

/// The row of the console.
pub fn put_console(canvas: &mut Canvas, notes: &Notes) -> Result<(), NoMemory> {
    put_section(canvas, "Console", "what the kernel prints")?;
    canvas.down(40);
    let count = notes.printed.count;
    let mut head = Label::new();
    head.number(count);
    head.text(if count == 1 { " byte" } else { " bytes" });
    canvas.text(1420, canvas.y.saturating_add(150), "end", &head)?;
    match notes.printed.all() {
        Some(bytes) => put_bytes(canvas, bytes)?,
        None => put_strokes(canvas, notes)?,
    }
    canvas.down(260);
    Ok(())
}
