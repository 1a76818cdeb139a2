//! The kernel's lines of the report: console, memory, disk and harts.
ghost use Rattle.std.specs.Prelude.{decimal};
ghost use Rattle.cloak_model.specs.Report as spec;
ghost use Rattle.kernel_report.specs.KernelText.{digest_text, console_text, kernel_text};
ghost use Rattle.kernel_report.specs.Putting.{PutsMore, putting};

use crate::lines::{SoFar, decimal, digest, hexadecimal, text};
use cloak_base::Mode;
use host_calls::Hart;
use io_traits::Sink;

/// What the report says of console, memory, disk and harts.
#[derive(Drop)]
pub struct KernelLines {
    pub console_length: u64,
    pub console: [u8; 32],
    pub ram: [u8; 32],
    pub disk: [u8; 32],
    pub harts: Vec<Hart>,
}

/// A line of a name and a digest.
fn put_digest<O: Sink>(out: &mut O, so_far: SoFar, name: &[u8], bytes: &[u8; 32]) -> SoFar
    ensures { PutsMore (putting O.Sink out.old so_far) (putting O.Sink out.new result)
        (digest_text name.now bytes.now) }
{
    let so_far = text(out, so_far, name);
    let so_far = digest(out, so_far, bytes);
    text(out, so_far, b"\n")
}

/// Each word after a space.
fn put_words<O: Sink>(out: &mut O, so_far: SoFar, words: &[u32]) -> SoFar
    ensures { PutsMore (putting O.Sink out.old so_far) (putting O.Sink out.new result) (spec.words_text words.now) }
{
    let mut so_far = so_far;
    for word in words {
        so_far = text(out, so_far, b" ");
        so_far = hexadecimal(out, so_far, *word);
    }
    so_far
}

/// A line of a name and words.
fn put_words_line<O: Sink>(out: &mut O, so_far: SoFar, name: &[u8], words: &[u32]) -> SoFar
    ensures { PutsMore (putting O.Sink out.old so_far) (putting O.Sink out.new result)
        (spec.words_line name.now words.now) }
{
    let so_far = text(out, so_far, name);
    let so_far = put_words(out, so_far, words);
    text(out, so_far, b"\n")
}

/// The letter of a mode.
fn put_mode<O: Sink>(out: &mut O, so_far: SoFar, mode: Mode) -> SoFar
    ensures { PutsMore (putting O.Sink out.old so_far) (putting O.Sink out.new result) (spec.mode_text mode) }
{
    match mode {
        Mode::U => text(out, so_far, b"U"),
        Mode::S => text(out, so_far, b"S"),
    }
}

/// The number of the context that a hart runs, or a hyphen.
fn put_inside<O: Sink>(out: &mut O, so_far: SoFar, inside: Option<u32>) -> SoFar
    ensures { PutsMore (putting O.Sink out.old so_far) (putting O.Sink out.new result) (spec.inside_text inside) }
{
    match inside {
        None => text(out, so_far, b"-"),
        Some(ctx) => decimal(out, so_far, ctx as u64),
    }
}

/// A hart's number, mode, program counter, context and timer.
fn put_hart_line<O: Sink>(out: &mut O, so_far: SoFar, number: u64, hart: &Hart) -> SoFar
    ensures { PutsMore (putting O.Sink out.old so_far) (putting O.Sink out.new result)
        (spec.hart_line number hart.now) }
{
    let so_far = text(out, so_far, b"hart ");
    let so_far = decimal(out, so_far, number);
    let so_far = text(out, so_far, b" ");
    let so_far = put_mode(out, so_far, hart.mode);
    let so_far = text(out, so_far, b" pc ");
    let so_far = hexadecimal(out, so_far, hart.pc);
    let so_far = text(out, so_far, b" inside ");
    let so_far = put_inside(out, so_far, hart.inside);
    let so_far = text(out, so_far, b" timer ");
    let so_far = decimal(out, so_far, hart.timer as u64);
    text(out, so_far, b"\n")
}

/// A hart's line, its registers and its CSRs.
fn put_hart<O: Sink>(out: &mut O, so_far: SoFar, number: u64, hart: &Hart) -> SoFar
    ensures { PutsMore (putting O.Sink out.old so_far) (putting O.Sink out.new result)
        (spec.hart_lines number hart.now) }
{
    let so_far = put_hart_line(out, so_far, number, hart);
    let so_far = put_words_line(out, so_far, b"regs", &hart.regs.words()[1..]);
    put_words_line(out, so_far, b"csrs", &hart.csrs.words())
}

/// The lines of all harts.
fn put_harts<O: Sink>(out: &mut O, so_far: SoFar, harts: &[Hart]) -> SoFar
    ensures { PutsMore (putting O.Sink out.old so_far) (putting O.Sink out.new result) (spec.harts_lines 0 harts.now) }
{
    let mut so_far = so_far;
    for (number, hart) in harts.iter().enumerate() {
        so_far = put_hart(out, so_far, number as u64, hart);
    }
    so_far
}

/// The console's line.
fn put_console<O: Sink>(out: &mut O, so_far: SoFar, lines: &KernelLines) -> SoFar
    ensures { PutsMore (putting O.Sink out.old so_far) (putting O.Sink out.new result) (console_text lines.now) }
{
    let so_far = text(out, so_far, b"console ");
    let so_far = decimal(out, so_far, lines.console_length);
    put_digest(out, so_far, b" ", &lines.console)
}

/// The lines of console, memory, disk and harts.
pub fn put_kernel<O: Sink>(out: &mut O, so_far: SoFar, lines: &KernelLines) -> SoFar
    ensures { PutsMore (putting O.Sink out.old so_far) (putting O.Sink out.new result) (kernel_text lines.now) }
{
    let so_far = put_console(out, so_far, lines);
    let so_far = put_digest(out, so_far, b"ram ", &lines.ram);
    let so_far = put_digest(out, so_far, b"disk ", &lines.disk);
    put_harts(out, so_far, lines.harts.as_slice())
}
