//! The columns at the front of a line.
ghost use Rattle.std.specs.Prelude.{◌≡◌, Some};
ghost use Rattle.kernel_report.specs.Putting.{PutsMore, putting};
ghost use Rattle.step_lines.specs.Columns as spec;

use crate::effects::{EffectsSoFar, put_pad};
use cloak_base::Mode;
use io_traits::Sink;
use kernel_report::lines::{SoFar, decimal, hexadecimal, text};
use word_text::word_text;

/// Digits that end in the column of this width.
fn put_digits<O: Sink>(out: &mut O, so_far: SoFar, width: usize, digits: &[u8]) -> SoFar
    ensures { PutsMore (putting O.Sink out.old so_far) (putting O.Sink out.new result)
        (spec.digits_column width digits.now) }
{
    let so_far = put_pad(out, so_far, width.saturating_sub(digits.len()));
    text(out, so_far, digits)
}

/// A number that ends in the column of this width.
fn put_number_column<O: Sink>(out: &mut O, so_far: SoFar, width: usize, n: u64) -> SoFar
    ensures { PutsMore (putting O.Sink out.old so_far) (putting O.Sink out.new result) (spec.number_column width n) }
{
    let mut digits = itoa::Buffer::new();
    put_digits(out, so_far, width, digits.format(n).as_bytes())
}

/// The hart, if one is meant.
fn put_hart_column<O: Sink>(out: &mut O, so_far: SoFar, hart: Option<usize>) -> SoFar
    ensures { PutsMore (putting O.Sink out.old so_far) (putting O.Sink out.new result) (spec.hart_column hart) }
{
    match hart {
        None => text(out, so_far, b"    "),
        Some(hart) => {
            let so_far = text(out, so_far, b" h");
            let so_far = decimal(out, so_far, hart as u64);
            text(out, so_far, b" ")
        }
    }
}

/// The step and the hart.
pub fn put_front<O: Sink>(out: &mut O, so_far: SoFar, step: u32, hart: Option<usize>) -> SoFar
    ensures { PutsMore (putting O.Sink out.old so_far) (putting O.Sink out.new result) (spec.front step hart) }
{
    let so_far = put_number_column(out, so_far, 9, step as u64);
    put_hart_column(out, so_far, hart)
}

/// The mode of a hart outside.
pub fn put_mode_column<O: Sink>(out: &mut O, so_far: SoFar, mode: Mode) -> SoFar
    ensures { PutsMore (putting O.Sink out.old so_far) (putting O.Sink out.new result) (spec.mode_column mode) }
{
    match mode {
        Mode::U => text(out, so_far, b"U     "),
        Mode::S => text(out, so_far, b"S     "),
    }
}

/// A word, and the instruction that it is at this address. Returns the blanks up to the next column, too.
fn put_word<O: Sink>(out: &mut O, so_far: SoFar, word: u32, at: u32) -> (SoFar, usize)
    ensures text { PutsMore (putting O.Sink out.old so_far) (putting O.Sink out.new result.0)
        (spec.word_columns (Some word) at) }
    ensures gap { result.1 ≡ spec.word_gap (Some word) at }
{
    let so_far = text(out, so_far, b"  ");
    let so_far = hexadecimal(out, so_far, word);
    let so_far = text(out, so_far, b"  ");
    let instruction = word_text(word, at);
    let gap = 27usize.saturating_sub(instruction.len()).max(1);
    (text(out, so_far, instruction.as_slice()), gap)
}

/// The word at an address and the instruction that it is, if a word is meant. What the step does follows.
pub fn put_word_columns<O: Sink>(
    out: &mut O,
    so_far: SoFar,
    word: Option<u32>,
    at: u32,
) -> EffectsSoFar
    ensures text { PutsMore (putting O.Sink out.old so_far) (putting O.Sink out.new result.so_far)
        (spec.word_columns word at) }
    ensures gap { result.gap ≡ spec.word_gap word at }
{
    match word {
        None => EffectsSoFar {
            so_far: text(out, so_far, b""),
            gap: 39,
        },
        Some(word) => {
            let (so_far, gap) = put_word(out, so_far, word, at);
            EffectsSoFar { so_far, gap }
        }
    }
}
