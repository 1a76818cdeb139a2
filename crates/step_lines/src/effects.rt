//! The texts of what a step does, one after another.
ghost use Rattle.std.specs.Prelude.{◌≡◌, [], ◌∷◌, length, codes};
ghost use Rattle.kernel_report.specs.Putting.{PutsMore, putting};
ghost use Rattle.step_lines.specs.Effects.{PutsEffects, blanks, gap_text, pad};

use io_traits::Sink;
use kernel_report::lines::{SoFar, text};

/// What was put of a line so far, and the gap before the next text: so many blanks, or a semicolon if there are none.
#[derive(Clone, Copy)]
pub struct EffectsSoFar {
    pub so_far: SoFar,
    pub gap: usize,
}

/// 40 blanks.
fn blanks() -> &'static [u8]
    ensures value { result.now ≡ blanks }
    ensures count { length result.now ≡ 40 }
{
    b"                                        "
}

/// So many blanks, at most 40.
pub fn put_pad<O: Sink>(out: &mut O, so_far: SoFar, count: usize) -> SoFar
    ensures { PutsMore (putting O.Sink out.old so_far) (putting O.Sink out.new result) (pad count) }
{
    let from = 40usize.saturating_sub(count);
    text(out, so_far, &blanks()[from..])
}

/// What stands before the next text.
pub fn put_gap<O: Sink>(out: &mut O, at: EffectsSoFar) -> SoFar
    ensures { PutsMore (putting O.Sink out.old at.so_far) (putting O.Sink out.new result) (gap_text at.gap) }
{
    if at.gap == 0 {
        text(out, at.so_far, b"; ")
    } else {
        put_pad(out, at.so_far, at.gap)
    }
}
