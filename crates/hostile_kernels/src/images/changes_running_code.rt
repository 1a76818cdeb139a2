//! A second hart changes the code of a program while it runs.
//!
//! There is no instruction cache in which the old code could live on, and the new code is not the program's: the next
//! fetch ends the program. Hart 0 then traps to address 0 again and again, as no handler is set.

use crate::draft::{Draft, Guest, StandingWords};
use cloak_base::Start;

/// The text of the kernel.
#[cfg(test)]
pub const KERNEL_TEXT: &str = r"
boot:
    bne   x10, x0, changer          # hart 1
    lui   x17, 0x4F560
    ecall                           # resume context 0
changer:
    lui   x7, 0x80008
    lw    x8, 0(x7)                 # the first word of the page, as ciphertext
    xori  x8, x8, 1
    sw    x8, 0(x7)
stay:
    jal   x0, stay
";

/// The words of the kernel.
pub const KERNEL: &[u32] = &[
    0x00051663, 0x4f5608b7, 0x00000073, 0x800083b7, 0x0003a403, 0x00144413, 0x0083a023, 0x0000006f,
];

/// The text of the program.
#[cfg(test)]
pub const PROGRAM_TEXT: &str = r"
# Counts, and never ends.
count:
    addi  x10, x10, 1
    jal   x0, count
";

/// Its words.
pub const PROGRAM: &[u32] = &[0x00150513, 0xffdff06f];

/// The image.
pub const IMAGE: Draft = Draft {
    frames: 64,
    harts: 2,
    schedule: &[0, 1],
    entry: 0x8000_0000,
    segments: &[StandingWords {
        address: 0x8000_0000,
        words: KERNEL,
    }],
    blocks: 0,
    programs: &[Guest {
        place: 8,
        start: Start {
            pages: 1,
            base: 0x8000_8000,
            entry: 0x8000_8000,
            sp: 0x8000_8100,
        },
        words: PROGRAM,
    }],
};
