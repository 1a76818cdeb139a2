//! A second hart reads a page while its program runs.
//!
//! No rule is broken, and nothing is gained: each load finds the ciphertext. The program halts the machine with its
//! 7, and hart 1 holds a word of the ciphertext.

use crate::draft::{Draft, Guest, StandingWords};
use crate::shared::CALLS;
use cloak_base::Start;

/// The text of the kernel.
#[cfg(test)]
pub const KERNEL_TEXT: &str = r"
boot:
    bne   x10, x0, reader           # hart 1
    la    x6, handler
    csrrw x0, 0x105, x6             # stvec of hart 0
    lui   x17, 0x4F560
    ecall                           # resume context 0
handler:
    addi  x17, x0, 4
    ecall                           # HALT with what the program gave in x10
reader:
    lui   x7, 0x80008
again:
    lw    x8, 256(x7)               # where the program stores its 7
    jal   x0, again
";

/// The words of the kernel.
pub const KERNEL: &[u32] = &[
    0x02051063, 0x00000317, 0x01430313, 0x10531073, 0x4f5608b7, 0x00000073, 0x00400893, 0x00000073,
    0x800083b7, 0x1003a403, 0xffdff06f,
];

/// The image.
pub const IMAGE: Draft = Draft {
    frames: 64,
    harts: 2,
    schedule: &[0, 1],
    entry: 0x8000_0000,
    segments: &[StandingWords {
        address: 0x8000_0000,
        words: KERNEL,
    }],
    blocks: 0,
    programs: &[Guest {
        place: 8,
        start: Start {
            pages: 1,
            base: 0x8000_8000,
            entry: 0x8000_8000,
            sp: 0x8000_8100,
        },
        words: CALLS,
    }],
};
