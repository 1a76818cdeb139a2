//! A context is resumed that made EXIT.
//!
//! Its slot is free: there is no such context any more.

use crate::draft::{Draft, Guest, StandingWords};
use cloak_base::Start;

/// The text of the kernel.
#[cfg(test)]
pub const KERNEL_TEXT: &str = r"
boot:
    la    x6, handler
    csrrw x0, 0x105, x6             # stvec: each trap goes to the handler
    lui   x17, 0x4F560
    ecall                           # resume context 0
handler:
    lui   x17, 0x4F560
    ecall                           # resume context 0
";

/// The words of the kernel.
pub const KERNEL: &[u32] = &[
    0x00000317, 0x01430313, 0x10531073, 0x4f5608b7, 0x00000073, 0x4f5608b7, 0x00000073,
];

/// The text of the program.
#[cfg(test)]
pub const PROGRAM_TEXT: &str = r"
# Ends.
    lui   x17, 0x4F560
    addi  x17, x17, 7               # EXIT
    ecall
";

/// Its words.
pub const PROGRAM: &[u32] = &[0x4f5608b7, 0x00788893, 0x00000073];

/// The image.
pub const IMAGE: Draft = Draft {
    frames: 64,
    harts: 1,
    schedule: &[0],
    entry: 0x8000_0000,
    segments: &[StandingWords {
        address: 0x8000_0000,
        words: KERNEL,
    }],
    blocks: 0,
    programs: &[Guest {
        place: 8,
        start: Start {
            pages: 1,
            base: 0x8000_8000,
            entry: 0x8000_8000,
            sp: 0x8000_8100,
        },
        words: PROGRAM,
    }],
};
