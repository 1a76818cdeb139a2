//! A forked child is resumed over the frame of its parent.
//!
//! The fork shows the parent's page once more, and these bytes are the child's page too. After the fork the parent
//! stores to its page. So its frame has the wrong bytes for the child, whose page is gone: the kernel would have had
//! to copy the frame before.

use crate::draft::{Draft, Guest, StandingWords};
use cloak_base::Start;

/// The text of the kernel.
#[cfg(test)]
pub const KERNEL_TEXT: &str = r"
boot:
    la    x6, handler
    csrrw x0, 0x105, x6             # stvec: each trap goes to the handler
    lui   x17, 0x4F560
    ecall                           # resume context 0
handler:
    addi  x5, x0, 1
    lui   x17, 0x4F560
    ecall                           # resume context 1, the child
";

/// The words of the kernel.
pub const KERNEL: &[u32] = &[
    0x00000317, 0x01430313, 0x10531073, 0x4f5608b7, 0x00000073, 0x00100293, 0x4f5608b7, 0x00000073,
];

/// The text of the program.
#[cfg(test)]
pub const PROGRAM_TEXT: &str = r"
# Stores 7, forks, stores 8 in the parent, and calls number 0 of the kernel.
    addi  x10, x0, 7
    sw    x10, 0(x2)
    lui   x17, 0x4F560
    addi  x17, x17, 6               # FORK
    ecall
    addi  x10, x0, 8
    sw    x10, 0(x2)
    addi  x17, x17, 2               # CALL
    ecall
";

/// Its words.
pub const PROGRAM: &[u32] = &[
    0x00700513, 0x00a12023, 0x4f5608b7, 0x00688893, 0x00000073, 0x00800513, 0x00a12023, 0x00288893,
    0x00000073,
];

/// The image.
pub const IMAGE: Draft = Draft {
    frames: 64,
    harts: 1,
    schedule: &[0],
    entry: 0x8000_0000,
    segments: &[StandingWords {
        address: 0x8000_0000,
        words: KERNEL,
    }],
    blocks: 0,
    programs: &[Guest {
        place: 8,
        start: Start {
            pages: 1,
            base: 0x8000_8000,
            entry: 0x8000_8000,
            sp: 0x8000_8100,
        },
        words: PROGRAM,
    }],
};
