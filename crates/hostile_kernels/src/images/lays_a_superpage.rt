//! A superpage is laid over all frames, and a second program reads through it.
//!
//! Program 1 works for the kernel: at an address that is not cloaked for it, it loads what program 0 has stored. One
//! table entry covers both. What it gets is ciphertext, as the kernel itself would.

use crate::draft::{Draft, Guest, StandingWords};
use crate::shared::{CALLS, KERNEL_LEAF};
use cloak_base::Start;

/// The text of the kernel.
#[cfg(test)]
pub const KERNEL_TEXT: &str = r"
boot:
    la    x6, handler
    csrrw x0, 0x105, x6             # stvec: each trap goes to the handler
    lui   x6, 0x80080
    addi  x6, x6, 1
    csrrw x0, 0x180, x6             # satp: paging on, the root table is frame 1
    lui   x17, 0x4F560
    ecall                           # resume context 0
handler:
    la    x6, halt
    csrrw x0, 0x105, x6             # stvec: the next trap goes to halt
    addi  x5, x0, 8
    lui   x17, 0x4F560
    ecall                           # resume context 8, of program 1
halt:
    addi  x17, x0, 4
    ecall                           # HALT with what program 1 gave in x10
";

/// The words of the kernel.
pub const KERNEL: &[u32] = &[
    0x00000317, 0x02030313, 0x10531073, 0x80080337, 0x00130313, 0x18031073, 0x4f5608b7, 0x00000073,
    0x00000317, 0x01830313, 0x10531073, 0x00800293, 0x4f5608b7, 0x00000073, 0x00400893, 0x00000073,
];

/// The text of program 1.
#[cfg(test)]
pub const READER_TEXT: &str = r"
# Loads a word of program 0, and calls number 9 of the kernel with it.
    lui   x6, 0x408
    lw    x10, 256(x6)              # where program 0 stores its 7
    addi  x16, x0, 9
    lui   x17, 0x4F560
    addi  x17, x17, 8               # CALL
    ecall
";

/// Its words.
pub const READER: &[u32] = &[
    0x00408337, 0x10032503, 0x00900813, 0x4f5608b7, 0x00888893, 0x00000073,
];

/// Entry 1 of the root table: a leaf that gives both programs all of RAM at 0x00400000.
pub const SUPERPAGE: &[u32] = &[0x200000df];

/// The image.
pub const IMAGE: Draft = Draft {
    frames: 64,
    harts: 1,
    schedule: &[0],
    entry: 0x8000_0000,
    segments: &[
        StandingWords {
            address: 0x8000_0000,
            words: KERNEL,
        },
        StandingWords {
            address: 0x8000_1004,
            words: SUPERPAGE,
        },
        StandingWords {
            address: 0x8000_1800,
            words: KERNEL_LEAF,
        },
    ],
    blocks: 0,
    programs: &[
        Guest {
            place: 8,
            start: Start {
                pages: 1,
                base: 0x0040_8000,
                entry: 0x0040_8000,
                sp: 0x0040_8100,
            },
            words: CALLS,
        },
        Guest {
            place: 9,
            start: Start {
                pages: 1,
                base: 0x0040_9000,
                entry: 0x0040_9000,
                sp: 0x0040_9100,
            },
            words: READER,
        },
    ],
};
