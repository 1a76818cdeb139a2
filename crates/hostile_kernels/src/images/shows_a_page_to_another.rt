//! A program is shown the page of another one.
//!
//! Both programs have the same bytes at the same address, and one page table serves both. The second one is led to
//! the first one's page. It is another page, with a ciphertext of its own.

use crate::draft::{Draft, Guest, StandingWords};
use crate::shared::{CALLS, KERNEL_LEAF, POINTER};
use cloak_base::Start;

/// The text of the kernel.
#[cfg(test)]
pub const KERNEL_TEXT: &str = r"
boot:
    la    x6, handler
    csrrw x0, 0x105, x6             # stvec: each trap goes to the handler
    lui   x6, 0x80080
    addi  x6, x6, 1
    csrrw x0, 0x180, x6             # satp: paging on, the root table is frame 1
    lui   x17, 0x4F560
    ecall                           # resume context 0
handler:
    addi  x5, x0, 8
    lui   x17, 0x4F560
    ecall                           # resume context 8, of program 1, under the table of program 0
";

/// The words of the kernel.
pub const KERNEL: &[u32] = &[
    0x00000317, 0x02030313, 0x10531073, 0x80080337, 0x00130313, 0x18031073, 0x4f5608b7, 0x00000073,
    0x00800293, 0x4f5608b7, 0x00000073,
];

/// The table of level 0: page 0x00400000 is frame 8.
pub const TABLE: &[u32] = &[0x200020df];

/// The image.
pub const IMAGE: Draft = Draft {
    frames: 64,
    harts: 1,
    schedule: &[0],
    entry: 0x8000_0000,
    segments: &[
        StandingWords {
            address: 0x8000_0000,
            words: KERNEL,
        },
        StandingWords {
            address: 0x8000_1004,
            words: POINTER,
        },
        StandingWords {
            address: 0x8000_1800,
            words: KERNEL_LEAF,
        },
        StandingWords {
            address: 0x8000_2000,
            words: TABLE,
        },
    ],
    blocks: 0,
    programs: &[
        Guest {
            place: 8,
            start: Start {
                pages: 1,
                base: 0x0040_0000,
                entry: 0x0040_0000,
                sp: 0x0040_0100,
            },
            words: CALLS,
        },
        Guest {
            place: 9,
            start: Start {
                pages: 1,
                base: 0x0040_0000,
                entry: 0x0040_0000,
                sp: 0x0040_0100,
            },
            words: CALLS,
        },
    ],
};
