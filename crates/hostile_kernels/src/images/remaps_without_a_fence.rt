//! The page table is changed under a context, without SFENCE.VMA.
//!
//! The program's addresses lead to other frames now, with zeros. Nothing is cached that would hide the change, and
//! zeros are not what was last shown of the page.

use crate::draft::{Draft, Guest, StandingWords};
use crate::shared::CALLS;
use cloak_base::Start;

/// The text of the kernel.
#[cfg(test)]
pub const KERNEL_TEXT: &str = r"
boot:
    la    x6, handler
    csrrw x0, 0x105, x6             # stvec: each trap goes to the handler
    lui   x6, 0x80080
    addi  x6, x6, 1025
    csrrw x0, 0x180, x6             # satp: paging on, the root table is frame 1025
    lui   x17, 0x4F560
    ecall                           # resume context 0
handler:
    lui   x6, 0x80402
    lui   x7, 0x20100
    addi  x7, x7, 223
    sw    x7, -2048(x6)             # root entry 512: 0x80000000 leads to frame 1024 on
    lui   x17, 0x4F560
    ecall                           # resume context 0
";

/// The words of the kernel.
pub const KERNEL: &[u32] = &[
    0x00000317, 0x02030313, 0x10531073, 0x80080337, 0x40130313, 0x18031073, 0x4f5608b7, 0x00000073,
    0x80402337, 0x201003b7, 0x0df38393, 0x80732023, 0x4f5608b7, 0x00000073,
];

/// The root table from its entry 512 on: a leaf that gives the program frames 0 to 1023 at 0x80000000, a leaf that
/// gives the kernel its own 4 MiB at 0x80400000, and none.
pub const ROOT: &[u32] = &[0x200000df, 0x201000cf, 0x00000000];

/// The image.
pub const IMAGE: Draft = Draft {
    frames: 2048,
    harts: 1,
    schedule: &[0],
    entry: 0x8040_0000,
    segments: &[
        StandingWords {
            address: 0x8040_0000,
            words: KERNEL,
        },
        StandingWords {
            address: 0x8040_1800,
            words: ROOT,
        },
    ],
    blocks: 0,
    programs: &[Guest {
        place: 8,
        start: Start {
            pages: 1,
            base: 0x8000_8000,
            entry: 0x8000_8000,
            sp: 0x8000_8100,
        },
        words: CALLS,
    }],
};
