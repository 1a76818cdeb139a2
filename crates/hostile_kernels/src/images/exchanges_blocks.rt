//! The pages of two programs are exchanged on the disk.
//!
//! Both pages have the same bytes. Their ciphertexts differ, and neither is the other's.

use crate::draft::{Draft, Guest, StandingWords};
use crate::shared::CALLS;
use cloak_base::Start;

/// The text of the kernel.
#[cfg(test)]
pub const KERNEL_TEXT: &str = r"
boot:
    addi  x17, x0, 3
    lui   x11, 0x80008
    ecall                           # WRITE: frame 8, of program 0, to block 0. The answer in x10 is 0
    addi  x10, x0, 1
    lui   x11, 0x80009
    ecall                           # WRITE: frame 9, of program 1, to block 1
    addi  x17, x0, 2
    addi  x10, x0, 1
    lui   x11, 0x80008
    ecall                           # READ: block 1 to frame 8. The answer in x10 is 0
    lui   x11, 0x80009
    ecall                           # READ: block 0 to frame 9
    lui   x17, 0x4F560
    ecall                           # resume context 0
";

/// The words of the kernel.
pub const KERNEL: &[u32] = &[
    0x00300893, 0x800085b7, 0x00000073, 0x00100513, 0x800095b7, 0x00000073, 0x00200893, 0x00100513,
    0x800085b7, 0x00000073, 0x800095b7, 0x00000073, 0x4f5608b7, 0x00000073,
];

/// The image.
pub const IMAGE: Draft = Draft {
    frames: 64,
    harts: 1,
    schedule: &[0],
    entry: 0x8000_0000,
    segments: &[StandingWords {
        address: 0x8000_0000,
        words: KERNEL,
    }],
    blocks: 2,
    programs: &[
        Guest {
            place: 8,
            start: Start {
                pages: 1,
                base: 0x8000_8000,
                entry: 0x8000_8000,
                sp: 0x8000_8100,
            },
            words: CALLS,
        },
        Guest {
            place: 9,
            start: Start {
                pages: 1,
                base: 0x8000_9000,
                entry: 0x8000_9000,
                sp: 0x8000_9100,
            },
            words: CALLS,
        },
    ],
};
