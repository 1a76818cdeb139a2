//! An older ciphertext of a page is put in its place.
//!
//! The kernel keeps the page on the disk before the program runs, and reads it back after the program stored to it.
//! The old bytes were shown once, but they are not those that were shown last.

use crate::draft::{Draft, Guest, StandingWords};
use crate::shared::CALLS;
use cloak_base::Start;

/// The text of the kernel.
#[cfg(test)]
pub const KERNEL_TEXT: &str = r"
boot:
    la    x6, handler
    csrrw x0, 0x105, x6             # stvec: each trap goes to the handler
    addi  x10, x0, 0                # block 0
    lui   x11, 0x80008              # frame 8
    addi  x17, x0, 3
    ecall                           # WRITE: the page as it is now goes to the disk
    lui   x17, 0x4F560
    ecall                           # resume context 0
handler:
    addi  x10, x0, 0
    lui   x11, 0x80008
    addi  x17, x0, 2
    ecall                           # READ: it comes back, without the program's store
    lui   x17, 0x4F560
    ecall                           # resume context 0
";

/// The words of the kernel.
pub const KERNEL: &[u32] = &[
    0x00000317, 0x02430313, 0x10531073, 0x00000513, 0x800085b7, 0x00300893, 0x00000073, 0x4f5608b7,
    0x00000073, 0x00000513, 0x800085b7, 0x00200893, 0x00000073, 0x4f5608b7, 0x00000073,
];

/// The image.
pub const IMAGE: Draft = Draft {
    frames: 64,
    harts: 1,
    schedule: &[0],
    entry: 0x8000_0000,
    segments: &[StandingWords {
        address: 0x8000_0000,
        words: KERNEL,
    }],
    blocks: 1,
    programs: &[Guest {
        place: 8,
        start: Start {
            pages: 1,
            base: 0x8000_8000,
            entry: 0x8000_8000,
            sp: 0x8000_8100,
        },
        words: CALLS,
    }],
};
