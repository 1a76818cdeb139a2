//! A context is resumed that there never was.
//!
//! The program has one context, numbered 0, and ends as another of its contexts is asked for. The handler asks for one
//! of a second program, which there is not, and is refused each time.

use crate::draft::{Draft, Guest, StandingWords};
use crate::shared::CALLS;
use cloak_base::Start;

/// The text of the kernel.
#[cfg(test)]
pub const KERNEL_TEXT: &str = r"
boot:
    la    x6, handler
    csrrw x0, 0x105, x6             # stvec: each trap goes to the handler
    addi  x5, x0, 3
    lui   x17, 0x4F560
    ecall                           # resume context 3
handler:
    addi  x5, x0, 8
    lui   x17, 0x4F560
    ecall                           # resume context 8
";

/// The words of the kernel.
pub const KERNEL: &[u32] = &[
    0x00000317, 0x01830313, 0x10531073, 0x00300293, 0x4f5608b7, 0x00000073, 0x00800293, 0x4f5608b7,
    0x00000073,
];

/// The image.
pub const IMAGE: Draft = Draft {
    frames: 64,
    harts: 1,
    schedule: &[0],
    entry: 0x8000_0000,
    segments: &[StandingWords {
        address: 0x8000_0000,
        words: KERNEL,
    }],
    blocks: 0,
    programs: &[Guest {
        place: 8,
        start: Start {
            pages: 1,
            base: 0x8000_8000,
            entry: 0x8000_8000,
            sp: 0x8000_8100,
        },
        words: CALLS,
    }],
};
