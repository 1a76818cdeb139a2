//! One bit of a cloaked page is flipped in RAM.
//!
//! The page is ciphertext there. Its bytes are no longer those that were last shown, so the next fetch from it ends
//! the program. The kernel resumes again, and each time it is refused.

use crate::draft::{Draft, Guest, StandingWords};
use crate::shared::CALLS;
use cloak_base::Start;

/// The text of the kernel.
#[cfg(test)]
pub const KERNEL_TEXT: &str = r"
boot:
    la    x6, handler
    csrrw x0, 0x105, x6             # stvec: each trap goes to the handler
    lui   x17, 0x4F560
    ecall                           # resume context 0
handler:
    auipc x6, 8                     # an address in frame 8, where the page is
    lw    x7, 0(x6)                 # the page is enciphered first: it was stored to
    xori  x7, x7, 1
    sw    x7, 0(x6)
    lui   x17, 0x4F560
    ecall                           # resume context 0
";

/// The words of the kernel.
pub const KERNEL: &[u32] = &[
    0x00000317, 0x01430313, 0x10531073, 0x4f5608b7, 0x00000073, 0x00008317, 0x00032383, 0x0013c393,
    0x00732023, 0x4f5608b7, 0x00000073,
];

/// The image.
pub const IMAGE: Draft = Draft {
    frames: 64,
    harts: 1,
    schedule: &[0],
    entry: 0x8000_0000,
    segments: &[StandingWords {
        address: 0x8000_0000,
        words: KERNEL,
    }],
    blocks: 0,
    programs: &[Guest {
        place: 8,
        start: Start {
            pages: 1,
            base: 0x8000_8000,
            entry: 0x8000_8000,
            sp: 0x8000_8100,
        },
        words: CALLS,
    }],
};
