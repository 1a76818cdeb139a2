//! READ is answered with more bytes than were asked for.
//!
//! An answer above the length copies nothing, so no byte after the buffer is written. The program gets the answer,
//! and its buffer keeps what it had. What it makes of such an answer is its own affair.

use crate::draft::{Draft, Guest, StandingWords};
use cloak_base::Start;

/// The text of the kernel.
#[cfg(test)]
pub const KERNEL_TEXT: &str = r"
boot:
    la    x6, handler
    csrrw x0, 0x105, x6             # stvec: each trap goes to the handler
    lui   x17, 0x4F560
    ecall                           # resume context 0
handler:
    la    x6, halt
    csrrw x0, 0x105, x6             # stvec: the next trap goes to halt
    addi  x10, x0, 8                # eight bytes, where four were asked for
    lui   x17, 0x4F560
    ecall                           # resume context 0 with this answer
halt:
    addi  x17, x0, 4
    ecall                           # HALT with what the program gave in x10
";

/// The words of the kernel.
pub const KERNEL: &[u32] = &[
    0x00000317, 0x01430313, 0x10531073, 0x4f5608b7, 0x00000073, 0x00000317, 0x01830313, 0x10531073,
    0x00800513, 0x4f5608b7, 0x00000073, 0x00400893, 0x00000073,
];

/// The text of the program.
#[cfg(test)]
pub const PROGRAM_TEXT: &str = r"
# Stores 7 in a buffer of four bytes, reads to it, and calls number 9 of the kernel with the answer and the buffer.
    addi  x10, x0, 7
    sw    x10, 0(x2)
    addi  x11, x2, 0                # to this buffer,
    addi  x12, x0, 4                # four bytes,
    lui   x13, 0x80009              # through this area, which is not cloaked:
    addi  x16, x0, 3                # READ
    lui   x17, 0x4F560
    addi  x17, x17, 8               # CALL
    ecall
    lw    x11, 0(x2)
    addi  x16, x0, 9
    ecall
";

/// Its words.
pub const PROGRAM: &[u32] = &[
    0x00700513, 0x00a12023, 0x00010593, 0x00400613, 0x800096b7, 0x00300813, 0x4f5608b7, 0x00888893,
    0x00000073, 0x00012583, 0x00900813, 0x00000073,
];

/// What stands in the area, in frame 9.
pub const AREA: &[u32] = &[0x11111111, 0x11111111];

/// The image.
pub const IMAGE: Draft = Draft {
    frames: 64,
    harts: 1,
    schedule: &[0],
    entry: 0x8000_0000,
    segments: &[
        StandingWords {
            address: 0x8000_0000,
            words: KERNEL,
        },
        StandingWords {
            address: 0x8000_9000,
            words: AREA,
        },
    ],
    blocks: 0,
    programs: &[Guest {
        place: 8,
        start: Start {
            pages: 1,
            base: 0x8000_8000,
            entry: 0x8000_8000,
            sp: 0x8000_8100,
        },
        words: PROGRAM,
    }],
};
