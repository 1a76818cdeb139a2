//! A page goes through the disk and comes back unchanged.
//!
//! No attack: what every kernel that swaps must do. The program goes on as if nothing had happened.

use crate::draft::{Draft, Guest, StandingWords};
use cloak_base::Start;

/// The text of the kernel.
#[cfg(test)]
pub const KERNEL_TEXT: &str = r"
boot:
    la    x6, handler
    csrrw x0, 0x105, x6             # stvec: each trap goes to the handler
    lui   x17, 0x4F560
    ecall                           # resume context 0
handler:
    la    x6, halt
    csrrw x0, 0x105, x6             # stvec: the next trap goes to halt
    addi  x10, x0, 0                # block 0
    lui   x11, 0x80008              # frame 8
    addi  x17, x0, 3
    ecall                           # WRITE: the page is enciphered, and goes to the disk
    addi  x17, x0, 2
    ecall                           # READ: and comes back (x10 is 0, the answer of WRITE)
    lui   x17, 0x4F560
    ecall                           # resume context 0
halt:
    addi  x17, x0, 4
    ecall                           # HALT with what the program gave in x10
";

/// The words of the kernel.
pub const KERNEL: &[u32] = &[
    0x00000317, 0x01430313, 0x10531073, 0x4f5608b7, 0x00000073, 0x00000317, 0x02c30313, 0x10531073,
    0x00000513, 0x800085b7, 0x00300893, 0x00000073, 0x00200893, 0x00000073, 0x4f5608b7, 0x00000073,
    0x00400893, 0x00000073,
];

/// The text of the program.
#[cfg(test)]
pub const PROGRAM_TEXT: &str = r"
# Stores 7, loads it back, and calls number 9 of the kernel; then loads it again, and calls again.
    addi  x10, x0, 7
    sw    x10, 0(x2)
    lw    x11, 0(x2)
    addi  x16, x0, 9                # the call's number
    lui   x17, 0x4F560
    addi  x17, x17, 8               # CALL
    ecall
    lw    x10, 0(x2)
    ecall
";

/// Its words.
pub const PROGRAM: &[u32] = &[
    0x00700513, 0x00a12023, 0x00012583, 0x00900813, 0x4f5608b7, 0x00888893, 0x00000073, 0x00012503,
    0x00000073,
];

/// The image.
pub const IMAGE: Draft = Draft {
    frames: 64,
    harts: 1,
    schedule: &[0],
    entry: 0x8000_0000,
    segments: &[StandingWords {
        address: 0x8000_0000,
        words: KERNEL,
    }],
    blocks: 1,
    programs: &[Guest {
        place: 8,
        start: Start {
            pages: 1,
            base: 0x8000_8000,
            entry: 0x8000_8000,
            sp: 0x8000_8100,
        },
        words: PROGRAM,
    }],
};
