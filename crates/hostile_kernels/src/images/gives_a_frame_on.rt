//! The frame of a program that ended is read, and given to another one.
//!
//! The page is enciphered before it is dropped, so the kernel finds ciphertext. The next program gets the frame for a
//! new page, and finds zeros: not what the first one left.

use crate::draft::{Draft, Guest, StandingWords};
use cloak_base::Start;

/// The text of the kernel.
#[cfg(test)]
pub const KERNEL_TEXT: &str = r"
boot:
    la    x6, handler
    csrrw x0, 0x105, x6             # stvec: each trap goes to the handler
    lui   x17, 0x4F560
    ecall                           # resume context 0
handler:
    la    x6, halt
    csrrw x0, 0x105, x6             # stvec: the next trap goes to halt
    lui   x7, 0x80008
    lw    x9, 256(x7)               # where program 0 stored its 7
    csrrw x0, 0x140, x9             # sscratch keeps what was there
    addi  x5, x0, 8
    lui   x17, 0x4F560
    ecall                           # resume context 8, of program 1
halt:
    addi  x17, x0, 4
    ecall                           # HALT with what program 1 gave in x10
";

/// The words of the kernel.
pub const KERNEL: &[u32] = &[
    0x00000317, 0x01430313, 0x10531073, 0x4f5608b7, 0x00000073, 0x00000317, 0x02430313, 0x10531073,
    0x800083b7, 0x1003a483, 0x14049073, 0x00800293, 0x4f5608b7, 0x00000073, 0x00400893, 0x00000073,
];

/// The text of program 0.
#[cfg(test)]
pub const LEAVER_TEXT: &str = r"
# Stores 7, and ends.
    addi  x10, x0, 7
    sw    x10, 0(x2)
    lui   x17, 0x4F560
    addi  x17, x17, 7               # EXIT
    ecall
";

/// Its words.
pub const LEAVER: &[u32] = &[0x00700513, 0x00a12023, 0x4f5608b7, 0x00788893, 0x00000073];

/// The text of program 1.
#[cfg(test)]
pub const HEIR_TEXT: &str = r"
# Makes a page in the frame of program 0, loads from it, and calls number 9 of the kernel with what is there.
    addi  x10, x0, 1                # one page
    lui   x17, 0x4F560
    addi  x17, x17, 1               # NEW: the answer is the resource's number, 1
    ecall
    addi  x17, x17, 1               # MAP of resource x10
    lui   x11, 0x80008              # at this address, which is frame 8,
    addi  x13, x0, 1                # one page
    ecall
    lw    x10, 256(x11)             # where program 0 stored its 7
    addi  x16, x0, 9
    addi  x17, x17, 6               # CALL
    ecall
";

/// Its words.
pub const HEIR: &[u32] = &[
    0x00100513, 0x4f5608b7, 0x00188893, 0x00000073, 0x00188893, 0x800085b7, 0x00100693, 0x00000073,
    0x1005a503, 0x00900813, 0x00688893, 0x00000073,
];

/// The image.
pub const IMAGE: Draft = Draft {
    frames: 64,
    harts: 1,
    schedule: &[0],
    entry: 0x8000_0000,
    segments: &[StandingWords {
        address: 0x8000_0000,
        words: KERNEL,
    }],
    blocks: 0,
    programs: &[
        Guest {
            place: 8,
            start: Start {
                pages: 1,
                base: 0x8000_8000,
                entry: 0x8000_8000,
                sp: 0x8000_8100,
            },
            words: LEAVER,
        },
        Guest {
            place: 9,
            start: Start {
                pages: 1,
                base: 0x8000_9000,
                entry: 0x8000_9000,
                sp: 0x8000_9100,
            },
            words: HEIR,
        },
    ],
};
