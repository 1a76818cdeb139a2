//! The area of a call is laid over a cloaked page.
//!
//! The program writes two bytes through an uncloaked page, which the kernel maps to the frame of the program's own
//! cloaked page. The first byte gets there, as a change of the ciphertext. The page that the second one comes from is
//! then not the one that was shown, and the program ends.

use crate::draft::{Draft, Guest, StandingWords};
use crate::shared::{KERNEL_LEAF, POINTER};
use cloak_base::Start;

/// The text of the kernel.
#[cfg(test)]
pub const KERNEL_TEXT: &str = r"
boot:
    la    x6, handler
    csrrw x0, 0x105, x6             # stvec: each trap goes to the handler
    lui   x6, 0x80080
    addi  x6, x6, 1
    csrrw x0, 0x180, x6             # satp: paging on, the root table is frame 1
    lui   x17, 0x4F560
    ecall                           # resume context 0
handler:                            # no instruction: what traps here traps here again
";

/// The words of the kernel.
pub const KERNEL: &[u32] = &[
    0x00000317, 0x02030313, 0x10531073, 0x80080337, 0x00130313, 0x18031073, 0x4f5608b7, 0x00000073,
];

/// The text of the program.
#[cfg(test)]
pub const PROGRAM_TEXT: &str = r"
# Writes its own first two bytes by a call.
    addi  x10, x0, 1                # to descriptor 1,
    lui   x11, 0x400                # from this buffer,
    addi  x12, x0, 2                # two bytes,
    lui   x13, 0x408                # through this area, which is not cloaked:
    addi  x16, x0, 1                # WRITE
    lui   x17, 0x4F560
    addi  x17, x17, 8               # CALL
    ecall
";

/// Its words.
pub const PROGRAM: &[u32] = &[
    0x00100513, 0x004005b7, 0x00200613, 0x004086b7, 0x00100813, 0x4f5608b7, 0x00888893, 0x00000073,
];

/// The table of level 0: page 0x00400000 and the area 0x00408000 are both frame 8.
pub const TABLE: &[u32] = &[
    0x200020df, 0x00000000, 0x00000000, 0x00000000, 0x00000000, 0x00000000, 0x00000000, 0x00000000,
    0x200020df,
];

/// The image.
pub const IMAGE: Draft = Draft {
    frames: 64,
    harts: 1,
    schedule: &[0],
    entry: 0x8000_0000,
    segments: &[
        StandingWords {
            address: 0x8000_0000,
            words: KERNEL,
        },
        StandingWords {
            address: 0x8000_1004,
            words: POINTER,
        },
        StandingWords {
            address: 0x8000_1800,
            words: KERNEL_LEAF,
        },
        StandingWords {
            address: 0x8000_2000,
            words: TABLE,
        },
    ],
    blocks: 0,
    programs: &[Guest {
        place: 8,
        start: Start {
            pages: 1,
            base: 0x0040_0000,
            entry: 0x0040_0000,
            sp: 0x0040_0100,
        },
        words: PROGRAM,
    }],
};
