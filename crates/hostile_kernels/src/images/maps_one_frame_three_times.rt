//! One frame is mapped at three addresses of a program.
//!
//! At two of them the program has one page of its own, at the third nothing is cloaked. Through the first two it
//! finds what it stored, through the third the ciphertext, like anybody else; and then again what it stored.

use crate::draft::{Draft, Guest, StandingWords};
use crate::shared::{KERNEL_LEAF, POINTER};
use cloak_base::Start;

/// The text of the kernel.
#[cfg(test)]
pub const KERNEL_TEXT: &str = r"
boot:
    la    x6, handler
    csrrw x0, 0x105, x6             # stvec: each trap goes to the handler
    lui   x6, 0x80080
    addi  x6, x6, 1
    csrrw x0, 0x180, x6             # satp: paging on, the root table is frame 1
    lui   x17, 0x4F560
    ecall                           # resume context 0
handler:
    addi  x17, x0, 4
    ecall                           # HALT with what the program gave in x10
";

/// The words of the kernel.
pub const KERNEL: &[u32] = &[
    0x00000317, 0x02030313, 0x10531073, 0x80080337, 0x00130313, 0x18031073, 0x4f5608b7, 0x00000073,
    0x00400893, 0x00000073,
];

/// The text of the program.
#[cfg(test)]
pub const PROGRAM_TEXT: &str = r"
# Maps a new page at two addresses, stores 7 at one, and loads it by the other, by a third, and by the first.
    addi  x10, x0, 1                # one page
    lui   x17, 0x4F560
    addi  x17, x17, 1               # NEW: the answer is the resource's number, 1
    ecall
    lui   x11, 0x401
    addi  x13, x0, 1
    addi  x17, x17, 1               # MAP of resource x10 at 0x00401000; the answer is 0
    ecall
    addi  x10, x0, 1
    lui   x11, 0x402
    ecall                           # MAP of resource 1 at 0x00402000
    lui   x6, 0x401
    addi  x7, x0, 7
    sw    x7, 0(x6)
    lui   x8, 0x402
    lw    x12, 0(x8)                # 7: it is the same page
    lui   x9, 0x403
    lw    x11, 0(x9)                # a word of the ciphertext: this address is not cloaked
    lw    x10, 0(x6)                # 7
    addi  x16, x0, 9                # call number 9
    addi  x17, x17, 6               # CALL
    ecall
";

/// Its words.
pub const PROGRAM: &[u32] = &[
    0x00100513, 0x4f5608b7, 0x00188893, 0x00000073, 0x004015b7, 0x00100693, 0x00188893, 0x00000073,
    0x00100513, 0x004025b7, 0x00000073, 0x00401337, 0x00700393, 0x00732023, 0x00402437, 0x00042603,
    0x004034b7, 0x0004a583, 0x00032503, 0x00900813, 0x00688893, 0x00000073,
];

/// The table of level 0: page 0x00400000 is frame 8, the three after it are frame 9.
pub const TABLE: &[u32] = &[0x200020df, 0x200024df, 0x200024df, 0x200024df];

/// The image.
pub const IMAGE: Draft = Draft {
    frames: 64,
    harts: 1,
    schedule: &[0],
    entry: 0x8000_0000,
    segments: &[
        StandingWords {
            address: 0x8000_0000,
            words: KERNEL,
        },
        StandingWords {
            address: 0x8000_1004,
            words: POINTER,
        },
        StandingWords {
            address: 0x8000_1800,
            words: KERNEL_LEAF,
        },
        StandingWords {
            address: 0x8000_2000,
            words: TABLE,
        },
    ],
    blocks: 0,
    programs: &[Guest {
        place: 8,
        start: Start {
            pages: 1,
            base: 0x0040_0000,
            entry: 0x0040_0000,
            sp: 0x0040_0100,
        },
        words: PROGRAM,
    }],
};
