//! The kernel sets SUM and MXR, and reads a page by the program's own address.
//!
//! By MXR the program may load from a page that it may only execute. By SUM the kernel may use the program's
//! mappings, and finds the ciphertext through them: what one sees depends on who looks, not on the rights in the
//! table.

use crate::draft::{Draft, Guest, StandingWords};
use crate::shared::{KERNEL_LEAF, POINTER};
use cloak_base::Start;

/// The text of the kernel.
#[cfg(test)]
pub const KERNEL_TEXT: &str = r"
boot:
    la    x6, handler
    csrrw x0, 0x105, x6             # stvec: each trap goes to the handler
    lui   x6, 0xC0
    csrrw x0, 0x100, x6             # sstatus: SUM and MXR
    lui   x6, 0x80080
    addi  x6, x6, 1
    csrrw x0, 0x180, x6             # satp: paging on, the root table is frame 1
    lui   x17, 0x4F560
    ecall                           # resume context 0
handler:
    lui   x6, 0x401
    lw    x7, 256(x6)               # where the program stored its 7
    addi  x17, x0, 4
    ecall                           # HALT with what the program gave in x10
";

/// The words of the kernel.
pub const KERNEL: &[u32] = &[
    0x00000317, 0x02830313, 0x10531073, 0x000c0337, 0x10031073, 0x80080337, 0x00130313, 0x18031073,
    0x4f5608b7, 0x00000073, 0x00401337, 0x10032383, 0x00400893, 0x00000073,
];

/// The text of the program.
#[cfg(test)]
pub const PROGRAM_TEXT: &str = r"
# Stores 7, loads it, loads a word of its own code, and calls number 9 of the kernel with the three.
    addi  x10, x0, 7
    sw    x10, 0(x2)
    lw    x11, 0(x2)
    auipc x6, 0
    lw    x12, 0(x6)                # the word of the instruction before this one
    addi  x16, x0, 9
    lui   x17, 0x4F560
    addi  x17, x17, 8               # CALL
    ecall
";

/// Its words.
pub const PROGRAM: &[u32] = &[
    0x00700513, 0x00a12023, 0x00012583, 0x00000317, 0x00032603, 0x00900813, 0x4f5608b7, 0x00888893,
    0x00000073,
];

/// The table of level 0: page 0x00400000 is frame 8, only to be executed; page 0x00401000 is frame 9.
pub const TABLE: &[u32] = &[0x200020d9, 0x200024df];

/// The image.
pub const IMAGE: Draft = Draft {
    frames: 64,
    harts: 1,
    schedule: &[0],
    entry: 0x8000_0000,
    segments: &[
        StandingWords {
            address: 0x8000_0000,
            words: KERNEL,
        },
        StandingWords {
            address: 0x8000_1004,
            words: POINTER,
        },
        StandingWords {
            address: 0x8000_1800,
            words: KERNEL_LEAF,
        },
        StandingWords {
            address: 0x8000_2000,
            words: TABLE,
        },
    ],
    blocks: 0,
    programs: &[Guest {
        place: 8,
        start: Start {
            pages: 2,
            base: 0x0040_0000,
            entry: 0x0040_0000,
            sp: 0x0040_1100,
        },
        words: PROGRAM,
    }],
};
