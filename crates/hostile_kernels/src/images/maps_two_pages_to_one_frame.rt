//! Two cloaked pages are mapped to one frame.
//!
//! The entry 514 of the root table gives 0x80808000 the frame 8, which holds the program's first page. The second
//! page is new and takes the frame over. Then the first is not there, and the program ends.

use crate::draft::{Draft, Guest, StandingWords};
use cloak_base::Start;

/// The text of the kernel.
#[cfg(test)]
pub const KERNEL_TEXT: &str = r"
boot:
    la    x6, handler
    csrrw x0, 0x105, x6             # stvec: each trap goes to the handler
    lui   x6, 0x80080
    addi  x6, x6, 1025
    csrrw x0, 0x180, x6             # satp: paging on, the root table is frame 1025
    lui   x17, 0x4F560
    ecall                           # resume context 0
handler:                            # no instruction: what traps here traps here again
";

/// The words of the kernel.
pub const KERNEL: &[u32] = &[
    0x00000317, 0x02030313, 0x10531073, 0x80080337, 0x40130313, 0x18031073, 0x4f5608b7, 0x00000073,
];

/// The text of the program.
#[cfg(test)]
pub const PROGRAM_TEXT: &str = r"
# Makes a resource of one page, maps it, and loads from it twice.
    addi  x10, x0, 1                # one page
    lui   x17, 0x4F560
    addi  x17, x17, 1               # NEW: the answer is the resource's number, 1
    ecall
    addi  x17, x17, 1               # MAP of resource x10
    lui   x11, 0x80808              # at this address,
    addi  x13, x0, 1                # one page
    ecall
    lw    x14, 0(x11)
    lw    x14, 0(x11)
";

/// Its words.
pub const PROGRAM: &[u32] = &[
    0x00100513, 0x4f5608b7, 0x00188893, 0x00000073, 0x00188893, 0x808085b7, 0x00100693, 0x00000073,
    0x0005a703, 0x0005a703,
];

/// The root table from its entry 512 on: a leaf that gives the program frames 0 to 1023 at 0x80000000, a leaf that
/// gives the kernel its own 4 MiB at 0x80400000, and at 0x80800000 the frames of the program once more.
pub const ROOT: &[u32] = &[0x200000df, 0x201000cf, 0x200000df];

/// The image.
pub const IMAGE: Draft = Draft {
    frames: 2048,
    harts: 1,
    schedule: &[0],
    entry: 0x8040_0000,
    segments: &[
        StandingWords {
            address: 0x8040_0000,
            words: KERNEL,
        },
        StandingWords {
            address: 0x8040_1800,
            words: ROOT,
        },
    ],
    blocks: 0,
    programs: &[Guest {
        place: 8,
        start: Start {
            pages: 1,
            base: 0x8000_8000,
            entry: 0x8000_8000,
            sp: 0x8000_8100,
        },
        words: PROGRAM,
    }],
};
