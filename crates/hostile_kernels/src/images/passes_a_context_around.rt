//! A context faults on one hart, is interrupted on the other, and goes on on the first.
//!
//! Its second page is not mapped. Hart 0 takes the fault and maps it, hart 1 resumes the context and sets the timer
//! so that it makes no step, and hart 0 resumes it again. The context goes on with the store that faulted, as if
//! nothing had been.

use crate::draft::{Draft, Guest, StandingWords};
use crate::shared::{CALLS, KERNEL_LEAF, POINTER};
use cloak_base::Start;

/// The text of the kernel.
#[cfg(test)]
pub const KERNEL_TEXT: &str = r"
boot:                               # both harts
    la    x6, fault
    csrrw x0, 0x105, x6             # stvec: each trap goes to fault
    lui   x6, 0x80080
    addi  x6, x6, 1
    csrrw x0, 0x180, x6             # satp: paging on, the root table is frame 1
    lui   x8, 0x80003               # frame 3: two words by which the harts tell each other how far they are
    bne   x10, x0, second
    lui   x17, 0x4F560
    ecall                           # hart 0: resume context 0
fault:                              # hart 0, at the store to the page that is not mapped
    lui   x6, 0x80002
    lui   x7, 0x20002
    addi  x7, x7, 1247
    sw    x7, 4(x6)                 # entry 1 of the table: page 0x00401000 is frame 9
    la    x6, halt
    csrrw x0, 0x105, x6             # stvec: the next trap goes to halt
    lui   x8, 0x80003
    sw    x7, 0(x8)                 # the page is mapped: hart 1 may go on
wait:
    lw    x9, 4(x8)
    beq   x9, x0, wait
    lui   x17, 0x4F560
    ecall                           # resume context 0 again
halt:
    addi  x17, x0, 4
    ecall                           # HALT with what the program gave in x10
second:                             # hart 1
    lw    x9, 0(x8)
    beq   x9, x0, second
    la    x6, interrupted
    csrrw x0, 0x105, x6             # stvec: the next trap goes to interrupted
    addi  x6, x0, 32
    csrrw x0, 0x104, x6             # sie: the timer may interrupt
    addi  x10, x0, 3                # no step of the program: two steps pass until it begins, and the third interrupts
    addi  x17, x0, 1
    ecall                           # TIMER
    lui   x17, 0x4F560
    ecall                           # resume context 0
interrupted:
    lui   x8, 0x80003
    addi  x9, x0, 1
    sw    x9, 4(x8)                 # the context is free: hart 0 may go on
stay:
    jal   x0, stay
";

/// The words of the kernel.
pub const KERNEL: &[u32] = &[
    0x00000317, 0x02830313, 0x10531073, 0x80080337, 0x00130313, 0x18031073, 0x80003437, 0x04051463,
    0x4f5608b7, 0x00000073, 0x80002337, 0x200023b7, 0x4df38393, 0x00732223, 0x00000317, 0x02430313,
    0x10531073, 0x80003437, 0x00742023, 0x00442483, 0xfe048ee3, 0x4f5608b7, 0x00000073, 0x00400893,
    0x00000073, 0x00042483, 0xfe048ee3, 0x00000317, 0x02830313, 0x10531073, 0x02000313, 0x10431073,
    0x00300513, 0x00100893, 0x00000073, 0x4f5608b7, 0x00000073, 0x80003437, 0x00100493, 0x00942223,
    0x0000006f,
];

/// The table of level 0: page 0x00400000 is frame 8, and page 0x00401000 is not mapped.
pub const TABLE: &[u32] = &[0x200020df];

/// The image.
pub const IMAGE: Draft = Draft {
    frames: 64,
    harts: 2,
    schedule: &[0, 1],
    entry: 0x8000_0000,
    segments: &[
        StandingWords {
            address: 0x8000_0000,
            words: KERNEL,
        },
        StandingWords {
            address: 0x8000_1004,
            words: POINTER,
        },
        StandingWords {
            address: 0x8000_1800,
            words: KERNEL_LEAF,
        },
        StandingWords {
            address: 0x8000_2000,
            words: TABLE,
        },
    ],
    blocks: 0,
    programs: &[Guest {
        place: 8,
        start: Start {
            pages: 2,
            base: 0x0040_0000,
            entry: 0x0040_0000,
            sp: 0x0040_1100,
        },
        words: CALLS,
    }],
};
