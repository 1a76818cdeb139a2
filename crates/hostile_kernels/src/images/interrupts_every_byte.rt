//! The timer interrupts a program at each step, even between the bytes of a copy.
//!
//! The kernel gives the program one step at a time. The four bytes come out all the same, each once.

use crate::draft::{Draft, Guest, StandingWords};
use cloak_base::Start;

/// The text of the kernel.
#[cfg(test)]
pub const KERNEL_TEXT: &str = r"
boot:
    la    x6, handler
    csrrw x0, 0x105, x6             # stvec: each trap goes to the handler
    addi  x6, x0, 32
    csrrw x0, 0x104, x6             # sie: the timer may interrupt
again:
    addi  x10, x0, 4                # one step of the program: two steps pass until it begins, and the fourth interrupts
    addi  x17, x0, 1
    ecall                           # TIMER
    lui   x17, 0x4F560
    ecall                           # resume the context in x5
handler:
    csrrs x6, 0x142, x0             # scause: its highest bit is set where the timer interrupted
    blt   x6, x0, again
    addi  x17, x0, 4
    ecall                           # HALT with what the program gave in x10
";

/// The words of the kernel.
pub const KERNEL: &[u32] = &[
    0x00000317, 0x02830313, 0x10531073, 0x02000313, 0x10431073, 0x00400513, 0x00100893, 0x00000073,
    0x4f5608b7, 0x00000073, 0x14202373, 0xfe0344e3, 0x00400893, 0x00000073,
];

/// The text of the program.
#[cfg(test)]
pub const PROGRAM_TEXT: &str = r"
# Writes the bytes 1, 2, 3, 4 by a call.
    lui   x14, 0x04030
    addi  x14, x14, 0x201
    sw    x14, 0(x2)
    addi  x10, x0, 1                # to descriptor 1,
    addi  x11, x2, 0                # from this buffer,
    addi  x12, x0, 4                # four bytes,
    lui   x13, 0x80009              # through this area, which is not cloaked:
    addi  x16, x0, 1                # WRITE
    lui   x17, 0x4F560
    addi  x17, x17, 8               # CALL
    ecall
";

/// Its words.
pub const PROGRAM: &[u32] = &[
    0x04030737, 0x20170713, 0x00e12023, 0x00100513, 0x00010593, 0x00400613, 0x800096b7, 0x00100813,
    0x4f5608b7, 0x00888893, 0x00000073,
];

/// The image.
pub const IMAGE: Draft = Draft {
    frames: 64,
    harts: 1,
    schedule: &[0],
    entry: 0x8000_0000,
    segments: &[StandingWords {
        address: 0x8000_0000,
        words: KERNEL,
    }],
    blocks: 0,
    programs: &[Guest {
        place: 8,
        start: Start {
            pages: 1,
            base: 0x8000_8000,
            entry: 0x8000_8000,
            sp: 0x8000_8100,
        },
        words: PROGRAM,
    }],
};
