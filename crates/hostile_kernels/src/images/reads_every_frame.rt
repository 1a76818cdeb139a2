//! More frames are read than a table of 1024 translations holds.
//!
//! No program, and no attack on pages: it is a kernel that would empty any cache of translations.

use crate::draft::{Draft, StandingWords};

/// The text of the kernel.
#[cfg(test)]
pub const KERNEL_TEXT: &str = r"
boot:
    lui   x6, 0x80001               # frame 1
    lui   x7, 0x80500               # the end of RAM
    lui   x8, 1
next:
    lw    x9, 0(x6)
    add   x6, x6, x8
    bltu  x6, x7, next
    addi  x17, x0, 4
    ecall                           # HALT with 0
";

/// The words of the kernel.
pub const KERNEL: &[u32] = &[
    0x80001337, 0x805003b7, 0x00001437, 0x00032483, 0x00830333, 0xfe736ce3, 0x00400893, 0x00000073,
];

/// The image.
pub const IMAGE: Draft = Draft {
    frames: 1280,
    harts: 1,
    schedule: &[0],
    entry: 0x8000_0000,
    segments: &[StandingWords {
        address: 0x8000_0000,
        words: KERNEL,
    }],
    blocks: 0,
    programs: &[],
};
