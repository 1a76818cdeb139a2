//! Two harts resume one context.
//!
//! Both harts boot alike. Hart 0 runs the context when hart 1 asks for it, and a context that runs is not there to be
//! resumed: the program ends, and both harts leave.

use crate::draft::{Draft, Guest, StandingWords};
use crate::shared::CALLS;
use cloak_base::Start;

/// The text of the kernel.
#[cfg(test)]
pub const KERNEL_TEXT: &str = r"
boot:
    la    x6, handler
    csrrw x0, 0x105, x6             # stvec: each trap goes to the handler
    lui   x17, 0x4F560
    ecall                           # resume context 0
handler:                            # no instruction: what traps here traps here again
";

/// The words of the kernel.
pub const KERNEL: &[u32] = &[0x00000317, 0x01430313, 0x10531073, 0x4f5608b7, 0x00000073];

/// The image.
pub const IMAGE: Draft = Draft {
    frames: 64,
    harts: 2,
    schedule: &[0, 1],
    entry: 0x8000_0000,
    segments: &[StandingWords {
        address: 0x8000_0000,
        words: KERNEL,
    }],
    blocks: 0,
    programs: &[Guest {
        place: 8,
        start: Start {
            pages: 1,
            base: 0x8000_8000,
            entry: 0x8000_8000,
            sp: 0x8000_8100,
        },
        words: CALLS,
    }],
};
