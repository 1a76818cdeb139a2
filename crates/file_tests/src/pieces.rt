//! The last step that a piece of a record tells of. The bytes are those of the table of the format.

use crate::checks::same;
use run_progress::last_step;
use std::test::*;

/// A piece, the number above which a step must be and the one up to which it may be, and the step.
static ROWS: [(&[u8], u32, u64, Option<u32>); 7] = [
    (b"\x10\x07\0\0\0\x20\0", 0, 100, Some(7)),
    (b"\x10\x07\0\0\0\x10\x08\0\0\0", 0, 100, Some(8)),
    // A step that is above what may be, and one that was told before.
    (b"\x10\x07\0\0\0\x10\x08\0\0\0", 0, 7, Some(7)),
    (b"\x10\x07\0\0\0\x10\x08\0\0\0", 8, 100, None),
    // A Word with the value 0x10, and an item that is cut.
    (b"\x22\0\x10\0\0\0\x10\x09\0\0", 0, 100, None),
    (b"\x11\x09\0\0\0\x12", 0, 100, None),
    (b"", 0, 100, None),
];

#[test]
fn a_piece_tells_its_last_step(rt: HostRuntime) {
    for &(piece, above, most, want) in &ROWS {
        same(&rt, &last_step(piece, above, most), &want, piece.len());
    }
}
