//! A run over files and an output on which no call fails: so that no status of a fault can come.

use crate::checks::same;
use crate::failing::{SMALLEST, WHOLE_LINE, words_of};
use cloak_commands::run_program;
use command_parts::Status;
use never_fails::{NeverShelf, NeverSink};
use std::test::*;

/// The SHA-256 digest of the 34 bytes of the smallest run's record.
const RECORD_DIGEST: [u8; 32] = [
    0x1d, 0x7e, 0x1e, 0x91, 0xb3, 0x1d, 0xd3, 0xfc, 0xcf, 0x62, 0x2c, 0x0c, 0x6d, 0x7e, 0xb1, 0x02,
    0xb8, 0x9b, 0x1f, 0x44, 0x77, 0x44, 0xd8, 0xa7, 0xf7, 0xd5, 0xec, 0xa7, 0x74, 0xf4, 0x5c, 0xb0,
];

#[test]
fn the_smallest_run_where_no_call_fails(rt: HostRuntime) -> Result<(), Fail> {
    let mut shelf = NeverShelf::open(rt.alloc());
    shelf.add("a.b", SMALLEST)?;
    let mut sink = NeverSink::open();
    let words = words_of(rt.alloc(), WHOLE_LINE)?;
    let status = run_program(rt.alloc(), &words, &mut shelf, &mut sink);
    same(&rt, &status, &Status::Done, "status");
    same(&rt, &shelf.sum(), &(34, RECORD_DIGEST), "record");
    Ok(())
}
