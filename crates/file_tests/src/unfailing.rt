//! Files and an output on which no call fails.

use crate::checks::same;
use io_traits::{Shelf, put_all};
use never_fails::{NeverShelf, NeverSink};
use std::test::Fail;

/// The digest of `abc` (FIPS 180-4, the example of SHA-256).
const ABC: [u8; 32] = [
    0xba, 0x78, 0x16, 0xbf, 0x8f, 0x01, 0xcf, 0xea, 0x41, 0x41, 0x40, 0xde, 0x5d, 0xae, 0x22, 0x23,
    0xb0, 0x03, 0x61, 0xa3, 0x96, 0x17, 0x7a, 0x9c, 0xb4, 0x10, 0xff, 0x61, 0xf2, 0x00, 0x15, 0xad,
];

/// A file is handed in and read; what is written is counted and hashed, and no longer told.
#[test]
fn counts_what_is_written(rt: HostRuntime) -> Result<(), Fail> {
    let mut shelf = NeverShelf::open(rt.alloc());
    shelf.add("file", b"bytes")?;
    let mut into = [7; 2];
    same(&rt, &shelf.size("file"), &Ok(5), "size");
    let read = shelf.read_at("file", 4, &mut into);
    same(&rt, &(read, into), &(Ok(1), [b's', 7]), "the last byte");
    shelf.append("file", b"ab")?;
    shelf.append("other", b"c")?;
    same(&rt, &shelf.size("file"), &Ok(0), "size after it");
    same(&rt, &shelf.sum(), &(3, ABC), "what was written");
    let mut sink = NeverSink::open();
    put_all(&mut sink, b"abc")?;
    same(&rt, &sink.sum(), &(3, ABC), "what was shown");
    Ok(())
}
