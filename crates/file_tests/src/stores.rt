//! The bytes of store files. The digests were taken by another program, of bytes that it made by the format.

use crate::checks::same;
use cloak_base::{Meta, NoMemory};
use protect_meta::FileTable;
use sealed_store::{LONGEST_STORE, hmac, write_store};
use sha2::{Digest, Sha256};

// RFC 4231, test case 1: the code of "Hi There".
static HI_THERE: [u8; 32] = [
    0xb0, 0x34, 0x4c, 0x61, 0xd8, 0xdb, 0x38, 0x53, 0x5c, 0xa8, 0xaf, 0xce, 0xaf, 0x0b, 0xf1, 0x2b,
    0x88, 0x1d, 0xc2, 0x00, 0xc9, 0x83, 0x3d, 0xa7, 0x26, 0xe9, 0x37, 0x6c, 0x2e, 0x32, 0xcf, 0xf7,
];

// The digest of the store file of the table below.
static TWO_FILES: [u8; 32] = [
    0xcb, 0xf2, 0x50, 0xcc, 0x8b, 0xb6, 0x57, 0x22, 0xdb, 0x28, 0x8e, 0x55, 0xd3, 0x4e, 0x34, 0x72,
    0x3f, 0xa8, 0x61, 0xa0, 0xcf, 0x90, 0x05, 0xbf, 0x52, 0x0e, 0x1c, 0xb4, 0x61, 0xcc, 0xf7, 0xb9,
];

#[test]
fn a_code_is_that_of_the_standard(rt: HostRuntime) {
    same(&rt, &hmac(&[0x0b; 20], b"Hi There"), &HI_THERE, "Hi There");
}

#[test]
fn a_table_is_written(rt: HostRuntime) -> Result<(), NoMemory> {
    let mut table = FileTable::open(rt.alloc())?;
    let mut mac = [0; 16];
    for i in 0..16 {
        mac[i] = i as u8;
    }
    same(&rt, &table.add(0, 7, 2), &true, "a first file");
    let meta = Meta {
        iv: [1; 16],
        digest: [2; 32],
    };
    table.set_page(0, 1, Some(meta));
    same(&rt, &table.add(3, 0x01020304, 1), &true, "a second file");
    let mut room = vec![in rt.alloc(); 0xff; LONGEST_STORE]?;
    let length = write_store(&table, &mac, 258, &mut room);
    same(&rt, &length, &127, "length");
    same(&rt, &Sha256::digest(&room[..length]), &TWO_FILES, "bytes");
    Ok(())
}
