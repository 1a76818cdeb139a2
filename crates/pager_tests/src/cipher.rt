//! Blocks under AES-128.

use crate::checks::same;
use aes_block::KeySchedule;

/// Key, plain block and cipher block.
static CASES: [(u128, u128, u128); 9] = [
    // FIPS 197, appendix C.1
    (
        0x000102030405060708090a0b0c0d0e0f,
        0x00112233445566778899aabbccddeeff,
        0x69c4e0d86a7b0430d8cdb78070b4c55a,
    ),
    // FIPS 197, appendix B
    (
        0x2b7e151628aed2a6abf7158809cf4f3c,
        0x3243f6a8885a308d313198a2e0370734,
        0x3925841d02dc09fbdc118597196a0b32,
    ),
    // AESAVS, appendix B.1: GFSbox
    (
        0,
        0xf34481ec3cc627bacd5dc3fb08f273e6,
        0x0336763e966d92595a567cc9ce537f5e,
    ),
    (
        0,
        0x9798c4640bad75c7c3227db910174e72,
        0xa9a1631bf4996954ebc093957b234589,
    ),
    // AESAVS, appendix C.1: KeySbox
    (
        0x10a58869d74be5a374cf867cfb473859,
        0,
        0x6d251e6944b051e04eaa6fb4dbf78465,
    ),
    // AESAVS, appendix E.1: VarKey
    (
        0x80000000000000000000000000000000,
        0,
        0x0edd33d3c621e546455bd8ba1418bec8,
    ),
    (
        0xffffffffffffffffffffffffffffffff,
        0,
        0xa1f6258c877d5fcd8964484538bfc92c,
    ),
    // AESAVS, appendix D.1: VarTxt
    (
        0,
        0x80000000000000000000000000000000,
        0x3ad78e726c1ec02b7ebfe92b23d9ec34,
    ),
    (
        0,
        0xffffffffffffffffffffffffffffffff,
        0x3f5b8cc9ea855a0afa7347d23e8d664e,
    ),
];

#[test]
fn enciphers_the_standards_vectors(rt: HostRuntime) {
    for &(key, plain, sealed) in &CASES {
        let schedule = KeySchedule::new(&key.to_be_bytes());
        let mut block = plain.to_be_bytes();
        schedule.encrypt_block(&mut block);
        let found = u128::from_be_bytes(block);
        same(&rt, &(key, plain, found), &(key, plain, sealed), "a vector");
    }
}
