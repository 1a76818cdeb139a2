//! A frame goes through its states.

use crate::checks::same;
use aes_block::KeySchedule;
use cloak_base::{NoMemory, PageId};
use frame_store::FrameStore;
use page_states::{first_page, open_page, reseal, seal};
use sha2::{Digest, Sha256};

// FIPS 180-4's first example.
static ABC: [u8; 32] = [
    0xba, 0x78, 0x16, 0xbf, 0x8f, 0x01, 0xcf, 0xea, 0x41, 0x41, 0x40, 0xde, 0x5d, 0xae, 0x22, 0x23,
    0xb0, 0x03, 0x61, 0xa3, 0x96, 0x17, 0x7a, 0x9c, 0xb4, 0x10, 0xff, 0x61, 0xf2, 0x00, 0x15, 0xad,
];

// `openssl enc -aes-128-cbc -nopad` of 4096 zeros, and its `sha256sum`.
static SEALED_ZEROS: [u8; 32] = [
    0xd5, 0xf1, 0x61, 0x80, 0x4e, 0x0b, 0x5b, 0xb8, 0x61, 0xbd, 0x0b, 0xaf, 0x34, 0xe4, 0x1b, 0xe1,
    0xfa, 0x17, 0xf1, 0x15, 0x68, 0x27, 0x06, 0x1d, 0x18, 0x14, 0x1a, 0xfe, 0x72, 0x50, 0x69, 0x3c,
];

#[test]
fn digests_the_standards_example(rt: HostRuntime) {
    same(&rt, &Sha256::digest("abc"), &ABC, "abc");
}

#[test]
fn a_frame_goes_through_every_state(rt: HostRuntime) -> Result<(), NoMemory> {
    let k = KeySchedule::new(&0x2b7e151628aed2a6abf7158809cf4f3c_u128.to_be_bytes());
    let iv = 0x000102030405060708090a0b0c0d0e0f_u128.to_be_bytes();
    let page = PageId {
        domain: 0,
        resource: 0,
        page: 0,
    };
    let (mut store, mut rights) = FrameStore::open(rt.alloc(), 64)?;
    let right = rights.swap_remove(0);
    let right = first_page(&mut store, right, page);
    let (right, meta) = seal(&mut store, right, iv, &k);
    same(&rt, &meta.digest, &SEALED_ZEROS, "sealed");
    match open_page(&mut store, right, page, &meta, &k) {
        Ok(right) => {
            let right = reseal(&mut store, right, &meta, &k);
            same(
                &rt,
                &Sha256::digest(store.outside(&right).as_slice()),
                &SEALED_ZEROS,
                "sealed again",
            );
        }
        Err(_) => panic!(rt; "the page that was sealed was refused"),
    }
    Ok(())
}
