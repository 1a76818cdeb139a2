//! Chains of blocks, and pages.
ghost use Rattle.std.specs.Prelude.{◌<◌};

use crate::checks::same;
use aes_block::KeySchedule;
use aes_cbc::{seal_blocks, seal_page};

static KEY: u128 = 0x2b7e151628aed2a6abf7158809cf4f3c;

static IV: u128 = 0x000102030405060708090a0b0c0d0e0f;

/// SP 800-38A, F.2.1: plain blocks and cipher blocks.
static CHAIN: [(u128, u128); 4] = [
    (
        0x6bc1bee22e409f96e93d7e117393172a,
        0x7649abac8119b246cee98e9b12e9197d,
    ),
    (
        0xae2d8a571e03ac9c9eb76fac45af8e51,
        0x5086cb9b507219ee95db113a917678b2,
    ),
    (
        0x30c81c46a35ce411e5fbc1191a0a52ef,
        0x73bed6b8e3c1743b7116e69e22229516,
    ),
    (
        0xf69f2445df4f9b17ad2b417be66c3710,
        0x3ff1caa1681fac09120eca307586e1a7,
    ),
];

fn block_at(page: &[u8; 4096], j: usize) -> u128
    requires { j < 256 }
{
    let mut block = [0; 16];
    block.copy_from_slice(&page[16 * j..16 * j + 16]);
    u128::from_be_bytes(block)
}

#[test]
fn seals_the_standards_blocks(rt: HostRuntime) {
    let schedule = KeySchedule::new(&KEY.to_be_bytes());
    let mut blocks = [
        CHAIN[0].0.to_be_bytes(),
        CHAIN[1].0.to_be_bytes(),
        CHAIN[2].0.to_be_bytes(),
        CHAIN[3].0.to_be_bytes(),
    ];
    seal_blocks(&schedule, &IV.to_be_bytes(), &mut blocks);
    for (j, (_, sealed)) in CHAIN.iter().enumerate() {
        same(&rt, &u128::from_be_bytes(blocks[j]), sealed, j);
    }
}

/// Blocks of a page by their numbers, as `openssl enc -aes-128-cbc -nopad` computed them.
static OF_A_PAGE: [(usize, u128); 3] = [
    (0, 0x7f807b311707f722e7e237b65a78a537),
    (128, 0xff9135cded7d2c718fcd3148c67cbc85),
    (255, 0xe145b1ee1024e5ba373671f50d9068e7),
];

#[test]
fn seals_a_page_as_openssl_does(rt: HostRuntime) {
    let schedule = KeySchedule::new(&KEY.to_be_bytes());
    let mut page = [0; 4096];
    for i in 0..4096 {
        page[i] = ((7 * i + i / 16) % 256) as u8;
    }
    seal_page(&schedule, &IV.to_be_bytes(), &mut page);
    for &(j, want) in &OF_A_PAGE {
        same(&rt, &block_at(&page, j), &want, j);
    }
}
