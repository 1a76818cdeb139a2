//! AES-128 in cipher block chaining (SP 800-38A, 6.2), over pages of 4096 bytes and over lists of blocks.
//!
//! The first block of a page is added to the IV and enciphered, each later one is added to the cipher block before it
//! and enciphered; there is no padding. A page is worked on in place, block after block, and no call fails or takes
//! memory.
//!
//! The layer above may rely on this: `seal_page` leaves `cbc key iv page`, and `open_page` leaves the one page whose
//! `cbc` stood there, whatever bytes those were. Nothing here tells a changed page from an unchanged one, and nothing
//! is said of what a ciphertext hides.
#![tactic(auto)]

ghost use Rattle.std.specs.Prelude.{◌≡◌, ◌+◌, ◌*◌, ◌<◌, ◌++◌, ℕ, List, take, drop};
ghost use Rattle.aes_block.specs.Bytes.{IsBytes};
ghost use Rattle.aes_block.specs.State.{block_sum};
ghost use Rattle.aes_block.specs.Word.{block_of_words};
ghost use Rattle.aes_block.specs.Cipher.{encrypted};
ghost use Rattle.cloak_model.specs.Chain.{chained, cbc};
ghost use Rattle.aes_cbc.specs.Opened.{IsOpened};

use aes_block::{KeySchedule, add_words, words_of, write_words};

fn block_at(page: &[u8; 4096], j: usize) -> [u8; 16]
    requires { j < 256 }
    ensures { result ≡ take 16 (drop (16 * j) page.now) }
{
    let mut block = [0; 16];
    block.copy_from_slice(&page[16 * j..16 * j + 16]);
    block
}

fn put_block(page: &mut [u8; 4096], j: usize, block: &[u8; 16])
    requires { j < 256 }
    ensures { page.new ≡ take (16 * j) page.old ++ (block.now ++ drop (16 * j + 16) page.old) }
{
    page[16 * j..16 * j + 16].copy_from_slice(block);
}

/// Enciphers the block that follows cipher block `last`.
fn seal_block(k: &KeySchedule, last: &mut [u32; 4], block: &mut [u8; 16])
    ensures sealed { block.new ≡ encrypted k.now (block_sum block.old (block_of_words last.old)) }
    ensures next { block_of_words last.new ≡ block.new }
{
    let mut s = words_of(block);
    add_words(&mut s, last);
    k.encrypt_words(&mut s);
    write_words(&s, block);
    *last = s;
}

/// Deciphers the block that follows cipher block `last`.
fn open_block(k: &KeySchedule, last: &mut [u32; 4], block: &mut [u8; 16])
    ensures opened { IsOpened k.now (block_of_words last.old) block.old block.new }
    ensures next { block_of_words last.new ≡ block.old }
{
    let sealed = words_of(block);
    let mut s = sealed;
    k.decrypt_words(&mut s);
    add_words(&mut s, last);
    write_words(&s, block);
    *last = sealed;
}

/// Enciphers a page in place.
pub fn seal_page(k: &KeySchedule, iv: &[u8; 16], p: &mut [u8; 4096])
    ensures { p.new ≡ cbc k.now iv.now p.old }
{
    let mut last = words_of(iv);
    for j in 0..256 {
        let mut block = block_at(p, j);
        seal_block(k, &mut last, &mut block);
        put_block(p, j, &block);
    }
}

/// Deciphers a page in place, whatever its bytes.
pub fn open_page(k: &KeySchedule, iv: &[u8; 16], p: &mut [u8; 4096])
    ensures seals_back { cbc k.now iv.now p.new ≡ p.old }
    ensures only_one { (q : List ℕ) → IsBytes 4096 q → cbc k.now iv.now q ≡ p.old → p.new ≡ q }
{
    let mut last = words_of(iv);
    for j in 0..256 {
        let mut block = block_at(p, j);
        open_block(k, &mut last, &mut block);
        put_block(p, j, &block);
    }
}

/// Enciphers any number of blocks in place, as one chain.
pub fn seal_blocks(k: &KeySchedule, iv: &[u8; 16], p: &mut [[u8; 16]])
    ensures { p.new ≡ chained k.now iv.now p.old }
{
    let mut last = words_of(iv);
    for block in p.iter_mut() {
        seal_block(k, &mut last, block);
    }
}
