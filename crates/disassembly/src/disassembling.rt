//! The text of a file's bytes.
ghost use Rattle.std.specs.Prelude.{◌≡◌, ◌+◌, ◌*◌, ◌%◌, ◌≤◌, length, take, drop, vec_len, IfOk, MatchResult};
ghost use Rattle.std.specs.Int.{w32, from_le_bytes};
ghost use Rattle.std.specs.List.{flat_map};
ghost use Rattle.cloak_model.specs.Bits.{word};
ghost use Rattle.disassembly.specs.Disassembling.{HasFault};
ghost use Rattle.disassembly.specs.ReadingBack.{Fits, IsDisassembled, AssemblesBack};

use crate::fault::WordsFault;
use crate::listing::listing;
use cloak_base::NoMemory;
use std::alloc::Global;

/// The most bytes that a file of words may have.
pub const MOST_BYTES: u64 = 262_144;

/// The number of four bytes at an offset.
fn number_at(bytes: &[u8], at: usize) -> u32
    requires { at + 4 ≤ length bytes.now }
    ensures { result ≡ from_le_bytes w32 (take 4 (drop at bytes.now)) }
{
    u32::from_le_bytes([bytes[at], bytes[at + 1], bytes[at + 2], bytes[at + 3]])
}

/// The word of four bytes at an offset.
fn word_at(bytes: &[u8], at: usize) -> u32
    requires { at + 4 ≤ length bytes.now }
    ensures { word result ≡ take 4 (drop at bytes.now) }
{
    number_at(bytes, at)
}

/// The words of bytes, each with its lowest byte first.
fn words_of(alloc: Global, bytes: &[u8]) -> Result<Vec<u32>, NoMemory>
    requires { length bytes.now % 4 ≡ 0 }
    ensures flat { IfOk result (λ words. bytes.now ≡ flat_map word words.items) }
    ensures len { IfOk result (λ words. 4 * vec_len words ≡ length bytes.now) }
{
    let mut words = Vec::new(alloc);
    let mut at = 0usize;
    while at < bytes.len() {
        words.push(word_at(bytes, at))?;
        at += 4;
    }
    Ok(words)
}

/// The text of words means these words again.
pub fn law_of_reading_back(base: u32, words: &[u32])
    requires { Fits base words.now }
    ensures { AssemblesBack base words.now }
{}

/// The text of the words that a file's bytes are, of which the first stands at an address, or the file's fault.
pub fn disassembled(alloc: Global, base: u32, bytes: &[u8]) -> Result<Vec<u8>, WordsFault>
    ensures { MatchResult result (λ text. IsDisassembled base bytes.now text.items) (HasFault base bytes.now) }
{
    if bytes.is_empty() {
        return Err(WordsFault::NoBytes);
    }
    if bytes.len() as u64 > MOST_BYTES {
        return Err(WordsFault::TooLarge);
    }
    if bytes.len() % 4 != 0 {
        return Err(WordsFault::NotWords);
    }
    if u64::from(base) + bytes.len() as u64 > 1 << 32 {
        return Err(WordsFault::PastEnd);
    }
    let Ok(words) = words_of(alloc, bytes) else {
        return Err(WordsFault::NoMemory);
    };
    law_of_reading_back(base, words.as_slice());
    match listing(alloc, base, words.as_slice()) {
        Ok(text) => Ok(text),
        Err(_) => Err(WordsFault::NoMemory),
    }
}
