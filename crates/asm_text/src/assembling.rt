//! The bytes that a text is assembled to.
ghost use Rattle.std.specs.Prelude.{◌≡◌, IfOk, MatchResult};
ghost use Rattle.std.specs.List.{flat_map};
ghost use Rattle.cloak_model.specs.Bits.{word};
ghost use Rattle.asm_text.specs.Assembling.{IsAssembled, FailsToAssemble, longest_text};

use crate::fault::TextFault;
use cloak_base::NoMemory;
use rv_asm::{AsmFault, assemble};
use std::alloc::Global;

/// The most bytes that a text may have.
pub const LONGEST_TEXT: u64 = 16_777_216;

/// The bytes of words, one word after another, each with its lowest byte first.
fn flat_bytes(alloc: Global, words: &[u32]) -> Result<Vec<u8>, NoMemory>
    ensures { IfOk result (λ bytes. bytes.items ≡ flat_map word words.now) }
{
    let mut bytes = Vec::new(alloc);
    for w in words {
        bytes.extend_from_slice(&w.to_le_bytes())?;
    }
    Ok(bytes)
}

/// The flat bytes of the words that a text is assembled to, or its first fault.
pub fn assembled(alloc: Global, text: &[u8]) -> Result<Vec<u8>, TextFault>
    ensures { MatchResult result (λ bytes. IsAssembled text.now bytes.items) (FailsToAssemble text.now) }
{
    if text.is_empty() {
        return Err(TextFault::NoBytes);
    }
    if text.len() as u64 > LONGEST_TEXT {
        return Err(TextFault::TooLarge);
    }
    let Ok(text) = std::str::from_utf8(text) else {
        return Err(TextFault::NotText);
    };
    let words = match assemble(alloc, text) {
        Ok(words) => words,
        Err(fault) => return Err(TextFault::Faulty(fault)),
    };
    match flat_bytes(alloc, words.as_slice()) {
        Ok(bytes) => Ok(bytes),
        Err(_) => Err(TextFault::Faulty(AsmFault::NoMemory)),
    }
}
