//! Words as text.
ghost use Rattle.std.specs.Prelude.{◌≡◌};
ghost use Rattle.word_text.specs.Operands.{label};
ghost use Rattle.word_text.specs.Text as spec;

use crate::WordText;
use crate::atomic::atomic_text;
use crate::instruction::{has_form, instruction_text};
use crate::pieces::{add, add_hexadecimal};
use rv_atomic::decode_atomic;
use rv_isa::decode;

/// The label of an address.
pub fn label_text(at: u32) -> WordText
    ensures { result.items ≡ label at }
{
    let mut text = WordText::new();
    add(&mut text, b"L");
    add_hexadecimal(&mut text, at);
    text
}

/// A word by its number.
pub fn number_text(word: u32) -> WordText
    ensures { result.items ≡ spec.number_text word }
{
    let mut text = WordText::new();
    add(&mut text, b".word 0x");
    add_hexadecimal(&mut text, word);
    text
}

/// The assembler text of a word that stands at an address.
#[tactic(auto, unfolding(crate::specs::Text::word_text))]
pub fn word_text(word: u32, at: u32) -> WordText
    ensures { result.items ≡ spec.word_text word at }
{
    if let Some(i) = decode(word) {
        if has_form(&i) {
            return instruction_text(&i, at);
        }
        return number_text(word);
    }
    match decode_atomic(word) {
        Some(a) => atomic_text(&a),
        None => number_text(word),
    }
}
