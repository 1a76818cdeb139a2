//! Instruction words as assembler text: a word at an address as the statement that `rv_asm` reads back.
//!
//! `specs/Text` has one line an instruction, in the order of the tables of `rv_isa` and `rv_atomic`, and `specs/Operands`
//! the operands. The layer above may rely on this: `word_text` returns exactly the text of the definition, for every
//! word, and takes no memory. A word that has no form is written by its number.
#![tactic(auto)]

mod atomic;
mod forms;
mod instruction;
mod pieces;
mod text;

use arrayvec::ArrayVec;
pub use text::{label_text, number_text, word_text};

/// The text of a word, of at most 48 bytes.
pub type WordText = ArrayVec<u8, 48>;
