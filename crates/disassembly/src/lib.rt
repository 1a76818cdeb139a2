//! Words as a text that the assembler reads back.
//!
//! `specs/Listing` has the text: a line for each word, and a label before each word that another leads to. The layer
//! above may rely on this: what `disassembled` returns is that text, and `asm` makes the same words of it again
//! (`specs/ReadingBack`); and a file that has no such text is told its fault. `disasm_command` is the command `disasm` of a
//! file of words, and `disasm_part_command` that of a segment or a program of an image (`specs/ImageParts`).
//!
//! No body changes `law_of_reading_back`. These changed definitions were tried on a copy, and with none of them did
//! its proof go through: a word may lead to the place right after the last word; a label has the address of the next
//! word; a word that leads away is written with a label.
#![tactic(auto)]

mod address;
mod command;
mod disassembling;
mod fault;
mod image;
mod lead;
mod listing;
mod part;
mod telling;

pub use address::address_of;
pub use command::disasm_command;
pub use disassembling::disassembled;
pub use fault::WordsFault;
pub use image::disasm_part_command;
pub use part::ImagePart;
