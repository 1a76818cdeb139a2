//! An assembler for texts of the machine's instructions, one statement a line.
//!
//! The rule is this project's own (`specs/`): `Words` has registers, numbers and names, `Operations` one line
//! a mnemonic, `Statements` the operands of each and the statement of a line, `Assembly` labels, reach and the
//! words of a text. The word of an instruction is that of `rv_isa`'s table, or of `rv_atomic`'s.
//!
//! `assemble` is exact for every text: it returns the words of a text that follows the rule, and for any other
//! text the first faulty line with what is wrong there. Only want of memory is said without a cause.
#![tactic(auto)]

mod assembler;
mod atomic;
mod fault;
mod form;
mod image_word;
mod labels;
mod operand;
mod operation;
mod statement;
mod words;

pub use assembler::assemble;
pub use fault::AsmFault;
pub use words::magnitude;
