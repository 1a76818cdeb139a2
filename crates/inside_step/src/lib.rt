//! One instruction of a context inside cloaked mode (RISC-V unprivileged manual; this project's rules,
//! `docs/MACHINE.md`), over any `PageSide`: it is fetched from the cloaked pages of the context's space, and its load or
//! store reaches such a page, or memory that is not the program's own. Atomic instructions reach cloaked pages alone.
//!
//! The context changes in place, and only if the instruction is completed. A word of a cloaked page that was written in
//! is told of; the reservations that other contexts have of it are not ended here. Whether a word was reserved is told,
//! too.
#![tactic(auto)]

mod atomic;
mod instruction;

pub use cloak_model::Ran;
pub use instruction::instruction_step;
