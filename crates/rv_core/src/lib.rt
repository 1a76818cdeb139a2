//! What each instruction of RV32IM does (RISC-V unprivileged manual, "RV32I Base Integer Instruction Set"
//! and "'M' Extension"), apart from memory, the mode and the control and status registers.
//!
//! `effect` returns what is written, where the program counter goes, which access is to be made, or which
//! exception is raised, as one value: the layer above makes it so. `frequent_effect` finds it in one match on the
//! word, of frequent instructions. The definition, in `cloak_model`, speaks of whole numbers and remainders; the code
//! of machine words. It takes no memory and never fails.
#![tactic(auto)]

mod access;
mod arithmetic;
mod control;
mod execute;
mod frequent;
mod multiply;

pub use cloak_model::Effect;
pub use execute::effect;
pub use frequent::frequent_effect;
