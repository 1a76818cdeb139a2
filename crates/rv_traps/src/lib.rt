//! The control and status registers of a hart's supervisor level, trap entry and trap return (RISC-V
//! privileged manual, "Supervisor-Level ISA", "Supervisor CSRs" and "Trap-Return Instructions").
//!
//! The definitions, in `cloak_model`, speak of a map from the numbers of the registers to words. Here the
//! registers are fields: those of `sstatus` apart, of `sie` and `sip` the timer's bit, and the other words.
//! `Csrs` is that map to the layer above, and each of its calls is the definition of the same name. A trap
//! goes on, and a return goes back, at a multiple of 4.
#![tactic(auto)]

mod csrs;
mod fields;
mod numbers;

pub use csrs::Csrs;
