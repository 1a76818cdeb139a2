//! Tests of the instructions and their texts, of the atomic ones, of the control and status registers, of the page-table walk
//! and of the plain step, with values from outside. They stand here, and not in the crates that they are of, since a crate with
//! tests is proved twice.
#![tactic(auto)]

#[cfg(test)]
mod atomics;
#[cfg(test)]
mod checks;
#[cfg(test)]
mod encodings;
#[cfg(test)]
mod kernel_steps;
#[cfg(test)]
mod operations;
#[cfg(test)]
mod registers;
#[cfg(test)]
mod texts;
#[cfg(test)]
mod walks;
