//! Rows of secrecy: two programs whose steps have one shape, and two whose steps have not. Nothing here runs: each function
//! is a contract.
#![tactic(auto)]

mod rows;

pub use rows::rows_of_secrecy;
