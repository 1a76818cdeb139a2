//! The bytes of a program's pages in plain text, for the machine that runs the program alone.
#![tactic(auto)]

mod pages;

pub use pages::{PlainPages, page_place};
