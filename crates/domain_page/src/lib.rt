//! A program's state as a page of 4096 bytes, and back (this project's rules; `frozen_state`, `specs/DomainPage`).
//!
//! `write_page` writes the page of contexts and resources. `read_page` returns the contexts and resources that have a
//! page: those of every program with this page, and none exactly if there is no such program that keeps its limits.
//!
//! A page is read loosely: any bytes give some values. Then the limits are tested, the page of what was read is written,
//! and all 4096 bytes are compared. So what is returned has this page, whatever was read before; and what was written is
//! read again.
#![tactic(auto)]

mod limits;
mod making;
mod program;
mod reading;
mod region_list;
mod unread;
mod writing;

pub use program::ProgramParts;
pub use reading::read_page;
pub use writing::{hart_byte, phase_numbers, write_page, write_state};
