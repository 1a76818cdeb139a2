//! The machine as it runs: the joint machine, its schedule, and the console.
//!
//! `Machine::open` and `opening` stand for the opening of the joint run, `step` for its next step, and `finish` for
//! its closing, whose `RunEnd` writes the report; `open_stored` and `finish_stored` are those of a run over the files
//! of an earlier one: for every moment that the machine stood for, what is emitted and
//! answered is what the definitions say, and afterwards the machine stands for the next moment; a step unless two
//! different pages with one digest were compared. After the opening no call takes memory.
#![tactic(auto)]

mod closing;
mod domains;
mod end;
mod frames;
mod freezing;
mod machine;
mod schedule;

pub use cloak_model::{Bundle, Emit, Item, KernelImage, Program, Segment};
pub use end::{RunEnd, put_number, put_stop_line};
pub use joint_machine::{OpenFault, StoredFault, ThawFault};
pub use machine::Machine;
