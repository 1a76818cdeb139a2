//! The command `trace`: a line for each step of a run, from its image and its record alone.
//!
//! The items of the record go one after another to a machine that runs alone (`alone_views`), as `view` and `solo` give
//! them. What an item adds to the text is a function of the machine's states before and after it (`specs/KernelTrace`,
//! `specs/ProgramTrace`): a marker that ends a step adds the step's line (`step_lines`), and an item that the kernel, or
//! the program, could see adds its own.
//!
//! The layer above may rely on this: `trace_command` shows exactly this text for the items that were read, up to the
//! record's end or its first fault, for which it answers as `view` does. What is chosen decides which lines are shown, and
//! never which steps are made. A hart that the image does not have is refused. No file is changed. After the opening no
//! memory is taken. `trace_over_command` is the same of a program that began with the cloaked files of an earlier run.
#![tactic(auto)]

mod choice;
mod command;
mod kernel_items;
mod kernel_side;
mod over;
mod program_ahead;
mod program_items;
mod program_side;
mod refusing;
mod silent;
mod stop;

pub use choice::TraceChoice;
pub use command::trace_command;
pub use over::trace_over_command;
