//! The commands of the tools for people who make guest images and read records: what is done by the words, and what is
//! answered.
//!
//! `run_tools` is all of it over any command line, files and output; `specs/ToolAnswering` says how each command
//! answers: `asm` (`asm_text`), `disasm` (`disassembly`), `pack` (`manifest`), `show` (`record_text`,
//! `record_json`), `trace` (`run_trace`), `draw` (`draw_command`) and `explain` (`run_story`). `sentence` is what is said of a
//! status on standard error.
#![tactic(auto)]

mod answering;
mod choosing;
mod exiting;
mod kinds;
mod line;
mod saying;
mod sentences;

pub use exiting::run_tools;
pub use line::CommandLine;
pub use sentences::sentence;
