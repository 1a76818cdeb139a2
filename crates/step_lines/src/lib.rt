//! The lines of a trace: what a step does, as text.
//!
//! A line is made of plain values: what a hart is before its step (`HartSight`, `HartAhead`), what it is after it, the
//! frames after it, and how the step ended. The instruction and where it reaches memory are those of the definitions:
//! the word at the program counter is found by the walk, and its effect is the one that the step carries out
//! (`specs/Ahead`). What changed is the difference of both sights (`specs/Changes`). `specs/Lines` puts a line together.
//! The line of a step of a cloaked program is made of what its context is before the step and after it, and of the last
//! answer that the step got (`specs/Contexts`).
//! The layer above may rely on this: each `put_..` call puts exactly the text that its definition says.
#![tactic(auto)]

mod ahead;
mod changes;
mod columns;
mod context_lines;
mod contexts;
mod effects;
mod endings;
mod lines;
mod memory;
mod reach;
mod sight;

pub use ahead::{HartAhead, ReachedMemory, look_ahead};
pub use columns::put_front;
pub use context_lines::put_context_step;
pub use contexts::{ContextAhead, ContextSight, LastAnswer, ReachedPage, context_sight};
pub use lines::{put_hart_step, put_item_line};
pub use memory::is_width;
pub use reach::{MemoryReach, reach_of};
pub use sight::{HartSight, sight_of};
