//! What is kept of a run for its picture.
//!
//! `Notes` is what is known of frames, blocks, pages, harts and the console as the items of a record are taken: the layer above tells
//! it what each item and each step of the kernel did. A row keeps stays and marks by columns, so what is kept depends on
//! the picture's width and not on the run's length. `Plan` says how many steps there are, and which frames and blocks have rows:
//! a record is noted twice, first for the plan, then for the picture.
//!
//! The layer above may rely on this: after the opening no memory is taken. That what is kept is what the run did is tested,
//! and no clause says it.
#![tactic(auto)]

mod columns;
mod console;
mod look;
mod marks;
mod moves;
mod notes;
mod plan;
mod rows;
mod stays;
mod turns;

pub use columns::steps_of;
pub use console::{Printed, PrintedByte};
pub use look::{CipherId, Look, Sight};
pub use marks::{Mark, MarkKind, Marks};
pub use moves::{Move, Moves};
pub use notes::{Found, HartRow, Notes};
pub use plan::{Plan, Weight};
pub use rows::{Row, Rows};
pub use stays::{Stay, Stays};
pub use turns::{Turn, Turns};
