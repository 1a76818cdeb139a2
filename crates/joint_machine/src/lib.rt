//! The joint machine: harts, memory over the pager with the reservations of harts, programs, recorded page tables, and disk.
//!
//! `Joint::open` stands for the opening of a joint run, `open_stored` for that over the files of an earlier one, `turn` for
//! the next step of a hart, with the end of the domain of a violation that it met, `close` for the closing, and
//! `store_files` for what the files then hold (`cloak_model`, `specs/Opening`, `Beginning`, `Joint`, `Run`, `StoredRun`).
//! Items are emitted in their order as they come about. What the schedule is, how many steps were made, and what the console was
//! shown, is known above. After the opening no call takes memory.
//!
//! The layer above may rely on this: for every state of the joint machine that this one stands for
//! (`specs/Standing`), a call emits exactly the items of the definition and returns what it tells, and the machine then
//! stands for the state after it; for a step, unless two different pages with one digest were compared.
#![tactic(auto)]

mod closing;
mod drawing;
mod ended_step;
mod ending;
mod filing;
mod freezing;
mod going;
mod inside;
mod joint;
mod loading;
mod opened;
mod opening;
mod outside;
mod placing;
mod placings;
mod reading;
mod resuming;
mod starting;
mod stepping;
mod stored;
mod storing;
mod thaw_fault;
mod thawing;
mod turned;

pub use joint::Joint;
pub use opened::{OpenFault, StoredFault};
pub use placings::{Placing, placings_of};
pub use reading::JointParts;
pub use thaw_fault::ThawFault;
pub use turned::Turned;
