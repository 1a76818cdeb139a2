//! The plain step of a hart outside cloaked mode (RISC-V unprivileged and privileged manuals; `docs/MACHINE.md`
//! for the host calls): its timer, and then an interrupt that is due or one instruction, with atomic instructions,
//! traps, host calls, disk transfers and the resuming of a context. `leave` puts a hart back outside.
//!
//! The step asks a memory for what it reaches, in the order in which it reaches it, and never twice. The memory
//! is a `Ram`, which stands for a world of plain data; whatever world that is, hart, disk and answers are those
//! of the definition over it (`cloak_model`, `specs/KernelStep`). A page is lent, not copied, on its way to the
//! disk.
//!
//! Nothing here knows of cloaked pages: what a memory does before it tells a word is the memory's own. So are the
//! reservations of LR and SC, since the writes of others end them; `Reservations` is a list of them for a memory. The
//! step asks for one as it reserves and tests it, and ends it when the hart takes a trap or resumes a context.
#![tactic(auto)]

mod atomic;
mod disk;
mod ecall;
mod hart;
mod instruction;
mod plain_step;
mod ram;
mod reservations;

pub use cloak_model::Kernel;
pub use disk::Disk;
pub use hart::{Hart, leave};
pub use plain_step::{kernel_step, tick};
pub use ram::Ram;
pub use reservations::Reservations;
