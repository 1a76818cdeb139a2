//! The machines that run alone, each on the items of a record, one after another, from a guest image.
//!
//! `KernelAlone` is the kernel on the items that it could see; inward items are ignored. `DomainAlone` is one program on
//! the markers of steps and its own inward items. Each is the fold of the definitions (`cloak_model`, `specs/KernelAlone`
//! and `specs/DomainAlone`) over any list of items, even over one that no run wrote: for every state that the machine
//! stood for, `take` tells whether the item fits or the step at which one did not, and the machine then stands for the
//! state after the item; the kernel's `take` also emits the byte that its console gains. Once an item was unfit nothing
//! changes. `harts`, `frames`, `step`, `stage`, `ending`, `context` and `asked` tell what a machine is at a moment (no clause
//! says what `asked` tells). `report` writes the machine's lines of the report. Before the first item `add_file` and `set_page` give a program the files
//! of an earlier run. After the opening no call takes memory.
//!
//! `FlatRam` is the memory of a kernel alone: frames in which nothing is settled, and the reservations of its harts. The plain
//! step and the walk are made over it as over any `Ram`.
#![tactic(auto)]

mod asked;
mod domain;
mod domain_files;
mod domain_parts;
mod kernel;
mod kernel_ciphers;
mod kernel_leaves;
mod kernel_parts;
mod kernel_puts;
mod kernel_ram;
mod kernel_showing;
mod kernel_stage;
mod kernel_starting;
mod kernel_steps;
mod side;
mod unfit;

pub use asked::AskedAccess;
pub use domain::DomainAlone;
pub use kernel::KernelAlone;
pub use kernel_ram::FlatRam;
pub use kernel_stage::KernelStage;
pub use unfit::Unfit;
