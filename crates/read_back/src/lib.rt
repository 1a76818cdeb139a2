//! The commands `view` and `solo`: what the kernel alone, or one program alone, makes of a record.
//!
//! The layer above may rely on this: the items of a record go one after another to a machine that runs alone, up to the
//! first that does not fit or the first fault of the file, and what the machine then is, or why reading ended, is shown
//! (`specs/Reading`). No file is changed. `for_each_item` gives each item of a record to a taker, and `next_item` is one
//! step of it: the tools that show records read them so, too. `open_over` opens a program with the cloaked files of an earlier
//! run (`specs/Over`), and `solo_over_command` is `solo` of such a program (`specs/AnsweringOver`).
#![tactic(auto)]

mod ending;
mod items;
mod over;
mod screen;
mod solo;
mod solo_over;
mod view;

pub use ending::{Ending, show_fault, status};
pub use items::{TakeItems, for_each_item, next_item};
pub use over::{ProgramOver, open_over};
pub use solo::solo_command;
pub use solo_over::{show_missing, solo_over_command};
pub use view::view_command;
