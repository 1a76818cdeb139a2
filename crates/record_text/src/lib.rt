//! A record as text: a line for each step with its items, in the words of the privileged manual.
//!
//! The layer above may rely on this: `show_command` shows each item that is chosen once, in the order of the record
//! (`specs/Lines`, `specs/Items`), or how many are chosen of each kind (`specs/Counting`), up to the record's end or its
//! first fault, for which it returns what `view` returns. No file is changed.
#![tactic(auto)]

mod causes;
mod command;
mod counts;
mod items;
mod kinds;
mod lines;
mod place;
mod selection;
mod showing;

pub use causes::{cause_name, put_word};
pub use command::{show_command, status_of};
pub use counts::KindCounts;
pub use items::put_item;
pub use kinds::Kinds;
pub use place::{RecordPlace, place_marked};
pub use selection::Selection;
pub use showing::count_items;
