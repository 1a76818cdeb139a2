//! The file of a frozen state (`frozen_state`, `specs/FrozenState`): it is written here, and read.
//!
//! The layer above may rely on this: `write_frozen` makes a file exactly that of a state, by one piece after another,
//! and never has the file in memory; it fails only if writing to the shelf failed. `read_frozen` returns exactly the
//! first test that a file fails, and otherwise the state of the image that it spells. `law_of_frozen_states` says that a
//! file spells one at most, and has no fault exactly if it spells one. What a state says of cloaked pages and of
//! programs is ciphertext, and no key is here.
//!
//! No body changes `law_of_frozen_states`. These changed definitions were tried on a copy, and with none of them did
//! its proof go through: register 0 may hold any word; a program counter may be any number; a vector may have any
//! length.
#![tactic(auto)]

mod pen;
mod reading;
mod reading_law;
mod spelling;
mod writing;

pub use reading::read_frozen;
pub use reading_law::law_of_frozen_states;
pub use writing::write_frozen;
