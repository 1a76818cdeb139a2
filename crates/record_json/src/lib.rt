//! A record as objects of JSON: one for each item, on a line of its own.
//!
//! `specs/Objects` says which object an item is, `specs/JsonText` what is shown of a record, over `serde_json`'s own
//! definitions of values and of their texts. The layer above may rely on this: `show_json_command` shows the object of
//! each item that is chosen once, in the order of the record, or one object with how many are chosen of each kind, up to
//! the record's end or its first fault, for which it returns what `show_command` of `record_text` returns. No file is
//! changed. Each line is JSON (`law_of_objects`, and those beside it).
//!
//! The pieces of a line go straight to the output: nothing is allocated, so no item is shown in part for want of memory.
//!
//! No body changes `law_of_objects`. These changed definitions were tried on a copy, and with none of them did its
//! proof go through: a line has no line feed; a comma stands after its object; its object does not say where the item
//! stands.
#![tactic(auto)]

mod command;
mod counting;
mod ending;
mod fields;
mod law;
mod members;
mod objects;
mod showing;

pub use command::show_json_command;
pub use law::law_of_objects;
