//! A file's items read back: the record of a run, or what is wrong with the file.
//!
//! The layer above may rely on this: a `Reader` returns the items of a record (`cloak_model`, `specs/Record`) one after
//! another and then none; of any other file the items before its first fault, and then that fault (`specs/RecordFault`),
//! as often as it is asked. A page is copied into the caller's room, and lent from there. It reads the file ahead,
//! into a window of its own, and takes no memory.
//!
//! No body changes `law_of_reading`. These changed definitions were tried on a copy, and with none of them did its
//! proof go through: no item may be returned anywhere, not only at the record's end; a fault may be one of another
//! place; a reader may stand after any items that are as long as what it has read.
#![tactic(auto)]

mod ahead;
mod fault;
mod fields;
mod judging;
mod law;
mod reader;
mod reading;
mod tags;

pub use fault::NextFault;
pub use law::law_of_reading;
pub use reader::Reader;
