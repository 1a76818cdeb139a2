//! Store files: what is known of the cloaked files of a run, sealed for the next one by a code (HMAC-SHA-256,
//! FIPS 198-1 (2008)) that needs a key, and with a counter, so that an older file is not taken for the newest.
//!
//! `read_store` returns exactly the first test that a file fails, and otherwise the table that it spells; `write_store`
//! spells a table; `law_of_stores` says that a file spells at most one, and has no fault exactly if it spells one. No
//! call takes memory.
//!
//! The layer above may rely on this: which files and pages a table has is all that these bytes say. Whether a page's
//! bytes fit what the table knows of them is seen as the page is offered.
//!
//! No body changes `law_of_stores`. These changed definitions were tried on a copy, and with none of them did its
//! proof go through: a file of 201,524 bytes is too long; the number of a file may be 2^32; two files of a program
//! may have one number; the counter is not compared.
#![tactic(auto)]

mod cursor;
mod files;
mod law;
mod reading;
mod seal;
mod writing;

pub use cloak_model::StoreFault;
pub use law::law_of_stores;
pub use reading::read_store;
pub use seal::hmac;
pub use writing::{LONGEST_STORE, write_store};
