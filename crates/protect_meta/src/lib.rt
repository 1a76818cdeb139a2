//! What must be remembered of each cloaked page that was shown: the IV that it was sealed with, and the digest of the
//! ciphertext. It is kept in a map from pages, which serves for whatever else is known of a page.
//!
//! A map has room for every page of every domain: 16 resources of 1024 pages each. Its memory is taken once at the
//! opening, and a look-up costs the same whatever is set.
//!
//! Between runs a table of files keeps the same of the pages of cloaked files. It has room for 64 files with 4096 pages
//! in all, and its memory, too, is taken once at the opening.
//!
//! The layer above may rely on this: to contracts a map is a finite map from pages, `at_page`, and a table is the list
//! of its files, and each call says what stands at every page afterwards. Whether metadata is owed, old or right is no
//! matter of this crate.
#![tactic(auto)]

mod file_table;
mod meta;
mod page_map;

pub use file_table::FileTable;
pub use meta::MetaTable;
pub use page_map::PageMap;
