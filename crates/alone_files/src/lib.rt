//! The cloaked files of an earlier run, for a program that runs alone.
//!
//! A store file has of each page that was shown the digest of its ciphertext, and not the page. The ciphertext is what the
//! kernel kept, and a kernel that keeps it as it is has it as a block of the disk. So a page is looked for there: the
//! first block with its digest, deciphered, is the page.
//!
//! The layer above may rely on this: `give_files` gives a program, before its first item, the files of a table of which
//! each page is found so (`specs/Found`), and tells whether all pages were found. One that is not found is as one that was
//! never shown. It fails if there is no room for a file, and for want of memory.
#![tactic(auto)]

mod found;
mod giving;

pub use giving::{FilesFault, give_files};
