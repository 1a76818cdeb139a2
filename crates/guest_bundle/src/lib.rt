//! The bundle, versions 1 and 2: the file of a guest image, read and written exactly.
//!
//! `read` accepts the files that a bundle in the grammar spells (`cloak_model`, `specs/Bundle.antt`), in version 1 or
//! 2, and no others, and returns that bundle. In version 2 each program has the number of its key; in version 1 every
//! program has key 0. A file that no bundle spells is refused with its first fault in reading order. `write` returns
//! the file of a bundle in version 2, which must not be above 67,108,864 bytes; `file_length` tells its length before
//! it is made.
//!
//! Each field is tested as soon as it is read whole, and a fault carries the offset of the field's first byte.
//!
//! The law on versions (`law_of_versions`): both versions of a bundle have the same joint run.
//!
//! No body changes the law. These changed definitions were tried on a copy, and with none of them did its proof go
//! through: 2 is no version; all keys must be 0 in version 2, and not in version 1; in the file the stack pointer of a
//! program stands once more in the place of its key, or the count of frames in the place of that of harts.
#![tactic(auto)]

mod fields;
mod header;
mod law;
mod moving;
mod parts;
mod reading;
mod writing;

pub use cloak_model::BundleFault;
pub use law::law_of_versions;
pub use reading::read;
pub use writing::{file_length, write};
