//! The shadow page table of each regime: translations that are known, so that a hit needs no walk.
//!
//! A regime is who translates: a hart outside with its `satp`, mode, SUM and MXR, or a hart inside with its `satp`, SUM,
//! MXR and the address space of its context. A live entry is the known translation of a page of a regime for a kind of
//! access. At most 1024 entries are live.
//!
//! The layer above may rely on this: `Shadows` is a table of entries, in no order that is told, with three counts
//! (`shadow_fold`, `specs/Table`). Each call says what the table is afterwards. Whether an entry agrees with memory is
//! no matter of this crate.
#![tactic(auto)]

mod entry;
mod places;
mod recent;
mod shadows;

pub use entry::is_table;
pub use shadow_fold::{Entry, Regime, ShadowCounts};
pub use shadows::Shadows;
