//! How an address space is copied with the context that asks for it, and how it ends with its last context (this
//! project's rules, `docs/MACHINE.md`).
//!
//! Contracts see the definition's values (`cloak_model`, `specs/Fork`). Pages are the side's: nothing here knows what
//! stands in them. The frames that are owed private pages are settled before any page is copied or dropped, and if that
//! is answered `Stopped`, or there is no room, nothing of the domain changes.
#![tactic(auto)]

mod ending;
mod forking;
mod pages;
mod slots;

pub use ending::end_context;
pub use forking::fork_space;
