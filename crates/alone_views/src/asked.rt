//! What a step of a program asked for, in order.

use cloak_base::{Kind, PageId};

/// A question of a step that takes an answer for an access or a value.
#[derive(Clone, Copy, Debug, PartialEq, Eq)]
pub enum AskedAccess {
    /// None was asked.
    Nothing,
    /// An access to a cloaked address, where this page lies.
    Page {
        page: PageId,
        address: u32,
        kind: Kind,
    },
    /// An access to an address that is not cloaked.
    Uncloaked {
        address: u32,
    },
}
