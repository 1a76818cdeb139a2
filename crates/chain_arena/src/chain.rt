//! What callers name: slots, and the kinds of chains.
ghost use Rattle.std.specs.Prelude.{◌≡◌};
ghost use Rattle.chain_arena.specs.Links.{link_of};

use crate::node::Link;
use std::marker::Model;

/// A place of the arena. Contracts see its number.
#[derive(Clone, Copy)]
pub struct Slot {
    pub(crate) index: usize,
}

impl Model for Slot {
    ghost use Rattle.std.specs.Prelude.{ℕ};

    ghost Value = { ℕ };

    ghost view = { λ s. s.index };

    ghost inverse = { λ n. record { index = n } };
}

/// The four kinds of chains. A slot stands in at most one chain of each kind.
#[derive(Clone, Copy)]
pub enum Chain {
    Bucket,
    Target,
    First,
    Second,
}

impl Chain {
    /// The link that makes the chains of this kind.
    pub(crate) fn link(self) -> Link
        ensures { result ≡ link_of self }
    {
        match self {
            Chain::Bucket => Link::Bucket,
            Chain::Target => Link::Target,
            Chain::First => Link::First,
            Chain::Second => Link::Second,
        }
    }
}
