//! An arena: slots for payloads, each of which may stand in a chain of each of four kinds.
//!
//! An arena is opened with its slots and with the heads of its chains, and its one block is all the memory that it
//! takes. A slot is free or in use. One in use can be put first in a chain, and taken out of it wherever it stands,
//! without a walk along the chain: each node of the block has a link forward and a link back for each kind, which are
//! numbers of nodes. The heads are nodes too, so an empty chain is a head that leads to itself.
//!
//! The layer above may rely on this: to contracts an arena is the payload of each slot and a list of slots for each
//! head (`specs/Arena`). `hook` and `unhook` change one list of one kind and leave everything else; a slot that is
//! given back can be taken again. Which free slot `take` returns is not known above, nor anything of nodes and links.
//! The block lies behind a raw pointer, and `cells.rt` is the one file that follows it.
#![tactic(auto)]

mod arena;
mod block;
mod cells;
mod chain;
mod node;

pub use arena::ChainArena;
#[doc(hidden)]
pub use block::Block;
#[doc(hidden)]
pub use cells::{Base, BlockRight, Cells};
pub use chain::{Chain, Slot};
#[doc(hidden)]
pub use node::{Link, Links, Node};
