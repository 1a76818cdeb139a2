//! A node: a payload, and the node's links.
ghost use Rattle.std.specs.Prelude.{◌≡◌};
ghost use Rattle.chain_arena.specs.Links.{leads_to, with_link};
ghost use Rattle.chain_arena.specs.declared.node.Link.{Link};

use std::alloc::AllocError;

/// Which link of a node is meant: that of a chain of one of the four kinds, or that of the chain of free nodes.
#[derive(Clone, Copy)]
pub enum Link {
    Bucket,
    Target,
    First,
    Second,
    Free,
}

/// The neighbours of a node in one direction, by their numbers.
#[derive(Clone, Copy)]
pub struct Links {
    bucket: usize,
    target: usize,
    first: usize,
    second: usize,
    free: usize,
}

impl Links {
    /// Links that all lead to the node `i`.
    pub(crate) fn all(i: usize) -> Links
        ensures { (k : Link) → leads_to k result ≡ i }
    {
        Links {
            bucket: i,
            target: i,
            first: i,
            second: i,
            free: i,
        }
    }

    /// The node that a link leads to.
    pub(crate) fn get(&self, link: Link) -> usize
        ensures { result ≡ leads_to link self.now }
    {
        match link {
            Link::Bucket => self.bucket,
            Link::Target => self.target,
            Link::First => self.first,
            Link::Second => self.second,
            Link::Free => self.free,
        }
    }

    /// Lets a link lead to the node `i`.
    pub(crate) fn set(&mut self, link: Link, i: usize)
        ensures { self.new ≡ with_link link i self.old }
    {
        match link {
            Link::Bucket => self.bucket = i,
            Link::Target => self.target = i,
            Link::First => self.first = i,
            Link::Second => self.second = i,
            Link::Free => self.free = i,
        }
    }
}

/// A node of the arena.
pub struct Node<T> {
    pub(crate) used: bool,
    pub(crate) value: T,
    pub(crate) next: Links,
    pub(crate) previous: Links,
}

impl<T: Copy> Clone for Node<T> {
    ghost use Rattle.std.specs.Prelude.{⊤};

    ghost is_clone = { λ x y. y ≡ x };

    ghost is_infallible = { λ _. ⊤ };

    fn clone(&self) -> Result<Node<T>, AllocError> {
        Ok(*self)
    }
}

impl<T: Copy> Copy for Node<T> {}
