//! The arena: a block of nodes, seen as payloads and chains.
ghost use Rattle.std.specs.Prelude.{◌≡◌, ◌+◌, ◌<◌, ◌≤◌, ℕ, length, slice_get, Some, None, IfOk, IfSome, IfNone};
ghost use Rattle.std.specs.List.{filter_map};
ghost use Rattle.chain_arena.specs.Arena.{empty_arena, chain_at, IsFree, IsInUse, Stands, hooked, unhooked};
ghost use Rattle.chain_arena.specs.Arena.{with_payload, next_behind, IsTidyArena};
ghost use Rattle.chain_arena.specs.Chains.{IsMemberOf};
ghost use Rattle.chain_arena.specs.Nodes.{next_of, previous_of, with_next, with_previous, with_content};
ghost use Rattle.chain_arena.specs.Nodes.{linked_in, taken_out, AreAlone};

use crate::block::Block;
use crate::chain::{Chain, Slot};
use crate::node::{Link, Links, Node};
use cloak_base::NoMemory;
use std::alloc::{AllocError, Global};
use std::marker::Model;

fn set_next<T: Copy>(block: &mut Block<Node<T>>, link: Link, i: usize, to: usize)
    requires { i < length block.old }
    ensures { block.new ≡ with_next link i to block.old }
{
    block.get_mut(i).next.set(link, to);
}

fn set_previous<T: Copy>(block: &mut Block<Node<T>>, link: Link, i: usize, to: usize)
    requires { i < length block.old }
    ensures { block.new ≡ with_previous link i to block.old }
{
    block.get_mut(i).previous.set(link, to);
}

fn set_content<T: Copy>(block: &mut Block<Node<T>>, i: usize, used: bool, value: T)
    requires { i < length block.old }
    ensures { block.new ≡ with_content i used value block.old }
{
    let node = block.get_mut(i);
    node.used = used;
    node.value = value;
}

/// Nodes that are their own neighbours.
fn lone_nodes<T: Copy>(alloc: Global, count: usize, empty: T) -> Result<Block<Node<T>>, AllocError>
    ensures { IfOk result (λ b. AreAlone b count) }
{
    let blank = Node {
        used: false,
        value: empty,
        next: Links::all(0),
        previous: Links::all(0),
    };
    let mut block = Block::open(alloc, count, blank)?;
    for i in 0..count {
        let alone = Node {
            used: false,
            value: empty,
            next: Links::all(i),
            previous: Links::all(i),
        };
        *block.get_mut(i) = alone;
    }
    Ok(block)
}

/// The slot that a link leads to, if it does not lead to a head.
fn slot_at(node: usize, slots: usize) -> Option<Slot>
    ensures below { node < slots → result ≡ Some node }
    ensures past { slots ≤ node → result ≡ None }
{
    if node < slots {
        Some(Slot { index: node })
    } else {
        None
    }
}

/// Puts the node `s` after the node `a`.
fn link_in<T: Copy>(block: &mut Block<Node<T>>, link: Link, s: usize, a: usize)
    requires { (s < length block.old) × (a < length block.old) × (next_of link block.old a < length block.old) }
    ensures { block.new ≡ linked_in link s a block.old }
{
    let next = block.get(a).next.get(link);
    set_next(block, link, s, next);
    set_previous(block, link, s, a);
    set_previous(block, link, next, s);
    set_next(block, link, a, s);
}

/// Takes the node `s` out from between its neighbours.
fn take_out<T: Copy>(block: &mut Block<Node<T>>, link: Link, s: usize)
    requires within { s < length block.old }
    requires next { next_of link block.old s < length block.old }
    requires previous { previous_of link block.old s < length block.old }
    ensures { block.new ≡ taken_out link s block.old }
{
    let node = block.get(s);
    let next = node.next.get(link);
    let previous = node.previous.get(link);
    set_next(block, link, previous, next);
    set_previous(block, link, next, previous);
}

/// An arena of slots that stand in chains of four kinds.
#[derive(Drop)]
pub struct ChainArena<T: Copy> {
    block: Block<Node<T>>,
    nodes: usize,
    heads: usize,
    used: usize,
}

impl<T: Copy> Model for ChainArena<T> {
    ghost use Rattle.chain_arena.specs.Arena.{Arena, arena_code};

    ghost Value = { Arena T };

    ghost coded = { arena_code T.code };

    ghost use Rattle.chain_arena.specs.Inside.{arena_of, IsArena};

    ghost view = { arena_of };

    ghost invariant = { IsArena };
}

impl<T: Copy> ChainArena<T> {
    /// An arena with this many slots, all free, and this many heads of each kind. `empty` is what lies in the nodes
    /// that hold nothing. This is the one call that takes memory, and it takes one block.
    pub fn open(alloc: Global, nodes: u32, heads: u32, empty: T) -> Result<ChainArena<T>, NoMemory>
        ensures empty { IfOk result (λ a. a ≡ empty_arena nodes heads) }
        ensures tidy { IfOk result (λ a. IsTidyArena a) }
    {
        let slots = nodes as usize;
        let lists = heads as usize;
        let at = slots + lists;
        let mut block = lone_nodes(alloc, at + 1, empty)?;
        for i in 0..slots {
            link_in(&mut block, Link::Free, i, at);
        }
        Ok(ChainArena {
            block,
            nodes: slots,
            heads: lists,
            used: 0,
        })
    }

    /// Takes a free slot for a payload. None if all are in use.
    pub fn take(&mut self, value: T) -> Option<Slot>
        ensures full { IfNone result ((s : ℕ) → IsFree self.old s → ⊥) }
        ensures unchanged { IfNone result (self.new ≡ self.old) }
        ensures free { IfSome result (λ s. IsFree self.old s) }
        ensures taken { IfSome result (λ s. self.new ≡ with_payload self.old s (Some value)) }
        ensures apart { IfSome result (λ s. (c : Chain) → Stands self.new c s → ⊥) }
        ensures tidy { IsTidyArena self.new }
    {
        let at = self.nodes + self.heads;
        let s = self.block.get(at).next.get(Link::Free);
        if s < self.nodes {
            take_out(&mut self.block, Link::Free, s);
            set_content(&mut self.block, s, true, value);
            self.used += 1;
            Some(Slot { index: s })
        } else {
            None
        }
    }

    /// Makes a slot free that stands in no chain.
    pub fn give_back(&mut self, s: Slot)
        requires in_use { IsInUse self.old s }
        requires apart { (c : Chain) → Stands self.old c s → ⊥ }
        ensures freed { self.new ≡ with_payload self.old s None }
        ensures tidy { IsTidyArena self.new }
    {
        let at = self.nodes + self.heads;
        let value = self.block.get(s.index).value;
        set_content(&mut self.block, s.index, false, value);
        link_in(&mut self.block, Link::Free, s.index, at);
        self.used -= 1;
    }

    /// Puts a slot first in the chain of a head.
    pub fn hook(&mut self, s: Slot, c: Chain, head: u32)
        requires in_use { IsInUse self.old s }
        requires within { head < self.old.heads }
        requires apart { Stands self.old c s → ⊥ }
        ensures hooked { self.new ≡ hooked self.old c head s }
        ensures tidy { IsTidyArena self.new }
    {
        let at = self.nodes + head as usize;
        link_in(&mut self.block, c.link(), s.index, at);
    }

    /// Takes a slot out of its chain of this kind, wherever in it the slot stands.
    pub fn unhook(&mut self, s: Slot, c: Chain)
        requires in_use { IsInUse self.old s }
        requires stands { Stands self.old c s }
        ensures unhooked { self.new ≡ unhooked self.old c s }
        ensures tidy { IsTidyArena self.new }
    {
        take_out(&mut self.block, c.link(), s.index);
    }

    /// The first slot in the chain of a head.
    pub fn first(&self, c: Chain, head: u32) -> Option<Slot>
        requires within { head < self.now.heads }
        ensures { result ≡ slice_get (chain_at self.now c head) 0 }
    {
        let at = self.nodes + head as usize;
        slot_at(self.block.get(at).next.get(c.link()), self.nodes)
    }

    /// The slot after this one in its chain of this kind.
    pub fn next(&self, s: Slot, c: Chain) -> Option<Slot>
        requires in_use { IsInUse self.now s }
        requires stands { Stands self.now c s }
        ensures { (h : ℕ) → IsMemberOf s (chain_at self.now c h) → result ≡ next_behind s (chain_at self.now c h) }
    {
        slot_at(self.block.get(s.index).next.get(c.link()), self.nodes)
    }

    /// How many slots are in use.
    #[inline(always)]
    pub fn used(&self) -> usize
        ensures { result ≡ length (filter_map (λ o. o) self.now.payloads) }
    {
        self.used
    }

    /// What a slot was taken for, where it lies.
    #[inline(always)]
    pub fn payload_ref(&self, s: Slot) -> &T
        requires in_use { IsInUse self.now s }
        ensures { slice_get self.now.payloads s ≡ Some (Some result.now) }
    {
        &self.block.get(s.index).value
    }

    /// What a slot was taken for.
    pub fn payload(&self, s: Slot) -> T
        requires in_use { IsInUse self.now s }
        ensures { slice_get self.now.payloads s ≡ Some (Some result) }
    {
        *self.payload_ref(s)
    }
}
