ghost use Rattle.std.specs.Prelude.{◌≡◌, ◌<◌, ◌*◌, ◌/◌, length, nat_lt, IfOk};
ghost use Rattle.cloak_model.specs.HostCalls.{block_at, with_block};

use cloak_base::NoMemory;
use std::alloc::Global;
use std::marker::Model;

/// A disk of blocks of 4096 bytes. Contracts see the bytes of its blocks, in order.
#[derive(Drop)]
pub struct Disk {
    blocks: Vec<u8>,
}

impl Model for Disk {
    ghost use Rattle.std.specs.Prelude.{List, ℕ};

    ghost Value = { List ℕ };

    ghost view = { λ d. d.blocks.items };
}

impl Disk {
    /// A disk of a copy of these bytes, as `of` makes it.
    pub fn open(alloc: Global, blocks: &[u8]) -> Result<Disk, NoMemory>
        ensures { IfOk result (λ d. d ≡ blocks.now) }
    {
        Ok(Disk::of(Vec::from_slice(alloc, blocks)?))
    }

    /// A disk in the memory of these bytes. The bytes after the last whole block are kept, and belong to no block.
    pub fn of(blocks: Vec<u8>) -> Disk
        ensures { result ≡ blocks.items }
    {
        Disk { blocks }
    }

    /// The bytes of all blocks, in order.
    pub fn bytes(&self) -> &[u8]
        ensures { result.now ≡ self.now }
    {
        self.blocks.as_slice()
    }

    /// Gives up the bytes of all blocks, in order.
    pub fn into_bytes(self) -> Vec<u8>
        ensures { result.items ≡ self }
    {
        let Disk { blocks } = self;
        blocks
    }

    /// Copies the bytes of all blocks into as many.
    pub fn copy_to(&self, into: &mut [u8])
        requires { length into.old ≡ length self.now }
        ensures { into.new ≡ self.now }
    {
        into.copy_from_slice(self.blocks.as_slice());
    }

    /// There is a block of this number.
    pub(crate) fn has_block(&self, block: u32) -> bool
        ensures { result ≡ nat_lt block (length self.now / 4096) }
    {
        (block as usize) < self.blocks.len() / 4096
    }

    /// The bytes of a block.
    pub(crate) fn block(&self, block: u32) -> &[u8; 4096]
        requires { block < length self.now / 4096 }
        ensures { result.now ≡ block_at self.now block }
    {
        let at = block as usize * 4096;
        let Ok(bytes) = <&[u8; 4096]>::try_from(&self.blocks[at..at + 4096]) else {
            unreachable!();
        };
        bytes
    }

    /// Replaces the bytes of a block.
    pub(crate) fn set_block(&mut self, block: u32, bytes: &[u8; 4096])
        requires { block < length self.old / 4096 }
        ensures { self.new ≡ with_block self.old block bytes.now }
    {
        let at = block as usize * 4096;
        self.blocks[at..at + 4096].copy_from_slice(bytes);
    }
}
