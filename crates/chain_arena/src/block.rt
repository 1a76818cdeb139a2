//! A block of items that are all there, seen as their list.
ghost use Rattle.std.specs.Prelude.{◌≡◌, ◌<◌, length, replicate, slice_get, slice_set, Some, IfOk};

use crate::cells::{Base, BlockRight, Cells};
use std::alloc::{AllocError, Global};
use std::marker::Model;
use std_alloc::room::may_hold;

/// A block of items that are all there.
pub struct Block<N: Copy> {
    base: Base<N>,
    count: usize,
    cells: Cells<N>,
    deed: BlockRight<N, Global>,
    alloc: Global,
}

impl<N: Copy> Model for Block<N> {
    ghost use Rattle.std.specs.Prelude.{List};

    ghost Value = { List N };

    ghost use Rattle.chain_arena.specs.Blocks.{IsBlock};

    ghost view = { λ b. b.cells.values };

    ghost invariant = { IsBlock };
}

impl<N: Copy> Block<N> {
    ghost use Rattle.chain_arena.specs.BlockLends.{LendsItem};
    ghost use Rattle.std.specs.Borrow.{sem};

    pub(crate) fn open(alloc: Global, count: usize, fill: N) -> Result<Self, AllocError>
        ensures { IfOk result (λ b. b ≡ replicate count fill) }
    {
        if !may_hold::<N>(count) {
            return Err(AllocError);
        }
        let (base, mut cells, deed) = Cells::allocate(&alloc, count)?;
        for i in 0..count {
            cells.write(base, i, fill);
        }
        Ok(Block {
            base,
            count,
            cells,
            deed,
            alloc,
        })
    }

    pub(crate) fn get(&self, i: usize) -> &N
        requires { i < length self.now }
        ensures { slice_get self.now i ≡ Some result.now }
    {
        self.cells.get(self.base, i)
    }

    pub(crate) fn get_mut(&mut self, i: usize) -> &mut N
        requires { i < length self.old }
        ensures* writes_back { sem 𝓛 (LendsItem N.row self.entry i result) }
        ensures value { slice_get self.old i ≡ Some result.now }
    {
        self.cells.get_mut(self.base, i)
    }
}

impl<N: Copy> Drop for Block<N> {
    fn drop(self) {
        let Block {
            base,
            count,
            cells,
            deed,
            alloc,
        } = self;
        cells.deallocate(&alloc, base, count, deed);
    }
}
