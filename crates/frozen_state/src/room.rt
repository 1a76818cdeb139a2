//! Room for a frozen state.
ghost use Rattle.std.specs.Prelude.{◌≡◌, ◌≤◌, IfOk};
ghost use Rattle.frozen_state.specs.Room.{IsRoomFor};

use crate::frozen::{Frozen, FrozenDomain, FrozenFrame, FrozenHart, FrozenPage};
use cloak_base::NoMemory;
use cloak_model::{KernelImage, Sequence};
use std::alloc::Global;

/// The pages that a program can have: 16 resources of 1024 pages.
const PAGES: usize = 16384;

/// The lists of a frozen state as they are filled. They have room for every state of an image, so that each `push_reserved`
/// into them may be made. The disk is none of them: it is taken over.
#[derive(Drop)]
pub struct FrozenRoom {
    pub domains: Vec<FrozenDomain>,
    pub harts: Vec<FrozenHart>,
    pub frames: Vec<FrozenFrame>,
    pub recorded: Vec<FrozenPage>,
}

impl FrozenRoom {
    /// Empty lists, with room for every state of an image. The one call that takes memory.
    pub fn open(alloc: Global, kernel: &KernelImage, programs: u32) -> Result<FrozenRoom, NoMemory>
        requires { programs ≤ 4 }
        ensures { IfOk result (IsRoomFor kernel.now programs) }
    {
        Ok(FrozenRoom {
            domains: Vec::with_capacity(alloc, programs as usize)?,
            harts: Vec::with_capacity(alloc, kernel.harts as usize)?,
            frames: Vec::with_capacity(alloc, kernel.frames as usize)?,
            recorded: Vec::with_capacity(alloc, programs as usize * PAGES)?,
        })
    }

    /// The state of these lists.
    pub fn fill(self, steps: u32, draws: u64, refused: u64, disk: Vec<u8>) -> Frozen
        ensures { result ≡ record {
          steps = steps;
          draws = draws;
          refused = refused;
          domains = self.domains.items;
          harts = self.harts.items;
          disk = disk.items;
          frames = self.frames.items;
          recorded = self.recorded.items;
        } }
    {
        let FrozenRoom {
            domains,
            harts,
            frames,
            recorded,
        } = self;
        Frozen {
            steps,
            draws,
            refused,
            domains: Sequence::new(domains),
            harts: Sequence::new(harts),
            disk: Sequence::new(disk),
            frames: Sequence::new(frames),
            recorded: Sequence::new(recorded),
        }
    }
}
