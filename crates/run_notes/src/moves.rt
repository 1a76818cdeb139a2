//! What goes to the disk, and what comes from there.
ghost use Rattle.std.specs.Prelude.{◌≡◌, ◌≤◌, [], IfOk, vec_capacity};

use cloak_base::NoMemory;
use std::alloc::Global;

/// A frame that goes to the disk, or a block that comes into a frame.
#[derive(Clone, Copy)]
pub struct Move {
    pub step: u32,
    pub frame: u32,
    pub block: u32,
    pub is_write: bool,
}

/// The most moves that are drawn as lines.
const MOST: usize = 24;

/// The first moves, and how many there are.
#[derive(Drop)]
pub struct Moves {
    kept: Vec<Move>,
    all: u32,
    ghost room: { 24 ≤ vec_capacity kept },
}

impl Moves {
    ghost use Rattle.run_notes.specs.Moving as spec;
    ghost use Rattle.run_notes.specs.Moving.{moves_now};

    /// None yet.
    pub fn open(alloc: Global) -> Result<Moves, NoMemory>
        ensures { IfOk result (λ m. moves_now m ≡ record { kept = []; all = 0 }) }
    {
        Ok(Moves {
            kept: Vec::with_capacity(alloc, MOST)?,
            all: 0,
        })
    }

    /// The first ones.
    pub fn kept(&self) -> &[Move]
        ensures { result.now ≡ (moves_now self.now).kept }
    {
        self.kept.as_slice()
    }

    /// How many there are.
    pub fn all(&self) -> u32
        ensures { result ≡ (moves_now self.now).all }
    {
        self.all
    }

    /// One more.
    pub fn add(&mut self, moved: Move)
        ensures { moves_now self.new ≡ spec.added (moves_now self.old) moved }
    {
        if self.kept.len() < MOST {
            let _ = self.kept.push(moved);
        }
        self.all = self.all.saturating_add(1);
    }
}
