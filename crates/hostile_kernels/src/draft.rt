//! What an image is written down as.

use cloak_base::Start;

/// Words that stand in RAM from an address on as a run begins.
#[derive(Clone, Copy)]
pub struct StandingWords {
    pub address: u32,
    pub words: &'static [u32],
}

/// A cloaked program by the words at the front of its pages. After them are zeros.
#[derive(Clone, Copy)]
pub struct Guest {
    /// The frame of its first page as the run begins.
    pub place: u32,
    pub start: Start,
    pub words: &'static [u32],
}

/// A guest image by the words that stand in it.
#[derive(Clone, Copy)]
pub struct Draft {
    /// Frames of RAM.
    pub frames: u32,
    pub harts: u32,
    /// The hart of each step, used cyclically.
    pub schedule: &'static [u8],
    /// Where each hart begins.
    pub entry: u32,
    pub segments: &'static [StandingWords],
    /// Blocks of the disk, which are zeros.
    pub blocks: u32,
    pub programs: &'static [Guest],
}
