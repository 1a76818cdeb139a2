//! What is drawn: how many steps there are, and which frames and blocks have rows.
ghost use Rattle.std.specs.Prelude.{◌≡◌, ◌≤◌, vec_len, IfOk};
ghost use Rattle.run_notes.specs.Planning as spec;
ghost use Rattle.run_notes.specs.Planning.{IsPlan};

use cloak_base::NoMemory;
use std::alloc::Global;

/// The most frames that have a row of their own, and the most blocks.
const FRAMES: usize = 24;

const BLOCKS: usize = 6;

/// There is much to tell of a frame with more marks.
const BUSY: u32 = 30;

/// The most frames that have rows, if there is much to tell of more.
const BUSY_FRAMES: usize = 12;

/// How much there is to tell of a frame or a block.
#[derive(Clone, Copy)]
pub struct Weight {
    pub marks: u32,
    /// It has a row at all.
    pub is_shown: bool,
}

impl Weight {
    /// Nothing to tell yet.
    pub fn none() -> Weight {
        Weight {
            marks: 0,
            is_shown: false,
        }
    }

    /// One mark more.
    pub fn add(&mut self) {
        self.marks = self.marks.saturating_add(1);
    }
}

/// What is drawn.
#[derive(Drop)]
pub struct Plan {
    /// How many steps there are.
    pub steps: u32,
    /// The end of the scale: one more, if the run was closed.
    pub end: u32,
    /// By rising number.
    pub frames: Vec<u32>,
    /// How many more have something to tell.
    pub more_frames: u32,
    pub blocks: Vec<u32>,
    pub more_blocks: u32,
}

/// The number of the heaviest that is not chosen yet.
fn heaviest(weights: &[Weight], chosen: &[u32]) -> Option<u32> {
    let mut best: Option<(u32, u32)> = None;
    for (number, weight) in weights.iter().enumerate() {
        let number = number.min(u32::MAX as usize) as u32;
        if !weight.is_shown || chosen.contains(&number) {
            continue;
        }
        let is_better = match best {
            None => true,
            Some((_, marks)) => weight.marks > marks,
        };
        if is_better {
            best = Some((number, weight.marks));
        }
    }
    let (number, _) = best?;
    Some(number)
}

/// The heaviest, by rising number.
fn chosen(alloc: Global, weights: &[Weight], most: usize) -> Result<Vec<u32>, NoMemory>
    ensures { IfOk result (λ chosen. vec_len chosen ≤ most) }
{
    let mut chosen = Vec::with_capacity(alloc, most)?;
    for _round in 0..most {
        match heaviest(weights, chosen.as_slice()) {
            Some(number) => chosen.push(number)?,
            None => break,
        }
    }
    chosen.sort_unstable();
    Ok(chosen)
}

/// How many have something to tell.
fn told(weights: &[Weight]) -> u32
    ensures { result ≡ spec.told weights.now }
{
    let mut count = 0usize;
    for weight in weights {
        if weight.is_shown {
            count += 1;
        }
    }
    count.min(u32::MAX as usize) as u32
}

/// The most frames that have rows.
fn most_frames(weights: &[Weight]) -> usize
    ensures { result ≡ spec.most_frames weights.now }
{
    let mut busy = 0usize;
    for weight in weights {
        if BUSY < weight.marks {
            busy += 1;
        }
    }
    if BUSY_FRAMES < busy {
        BUSY_FRAMES
    } else {
        FRAMES
    }
}

impl Plan {
    /// Nothing is drawn yet.
    pub fn none(alloc: Global) -> Plan {
        Plan {
            steps: 0,
            end: 1,
            frames: Vec::new(alloc),
            more_frames: 0,
            blocks: Vec::new(alloc),
            more_blocks: 0,
        }
    }

    /// What is drawn of a run with so many steps.
    pub fn of(
        alloc: Global,
        steps: u32,
        end: u32,
        frames: &[Weight],
        blocks: &[Weight],
    ) -> Result<Plan, NoMemory>
        ensures { IfOk result (IsPlan steps end frames.now blocks.now) }
    {
        let most = most_frames(frames);
        let chosen_frames = chosen(alloc, frames, most)?;
        let chosen_blocks = chosen(alloc, blocks, BLOCKS)?;
        let more_frames = told(frames).saturating_sub(most as u32);
        let more_blocks = told(blocks).saturating_sub(BLOCKS as u32);
        Ok(Plan {
            steps,
            end: end.max(1),
            frames: chosen_frames,
            more_frames,
            blocks: chosen_blocks,
            more_blocks,
        })
    }
}
