//! Where bytes of a page are: in frames in which it was shown, and in blocks and frames to which these were moved.
ghost use Rattle.std.specs.Prelude.{◌≡◌, IfOk, false, replicate, slice_set};
ghost use Rattle.run_story.specs.Carrying as spec;
ghost use Rattle.run_story.specs.Carrying.{carrying_of};

use cloak_base::NoMemory;
use replayed_run::DiskCall;
use std::alloc::Global;

/// The frames and the blocks of the disk that have bytes of a page.
#[derive(Drop)]
pub struct Carriers {
    frames: Vec<bool>,
    blocks: Vec<bool>,
    /// The frame, besides those that are told of anyway, into which such bytes were last read.
    third: Option<usize>,
}

/// There are bytes of the page at this place.
fn has_bytes(places: &[bool], n: usize) -> bool
    ensures { result ≡ spec.has_bytes places.now n }
{
    if n < places.len() { places[n] } else { false }
}

/// Sets whether there are bytes of the page at a place.
fn set_bytes(places: &mut [bool], n: usize, now: bool)
    ensures { places.new ≡ slice_set places.old n now }
{
    if n < places.len() {
        places[n] = now;
    }
}

/// So many places without bytes of the page.
fn without_bytes(alloc: Global, count: usize) -> Result<Vec<bool>, NoMemory>
    ensures { IfOk result (λ places. places.items ≡ replicate count false) }
{
    Ok(vec![in alloc; false; count]?)
}

/// It is this frame.
fn is_frame(third: Option<usize>, frame: usize) -> bool
    ensures { result ≡ spec.is_frame third frame }
{
    match third {
        None => false,
        Some(third) => third == frame,
    }
}

impl Carriers {
    /// None has.
    pub fn new(alloc: Global, frames: usize, blocks: usize) -> Result<Carriers, NoMemory>
        ensures { IfOk result (λ carriers. carrying_of carriers ≡ spec.none_carried frames blocks) }
    {
        Ok(Carriers {
            frames: without_bytes(alloc, frames)?,
            blocks: without_bytes(alloc, blocks)?,
            third: None,
        })
    }

    /// The frame, besides those that are told of anyway, into which bytes of the page were last read.
    pub fn third(&self) -> Option<usize>
        ensures { result ≡ (carrying_of self.now).third }
    {
        self.third
    }

    /// A frame shows the page, or something else.
    pub fn show(&mut self, frame: usize, is_it: bool)
        ensures { carrying_of self.new ≡ spec.carrying_shown frame is_it (carrying_of self.old) }
    {
        set_bytes(self.frames.as_mut_slice(), frame, is_it);
    }

    /// The call moves bytes of the page, or goes to or from a frame that has some.
    pub fn has(&self, call: DiskCall) -> bool
        ensures { result ≡ spec.is_carried (carrying_of self.now) call }
    {
        if has_bytes(self.frames.as_slice(), call.frame) {
            return true;
        }
        has_bytes(self.blocks.as_slice(), call.block as usize)
    }

    /// The frame after a block was read into one, which is told of anyway or not.
    fn third_after(&self, known: bool, call: DiskCall) -> Option<usize>
        ensures { result ≡ spec.third_after known call (carrying_of self.now) }
    {
        if has_bytes(self.blocks.as_slice(), call.block as usize) && !known {
            return Some(call.frame);
        }
        if is_frame(self.third, call.frame) {
            return None;
        }
        self.third
    }

    /// A frame went to a block.
    fn note_write(&mut self, call: DiskCall)
        ensures { carrying_of self.new ≡ record (carrying_of self.old) {
          blocks = slice_set (carrying_of self.old).blocks call.block (spec.has_bytes (carrying_of self.old).frames call.frame);
        } }
    {
        let has = has_bytes(self.frames.as_slice(), call.frame);
        set_bytes(self.blocks.as_mut_slice(), call.block as usize, has);
    }

    /// A block came into a frame, which is told of anyway or not.
    fn note_read(&mut self, known: bool, call: DiskCall)
        ensures { carrying_of self.new ≡ record {
          frames = slice_set (carrying_of self.old).frames call.frame (spec.has_bytes (carrying_of self.old).blocks call.block);
          blocks = (carrying_of self.old).blocks;
          third = spec.third_after known call (carrying_of self.old);
        } }
    {
        self.third = self.third_after(known, call);
        let has = has_bytes(self.blocks.as_slice(), call.block as usize);
        set_bytes(self.frames.as_mut_slice(), call.frame, has);
    }

    /// A block was moved, to or from a frame that is told of anyway or not.
    pub fn note_move(&mut self, known: bool, call: DiskCall)
        ensures { carrying_of self.new ≡ spec.carrying_moved known call (carrying_of self.old) }
    {
        if call.is_write {
            self.note_write(call);
        } else {
            self.note_read(known, call);
        }
    }
}
