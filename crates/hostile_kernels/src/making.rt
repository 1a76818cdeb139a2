ghost use Rattle.std.specs.Prelude.{◌≡◌, ◌≤◌, ◌<◌, IfOk, length};
ghost use Rattle.cloak_base.specs.Constants.{largest_bundle};
ghost use Rattle.cloak_model.specs.Bundle.{IsInGrammar, bundle_bytes};
ghost use Rattle.hostile_kernels.specs.Parts.{segment_of, guest_of, image_of};
ghost use Rattle.hostile_kernels.specs.Images.{hostile_image};

use crate::draft::{Draft, Guest, StandingWords};
use crate::images::{IMAGES, draft};
use cloak_base::NoMemory;
use cloak_model::{Bundle, KernelImage, Program, Segment, Sequence};
use guest_kernel::put_words;
use std::alloc::Global;

/// Words in RAM.
fn segment(alloc: Global, words: &StandingWords) -> Result<Segment, NoMemory>
    ensures { IfOk result (λ s. s ≡ segment_of words.now) }
{
    let mut bytes = Vec::new(alloc);
    put_words(&mut bytes, words.words)?;
    Ok(Segment {
        address: words.address,
        bytes: Sequence::new(bytes),
    })
}

/// A program under key 0, its pages filled up with zeros.
fn program(alloc: Global, guest: &Guest) -> Result<Program, NoMemory>
    ensures { IfOk result (λ p. p ≡ guest_of guest.now) }
{
    let mut bytes = Vec::new(alloc);
    put_words(&mut bytes, guest.words)?;
    bytes.resize(4096 * guest.start.pages as usize, 0)?;
    Ok(Program {
        place: guest.place,
        start: guest.start,
        key: 0,
        bytes: Sequence::new(bytes),
    })
}

/// The image of a draft.
fn image(alloc: Global, draft: &Draft) -> Result<Bundle, NoMemory>
    ensures { IfOk result (λ b. b ≡ image_of draft.now) }
{
    let mut segments = Vec::new(alloc);
    for words in draft.segments {
        segments.push(segment(alloc, words)?)?;
    }
    let mut programs = Vec::new(alloc);
    for guest in draft.programs {
        programs.push(program(alloc, guest)?)?;
    }
    let kernel = KernelImage {
        frames: draft.frames,
        harts: draft.harts,
        schedule: Sequence::new(Vec::from_slice(alloc, draft.schedule)?),
        entry: draft.entry,
        segments: Sequence::new(segments),
        disk: Sequence::new(vec![in alloc; 0; 4096 * draft.blocks as usize]?),
    };
    Ok(Bundle {
        kernel,
        programs: Sequence::new(programs),
    })
}

/// The hostile image of a number. Its file of version 2 is not too large.
pub fn hostile(alloc: Global, number: u32) -> Result<Bundle, NoMemory>
    requires { number < IMAGES }
    ensures value { IfOk result (λ b. b ≡ hostile_image number) }
    ensures in_grammar { IfOk result IsInGrammar }
    ensures fits { IfOk result (λ b. length (bundle_bytes 2 b) ≤ largest_bundle) }
{
    image(alloc, &draft(number))
}
