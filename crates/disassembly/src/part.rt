//! Parts of an image that have words.
ghost use Rattle.std.specs.Prelude.{◌≡◌, option_map, slice_get};
ghost use Rattle.disassembly.specs.ImageParts as spec;

use crate::fault::WordsFault;
use cloak_model::{Bundle, Program, Segment};
use command_parts::Refusal;

/// A part of an image, by its number from 0 on.
#[derive(Clone, Copy, Debug, PartialEq, Eq)]
pub enum ImagePart {
    Segment(u32),
    Program(u32),
}

/// Why there is no text of a part.
#[derive(Clone, Copy, Debug, PartialEq, Eq)]
pub enum NoText {
    /// The file was not read, or is no image.
    Refused(Refusal),
    /// The image has no part of this number.
    NoPart,
    /// Its bytes are no words that are shown.
    Faulty(WordsFault),
}

/// Bytes, and the address of the first.
#[derive(Clone, Copy)]
pub struct PlacedBytes<'a> {
    pub base: u32,
    pub bytes: &'a [u8],
}

/// The segment's bytes.
fn placed_segment(s: &Segment) -> PlacedBytes<'_>
    ensures { spec.placed_bytes result ≡ spec.placed_segment s.now }
{
    PlacedBytes {
        base: s.address,
        bytes: s.bytes.as_slice(),
    }
}

/// The program's bytes.
fn placed_program(p: &Program) -> PlacedBytes<'_>
    ensures { spec.placed_bytes result ≡ spec.placed_program p.now }
{
    PlacedBytes {
        base: p.start.base,
        bytes: p.bytes.as_slice(),
    }
}

/// The bytes of a segment, if there is one of this number.
fn numbered_segment(segments: &[Segment], number: u32) -> Option<PlacedBytes<'_>>
    ensures { option_map spec.placed_bytes result ≡ option_map spec.placed_segment (slice_get segments.now number) }
{
    match segments.get(number as usize) {
        Some(segment) => Some(placed_segment(segment)),
        None => None,
    }
}

/// The bytes of a program, if there is one of this number.
fn numbered_program(programs: &[Program], number: u32) -> Option<PlacedBytes<'_>>
    ensures { option_map spec.placed_bytes result ≡ option_map spec.placed_program (slice_get programs.now number) }
{
    match programs.get(number as usize) {
        Some(program) => Some(placed_program(program)),
        None => None,
    }
}

/// The bytes of a part, if the image has one of its number.
pub fn placed_part(bundle: &Bundle, part: ImagePart) -> Option<PlacedBytes<'_>>
    ensures { option_map spec.placed_bytes result ≡ spec.placed_part bundle.now part }
{
    match part {
        ImagePart::Segment(number) => {
            numbered_segment(bundle.kernel.segments.as_slice(), number)
        }
        ImagePart::Program(number) => numbered_program(bundle.programs.as_slice(), number),
    }
}
