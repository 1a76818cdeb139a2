//! The command `disasm` of a part of an image.
ghost use Rattle.std.specs.Prelude.{◌≡◌, Ok};
ghost use Rattle.io_traits.specs.Told.{SameFiles};
ghost use Rattle.command_parts.specs.Outside.{outside, output};
ghost use Rattle.kernel_report.specs.Putting.{PutsMore, putting};
ghost use Rattle.disassembly.specs.Disassembling.{ShowsText};
ghost use Rattle.disassembly.specs.ImageParts as spec;

use crate::disassembling::disassembled;
use crate::fault::WordsFault;
use crate::part::{ImagePart, NoText, placed_part};
use cloak_model::Bundle;
use command_parts::{Refusal, Status, read_bundle, refuse};
use io_traits::{Shelf, Sink};
use kernel_report::lines::{SoFar, decimal, text};
use std::alloc::Global;

/// Why there is no text, of a fault of the words.
fn reason(fault: WordsFault) -> NoText
    ensures { result ≡ spec.reason_of_fault fault }
{
    match fault {
        WordsFault::NoMemory => NoText::Refused(Refusal::NoMemory),
        _ => NoText::Faulty(fault),
    }
}

/// The text of the words of a part.
fn text_of_part(alloc: Global, bundle: &Bundle, part: ImagePart) -> Result<Vec<u8>, NoText>
    ensures { spec.MakesPart bundle.now part result }
{
    let Some(placed) = placed_part(bundle, part) else {
        return Err(NoText::NoPart);
    };
    match disassembled(alloc, placed.base, placed.bytes) {
        Ok(text) => Ok(text),
        Err(fault) => Err(reason(fault)),
    }
}

/// The text of the words of a part of the image in a file.
fn read_part<S: Shelf>(
    alloc: Global,
    part: ImagePart,
    name: &str,
    shelf: &mut S,
) -> Result<Vec<u8>, NoText>
    requires { S.is_settled shelf.old }
    ensures reads { spec.ReadsPart (S.held shelf.old name.now) part
        (S.reading_faults shelf.old) (S.reading_faults shelf.new) result }
    ensures files { SameFiles (S.held shelf.old) (S.held shelf.new) }
    ensures writing { S.writing_faults shelf.new ≡ S.writing_faults shelf.old }
{
    match read_bundle(alloc, shelf, name) {
        Ok(bundle) => text_of_part(alloc, &bundle, part),
        Err(refusal) => Err(NoText::Refused(refusal)),
    }
}

/// The name of a part.
fn put_part<O: Sink>(out: &mut O, so_far: SoFar, part: ImagePart) -> SoFar
    ensures { PutsMore (putting O.Sink out.old so_far) (putting O.Sink out.new result) (spec.part_name part) }
{
    match part {
        ImagePart::Segment(number) => {
            let so_far = text(out, so_far, b"segment ");
            decimal(out, so_far, u64::from(number))
        }
        ImagePart::Program(number) => {
            let so_far = text(out, so_far, b"program ");
            decimal(out, so_far, u64::from(number))
        }
    }
}

/// What is wrong.
fn fault_words(fault: WordsFault) -> &'static str
    ensures { result.now ≡ spec.part_fault_words fault }
{
    match fault {
        WordsFault::NoBytes => "it has no bytes",
        WordsFault::TooLarge => "it has more than 65536 words",
        WordsFault::NotWords => "it ends within a word",
        WordsFault::PastEnd => "its words go past the last address",
        WordsFault::NoMemory => "there is not enough memory",
    }
}

/// A status, or the write fault.
fn status_of(so_far: SoFar, meant: Status) -> Status
    ensures { result ≡ spec.status_shown meant so_far }
{
    match so_far {
        Ok(()) => meant,
        Err(_) => Status::WriteFault,
    }
}

/// Shows the text of a part.
fn show_text<O: Sink>(out: &mut O, shown: &[u8]) -> Status
    ensures { ShowsText shown.now Status.Done (output O.Sink out.old) (output O.Sink out.new) result }
{
    status_of(text(out, Ok(()), shown), Status::Done)
}

/// Shows that the image has no part of this number.
fn show_no_part<O: Sink>(out: &mut O, part: ImagePart) -> Status
    ensures { ShowsText (spec.no_part_line part) Status.Usage (output O.Sink out.old) (output O.Sink out.new) result }
{
    let so_far = text(out, Ok(()), b"error: the image has no ");
    let so_far = put_part(out, so_far, part);
    status_of(text(out, so_far, b"\n"), Status::Usage)
}

/// Shows what is wrong with the bytes of a part.
fn show_fault<O: Sink>(out: &mut O, name: &str, part: ImagePart, fault: WordsFault) -> Status
    ensures { ShowsText (spec.part_fault_line name.now part fault) Status.BadBundle
        (output O.Sink out.old) (output O.Sink out.new) result }
{
    let so_far = text(out, Ok(()), name.as_bytes());
    let so_far = text(out, so_far, b": ");
    let so_far = put_part(out, so_far, part);
    let so_far = text(out, so_far, b": ");
    let so_far = text(out, so_far, fault_words(fault).as_bytes());
    status_of(text(out, so_far, b"\n"), Status::BadBundle)
}

/// Shows what was made of a part, or why there is nothing.
fn show_part<O: Sink>(
    out: &mut O,
    name: &str,
    part: ImagePart,
    made: &Result<Vec<u8>, NoText>,
) -> Status
    ensures { spec.ShowsPart name.now part made.now (output O.Sink out.old) (output O.Sink out.new) result }
{
    match made {
        Ok(text) => show_text(out, text.as_slice()),
        Err(NoText::Refused(refusal)) => refuse(out, refusal),
        Err(NoText::NoPart) => show_no_part(out, part),
        Err(NoText::Faulty(fault)) => show_fault(out, name, part, *fault),
    }
}

/// Shows the words of a part of the image in a file as a text, with the first of them at the image's address.
pub fn disasm_part_command<S: Shelf, O: Sink>(
    alloc: Global,
    part: ImagePart,
    name: &str,
    shelf: &mut S,
    out: &mut O,
) -> Status
    requires { S.is_settled shelf.old }
    ensures { spec.DisasmsPart part name.now
        (outside S.Shelf O.Sink shelf.old out.old) (outside S.Shelf O.Sink shelf.new out.new) result }
{
    let made = read_part(alloc, part, name, shelf);
    show_part(out, name, part, &made)
}
