//! The command `disasm`.
ghost use Rattle.std.specs.Prelude.{◌≡◌, ◌↔◌, ℕ, List, Option, IsTrue};
ghost use Rattle.command_parts.specs.Outside.{files, outside, output};
ghost use Rattle.asm_text.specs.Making.{IsWhy, ReadsFor};
ghost use Rattle.disassembly.specs.Disassembling.{AreBytesRead, DisasmAnswers, HasFault, IsTextOfFile, ShowsMade};
ghost use Rattle.disassembly.specs.Disassembling.{ShowsText, TellsFault};

use crate::disassembling::{MOST_BYTES, disassembled};
use crate::fault::WordsFault;
use crate::telling::FaultyWords;
use asm_text::{Reason, reason_of};
use command_parts::{Refusal, Status, read_front, refuse};
use io_traits::{Shelf, Sink, put_all};
use std::alloc::Global;

/// This fault is want of memory.
fn is_want(fault: WordsFault) -> bool
    ensures { IsTrue result ↔ (fault ≡ WordsFault.NoMemory) }
{
    matches!(fault, WordsFault::NoMemory)
}

/// Why the words in a file of this name are not shown.
fn reason_of_fault(alloc: Global, base: u32, name: &str, bytes: &[u8], fault: WordsFault) -> Reason
    requires { HasFault base bytes.now fault }
    ensures { (told : Option (List ℕ)) → AreBytesRead told bytes.now → IsWhy (TellsFault base name.now told) result }
{
    if is_want(fault) {
        return Reason::NoMemory;
    }
    let faulty = FaultyWords { name, fault };
    match faulty.to_string(alloc) {
        Ok(text) => Reason::Faulty(text),
        Err(_) => Reason::NoMemory,
    }
}

/// The text of the words in a file, of which the first stands at an address.
fn text_of_file<S: Shelf>(
    alloc: Global,
    base: u32,
    name: &str,
    shelf: &mut S,
) -> Result<Vec<u8>, Reason>
    requires { S.is_settled shelf.old }
    ensures { ReadsFor (IsTextOfFile base (S.held shelf.old name.now)) (TellsFault base name.now (S.held shelf.old name.now))
        (files S.Shelf shelf.old) (files S.Shelf shelf.new) result }
{
    let bytes = match read_front(alloc, shelf, name, MOST_BYTES + 1) {
        Ok(bytes) => bytes,
        Err(refusal) => return Err(reason_of(refusal)),
    };
    match disassembled(alloc, base, bytes.as_slice()) {
        Ok(text) => Ok(text),
        Err(fault) => Err(reason_of_fault(alloc, base, name, bytes.as_slice(), fault)),
    }
}

/// Shows a text, and returns a status, or the write fault.
fn show_text<O: Sink>(out: &mut O, text: &[u8], status: Status) -> Status
    ensures { ShowsText text.now status (output O.Sink out.old) (output O.Sink out.new) result }
{
    match put_all(out, text) {
        Ok(()) => status,
        Err(_) => Status::WriteFault,
    }
}

/// Shows what was made, or why there is nothing.
fn show_made<O: Sink>(out: &mut O, made: &Result<Vec<u8>, Reason>) -> Status
    ensures { ShowsMade made.now (output O.Sink out.old) (output O.Sink out.new) result }
{
    match made {
        Ok(text) => show_text(out, text.as_slice(), Status::Done),
        Err(Reason::ReadFault) => refuse(out, &Refusal::ReadFault),
        Err(Reason::NoMemory) => refuse(out, &Refusal::NoMemory),
        Err(Reason::Faulty(text)) => show_text(out, text.as_bytes(), Status::BadBundle),
    }
}

/// Shows the words in a file as a text, with the first of them at an address.
pub fn disasm_command<S: Shelf, O: Sink>(
    alloc: Global,
    base: u32,
    name: &str,
    shelf: &mut S,
    out: &mut O,
) -> Status
    requires { S.is_settled shelf.old }
    ensures { DisasmAnswers base name.now
        (outside S.Shelf O.Sink shelf.old out.old) (outside S.Shelf O.Sink shelf.new out.new) result }
{
    let made = text_of_file(alloc, base, name, shelf);
    show_made(out, &made)
}
