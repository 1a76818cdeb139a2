//! The command `asm`.
ghost use Rattle.std.specs.Prelude.{◌≡◌, ◌↔◌, ℕ, List, Option, IsTrue};
ghost use Rattle.rv_asm.specs.declared.fault.AsmFault.TheVariants as asm;
ghost use Rattle.command_parts.specs.Outside.{files, outside};
ghost use Rattle.asm_text.specs.declared.fault.TextFault.TheVariants.{Faulty};
ghost use Rattle.asm_text.specs.Assembling.{FailsToAssemble};
ghost use Rattle.asm_text.specs.Making.{ReadsFor, IsWhy};
ghost use Rattle.asm_text.specs.Commanded.{AreWordsOfFile, AsmAnswers, IsTextRead, TellsTextFault};

use crate::assembling::{LONGEST_TEXT, assembled};
use crate::fault::TextFault;
use crate::making::{Reason, conclude, reason_of};
use crate::telling::{FaultyText, shown_text};
use command_parts::{Status, read_front};
use io_traits::{Shelf, Sink};
use rv_asm::AsmFault;
use std::alloc::Global;

/// This fault is want of memory.
fn is_want(fault: TextFault) -> bool
    ensures { IsTrue result ↔ (fault ≡ Faulty asm.NoMemory) }
{
    matches!(fault, TextFault::Faulty(AsmFault::NoMemory))
}

/// Why a text in a file of this name is not assembled.
fn reason_of_fault(alloc: Global, name: &str, text: &[u8], fault: TextFault) -> Reason
    requires { FailsToAssemble text.now fault }
    ensures { (told : Option (List ℕ)) → IsTextRead told text.now → IsWhy (TellsTextFault name.now told) result }
{
    if is_want(fault) {
        return Reason::NoMemory;
    }
    let faulty = FaultyText {
        name,
        text: shown_text(text),
        fault,
    };
    match faulty.to_string(alloc) {
        Ok(text) => Reason::Faulty(text),
        Err(_) => Reason::NoMemory,
    }
}

/// The flat bytes of the words of the text in a file.
fn words_of_file<S: Shelf>(alloc: Global, name: &str, shelf: &mut S) -> Result<Vec<u8>, Reason>
    requires { S.is_settled shelf.old }
    ensures { ReadsFor (AreWordsOfFile (S.held shelf.old name.now)) (TellsTextFault name.now (S.held shelf.old name.now))
        (files S.Shelf shelf.old) (files S.Shelf shelf.new) result }
{
    let text = match read_front(alloc, shelf, name, LONGEST_TEXT + 1) {
        Ok(text) => text,
        Err(refusal) => return Err(reason_of(refusal)),
    };
    match assembled(alloc, text.as_slice()) {
        Ok(bytes) => Ok(bytes),
        Err(fault) => Err(reason_of_fault(alloc, name, text.as_slice(), fault)),
    }
}

/// Assembles the text of one file to another file.
pub fn asm_command<S: Shelf, O: Sink>(
    alloc: Global,
    text_name: &str,
    words_name: &str,
    shelf: &mut S,
    out: &mut O,
) -> Status
    requires { S.is_settled shelf.old }
    ensures { AsmAnswers text_name.now words_name.now
        (outside S.Shelf O.Sink shelf.old out.old) (outside S.Shelf O.Sink shelf.new out.new) result }
{
    let made = words_of_file(alloc, text_name, shelf);
    conclude(&made, words_name, shelf, out)
}
