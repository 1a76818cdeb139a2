//! A faulty text, told by its line and in words.
ghost use Rattle.std.specs.Prelude.{◌≡◌, ◌==◌, [], Some, option_copied, option_map};
ghost use Rattle.std.specs.List.{before_first, after_first};
ghost use Rattle.std.specs.Str.{IsUtf8};
ghost use Rattle.std.specs.Fmt.{DisplaysOnOk};
ghost use Rattle.asm_text.specs.Telling as spec;

use crate::fault::TextFault;
use rv_asm::AsmFault;
use std::fmt;

/// The text in a file of this name that is not assembled, and why. It shows where it is faulty, what is wrong there, and
/// the line.
#[derive(Clone, Copy)]
pub struct FaultyText<'a> {
    pub name: &'a str,
    pub text: &'a str,
    pub fault: TextFault,
}

/// Bytes as a text; those of no text as an empty one.
pub fn shown_text(bytes: &[u8]) -> &str
    ensures { IsUtf8 bytes.now → result.now ≡ bytes.now }
{
    std::str::from_utf8(bytes).unwrap_or("")
}

/// The first line of a text.
fn first_line(text: &str) -> &str
    ensures { result.now ≡ before_first (λ b. b == 10) text.now }
{
    match text.split_once('\n') {
        Some((line, _)) => line,
        None => text,
    }
}

/// What stands after the first line of a text.
fn behind_line(text: &str) -> &str
    ensures { result.now ≡ after_first (λ b. b == 10) text.now }
{
    match text.split_once('\n') {
        Some((_, rest)) => rest,
        None => "",
    }
}

/// The line of this number, counted from 1; empty if there is none.
fn line_numbered(text: &str, number: u32) -> &str
    ensures { result.now ≡ spec.line_numbered text.now number }
{
    let mut rest = text;
    for _ in 1..number {
        rest = behind_line(rest);
    }
    first_line(rest)
}

/// The number of the faulty line, if one is.
fn faulty_line(fault: TextFault) -> Option<u32>
    ensures { result ≡ spec.faulty_line fault }
{
    let TextFault::Faulty(fault) = fault else {
        return None;
    };
    match fault {
        AsmFault::UnknownWord(line)
        | AsmFault::BadOperand(line)
        | AsmFault::BadLabel(line)
        | AsmFault::OutOfReach(line) => Some(line),
        AsmFault::TooLong | AsmFault::NoMemory => None,
    }
}

/// What is wrong.
fn fault_words(fault: TextFault) -> &'static str
    ensures { result.now ≡ spec.fault_words fault }
{
    match fault {
        TextFault::NoBytes => "the file is empty, or is not there",
        TextFault::TooLarge => "the file has more than 16777216 bytes",
        TextFault::NotText => "the file is not text in UTF-8",
        TextFault::Faulty(AsmFault::UnknownWord(_)) => {
            "the first word is no instruction, and no label with its colon"
        }
        TextFault::Faulty(AsmFault::BadOperand(_)) => {
            "an operand is missing, extra, not of the kind that stands here, or out of its range"
        }
        TextFault::Faulty(AsmFault::BadLabel(_)) => {
            "the label is defined on an earlier line too, or nowhere"
        }
        TextFault::Faulty(AsmFault::OutOfReach(_)) => {
            "the label is too far away: a branch reaches 4 KiB, a jump 1 MiB"
        }
        TextFault::Faulty(AsmFault::TooLong) => "the text has more than 65536 words",
        TextFault::Faulty(AsmFault::NoMemory) => "there is not enough memory",
    }
}

impl fmt::Display for FaultyText<'_> {
    ghost output = { λ f. Some (spec.fault_text f.name.now f.text.now f.fault) };

    fn fmt<W: fmt::Write>(&self, f: &mut fmt::Formatter<W>) -> fmt::Result {
        let words = fault_words(self.fault);
        match faulty_line(self.fault) {
            None => write!(f, "{}: {words}\n", self.name),
            Some(number) => {
                let line = line_numbered(self.text, number);
                write!(f, "{}:{number}: {words}\n    {line}\n", self.name)
            }
        }
    }
}
