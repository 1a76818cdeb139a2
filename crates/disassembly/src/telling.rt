//! A faulty file of words, in words.
ghost use Rattle.std.specs.Prelude.{◌≡◌, Some};
ghost use Rattle.std.specs.Fmt.{DisplaysOnOk};
ghost use Rattle.disassembly.specs.Disassembling as spec;

use crate::fault::WordsFault;
use std::fmt;

/// The file of this name has no words that are shown, and why.
#[derive(Clone, Copy)]
pub struct FaultyWords<'a> {
    pub name: &'a str,
    pub fault: WordsFault,
}

/// What is wrong.
fn fault_words(fault: WordsFault) -> &'static str
    ensures { result.now ≡ spec.fault_words fault }
{
    match fault {
        WordsFault::NoBytes => "the file is empty, or is not there",
        WordsFault::TooLarge => "the file has more than 65536 words",
        WordsFault::NotWords => "the file ends within a word",
        WordsFault::PastEnd => "the words go past the last address",
        WordsFault::NoMemory => "there is not enough memory",
    }
}

impl fmt::Display for FaultyWords<'_> {
    ghost output = { λ f. Some (spec.fault_text f.name.now f.fault) };

    fn fmt<W: fmt::Write>(&self, f: &mut fmt::Formatter<W>) -> fmt::Result {
        let words = fault_words(self.fault);
        write!(f, "{}: {words}\n", self.name)
    }
}
