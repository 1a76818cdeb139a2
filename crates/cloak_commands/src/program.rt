//! All that the program does, over any files and any output.
ghost use Rattle.std.specs.Prelude.{◌≡◌, ◌≢◌, ◌<◌, ◌-◌, ◌^◌, IfOk, OnErr};
ghost use Rattle.command_words.specs.Request.{asked_of};
ghost use Rattle.command_parts.specs.Exiting.{Exits};
ghost use Rattle.command_parts.specs.Outside.{outside};
ghost use Rattle.status_sentence.specs.Sentence as spec;
ghost use Rattle.status_sentence.specs.Showing.{sentence_text};
ghost use Rattle.cloak_commands.specs.Program.{AnswersWords, CompletesWords, JudgesWords, TakesMemory, asked_by, asked_in};

use crate::command::cloak;
use crate::words::ProgramWords;
use cloak_base::NoMemory;
use command_parts::{Refusal, Status, refuse, write_out};
use command_words::{Request, UsageFault, read_words};
use io_traits::{Shelf, Sink};
use status_sentence::Sentence;
use std::alloc::Global;

/// Does what the words ask for.
fn obey<S: Shelf, O: Sink>(
    alloc: Global,
    words: &ProgramWords,
    shelf: &mut S,
    out: &mut O,
) -> Status
    requires settled { S.is_settled shelf.old }
    requires reading { S.reading_faults shelf.old < 2 ^ 64 - 1 }
    requires writing { S.writing_faults shelf.old < 2 ^ 64 - 1 }
    requires output { O.faults out.old < 2 ^ 64 - 1 }
    ensures { AnswersWords words.now
        (outside S.Shelf O.Sink shelf.old out.old) (outside S.Shelf O.Sink shelf.new out.new) result }
{
    match words {
        ProgramWords::Taken(words) => cloak(alloc, words, shelf, out),
        ProgramWords::NotText => refuse(out, &Refusal::Usage(UsageFault::WrongWords)),
        ProgramWords::NoMemory => refuse(out, &Refusal::NoMemory),
    }
}

/// Does what the words ask for, and then writes out what is gathered for files and output.
pub fn run_program<S: Shelf, O: Sink>(
    alloc: Global,
    words: &ProgramWords,
    shelf: &mut S,
    out: &mut O,
) -> Status
    requires settled { S.is_settled shelf.old }
    requires reading { S.reading_faults shelf.old < 2 ^ 64 - 1 }
    requires writing { S.writing_faults shelf.old < 2 ^ 64 - 1 }
    requires output { O.faults out.old < 2 ^ 64 - 1 }
    ensures exits { Exits (AnswersWords words.now)
        (outside S.Shelf O.Sink shelf.old out.old) (outside S.Shelf O.Sink shelf.new out.new) result }
    ensures complete { Exits (CompletesWords words.now)
        (outside S.Shelf O.Sink shelf.old out.old) (outside S.Shelf O.Sink shelf.new out.new) result }
    ensures bundle_first { Exits (JudgesWords words.now)
        (outside S.Shelf O.Sink shelf.old out.old) (outside S.Shelf O.Sink shelf.new out.new) result }
    ensures files { result ≢ Status.WriteFault → S.is_settled shelf.new }
    ensures shown { result ≢ Status.WriteFault → O.is_settled out.new }
{
    let status = obey(alloc, words, shelf, out);
    write_out(status, shelf, out)
}

/// What the words ask for. They are read again, and memory can lack only if there was none to take them, or if they name
/// a command.
pub fn read_again(alloc: Global, words: &ProgramWords) -> Result<Request<'_>, NoMemory>
    ensures asked { IfOk result (λ request. asked_by words.now ≡ Some (asked_of request)) }
    ensures memory { OnErr result (TakesMemory words.now) }
{
    match words {
        ProgramWords::Taken(words) => read_words(alloc, words.as_slice()),
        ProgramWords::NotText => Ok(Request::Faulty(UsageFault::WrongWords)),
        ProgramWords::NoMemory => Err(NoMemory),
    }
}

/// The sentence that says why this status came, by what the words ask for. It is without names only if there was no
/// memory to read them.
pub fn sentence(read: Result<Request<'_>, NoMemory>, status: Status) -> Sentence<'_>
    ensures { sentence_text result ≡ spec.sentence (asked_in read.entry) status }
{
    Sentence {
        request: read.ok(),
        status,
    }
}
