//! All that the tools do, over any files and any output.
ghost use Rattle.std.specs.Prelude.{◌≢◌};
ghost use Rattle.command_parts.specs.Exiting.{Exits};
ghost use Rattle.command_parts.specs.Outside.{outside};
ghost use Rattle.tool_commands.specs.ToolExiting.{LineAnswers};

use crate::answering::obey;
use crate::line::CommandLine;
use crate::saying::say;
use command_parts::{Refusal, Status, refuse, write_out};
use io_traits::{Shelf, Sink};
use std::alloc::Global;

/// Does what a command line asks for.
fn answer<S: Shelf, O: Sink>(
    alloc: Global,
    line: &CommandLine,
    shelf: &mut S,
    out: &mut O,
) -> Status
    requires { S.is_settled shelf.old }
    ensures { LineAnswers line.now
        (outside S.Shelf O.Sink shelf.old out.old) (outside S.Shelf O.Sink shelf.new out.new) result }
{
    match line {
        CommandLine::Taken(words) => obey(alloc, words, shelf, out),
        CommandLine::NotText => say(out, b"error: a word is not valid text\n", Status::Usage),
        CommandLine::NoMemory => refuse(out, &Refusal::NoMemory),
    }
}

/// Does what a command line asks for, with the files of a shelf on which nothing is gathered, and then writes out what is
/// gathered for files and output.
pub fn run_tools<S: Shelf, O: Sink>(
    alloc: Global,
    line: &CommandLine,
    shelf: &mut S,
    out: &mut O,
) -> Status
    requires { S.is_settled shelf.old }
    ensures exits { Exits (LineAnswers line.now)
        (outside S.Shelf O.Sink shelf.old out.old) (outside S.Shelf O.Sink shelf.new out.new) result }
    ensures files { result ≢ Status.WriteFault → S.is_settled shelf.new }
    ensures shown { result ≢ Status.WriteFault → O.is_settled out.new }
{
    let status = answer(alloc, line, shelf, out);
    write_out(status, shelf, out)
}
