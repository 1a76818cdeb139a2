//! The program over a disk and an output.
ghost use Rattle.cloak_commands.specs.OnDisk.{HasRunOnDisk, RunsOver};
ghost use Rattle.cloak_commands.specs.Program.{AnswersWords, CompletesWords, JudgesWords};

use crate::program::run_program;
use crate::words::ProgramWords;
use command_parts::Status;
use std::alloc::Global;
use system_io::{FileShelf, FileSystem, Output, StdSink, write_front};

/// How the program ended, and the disk and the output that it ran on.
#[derive(Drop)]
pub struct Ended<D: Drop, O: Drop> {
    pub status: Status,
    pub disk: D,
    pub output: O,
}

/// The line that is shown as it is, if there is no memory to gather in.
const NO_MEMORY: &[u8] = b"no memory\n";

/// Shows that there is no memory to gather in. The disk is not touched.
fn refuse_for_memory<D: FileSystem + Drop, O: Output + Drop>(
    words: &ProgramWords,
    disk: D,
    mut output: O,
) -> Ended<D, O>
    ensures exits { RunsOver {D = D} (AnswersWords words.now)
        (D.told disk) (O.shown output) (D.told result.disk) (O.shown result.output) result.status }
    ensures complete { RunsOver {D = D} (CompletesWords words.now)
        (D.told disk) (O.shown output) (D.told result.disk) (O.shown result.output) result.status }
    ensures bundle_first { RunsOver {D = D} (JudgesWords words.now)
        (D.told disk) (O.shown output) (D.told result.disk) (O.shown result.output) result.status }
    ensures run { HasRunOnDisk words.now
        (D.told disk) (O.shown output) (D.told result.disk) (O.shown result.output) result.status }
{
    let _ = words;
    let n = write_front(&mut output, NO_MEMORY);
    let status = if n == NO_MEMORY.len() {
        Status::NoMemory
    } else {
        Status::WriteFault
    };
    Ended {
        status,
        disk,
        output,
    }
}

/// Says whether what the words have written cannot be made again: its secret and draws are used up. It waits for the
/// medium.
fn must_last(words: &ProgramWords) -> bool {
    let ProgramWords::Taken(words) = words else {
        return false;
    };
    match words.first() {
        Some(word) => matches!(word.as_str(), "store" | "freeze"),
        None => false,
    }
}

/// The whole program, over a disk and an output on which nothing is gathered.
pub fn program_over<D: FileSystem + Drop, O: Output + Drop>(
    alloc: Global,
    words: &ProgramWords,
    disk: D,
    output: O,
) -> Ended<D, O>
    ensures exits { RunsOver {D = D} (AnswersWords words.now)
        (D.told disk) (O.shown output) (D.told result.disk) (O.shown result.output) result.status }
    ensures complete { RunsOver {D = D} (CompletesWords words.now)
        (D.told disk) (O.shown output) (D.told result.disk) (O.shown result.output) result.status }
    ensures bundle_first { RunsOver {D = D} (JudgesWords words.now)
        (D.told disk) (O.shown output) (D.told result.disk) (O.shown result.output) result.status }
    ensures run { HasRunOnDisk words.now
        (D.told disk) (O.shown output) (D.told result.disk) (O.shown result.output) result.status }
{
    let mut shelf = match FileShelf::open_or_return(alloc, disk) {
        Ok(shelf) => shelf,
        Err(disk) => return refuse_for_memory(words, disk, output),
    };
    let mut out = match StdSink::open_or_return(alloc, output) {
        Ok(out) => out,
        Err(output) => return refuse_for_memory(words, shelf.close(), output),
    };
    if must_last(words) {
        shelf.wait_for_medium();
    }
    let status = run_program(alloc, words, &mut shelf, &mut out);
    Ended {
        status,
        disk: shelf.close(),
        output: out.close(),
    }
}
