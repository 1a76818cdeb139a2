//! The program `cloak`: runs guest images, reads the records of runs back, and makes guest images.
//!
//! `cloak_commands::program_over` is all of it over any words, disk and output. The program exits with the number of the
//! answer's status, and says on standard error why it came.
#![tactic(auto)]

use cloak_commands::{ProgramWords, program_over, read_again, sentence};
use command_parts::Status;
use run_progress::{Progress, WatchedFiles};
use std::fs::{File, OpenOptions};
use std::io::{ErrorKind, IsTerminal};
use std::os::fd::AsRawFd;
use std::process::ExitCode;
use std::{env, io};
use system_io::{SystemConsole, SystemFiles};

/// The last descriptor of a standard stream.
const LAST_STREAM: i32 = 2;

/// Files that stand for standard streams that were closed when the program started.
type HeldStreams = [Option<File>; 3];

/// Opens the null device until a file has a descriptor above those of the standard streams. The system gives each file
/// the lowest descriptor that is free, so a standard stream that was closed is this device now, and no file that is
/// opened later takes its place: a record there would be overwritten by what is shown.
fn hold_streams(rt: &HostRuntime) -> io::Result<HeldStreams> {
    let mut held = [None, None, None];
    for place in &mut held {
        let file = OpenOptions::new()
            .read(true)
            .write(true)
            .open(rt, "/dev/null")?;
        if file.as_raw_fd() > LAST_STREAM {
            break;
        }
        *place = Some(file);
    }
    Ok(held)
}

/// The words after the program's name.
fn command_words(rt: &HostRuntime) -> ProgramWords {
    let mut words = match env::args(rt) {
        Ok(words) => words,
        Err(fault) => {
            return match fault.kind() {
                ErrorKind::OutOfMemory => ProgramWords::NoMemory,
                _ => ProgramWords::NotText,
            };
        }
    };
    words.next();
    match words.collect(rt.alloc()) {
        Ok(words) => ProgramWords::Taken(words),
        Err(_) => ProgramWords::NoMemory,
    }
}

/// Runs the program over the files and the output of the system, and says on standard error why a status other than 0
/// came. If that cannot be said, nothing else changes. If standard error is a terminal, a long run tells there how far
/// it is.
fn run_here(rt: &HostRuntime) -> Status {
    let words = command_words(rt);
    let progress = Progress::new(rt, rt.stderr().is_terminal());
    let disk = WatchedFiles::new(SystemFiles::new(rt), progress);
    let ended = program_over(rt.alloc(), &words, disk, SystemConsole::new(rt));
    let _ = rt.eprint(sentence(read_again(rt.alloc(), &words), ended.status));
    ended.status
}

/// The status of a program that cannot begin, since nothing can stand for a standard stream that is closed.
fn cannot_begin(rt: &HostRuntime) -> Status {
    let _ = eprintln!(rt;
        "cloak: the null device `/dev/null` cannot be opened, and so nothing was done"
    );
    Status::WriteFault
}

fn main(rt: HostRuntime) -> ExitCode {
    let status = match hold_streams(&rt) {
        Ok(_held) => run_here(&rt),
        Err(_) => cannot_begin(&rt),
    };
    ExitCode::from(status.number())
}
