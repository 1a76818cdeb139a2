//! The program `cloak_tools`: for people who make guest images and read records.
//!
//! `tool_commands::run_tools` is all of it over any words, files and output. The program exits with the number of the
//! answer's status, where 3 stands for a faulty text, manifest or image, and says on standard error why.
#![tactic(auto)]

use cloak_base::NoMemory;
use command_parts::Status;
use std::fs::{File, OpenOptions};
use std::io::ErrorKind;
use std::process::ExitCode;
use std::{env, io};
use system_io::{FileShelf, StdSink, SystemConsole, SystemFiles};
use tool_commands::{CommandLine, run_tools, sentence};

/// Files that hold the three standard streams.
type HeldStreams = [File; 3];

/// Opens the null device three times, so that a standard stream that was closed when the program started is this device
/// now, and no file that is opened later takes its place.
fn hold_streams(rt: &HostRuntime) -> io::Result<HeldStreams> {
    let open = || OpenOptions::new()
        .read(true)
        .write(true)
        .open(rt, "/dev/null");
    Ok([open()?, open()?, open()?])
}

/// The words of the command line, the program's name first.
fn command_line(rt: &HostRuntime) -> CommandLine {
    let words = match env::args(rt) {
        Ok(words) => words,
        Err(fault) => {
            return match fault.kind() {
                ErrorKind::OutOfMemory => CommandLine::NoMemory,
                _ => CommandLine::NotText,
            };
        }
    };
    match words.collect(rt.alloc()) {
        Ok(words) => CommandLine::Taken(words),
        Err(_) => CommandLine::NoMemory,
    }
}

/// Runs the tools with the files and the output of the system.
fn run_here(rt: &HostRuntime) -> Result<Status, NoMemory> {
    let mut shelf = FileShelf::open(rt.alloc(), SystemFiles::new(rt.clone()?))?;
    let mut out = StdSink::open(rt.alloc(), SystemConsole::new(rt.clone()?))?;
    Ok(run_tools(rt.alloc(), &command_line(rt), &mut shelf, &mut out))
}

/// There is no memory to gather in, so the line is shown as it is.
fn refuse_for_memory(rt: &HostRuntime) -> Status {
    match rt.write_all(b"no memory\n") {
        Ok(()) => Status::NoMemory,
        Err(_) => Status::WriteFault,
    }
}

/// Runs the tools, and says on standard error why a status other than 0 came. If that cannot be said, nothing else
/// changes.
fn run_and_say_why(rt: &HostRuntime) -> Status {
    let status = run_here(rt).unwrap_or_else(|_| refuse_for_memory(rt));
    let _ = rt.eprint(sentence(status));
    status
}

fn main(rt: HostRuntime) -> ExitCode {
    let status = match hold_streams(&rt) {
        Ok(_held) => run_and_say_why(&rt),
        Err(_) => Status::WriteFault,
    };
    ExitCode::from(status.number())
}
