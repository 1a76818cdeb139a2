//! Calls of the program over files in memory, of which the Nth call fails. Calls are counted from 1.

use crate::checks::{holds, same};
use cloak_commands::{ProgramWords, run_program};
use command_parts::Status;
use io_traits::{MemoryShelf, MemorySink};
use std::alloc::Global;
use std::process::Abort;
use std::test::*;

/// The smallest image of `docs/MACHINE.md`: it shows a byte, and halts in its fourth step.
pub const SMALLEST: &[u8] = b"CLOAKBND\x01\0\0\0\x40\0\0\0\x01\0\0\0\x01\0\0\0\0\0\0\x80\
\x01\0\0\0\0\0\0\0\0\0\0\0\0\0\0\0\x80\x10\0\0\0\x13\x05\x10\x04\x73\0\0\0\x93\x08\x40\0\x73\0\0\0";

/// Its run, and the record of it.
pub const WHOLE_LINE: &str = "run a.b a.r --steps 10 --number 0";

const RECORD: &[u8] =
    b"CLOAKREC\x10\x01\0\0\0\x10\x02\0\0\0\x10\x03\0\0\0\x10\x04\0\0\0\x11\x04\0\0\0\x12";

/// What a call answered and left.
#[derive(Drop)]
struct CallResult {
    status: Status,
    shelf: MemoryShelf,
    sink: MemorySink,
}

/// The words, separated by spaces.
pub fn words_of(alloc: Global, line: &str) -> Result<ProgramWords, Fail> {
    let mut words = Vec::new(alloc);
    for word in line.split_whitespace() {
        words.push(String::from_str(alloc, word)?)?;
    }
    Ok(ProgramWords::Taken(words))
}

/// A file by its name.
type NamedFile<'a> = (&'a str, &'a [u8]);

/// A file that no command names.
const UNNAMED: NamedFile<'static> = ("unnamed", b"");

const NO_OTHERS: (NamedFile<'static>, NamedFile<'static>, NamedFile<'static>) = (
    UNNAMED, UNNAMED, UNNAMED,
);

/// What the words leave over the smallest image and these files, if the calls of these numbers on the files and on the output
/// fail.
fn called(
    alloc: Global,
    line: &str,
    files: (NamedFile<'_>, NamedFile<'_>, NamedFile<'_>),
    failing: (u64, u64),
) -> Result<CallResult, Fail> {
    let mut shelf = MemoryShelf::open(alloc, vec![in alloc; failing.0]?);
    shelf.add("a.b", SMALLEST)?;
    shelf.add(files.0.0, files.0.1)?;
    shelf.add(files.1.0, files.1.1)?;
    shelf.add(files.2.0, files.2.1)?;
    let mut sink = MemorySink::open(alloc, vec![in alloc; failing.1]?);
    let status = run_program(alloc, &words_of(alloc, line)?, &mut shelf, &mut sink);
    Ok(CallResult {
        status,
        shelf,
        sink,
    })
}

/// Runs of the smallest image whose Nth call on the files or the output fails: the status, the output and
/// how much of the record stands. Call 1 asks for the size, 2 reads, 3 begins the record, 4 appends its
/// first bytes, 5 to 8 the steps, 9 and 10 its end, 11 writes it out, and 12 what is left when all is shown.
static FAILING: [(u64, u64, Status, Option<&str>, usize); 11] = [
    (1, 0, Status::ReadFault, Some("read fault\n"), 0),
    (2, 0, Status::ReadFault, Some("read fault\n"), 0),
    (3, 0, Status::WriteFault, Some(""), 0),
    (4, 0, Status::WriteFault, Some(""), 0),
    (6, 0, Status::WriteFault, Some(""), 13),
    (10, 0, Status::WriteFault, Some("A"), 33),
    (11, 0, Status::WriteFault, Some("A"), 34),
    (12, 0, Status::WriteFault, None, 34),
    (0, 1, Status::WriteFault, Some(""), 18),
    (0, 2, Status::WriteFault, Some("A"), 34),
    (0, 3, Status::WriteFault, Some("A\n"), 34),
];

#[test]
fn failing_calls(rt: HostRuntime) -> Result<(), Fail> {
    let whole = called(rt.alloc(), WHOLE_LINE, NO_OTHERS, (0, 0))?;
    let all = whole.sink.taken();
    same(&rt, &whole.status, &Status::Done, "status of the whole run");
    same(&rt, &whole.shelf.bytes("a.r"), &RECORD, "its record");
    for &(file_call, output_call, status, output, record) in &FAILING {
        let failing = (file_call, output_call);
        let left = called(rt.alloc(), WHOLE_LINE, NO_OTHERS, failing)?;
        let record = RECORD.get(..record).unwrap_or(RECORD);
        same(&rt, &left.status, &status, file_call);
        match output {
            Some(text) => holds(&rt, left.sink.taken() == text.as_bytes(), file_call),
            None => holds(&rt, left.sink.taken() == all, file_call),
        }
        holds(&rt, left.shelf.bytes("a.r") == record, file_call);
        holds(&rt, left.shelf.bytes("a.b") == SMALLEST, file_call);
    }
    Ok(())
}

/// What is shown after the console and these bytes.
fn shown_behind<'a>(shown: &'a [u8], before: &str) -> &'a [u8] {
    let shown = shown.strip_prefix(b"A").unwrap_or(shown);
    shown.strip_prefix(before.as_bytes()).unwrap_or(b"")
}

/// `view` of the smallest run, whose Nth call on the files fails. Calls 1 and 2 read the image; call 3 begins to read the
/// record, and later ones find its end.
static FAILING_VIEWS: [(u64, &str); 4] = [(1, ""), (2, ""), (3, "\n"), (4, "\n")];

#[test]
fn failing_calls_of_view(rt: HostRuntime) -> Result<(), Fail> {
    for (call, before) in FAILING_VIEWS {
        let left = called(
            rt.alloc(),
            "view a.b a.r",
            (("a.r", RECORD), UNNAMED, UNNAMED),
            (call, 0),
        )?;
        same(&rt, &left.status, &Status::ReadFault, call);
        same(
            &rt,
            &shown_behind(left.sink.taken(), before),
            &b"read fault\n".as_slice(),
            call,
        );
    }
    Ok(())
}

/// Stops the test unless a call that failed is told as a fault of reading or writing.
fn is_fault(rt: &impl Abort, status: Status, call: u64) {
    let is_fault = status == Status::ReadFault || status == Status::WriteFault;
    holds(rt, is_fault, call);
}

/// Whichever call of `freeze` fails, the bundle stays, and record and state are fronts of the whole ones.
#[test]
fn failing_calls_of_freeze(rt: HostRuntime) -> Result<(), Fail> {
    let line = "freeze a.b a.r f --ivs v --steps 3 --number 0";
    let whole = called(rt.alloc(), line, NO_OTHERS, (0, 0))?;
    let wanted = (whole.shelf.bytes("a.r"), whole.shelf.bytes("f"));
    for call in 1..300 {
        // The pieces of the state are written by calls of one kind.
        if call > 20 && call % 11 != 0 {
            continue;
        }
        let failed = called(rt.alloc(), line, NO_OTHERS, (call, 0))?;
        if failed.status == Status::Frozen {
            holds(&rt, call > 10, call);
            return Ok(());
        }
        is_fault(&rt, failed.status, call);
        let (record, state) = (failed.shelf.bytes("a.r"), failed.shelf.bytes("f"));
        holds(&rt, wanted.0.starts_with(record), call);
        holds(&rt, wanted.1.starts_with(state), call);
        holds(
            &rt,
            state.is_empty() || record.len() == wanted.0.len(),
            call,
        );
        same(&rt, &failed.shelf.bytes("a.b"), &SMALLEST, call);
    }
    Err("each call fails".into())
}

/// Whichever call of the rest fails, the state stays.
#[test]
fn failing_calls_of_thaw(rt: HostRuntime) -> Result<(), Fail> {
    let line = "freeze a.b a.r f --ivs v --steps 3 --number 0";
    let first = called(rt.alloc(), line, NO_OTHERS, (0, 0))?;
    let state = first.shelf.bytes("f");
    let line = "thaw a.b b.r f --steps 10 --number 0";
    let whole = called(rt.alloc(), line, (("f", state), UNNAMED, UNNAMED), (0, 0))?;
    for call in 1..100 {
        let failed = called(
            rt.alloc(),
            line,
            (("f", state), UNNAMED, UNNAMED),
            (call, 0),
        )?;
        same(&rt, &failed.shelf.bytes("f"), &state, call);
        if failed.status == Status::Done {
            holds(&rt, call > 6, call);
            return Ok(());
        }
        is_fault(&rt, failed.status, call);
        let record = failed.shelf.bytes("b.r");
        holds(&rt, whole.shelf.bytes("b.r").starts_with(record), call);
    }
    Err("each call fails".into())
}

/// Whichever call of a run over cloaked files fails: the bundle stays, and the same words then lead to the same files.
#[test]
fn failing_calls_of_store(rt: HostRuntime) -> Result<(), Fail> {
    let line = "store a.b a.r none a.s b.b --secret key --counter 0 --steps 10 --number 0";
    let key = [7; 80];
    let files = (("key", key.as_slice()), UNNAMED, UNNAMED);
    let whole = called(rt.alloc(), line, files, (0, 0))?;
    let wanted = (whole.shelf.bytes("a.s"), whole.shelf.bytes("b.b"));
    for call in 1..100 {
        let failed = called(rt.alloc(), line, files, (call, 0))?;
        if failed.status == Status::Done {
            holds(&rt, call > 15, call);
            return Ok(());
        }
        is_fault(&rt, failed.status, call);
        same(&rt, &failed.shelf.bytes("a.b"), &SMALLEST, call);
        let left = (
            ("key", key.as_slice()),
            ("a.s", failed.shelf.bytes("a.s")),
            ("b.b", failed.shelf.bytes("b.b")),
        );
        let again = called(rt.alloc(), line, left, (0, 0))?;
        let found = (again.shelf.bytes("a.s"), again.shelf.bytes("b.b"));
        same(&rt, &again.status, &Status::Done, call);
        same(&rt, &found, &wanted, call);
    }
    Err("each call fails".into())
}
