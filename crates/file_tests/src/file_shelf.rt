//! Files of the system, by turns, ahead, and with faults.

use crate::checks::{holds, same};
use cloak_base::Failed;
use io_traits::Shelf;
use std::fs;
use std::test::Fail;
use system_io::{FileShelf, FileSystem, SystemFiles};

/// Two files by turns, the first of which had more bytes before it was begun.
#[test]
fn appended_pieces_stand_in_their_files(rt: HostRuntime) -> Result<(), Fail> {
    let (a, b) = ("file_shelf_test_a.bytes", "file_shelf_test_b.bytes");
    fs::write(&rt, a, "what stood there before")?;
    let mut shelf = FileShelf::open(rt.alloc(), SystemFiles::new(rt.clone()?))?;
    shelf.begin(a)?;
    for (name, piece) in [(a, "hello"), (b, "two"), (a, ", "), (a, "world")] {
        shelf.append(name, piece.as_bytes())?;
    }
    same(&rt, &shelf.size(b), &Ok(3), "size");
    for (name, text) in [(a, "hello, world"), (b, "two")] {
        same(&rt, &fs::read_to_string(&rt, name)?.as_str(), &text, name);
        fs::remove_file(&rt, name)?;
    }
    Ok(())
}

/// Adds all bytes of a file, read in pieces, and says whether no call failed.
fn read_in_pieces<D: FileSystem + Drop>(
    shelf: &mut FileShelf<D>,
    name: &str,
    piece: &mut [u8],
    seen: &mut Vec<u8>,
) -> bool {
    for _ in 0..200 {
        let Ok(n) = shelf.read_at(name, seen.len() as u64, piece) else {
            return false;
        };
        if seen.extend_from_slice(&piece[..n]).is_err() {
            return false;
        }
    }
    true
}

/// A file of more bytes than are read ahead, in short, long and longer pieces.
#[test]
fn pieces_that_are_read_follow_one_another(rt: HostRuntime) -> Result<(), Fail> {
    let name = "file_shelf_test_read.bytes";
    let bytes: Vec<u8> = (0..150_000u32)
        .map(|i| (i % 251) as u8)
        .collect(rt.alloc())?;
    fs::write(&rt, name, bytes.as_slice())?;
    let mut shelf = FileShelf::open(rt.alloc(), SystemFiles::new(rt.clone()?))?;
    for length in [999, 65_536, 70_000] {
        let mut piece = vec![in rt.alloc(); 0u8; length]?;
        let mut seen = Vec::new(rt.alloc());
        holds(
            &rt,
            read_in_pieces(&mut shelf, name, &mut piece, &mut seen),
            length,
        );
        holds(&rt, seen.as_slice() == bytes.as_slice(), length);
    }
    fs::remove_file(&rt, name)?;
    Ok(())
}

/// Begins a file with this text, and says whether that was done.
fn is_put<D: FileSystem + Drop>(shelf: &mut FileShelf<D>, name: &str, text: &str) -> bool {
    shelf.begin(name).is_ok() && shelf.append(name, text.as_bytes()).is_ok()
}

/// Whether a file is read as this text.
fn is_read<D: FileSystem + Drop>(shelf: &mut FileShelf<D>, name: &str, text: &str) -> bool {
    let mut into = [0u8; 8];
    match shelf.read_at(name, 0, &mut into) {
        Ok(n) => &into[..n] == text.as_bytes(),
        Err(_) => false,
    }
}

/// A file that is begun, by whatever name, is not what was read ahead.
#[test]
fn what_was_read_ahead_is_forgotten(rt: HostRuntime) -> Result<(), Fail> {
    let name = "file_shelf_test_ahead.bytes";
    let mut shelf = FileShelf::open(rt.alloc(), SystemFiles::new(rt.clone()?))?;
    for (other, text) in [(name, "old"), ("./file_shelf_test_ahead.bytes", "new!")] {
        holds(&rt, is_put(&mut shelf, other, text), text);
        holds(&rt, is_read(&mut shelf, name, text), text);
    }
    fs::remove_file(&rt, name)?;
    Ok(())
}

#[derive(Clone, Copy)]
enum ShelfCall {
    Begin,
    Append,
    AppendLong,
    Size,
    Read,
    Flush,
}

/// Whether a call was done, as a number.
fn done(answer: Result<(), Failed>) -> Option<u64> {
    match answer {
        Ok(()) => Some(0),
        Err(_) => None,
    }
}

/// What a call returns, if it does not fail.
fn answer<D: FileSystem + Drop>(
    shelf: &mut FileShelf<D>,
    call: ShelfCall,
    name: &str,
) -> Option<u64> {
    match call {
        ShelfCall::Begin => done(shelf.begin(name)),
        ShelfCall::Append => done(shelf.append(name, b"a")),
        ShelfCall::AppendLong => done(shelf.append(name, &[0; 70_000])),
        ShelfCall::Size => shelf.size(name).ok(),
        ShelfCall::Read => match shelf.read_at(name, 0, &mut [0; 8]) {
            Ok(n) => Some(n as u64),
            Err(_) => None,
        },
        ShelfCall::Flush => done(shelf.flush()),
    }
}

const MISSING: &str = "no such file";

const FOLDER: &str = ".";

const FULL: &str = "/dev/full";

/// Calls, and what each returns. A name that is missing is empty, and a folder is a fault. A fault of writing is
/// returned by the call that meets it, even by one that reads. What is gathered is not lost by it: otherwise the next
/// call would succeed.
static CALLS: [(ShelfCall, &str, Option<u64>); 17] = [
    (ShelfCall::Size, MISSING, Some(0)),
    (ShelfCall::Read, MISSING, Some(0)),
    (ShelfCall::Size, FOLDER, None),
    (ShelfCall::Read, FOLDER, None),
    (ShelfCall::Begin, FOLDER, None),
    (ShelfCall::Append, FOLDER, None),
    (ShelfCall::Begin, FULL, Some(0)),
    (ShelfCall::AppendLong, FULL, None),
    (ShelfCall::Append, FULL, Some(0)),
    (ShelfCall::Flush, FULL, None),
    (ShelfCall::AppendLong, FULL, None),
    (ShelfCall::Append, MISSING, None),
    (ShelfCall::Size, MISSING, None),
    (ShelfCall::Append, FULL, Some(0)),
    (ShelfCall::Begin, MISSING, None),
    (ShelfCall::Read, MISSING, None),
    (ShelfCall::Flush, FULL, None),
];

#[test]
fn faults_are_answered(rt: HostRuntime) -> Result<(), Fail> {
    let mut shelf = FileShelf::open(rt.alloc(), SystemFiles::new(rt.clone()?))?;
    for &(call, name, answered) in &CALLS {
        same(&rt, &answer(&mut shelf, call, name), &answered, name);
    }
    Ok(())
}
