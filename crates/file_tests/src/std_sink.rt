//! An output whose calls fail.

use crate::checks::same;
use io_traits::{Sink, put_all};
use std::cell::Cell;
use std::fmt::Display;
use std::io;
use std::io::{Error, ErrorKind};
use std::test::Fail;
use system_io::{Output, StdSink, SystemConsole};

/// Shows two bytes a call, and fails at the second call.
#[derive(Drop)]
struct FailingScreen<'a> {
    calls: &'a Cell<u64>,
    shown: &'a Cell<u64>,
}

impl Print for FailingScreen<'_> {
    fn print<D: Display + Drop>(&self, _: D) -> io::Result<()> {
        Err(Error::from(ErrorKind::Unsupported))
    }

    fn println<D: Display + Drop>(&self, _: D) -> io::Result<()> {
        Err(Error::from(ErrorKind::Unsupported))
    }

    fn write_all(&self, _: &[u8]) -> io::Result<()> {
        Err(Error::from(ErrorKind::Unsupported))
    }

    fn write_some(&self, bytes: &[u8]) -> io::Result<usize> {
        self.calls.set(self.calls.get().wrapping_add(1));
        if self.calls.get() == 2 {
            return Err(Error::from(ErrorKind::BrokenPipe));
        }
        let n = bytes.len().min(2);
        for byte in &bytes[..n] {
            self.shown.set((self.shown.get() << 8) | u64::from(*byte));
        }
        Ok(n)
    }
}

/// A line shows at its end. A fault is answered by the call that meets it, and nothing is lost or shown
/// twice.
#[test]
fn a_line_shows_at_its_end(rt: HostRuntime) -> Result<(), Fail> {
    let calls = Cell::new(0);
    let shown = Cell::new(0);
    let screen = FailingScreen {
        calls: &calls,
        shown: &shown,
    };
    let mut sink = StdSink::open(rt.alloc(), SystemConsole::new(screen))?;
    for (piece, is_ok, on_screen) in [
        ("hell", true, 0),
        ("o\n", false, 0x6865),
        ("o\n", true, 0x6865_6c6c_6f0a),
    ] {
        same(
            &rt,
            &put_all(&mut sink, piece.as_bytes()).is_ok(),
            &is_ok,
            piece,
        );
        same(&rt, &shown.get(), &on_screen, piece);
    }
    put_all(&mut sink, b"!")?;
    sink.flush()?;
    same(&rt, &shown.get(), &0x6865_6c6c_6f0a_21, "at the end");
    Ok(())
}

/// Puts a piece, or writes out what is gathered if the piece is empty, and says whether that was done.
fn is_done<O: Output + Drop>(sink: &mut StdSink<O>, piece: &str) -> bool {
    if piece.is_empty() {
        sink.flush().is_ok()
    } else {
        sink.put(piece.as_bytes()).is_ok()
    }
}

/// A fault after the front of a piece is returned by the next call, and one at `flush` by `flush` itself.
#[test]
fn a_piece_is_taken_up_to_a_fault(rt: HostRuntime) -> Result<(), Fail> {
    for next in ["c\n", ""] {
        let calls = Cell::new(0);
        let shown = Cell::new(0);
        let screen = FailingScreen {
            calls: &calls,
            shown: &shown,
        };
        let mut sink = StdSink::open(rt.alloc(), SystemConsole::new(screen))?;
        same(&rt, &sink.put(b"abc\n"), &Ok(2), "a piece");
        for (piece, done) in [(next, false), ("c\n", true), ("d", true)] {
            same(&rt, &is_done(&mut sink, piece), &done, piece);
        }
        // The next call fails.
        calls.set(1);
        for done in [false, true] {
            same(&rt, &is_done(&mut sink, ""), &done, "written out");
        }
        same(&rt, &shown.get(), &0x6162_630a_64, next);
    }
    Ok(())
}

/// A piece that is too long to be gathered stands after what is gathered, and both meet their faults.
#[test]
fn a_long_piece_stands_behind_what_is_gathered(rt: HostRuntime) -> Result<(), Fail> {
    let calls = Cell::new(0);
    let shown = Cell::new(0);
    let screen = FailingScreen {
        calls: &calls,
        shown: &shown,
    };
    let mut sink = StdSink::open(rt.alloc(), SystemConsole::new(screen))?;
    let long = vec![in rt.alloc(); b'x'; 70_000]?;
    sink.put(b"ab")?;
    // This many calls were made before, and the second one fails.
    for (before, taken) in [(1, None), (0, None), (0, Some(2)), (2, None)] {
        calls.set(before);
        same(&rt, &sink.put(&long).ok(), &taken, before);
    }
    same(&rt, &shown.get(), &0x6162_7878, "at the end");
    Ok(())
}
