ghost use Rattle.std.specs.Prelude.{◌≡◌, ◌≤◌, [], length, take, IfOk, IfErr, IsErr, IsTrue};
ghost use Rattle.std.specs.Io.KnownBytes.{append_known};
ghost use Rattle.io_traits.specs.Told.{Counts};
ghost use Rattle.system_io.specs.Files.{fresh_sink};

use crate::gathered::Gathered;
use crate::output::{Output, write_front};
use cloak_base::{Failed, NoMemory};
use io_traits::Sink;
use std::alloc::Global;
use std::marker::Model;

/// An output as a sink: standard output is one. Small pieces are gathered, and written out in one go at each line feed
/// at the latest, and at `flush`. What was taken is what the output has and, after it, what is gathered.
///
/// A piece of which only a front could be written counts as taken up to there, and the next call tells of the
/// fault. So nothing is lost or shown twice, and no fault is passed over.
#[derive(Drop)]
pub struct StdSink<O: Output + Drop> {
    out: O,
    gathered: Gathered,
    is_fault_owed: bool,
    faults: u64,
}

impl<O: Output + Drop> Model for StdSink<O> {
    ghost use Rattle.std.specs.Io.KnownBytes.{append_known};
    ghost use Rattle.system_io.specs.Files.{OutputState};

    ghost Value = { OutputState };

    ghost view = { λ s. record {
      faults = s.faults;
      taken = append_known (O.shown s.out) s.gathered;
      gathered = s.gathered;
    } };
}

impl<O: Output + Drop> StdSink<O> {
    /// A sink with no fault yet. All memory that it needs is taken here.
    pub fn open(alloc: Global, out: O) -> Result<StdSink<O>, NoMemory>
        ensures { IfOk result (λ sink. sink ≡ fresh_sink (O.shown out)) }
    {
        StdSink::open_or_return(alloc, out).map_err(|_| NoMemory)
    }

    /// The same. If there is no memory, the output comes back.
    pub fn open_or_return(alloc: Global, out: O) -> Result<StdSink<O>, O>
        ensures ok { IfOk result (λ sink. sink ≡ fresh_sink (O.shown out)) }
        ensures err { IfErr result (λ back. back ≡ out) }
    {
        match Gathered::open(alloc) {
            Ok(gathered) => Ok(StdSink {
                out,
                gathered,
                is_fault_owed: false,
                faults: 0,
            }),
            Err(_) => Err(out),
        }
    }

    /// Gives the output back. What is still gathered is lost.
    pub fn close(self) -> O
        ensures { self.taken ≡ append_known (O.shown result) self.gathered }
    {
        let StdSink { out, .. } = self;
        out
    }

    /// Says whether all that is gathered was written out.
    fn write_out(&mut self) -> bool
        ensures all { IsTrue result → self.new.gathered ≡ [] }
        ensures taken { self.new.taken ≡ self.old.taken }
        ensures faults { self.new.faults ≡ self.old.faults }
    {
        let n = write_front(&mut self.out, self.gathered.rest());
        self.gathered.forget(n);
        self.gathered.is_empty()
    }

    /// Takes a piece after what is gathered and writes out both, and returns how many bytes of the piece were taken. If
    /// these are not all, a write failed.
    fn show(&mut self, piece: &[u8]) -> usize
        ensures count { result ≤ length piece.now }
        ensures taken { self.new.taken ≡ append_known self.old.taken (take result piece.now) }
        ensures faults { self.new.faults ≡ self.old.faults }
    {
        if self.gathered.gather(piece) {
            if self.write_out() {
                return piece.len();
            }
            return self.gathered.take_back(piece.len());
        }
        if !self.write_out() {
            return 0;
        }
        write_front(&mut self.out, piece)
    }

    fn fail<T>(&mut self) -> Result<T, Failed>
        ensures counted { Counts self.old.faults self.new.faults result }
        ensures err { IsErr result }
        ensures taken { self.new.taken ≡ self.old.taken }
        ensures gathered { self.new.gathered ≡ self.old.gathered }
    {
        self.is_fault_owed = false;
        self.faults = self.faults.saturating_add(1);
        Err(Failed)
    }
}

impl<O: Output + Drop> Sink for StdSink<O> {
    ghost taken = { λ s. s.taken };

    ghost faults = { λ s. s.faults };

    ghost is_settled = { λ s. s.gathered ≡ [] };

    /// A piece with a line feed is written out with what is gathered, and so is one that there is no room for.
    fn put(&mut self, bytes: &[u8]) -> Result<usize, Failed> {
        if self.is_fault_owed {
            return self.fail();
        }
        if !bytes.contains(&b'\n') && self.gathered.gather(bytes) {
            return Ok(bytes.len());
        }
        let taken = self.show(bytes);
        if taken == bytes.len() {
            return Ok(taken);
        }
        if taken == 0 {
            return self.fail();
        }
        self.is_fault_owed = true;
        Ok(taken)
    }

    fn flush(&mut self) -> Result<(), Failed> {
        if self.write_out() && !self.is_fault_owed {
            return Ok(());
        }
        self.fail()
    }
}
