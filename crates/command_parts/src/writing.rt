//! A file that is written whole, and what is gathered for files and output written out.
ghost use Rattle.std.specs.Prelude.{◌≡◌, ◌≢◌, OnOk, OnErr, ◌⊎◌};
ghost use Rattle.io_traits.specs.Told.{Counts, OtherFiles, Tells};
ghost use Rattle.command_parts.specs.Exiting.{WritesOut};
ghost use Rattle.command_parts.specs.Files.{TellsFront};
ghost use Rattle.command_parts.specs.Outside.{outside};

use crate::status::Status;
use cloak_base::Failed;
use io_traits::{Shelf, Sink};

/// Makes these bytes the file of a name.
pub fn write_file<S: Shelf>(shelf: &mut S, name: &str, bytes: &[u8]) -> Result<(), Failed>
    ensures ok { OnOk result (Tells (S.held shelf.new name.now) bytes.now) }
    ensures err { OnErr result ((S.held shelf.new name.now ≡ S.held shelf.old name.now)
        ⊎ TellsFront (S.held shelf.new name.now) bytes.now) }
    ensures others { OtherFiles name.now (S.held shelf.old) (S.held shelf.new) }
    ensures writing { Counts (S.writing_faults shelf.old) (S.writing_faults shelf.new) result }
    ensures reading { S.reading_faults shelf.new ≡ S.reading_faults shelf.old }
{
    shelf.begin(name)?;
    shelf.append(name, bytes)?;
    shelf.flush()
}

/// Writes out what is gathered for files and output, and returns this status, or the write fault if that failed.
pub fn write_out<S: Shelf, O: Sink>(status: Status, shelf: &mut S, out: &mut O) -> Status
    ensures written { WritesOut status
        (outside S.Shelf O.Sink shelf.old out.old) (outside S.Shelf O.Sink shelf.new out.new) result }
    ensures files { result ≢ Status.WriteFault → S.is_settled shelf.new }
    ensures shown { result ≢ Status.WriteFault → O.is_settled out.new }
{
    let are_unwritten = shelf.flush().is_err();
    let is_unshown = out.flush().is_err();
    if are_unwritten || is_unshown {
        return Status::WriteFault;
    }
    status
}
