//! The end of a command that makes a file of what it read.
ghost use Rattle.std.specs.Prelude.{◌≡◌, ◌≤◌, ◌⊎◌, ℕ, length, take, Err, OnOk, OnErr};
ghost use Rattle.io_traits.specs.Told.{Counts, OtherFiles, Tells};
ghost use Rattle.command_parts.specs.Outside.{outside, output, files};
ghost use Rattle.command_parts.specs.Files.{ReadsFile};
ghost use Rattle.asm_text.specs.Making.{Concludes, ShowsWhy, refusal_reason};

use cloak_base::Failed;
use command_parts::{Refusal, Status, refuse};
use io_traits::{Shelf, Sink, put_all};

/// Why there is nothing to write.
#[derive(Debug, Drop)]
pub enum Reason {
    /// A file could not be read.
    ReadFault,
    NoMemory,
    /// What was read is faulty: this text says where and why.
    Faulty(String),
}

/// The reason for which a file was not read.
pub fn reason_of(refusal: Refusal) -> Reason
    ensures { result ≡ refusal_reason refusal }
{
    match refusal {
        Refusal::ReadFault => Reason::ReadFault,
        _ => Reason::NoMemory,
    }
}

/// Makes these bytes the file of a name.
fn write_file<S: Shelf>(shelf: &mut S, name: &str, bytes: &[u8]) -> Result<(), Failed>
    ensures ok { OnOk result (Tells (S.held shelf.new name.now) bytes.now) }
    ensures err { OnErr result ((S.held shelf.new name.now ≡ S.held shelf.old name.now)
        ⊎ ((n : ℕ) × (n ≤ length bytes.now) × Tells (S.held shelf.new name.now) (take n bytes.now))) }
    ensures others { OtherFiles name.now (S.held shelf.old) (S.held shelf.new) }
    ensures writing { Counts (S.writing_faults shelf.old) (S.writing_faults shelf.new) result }
    ensures reading { S.reading_faults shelf.new ≡ S.reading_faults shelf.old }
{
    shelf.begin(name)?;
    shelf.append(name, bytes)?;
    shelf.flush()
}

/// Shows the text of a reason, and returns its status, or the write fault.
fn show_reason<O: Sink>(out: &mut O, reason: &Reason) -> Status
    ensures { ShowsWhy reason.now (output O.Sink out.old) (output O.Sink out.new) result }
{
    match reason {
        Reason::ReadFault => refuse(out, &Refusal::ReadFault),
        Reason::NoMemory => refuse(out, &Refusal::NoMemory),
        Reason::Faulty(text) => match put_all(out, text.as_bytes()) {
            Ok(()) => Status::BadBundle,
            Err(_) => Status::WriteFault,
        },
    }
}

/// Writes what was made to the file of a name, or shows why there is nothing to write. It returns the status.
pub fn conclude<S: Shelf, O: Sink>(
    made: &Result<Vec<u8>, Reason>,
    name: &str,
    shelf: &mut S,
    out: &mut O,
) -> Status
    ensures { Concludes made.now name.now
        (outside S.Shelf O.Sink shelf.old out.old) (outside S.Shelf O.Sink shelf.new out.new) result }
{
    match made {
        Ok(bytes) => match write_file(shelf, name, bytes.as_slice()) {
            Ok(()) => Status::Done,
            Err(_) => Status::WriteFault,
        },
        Err(reason) => show_reason(out, reason),
    }
}
