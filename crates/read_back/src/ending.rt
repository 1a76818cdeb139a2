//! How the reading of a record ends, with the status and the line that say so.
ghost use Rattle.std.specs.Prelude.{◌≡◌, ◌≢◌};
ghost use Rattle.io_traits.specs.Sinks.{PutsTo};
ghost use Rattle.read_back.specs.Reading.{status_of_ending};
ghost use Rattle.read_back.specs.Text.{fault_line, record_line};

use cloak_base::Failed;
use cloak_model::RecordFault;
use command_parts::{Status, show_numbered};
use io_traits::{Sink, put_all};

/// How the reading of a record ended.
#[derive(Clone, Copy, Debug, PartialEq, Eq)]
pub enum Ending {
    /// The file is a record, and every item fits.
    Whole,
    /// An item does not fit; the step of the last marker before it, 0 in the opening.
    Unfit(u32),
    /// The file is no record.
    Fault(RecordFault),
    /// The file could not be read.
    Unread,
}

/// The status of a command whose reading ended so.
pub fn status(ending: &Ending) -> Status
    ensures { result ≡ status_of_ending ending.now }
{
    match ending {
        Ending::Whole => Status::Done,
        Ending::Unfit(_) | Ending::Fault(_) => Status::BadRecord,
        Ending::Unread => Status::ReadFault,
    }
}

/// Shows why a file is no record.
fn show_record_fault<O: Sink>(out: &mut O, fault: RecordFault) -> Result<(), Failed>
    ensures { PutsTo O.Sink out.old out.new (record_line fault) result }
{
    match fault {
        RecordFault::Short(at) => show_numbered(out, b"record: short at ", at),
        RecordFault::BadMagic => put_all(out, b"record: magic\n"),
        RecordFault::BadTag(at) => show_numbered(out, b"record: tag at ", at),
        RecordFault::StepOrder(at) => show_numbered(out, b"record: order at ", at),
        RecordFault::Extra(at) => show_numbered(out, b"record: extra at ", at),
    }
}

/// Shows the line that says why a record was not read to its end; nothing if it was.
pub fn show_fault<O: Sink>(out: &mut O, ending: &Ending) -> Result<(), Failed>
    ensures { PutsTo O.Sink out.old out.new (fault_line ending.now) result }
{
    match *ending {
        Ending::Whole => Ok(()),
        Ending::Unfit(step) => show_numbered(out, b"record: unfit at step ", step as u64),
        Ending::Fault(fault) => show_record_fault(out, fault),
        Ending::Unread => put_all(out, b"read fault\n"),
    }
}
