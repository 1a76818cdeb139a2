//! A text that the tools say.
ghost use Rattle.command_parts.specs.Outside.{output};
ghost use Rattle.disassembly.specs.Disassembling.{ShowsText};

use command_parts::Status;
use io_traits::{Sink, put_all};

/// Shows a text, and returns a status, or the write fault.
pub fn say<O: Sink>(out: &mut O, text: &[u8], status: Status) -> Status
    ensures { ShowsText text.now status (output O.Sink out.old) (output O.Sink out.new) result }
{
    match put_all(out, text) {
        Ok(()) => status,
        Err(_) => Status::WriteFault,
    }
}
