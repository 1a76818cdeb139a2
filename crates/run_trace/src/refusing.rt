//! A hart is named that the bundle does not have.
ghost use Rattle.std.specs.Prelude.{◌≡◌};
ghost use Rattle.command_parts.specs.Outside.{output};
ghost use Rattle.run_trace.specs.Refusing as spec;
ghost use Rattle.run_trace.specs.Refusing.{SaysNoHart};

use command_parts::Status;
use io_traits::{Sink, put_all};

/// Of so many harts the one that is named is one, if one is named.
pub fn is_there(hart: Option<u32>, harts: u32) -> bool
    ensures { result ≡ spec.is_there hart harts }
{
    match hart {
        None => true,
        Some(hart) => hart < harts,
    }
}

/// Says that there is no such hart.
pub fn refuse_hart<O: Sink>(out: &mut O) -> Status
    ensures { SaysNoHart (output O.Sink out.old) (output O.Sink out.new) result }
{
    match put_all(out, b"usage: no such hart\n") {
        Ok(()) => Status::Usage,
        Err(_) => Status::WriteFault,
    }
}
