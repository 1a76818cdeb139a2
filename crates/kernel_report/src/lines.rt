//! The parts of the report's lines. Each is put after what was put so far, unless that failed.
ghost use Rattle.std.specs.Prelude.{decimal};
ghost use Rattle.hex.specs.Hex.{encode_lower};
ghost use Rattle.cloak_model.specs.Report as spec;
ghost use Rattle.kernel_report.specs.Putting.{PutsMore, putting};

use cloak_base::Failed;
use io_traits::{Sink, put_all};

/// What was put so far: all, or a front of it and a fault.
pub type SoFar = Result<(), Failed>;

/// A text as it is.
pub fn text<O: Sink>(out: &mut O, so_far: SoFar, piece: &[u8]) -> SoFar
    ensures { PutsMore (putting O.Sink out.old so_far) (putting O.Sink out.new result) piece.now }
{
    match so_far {
        Ok(()) => put_all(out, piece),
        Err(fault) => Err(fault),
    }
}

/// A number in decimal digits.
pub fn decimal<O: Sink>(out: &mut O, so_far: SoFar, n: u64) -> SoFar
    ensures { PutsMore (putting O.Sink out.old so_far) (putting O.Sink out.new result) (decimal n) }
{
    let mut digits = itoa::Buffer::new();
    text(out, so_far, digits.format(n).as_bytes())
}

/// A word in eight hexadecimal digits.
pub fn hexadecimal<O: Sink>(out: &mut O, so_far: SoFar, w: u32) -> SoFar
    ensures { PutsMore (putting O.Sink out.old so_far) (putting O.Sink out.new result) (spec.hexadecimal w) }
{
    let mut digits = [0; 8];
    let Ok(()) = hex::encode_to_slice(w.to_be_bytes().as_slice(), &mut digits) else {
        unreachable!();
    };
    text(out, so_far, &digits)
}

/// A digest in hexadecimal digits.
pub fn digest<O: Sink>(out: &mut O, so_far: SoFar, bytes: &[u8; 32]) -> SoFar
    ensures { PutsMore (putting O.Sink out.old so_far) (putting O.Sink out.new result) (encode_lower bytes.now) }
{
    let mut digits = [0; 64];
    let Ok(()) = hex::encode_to_slice(bytes.as_slice(), &mut digits) else {
        unreachable!();
    };
    text(out, so_far, &digits)
}
