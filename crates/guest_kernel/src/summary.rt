//! The line that tells a generated image.
ghost use Rattle.std.specs.Prelude.{decimal};
ghost use Rattle.io_traits.specs.Sinks.{PutsTo};
ghost use Rattle.guest_kernel.specs.Summary.{PutsText, named, summary_line};

use crate::drawing::{harts, programs};
use crate::length::file_length;
use cloak_base::Failed;
use io_traits::{Sink, put_all};

/// Puts a text.
fn put_text<O: Sink>(out: &mut O, text: &[u8]) -> Result<(), Failed>
    ensures { PutsText O.Sink out.old out.new text.now result }
{
    put_all(out, text)
}

/// Puts a number in decimal digits.
fn put_number<O: Sink>(out: &mut O, number: u64) -> Result<(), Failed>
    ensures { PutsText O.Sink out.old out.new (decimal number) result }
{
    let mut digits = itoa::Buffer::new();
    put_text(out, digits.format(number).as_bytes())
}

/// Puts a number after its name.
fn put_named<O: Sink>(out: &mut O, name: &[u8], number: u64) -> Result<(), Failed>
    ensures { PutsText O.Sink out.old out.new (named name.now number) result }
{
    put_text(out, name)?;
    put_number(out, number)
}

/// Puts the line of a number's image. One that failed has put a front of it.
pub fn put_summary<O: Sink>(out: &mut O, n: u64) -> Result<(), Failed>
    ensures { PutsTo O.Sink out.old out.new (summary_line n) result }
{
    put_named(out, b"gen ", n)?;
    put_named(out, b" harts ", u64::from(harts(n)))?;
    put_named(out, b" programs ", u64::from(programs(n)))?;
    put_named(out, b" frames ", 256)?;
    put_named(out, b" bytes ", file_length(n))?;
    put_text(out, b"\n")
}
