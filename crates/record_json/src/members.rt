//! The members of an object, one after another.
ghost use Rattle.std.specs.Prelude.{◌≡◌};
ghost use Rattle.hex.specs.Hex.{encode_lower};
ghost use Rattle.json.specs.Print.{escape, quoted};
ghost use Rattle.kernel_report.specs.Putting.{PutsMore, putting};
ghost use Rattle.serde_json.specs.Data.{array};
ghost use Rattle.serde_json.specs.Written.{compact_text};
ghost use Rattle.record_json.specs.Members as spec;

use io_traits::Sink;
use kernel_report::lines::{SoFar, decimal, digest, text};

/// A text as it is.
fn put_plain<O: Sink>(out: &mut O, so_far: SoFar, plain: &str) -> SoFar
    ensures { PutsMore (putting O.Sink out.old so_far) (putting O.Sink out.new result) (plain.now) }
{
    text(out, so_far, plain.as_bytes())
}

/// A text in quotes, which has nothing to escape.
fn put_quoted<O: Sink>(out: &mut O, so_far: SoFar, plain: &str) -> SoFar
    requires { escape plain.now ≡ plain.now }
    ensures { PutsMore (putting O.Sink out.old so_far) (putting O.Sink out.new result) (quoted plain.now) }
{
    let so_far = text(out, so_far, b"\"");
    let so_far = put_plain(out, so_far, plain);
    text(out, so_far, b"\"")
}

/// A member whose value is a text, as the first one.
pub fn put_first_text<O: Sink>(out: &mut O, so_far: SoFar, name: &str, value: &str) -> SoFar
    requires name { escape name.now ≡ name.now }
    requires value { escape value.now ≡ value.now }
    ensures { PutsMore (putting O.Sink out.old so_far) (putting O.Sink out.new result)
        (spec.member_text (spec.with_text name.now value.now)) }
{
    let so_far = put_quoted(out, so_far, name);
    let so_far = text(out, so_far, b":");
    put_quoted(out, so_far, value)
}

/// A member whose value is a text.
pub fn put_text<O: Sink>(out: &mut O, so_far: SoFar, name: &str, value: &str) -> SoFar
    requires name { escape name.now ≡ name.now }
    requires value { escape value.now ≡ value.now }
    ensures { PutsMore (putting O.Sink out.old so_far) (putting O.Sink out.new result)
        (spec.next_member (spec.with_text name.now value.now)) }
{
    let so_far = text(out, so_far, b",");
    put_first_text(out, so_far, name, value)
}

/// A member whose value is a number, as the first one.
pub fn put_first_number<O: Sink>(out: &mut O, so_far: SoFar, name: &str, n: u64) -> SoFar
    requires { escape name.now ≡ name.now }
    ensures { PutsMore (putting O.Sink out.old so_far) (putting O.Sink out.new result)
        (spec.member_text (spec.with_number name.now n)) }
{
    let so_far = put_quoted(out, so_far, name);
    let so_far = text(out, so_far, b":");
    decimal(out, so_far, n)
}

/// A member whose value is a number.
pub fn put_number<O: Sink>(out: &mut O, so_far: SoFar, name: &str, n: u64) -> SoFar
    requires { escape name.now ≡ name.now }
    ensures { PutsMore (putting O.Sink out.old so_far) (putting O.Sink out.new result)
        (spec.next_member (spec.with_number name.now n)) }
{
    let so_far = text(out, so_far, b",");
    put_first_number(out, so_far, name, n)
}

/// A digest in quotes.
fn put_quoted_digest<O: Sink>(out: &mut O, so_far: SoFar, bytes: &[u8; 32]) -> SoFar
    ensures { PutsMore (putting O.Sink out.old so_far) (putting O.Sink out.new result)
        (quoted (encode_lower bytes.now)) }
{
    let so_far = text(out, so_far, b"\"");
    let so_far = digest(out, so_far, bytes);
    text(out, so_far, b"\"")
}

/// A member whose value is a digest.
pub fn put_digest<O: Sink>(out: &mut O, so_far: SoFar, name: &str, bytes: &[u8; 32]) -> SoFar
    requires { escape name.now ≡ name.now }
    ensures { PutsMore (putting O.Sink out.old so_far) (putting O.Sink out.new result)
        (spec.next_member (spec.with_text name.now (encode_lower bytes.now))) }
{
    let so_far = text(out, so_far, b",");
    let so_far = put_quoted(out, so_far, name);
    let so_far = text(out, so_far, b":");
    put_quoted_digest(out, so_far, bytes)
}

/// Numbers, each after a comma.
fn put_more_numbers<O: Sink>(out: &mut O, so_far: SoFar, numbers: &[u32]) -> SoFar
    ensures { PutsMore (putting O.Sink out.old so_far) (putting O.Sink out.new result)
        (spec.more_numbers numbers.now) }
{
    let mut so_far = so_far;
    for n in numbers {
        so_far = text(out, so_far, b",");
        so_far = decimal(out, so_far, *n as u64);
    }
    so_far
}

/// Six numbers in brackets.
fn put_six<O: Sink>(out: &mut O, so_far: SoFar, numbers: &[u32; 6]) -> SoFar
    ensures { PutsMore (putting O.Sink out.old so_far) (putting O.Sink out.new result)
        (compact_text (array (spec.numbers numbers.now))) }
{
    let so_far = text(out, so_far, b"[");
    let so_far = decimal(out, so_far, numbers[0] as u64);
    let so_far = put_more_numbers(out, so_far, &numbers[1..]);
    text(out, so_far, b"]")
}

/// A member whose value is six numbers.
pub fn put_six_numbers<O: Sink>(out: &mut O, so_far: SoFar, name: &str, numbers: &[u32; 6]) -> SoFar
    requires { escape name.now ≡ name.now }
    ensures { PutsMore (putting O.Sink out.old so_far) (putting O.Sink out.new result)
        (spec.next_member (spec.with_numbers name.now numbers.now)) }
{
    let so_far = text(out, so_far, b",");
    let so_far = put_quoted(out, so_far, name);
    let so_far = text(out, so_far, b":");
    put_six(out, so_far, numbers)
}
