//! The line of a domain in the report.
ghost use Rattle.std.specs.Prelude.{◌≡◌, ◌≤◌, ◌+◌, length, take, decimal};
ghost use Rattle.hex.specs.Hex.{encode_lower};
ghost use Rattle.domain_page.specs.Writing.{Appends};
ghost use Rattle.hypercalls.specs.Writing.{line_of};

/// Writes a text at a place, and returns the place after it.
fn append(into: &mut [u8; 256], at: usize, text: &[u8]) -> usize
    requires { at + length text.now ≤ 256 }
    ensures { Appends into.old into.new at result text.now }
{
    let end = at + text.len();
    into[at..end].copy_from_slice(text);
    end
}

/// Writes a number in decimal digits.
pub fn append_number(into: &mut [u8; 256], at: usize, n: u64) -> usize
    requires { at + 20 ≤ 256 }
    ensures number { Appends into.old into.new at result (decimal n) }
    ensures short { result ≤ at + 20 }
{
    let mut digits = itoa::Buffer::new();
    append(into, at, digits.format(n).as_bytes())
}

/// Writes a digest in hexadecimal digits.
pub fn append_digest(into: &mut [u8; 256], at: usize, digest: &[u8; 32]) -> usize
    requires { at + 64 ≤ 256 }
    ensures digest { Appends into.old into.new at result (encode_lower digest.now) }
    ensures length { result ≡ at + 64 }
{
    let mut digits = [0; 64];
    let Ok(()) = hex::encode_to_slice(digest.as_slice(), &mut digits) else {
        unreachable!();
    };
    append(into, at, &digits)
}

/// Writes the line of a domain of this number, with the digest of its state, and the count and the digest of its loads.
/// Returns its length.
pub fn write_line(
    into: &mut [u8; 256],
    number: u32,
    state: &[u8; 32],
    count: u64,
    loads: &[u8; 32],
) -> usize
    ensures inside { result ≤ 256 }
    ensures line { take result into.new ≡ line_of number state.now count loads.now }
{
    let at = append(into, 0, b"domain ");
    let at = append_number(into, at, number as u64);
    let at = append(into, at, b" state ");
    let at = append_digest(into, at, state);
    let at = append(into, at, b" loads ");
    let at = append_number(into, at, count);
    let at = append(into, at, b" ");
    let at = append_digest(into, at, loads);
    append(into, at, b"\n")
}
