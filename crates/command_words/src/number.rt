//! Numbers among the words.
ghost use Rattle.std.specs.Prelude.{◌≡◌};
ghost use Rattle.command_words.specs.Command as spec;

/// The value of 1 to 20 decimal digits, if it is at most `limit`.
pub fn number_up_to(word: &str, limit: u64) -> Option<u64>
    ensures { result ≡ spec.number_up_to limit word.now }
{
    let digits = word.as_bytes();
    if digits.is_empty() || digits.len() > 20 {
        return None;
    }
    let mut value: u64 = 0;
    for digit in digits {
        if !digit.is_ascii_digit() {
            return None;
        }
        let more = (*digit - b'0') as u64;
        value = match value.checked_mul(10) {
            Some(tens) if tens <= limit && limit - tens >= more => tens + more,
            _ => return None,
        };
    }
    Some(value)
}
