//! Bytes from an offset on, as far as there is room for them.
ghost use Rattle.std.specs.Prelude.{◌≡◌, ◌++◌, length, take, drop, min};

/// Copies all bytes from `at` on that `into` has room for, and says how many.
pub fn copy_from(bytes: &[u8], at: u64, into: &mut [u8]) -> usize
    ensures count { result ≡ min (length into.old) (length (drop at bytes.now)) }
    ensures copied { into.new ≡ take result (drop at bytes.now) ++ drop result into.old }
{
    let from = (at as usize).min(bytes.len());
    let rest = &bytes[from..];
    let n = rest.len().min(into.len());
    into[..n].copy_from_slice(&rest[..n]);
    n
}
