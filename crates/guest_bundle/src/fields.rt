ghost use Rattle.std.specs.Prelude.{◌≡◌, ◌+◌, ◌*◌, ◌≤◌, length, OnOk};
ghost use Rattle.guest_bundle.specs.Fields.{Shows, bytes_at, pages_at, number_at, count_at, entry_at};

use crate::BundleFault;

/// `n` bytes from an offset on.
pub fn bytes(file: &[u8], at: usize, n: usize) -> Result<&[u8], BundleFault>
    requires { at ≤ length file.now }
    ensures field { Shows (λ x. x.now) result (bytes_at file.now at n) }
    ensures whole { OnOk result (at + n ≤ length file.now) }
{
    if file.len() - at < n {
        return Err(BundleFault::Short(at as u64));
    }
    Ok(&file[at..at + n])
}

/// Pages from an offset on, each of them a field.
pub fn pages(file: &[u8], at: usize, n: u32) -> Result<&[u8], BundleFault>
    requires { at ≤ length file.now }
    ensures field { Shows (λ x. x.now) result (pages_at file.now at n) }
    ensures whole { OnOk result (at + 4096 * n ≤ length file.now) }
{
    let left = file.len() - at;
    let size = 4096 * n as usize;
    if left < size {
        return Err(BundleFault::Short((at + left / 4096 * 4096) as u64));
    }
    Ok(&file[at..at + size])
}

/// A number of 32 bits.
pub fn number(file: &[u8], at: usize) -> Result<u32, BundleFault>
    requires { at ≤ length file.now }
    ensures field { result ≡ number_at file.now at }
    ensures whole { OnOk result (at + 4 ≤ length file.now) }
{
    if file.len() - at < 4 {
        return Err(BundleFault::Short(at as u64));
    }
    let word = [file[at], file[at + 1], file[at + 2], file[at + 3]];
    Ok(u32::from_le_bytes(word))
}

/// A number in a range, its ends included.
#[tactic(auto, unfolding(crate::specs::Fields::count_at))]
pub fn count(file: &[u8], at: usize, low: u32, high: u32) -> Result<u32, BundleFault>
    requires { at ≤ length file.now }
    ensures field { result ≡ count_at file.now at (record { low = low; high = high }) }
    ensures whole { OnOk result (at + 4 ≤ length file.now) }
{
    let n = number(file, at)?;
    if n < low {
        return Err(BundleFault::BadCount(at as u64));
    }
    if high < n {
        return Err(BundleFault::TooLarge(at as u64));
    }
    Ok(n)
}

/// A program counter to start at: a multiple of 4.
#[tactic(auto, unfolding(crate::specs::Fields::entry_at))]
pub fn entry(file: &[u8], at: usize) -> Result<u32, BundleFault>
    requires { at ≤ length file.now }
    ensures field { result ≡ entry_at file.now at }
    ensures whole { OnOk result (at + 4 ≤ length file.now) }
{
    let n = number(file, at)?;
    if n % 4 != 0 {
        return Err(BundleFault::BadRange(at as u64));
    }
    Ok(n)
}
