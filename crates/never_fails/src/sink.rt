ghost use Rattle.std.specs.Prelude.{◌≡◌, ◌++◌, List, ℕ, [], None, Ok, length, IsOk};
ghost use Rattle.never_fails.specs.Sums.{Sums, counted};

use crate::sum::Sum;
use cloak_base::Failed;
use io_traits::Sink;

/// A sink that takes every piece whole, and keeps count and digest.
#[derive(Drop)]
pub struct NeverSink {
    sum: Sum,
}

impl NeverSink {
    ghost use Rattle.sha2.specs.Sha256.{sha256};

    /// A sink that took nothing yet.
    pub fn open() -> NeverSink
        ensures { Sums result.sum [] }
    {
        NeverSink { sum: Sum::new() }
    }

    /// How many bytes were taken, up to 2^64 - 1, and the SHA-256 of them in order.
    pub fn sum(self) -> (u64, [u8; 32])
        ensures { (bytes : List ℕ) → Sums self.sum bytes → result ≡ (counted bytes, sha256 bytes) }
    {
        self.sum.finish()
    }
}

impl Sink for NeverSink {
    ghost taken = { λ _. None };

    ghost faults = { λ _. 0 };

    ghost is_settled = { λ _. Unit {0} };

    fn put(&mut self, bytes: &[u8]) -> Result<usize, Failed>
        ensures whole { result ≡ Ok (length bytes.now) }
        ensures takes { (before : List ℕ) → Sums self.old.sum before → Sums self.new.sum (before ++ bytes.now) }
    {
        self.sum.put(bytes);
        Ok(bytes.len())
    }

    fn flush(&mut self) -> Result<(), Failed>
        ensures ok { IsOk result }
        ensures same { self.new ≡ self.old }
    {
        Ok(())
    }
}
