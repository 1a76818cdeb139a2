//! How many bytes there were, and their digest.
ghost use Rattle.std.specs.Prelude.{◌≡◌, ◌++◌, List, ℕ, []};

use sha2::{Digest, Sha256};

/// The bytes so far.
#[derive(Drop)]
pub struct Sum {
    hasher: Sha256,
    count: u64,
}

impl Sum {
    ghost use Rattle.never_fails.specs.Sums.{Sums, counted};
    ghost use Rattle.sha2.specs.Sha256.{sha256};

    pub fn new() -> Sum
        ensures { Sums result [] }
    {
        Sum {
            hasher: Sha256::new(),
            count: 0,
        }
    }

    /// Takes a piece after the bytes so far.
    pub fn put(&mut self, piece: &[u8])
        ensures { (bytes : List ℕ) → Sums self.old bytes → Sums self.new (bytes ++ piece.now) }
    {
        self.hasher.update(piece);
        self.count = self.count.saturating_add(piece.len() as u64);
    }

    /// The count, up to 2^64 - 1, and the digest.
    pub fn finish(self) -> (u64, [u8; 32])
        ensures { (bytes : List ℕ) → Sums self bytes → result ≡ (counted bytes, sha256 bytes) }
    {
        let Sum { hasher, count } = self;
        (count, hasher.finalize())
    }
}
