//! The digest of a guest image's file.
ghost use Rattle.std.specs.Prelude.{◌≡◌};
ghost use Rattle.sha2.specs.Sha256.{sha256};

use sha2::{Digest, Sha256};

/// The SHA-256 of these bytes, which are given up.
pub(crate) fn digest_of(bytes: Vec<u8>) -> [u8; 32]
    ensures { result ≡ sha256 bytes.items }
{
    let mut hasher = Sha256::new();
    hasher.update(bytes.as_slice());
    hasher.finalize()
}
