//! HMAC-SHA-256 (FIPS 198-1 (2008), section 4).
ghost use Rattle.std.specs.Prelude.{◌≡◌, ◌≤◌, ◌++◌, length};
ghost use Rattle.sha2.specs.Sha256.{sha256};
ghost use Rattle.cloak_model.specs.Hmac as spec;

use sha2::{Digest, Sha256};

/// The key filled up to a block with zeros, with each byte combined with a pad.
fn padded(pad: u8, key: &[u8]) -> [u8; 64]
    requires { length key.now ≤ 64 }
    ensures { result ≡ spec.padded pad key.now }
{
    let mut block = [pad; 64];
    for i in 0..key.len() {
        block[i] = key[i] ^ pad;
    }
    block
}

/// The digest of a block and a text after it.
fn digest_of(block: &[u8; 64], text: &[u8]) -> [u8; 32]
    ensures { result ≡ sha256 (block.now ++ text.now) }
{
    let mut hasher = Sha256::new();
    hasher.update(block.as_slice());
    hasher.update(text);
    hasher.finalize()
}

/// The code of a text under a key of at most 64 bytes.
#[tactic(auto, unfolding(cloak_model::specs::Hmac::hmac))]
pub fn hmac(key: &[u8], text: &[u8]) -> [u8; 32]
    requires { length key.now ≤ 64 }
    ensures { result ≡ spec.hmac key.now text.now }
{
    let inner = digest_of(&padded(0x36, key), text);
    digest_of(&padded(0x5c, key), &inner)
}
