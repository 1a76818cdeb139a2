//! The secret file: five keys of 16 bytes.
ghost use Rattle.std.specs.Prelude.{◌≡◌, ◌≤◌, ◌+◌, All, length, take, drop};
ghost use Rattle.aes_block.specs.Bytes.{IsBytes};
ghost use Rattle.command_parts.specs.Storing.{secret_length, secret_of};
ghost use Rattle.old_files.specs.Reading.{keys_of};

/// The length of what is taken of a secret file.
pub const SECRET_LENGTH: usize = 80;

/// The keys of a run over cloaked files.
#[derive(Clone, Copy)]
pub struct Secret {
    /// The key for the codes of store files.
    pub mac: [u8; 16],
    /// The page keys by their numbers.
    pub keys: [[u8; 16]; 4],
}

impl Secret {
    /// The keys in these bytes, that for codes first.
    pub fn of(bytes: &[u8]) -> Secret
        requires { length bytes.now ≡ secret_length }
        ensures keys { keys_of result ≡ secret_of bytes.now }
        ensures mac { IsBytes 16 result.mac }
        ensures four { length result.keys ≡ 4 }
        ensures whole { All (IsBytes 16) result.keys }
    {
        Secret {
            mac: key_at(bytes, 0),
            keys: [
                key_at(bytes, 16),
                key_at(bytes, 32),
                key_at(bytes, 48),
                key_at(bytes, 64),
            ],
        }
    }
}

/// The key at a place.
fn key_at(bytes: &[u8], at: usize) -> [u8; 16]
    requires { at + 16 ≤ length bytes.now }
    ensures key { result ≡ take 16 (drop at bytes.now) }
    ensures whole { IsBytes 16 result }
{
    let mut key = [0; 16];
    key.copy_from_slice(&bytes[at..at + 16]);
    key
}
