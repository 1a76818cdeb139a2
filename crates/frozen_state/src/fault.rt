//! What is wrong with a file that is no frozen state.
ghost use Rattle.std.specs.Prelude.{◌≡◌};
ghost use Rattle.frozen_state.specs.declared.fault.FrozenFault.TheVariants as faults;

use std::alloc::{AllocError, AllocFailed};

/// Why a file is no frozen state of an image: the first test that fails.
#[derive(Clone, Copy, Debug, PartialEq, Eq)]
pub enum FrozenFault {
    /// The file has this length, and is too short for magic and digest.
    Short(u64),
    /// The file does not begin with `CLOAKFRZ`.
    BadMagic,
    /// The last 32 bytes are not the digest of all before them.
    Digest,
    /// The state is of another image.
    OtherBundle,
    /// The field at this offset breaks its rule, or bytes are missing or too many from this offset on.
    Form(u64),
    /// A growth was refused.
    NoMemory,
}

impl From<AllocError> for FrozenFault {
    ghost from_gives = { λ _ e. e ≡ faults.NoMemory };

    fn from(_: AllocError) -> FrozenFault {
        FrozenFault::NoMemory
    }
}

impl<T: Drop> From<AllocFailed<T>> for FrozenFault {
    ghost from_gives = { λ _ e. e ≡ faults.NoMemory };

    fn from(_: AllocFailed<T>) -> FrozenFault {
        FrozenFault::NoMemory
    }
}
