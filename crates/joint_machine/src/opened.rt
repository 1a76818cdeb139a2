ghost use Rattle.std.specs.Prelude.{◌≡◌};

use cloak_base::NoMemory;
use std::alloc::AllocError;

/// Why a machine could not be opened under a random stream alone.
#[derive(Clone, Copy, Debug, PartialEq, Eq)]
pub enum OpenFault {
    /// The random stream does not hold 16 bytes for each key.
    NoKey,
    /// A page of a program found no draw.
    NoRandom,
    NoMemory,
}

impl From<NoMemory> for OpenFault {
    ghost use Rattle.std.specs.Prelude.{◌≡◌};
    ghost use Rattle.joint_machine.specs.declared.opened.OpenFault.TheVariants as fault;

    ghost from_gives = { λ _ e. e ≡ fault.NoMemory };

    fn from(_: NoMemory) -> OpenFault {
        OpenFault::NoMemory
    }
}

impl From<AllocError> for OpenFault {
    ghost use Rattle.std.specs.Prelude.{◌≡◌};
    ghost use Rattle.joint_machine.specs.declared.opened.OpenFault.TheVariants as fault;

    ghost from_gives = { λ _ e. e ≡ fault.NoMemory };

    fn from(_: AllocError) -> OpenFault {
        OpenFault::NoMemory
    }
}

/// Why a machine could not be opened over the files of an earlier run.
#[derive(Clone, Copy, Debug, PartialEq, Eq)]
pub enum StoredFault {
    /// A page of a program found no draw.
    NoRandom,
    /// There is no room for a file of this domain, or there is no such domain.
    NoRoom(u32),
    NoMemory,
}

impl From<NoMemory> for StoredFault {
    ghost use Rattle.std.specs.Prelude.{◌≡◌};
    ghost use Rattle.joint_machine.specs.declared.opened.StoredFault.TheVariants as fault;

    ghost from_gives = { λ _ e. e ≡ fault.NoMemory };

    fn from(_: NoMemory) -> StoredFault {
        StoredFault::NoMemory
    }
}

impl From<AllocError> for StoredFault {
    ghost use Rattle.std.specs.Prelude.{◌≡◌};
    ghost use Rattle.joint_machine.specs.declared.opened.StoredFault.TheVariants as fault;

    ghost from_gives = { λ _ e. e ≡ fault.NoMemory };

    fn from(_: AllocError) -> StoredFault {
        StoredFault::NoMemory
    }
}
