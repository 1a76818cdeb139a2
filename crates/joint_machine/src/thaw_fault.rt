use cloak_base::NoMemory;
use std::alloc::{AllocError, AllocFailed};

/// Why no run goes on from a frozen state: the first test that fails.
#[derive(Clone, Copy, Debug, PartialEq, Eq)]
pub enum ThawFault {
    /// The random stream does not hold 16 bytes for each key.
    NoKey,
    /// It has fewer draws after the keys than were made.
    NoRandom,
    /// The page of this domain has not its digest.
    Domain(u32),
    /// The page that this frame is owed has not its digest.
    Frame(u32),
    /// The page of a domain is that of no program; or a page, or a page table, of the domain is none of that program. In the
    /// file it begins at this offset.
    Form(u64),
    NoMemory,
}

impl From<NoMemory> for ThawFault {
    ghost use Rattle.std.specs.Prelude.{◌≡◌};
    ghost use Rattle.joint_machine.specs.declared.thaw_fault.ThawFault.TheVariants as fault;

    ghost from_gives = { λ _ e. e ≡ fault.NoMemory };

    fn from(_: NoMemory) -> ThawFault {
        ThawFault::NoMemory
    }
}

impl From<AllocError> for ThawFault {
    ghost use Rattle.std.specs.Prelude.{◌≡◌};
    ghost use Rattle.joint_machine.specs.declared.thaw_fault.ThawFault.TheVariants as fault;

    ghost from_gives = { λ _ e. e ≡ fault.NoMemory };

    fn from(_: AllocError) -> ThawFault {
        ThawFault::NoMemory
    }
}

impl<T: Drop> From<AllocFailed<T>> for ThawFault {
    ghost use Rattle.std.specs.Prelude.{◌≡◌};
    ghost use Rattle.joint_machine.specs.declared.thaw_fault.ThawFault.TheVariants as fault;

    ghost from_gives = { λ _ e. e ≡ fault.NoMemory };

    fn from(_: AllocFailed<T>) -> ThawFault {
        ThawFault::NoMemory
    }
}
