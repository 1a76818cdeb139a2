ghost use Rattle.std.specs.Prelude.{◌≡◌};
ghost use Rattle.rv_asm.specs.declared.fault.AsmFault.TheVariants as faults;
ghost use Rattle.rv_asm.specs.Assembly.{fault_at};

use std::alloc::{AllocError, AllocFailed};

/// Why a text is not assembled: its first faulty line, counted from 1, with what is wrong there.
#[derive(Clone, Copy, Debug, PartialEq, Eq)]
pub enum AsmFault {
    /// The first word is neither a mnemonic, nor a further form, nor a label with its colon.
    UnknownWord(u32),
    /// An operand is missing, extra, malformed or out of its range.
    BadOperand(u32),
    /// A label was defined before, or is used and nowhere defined.
    BadLabel(u32),
    /// The label lies beyond the reach of the branch or jump.
    OutOfReach(u32),
    /// No line is faulty, and there are more than 65,536 words.
    TooLong,
    /// A growth was refused.
    NoMemory,
}

impl From<AllocError> for AsmFault {
    ghost from_gives = { λ _ e. e ≡ faults.NoMemory };

    fn from(_: AllocError) -> AsmFault {
        AsmFault::NoMemory
    }
}

impl<T: Drop> From<AllocFailed<T>> for AsmFault {
    ghost from_gives = { λ _ e. e ≡ faults.NoMemory };

    fn from(_: AllocFailed<T>) -> AsmFault {
        AsmFault::NoMemory
    }
}

/// What is wrong with a line.
#[derive(Clone, Copy)]
pub enum FaultKind {
    UnknownWord,
    BadOperand,
    BadLabel,
    OutOfReach,
}

/// The fault of a line.
pub fn fault_at(line: u32, kind: FaultKind) -> AsmFault
    ensures { result ≡ fault_at line kind }
{
    match kind {
        FaultKind::UnknownWord => AsmFault::UnknownWord(line),
        FaultKind::BadOperand => AsmFault::BadOperand(line),
        FaultKind::BadLabel => AsmFault::BadLabel(line),
        FaultKind::OutOfReach => AsmFault::OutOfReach(line),
    }
}
