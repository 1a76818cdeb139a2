ghost use Rattle.std.specs.Prelude.{◌≡◌};
ghost use Rattle.command_parts.specs.Status.{status_number};

/// How a command ended; the program exits with its number.
#[derive(Clone, Copy, Debug, PartialEq, Eq)]
pub enum Status {
    Done,
    Violation,
    Usage,
    BadBundle,
    ReadFault,
    WriteFault,
    NoMemory,
    NoRandom,
    BadRecord,
    BadStore,
    /// A run was frozen.
    Frozen,
    BadState,
}

impl Status {
    /// The number that the program exits with.
    pub fn number(self) -> u8
        ensures { result ≡ status_number self }
    {
        match self {
            Status::Done => 0,
            Status::Violation => 1,
            Status::Usage => 2,
            Status::BadBundle => 3,
            Status::ReadFault => 4,
            Status::WriteFault => 5,
            Status::NoMemory => 6,
            Status::NoRandom => 7,
            Status::BadRecord => 8,
            Status::BadStore => 10,
            Status::Frozen => 11,
            Status::BadState => 12,
        }
    }
}
