//! Why a file has no words.

/// Why the bytes of a file are no words that are shown.
#[derive(Clone, Copy, Debug, PartialEq, Eq)]
pub enum WordsFault {
    /// There are none; so has a file that is not there.
    NoBytes,
    /// There are more than 262,144.
    TooLarge,
    /// Their number is no multiple of 4.
    NotWords,
    /// Some words have no address.
    PastEnd,
    /// There is not enough memory.
    NoMemory,
}
