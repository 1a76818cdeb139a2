//! What is wrong with words.
/// What is wrong with the words of a command line. If several hold, the first in this order is meant.
#[derive(Clone, Copy, Debug, PartialEq, Eq)]
pub enum UsageFault {
    NoCommand,
    UnknownCommand,
    WrongWords,
    /// Of the two options that name the random stream not exactly one is given.
    NoRandomness,
    WrongNumber,
    /// Two of the files that are written have one name.
    SameName,
    /// The random stream comes from the file of the secret or of the vectors, so keys would be shown as vectors.
    SameSource,
}
