//! Why a file is no assembler text.

use rv_asm::AsmFault;

/// Why the bytes of a file are no text that is assembled.
#[derive(Clone, Copy, Debug, PartialEq, Eq)]
pub enum TextFault {
    /// There are none; so has a file that is not there.
    NoBytes,
    /// There are more than 16,777,216.
    TooLarge,
    /// They are no UTF-8.
    NotText,
    /// A statement is faulty, or there are too many words; or there is not enough memory.
    Faulty(AsmFault),
}
