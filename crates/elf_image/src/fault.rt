/// Why a file cannot be loaded.
#[derive(Clone, Copy, Debug, PartialEq, Eq)]
pub enum ElfCause {
    /// The file is shorter than a header.
    Short,
    /// It does not begin with the four bytes of every ELF file.
    NoMagic,
    /// It is not of 32 bits.
    OtherClass,
    /// Its numbers are not little-endian.
    OtherByteOrder,
    /// The version of the format is not 1.
    OtherVersion,
    /// It is an object, a library or a position-independent program.
    NotExecutable,
    /// It is not for RISC-V.
    OtherMachine,
    /// It has compressed instructions.
    Compressed,
    /// It passes numbers in floating-point registers.
    FloatRegisters,
    /// It is for a machine with 16 registers.
    FewRegisters,
    /// A flag is set of which nothing is known.
    OtherFlags,
    /// A program header is not of 32 bytes.
    HeaderSize,
    /// There are 65,535 program headers or more.
    TooManyHeaders,
    /// The program headers do not lie in the file.
    HeadersOutside,
    /// The bytes of a part do not lie in the file.
    BytesOutside,
    /// A part has more bytes in the file than in memory.
    MoreBytesThanSize,
    /// The addresses of a part pass the end of the address space.
    AddressesOutside,
    /// A part has an address of a part before it.
    Overlap,
    /// There are more than 16 parts.
    TooManyParts,
    /// There is no loadable part.
    NoPart,
}

/// The first fault of a file, with the offset of the field at fault; of a file that is too short, its length.
#[derive(Clone, Copy, Debug, PartialEq, Eq)]
pub struct ElfFault {
    pub cause: ElfCause,
    pub at: u64,
}
