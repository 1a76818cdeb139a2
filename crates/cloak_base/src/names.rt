/// A frame of RAM, counted from 0. Frame `f` has the physical page number `0x80000 + f`.
#[derive(Clone, Copy, Debug, PartialEq, Eq)]
pub struct Frame(pub u32);

/// A hart, counted from 0.
#[derive(Clone, Copy, Debug, PartialEq, Eq)]
pub struct HartId(pub u32);

/// A context: its domain is the number divided by 8, its slot the rest.
#[derive(Clone, Copy, Debug, PartialEq, Eq)]
pub struct CtxId(pub u32);

/// A cloaked page: a page of a resource of a domain.
#[derive(Clone, Copy, Debug, PartialEq, Eq)]
pub struct PageId {
    pub domain: u32,
    pub resource: u32,
    pub page: u32,
}

/// What is known of a cloaked page that was shown: the initialization vector under which it was sealed, and what tells
/// whether bytes are its ciphertext.
#[derive(Clone, Copy, Debug, PartialEq, Eq)]
pub struct Meta {
    pub iv: [u8; 16],
    /// SHA-256 of the ciphertext.
    pub digest: [u8; 32],
}

/// An address space of a domain.
#[derive(Clone, Copy, Debug, PartialEq, Eq)]
pub struct SpaceId {
    pub domain: u32,
    pub number: u32,
}

/// What an access wants.
#[derive(Clone, Copy, Debug, PartialEq, Eq)]
pub enum Kind {
    Fetch,
    Load,
    Store,
}

/// The privilege mode of a hart: user or supervisor. There is no machine mode.
#[derive(Clone, Copy, Debug, PartialEq, Eq)]
pub enum Mode {
    U,
    S,
}

/// How a program starts: its pages, where they lie in its address space, its first program counter and
/// its stack pointer.
#[derive(Clone, Copy, Debug, PartialEq, Eq)]
pub struct Start {
    /// 1 to 1024.
    pub pages: u32,
    /// A multiple of 4096.
    pub base: u32,
    /// A multiple of 4.
    pub entry: u32,
    pub sp: u32,
}
