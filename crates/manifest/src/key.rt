//! The keys of a manifest, and its tables.
ghost use Rattle.std.specs.Prelude.{◌≡◌};
ghost use Rattle.manifest.specs.Keys.{key_name};

/// A key of a manifest.
#[derive(Clone, Copy, Debug, PartialEq, Eq)]
pub enum Key {
    Frames,
    Harts,
    Schedule,
    Entry,
    Segment,
    Disk,
    Program,
    Address,
    Text,
    Bytes,
    Elf,
    Blocks,
    File,
    Block,
    Pages,
    Place,
    Base,
    Stack,
    /// The number of a program's key.
    KeyNumber,
}

impl Key {
    /// The key as it is written.
    pub fn name(self) -> &'static str
        ensures { result.now ≡ key_name self }
    {
        match self {
            Key::Frames => "frames",
            Key::Harts => "harts",
            Key::Schedule => "schedule",
            Key::Entry => "entry",
            Key::Segment => "segment",
            Key::Disk => "disk",
            Key::Program => "program",
            Key::Address => "address",
            Key::Text => "text",
            Key::Bytes => "bytes",
            Key::Elf => "elf",
            Key::Blocks => "blocks",
            Key::File => "file",
            Key::Block => "block",
            Key::Pages => "pages",
            Key::Place => "place",
            Key::Base => "base",
            Key::Stack => "stack",
            Key::KeyNumber => "key",
        }
    }
}

/// A table of a manifest; those of a list are counted from 1.
#[derive(Clone, Copy, Debug, PartialEq, Eq)]
pub enum ManifestTable {
    /// The top of the document.
    Image,
    Segment(usize),
    Disk,
    /// A file of the disk.
    File(usize),
    Program(usize),
}
