//! A frozen state.
use cloak_base::{Meta, Mode, PageId, Regs, Violation};
use cloak_model::Sequence;

/// A program without its pages.
#[derive(Drop)]
pub struct FrozenDomain {
    /// What ended it.
    pub violation: Option<Violation>,
    /// The page table that each of its spaces was first resumed with.
    pub roots: [Option<u32>; 8],
    /// Under which initialization vector the page is sealed, and the digest of the page as it stands here.
    pub meta: Meta,
    /// The ciphertext of the program's domain page.
    pub page: [u8; 4096],
}

/// A hart as the kernel sees it.
#[derive(Drop)]
pub struct FrozenHart {
    pub mode: Mode,
    pub pc: u32,
    pub timer: u32,
    /// The context that it runs.
    pub inside: Option<u32>,
    pub regs: Regs,
    /// Control and status registers by rising number, as the report lists them.
    pub csrs: [u32; 9],
    /// The address of the word that it has reserved.
    pub mark: Option<u32>,
}

/// A frame of RAM.
#[derive(Drop)]
pub struct FrozenFrame {
    /// What the kernel sees; of a frame that is owed a page, the ciphertext of that page.
    pub bytes: [u8; 4096],
    /// The page that it is owed, with the initialization vector and the digest of these bytes.
    pub owed: Option<(PageId, Meta)>,
}

/// What is known of a page that was shown.
#[derive(Clone, Copy)]
pub struct FrozenPage {
    pub page: PageId,
    pub meta: Meta,
}

/// All that a run goes on with. Of cloaked pages and of programs it has ciphertext alone.
#[derive(Drop)]
pub struct Frozen {
    /// The steps that were made.
    pub steps: u32,
    /// The draws that were made for pages.
    pub draws: u64,
    /// How often a resuming was refused of which no domain was left to end.
    pub refused: u64,
    /// By rising number.
    pub domains: Sequence<FrozenDomain>,
    /// By rising number.
    pub harts: Sequence<FrozenHart>,
    /// The bytes of the disk's blocks.
    pub disk: Sequence<u8>,
    /// By rising number.
    pub frames: Sequence<FrozenFrame>,
    /// By rising domain, resource and page.
    pub recorded: Sequence<FrozenPage>,
}
