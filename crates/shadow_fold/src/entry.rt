use cloak_base::{Frame, Kind, Mode, PageId, SpaceId};

/// Who translates an address. Two accesses have one regime exactly if the same page table is walked for them by the
/// same rules.
#[derive(Clone, Copy, Debug, PartialEq, Eq)]
pub enum Regime {
    /// A hart outside.
    Outside {
        satp: u32,
        mode: Mode,
        sum: bool,
        mxr: bool,
    },
    /// A hart inside, and the space of its context.
    Inside {
        satp: u32,
        sum: bool,
        mxr: bool,
        space: SpaceId,
    },
}

/// A translation that is known: where a page leads for a kind of access.
#[derive(Clone, Copy, Debug, PartialEq, Eq)]
pub struct Entry {
    pub regime: Regime,
    /// The virtual address divided by 4096.
    pub page: u32,
    pub kind: Kind,
    /// The frame that it leads to.
    pub frame: Frame,
    /// The frame of the table entry of level 1; none without paging.
    pub pt1: Option<Frame>,
    /// The frame of the table entry of level 0; none without paging, or if the leaf is one of level 1.
    pub pt0: Option<Frame>,
    /// The cloaked page at the address, if there is one.
    pub cloaked: Option<PageId>,
}

/// How often a translation was asked for, was not known, and all entries were ended for want of room. A count that
/// stands at its last value stays there.
#[derive(Clone, Copy, Debug, PartialEq, Eq)]
pub struct ShadowCounts {
    pub accesses: u64,
    pub misses: u64,
    pub flushes: u64,
}
