//! Walks as tables: the rules of the privileged manual, "Virtual Address Translation Process", one row each.

use crate::checks::same;
use alone_views::FlatRam;
use cloak_base::{Frame, Kind, Mode};
use host_calls::Reservations;
use std::test::Fail;
use sv32_walk::{Walked, walk};

/// Three frames of zeros but for the two words of `VA`.
fn tables(rt: &HostRuntime, first: u32, second: u32) -> Result<FlatRam, Fail> {
    let mut level_1 = [0; 4096];
    level_1[4..8].copy_from_slice(&first.to_le_bytes());
    let mut level_0 = [0; 4096];
    level_0[4..8].copy_from_slice(&second.to_le_bytes());
    let frames = Vec::from_array(rt.alloc(), [[0; 4096], level_1, level_0])?;
    Ok(FlatRam {
        frames,
        reservations: Reservations::none(1),
    })
}

/// The table of level 1 in frame 1.
const SATP: u32 = 0x8008_0001;

/// An entry of level 1 that points to the table in frame 2.
const POINTER: u32 = 0x2000_0801;

/// A leaf of frame 5 for U mode, readable and writable, accessed and dirty.
const LEAF: u32 = 0x2000_14d7;

/// The same for S mode.
const SUPERVISOR_LEAF: u32 = 0x2000_14c7;

/// An address whose entries are the two words.
const VA: u32 = 0x0040_1abc;

/// What the walk of a page whose leaf is in frame 5 returns.
const IN_PAGE: Result<Walked, u32> = Ok(Walked {
    pa: 0x8000_5abc,
    pt1: Some(Frame(1)),
    pt0: Some(Frame(2)),
});

/// Of a page in the last frame that an entry can name.
const IN_LAST_FRAME: Result<Walked, u32> = Ok(Walked {
    pa: 0x3_ffff_fabc,
    pt1: Some(Frame(1)),
    pt0: Some(Frame(2)),
});

/// Of a superpage at the start of RAM.
const IN_SUPERPAGE: Result<Walked, u32> = Ok(Walked {
    pa: 0x8000_1abc,
    pt1: Some(Frame(1)),
    pt0: None,
});

const UNPAGED: Result<Walked, u32> = Ok(Walked {
    pa: 0x0040_1abc,
    pt1: None,
    pt0: None,
});

/// Leaves, and what the walk of their page returns: by mode, SUM, MXR and kind.
static LEAVES: [(&str, u32, Mode, bool, bool, Kind, Result<Walked, u32>); 21] = [
    ("a load", LEAF, Mode::U, false, false, Kind::Load, IN_PAGE),
    ("a store", LEAF, Mode::U, false, false, Kind::Store, IN_PAGE),
    ("X is 0", LEAF, Mode::U, false, false, Kind::Fetch, Err(12)),
    (
        "W without R",
        0x2000_14d5,
        Mode::U,
        false,
        false,
        Kind::Load,
        Err(13),
    ),
    (
        "A is 0",
        0x2000_1497,
        Mode::U,
        false,
        false,
        Kind::Load,
        Err(13),
    ),
    (
        "D is 0",
        0x2000_1457,
        Mode::U,
        false,
        false,
        Kind::Store,
        Err(15),
    ),
    (
        "a load needs no D",
        0x2000_1457,
        Mode::U,
        false,
        false,
        Kind::Load,
        IN_PAGE,
    ),
    (
        "V is 0",
        0x2000_14d6,
        Mode::U,
        false,
        false,
        Kind::Store,
        Err(15),
    ),
    (
        "a pointer",
        0x2000_1401,
        Mode::U,
        false,
        false,
        Kind::Load,
        Err(13),
    ),
    (
        "S mode on a page of U mode",
        LEAF,
        Mode::S,
        false,
        false,
        Kind::Load,
        Err(13),
    ),
    (
        "S mode with SUM",
        LEAF,
        Mode::S,
        true,
        false,
        Kind::Load,
        IN_PAGE,
    ),
    (
        "S mode stores with SUM",
        LEAF,
        Mode::S,
        true,
        false,
        Kind::Store,
        IN_PAGE,
    ),
    (
        "SUM is for no fetch",
        0x2000_14df,
        Mode::S,
        true,
        false,
        Kind::Fetch,
        Err(12),
    ),
    (
        "U mode fetches",
        0x2000_14df,
        Mode::U,
        false,
        false,
        Kind::Fetch,
        IN_PAGE,
    ),
    (
        "S mode on its page",
        SUPERVISOR_LEAF,
        Mode::S,
        false,
        false,
        Kind::Store,
        IN_PAGE,
    ),
    (
        "U mode on a page of S mode",
        SUPERVISOR_LEAF,
        Mode::U,
        true,
        true,
        Kind::Store,
        Err(15),
    ),
    (
        "S mode fetches",
        0x2000_14cb,
        Mode::S,
        false,
        false,
        Kind::Fetch,
        IN_PAGE,
    ),
    (
        "execute only",
        0x2000_1459,
        Mode::U,
        false,
        false,
        Kind::Load,
        Err(13),
    ),
    (
        "execute only with MXR",
        0x2000_1459,
        Mode::U,
        false,
        true,
        Kind::Load,
        IN_PAGE,
    ),
    (
        "MXR is for no store",
        0x2000_14d9,
        Mode::U,
        false,
        true,
        Kind::Store,
        Err(15),
    ),
    (
        "the last frame",
        0xffff_fcd7,
        Mode::U,
        false,
        false,
        Kind::Load,
        IN_LAST_FRAME,
    ),
];

#[test]
fn leaves_of_level_0(rt: HostRuntime) -> Result<(), Fail> {
    for &(name, leaf, mode, sum, mxr, kind, want) in &LEAVES {
        let mut m = tables(&rt, POINTER, leaf)?;
        same(
            &rt,
            &walk(SATP, mode, sum, mxr, VA, kind, &mut m),
            &want,
            name,
        );
    }
    Ok(())
}

/// Entries of level 1, and what the walk over them returns.
static ENTRIES: [(&str, u32, u32, Kind, Result<Walked, u32>); 13] = [
    ("a misaligned superpage", SATP, LEAF, Kind::Load, Err(13)),
    ("A in a pointer", SATP, 0x2000_0841, Kind::Load, Err(13)),
    ("D in a pointer", SATP, 0x2000_0881, Kind::Store, Err(15)),
    ("U in a pointer", SATP, 0x2000_0811, Kind::Fetch, Err(12)),
    (
        "G and RSW in a pointer",
        SATP,
        0x2000_0b21,
        Kind::Load,
        IN_PAGE,
    ),
    ("a superpage", SATP, 0x2000_00d7, Kind::Load, IN_SUPERPAGE),
    (
        "a superpage without X",
        SATP,
        0x2000_00d7,
        Kind::Fetch,
        Err(12),
    ),
    ("no entry", SATP, 0, Kind::Store, Err(15)),
    (
        "a table outside RAM",
        0x8000_0000,
        POINTER,
        Kind::Load,
        Err(5),
    ),
    ("a fetch by it", 0x8000_0000, POINTER, Kind::Fetch, Err(1)),
    ("a store by it", 0x8000_0000, POINTER, Kind::Store, Err(7)),
    (
        "a second table outside RAM",
        SATP,
        0x0000_0401,
        Kind::Load,
        Err(5),
    ),
    ("no paging", 0x0008_0001, POINTER, Kind::Load, UNPAGED),
];

#[test]
fn entries_of_level_1(rt: HostRuntime) -> Result<(), Fail> {
    for &(name, satp, first, kind, want) in &ENTRIES {
        let mut m = tables(&rt, first, LEAF)?;
        same(
            &rt,
            &walk(satp, Mode::U, false, false, VA, kind, &mut m),
            &want,
            name,
        );
    }
    Ok(())
}
