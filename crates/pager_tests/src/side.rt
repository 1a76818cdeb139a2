//! A step of a program of one domain without paging, through every question, and reservations of harts.
ghost use Rattle.std.specs.Prelude.{◌≡◌, ◌%◌, ℕ, IfOk};
ghost use Rattle.cloak_pager.specs.State.{held_in};
ghost use Rattle.cloaked_side.specs.Holding.{domains_in};

use crate::checks::{holds, same};
use cloak_base::{Frame, Kind, Mode, NoMemory, PageId, SpaceId};
use cloak_model::{Access, Answer, Emit, InsideRegime, Item, PageSide};
use cloak_pager::Pager;
use cloaked_side::{Memory, OUTSIDE, ProgramSide, Side, regime_inside};
use host_calls::{Ram, Reservations};
use io_traits::Stream;
use multi_shadow::Shadows;
use rv_atomic::AtomicOp;
use std::alloc::Global;
use std::test::Fail;

const KEY: [u8; 16] = [0, 1, 2, 3, 4, 5, 6, 7, 8, 9, 10, 11, 12, 13, 14, 15];

/// In frame 1.
const PLAIN: u32 = 0x8000_1004;

/// In frame 2.
const CLOAKED: u32 = 0x8000_2008;

const Q: PageId = PageId {
    domain: 0,
    resource: 0,
    page: 3,
};

/// Page Q under resource 1.
const Q1: PageId = PageId {
    domain: 0,
    resource: 1,
    page: 3,
};

const REGIME: InsideRegime = InsideRegime {
    satp: 0,
    sum: false,
    mxr: false,
    domain: 0,
};

const SPACE: SpaceId = SpaceId {
    domain: 0,
    number: 0,
};

/// Counts the ciphers and the other items that it was given.
#[derive(Drop)]
struct CountedPieces {
    ciphers: u32,
    others: u32,
}

impl Emit for CountedPieces {
    ghost gave = { λ old new pieces. Unit {0} };

    fn item(&mut self, i: &Item<'_>) {
        match i {
            Item::Cipher { .. } => self.ciphers = self.ciphers.saturating_add(1),
            _ => self.others = self.others.saturating_add(1),
        }
    }

    fn console(&mut self, _: u8) {}
}

/// Memory of 64 frames for one domain and two harts.
fn fresh(alloc: Global) -> Result<Memory, NoMemory>
    ensures domain { IfOk result (λ m. domains_in m ≡ 1) }
    ensures outside { IfOk result (λ m. (k : ℕ) → held_in m.pager k ≡ None) }
{
    Ok(Memory {
        pager: Pager::open(alloc, 64, 1, [KEY; 4], [0; 4])?,
        stream: Stream::numbered(0),
        draws: 0,
        missed: false,
        reservations: Reservations::none(2),
        shadows: Shadows::open(alloc, 64)?,
        counting: false,
    })
}

/// Stores and loads what is not cloaked; stores into page Q; copies it; drops it; and reads the copy. None if a
/// question was not granted.
fn ask_each<M: PageSide>(m: &mut M) -> Option<(Answer, u32)>
    requires domain { M.serves m.old ≡ 0 }
    requires unused { M.is_unused m.old 1 }
{
    let Answer::Ok = m.put(PLAIN, 4, 0x1122_3344) else {
        return None;
    };
    let got = m.get(PLAIN, 2);
    let Answer::Ok = m.reach(Q, CLOAKED, Kind::Store) else {
        return None;
    };
    m.write(Q, 8, 4, 77);
    let Answer::Ok = m.clear(0, &[true; 16]) else {
        return None;
    };
    m.copy(0, 0, 1);
    m.forget(0, 0);
    let Answer::Ok = m.reach(Q1, CLOAKED, Kind::Load) else {
        return None;
    };
    Some((got, m.read(Q1, 8, 4)))
}

/// The word at an address that is a multiple of 4, as the kernel reads it without paging.
fn load<M: Ram>(m: &mut M, va: u32) -> Option<u32>
    requires { va % 4 ≡ 0 }
{
    let access = Access {
        mode: Mode::S,
        sum: false,
        mxr: false,
        va,
        kind: Kind::Load,
    };
    m.load(0, access, 4).ok()
}

/// Fills frame 3 with one byte, and reads a byte of it where it lies.
fn fill_and_lend<M: Ram>(m: &mut M, b: u8) -> Option<u8> {
    if m.frames() <= 3 {
        return None;
    }
    m.fill(Frame(3), &[b; 4096]);
    Some(m.frame(Frame(3))[4095])
}

/// The page is sealed once. The kernel reads other bytes, and the frame is then as it was shown before.
#[test]
fn answers_each_question(rt: HostRuntime) -> Result<(), Fail> {
    let mut memory = fresh(rt.alloc())?;
    let mut e = CountedPieces {
        ciphers: 0,
        others: 0,
    };
    let side = Side {
        memory: &mut memory,
        emitter: &mut e,
        violation: None,
        domain: REGIME.domain,
        regime: regime_inside(REGIME, SPACE),
    };
    let mut program = ProgramSide {
        side,
        reached: Frame(0),
    };
    same(
        &rt,
        &ask_each(&mut program),
        &Some((Answer::Word(0x3344), 77)),
        "questions",
    );
    holds(
        &rt,
        load(&mut program.side, CLOAKED) != Some(77),
        "the kernel's load of the page",
    );
    same(
        &rt,
        &load(&mut program.side, PLAIN),
        &Some(0x1122_3344),
        "the kernel's load",
    );
    same(
        &rt,
        &fill_and_lend(&mut program.side, 7),
        &Some(7),
        "a frame that is filled",
    );
    same(&rt, &(memory.draws, memory.missed), &(1, false), "draws");
    same(&rt, &(e.ciphers, e.others), &(1, 6), "items");
    Ok(())
}

/// How the kernel reaches an address in S mode.
fn access(va: u32, kind: Kind) -> Access
    ensures { result.va ≡ va }
{
    Access {
        mode: Mode::S,
        sum: false,
        mxr: false,
        va,
        kind,
    }
}

/// LR of a hart, without paging. Whether it leads to a word.
fn reserves<M: Ram>(m: &mut M, hart: u32, va: u32) -> bool
    requires { va % 4 ≡ 0 }
{
    m.reserve(0, access(va, Kind::Load), hart).is_ok()
}

/// Whether SC of a hart stores a 5, without paging.
fn stores_reserved<M: Ram>(m: &mut M, hart: u32, va: u32) -> Option<bool>
    requires { va % 4 ≡ 0 }
{
    m.store_conditional(0, access(va, Kind::Store), hart, 5)
        .ok()
}

/// The word that stood where an AMOADD of 3 is made, without paging.
fn adds<M: Ram>(m: &mut M, va: u32) -> Option<u32>
    requires { va % 4 ≡ 0 }
{
    m.combine(0, access(va, Kind::Store), AtomicOp::Add, 3).ok()
}

/// Both harts reserve a word; whether their SCs store, and that of a hart whose reservation was ended.
fn reserve_in_turn<M: Ram>(m: &mut M) -> [Option<bool>; 3] {
    let _ = reserves(m, 0, PLAIN);
    let _ = reserves(m, 1, PLAIN);
    let first = stores_reserved(m, 0, PLAIN);
    let second = stores_reserved(m, 1, PLAIN);
    let _ = reserves(m, 0, PLAIN);
    m.unmark(0);
    [first, second, stores_reserved(m, 0, PLAIN)]
}

/// Stores in page Q in its frame. Whether that was granted.
fn store_cloaked<M: PageSide>(m: &mut M) -> bool
    requires domain { M.serves m.old ≡ 0 }
    ensures domain { M.serves m.new ≡ 0 }
{
    if m.reach(Q, CLOAKED, Kind::Store) != Answer::Ok {
        return false;
    }
    m.write(Q, 8, 4, 77);
    true
}

/// Shows all pages. Whether that was granted.
fn show_all<M: PageSide>(m: &mut M) -> bool
    requires domain { M.serves m.old ≡ 0 }
    ensures domain { M.serves m.new ≡ 0 }
{
    m.clear(0, &[true; 16]) == Answer::Ok
}

/// Reaches page Q in its frame for a load. Whether that was granted.
fn hold_unchanged<M: PageSide>(m: &mut M) -> bool
    requires domain { M.serves m.old ≡ 0 }
{
    m.reach(Q, CLOAKED, Kind::Load) == Answer::Ok
}

#[test]
fn reserves_what_is_not_cloaked(rt: HostRuntime) -> Result<(), Fail> {
    let mut memory = fresh(rt.alloc())?;
    let mut e = CountedPieces {
        ciphers: 0,
        others: 0,
    };
    let mut side = Side {
        memory: &mut memory,
        emitter: &mut e,
        violation: None,
        domain: 0,
        regime: OUTSIDE,
    };
    same(
        &rt,
        &reserve_in_turn(&mut side),
        &[Some(true), Some(false), Some(false)],
        "reservations",
    );
    same(
        &rt,
        &(adds(&mut side, PLAIN), load(&mut side, PLAIN)),
        &(Some(5), Some(8)),
        "an addition",
    );
    let _ = reserves(&mut side, 0, PLAIN);
    let _ = fill_and_lend(&mut side, 7);
    same(
        &rt,
        &stores_reserved(&mut side, 0, PLAIN),
        &Some(true),
        "another frame was filled",
    );
    Ok(())
}

/// SC settles the frame of a page before it looks at the reservation. A page that changed is sealed, and that writes the
/// frame.
#[test]
fn ends_reservations_where_a_page_is_sealed(rt: HostRuntime) -> Result<(), Fail> {
    let mut memory = fresh(rt.alloc())?;
    memory.reservations.mark(0, CLOAKED);
    let mut e = CountedPieces {
        ciphers: 0,
        others: 0,
    };
    let side = Side {
        memory: &mut memory,
        emitter: &mut e,
        violation: None,
        domain: REGIME.domain,
        regime: regime_inside(REGIME, SPACE),
    };
    let mut program = ProgramSide {
        side,
        reached: Frame(0),
    };
    holds(&rt, store_cloaked(&mut program), "a store");
    same(
        &rt,
        &stores_reserved(&mut program.side, 0, CLOAKED),
        &Some(false),
        "the frame of the page",
    );
    same(&rt, &e.ciphers, &1, "ciphers");
    Ok(())
}

/// A frame that shows again what it showed, since its page was only read, was not written.
#[test]
fn keeps_reservations_where_a_page_is_shown_again(rt: HostRuntime) -> Result<(), Fail> {
    let mut memory = fresh(rt.alloc())?;
    let mut e = CountedPieces {
        ciphers: 0,
        others: 0,
    };
    let side = Side {
        memory: &mut memory,
        emitter: &mut e,
        violation: None,
        domain: REGIME.domain,
        regime: regime_inside(REGIME, SPACE),
    };
    let mut program = ProgramSide {
        side,
        reached: Frame(0),
    };
    holds(&rt, store_cloaked(&mut program), "a store");
    holds(&rt, show_all(&mut program), "the page is shown");
    let side = &mut program.side;
    side.memory.reservations.mark(0, CLOAKED);
    holds(&rt, hold_unchanged(&mut program), "a load");
    same(
        &rt,
        &stores_reserved(&mut program.side, 0, CLOAKED),
        &Some(true),
        "the frame of the page",
    );
    same(&rt, &e.ciphers, &1, "ciphers");
    Ok(())
}
