//! The table of kept translations, beside a plain list of the same entries.

use crate::checks::{holds, same};
use crate::plain_shadows::PlainShadows;
use cloak_base::{Frame, Kind, Mode, SpaceId};
use multi_shadow::{Entry, Regime, ShadowCounts, Shadows};
use std::test::Fail;

const BARE: Regime = Regime::Outside {
    satp: 0,
    mode: Mode::S,
    sum: false,
    mxr: false,
};

fn load_of(page: u32) -> Entry {
    Entry {
        regime: BARE,
        page,
        kind: Kind::Load,
        frame: Frame(3),
        pt1: None,
        pt0: None,
        cloaked: None,
    }
}

#[test]
fn ends_all_for_the_1025th(rt: HostRuntime) -> Result<(), Fail> {
    let mut shadows = Shadows::open(rt.alloc(), 64)?;
    for page in 0..1024 {
        shadows.learn(load_of(page));
    }
    let found = shadows.find(&BARE, 5, Kind::Load);
    same(&rt, &found, &Some(load_of(5)), "one of 1024");
    shadows.learn(load_of(1024));
    let found = shadows.find(&BARE, 5, Kind::Load);
    same(&rt, &found, &None, "after the 1025th");
    shadows.kill_target(Frame(3));
    let found = shadows.find(&BARE, 1024, Kind::Load);
    same(&rt, &found, &None, "after its end");
    let counts = ShadowCounts {
        accesses: 3,
        misses: 2,
        flushes: 1,
    };
    same(&rt, &shadows.counts(), &counts, "counts");
    Ok(())
}

fn next_word(word: u32) -> u32 {
    word.wrapping_mul(1664525).wrapping_add(1013904223)
}

fn regime_of(word: u32) -> Regime {
    let satp = word / 8 % 2;
    let sum = word % 2 == 1;
    match word / 2 % 4 {
        0 => Regime::Outside {
            satp,
            mode: Mode::S,
            sum,
            mxr: false,
        },
        1 => Regime::Outside {
            satp,
            mode: Mode::U,
            sum,
            mxr: false,
        },
        n => Regime::Inside {
            satp,
            sum,
            mxr: false,
            space: SpaceId {
                domain: n,
                number: word / 16 % 2,
            },
        },
    }
}

fn kind_of(word: u32) -> Kind {
    match word % 3 {
        0 => Kind::Fetch,
        1 => Kind::Load,
        _ => Kind::Store,
    }
}

fn frame_of(word: u32) -> Option<Frame> {
    if word % 4 == 0 {
        None
    } else {
        Some(Frame(word / 4 % 64))
    }
}

/// Some entry of 64 frames.
fn entry_of(word: u32) -> Entry {
    Entry {
        regime: regime_of(word / 1024),
        page: word / 4096 % 256,
        kind: kind_of(word / 256),
        frame: Frame(word / 65536 % 64),
        pt1: frame_of(word / 128),
        pt0: frame_of(word / 8192),
        cloaked: None,
    }
}

/// Looks for the entry's page, and makes the entry live if it is not known.
fn look(shadows: &mut Shadows, e: Entry) -> Option<Entry> {
    let found = shadows.find(&e.regime, e.page, e.kind);
    if found.is_none() {
        shadows.learn(e);
    }
    found
}

/// Ends some entries, now and then.
fn end_some(shadows: &mut Shadows, plain: &mut PlainShadows, i: u32, word: u32) {
    let f = Frame(word / 512 % 70);
    let s = SpaceId {
        domain: 2,
        number: word / 16 % 2,
    };
    if i % 97 == 0 {
        shadows.kill_target(f);
        plain.kill_target(f);
    } else if i % 131 == 0 {
        shadows.kill_dependents(f);
        plain.kill_dependents(f);
    } else if i % 1999 == 0 {
        shadows.kill_space(s);
        plain.kill_space(s);
    } else if i % 4999 == 0 {
        shadows.flush();
        plain.flush();
    }
}

#[test]
fn finds_what_a_plain_list_finds(rt: HostRuntime) -> Result<(), Fail> {
    let mut shadows = Shadows::open(rt.alloc(), 64)?;
    let mut plain = PlainShadows::open(rt.alloc())?;
    let mut word = 1;
    for i in 1..10000 {
        word = next_word(word);
        let e = entry_of(word);
        let expected = plain.find(&e.regime, e.page, e.kind);
        if expected.is_none() {
            plain.insert(e);
        }
        same(&rt, &look(&mut shadows, e), &expected, i);
        end_some(&mut shadows, &mut plain, i, word);
    }
    let counts = plain.counts;
    same(&rt, &shadows.counts(), &counts, "counts");
    holds(&rt, counts.flushes > 3, "flushes");
    holds(&rt, counts.misses < counts.accesses, "some are found");
    Ok(())
}
