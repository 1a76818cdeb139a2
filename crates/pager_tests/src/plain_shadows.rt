//! The table of kept translations as a plain list without contracts, for a test to compare with.

use cloak_base::{Frame, Kind, NoMemory, SpaceId};
use multi_shadow::{Entry, Regime, ShadowCounts};
use std::alloc::Global;

#[derive(Drop)]
pub struct PlainShadows {
    live: Vec<Entry>,
    pub counts: ShadowCounts,
}

fn is_for(e: &Entry, v: &Regime, page: u32, kind: Kind) -> bool {
    e.page == page && e.kind == kind && e.regime == *v
}

fn is_table(f: Frame, e: &Entry) -> bool {
    e.pt1 == Some(f) || e.pt0 == Some(f)
}

fn is_of_space(s: SpaceId, e: &Entry) -> bool {
    match e.regime {
        Regime::Inside { space, .. } => space == s,
        Regime::Outside { .. } => false,
    }
}

impl PlainShadows {
    pub fn open(alloc: Global) -> Result<PlainShadows, NoMemory> {
        let live = Vec::with_capacity(alloc, 1024)?;
        let counts = ShadowCounts {
            accesses: 0,
            misses: 0,
            flushes: 0,
        };
        Ok(PlainShadows { live, counts })
    }

    pub fn find(&mut self, v: &Regime, page: u32, kind: Kind) -> Option<Entry> {
        self.counts.accesses = self.counts.accesses.saturating_add(1);
        let found = self.live.iter().find(|e| is_for(e, v, page, kind)).copied();
        if found.is_none() {
            self.counts.misses = self.counts.misses.saturating_add(1);
        }
        found
    }

    pub fn insert(&mut self, e: Entry) {
        if self.live.len() >= 1024 {
            self.flush();
        }
        let _ = self.live.push(e);
    }

    pub fn kill_target(&mut self, f: Frame) {
        self.live.retain(|e| e.frame != f);
    }

    pub fn kill_dependents(&mut self, f: Frame) {
        self.live.retain(|e| !is_table(f, e));
    }

    pub fn kill_space(&mut self, s: SpaceId) {
        self.live.retain(|e| !is_of_space(s, e));
    }

    pub fn flush(&mut self) {
        self.live.clear();
        self.counts.flushes = self.counts.flushes.saturating_add(1);
    }
}
