//! The stays of a frame or a block: what it has, from one step to another. Short ones are gathered until they fill a column.
ghost use Rattle.std.specs.Prelude.{◌≤◌, length, vec_len};

use crate::look::Sight;
use cloak_base::NoMemory;
use std::alloc::Global;

/// The most stays of a row.
const MOST: usize = 840;

/// A stay: it begins after `from` steps and ends after `to`.
#[derive(Clone, Copy)]
pub struct Stay {
    pub from: u32,
    pub to: u32,
    pub sight: Sight,
    /// How many stays are drawn as this one.
    pub count: u32,
}

impl Stay {
    /// How many steps it has.
    pub fn length(&self) -> u32 {
        self.to.saturating_sub(self.from)
    }
}

/// Stays in a row, each of which fills a column.
#[derive(Drop)]
pub struct Stays {
    column: u32,
    made: Vec<Stay>,
    /// Short stays, and the steps of the longest of them.
    group: Option<Stay>,
    longest: u32,
    ghost few: { vec_len made ≤ 840 },
}

impl Stays {
    /// None yet.
    pub fn open(alloc: Global, column: u32) -> Result<Stays, NoMemory> {
        Ok(Stays {
            column,
            made: Vec::with_capacity(alloc, MOST)?,
            group: None,
            longest: 0,
        })
    }

    /// Those that were made.
    pub fn made(&self) -> &[Stay]
        ensures { length result.now ≤ 840 }
    {
        self.made.as_slice()
    }

    /// Neighbours that have the same are one.
    fn put(&mut self, stay: Stay) {
        if let Some(last) = self.made.last_mut() {
            let alike = last.sight == stay.sight && last.to == stay.from;
            if alike && (last.count > 1) == (stay.count > 1) {
                last.to = stay.to;
                last.count = last.count.saturating_add(stay.count);
                return;
            }
        }
        if self.made.len() < MOST {
            let _ = self.made.push(stay);
        }
    }

    /// Ends the short stays that are gathered.
    pub fn end(&mut self) {
        if let Some(group) = self.group {
            self.put(group);
        }
        self.group = None;
    }

    /// Gathers a short stay.
    fn gather(&mut self, stay: Stay) {
        let mut group = match self.group {
            Some(group) => group,
            None => {
                self.longest = stay.length();
                self.group = Some(stay);
                return;
            }
        };
        if stay.length() > self.longest {
            self.longest = stay.length();
            group.sight = stay.sight;
        }
        group.to = stay.to;
        group.count = group.count.saturating_add(stay.count);
        self.group = Some(group);
        if group.length() >= self.column {
            self.end();
        }
    }

    /// One stay more.
    pub fn add(&mut self, stay: Stay) {
        if stay.to <= stay.from {
            return;
        }
        if stay.length() >= self.column {
            self.end();
            self.put(stay);
        } else {
            self.gather(stay);
        }
    }
}
