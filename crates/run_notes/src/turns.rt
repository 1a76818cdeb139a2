//! Who runs on a hart: the kernel, or a context. Short turns are gathered until they fill a stretch, with the time of each.
ghost use Rattle.std.specs.Prelude.{◌≡◌, ◌≤◌, ◌-◌, length, vec_len};
ghost use Rattle.run_notes.specs.Turning as spec;

use cloak_base::NoMemory;
use std::alloc::Global;

/// The most turns of a hart.
const MOST: usize = 420;

/// A turn, or several as one: it begins after `from` steps and ends after `to`.
#[derive(Clone, Copy)]
pub struct Turn {
    pub from: u32,
    pub to: u32,
    /// The steps of the kernel, and of each program.
    pub times: [u32; 5],
    /// The context, if it is one turn of one.
    pub ctx: u32,
    /// How many turns it is.
    pub count: u32,
}

/// The place of who runs among the times.
fn place_of(inside: Option<u32>) -> usize
    ensures { result ≡ spec.place_of inside }
{
    match inside {
        None => 0,
        Some(ctx) => (ctx / 8).min(3) as usize + 1,
    }
}

/// The context that runs, or 0.
fn context_of(inside: Option<u32>) -> u32
    ensures { result ≡ spec.context_of inside }
{
    match inside {
        None => 0,
        Some(ctx) => ctx,
    }
}

/// The times of each together.
fn times_of(a: &[u32; 5], b: &[u32; 5]) -> [u32; 5]
    ensures { result ≡ spec.times_of a.now b.now }
{
    [
        a[0].saturating_add(b[0]),
        a[1].saturating_add(b[1]),
        a[2].saturating_add(b[2]),
        a[3].saturating_add(b[3]),
        a[4].saturating_add(b[4]),
    ]
}

impl Turn {
    /// One turn.
    fn of(from: u32, to: u32, inside: Option<u32>) -> Turn
        ensures { result ≡ spec.turn_of from to inside }
    {
        let mut times = [0; 5];
        times[place_of(inside)] = to.saturating_sub(from);
        Turn {
            from,
            to,
            times,
            ctx: context_of(inside),
            count: 1,
        }
    }

    /// How many steps it has.
    pub fn length(&self) -> u32
        ensures { result ≡ self.now.to - self.now.from }
    {
        self.to.saturating_sub(self.from)
    }

    /// It and another turn right after it, as one.
    fn joined(&self, next: &Turn) -> Turn
        ensures { result ≡ spec.joined self.now next.now }
    {
        Turn {
            to: next.to,
            times: times_of(&self.times, &next.times),
            count: self.count.saturating_add(next.count),
            ..*self
        }
    }
}

/// The turns of a hart.
#[derive(Drop)]
pub struct Turns {
    column: u32,
    made: Vec<Turn>,
    group: Option<Turn>,
    inside: Option<u32>,
    since: u32,
    ghost few: { vec_len made ≤ 420 },
}

impl Turns {
    /// The kernel runs from the first step on.
    pub fn open(alloc: Global, column: u32) -> Result<Turns, NoMemory> {
        Ok(Turns {
            column,
            made: Vec::with_capacity(alloc, MOST)?,
            group: None,
            inside: None,
            since: 0,
        })
    }

    /// Those that were made.
    pub fn made(&self) -> &[Turn]
        ensures { length result.now ≤ 420 }
    {
        self.made.as_slice()
    }

    /// Who runs now.
    pub fn inside(&self) -> Option<u32> {
        self.inside
    }

    fn put(&mut self, turn: Turn) {
        if self.made.len() < MOST {
            let _ = self.made.push(turn);
        }
    }

    /// Ends the short turns that are gathered.
    pub fn flush(&mut self) {
        if let Some(group) = self.group {
            self.put(group);
        }
        self.group = None;
    }

    /// A turn more.
    pub fn add(&mut self, turn: Turn) {
        if turn.to <= turn.from {
            return;
        }
        if turn.length() >= self.column {
            self.flush();
            self.put(turn);
            return;
        }
        let group = match self.group {
            None => turn,
            Some(group) => group.joined(&turn),
        };
        self.group = Some(group);
        if group.length() >= self.column {
            self.flush();
        }
    }

    /// From now on, after this many steps, this one runs.
    pub fn set(&mut self, after: u32, inside: Option<u32>) {
        if inside == self.inside {
            return;
        }
        let turn = Turn::of(self.since, after, self.inside);
        self.add(turn);
        self.since = after;
        self.inside = inside;
    }

    /// The run is over after this many steps.
    pub fn end(&mut self, after: u32) {
        let turn = Turn::of(self.since, after, self.inside);
        self.add(turn);
        self.since = after;
        self.flush();
    }
}
