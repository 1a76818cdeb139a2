//! The marks of a row. Those of one kind in one column are one.
ghost use Rattle.std.specs.Prelude.{◌≡◌, ◌≤◌, ◌<◌, [], IfOk, length, replicate, None, vec_capacity, vec_len};

use crate::columns::is_same_column;
use cloak_base::{NoMemory, PageId};
use std::alloc::Global;

/// The most marks of a row.
const MOST: usize = 1600;

/// What is marked.
#[derive(Clone, Copy, Debug, PartialEq, Eq)]
pub enum MarkKind {
    /// The kernel is shown new ciphertext.
    Shown,
    /// A frame goes to the disk.
    Written,
    /// A block comes into a frame.
    Read,
    /// The kernel stores into ciphertext.
    Altered,
    /// A program stores where the kernel sees it.
    Put,
    /// A page was presented that is not the one recorded.
    Stopped,
    /// Bytes of the console.
    Printed,
    /// A context leaves.
    Left,
    /// A context is resumed.
    Resumed,
}

impl MarkKind {
    ghost use Rattle.run_notes.specs.Marking as spec;

    /// Its place among the kinds.
    fn place(self) -> usize
        ensures value { result ≡ spec.place_of self }
        ensures below { result < 9 }
    {
        match self {
            MarkKind::Shown => 0,
            MarkKind::Written => 1,
            MarkKind::Read => 2,
            MarkKind::Altered => 3,
            MarkKind::Put => 4,
            MarkKind::Stopped => 5,
            MarkKind::Printed => 6,
            MarkKind::Left => 7,
            MarkKind::Resumed => 8,
        }
    }
}

/// Marks of one kind in one column.
#[derive(Clone, Copy)]
pub struct Mark {
    pub kind: MarkKind,
    pub first: u32,
    pub last: u32,
    pub count: u32,
    /// The page of the first, if it is about one.
    pub page: Option<PageId>,
    /// What the first tells: the number of a ciphertext, a block, a value, or the number of a program.
    pub number: u32,
    /// What it tells beside this: the cause of leaving.
    pub cause: u32,
    /// Not all tell the same.
    pub mixed: bool,
}

impl Mark {
    ghost use Rattle.run_notes.specs.Marking as spec;

    /// One mark.
    pub fn of(kind: MarkKind, step: u32) -> Mark
        ensures { result ≡ spec.mark_of kind step }
    {
        Mark {
            kind,
            first: step,
            last: step,
            count: 1,
            page: None,
            number: 0,
            cause: 0,
            mixed: false,
        }
    }

    /// It tells this number.
    pub fn with(self, number: u32) -> Mark
        ensures { result ≡ record self { number = number } }
    {
        Mark { number, ..self }
    }

    /// It is about this page.
    pub fn about(self, page: Option<PageId>) -> Mark
        ensures { result ≡ record self { page = page } }
    {
        Mark { page, ..self }
    }

    /// It tells this cause.
    pub fn because(self, cause: u32) -> Mark
        ensures { result ≡ record self { cause = cause } }
    {
        Mark { cause, ..self }
    }

    /// A mark of its kind at this step is drawn with it. One of the opening stands only with others of it.
    fn is_beside(&self, column: u32, step: u32) -> bool
        ensures { result ≡ spec.is_beside column self.now step }
    {
        let opening = self.first == 0 || step == 0;
        is_same_column(column, self.first, step) && (!opening || self.first == step)
    }

    /// It and another one after it, as one.
    fn joined(&self, next: &Mark) -> Mark
        ensures { result ≡ spec.joined self.now next.now }
    {
        Mark {
            last: next.last,
            count: self.count.saturating_add(next.count),
            mixed: self.mixed || (self.number != next.number || self.cause != next.cause),
            ..*self
        }
    }
}

/// Marks in the order of their steps.
#[derive(Drop)]
pub struct Marks {
    column: u32,
    made: Vec<Mark>,
    /// Where the last mark of each kind stands.
    latest: [Option<usize>; 9],
    ghost few: { vec_len made ≤ 1600 },
    ghost room: { 1600 ≤ vec_capacity made },
}

impl Marks {
    ghost use Rattle.run_notes.specs.Marking as spec;
    ghost use Rattle.run_notes.specs.Marking.{marks_now};

    /// None yet.
    pub fn open(alloc: Global, column: u32) -> Result<Marks, NoMemory>
        ensures { IfOk result (λ m. marks_now m ≡ record { column = column; made = []; latest = replicate 9 None }) }
    {
        Ok(Marks {
            column,
            made: Vec::with_capacity(alloc, MOST)?,
            latest: [None; 9],
        })
    }

    /// Those that were made.
    pub fn made(&self) -> &[Mark]
        ensures few { length result.now ≤ 1600 }
        ensures value { result.now ≡ (marks_now self.now).made }
    {
        self.made.as_slice()
    }

    /// Where the last mark of a kind stands, if another one at this step is drawn with it.
    fn beside(&self, kind: MarkKind, step: u32) -> Option<usize>
        ensures { result ≡ spec.beside (marks_now self.now) kind step }
    {
        let at = self.latest[kind.place()]?;
        let mark = self.made.get(at)?;
        if mark.is_beside(self.column, step) {
            Some(at)
        } else {
            None
        }
    }

    /// A mark more.
    fn put(&mut self, mark: Mark)
        ensures { marks_now self.new ≡ spec.put (marks_now self.old) mark }
    {
        let at = self.made.len();
        if at < MOST {
            let _ = self.made.push(mark);
            self.latest[mark.kind.place()] = Some(at);
        }
    }

    /// The mark at a place, with another one.
    fn join(&mut self, at: usize, mark: Mark)
        ensures { marks_now self.new ≡ spec.added_at (marks_now self.old) mark (Some at) }
    {
        if at < self.made.len() {
            let joined = self.made[at].joined(&mark);
            self.made[at] = joined;
        }
    }

    /// A mark more, or one with the last of its kind.
    pub fn add(&mut self, mark: Mark)
        ensures { marks_now self.new ≡ spec.added (marks_now self.old) mark }
    {
        match self.beside(mark.kind, mark.first) {
            None => self.put(mark),
            Some(at) => self.join(at, mark),
        }
    }
}
