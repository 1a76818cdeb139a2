//! The rows of frames and blocks.
ghost use Rattle.std.specs.Prelude.{◌≡◌, length, map, min, slice_set};
ghost use Rattle.run_notes.specs.Rowing as spec;
ghost use Rattle.run_notes.specs.Rowing.{if_of, row_now, rows_now, with_mark, with_put, with_sight};

use crate::look::{Look, Sight};
use crate::marks::{Mark, Marks};
use crate::stays::{Stay, Stays};
use cloak_base::NoMemory;
use std::alloc::Global;

/// The row of a frame or a block.
#[derive(Drop)]
pub struct Row {
    /// Its number.
    pub number: u32,
    pub stays: Stays,
    pub marks: Marks,
    /// What it has since so many steps.
    pub sight: Sight,
    since: u32,
    /// A page was ever in it, and a program ever stored into it in the open.
    pub had_page: bool,
    pub had_put: bool,
}

impl Row {
    /// Nothing is marked yet.
    pub fn open(
        alloc: Global,
        number: u32,
        column: u32,
        mark_column: u32,
        sight: Sight,
    ) -> Result<Row, NoMemory> {
        Ok(Row {
            number,
            stays: Stays::open(alloc, column)?,
            marks: Marks::open(alloc, mark_column)?,
            sight,
            since: 0,
            had_page: false,
            had_put: false,
        })
    }

    /// After so many steps it has this.
    pub fn set(&mut self, after: u32, sight: Sight)
        ensures { row_now self.new ≡ with_sight sight (row_now self.old) }
    {
        if sight != self.sight {
            self.stays.add(Stay {
                from: self.since,
                to: after,
                sight: self.sight,
                count: 1,
            });
            self.since = after.max(self.since);
        }
        self.had_page = self.had_page || sight.page.is_some();
        self.sight = sight;
    }

    /// The picture ends after so many steps.
    pub fn end(&mut self, after: u32) {
        self.stays.add(Stay {
            from: self.since,
            to: after,
            sight: self.sight,
            count: 1,
        });
        self.since = after.max(self.since);
        self.stays.end();
    }
}

/// Sets what a frame or a block has.
fn set_sight(sights: &mut [Sight], number: usize, sight: Sight)
    ensures { sights.new ≡ slice_set sights.old number sight }
{
    if number < sights.len() {
        sights[number] = sight;
    }
}

/// A row has this, if it is of this number.
fn set_one(row: &mut Row, number: u32, after: u32, sight: Sight)
    ensures { row_now row.new ≡ if_of number (with_sight sight) (row_now row.old) }
{
    if row.number == number {
        row.set(after, sight);
    }
}

/// The row of this number has this.
fn set_each(rows: &mut [Row], number: u32, after: u32, sight: Sight)
    ensures { map row_now rows.new ≡ map (if_of number (with_sight sight)) (map row_now rows.old) }
{
    for row in rows.iter_mut() {
        set_one(row, number, after, sight);
    }
}

/// A row has a mark more, if it is of this number.
fn mark_one(row: &mut Row, number: u32, mark: Mark)
    ensures { row_now row.new ≡ if_of number (with_mark mark) (row_now row.old) }
{
    if row.number == number {
        row.marks.add(mark);
    }
}

/// The row of this number has a mark more.
fn mark_each(rows: &mut [Row], number: u32, mark: Mark)
    ensures { map row_now rows.new ≡ map (if_of number (with_mark mark)) (map row_now rows.old) }
{
    for row in rows.iter_mut() {
        mark_one(row, number, mark);
    }
}

/// A program stored into a row in the open, if it is of this number.
fn put_one(row: &mut Row, number: u32)
    ensures { row_now row.new ≡ if_of number with_put (row_now row.old) }
{
    if row.number == number {
        row.had_put = true;
    }
}

/// A program stored into the row of this number in the open.
fn put_each(rows: &mut [Row], number: u32)
    ensures { map row_now rows.new ≡ map (if_of number with_put) (map row_now rows.old) }
{
    for row in rows.iter_mut() {
        put_one(row, number);
    }
}

/// Rows of some frames or blocks, with what all of them have.
#[derive(Drop)]
pub struct Rows {
    /// What each frame or block has.
    sights: Vec<Sight>,
    rows: Vec<Row>,
}

impl Rows {
    /// Rows of those with these numbers.
    pub fn open(
        alloc: Global,
        sights: Vec<Sight>,
        numbers: &[u32],
        column: u32,
        mark_column: u32,
    ) -> Result<Rows, NoMemory> {
        let mut rows = Vec::with_capacity(alloc, numbers.len())?;
        for number in numbers {
            let sight = match sights.get(*number as usize) {
                Some(sight) => *sight,
                None => Sight::bare(Look::Zeros),
            };
            rows.push(Row::open(alloc, *number, column, mark_column, sight)?)?;
        }
        Ok(Rows { sights, rows })
    }

    /// The rows, by rising number.
    pub fn rows(&self) -> &[Row] {
        self.rows.as_slice()
    }

    /// What one has; zeros, if there is no such one.
    pub fn sight(&self, number: u32) -> Sight
        ensures { result ≡ spec.sight_at (rows_now self.now) number }
    {
        match self.sights.get(number as usize) {
            Some(sight) => *sight,
            None => Sight::bare(Look::Zeros),
        }
    }

    /// After so many steps one has this.
    pub fn set(&mut self, number: u32, after: u32, sight: Sight)
        ensures { rows_now self.new ≡ spec.set_at (rows_now self.old) number sight }
    {
        set_sight(&mut self.sights, number as usize, sight);
        set_each(&mut self.rows, number, after, sight);
    }

    /// A mark at one.
    pub fn mark(&mut self, number: u32, mark: Mark)
        ensures { rows_now self.new ≡ spec.marked_at (rows_now self.old) number mark }
    {
        mark_each(&mut self.rows, number, mark);
    }

    /// A program stored into one in the open.
    pub fn note_put(&mut self, number: u32)
        ensures { rows_now self.new ≡ spec.put_at (rows_now self.old) number }
    {
        put_each(&mut self.rows, number);
    }

    /// How many there are.
    pub fn len(&self) -> u32
        ensures { result ≡ min (length (rows_now self.now).sights) 4294967295 }
    {
        self.sights.len().min(u32::MAX as usize) as u32
    }

    /// The picture ends after so many steps.
    pub fn end(&mut self, after: u32) {
        for row in self.rows.iter_mut() {
            row.end(after);
        }
    }
}
