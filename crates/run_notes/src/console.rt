//! What is kept of the console.
ghost use Rattle.std.specs.Prelude.{◌≡◌, ◌≤◌, length, vec_len, IfSome};

use crate::marks::{Mark, MarkKind, Marks};
use cloak_base::NoMemory;
use std::alloc::Global;

/// The most bytes that are drawn each at its step: more do not fit side by side.
const FIRST: usize = 100;

/// A byte and its step.
#[derive(Clone, Copy)]
pub struct PrintedByte {
    pub step: u32,
    pub byte: u8,
}

/// The bytes of the console: the first ones with their steps, the last ones, and how many there are.
#[derive(Drop)]
pub struct Printed {
    first: Vec<PrintedByte>,
    /// The last bytes; the byte of a number stands at this modulo their count.
    last: [u8; 100],
    pub count: u64,
    /// Where bytes were printed.
    pub marks: Marks,
    ghost few: { vec_len first ≤ 100 },
}

impl Printed {
    /// None yet.
    pub fn open(alloc: Global, column: u32) -> Result<Printed, NoMemory> {
        Ok(Printed {
            first: Vec::with_capacity(alloc, FIRST)?,
            last: [0; 100],
            count: 0,
            marks: Marks::open(alloc, column)?,
        })
    }

    /// A byte more.
    pub fn add(&mut self, step: u32, byte: u8) {
        if self.first.len() < FIRST {
            let _ = self.first.push(PrintedByte { step, byte });
        }
        if let Some(place) = self.last.get_mut((self.count % 100) as usize) {
            *place = byte;
        }
        self.count = self.count.saturating_add(1);
        self.marks.add(Mark::of(MarkKind::Printed, step));
    }

    /// All bytes, each with its step; none if there are more than are kept.
    pub fn all(&self) -> Option<&[PrintedByte]>
        ensures few { IfSome result (λ bytes. length bytes.now ≤ 100) }
    {
        if self.count <= self.first.len() as u64 {
            Some(self.first.as_slice())
        } else {
            None
        }
    }

    /// A byte of the last ones by its number.
    pub fn byte(&self, number: u64) -> u8 {
        match self.last.get((number % 100) as usize) {
            Some(byte) => *byte,
            None => 0,
        }
    }
}
