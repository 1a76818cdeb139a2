ghost use Rattle.std.specs.Prelude.{◌≡◌, ◌+◌, ◌<◌, ◌%◌, ℕ, length, slice_index, IfOk};

use cloak_base::NoMemory;
use std::alloc::Global;

/// The hart of each step, used cyclically, and the place of the next step's.
#[derive(Drop)]
pub struct Schedule {
    pub turns: Vec<u8>,
    pub place: usize,
    ghost inside: { place < length turns.items },
}

impl Schedule {
    ghost use Rattle.cloak_machine.specs.Turns.{IsAt};

    /// At its beginning.
    pub fn open(alloc: Global, turns: &[u8]) -> Result<Schedule, NoMemory>
        requires { 0 < length turns.now }
        ensures turns { IfOk result (λ schedule. schedule.turns.items ≡ turns.now) }
        ensures place { IfOk result (λ schedule. schedule.place ≡ 0) }
    {
        let turns = Vec::from_slice(alloc, turns)?;
        Ok(Schedule { turns, place: 0 })
    }

    /// At the place of the step after this many.
    pub fn open_at(alloc: Global, turns: &[u8], steps: u32) -> Result<Schedule, NoMemory>
        requires { 0 < length turns.now }
        ensures turns { IfOk result (λ schedule. schedule.turns.items ≡ turns.now) }
        ensures place { IfOk result (λ schedule. IsAt schedule steps) }
    {
        let turns = Vec::from_slice(alloc, turns)?;
        let place = steps as usize % turns.len();
        Ok(Schedule { turns, place })
    }

    /// The place after this one: the first again after the last.
    fn place_behind(&self) -> usize
        ensures inside { result < length self.now.turns.items }
        ensures place { (steps : ℕ) → IsAt self.now steps → result ≡ (steps + 1) % length self.now.turns.items }
    {
        let behind = self.place + 1;
        if behind < self.turns.len() { behind } else { 0 }
    }

    /// The hart of the next step. Goes on by one place.
    pub fn next(&mut self) -> usize
        ensures turns { self.new.turns ≡ self.old.turns }
        ensures turn { result ≡ slice_index self.old.turns.items self.old.place }
        ensures place { (steps : ℕ) → IsAt self.old steps → IsAt self.new (steps + 1) }
    {
        let number = self.turns[self.place] as usize;
        self.place = self.place_behind();
        number
    }
}
