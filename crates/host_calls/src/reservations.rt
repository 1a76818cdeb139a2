ghost use Rattle.std.specs.Prelude.{◌≡◌, ◌≤◌, ◌==◌, None, is_some, map, replicate};
ghost use Rattle.std.specs.List.{list_any};
ghost use Rattle.cloak_base.specs.Constants.{frame_of};
ghost use Rattle.cloak_model.specs.Memory as spec;
ghost use Rattle.host_calls.specs.Written.{is_written};

use arrayvec::ArrayVec;
use cloak_base::{Frame, frame_of};
use std::marker::Model;

/// The reservations of the harts of a machine (RISC-V unprivileged manual 20191213, 8.2): for each hart the physical
/// address of the word that it has reserved, or none. Contracts see them by the numbers of the harts.
///
/// Whoever writes a byte of RAM says so with `word_written` or `frame_written`. If no hart has a reservation, as in
/// nearly every step, these look at one truth value.
#[derive(Drop)]
pub struct Reservations {
    words: ArrayVec<Option<u32>, 4>,
    /// False only if no hart has a reservation.
    may_have: bool,
}

impl Model for Reservations {
    ghost use Rattle.std.specs.Prelude.{◌≡◌, false, List, Option, None, length, replicate, ℕ};

    ghost Value = { List (Option ℕ) };

    ghost view = { λ r. r.words.items };

    ghost invariant = { λ r. r.may_have ≡ false → r.words.items ≡ replicate (length r.words.items) None };
}

/// What was written of RAM.
#[derive(Clone, Copy)]
enum Written {
    /// A byte, or several, of the word in which this address lies.
    Word(u32),
    /// A frame whole.
    Whole(Frame),
}

/// The word at an address was written.
fn is_written(written: Written, word: u32) -> bool
    ensures { result ≡ is_written written word }
{
    match written {
        Written::Word(pa) => word == pa / 4 * 4,
        Written::Whole(f) => frame_of(word).0 == f.0,
    }
}

/// A reservation, unless its word was written.
fn unless_written(mark: Option<u32>, written: Written) -> Option<u32>
    ensures { result ≡ spec.unless_written (is_written written) mark }
{
    let word = mark?;
    if is_written(written, word) {
        return None;
    }
    Some(word)
}

/// Ends the reservations of words that were written.
fn end_written(words: &mut [Option<u32>], written: Written)
    ensures { words.new ≡ map (spec.unless_written (is_written written)) words.old }
{
    for word in words.iter_mut() {
        *word = unless_written(*word, written);
    }
}

/// A hart has a reservation.
fn has_reservation(words: &[Option<u32>]) -> bool
    ensures { result ≡ list_any is_some words.now }
{
    words.iter().any(|word| word.is_some())
}

impl Reservations {
    /// There are this many harts, and none has a reservation.
    pub fn none(harts: u32) -> Reservations
        requires { harts ≤ 4 }
        ensures { result ≡ replicate harts None }
    {
        let mut words = ArrayVec::from_array_in((), [None; 4]);
        words.truncate(harts as usize);
        Reservations {
            words,
            may_have: false,
        }
    }

    /// The address that a hart has reserved; none also of a number that no hart has.
    pub fn marked(&self, hart: u32) -> Option<u32>
        ensures { result ≡ spec.mark_of hart self.now }
    {
        match self.words.as_slice().get(hart as usize) {
            Some(word) => *word,
            None => None,
        }
    }

    /// A hart reserves the word at this address.
    pub fn mark(&mut self, hart: u32, pa: u32)
        ensures { self.new ≡ spec.with_mark hart (Some pa) self.old }
    {
        self.may_have = true;
        if let Some(word) = self.words.get_mut(hart as usize) {
            *word = Some(pa);
        }
    }

    /// A hart has no reservation any more.
    #[inline]
    pub fn unmark(&mut self, hart: u32)
        ensures { self.new ≡ spec.with_mark hart None self.old }
    {
        if !self.may_have {
            return;
        }
        if let Some(word) = self.words.get_mut(hart as usize) {
            *word = None;
        }
    }

    /// Ends the reservations of words that were written.
    fn end(&mut self, written: Written)
        ensures { self.new ≡ map (spec.unless_written (is_written written)) self.old }
    {
        end_written(self.words.as_mut_slice(), written);
        let is_left = has_reservation(self.words.as_slice());
        self.may_have = is_left;
    }

    /// A byte, or several, of the word in which this address lies was written.
    #[inline]
    pub fn word_written(&mut self, pa: u32)
        ensures { self.new ≡ map (spec.unless_written (λ mark. mark == spec.word_at pa)) self.old }
    {
        if self.may_have {
            self.end(Written::Word(pa));
        }
    }

    /// A frame was written.
    #[inline]
    pub fn frame_written(&mut self, f: Frame)
        ensures { self.new ≡ map (spec.unless_written (λ mark. frame_of mark == f.0)) self.old }
    {
        if self.may_have {
            self.end(Written::Whole(f));
        }
    }
}
