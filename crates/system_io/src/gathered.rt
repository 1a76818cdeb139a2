//! Small pieces are gathered before they are written out.
ghost use Rattle.std.specs.Prelude.{◌≡◌, ◌≤◌, ◌+◌, ◌-◌, ◌++◌, ◌∷◌, ◌<◌, ◌↔◌, [], length, take, drop, IsTrue, IfOk, false};

use cloak_base::NoMemory;
use std::alloc::Global;
use std::marker::Model;

/// How many bytes are gathered at the most.
const CAPACITY: usize = 65536;

/// Bytes that were taken, and are not written yet. They stand in a room of a fixed size, so a piece of a known length
/// is stored at once.
#[derive(Drop)]
pub struct Gathered {
    room: Vec<u8>,
    /// How many bytes of the room were taken.
    filled: usize,
    /// How many of these are written.
    written: usize,
}

impl Model for Gathered {
    ghost use Rattle.std.specs.Prelude.{List, ℕ, take, drop, ◌≤◌, vec_len};

    ghost Value = { List ℕ };

    ghost view = { λ s. drop s.written (take s.filled s.room.items) };

    ghost invariant = { λ s. (s.written ≤ s.filled) × (s.filled ≤ vec_len s.room) };
}

impl Gathered {
    /// Nothing is gathered yet. All memory that is needed is taken here.
    pub fn open(alloc: Global) -> Result<Gathered, NoMemory>
        ensures { IfOk result (λ gathered. gathered ≡ []) }
    {
        let room = vec![in alloc; 0; CAPACITY]?;
        Ok(Gathered {
            room,
            filled: 0,
            written: 0,
        })
    }

    /// Takes the whole piece if there is room for it, and else nothing of it.
    #[inline(always)]
    pub fn gather(&mut self, piece: &[u8]) -> bool
        ensures taken { IsTrue result → self.new ≡ self.old ++ piece.now }
        ensures no_room { result ≡ false → self.new ≡ self.old }
    {
        if piece.len() > self.room.len() - self.filled {
            return false;
        }
        self.filled = put_after(&mut self.room, self.filled, piece);
        true
    }

    /// The bytes that are gathered.
    pub fn rest(&self) -> &[u8]
        ensures { result.now ≡ self.now }
    {
        let taken = &self.room[..self.filled];
        &taken[self.written..]
    }

    /// Forgets the first n of the bytes, which were written.
    pub fn forget(&mut self, n: usize)
        requires { n ≤ length self.old }
        ensures { self.new ≡ drop n self.old }
    {
        self.written += n;
        if self.written == self.filled {
            self.clear();
        }
    }

    /// Takes back up to `count` of the bytes that were gathered last, and returns how many of `count` were written
    /// before.
    pub fn take_back(&mut self, count: usize) -> usize
        ensures left { self.new ≡ take (length self.old - count) self.old }
        ensures written { result ≡ count - length self.old }
    {
        let back = count.min(self.filled - self.written);
        self.filled -= back;
        count - back
    }

    /// Says whether nothing is gathered.
    pub fn is_empty(&self) -> bool
        ensures { IsTrue result ↔ (self.now ≡ []) }
    {
        if self.written < self.filled {
            return false;
        }
        true
    }

    /// Forgets what is gathered.
    pub fn clear(&mut self)
        ensures { self.new ≡ [] }
    {
        self.filled = 0;
        self.written = 0;
    }
}

/// Puts one byte after the first `at`.
#[inline(always)]
fn put_byte(room: &mut [u8], at: usize, byte: u8)
    requires { at < length room.old }
    ensures put { take (at + 1) room.new ≡ take at room.old ++ byte ∷ [] }
    ensures same_room { length room.new ≡ length room.old }
{
    room[at] = byte;
}

/// Puts two bytes after the first `at`.
#[inline(always)]
fn put_two(room: &mut [u8], at: usize, a: u8, b: u8)
    requires { at + 2 ≤ length room.old }
    ensures put { take (at + 2) room.new ≡ take at room.old ++ a ∷ b ∷ [] }
    ensures same_room { length room.new ≡ length room.old }
{
    put_byte(room, at, a);
    put_byte(room, at + 1, b);
}

/// Puts four bytes after the first `at`.
#[inline(always)]
fn put_four(room: &mut [u8], at: usize, a: u8, b: u8, c: u8, d: u8)
    requires { at + 4 ≤ length room.old }
    ensures put { take (at + 4) room.new ≡ take at room.old ++ a ∷ b ∷ c ∷ d ∷ [] }
    ensures same_room { length room.new ≡ length room.old }
{
    put_two(room, at, a, b);
    put_two(room, at + 2, c, d);
}

/// Puts these bytes after the first `at`, and returns where they end.
#[inline(always)]
fn put_all_after(room: &mut [u8], at: usize, bytes: &[u8]) -> usize
    requires { at + length bytes.now ≤ length room.old }
    ensures end { result ≡ at + length bytes.now }
    ensures put { take result room.new ≡ take at room.old ++ bytes.now }
    ensures same_room { length room.new ≡ length room.old }
{
    let end = at + bytes.len();
    room[at..end].copy_from_slice(bytes);
    end
}

/// The same. The bytes of a marker and of the most frequent answers are stored one by one: if the compiler knows how
/// many they are, it makes one or two stores of that.
#[inline(always)]
fn put_after(room: &mut [u8], at: usize, bytes: &[u8]) -> usize
    requires { at + length bytes.now ≤ length room.old }
    ensures end { result ≡ at + length bytes.now }
    ensures put { take result room.new ≡ take at room.old ++ bytes.now }
    ensures same_room { length room.new ≡ length room.old }
{
    match *bytes {
        [a, b] => {
            put_two(room, at, a, b);
            at + 2
        }
        [a, b, c, d, e] => {
            put_byte(room, at, a);
            put_four(room, at + 1, b, c, d, e);
            at + 5
        }
        [a, b, c, d, e, f] => {
            put_two(room, at, a, b);
            put_four(room, at + 2, c, d, e, f);
            at + 6
        }
        _ => put_all_after(room, at, bytes),
    }
}
