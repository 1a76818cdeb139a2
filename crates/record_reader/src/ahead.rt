//! Bytes of a file that are read ahead.
ghost use Rattle.std.specs.Prelude.{◌≡◌, ◌+◌, ◌-◌, ◌^◌, ◌≤◌, ℕ, List, Some, IsTrue, IfOk, IfSome, OnOk, length};
ghost use Rattle.io_traits.specs.Told.{SameFiles, Counts, CountsEither};
ghost use Rattle.cloak_model.specs.RecordFault as spec;
ghost use Rattle.cloak_model.specs.declared.record.Tag.TheVariants as tag;

use cloak_base::Failed;
use io_traits::Shelf;

/// How many bytes are read ahead at the most: more than an item has.
const WINDOW: usize = 8192;

/// A piece of a file.
#[derive(Drop)]
pub(crate) struct Ahead {
    /// Where it stands in the file.
    start: u64,
    /// How many bytes it has.
    count: usize,
    bytes: [u8; WINDOW],
    ghost few: { count ≤ 8192 },
    ghost fits: { start + count ≤ 2 ^ 64 - 1 },
}

/// The most bytes of an item that begins with this byte.
fn most_of(byte: u8) -> usize
    ensures least { 41 ≤ result }
    ensures cipher { spec.tag_of byte ≡ Some tag.Cipher → 4101 ≤ result }
{
    if byte == 0x01 { 4101 } else { 41 }
}

impl Ahead {
    ghost use Rattle.record_reader.specs.Ahead.{IsAhead, IsFilled, IsWindow, HasWhole, OfFile, ahead_from, readable};

    /// Nothing is read ahead.
    pub fn none() -> Ahead
        ensures { (file : List ℕ) → IsAhead result file }
    {
        Ahead {
            start: 0,
            count: 0,
            bytes: [0; WINDOW],
        }
    }

    /// Some bytes have the whole item that they begin with.
    fn has_item(bytes: &[u8]) -> bool
        ensures { IsTrue result → HasWhole (length bytes.now) bytes.now }
    {
        !bytes.is_empty() && bytes.len() >= most_of(bytes[0])
    }

    /// Fills a window with the bytes from an offset on, as far as an item there needs them, and says how many there are.
    fn fill<S: Shelf>(
        name: &str,
        shelf: &mut S,
        at: u64,
        into: &mut [u8; WINDOW],
    ) -> Result<usize, Failed>
        ensures bytes { IfOk result (λ n.
            IfSome (S.held shelf.old name.now) (λ bytes. IsFilled (readable bytes) at n into.new)) }
        ensures few { IfOk result (λ n. n ≤ WINDOW) }
        ensures fits { IfOk result (λ n. at + n ≤ 2 ^ 64 - 1) }
        ensures files { SameFiles (S.held shelf.old) (S.held shelf.new) }
        ensures counts { CountsEither (S.reading_faults shelf.old) (S.reading_faults shelf.new)
            (S.writing_faults shelf.old) (S.writing_faults shelf.new) result }
        ensures reading { S.is_settled shelf.old →
            Counts (S.reading_faults shelf.old) (S.reading_faults shelf.new) result }
        ensures writing { S.is_settled shelf.old → S.writing_faults shelf.new ≡ S.writing_faults shelf.old }
        ensures settled { S.is_settled shelf.old → S.is_settled shelf.new }
    {
        let limit = (WINDOW as u64).min(u64::MAX - at) as usize;
        let mut count = 0;
        while count < limit {
            if Ahead::has_item(&into[..count]) {
                break;
            }
            let n = match shelf.read_at(name, at + count as u64, &mut into[count..limit]) {
                Ok(n) => n,
                Err(failed) => return Err(failed),
            };
            if n == 0 {
                break;
            }
            count += n;
        }
        Ok(count)
    }

    /// What was read ahead, from an offset of the file on.
    pub fn from(&self, at: u64) -> &[u8]
        ensures { result.now ≡ ahead_from at self.now }
    {
        if at < self.start {
            return &self.bytes[..0];
        }
        let first = (at - self.start).min(self.count as u64) as usize;
        &self.bytes[first..self.count]
    }

    /// Reads ahead from an offset on, unless the item there is read.
    pub fn reach<S: Shelf>(&mut self, name: &str, shelf: &mut S, at: u64) -> Result<(), Failed>
        ensures window { OnOk result (OfFile (S.held shelf.old name.now) self.old
            (λ file. IsWindow file at (ahead_from at self.new))) }
        ensures ahead { OfFile (S.held shelf.old name.now) self.old (λ file. IsAhead self.new file) }
        ensures fits { at + length (ahead_from at self.new) ≤ 2 ^ 64 - 1 }
        ensures files { SameFiles (S.held shelf.old) (S.held shelf.new) }
        ensures counts { CountsEither (S.reading_faults shelf.old) (S.reading_faults shelf.new)
            (S.writing_faults shelf.old) (S.writing_faults shelf.new) result }
        ensures reading { S.is_settled shelf.old →
            Counts (S.reading_faults shelf.old) (S.reading_faults shelf.new) result }
        ensures writing { S.is_settled shelf.old → S.writing_faults shelf.new ≡ S.writing_faults shelf.old }
        ensures settled { S.is_settled shelf.old → S.is_settled shelf.new }
    {
        if Ahead::has_item(self.from(at)) {
            return Ok(());
        }
        self.count = 0;
        self.start = at;
        match Ahead::fill(name, shelf, at, &mut self.bytes) {
            Ok(count) => {
                self.count = count;
                Ok(())
            }
            Err(failed) => Err(failed),
        }
    }
}
