//! The reader of a record.
ghost use Rattle.std.specs.Prelude.{◌≡◌, ◌<◌, ◌^◌, ℕ, List, [], Some, None, Ok, IfSome, OnErr};
ghost use Rattle.io_traits.specs.Told.{SameFiles};
ghost use Rattle.cloak_model.specs.declared.item.Item as code;
ghost use Rattle.cloak_model.specs.Items as item;
ghost use Rattle.cloak_model.specs.Items.{item_of};
ghost use Rattle.cloak_model.specs.Record.{IsItem};

use crate::NextFault;
use crate::ahead::Ahead;
use crate::fields::item_in;
use crate::judging::{fault_of, judge, stage_after};
use crate::reading::items_from;
use crate::tags::size_of;
use cloak_model::{Item, Stage};
use io_traits::Shelf;

/// Reads the items of a record, one after another, from a file that stays as it is meanwhile.
#[derive(Drop)]
pub struct Reader<'a> {
    name: &'a str,
    /// Where the next item stands. At 0 the magic is not yet read.
    at: u64,
    stage: Stage,
    ahead: Ahead,
}

impl<'a> Reader<'a> {
    ghost use Rattle.record_reader.specs.Ahead.{readable};
    ghost use Rattle.record_reader.specs.Reading.{IsBehind, ReadsNext, ReadsCount, ReadsCounts, SamePlace};
    ghost use Rattle.record_reader.specs.Reading.{item_read, reader_offset};

    /// At the front of the file of this name.
    pub fn open(name: &'a str) -> Reader<'a>
        ensures front { (file : List ℕ) → IsBehind result file [] }
        ensures name { result.name.now ≡ name.now }
        ensures start { reader_offset result ≡ 0 }
    {
        Reader {
            name,
            at: 0,
            stage: Stage::Opening,
            ahead: Ahead::none(),
        }
    }

    /// Reads the next item; none after End, if the file ends there. A page is lent from the room. A fault leaves the
    /// reader where it stands.
    pub fn next<'p, S: Shelf>(
        &mut self,
        shelf: &mut S,
        room: &'p mut [u8; 4096],
    ) -> Result<Option<Item<'p>>, NextFault>
        ensures next { IfSome (S.held shelf.old self.old.name.now) (λ bytes. (front : List item.Item) →
            IsBehind self.old (readable bytes) front →
            ReadsNext (readable bytes) front self.new (item_read result)) }
        ensures item { (i : code.Item) → result ≡ Ok (Some i) → IsItem (item_of i) }
        ensures moves { (i : code.Item) → result ≡ Ok (Some i) → reader_offset self.old < reader_offset self.new }
        ensures within { reader_offset self.new < 2 ^ 64 }
        ensures same { self.new.name ≡ self.old.name }
        ensures unchanged { OnErr result (SamePlace self.old self.new) }
        ensures files { SameFiles (S.held shelf.old) (S.held shelf.new) }
        ensures counts { ReadsCounts (S.reading_faults shelf.old) (S.reading_faults shelf.new)
            (S.writing_faults shelf.old) (S.writing_faults shelf.new) result }
        ensures reading { S.is_settled shelf.old →
            ReadsCount (S.reading_faults shelf.old) (S.reading_faults shelf.new) result }
        ensures writing { S.is_settled shelf.old → S.writing_faults shelf.new ≡ S.writing_faults shelf.old }
        ensures settled { S.is_settled shelf.old → S.is_settled shelf.new }
    {
        let from = match items_from(&mut self.ahead, self.name, self.at, shelf) {
            Ok(from) => from,
            Err(fault) => return Err(fault),
        };
        match self.ahead.reach(self.name, shelf, from) {
            Ok(()) => {}
            Err(_) => return Err(NextFault::Read),
        }
        let bytes = self.ahead.from(from);
        match judge(self.stage, bytes) {
            Err(wrong) => Err(NextFault::Record(fault_of(from + bytes.len() as u64, from, wrong))),
            Ok(None) => Ok(None),
            Ok(Some(tag)) => {
                let item = item_in(tag, &bytes[1..], room);
                self.at = from.saturating_add(1 + size_of(tag) as u64);
                self.stage = stage_after(self.stage, &item);
                Ok(Some(item))
            }
        }
    }
}
