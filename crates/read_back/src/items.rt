//! The items of a record, one after another, up to where reading ends. All tools read records by these calls.
ghost use Rattle.cloak_model.specs.Items.{item_of};
ghost use Rattle.std.specs.Prelude.{◌≡◌, ◌<◌, ◌-◌, ◌^◌, ◌++◌, [], ◌∷◌, List, Result, Ok, IfOk, length};
ghost use Rattle.cloak_model.specs.Items.{Item as AnyItem};
ghost use Rattle.cloak_model.specs.Record.{IsItem};
ghost use Rattle.io_traits.specs.Told.{SameFiles};
ghost use Rattle.record_reader.specs.Reading.{reader_offset};
ghost use Rattle.read_back.specs.Items.{CountsFound, Finds, ReadsItems, StandsAt, found_item};

use crate::ending::Ending;
use cloak_model::Item;
use io_traits::Shelf;
use record_reader::{NextFault, Reader};

/// A record's next item, of which a page is lent from the room; or how reading ended: at the record's end, at its first
/// fault, or by a fault of reading.
pub fn next_item<'p, S: Shelf>(
    reader: &mut Reader<'_>,
    shelf: &mut S,
    room: &'p mut [u8; 4096],
) -> Result<Item<'p>, Ending>
    requires { S.is_settled shelf.old }
    ensures next { (items : List AnyItem) → StandsAt (S.held shelf.old reader.old.name.now) reader.old items →
        Finds (S.held shelf.old reader.old.name.now) reader.new items (found_item result) }
    ensures item { IfOk result (λ i. IsItem (item_of i)) }
    ensures counts { CountsFound (S.reading_faults shelf.old) (S.reading_faults shelf.new) result }
    ensures moves { IfOk result (λ t. reader_offset reader.old < reader_offset reader.new) }
    ensures within { reader_offset reader.new < 2 ^ 64 }
    ensures same { reader.new.name ≡ reader.old.name }
    ensures files { SameFiles (S.held shelf.old) (S.held shelf.new) }
    ensures writing { S.writing_faults shelf.new ≡ S.writing_faults shelf.old }
    ensures settled { S.is_settled shelf.new }
{
    match reader.next(shelf, room) {
        Ok(Some(item)) => Ok(item),
        Ok(None) => Err(Ending::Whole),
        Err(NextFault::Read) => Err(Ending::Unread),
        Err(NextFault::Record(fault)) => Err(Ending::Fault(fault)),
    }
}

/// Takes the items of a record, one after another.
pub trait TakeItems {
    /// Why it takes no more.
    type Stop;

    /// From an earlier state to a later one it took these items, and returned this of the last.
    ghost took: { Self → Self → List AnyItem → Result (Unit {0}) Self.Stop → Type 0 };

    fn take_item(&mut self, item: &Item<'_>) -> Result<(), Self::Stop>
        requires { IsItem (item_of item.now) }
        ensures { (first : Self) (before : List AnyItem) → length before < 2 ^ 64 - 1 → took first self.old before (Ok tt) →
            took first self.new (before ++ (item_of item.now) ∷ []) result };
}

/// Gives the items of a record to a taker, up to where reading ends or the taker takes no more.
pub fn for_each_item<S: Shelf, T: TakeItems>(
    name: &str,
    shelf: &mut S,
    taker: &mut T,
) -> Result<Ending, T::Stop>
    requires settled { S.is_settled shelf.old }
    requires none { T.took taker.old taker.old [] (Ok tt) }
    ensures reads { ReadsItems (T.took taker.old taker.new) (S.held shelf.old name.now)
        (S.reading_faults shelf.old) (S.reading_faults shelf.new) result }
    ensures files { SameFiles (S.held shelf.old) (S.held shelf.new) }
    ensures writing { S.writing_faults shelf.new ≡ S.writing_faults shelf.old }
    ensures settled { S.is_settled shelf.new }
{
    let mut reader = Reader::open(name);
    let mut room = [0; 4096];
    loop {
        let item = match next_item(&mut reader, shelf, &mut room) {
            Ok(item) => item,
            Err(ending) => return Ok(ending),
        };
        if let Err(stop) = taker.take_item(&item) {
            return Err(stop);
        }
    }
}
