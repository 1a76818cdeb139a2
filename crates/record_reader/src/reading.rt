//! The front of a record's file.
ghost use Rattle.std.specs.Prelude.{◌≡◌, ◌≤◌, IfOk};
ghost use Rattle.io_traits.specs.Told.{SameFiles};
ghost use Rattle.cloak_model.specs.RecordFault as spec;
ghost use Rattle.record_reader.specs.Ahead.{IsAhead, OfFile};
ghost use Rattle.record_reader.specs.Reading.{ReadsCount, ReadsCounts, TellsMagic, TellsStart};

use crate::NextFault;
use crate::ahead::Ahead;
use cloak_model::RecordFault;
use io_traits::Shelf;

/// What is wrong with the magic.
#[tactic(auto, unfolding(cloak_model::specs::RecordFault::magic_fault))]
fn magic_fault(bytes: &[u8]) -> Option<RecordFault>
    ensures { result ≡ spec.magic_fault bytes.now }
{
    if bytes.len() < 8 {
        return Some(RecordFault::Short(bytes.len() as u64));
    }
    let mut magic = [0; 8];
    magic.copy_from_slice(&bytes[..8]);
    if magic != *b"CLOAKREC" {
        return Some(RecordFault::BadMagic);
    }
    None
}

/// Reads the magic.
fn read_magic<S: Shelf>(ahead: &mut Ahead, name: &str, shelf: &mut S) -> Result<(), NextFault>
    ensures magic { OfFile (S.held shelf.old name.now) ahead.old (λ file. TellsMagic file result) }
    ensures ahead { OfFile (S.held shelf.old name.now) ahead.old (λ file. IsAhead ahead.new file) }
    ensures files { SameFiles (S.held shelf.old) (S.held shelf.new) }
    ensures counts { ReadsCounts (S.reading_faults shelf.old) (S.reading_faults shelf.new)
        (S.writing_faults shelf.old) (S.writing_faults shelf.new) result }
    ensures reading { S.is_settled shelf.old →
        ReadsCount (S.reading_faults shelf.old) (S.reading_faults shelf.new) result }
    ensures writing { S.is_settled shelf.old → S.writing_faults shelf.new ≡ S.writing_faults shelf.old }
    ensures settled { S.is_settled shelf.old → S.is_settled shelf.new }
{
    match ahead.reach(name, shelf, 0) {
        Ok(()) => {}
        Err(_) => return Err(NextFault::Read),
    }
    match magic_fault(ahead.from(0)) {
        None => Ok(()),
        Some(fault) => Err(NextFault::Record(fault)),
    }
}

/// Where the next item stands, after the magic, which is read first.
pub(crate) fn items_from<S: Shelf>(
    ahead: &mut Ahead,
    name: &str,
    at: u64,
    shelf: &mut S,
) -> Result<u64, NextFault>
    ensures magic { OfFile (S.held shelf.old name.now) ahead.old (λ file. TellsStart file at result) }
    ensures ahead { OfFile (S.held shelf.old name.now) ahead.old (λ file. IsAhead ahead.new file) }
    ensures behind { IfOk result (λ from. at ≤ from) }
    ensures files { SameFiles (S.held shelf.old) (S.held shelf.new) }
    ensures counts { ReadsCounts (S.reading_faults shelf.old) (S.reading_faults shelf.new)
        (S.writing_faults shelf.old) (S.writing_faults shelf.new) result }
    ensures reading { S.is_settled shelf.old →
        ReadsCount (S.reading_faults shelf.old) (S.reading_faults shelf.new) result }
    ensures writing { S.is_settled shelf.old → S.writing_faults shelf.new ≡ S.writing_faults shelf.old }
    ensures settled { S.is_settled shelf.old → S.is_settled shelf.new }
{
    if at != 0 {
        return Ok(at);
    }
    match read_magic(ahead, name, shelf) {
        Ok(()) => Ok(8),
        Err(fault) => Err(fault),
    }
}
