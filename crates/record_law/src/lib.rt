//! Laws on the record (`cloak_model`, `specs/Record`, `specs/RecordFault` and `specs/Run`), on the definitions alone: a
//! file of bytes is the record of one list of items, or has one first fault, and never both; and what a run writes to its
//! record is the record of its exchange.
//!
//! No body changes a law, so there is no wrong body to refuse here. These changed definitions were tried on a copy,
//! and with none of them did the proofs go through. Of a record and its faults: the number of Close is not tested; a
//! Cipher is whole with one byte less; a Put of two bytes has no width; a Put may stand before the first step; a byte
//! after End is let through. Of what is written: the marker of a step stands after its items; steps are numbered from
//! 0; the report is written to the record, too.
#![tactic(auto)]

ghost use Rattle.record_law.specs.OneRecord.{OneRecord, OneFault, NeverBoth, RecordOrFault};
ghost use Rattle.record_law.specs.Written.{WritesItsRecord};

/// It does nothing: its contract is the law.
pub fn law_of_records()
    ensures one_record { OneRecord }
    ensures one_fault { OneFault }
    ensures never_both { NeverBoth }
    ensures either { RecordOrFault }
{}

/// The law of what is written: the pieces of the record that a run is due are the record of its exchange.
pub fn law_of_written_records()
    ensures { WritesItsRecord }
{}
