//! A law on the definitions alone: each field of each item that a run writes (`cloak_model`, `specs/Run`) is in its range,
//! so that the bytes of its record are the record of its exchange (`specs/Record`), and of nothing else (`record_law`).
//! The law holds of each bundle of the grammar whose bytes are bytes, from each beginning of bytes (a stream, or also keys
//! and sealed files), and of each budget that the program takes.
//!
//! No body changes a law, so there is no wrong body to refuse here. With these changed definitions, tried on a copy,
//! its proof did not go through: a stream that is handed in has any numbers instead of bytes; programs do; a run may
//! have 2^32 steps.
#![tactic(auto)]

ghost use Rattle.range_law.specs.Writing.{WritesARecord};

/// What a run writes is the record of its exchange. It does nothing: its contract is the law.
pub fn law_of_items()
    ensures { WritesARecord }
{}
