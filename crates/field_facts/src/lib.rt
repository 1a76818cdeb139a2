//! Facts about the fields of a file (`cloak_model`, `specs/Fields`), whatever their faults are: the first fault of fields
//! that stand in a row (`proofs/Firsts`), the texts that stand in a file (`proofs/Stands`), and what a text spells that
//! stands there (`proofs/Again`). The crates that read files in that grammar are proved by them.
#![tactic(auto)]
