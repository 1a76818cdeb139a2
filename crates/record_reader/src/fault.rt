//! Why a reader of a record has no item.

use cloak_model::RecordFault;

/// Why a reader has no item.
#[derive(Clone, Copy, Debug, PartialEq, Eq)]
pub enum NextFault {
    /// The shelf failed.
    Read,
    /// The file is no record, by this first fault.
    Record(RecordFault),
}
