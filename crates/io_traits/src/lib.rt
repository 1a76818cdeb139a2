//! The outside of the machine: files by name (`Shelf`), one output (`Sink`), and a random stream.
//!
//! What an object tells of its bytes is a ghost member that may tell nothing, as it does for real files
//! and for standard output; a clause then says nothing of these bytes. Each object counts its own
//! faults. A call returns `Failed` only if a count rose, a call that succeeds leaves the counts, and
//! no count falls: so a caller that hands a fault on can say where it came from.
#![tactic(auto)]

mod copied;
mod memory_shelf;
mod memory_sink;
mod planned;
mod shelf;
mod sink;
mod stream;
mod table;

pub use copied::copy_from;
pub use memory_shelf::MemoryShelf;
pub use memory_sink::MemorySink;
pub use shelf::Shelf;
pub use sink::{Sink, put_all};
pub use stream::Stream;
