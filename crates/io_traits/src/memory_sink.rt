ghost use Rattle.std.specs.Prelude.{◌≡◌, ◌++◌, ◌↔◌, [], Some, length, Contains, IfOk, OnOk, OnErr, IsErr};
ghost use Rattle.io_traits.specs.Memory.{one_more};

use crate::Sink;
use crate::planned::Planned;
use cloak_base::Failed;
use std::alloc::Global;
use std::marker::Model;

/// A sink that holds what it took, and fails at the calls whose numbers it was given, counted from 1,
/// and if a growth finds no memory.
#[derive(Drop)]
pub struct MemorySink {
    bytes: Vec<u8>,
    planned: Planned,
    faults: u64,
}

impl Model for MemorySink {
    ghost use Rattle.io_traits.specs.Memory.{MemoryOutput};

    ghost Value = { MemoryOutput };

    ghost view = { λ s. record {
      taken = s.bytes.items;
      fails = s.planned.fails.items;
      calls = s.planned.calls;
      faults = s.faults;
    } };
}

impl MemorySink {
    /// A sink that took nothing yet, and fails at the calls of these numbers.
    pub fn open(alloc: Global, fails: Vec<u64>) -> MemorySink
        ensures { result ≡ record { taken = []; fails = fails.items; calls = 0; faults = 0 } }
    {
        MemorySink {
            bytes: Vec::new(alloc),
            planned: Planned { fails, calls: 0 },
            faults: 0,
        }
    }

    /// All bytes that were taken.
    pub fn taken(&self) -> &[u8]
        ensures { result.now ≡ self.now.taken }
    {
        self.bytes.as_slice()
    }
}

impl Sink for MemorySink {
    ghost taken = { λ s. Some s.taken };

    ghost faults = { λ s. s.faults };

    ghost is_settled = { λ _. Unit {0} };

    /// Takes the whole piece. No bytes need no memory.
    fn put(&mut self, bytes: &[u8]) -> Result<usize, Failed>
        ensures whole { IfOk result (λ n. n ≡ length bytes.now) }
        ensures listed { Contains self.old.fails (one_more self.old.calls) → IsErr result }
        ensures empty { bytes.now ≡ [] → IsErr result → Contains self.old.fails (one_more self.old.calls) }
        ensures after_ok { OnOk result (self.new ≡ record self.old {
          taken = self.old.taken ++ bytes.now;
          calls = one_more self.old.calls;
        }) }
        ensures after_err { OnErr result (self.new ≡ record self.old {
          calls = one_more self.old.calls;
          faults = one_more self.old.faults;
        }) }
    {
        if self.planned.is_next_to_fail() || self.bytes.extend_from_slice(bytes).is_err() {
            self.faults = self.faults.saturating_add(1);
            return Err(Failed);
        }
        Ok(bytes.len())
    }

    /// Nothing is gathered, so only a call that is listed fails.
    fn flush(&mut self) -> Result<(), Failed>
        ensures listed { IsErr result ↔ Contains self.old.fails (one_more self.old.calls) }
        ensures after_ok { OnOk result (self.new ≡ record self.old { calls = one_more self.old.calls }) }
        ensures after_err { OnErr result (self.new ≡ record self.old {
          calls = one_more self.old.calls;
          faults = one_more self.old.faults;
        }) }
    {
        if self.planned.is_next_to_fail() {
            self.faults = self.faults.saturating_add(1);
            return Err(Failed);
        }
        Ok(())
    }
}
