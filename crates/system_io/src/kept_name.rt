//! The name of a file, in a room of a fixed size.
ghost use Rattle.std.specs.Prelude.{◌≡◌, ◌≤◌, ◌↔◌, [], length, IsTrue, IfOk, false};

use cloak_base::NoMemory;
use std::alloc::Global;
use std::marker::Model;

/// How long a name may be that is kept, in bytes. The system opens none that is longer.
const CAPACITY: usize = 4096;

/// A name of at most 4096 bytes, or none, which is empty.
#[derive(Drop)]
pub struct KeptName {
    text: String,
}

impl Model for KeptName {
    ghost use Rattle.std.specs.Prelude.{List, ℕ, ◌≤◌, string_bytes, string_capacity};

    ghost Value = { List ℕ };

    ghost view = { λ s. string_bytes s.text };

    ghost invariant = { λ s. 4096 ≤ string_capacity s.text };
}

impl KeptName {
    /// No name is kept yet. All memory that is needed is taken here.
    pub fn none(alloc: Global) -> Result<KeptName, NoMemory>
        ensures { IfOk result (λ kept. kept ≡ []) }
    {
        let text = String::with_capacity(alloc, CAPACITY)?;
        Ok(KeptName { text })
    }

    pub fn as_str(&self) -> &str
        ensures { result.now ≡ self.now }
    {
        self.text.as_str()
    }

    /// Says whether this is the name.
    #[inline(always)]
    pub fn is(&self, name: &str) -> bool
        ensures { IsTrue result ↔ (self.now ≡ name.now) }
    {
        self.text.as_str() == name
    }

    /// Keeps this name instead of the last one, and says whether there was room for it. Without it none is kept.
    pub fn keep(&mut self, name: &str) -> bool
        ensures kept { IsTrue result → self.new ≡ name.now }
        ensures no_room { result ≡ false → self.new ≡ [] }
        ensures room { length name.now ≤ 4096 → IsTrue result }
    {
        self.clear();
        name.len() <= CAPACITY && self.text.push_str(name).is_ok()
    }

    /// Forgets the name.
    pub fn clear(&mut self)
        ensures { self.new ≡ [] }
    {
        self.text.clear();
    }
}
