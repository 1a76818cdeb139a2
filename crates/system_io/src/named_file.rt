//! A file that is kept open, with its name.
ghost use Rattle.std.specs.Prelude.{◌≡◌, ◌≤◌, ◌↔◌, [], Some, length, IsTrue, IsSome, IsNone, IfOk, false};

use crate::kept_name::KeptName;
use cloak_base::NoMemory;
use std::alloc::Global;

/// One file at the most, open under its name.
#[derive(Drop)]
pub struct NamedFile<F: Drop> {
    pub file: Option<F>,
    name: KeptName,
}

impl<F: Drop> NamedFile<F> {
    /// No file is open yet. All memory that is needed for names is taken here.
    pub fn none(alloc: Global) -> Result<NamedFile<F>, NoMemory>
        ensures file { IfOk result (λ named. IsNone named.file) }
        ensures name { IfOk result (λ named. named.name ≡ []) }
    {
        let name = KeptName::none(alloc)?;
        Ok(NamedFile { file: None, name })
    }

    /// Says whether the file of this name is open.
    #[inline(always)]
    pub fn is_open(&self, name: &str) -> bool
        ensures { IsTrue result ↔ (IsSome self.now.file × (self.now.name ≡ name.now)) }
    {
        self.file.is_some() && self.name.is(name)
    }

    /// The name of the file, if one is open.
    pub fn name(&self) -> &str
        ensures { result.now ≡ self.now.name }
    {
        self.name.as_str()
    }

    /// Closes the file that was open and keeps this one. Says whether there was room for its name; without it none
    /// is open.
    pub fn keep(&mut self, name: &str, file: F) -> bool
        ensures kept { IsTrue result → (self.new.file ≡ Some file) × (self.new.name ≡ name.now) }
        ensures no_room { result ≡ false → IsNone self.new.file }
        ensures room { length name.now ≤ 4096 → IsTrue result }
    {
        self.close();
        if !self.name.keep(name) {
            return false;
        }
        self.file = Some(file);
        true
    }

    /// Closes the file, if one is open.
    pub fn close(&mut self)
        ensures closed { IsNone self.new.file }
        ensures name { self.new.name ≡ [] }
    {
        self.file = None;
        self.name.clear();
    }
}
