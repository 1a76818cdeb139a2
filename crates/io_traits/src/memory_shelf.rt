ghost use Rattle.std.specs.Prelude.{◌≡◌, ◌++◌, ◌↔◌, [], None, Some, length, take, drop, min, Contains};
ghost use Rattle.std.specs.Prelude.{IfOk, OnOk, OnErr, IsErr};
ghost use Rattle.std.specs.FinMap.{insert, empty};
ghost use Rattle.io_traits.specs.Memory.{one_more, bytes_of, IsThere};
ghost use Rattle.io_traits.specs.Told.{Tells};

use crate::copied::copy_from;
use crate::planned::Planned;
use crate::table::FilesByName;
use crate::{Shelf, table};
use cloak_base::{Failed, NoMemory};
use std::alloc::Global;
use std::collections::BTreeMap;
use std::marker::Model;

/// A shelf that holds its files in memory, and fails at the calls whose numbers it was given, counted
/// from 1, and if a growth finds no memory.
#[derive(Drop)]
pub struct MemoryShelf {
    alloc: Global,
    files: FilesByName,
    planned: Planned,
    reading_faults: u64,
    writing_faults: u64,
    /// The file of which reading failed last.
    unread: Option<String>,
}

impl Model for MemoryShelf {
    ghost use Rattle.std.specs.Prelude.{option_map, string_bytes};
    ghost use Rattle.io_traits.specs.Memory.{MemoryFiles, memory_files_code};
    ghost use Rattle.io_traits.specs.Table.{files_of};

    ghost Value = { MemoryFiles };

    ghost coded = { memory_files_code };

    ghost view = { λ s. record {
      files = files_of s.files;
      fails = s.planned.fails.items;
      calls = s.planned.calls;
      reading_faults = s.reading_faults;
      writing_faults = s.writing_faults;
      unread = option_map string_bytes s.unread;
    } };
}

impl MemoryShelf {
    /// A shelf without files that fails at the calls of these numbers.
    pub fn open(alloc: Global, fails: Vec<u64>) -> MemoryShelf
        ensures { result ≡ record {
          files = empty;
          fails = fails.items;
          calls = 0;
          reading_faults = 0;
          writing_faults = 0;
          unread = None;
        } }
    {
        MemoryShelf {
            alloc,
            files: BTreeMap::new(alloc),
            planned: Planned { fails, calls: 0 },
            reading_faults: 0,
            writing_faults: 0,
            unread: None,
        }
    }

    /// Hands a file in, instead of any of this name. It is no counted call.
    pub fn add(&mut self, name: &str, bytes: &[u8]) -> Result<(), NoMemory>
        ensures ok { OnOk result (self.new ≡ record self.old { files = insert self.old.files name.now bytes.now }) }
        ensures err { OnErr result (self.new ≡ self.old) }
    {
        table::replace(self.alloc, &mut self.files, name, bytes)
    }

    /// The bytes of the file of a name. Of a missing name none.
    pub fn bytes(&self, name: &str) -> &[u8]
        ensures { result.now ≡ bytes_of self.now.files name.now }
    {
        table::bytes(&self.files, name)
    }

    /// Counts a fault of reading this file.
    fn fail_reading(&mut self, name: &str)
        ensures counted { self.new ≡ record self.old {
          reading_faults = one_more self.old.reading_faults;
          unread = self.new.unread;
        } }
        ensures named { Tells self.new.unread name.now }
    {
        self.reading_faults = self.reading_faults.saturating_add(1);
        self.unread = String::from_str(self.alloc, name).ok();
    }
}

impl Shelf for MemoryShelf {
    ghost held = { λ s name. Some (bytes_of s.files name) };

    ghost reading_faults = { λ s. s.reading_faults };

    ghost unread = { λ s. s.unread };

    ghost writing_faults = { λ s. s.writing_faults };

    ghost is_settled = { λ _. Unit {0} };

    ghost is_last = { λ _ _. Unit {0} };

    fn size(&mut self, name: &str) -> Result<u64, Failed>
        ensures size { IfOk result (λ n. n ≡ length (bytes_of self.old.files name.now)) }
        ensures listed { IsErr result ↔ Contains self.old.fails (one_more self.old.calls) }
        ensures after_ok { OnOk result (self.new ≡ record self.old { calls = one_more self.old.calls }) }
        ensures after_err { OnErr result (self.new ≡ record self.old {
          calls = one_more self.old.calls;
          reading_faults = one_more self.old.reading_faults;
          unread = self.new.unread;
        }) }
        ensures named { OnErr result (Tells self.new.unread name.now) }
    {
        if self.planned.is_next_to_fail() {
            self.fail_reading(name);
            return Err(Failed);
        }
        Ok(table::bytes(&self.files, name).len() as u64)
    }

    /// Copies all bytes from `at` on that `into` has room for.
    fn read_at(&mut self, name: &str, at: u64, into: &mut [u8]) -> Result<usize, Failed>
        ensures count { let rest = drop at (bytes_of self.old.files name.now) in
            IfOk result (λ n. n ≡ min (length into.old) (length rest)) }
        ensures copied { let rest = drop at (bytes_of self.old.files name.now) in
            IfOk result (λ n. into.new ≡ take n rest ++ drop n into.old) }
        ensures unchanged { OnErr result (into.new ≡ into.old) }
        ensures listed { IsErr result ↔ Contains self.old.fails (one_more self.old.calls) }
        ensures after_ok { OnOk result (self.new ≡ record self.old { calls = one_more self.old.calls }) }
        ensures after_err { OnErr result (self.new ≡ record self.old {
          calls = one_more self.old.calls;
          reading_faults = one_more self.old.reading_faults;
          unread = self.new.unread;
        }) }
        ensures named { OnErr result (Tells self.new.unread name.now) }
    {
        if self.planned.is_next_to_fail() {
            self.fail_reading(name);
            return Err(Failed);
        }
        Ok(copy_from(table::bytes(&self.files, name), at, into))
    }

    /// Empties the file of this name, or makes it. Only to make it takes memory.
    fn begin(&mut self, name: &str) -> Result<(), Failed>
        ensures listed { Contains self.old.fails (one_more self.old.calls) → IsErr result }
        ensures there { IsThere self.old.files name.now → IsErr result →
            Contains self.old.fails (one_more self.old.calls) }
        ensures after_ok { OnOk result (self.new ≡ record self.old {
          files = insert self.old.files name.now [];
          calls = one_more self.old.calls;
        }) }
        ensures after_err { OnErr result (self.new ≡ record self.old {
          calls = one_more self.old.calls;
          writing_faults = one_more self.old.writing_faults;
        }) }
    {
        if self.planned.is_next_to_fail()
            || table::empty(self.alloc, &mut self.files, name).is_err()
        {
            self.writing_faults = self.writing_faults.saturating_add(1);
            return Err(Failed);
        }
        Ok(())
    }

    /// Adds the whole piece at the end of the file of this name. One that failed has added nothing. Only to make the
    /// file, and to add bytes, takes memory.
    fn append(&mut self, name: &str, bytes: &[u8]) -> Result<(), Failed>
        ensures listed { Contains self.old.fails (one_more self.old.calls) → IsErr result }
        ensures there { IsThere self.old.files name.now → bytes.now ≡ [] → IsErr result →
            Contains self.old.fails (one_more self.old.calls) }
        ensures after_ok { OnOk result (self.new ≡ record self.old {
          files = insert self.old.files name.now (bytes_of self.old.files name.now ++ bytes.now);
          calls = one_more self.old.calls;
        }) }
        ensures after_err { OnErr result (self.new ≡ record self.old {
          calls = one_more self.old.calls;
          writing_faults = one_more self.old.writing_faults;
        }) }
    {
        if self.planned.is_next_to_fail()
            || table::extend(self.alloc, &mut self.files, name, bytes).is_err()
        {
            self.writing_faults = self.writing_faults.saturating_add(1);
            return Err(Failed);
        }
        Ok(())
    }

    /// As `append`.
    fn append_last(&mut self, name: &str, bytes: &[u8]) -> Result<(), Failed>
        ensures listed { Contains self.old.fails (one_more self.old.calls) → IsErr result }
        ensures there { IsThere self.old.files name.now → bytes.now ≡ [] → IsErr result →
            Contains self.old.fails (one_more self.old.calls) }
        ensures after_ok { OnOk result (self.new ≡ record self.old {
          files = insert self.old.files name.now (bytes_of self.old.files name.now ++ bytes.now);
          calls = one_more self.old.calls;
        }) }
        ensures after_err { OnErr result (self.new ≡ record self.old {
          calls = one_more self.old.calls;
          writing_faults = one_more self.old.writing_faults;
        }) }
    {
        self.append(name, bytes)
    }

    /// Nothing is gathered, so only a call that is listed fails.
    fn flush(&mut self) -> Result<(), Failed>
        ensures listed { IsErr result ↔ Contains self.old.fails (one_more self.old.calls) }
        ensures after_ok { OnOk result (self.new ≡ record self.old { calls = one_more self.old.calls }) }
        ensures after_err { OnErr result (self.new ≡ record self.old {
          calls = one_more self.old.calls;
          writing_faults = one_more self.old.writing_faults;
        }) }
    {
        if self.planned.is_next_to_fail() {
            self.writing_faults = self.writing_faults.saturating_add(1);
            return Err(Failed);
        }
        Ok(())
    }
}
