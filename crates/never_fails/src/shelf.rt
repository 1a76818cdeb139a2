ghost use Rattle.std.specs.Prelude.{◌≡◌, ◌≢◌, ◌++◌, List, ℕ, [], None, Ok, Some, length, take, drop, min, unwrap_or};
ghost use Rattle.std.specs.Prelude.{IsOk, OnOk, OnErr};
ghost use Rattle.io_traits.specs.Told.{OtherFiles, SameFiles};
ghost use Rattle.never_fails.specs.Handed.{handed_in};
ghost use Rattle.never_fails.specs.Sums.{Sums, counted};

use crate::sum::Sum;
use cloak_base::{Failed, NoMemory};
use io_traits::Shelf;
use std::alloc::Global;
use std::collections::BTreeMap;

/// A shelf on which no call fails. Files are handed in; what is written is counted and hashed, and not kept: a file that was
/// begun or appended to reads as an empty one.
#[derive(Drop)]
pub struct NeverShelf {
    alloc: Global,
    files: BTreeMap<String, Vec<u8>>,
    written: Sum,
}

impl NeverShelf {
    ghost use Rattle.sha2.specs.Sha256.{sha256};

    /// A shelf without files.
    pub fn open(alloc: Global) -> NeverShelf
        ensures none { (name : List ℕ) → handed_in result.files name ≡ None }
        ensures sum { Sums result.written [] }
    {
        NeverShelf {
            alloc,
            files: BTreeMap::new(alloc),
            written: Sum::new(),
        }
    }

    /// Hands a file in, instead of any of this name.
    pub fn add(&mut self, name: &str, bytes: &[u8]) -> Result<(), NoMemory>
        ensures ok { OnOk result (handed_in self.new.files name.now ≡ Some bytes.now) }
        ensures others { OnOk result (OtherFiles name.now (handed_in self.old.files) (handed_in self.new.files)) }
        ensures err { OnErr result (SameFiles (handed_in self.old.files) (handed_in self.new.files)) }
        ensures sum { self.new.written ≡ self.old.written }
    {
        let key = String::from_str(self.alloc, name)?;
        let value = Vec::from_slice(self.alloc, bytes)?;
        self.files.insert(key, value)?;
        Ok(())
    }

    /// How many bytes were appended, up to 2^64 - 1, and the SHA-256 of them in order.
    pub fn sum(self) -> (u64, [u8; 32])
        ensures { (bytes : List ℕ) → Sums self.written bytes → result ≡ (counted bytes, sha256 bytes) }
    {
        self.written.finish()
    }

    /// The bytes of a name.
    fn bytes(&self, name: &str) -> &[u8]
        ensures { result.now ≡ unwrap_or (handed_in self.now.files name.now) [] }
    {
        match self.files.get(name) {
            Some(bytes) => bytes.as_slice(),
            None => &[],
        }
    }

    /// Forgets the bytes of a name.
    fn forget(&mut self, name: &str)
        ensures gone { handed_in self.new.files name.now ≡ None }
        ensures others { OtherFiles name.now (handed_in self.old.files) (handed_in self.new.files) }
        ensures sum { self.new.written ≡ self.old.written }
    {
        let _ = self.files.remove(name);
    }
}

impl Shelf for NeverShelf {
    ghost held = { λ s. handed_in s.files };

    ghost reading_faults = { λ _. 0 };

    ghost unread = { λ _. None };

    ghost writing_faults = { λ _. 0 };

    ghost is_settled = { λ _. Unit {0} };

    ghost is_last = { λ _ _. Unit {0} };

    fn size(&mut self, name: &str) -> Result<u64, Failed>
        ensures ok { result ≡ Ok (length (unwrap_or (handed_in self.old.files name.now) [])) }
        ensures same { self.new ≡ self.old }
    {
        Ok(self.bytes(name).len() as u64)
    }

    /// Copies all bytes from `at` on that `into` has room for.
    fn read_at(&mut self, name: &str, at: u64, into: &mut [u8]) -> Result<usize, Failed>
        ensures ok { let rest = drop at (unwrap_or (handed_in self.old.files name.now) []) in
            result ≡ Ok (min (length into.old) (length rest)) }
        ensures copied { let rest = drop at (unwrap_or (handed_in self.old.files name.now) []) in
            let n = min (length into.old) (length rest) in into.new ≡ take n rest ++ drop n into.old }
        ensures same { self.new ≡ self.old }
    {
        Ok(copy_from(self.bytes(name), at, into))
    }

    fn begin(&mut self, name: &str) -> Result<(), Failed>
        ensures ok { IsOk result }
        ensures gone { handed_in self.new.files name.now ≡ None }
        ensures others { OtherFiles name.now (handed_in self.old.files) (handed_in self.new.files) }
        ensures sum { self.new.written ≡ self.old.written }
    {
        self.forget(name);
        Ok(())
    }

    fn append(&mut self, name: &str, bytes: &[u8]) -> Result<(), Failed>
        ensures ok { IsOk result }
        ensures gone { handed_in self.new.files name.now ≡ None }
        ensures others { OtherFiles name.now (handed_in self.old.files) (handed_in self.new.files) }
        ensures sum { (before : List ℕ) → Sums self.old.written before → Sums self.new.written (before ++ bytes.now) }
    {
        self.forget(name);
        self.written.put(bytes);
        Ok(())
    }

    fn append_last(&mut self, name: &str, bytes: &[u8]) -> Result<(), Failed>
        ensures ok { IsOk result }
        ensures gone { handed_in self.new.files name.now ≡ None }
        ensures others { OtherFiles name.now (handed_in self.old.files) (handed_in self.new.files) }
        ensures sum { (before : List ℕ) → Sums self.old.written before → Sums self.new.written (before ++ bytes.now) }
    {
        self.append(name, bytes)
    }

    fn flush(&mut self) -> Result<(), Failed>
        ensures ok { IsOk result }
        ensures same { self.new ≡ self.old }
    {
        Ok(())
    }
}

/// Copies all bytes from `at` on that `into` has room for, and says how many.
fn copy_from(bytes: &[u8], at: u64, into: &mut [u8]) -> usize
    ensures count { result ≡ min (length into.old) (length (drop at bytes.now)) }
    ensures copied { into.new ≡ take result (drop at bytes.now) ++ drop result into.old }
{
    let from = (at as usize).min(bytes.len());
    let rest = &bytes[from..];
    let n = rest.len().min(into.len());
    into[..n].copy_from_slice(&rest[..n]);
    n
}
