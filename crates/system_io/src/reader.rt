//! Files are read ahead of what is asked for.
ghost use Rattle.std.specs.Prelude.{◌≡◌, ◌≤◌, ◌<◌, ◌^◌, ◌+◌, ◌-◌, ◌++◌, ◌↔◌, ℕ, List, [], take, drop, min, IsTrue, IsSome, IsNone};
ghost use Rattle.std.specs.Prelude.{length, IfOk, IfSome, OnOk, false, Some};
ghost use Rattle.io_traits.specs.Told.{IsCopied, Tells};
ghost use Rattle.system_io.specs.Files.{IsReading, IsFilled};

use crate::file_system::FileSystem;
use crate::named_file::NamedFile;
use cloak_base::{Failed, NoMemory};
use io_traits::copy_from;
use std::alloc::Global;
use std::marker::Model;

/// How many bytes are read ahead at the most.
const WINDOW: usize = 65536;

/// How many bytes stay in the window, before those that are read next. A pipe cannot be read twice, so a reader that
/// looks ahead less than this reads it like a file.
const KEPT: usize = 8192;

/// Reads one file at a time, which stays open. Small pieces that follow one another come from one window.
#[derive(Drop)]
pub struct FileReader<F: Drop> {
    source: NamedFile<F>,
    /// Where the next read of the file begins.
    position: u64,
    window: Vec<u8>,
    /// Which bytes of the file the window has: the first `filled` of it are those from this offset on.
    start: u64,
    filled: usize,
}

impl<F: Drop> Model for FileReader<F> {
    ghost use Rattle.std.specs.Prelude.{◌≤◌, ◌≡◌, take, vec_len};
    ghost use Rattle.system_io.specs.Files.{ReaderState};

    ghost Value = { ReaderState F };

    ghost view = { λ s. record {
      source = s.source.file;
      name = s.source.name;
      position = s.position;
      window = take s.filled s.window.items;
      start = s.start;
    } };

    ghost invariant = { λ s. (s.filled ≤ vec_len s.window) × (vec_len s.window ≡ 65536) };
}

impl<F: Drop> FileReader<F> {
    /// No file is open yet. All memory that is needed is taken here.
    pub fn none(alloc: Global) -> Result<FileReader<F>, NoMemory>
        ensures { IfOk result (λ reader. IsNone reader.source) }
    {
        let source = NamedFile::none(alloc)?;
        let window = vec![in alloc; 0; WINDOW]?;
        Ok(FileReader {
            source,
            position: 0,
            window,
            start: 0,
            filled: 0,
        })
    }

    /// Says whether the file of this name is open.
    fn is_open(&self, name: &str) -> bool
        ensures { IsTrue result ↔ (IsSome self.now.source × (self.now.name ≡ name.now)) }
    {
        self.source.is_open(name)
    }

    /// Reads this file from now on, which was just opened. Says whether there was room for its name.
    fn keep(&mut self, name: &str, file: F) -> bool
        ensures file { IsTrue result → self.new.source ≡ Some file }
        ensures name { IsTrue result → self.new.name ≡ name.now }
        ensures no_room { result ≡ false → IsNone self.new.source }
        ensures room { length name.now ≤ 4096 → IsTrue result }
        ensures fresh { (self.new.position ≡ 0) × (self.new.window ≡ []) }
    {
        self.position = 0;
        self.filled = 0;
        self.source.keep(name, file)
    }

    /// Closes the file and forgets what was read ahead.
    #[inline(always)]
    pub fn close(&mut self)
        ensures { IsNone self.new.source }
    {
        if self.source.file.is_some() {
            self.forget();
        }
    }

    /// Closes the file that is open and forgets what was read ahead.
    #[cold]
    #[inline(never)]
    fn forget(&mut self)
        ensures { IsNone self.new.source }
    {
        self.filled = 0;
        self.source.close();
    }

    /// Copies bytes of the file of a name from an offset on, and returns how many: none only at the end, or for an empty
    /// piece. A file that is not there is empty.
    pub fn read<D: FileSystem<File = F>>(
        &mut self,
        disk: &D,
        name: &str,
        at: u64,
        into: &mut [u8],
    ) -> Result<usize, Failed>
        requires near { at < 2 ^ 63 }
        requires reads { IsReading (D.told disk.now) D.is_of D.is_at self.old }
        ensures count { IfOk result (λ n. n ≤ length into.old) }
        ensures copied { IfOk result (λ n. IfSome (D.told disk.now name.now) (λ all. IsCopied all at n into.old into.new)) }
        ensures reads { IsReading (D.told disk.now) D.is_of D.is_at self.new }
    {
        let is_there = self.turn_to(disk, name)?;
        if !is_there {
            return Ok(0);
        }
        self.read_at(disk, at, into)
    }

    /// Opens the file of a name, if it is not the one that is open, and says whether it is there.
    fn turn_to<D: FileSystem<File = F>>(&mut self, disk: &D, name: &str) -> Result<bool, Failed>
        requires { IsReading (D.told disk.now) D.is_of D.is_at self.old }
        ensures open { IfOk result (λ is_there. IsTrue is_there → IsSome self.new.source) }
        ensures name { IfOk result (λ is_there. IsTrue is_there → self.new.name ≡ name.now) }
        ensures absent { IfOk result (λ is_there. is_there ≡ false → Tells (D.told disk.now name.now) []) }
        ensures reads { IsReading (D.told disk.now) D.is_of D.is_at self.new }
    {
        if self.is_open(name) {
            return Ok(true);
        }
        let Some(file) = disk.open(name)? else {
            return Ok(false);
        };
        if self.keep(name, file) {
            return Ok(true);
        }
        Err(Failed)
    }

    /// Copies bytes of the open file from an offset on, and returns how many: none only at the end, or for an empty
    /// piece. After a failure no file is open.
    fn read_at<D: FileSystem<File = F>>(
        &mut self,
        disk: &D,
        at: u64,
        into: &mut [u8],
    ) -> Result<usize, Failed>
        requires near { at < 2 ^ 63 }
        requires open { IsSome self.old.source }
        requires reads { IsReading (D.told disk.now) D.is_of D.is_at self.old }
        ensures count { IfOk result (λ n. n ≤ length into.old) }
        ensures copied { IfOk result (λ n.
            IfSome (D.told disk.now self.old.name) (λ all. IsCopied all at n into.old into.new)) }
        ensures reads { IsReading (D.told disk.now) D.is_of D.is_at self.new }
    {
        let ahead = self.copy(at, into);
        if ahead > 0 {
            return Ok(ahead);
        }
        let read = self.read_on(disk, at, into);
        if read.is_err() {
            self.close();
        }
        read
    }

    /// Copies what the window has from an offset on.
    fn copy(&self, at: u64, into: &mut [u8]) -> usize
        ensures before { 0 < result → self.now.start ≤ at }
        ensures count { self.now.start ≤ at →
            result ≡ min (length into.old) (length (drop (at - self.now.start) self.now.window)) }
        ensures copied { into.new ≡ take result (drop (at - self.now.start) self.now.window) ++ drop result into.old }
    {
        match at.checked_sub(self.start) {
            Some(after) => copy_from(&self.window[..self.filled], after, into),
            None => 0,
        }
    }

    /// Reads from an offset on: a long piece straight, and a short one by way of the window.
    fn read_on<D: FileSystem<File = F>>(
        &mut self,
        disk: &D,
        at: u64,
        into: &mut [u8],
    ) -> Result<usize, Failed>
        requires near { at < 2 ^ 63 }
        requires open { IsSome self.old.source }
        requires reads { IsReading (D.told disk.now) D.is_of D.is_at self.old }
        ensures count { IfOk result (λ n. n ≤ length into.old) }
        ensures copied { IfOk result (λ n.
            IfSome (D.told disk.now self.old.name) (λ all. IsCopied all at n into.old into.new)) }
        ensures reads { OnOk result (IsReading (D.told disk.now) D.is_of D.is_at self.new) }
    {
        self.go_to(disk, at)?;
        if into.len() >= WINDOW {
            return self.read_straight(disk, into);
        }
        self.read_ahead(disk)?;
        Ok(self.copy(at, into))
    }

    /// Moves the open file to an offset.
    fn go_to<D: FileSystem<File = F>>(&mut self, disk: &D, at: u64) -> Result<(), Failed>
        requires reads { IsReading (D.told disk.now) D.is_of D.is_at self.old }
        ensures moved { OnOk result (self.new.position ≡ at) }
        ensures open { OnOk result (IsSome self.new.source) }
        ensures same_name { OnOk result (self.new.name ≡ self.old.name) }
        ensures reads { OnOk result (IsReading (D.told disk.now) D.is_of D.is_at self.new) }
    {
        let Some(file) = &mut self.source.file else {
            return Err(Failed);
        };
        if at != self.position {
            disk.seek(file, at)?;
            self.position = at;
        }
        Ok(())
    }

    /// Reads from the place of the open file, and not by way of the window.
    fn read_straight<D: FileSystem<File = F>>(
        &mut self,
        disk: &D,
        into: &mut [u8],
    ) -> Result<usize, Failed>
        requires near { self.old.position < 2 ^ 63 }
        requires reads { IsReading (D.told disk.now) D.is_of D.is_at self.old }
        ensures count { IfOk result (λ n. n ≤ length into.old) }
        ensures copied { IfOk result (λ n.
            IfSome (D.told disk.now self.old.name) (λ all. IsCopied all self.old.position n into.old into.new)) }
        ensures reads { OnOk result (IsReading (D.told disk.now) D.is_of D.is_at self.new) }
    {
        let Some(file) = &mut self.source.file else {
            return Err(Failed);
        };
        let n = disk.read(file, into)?;
        self.position += n as u64;
        Ok(n)
    }

    /// Fills the window from the place of the open file on. It has no byte from there on only if the file ends there.
    fn read_ahead<D: FileSystem<File = F>>(&mut self, disk: &D) -> Result<(), Failed>
        requires near { self.old.position < 2 ^ 63 }
        requires reads { IsReading (D.told disk.now) D.is_of D.is_at self.old }
        ensures before { OnOk result (self.new.start ≤ self.old.position) }
        ensures end { OnOk result (IfSome (D.told disk.now self.old.name) (λ all.
            drop (self.old.position - self.new.start) self.new.window ≡ [] → length all ≤ self.old.position)) }
        ensures same_name { OnOk result (self.new.name ≡ self.old.name) }
        ensures open { OnOk result (IsSome self.new.source) }
        ensures reads { OnOk result (IsReading (D.told disk.now) D.is_of D.is_at self.new) }
    {
        let Some(file) = &mut self.source.file else {
            return Err(Failed);
        };
        let kept = keep_front(
            self.window.as_mut_slice(),
            self.filled,
            self.start,
            self.position,
        );
        let n = fill(disk, file, self.window.as_mut_slice(), kept)?;
        self.start = self.position - kept as u64;
        self.filled = kept + n;
        self.position += n as u64;
        Ok(())
    }
}

/// Moves the last bytes of a window to its front if those that are read next follow them, and returns how many.
fn keep_front(window: &mut [u8], filled: usize, start: u64, position: u64) -> usize
    requires { filled ≤ length window.old }
    ensures fits { result ≤ filled }
    ensures few { result ≤ 8192 }
    ensures follows { 0 < result → position ≡ start + filled }
    ensures moved { 0 < result → take result window.new ≡ drop (filled - result) (take filled window.old) }
    ensures window { length window.new ≡ length window.old }
{
    match position.checked_sub(start) {
        Some(after) if after == filled as u64 => keep_last(window, filled),
        _ => 0,
    }
}

/// Moves the last of the first `filled` bytes to the front, and returns how many.
fn keep_last(window: &mut [u8], filled: usize) -> usize
    requires { filled ≤ length window.old }
    ensures fits { result ≤ filled }
    ensures few { result ≤ 8192 }
    ensures moved { take result window.new ≡ drop (filled - result) (take filled window.old) }
    ensures window { length window.new ≡ length window.old }
{
    let kept = filled.min(KEPT);
    window.copy_within(filled - kept..filled, 0);
    kept
}

/// Reads bytes of an open file into a window after its first `kept` bytes, and returns how many.
fn fill<D: FileSystem>(
    disk: &D,
    file: &mut D::File,
    window: &mut [u8],
    kept: usize,
) -> Result<usize, Failed>
    requires { kept < length window.old }
    ensures count { IfOk result (λ n. kept + n ≤ length window.old) }
    ensures window { length window.new ≡ length window.old }
    ensures name { (name : List ℕ) → D.is_of file.old name → D.is_of file.new name }
    ensures moved { IfOk result (λ n. (at : ℕ) → D.is_at file.old at → D.is_at file.new (at + n)) }
    ensures filled { IfOk result (λ n. (name : List ℕ) → D.is_of file.old name → (at : ℕ) → D.is_at file.old at →
        IfSome (D.told disk.now name) (λ all. IsFilled all at kept n window.old window.new)) }
{
    disk.read(file, &mut window[kept..])
}
