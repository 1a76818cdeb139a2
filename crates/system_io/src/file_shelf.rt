ghost use Rattle.std.specs.Prelude.{◌≡◌, ◌≤◌, ◌⊎◌, ◌↔◌, ℕ, [], None, Some, length, take, IfOk, IfErr, IsErr, IsNone, IsTrue, false};
ghost use Rattle.std.specs.Io.KnownBytes.{append_known};
ghost use Rattle.io_traits.specs.Told.{Counts, NamesFault, SameFiles, Tells, OtherFiles};
ghost use Rattle.system_io.specs.Disks.{Extends};
ghost use Rattle.system_io.specs.Files.{IsOpen, SameCounts, SameFile, fresh_shelf, held_in};

use crate::file_system::{FileSystem, write_front};
use crate::gathered::Gathered;
use crate::named_file::NamedFile;
use crate::reader::FileReader;
use crate::unread::Unread;
use cloak_base::{Failed, NoMemory};
use io_traits::Shelf;
use std::alloc::Global;
use std::marker::Model;

/// All memory of a shelf.
#[derive(Drop)]
struct Rooms<F: Drop> {
    writing: NamedFile<F>,
    gathered: Gathered,
    reader: FileReader<F>,
    unread: Unread,
}

impl<F: Drop> Rooms<F> {
    fn take(alloc: Global) -> Result<Rooms<F>, NoMemory>
        ensures file { IfOk result (λ rooms. IsNone rooms.writing.file) }
        ensures name { IfOk result (λ rooms. rooms.writing.name ≡ []) }
        ensures gathered { IfOk result (λ rooms. rooms.gathered ≡ []) }
        ensures reader { IfOk result (λ rooms. IsNone rooms.reader.source) }
        ensures unread { IfOk result (λ rooms. rooms.unread ≡ None) }
    {
        let writing = NamedFile::none(alloc)?;
        let gathered = Gathered::open(alloc)?;
        let reader = FileReader::none(alloc)?;
        let unread = Unread::none(alloc)?;
        Ok(Rooms {
            writing,
            gathered,
            reader,
            unread,
        })
    }
}

/// The files of a disk, whose names are paths of at most 4095 bytes. All memory is taken at `open`.
///
/// Appended pieces are gathered for the one file that is being written, and written out when there is no room for
/// the next, before another file is written, before any is read, and at `flush`. What could not be written out
/// stays gathered, so the file's bytes and the gathered bytes are always what was appended. A call that reads and meets
/// such a fault fails by a fault of writing.
///
/// The one file that is being read stays open, and is read up to 64 KiB ahead. What was read ahead is forgotten
/// when another file is read, and at each `begin` and `append`.
///
/// The name of the file of which reading failed last is kept if it has at most 4096 bytes.
#[derive(Drop)]
pub struct FileShelf<D: FileSystem + Drop> {
    disk: D,
    writing: NamedFile<D::File>,
    gathered: Gathered,
    reader: FileReader<D::File>,
    reading_faults: u64,
    unread: Unread,
    writing_faults: u64,
    /// A file that is left, or flushed, is waited for until it is on its medium.
    is_lasting: bool,
}

impl<D: FileSystem + Drop> Model for FileShelf<D> {
    ghost use Rattle.std.specs.Prelude.{is_some};
    ghost use Rattle.system_io.specs.Files.{ShelfState, IsSound};

    ghost Value = { ShelfState D };

    ghost view = { λ s. record {
      reading = s.reading_faults;
      unread = s.unread;
      writing = s.writing_faults;
      disk = s.disk;
      is_open = is_some s.writing.file;
      name = s.writing.name;
      gathered = s.gathered;
      is_reading = is_some s.reader.source;
    } };

    ghost invariant = { λ s. IsSound (D.told s.disk) D.is_of D.is_at s.writing.file (s.writing.name)
        s.gathered s.reader };
}

impl<D: FileSystem + Drop> FileShelf<D> {
    /// A shelf with no fault yet.
    pub fn open(alloc: Global, disk: D) -> Result<FileShelf<D>, NoMemory>
        ensures { IfOk result (λ shelf. shelf ≡ fresh_shelf disk) }
    {
        FileShelf::open_or_return(alloc, disk).map_err(|_| NoMemory)
    }

    /// The same. If there is no memory, the disk comes back.
    pub fn open_or_return(alloc: Global, disk: D) -> Result<FileShelf<D>, D>
        ensures ok { IfOk result (λ shelf. shelf ≡ fresh_shelf disk) }
        ensures err { IfErr result (λ back. back ≡ disk) }
    {
        let Ok(rooms) = Rooms::take(alloc) else {
            return Err(disk);
        };
        let Rooms {
            writing,
            gathered,
            reader,
            unread,
        } = rooms;
        Ok(FileShelf {
            disk,
            writing,
            gathered,
            reader,
            reading_faults: 0,
            unread,
            writing_faults: 0,
            is_lasting: false,
        })
    }

    /// From now on a file is left, and `flush` ends, only once what was written is on its medium.
    pub fn wait_for_medium(&mut self)
        ensures { self.new ≡ self.old }
    {
        self.is_lasting = true;
    }

    /// Gives the disk back. What is still gathered is lost.
    pub fn close(self) -> D
        ensures { result ≡ self.disk }
    {
        let FileShelf { disk, .. } = self;
        disk
    }

    /// Says whether the file that is being written is on its medium, if that is asked for.
    fn is_kept(&self) -> bool {
        match &self.writing.file {
            Some(file) if self.is_lasting => self.disk.sync(file, self.writing.name()).is_ok(),
            _ => true,
        }
    }

    /// Says whether all that is gathered was written out.
    fn write_out(&mut self) -> bool
        ensures all { IsTrue result ↔ (self.new.gathered ≡ []) }
        ensures files { SameFiles (held_in D.told self.old) (held_in D.told self.new) }
        ensures idle { self.old.gathered ≡ [] → self.new.gathered ≡ [] }
        ensures file { SameFile self.old self.new }
        ensures reading { self.new.is_reading ≡ self.old.is_reading }
        ensures counts { SameCounts self.old self.new }
    {
        if let Some(file) = &mut self.writing.file {
            let n = write_front(&mut self.disk, file, self.gathered.rest());
            self.gathered.forget(n);
        }
        self.gathered.is_empty()
    }

    /// Writes out what is gathered, and says whether all was, and is on its medium, if that is asked for.
    fn finish(&mut self) -> bool
        ensures all { IsTrue result → self.new.gathered ≡ [] }
        ensures files { SameFiles (held_in D.told self.old) (held_in D.told self.new) }
        ensures file { SameFile self.old self.new }
        ensures reading { self.new.is_reading ≡ self.old.is_reading }
        ensures counts { SameCounts self.old self.new }
    {
        self.write_out() && self.is_kept()
    }

    /// Finishes another file than that of this name, and says whether that was done.
    fn finish_other(&mut self, name: &str) -> bool
        ensures other { IsTrue result → self.new.name ≡ name.now ⊎ (self.new.gathered ≡ []) }
        ensures files { SameFiles (held_in D.told self.old) (held_in D.told self.new) }
        ensures reading { self.new.is_reading ≡ self.old.is_reading }
        ensures counts { SameCounts self.old self.new }
    {
        if self.writing.is_open(name) {
            return true;
        }
        self.finish()
    }

    /// Takes a piece for the file that is being written, and says whether it was taken whole.
    #[inline(always)]
    fn write(&mut self, bytes: &[u8]) -> bool
        requires open { IsTrue self.old.is_open }
        requires idle { self.old.is_reading ≡ false }
        ensures whole { IsTrue result →
            Extends (held_in D.told self.old) (held_in D.told self.new) self.old.name bytes.now }
        ensures front { (n : ℕ) × (n ≤ length bytes.now) ×
            Extends (held_in D.told self.old) (held_in D.told self.new) self.old.name (take n bytes.now) }
        ensures file { SameFile self.old self.new }
        ensures counts { SameCounts self.old self.new }
    {
        if self.gathered.gather(bytes) {
            return true;
        }
        let n = self.write_after(bytes);
        n == bytes.len()
    }

    /// Takes a front of a piece once what was gathered is written out, and returns how many bytes. If these are not all, a
    /// write failed.
    #[cold]
    #[inline(never)]
    fn write_after(&mut self, bytes: &[u8]) -> usize
        requires open { IsTrue self.old.is_open }
        requires idle { self.old.is_reading ≡ false }
        ensures count { result ≤ length bytes.now }
        ensures taken { Extends (held_in D.told self.old) (held_in D.told self.new) self.old.name
            (take result bytes.now) }
        ensures file { SameFile self.old self.new }
        ensures counts { SameCounts self.old self.new }
    {
        if !self.write_out() {
            return 0;
        }
        if self.gathered.gather(bytes) {
            return bytes.len();
        }
        match &mut self.writing.file {
            Some(file) => write_front(&mut self.disk, file, bytes),
            None => 0,
        }
    }

    /// Says whether the file of this name is now the one that is being written.
    #[inline(always)]
    fn turn_to(&mut self, name: &str) -> bool
        ensures open { IsTrue result → IsOpen name.now self.new }
        ensures files { SameFiles (held_in D.told self.old) (held_in D.told self.new) }
        ensures reading { self.new.is_reading ≡ self.old.is_reading }
        ensures counts { SameCounts self.old self.new }
    {
        if self.writing.is_open(name) {
            return true;
        }
        self.turn_away(name)
    }

    /// Turns from what is being written to the file of this name, and says whether it is now the one that is being
    /// written.
    #[cold]
    #[inline(never)]
    fn turn_away(&mut self, name: &str) -> bool
        ensures open { IsTrue result → IsOpen name.now self.new }
        ensures files { SameFiles (held_in D.told self.old) (held_in D.told self.new) }
        ensures reading { self.new.is_reading ≡ self.old.is_reading }
        ensures counts { SameCounts self.old self.new }
    {
        if !self.finish() {
            return false;
        }
        match self.disk.open_end(name) {
            Ok(file) => self.writing.keep(name, file),
            Err(_) => false,
        }
    }

    /// Empties a file, and says whether it is now the one that is being written. What is gathered is for the same file, or
    /// there is nothing.
    fn start(&mut self, name: &str) -> bool
        requires idle { self.old.is_reading ≡ false }
        requires gathered { self.old.name ≡ name.now ⊎ (self.old.gathered ≡ []) }
        ensures open { IsTrue result → IsOpen name.now self.new }
        ensures emptied { IsTrue result → Tells (held_in D.told self.new name.now) [] }
        ensures failed { (held_in D.told self.new name.now ≡ held_in D.told self.old name.now)
            ⊎ Tells (held_in D.told self.new name.now) [] }
        ensures others { OtherFiles name.now (held_in D.told self.old) (held_in D.told self.new) }
        ensures counts { SameCounts self.old self.new }
    {
        let Ok(file) = self.disk.open_empty(name) else {
            return false;
        };
        self.gathered.clear();
        self.writing.keep(name, file)
    }

    /// Forgets what was read ahead.
    #[inline(always)]
    fn stop_reading(&mut self)
        ensures idle { self.new.is_reading ≡ false }
        ensures kept { self.new ≡ record self.old { is_reading = false } }
    {
        self.reader.close();
    }

    fn fail_writing<T>(&mut self) -> Result<T, Failed>
        ensures err { IsErr result }
        ensures writing { Counts self.old.writing self.new.writing result }
        ensures kept { self.new ≡ record self.old { writing = self.new.writing } }
    {
        self.writing_faults = self.writing_faults.saturating_add(1);
        Err(Failed)
    }

    fn fail_reading<T>(&mut self, name: &str) -> Result<T, Failed>
        ensures err { IsErr result }
        ensures reading { Counts self.old.reading self.new.reading result }
        ensures unread { NamesFault self.old.unread self.new.unread name.now result }
        ensures named { length name.now ≤ 4096 → self.new.unread ≡ Some name.now }
        ensures kept { self.new ≡ record self.old { reading = self.new.reading; unread = self.new.unread } }
    {
        self.reading_faults = self.reading_faults.saturating_add(1);
        self.unread.keep(name);
        Err(Failed)
    }
}

impl<D: FileSystem + Drop> Shelf for FileShelf<D> {
    ghost held = { held_in D.told };

    ghost reading_faults = { λ s. s.reading };

    ghost unread = { λ s. s.unread };

    ghost writing_faults = { λ s. s.writing };

    ghost is_settled = { λ s. s.gathered ≡ [] };

    ghost is_last = { λ s name. IsOpen name s };

    fn size(&mut self, name: &str) -> Result<u64, Failed> {
        if !self.write_out() {
            return self.fail_writing();
        }
        match self.disk.size(name) {
            Ok(n) => Ok(n),
            Err(_) => self.fail_reading(name),
        }
    }

    fn read_at(&mut self, name: &str, at: u64, into: &mut [u8]) -> Result<usize, Failed> {
        if !self.write_out() {
            return self.fail_writing();
        }
        if self.disk.is_past_all(at) {
            return Ok(0);
        }
        match self.reader.read(&self.disk, name, at, into) {
            Ok(n) => Ok(n),
            Err(_) => self.fail_reading(name),
        }
    }

    fn begin(&mut self, name: &str) -> Result<(), Failed> {
        self.stop_reading();
        // If the same file is emptied, what is gathered for it is not written any more.
        if !self.finish_other(name) {
            return self.fail_writing();
        }
        if self.start(name) {
            return Ok(());
        }
        self.fail_writing()
    }

    #[inline(always)]
    fn append(&mut self, name: &str, bytes: &[u8]) -> Result<(), Failed> {
        self.stop_reading();
        if !self.turn_to(name) {
            return self.fail_writing();
        }
        if self.write(bytes) {
            return Ok(());
        }
        self.fail_writing()
    }

    #[inline(always)]
    fn append_last(&mut self, name: &str, bytes: &[u8]) -> Result<(), Failed> {
        let _ = name;
        self.stop_reading();
        if self.write(bytes) {
            return Ok(());
        }
        self.fail_writing()
    }

    fn flush(&mut self) -> Result<(), Failed> {
        if self.finish() {
            Ok(())
        } else {
            self.fail_writing()
        }
    }
}
