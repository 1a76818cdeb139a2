//! The files of the system.
ghost use Rattle.std.specs.Prelude.{◌≤◌, ◌^◌, ◌↔◌, IsTrue, None};

use crate::file_system::FileSystem;
use cloak_base::Failed;
use std::fs;
use std::fs::{File, OpenFile, OpenOptions};
use std::io::{ErrorKind, Read, Seek, SeekFrom, Write};
use std::rt::Files;

/// The files of the system as a disk, whose names are paths. It tells no bytes, so nothing is proved of these methods
/// but their counts: that each does what `FileSystem` says of it is trusted, and so is that nothing else changes a file
/// meanwhile.
#[derive(Drop)]
pub struct SystemFiles<R: Files + Drop> {
    files: R,
}

impl<R: Files + Drop> SystemFiles<R> {
    pub fn new(files: R) -> SystemFiles<R> {
        SystemFiles { files }
    }
}

impl<R: Files + Drop> FileSystem for SystemFiles<R> {
    type File = R::File;

    ghost told = { λ _ _. None };

    ghost is_of = { λ _ _. Unit {0} };

    ghost is_at = { λ _ _. Unit {0} };

    /// A folder is no file, and has no size.
    fn size(&self, name: &str) -> Result<u64, Failed> {
        match fs::metadata(&self.files, name) {
            Ok(metadata) if !metadata.is_dir() => Ok(metadata.len()),
            Err(error) if error.kind() == ErrorKind::NotFound => Ok(0),
            _ => Err(Failed),
        }
    }

    fn is_past_all(&self, at: u64) -> bool
        ensures exactly { IsTrue result ↔ (2 ^ 63 ≤ at) }
    {
        at > i64::MAX as u64
    }

    fn open(&self, name: &str) -> Result<Option<R::File>, Failed> {
        match File::open(&self.files, name) {
            Ok(file) => Ok(Some(file)),
            Err(error) if error.kind() == ErrorKind::NotFound => Ok(None),
            Err(_) => Err(Failed),
        }
    }

    fn seek(&self, file: &mut R::File, at: u64) -> Result<(), Failed> {
        file.seek(SeekFrom::Start(at)).map_err(|_| Failed)?;
        Ok(())
    }

    fn read(&self, file: &mut R::File, into: &mut [u8]) -> Result<usize, Failed> {
        file.read(into).map_err(|_| Failed)
    }

    fn open_end(&mut self, name: &str) -> Result<R::File, Failed> {
        let mut how = OpenOptions::new();
        how.append(true).create(true);
        how.open(&self.files, name).map_err(|_| Failed)
    }

    fn open_empty(&mut self, name: &str) -> Result<R::File, Failed> {
        let mut how = OpenOptions::new();
        how.write(true).create(true).truncate(true);
        how.open(&self.files, name).map_err(|_| Failed)
    }

    fn write(&mut self, file: &mut R::File, piece: &[u8]) -> Result<usize, Failed> {
        file.write(piece).map_err(|_| Failed)
    }

    /// The folder is asked too, since a file that is new is on its medium only if its name is. A folder that may not be
    /// read cannot be asked.
    fn sync(&self, file: &R::File, name: &str) -> Result<(), Failed> {
        wait_for_medium(file)?;
        match File::open(&self.files, folder_of(name)) {
            Ok(folder) => wait_for_medium(&folder),
            Err(_) => Ok(()),
        }
    }
}

/// The folder in which a file of this name is.
fn folder_of(name: &str) -> &str {
    match name.rsplit_once('/') {
        Some(("", _)) => "/",
        Some((folder, _)) => folder,
        None => ".",
    }
}

/// Waits until what was written to a file is on its medium. The system has kinds of files that it does not ask for that:
/// a pipe, and what has no medium at all.
fn wait_for_medium<F: OpenFile>(file: &F) -> Result<(), Failed> {
    match file.sync_all() {
        Ok(()) => Ok(()),
        Err(error) => match error.kind() {
            ErrorKind::InvalidInput | ErrorKind::Unsupported => Ok(()),
            _ => Err(Failed),
        },
    }
}
