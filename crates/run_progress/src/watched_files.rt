//! A disk of which it is told what is written.

use cloak_base::Failed;
use system_io::FileSystem;

/// What is told of the files that are written.
pub trait Watch {
    /// A file was emptied, or made, to be written.
    fn begin(&mut self);

    /// These bytes were written at the end of a file.
    fn wrote(&mut self, piece: &[u8]);
}

/// A disk that does what another one does, and tells what was written.
#[derive(Drop)]
pub struct WatchedFiles<D: FileSystem + Drop, W: Watch + Drop> {
    disk: D,
    watch: W,
}

impl<D: FileSystem + Drop, W: Watch + Drop> WatchedFiles<D, W> {
    pub fn new(disk: D, watch: W) -> WatchedFiles<D, W> {
        WatchedFiles { disk, watch }
    }
}

impl<D: FileSystem + Drop, W: Watch + Drop> FileSystem for WatchedFiles<D, W> {
    type File = D::File;

    ghost told = { λ watched name. D.told watched.disk name };

    ghost is_of = { λ file name. D.is_of file name };

    ghost is_at = { λ file at. D.is_at file at };

    fn size(&self, name: &str) -> Result<u64, Failed> {
        self.disk.size(name)
    }

    fn is_past_all(&self, at: u64) -> bool {
        self.disk.is_past_all(at)
    }

    fn open(&self, name: &str) -> Result<Option<D::File>, Failed> {
        self.disk.open(name)
    }

    fn seek(&self, file: &mut D::File, at: u64) -> Result<(), Failed> {
        self.disk.seek(file, at)
    }

    fn read(&self, file: &mut D::File, into: &mut [u8]) -> Result<usize, Failed> {
        self.disk.read(file, into)
    }

    fn open_end(&mut self, name: &str) -> Result<D::File, Failed> {
        self.disk.open_end(name)
    }

    fn open_empty(&mut self, name: &str) -> Result<D::File, Failed> {
        let opened = self.disk.open_empty(name);
        self.watch.begin();
        opened
    }

    fn write(&mut self, file: &mut D::File, piece: &[u8]) -> Result<usize, Failed> {
        let written = self.disk.write(file, piece);
        if let Ok(n) = written {
            self.watch.wrote(&piece[..n]);
        }
        written
    }

    fn sync(&self, file: &D::File, name: &str) -> Result<(), Failed> {
        self.disk.sync(file, name)
    }
}
