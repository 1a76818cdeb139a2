//! A file as it is written.
ghost use Rattle.std.specs.Prelude.{◌≡◌};

use io_traits::Shelf;
use sha2::{Digest, Sha256};

/// Adds pieces to the end of a file, up to the first that fails, and takes the digest of all of them.
#[derive(Drop)]
pub(crate) struct Pen<'s, 'n, S: Shelf> {
    pub(crate) shelf: &'s mut S,
    pub(crate) name: &'n str,
    pub(crate) digest: Sha256,
    /// Nothing more is written.
    pub(crate) failed: bool,
}

impl<'s, 'n, S: Shelf> Pen<'s, 'n, S> {
    ghost use Rattle.frozen_run.specs.Writing.{AddsMore};

    /// Adds a piece.
    pub(crate) fn put(&mut self, bytes: &[u8])
        ensures same_shelf { self.new.shelf.ghost_name ≡ self.old.shelf.ghost_name }
        ensures gives { AddsMore S.Shelf self.old self.new bytes.now }
    {
        if self.failed {
            return;
        }
        self.digest.update(bytes);
        self.failed = self.shelf.append(self.name, bytes).is_err();
    }
}
