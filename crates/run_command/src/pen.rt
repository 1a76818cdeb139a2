//! The record as it is written.
ghost use Rattle.std.specs.Prelude.{◌≡◌, false};
ghost use Rattle.command_parts.specs.Outside.{files};
ghost use Rattle.run_command.specs.Adding.{Adds};

use io_traits::Shelf;

/// Adds pieces to the end of the record, up to the first that fails. The record is the file that was begun or added to
/// last, so no piece has its name looked at.
#[derive(Drop)]
pub struct RecordPen<'s, 'n, S: Shelf> {
    pub shelf: &'s mut S,
    pub name: &'n str,
    /// Nothing more is written.
    pub failed: bool,
    ghost last: { ∥ (failed ≡ false → S.is_last shelf.now name.now) ∥₁ },
}

impl<'s, 'n, S: Shelf> RecordPen<'s, 'n, S> {
    /// Whether nothing more is written. Until then the record is the file that was begun or added to last.
    #[inline(always)]
    pub fn has_failed(&self) -> bool
        ensures failed { result ≡ self.now.failed }
        ensures last { self.now.failed ≡ false → S.is_last self.now.shelf.now self.now.name.now }
    {
        self.failed
    }

    /// Adds a piece. What failed is told only if it did, so that a step that goes well stores nothing here.
    #[inline(always)]
    pub fn append(&mut self, bytes: &[u8])
        requires going { self.old.failed ≡ false }
        requires last { S.is_last self.old.shelf.now self.old.name.now }
        ensures same_shelf { self.new.shelf.ghost_name ≡ self.old.shelf.ghost_name }
        ensures same_name { self.new.name ≡ self.old.name }
        ensures adds { Adds self.new.failed self.old.name.now
            (files S.Shelf self.old.shelf.now) (files S.Shelf self.new.shelf.now) bytes.now }
    {
        if self.shelf.append_last(self.name, bytes).is_err() {
            self.failed = true;
        }
    }

    /// Adds the last piece. Then all of the record is written out, so its fault comes before the report.
    pub fn append_end(&mut self, bytes: &[u8])
        requires going { self.old.failed ≡ false }
        requires last { S.is_last self.old.shelf.now self.old.name.now }
        ensures same_shelf { self.new.shelf.ghost_name ≡ self.old.shelf.ghost_name }
        ensures same_name { self.new.name ≡ self.old.name }
        ensures adds { Adds self.new.failed self.old.name.now
            (files S.Shelf self.old.shelf.now) (files S.Shelf self.new.shelf.now) bytes.now }
    {
        self.append(bytes);
        if self.failed {
            return;
        }
        if self.shelf.flush().is_err() {
            self.failed = true;
        }
    }
}
