//! Where a run writes: the record to a shelf, the console and the report to a sink.
ghost use Rattle.cloak_model.specs.Items.{item_of};
ghost use Rattle.std.specs.Prelude.{◌≡◌, [], ◌∷◌};
ghost use Rattle.cloak_model.specs.Exchange.{recorded, shown, Emits, item_bytes};
ghost use Rattle.cloak_machine.specs.Ending.{end_report};

use crate::pen::RecordPen;
use cloak_machine::RunEnd;
use cloak_model::{Emit, Item};
use exchange_log::{LONGEST, ok_bytes, step_bytes, word_bytes, write_item};
use io_traits::{Shelf, Sink, put_all};

/// Writes pieces up to the first that fails.
#[derive(Drop)]
pub struct Outlet<'s, 'n, 'o, S: Shelf, O: Sink> {
    pub pen: RecordPen<'s, 'n, S>,
    pub out: &'o mut O,
    /// Room for the bytes of an item.
    pub piece: [u8; LONGEST],
}

impl<'s, 'n, 'o, S: Shelf, O: Sink> Emit for Outlet<'s, 'n, 'o, S, O> {
    ghost use Rattle.run_command.specs.Outlet.{Gave};

    ghost gave = { Gave S.Shelf O.Sink };

    // The most frequent items are appended where they are made, as pieces of a known length.
    #[inline(always)]
    fn item(&mut self, i: &Item<'_>) {
        match i {
            Item::Step { number } => self.append(&step_bytes(*number)),
            Item::Ok { domain } => self.append(&ok_bytes(*domain)),
            Item::Word { domain, value } => self.append(&word_bytes(*domain, *value)),
            _ => self.write(i),
        }
    }

    fn console(&mut self, b: u8) {
        if self.pen.has_failed() {
            return;
        }
        // One byte is taken in one call, or not at all.
        self.pen.failed = self.out.put(&[b]).is_err();
    }
}

impl<'s, 'n, 'o, S: Shelf, O: Sink> Outlet<'s, 'n, 'o, S, O> {
    ghost use Rattle.run_command.specs.Outlet.{Gave};

    /// Appends an item to the record, by its bytes in the outlet's room.
    #[inline(never)]
    fn write(&mut self, i: &Item<'_>)
        ensures { Emits (Gave S.Shelf O.Sink) self.old self.new (recorded (item_bytes (item_of i.now)) ∷ []) }
    {
        if self.pen.has_failed() {
            return;
        }
        let n = write_item(i, &mut self.piece);
        if matches!(i, Item::End) {
            self.pen.append_end(&self.piece[..n]);
        } else {
            self.pen.append(&self.piece[..n]);
        }
    }

    /// Appends a piece to the record.
    #[inline(always)]
    pub fn append(&mut self, bytes: &[u8])
        ensures same_shelf { self.new.pen.shelf.ghost_name ≡ self.old.pen.shelf.ghost_name }
        ensures same_out { self.new.out.ghost_name ≡ self.old.out.ghost_name }
        ensures emits { Emits (Gave S.Shelf O.Sink) self.old self.new (recorded bytes.now ∷ []) }
    {
        if self.pen.has_failed() {
            return;
        }
        self.pen.append(bytes);
    }

    /// Puts a piece to the output.
    pub fn show(&mut self, bytes: &[u8])
        ensures same_shelf { self.new.pen.shelf.ghost_name ≡ self.old.pen.shelf.ghost_name }
        ensures same_out { self.new.out.ghost_name ≡ self.old.out.ghost_name }
        ensures emits { Emits (Gave S.Shelf O.Sink) self.old self.new (shown bytes.now ∷ []) }
    {
        if self.pen.has_failed() {
            return;
        }
        self.pen.failed = put_all(self.out, bytes).is_err();
    }

    /// Writes the report of a run to the output.
    pub fn report(&mut self, end: &RunEnd)
        ensures same_shelf { self.new.pen.shelf.ghost_name ≡ self.old.pen.shelf.ghost_name }
        ensures same_out { self.new.out.ghost_name ≡ self.old.out.ghost_name }
        ensures emits { Emits (Gave S.Shelf O.Sink) self.old self.new (shown (end_report end.now) ∷ []) }
    {
        if self.pen.has_failed() {
            return;
        }
        self.pen.failed = end.report(self.out).is_err();
    }
}
