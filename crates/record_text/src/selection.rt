//! What of a record is chosen.
ghost use Rattle.cloak_model.specs.Items.{item_of};
ghost use Rattle.std.specs.Prelude.{◌≡◌};
ghost use Rattle.record_text.specs.Kinds as spec;
ghost use Rattle.record_text.specs.Lines.{has_bare};

use crate::kinds::Kinds;
use crate::place::RecordPlace;
use cloak_model::Item;

/// What of a record is chosen.
#[derive(Clone, Copy, Debug, PartialEq, Eq)]
pub struct Selection {
    /// The first step; 0 for the opening.
    pub from: u32,
    /// The last step; 2^32 - 1 for the closing too.
    pub to: u32,
    /// The kinds of items; if there are none, all items and each step.
    pub only: Option<Kinds>,
    /// How many items there are of each kind, instead of the items.
    pub counts: bool,
}

impl Selection {
    /// The place is chosen.
    fn has_place(&self, place: RecordPlace) -> bool
        ensures { result ≡ spec.has_place self.now place }
    {
        match place {
            RecordPlace::Opening => self.from == 0,
            RecordPlace::Step(number) => self.from <= number && number <= self.to,
            RecordPlace::Closing(_) | RecordPlace::End => self.to == u32::MAX,
        }
    }

    /// A place has its line even if none of its items is chosen.
    pub fn has_bare(&self, place: RecordPlace) -> bool
        ensures { result ≡ has_bare self.now place }
    {
        self.only.is_none() && self.has_place(place)
    }

    /// An item of this place, which is no marker, is chosen.
    pub fn has_item(&self, place: RecordPlace, item: &Item<'_>) -> bool
        ensures { result ≡ spec.has_item self.now place (item_of item.now) }
    {
        self.has_chosen_kind(item) && self.has_place(place)
    }

    /// An item is of a kind that is chosen.
    fn has_chosen_kind(&self, item: &Item<'_>) -> bool
        ensures { result ≡ spec.has_chosen_kind self.now.only (item_of item.now) }
    {
        match self.only {
            None => true,
            Some(kinds) => kinds.has(item),
        }
    }
}
