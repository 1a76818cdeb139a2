//! Where the items of a record stand.
ghost use Rattle.cloak_model.specs.Items.{item_of};
ghost use Rattle.std.specs.Prelude.{◌≡◌};
ghost use Rattle.record_text.specs.Kinds as spec;

use cloak_model::Item;

/// Where items of a record stand.
#[derive(Clone, Copy, Debug, PartialEq, Eq)]
pub enum RecordPlace {
    Opening,
    Step(u32),
    /// After this many steps.
    Closing(u32),
    End,
}

/// The place that a marker begins.
pub fn place_marked(item: &Item<'_>) -> Option<RecordPlace>
    ensures { result ≡ spec.place_marked (item_of item.now) }
{
    match *item {
        Item::Step { number } => Some(RecordPlace::Step(number)),
        Item::Close { steps } => Some(RecordPlace::Closing(steps)),
        Item::End => Some(RecordPlace::End),
        _ => None,
    }
}
