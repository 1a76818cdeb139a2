//! The objects of a record, from its first item to its end or its first fault.
ghost use Rattle.std.specs.Prelude.{◌≡◌, Ok};
ghost use Rattle.io_traits.specs.Told.{SameFiles};
ghost use Rattle.kernel_report.specs.Putting.{putting};
ghost use Rattle.record_json.specs.Showing.{ShowsObjects};

use crate::objects::put_next_object;
use cloak_base::Failed;
use cloak_model::Item;
use io_traits::{Shelf, Sink};
use read_back::{Ending, TakeItems, for_each_item};
use record_text::{RecordPlace, Selection};

/// An output that shows items as objects, and the place of what comes next.
#[derive(Drop)]
struct ObjectsOutput<'a, O: Sink> {
    out: &'a mut O,
    selection: &'a Selection,
    place: RecordPlace,
}

impl<'a, O: Sink> TakeItems for ObjectsOutput<'a, O> {
    ghost use Rattle.record_json.specs.Taking.{TookAsObjects};

    type Stop = Failed;

    ghost took = { TookAsObjects O.Sink };

    fn take_item(&mut self, item: &Item<'_>) -> Result<(), Failed> {
        let (put, next) = put_next_object(self.out, Ok(()), self.place, item, self.selection);
        self.place = next;
        put
    }
}

/// Shows the items of a record that are chosen, up to where reading ends or the output fails.
pub fn show_objects<S: Shelf, O: Sink>(
    name: &str,
    selection: &Selection,
    shelf: &mut S,
    out: &mut O,
) -> Result<Ending, Failed>
    requires { S.is_settled shelf.old }
    ensures shows { ShowsObjects selection.now (S.held shelf.old name.now)
        (S.reading_faults shelf.old) (S.reading_faults shelf.new)
        (putting O.Sink out.old (Ok tt)) (putting O.Sink out.new) result }
    ensures files { SameFiles (S.held shelf.old) (S.held shelf.new) }
    ensures writing { S.writing_faults shelf.new ≡ S.writing_faults shelf.old }
{
    let mut objects = ObjectsOutput {
        out,
        selection,
        place: RecordPlace::Opening,
    };
    for_each_item(name, shelf, &mut objects)
}
