//! How many items are chosen of each kind, as an object.
#![tactic(auto, unfolding(json::specs::Print::escape_byte))]

ghost use Rattle.std.specs.Prelude.{ℕ, List};
ghost use Rattle.cloak_model.specs.Items.{Item};
ghost use Rattle.kernel_report.specs.Putting.{PutsMore, putting};
ghost use Rattle.record_json.specs.JsonText.{count_members};
ghost use Rattle.record_json.specs.Members.{json_line};
ghost use Rattle.record_text.specs.Counting.{AreCounts};

use crate::members::{put_first_number, put_number};
use io_traits::Sink;
use kernel_report::lines::{SoFar, text};
use record_text::KindCounts;

/// A member for each kind.
pub fn put_counts<O: Sink>(out: &mut O, so_far: SoFar, counts: &KindCounts) -> SoFar
    ensures { (items : List Item) → AreCounts counts.now items →
        PutsMore (putting O.Sink out.old so_far) (putting O.Sink out.new result) (json_line (count_members items)) }
{
    let so_far = text(out, so_far, b"{");
    let so_far = put_first_number(out, so_far, "cipher", counts.cipher);
    let so_far = put_number(out, so_far, "put", counts.put);
    let so_far = put_number(out, so_far, "leave", counts.leave);
    let so_far = put_number(out, so_far, "ok", counts.ok);
    let so_far = put_number(out, so_far, "absent", counts.absent);
    let so_far = put_number(out, so_far, "word", counts.word);
    let so_far = put_number(out, so_far, "timer", counts.timer);
    let so_far = put_number(out, so_far, "resume", counts.resume);
    let so_far = put_number(out, so_far, "stopped", counts.stopped);
    let so_far = put_number(out, so_far, "ended", counts.ended);
    text(out, so_far, b"}\n")
}
