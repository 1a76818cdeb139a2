//! Why a record was not read to its end, as an object.
#![tactic(auto, unfolding(json::specs::Print::escape_byte))]

ghost use Rattle.std.specs.Prelude.{◌≡◌, [], ◌∷◌, codes};
ghost use Rattle.json.specs.Print.{escape};
ghost use Rattle.kernel_report.specs.Putting.{PutsMore, putting};
ghost use Rattle.record_json.specs.JsonText as spec;
ghost use Rattle.record_json.specs.Members.{json_line, with_number, with_text};

use crate::members::{put_first_text, put_number};
use cloak_model::RecordFault;
use io_traits::Sink;
use kernel_report::lines::{SoFar, text};
use read_back::Ending;

/// A fault without a number.
fn put_bare_fault<O: Sink>(out: &mut O, so_far: SoFar, name: &str) -> SoFar
    requires { escape name.now ≡ name.now }
    ensures { PutsMore (putting O.Sink out.old so_far) (putting O.Sink out.new result)
        (json_line (with_text (codes "fault") name.now ∷ [])) }
{
    let so_far = text(out, so_far, b"{");
    let so_far = put_first_text(out, so_far, "fault", name);
    text(out, so_far, b"}\n")
}

/// A fault with a number.
fn put_numbered_fault<O: Sink>(out: &mut O, so_far: SoFar, name: &str, field: &str, n: u64) -> SoFar
    requires name { escape name.now ≡ name.now }
    requires field { escape field.now ≡ field.now }
    ensures { PutsMore (putting O.Sink out.old so_far) (putting O.Sink out.new result)
        (json_line (with_text (codes "fault") name.now ∷ with_number field.now n ∷ [])) }
{
    let so_far = text(out, so_far, b"{");
    let so_far = put_first_text(out, so_far, "fault", name);
    let so_far = put_number(out, so_far, field, n);
    text(out, so_far, b"}\n")
}

/// A file's first fault.
fn put_fault<O: Sink>(out: &mut O, so_far: SoFar, fault: RecordFault) -> SoFar
    ensures { PutsMore (putting O.Sink out.old so_far) (putting O.Sink out.new result)
        (json_line (spec.fault_members fault)) }
{
    match fault {
        RecordFault::Short(at) => put_numbered_fault(out, so_far, "short", "at", at),
        RecordFault::BadMagic => put_bare_fault(out, so_far, "magic"),
        RecordFault::BadTag(at) => put_numbered_fault(out, so_far, "tag", "at", at),
        RecordFault::StepOrder(at) => put_numbered_fault(out, so_far, "order", "at", at),
        RecordFault::Extra(at) => put_numbered_fault(out, so_far, "extra", "at", at),
    }
}

/// The line that says why a record was not read to its end; nothing if it was.
pub fn put_ending<O: Sink>(out: &mut O, so_far: SoFar, ending: &Ending) -> SoFar
    ensures { PutsMore (putting O.Sink out.old so_far) (putting O.Sink out.new result) (spec.ending_line ending.now) }
{
    match *ending {
        Ending::Whole => text(out, so_far, b""),
        Ending::Unfit(step) => { put_numbered_fault(out, so_far, "unfit", "step", step as u64) }
        Ending::Fault(fault) => put_fault(out, so_far, fault),
        Ending::Unread => put_bare_fault(out, so_far, "read"),
    }
}
