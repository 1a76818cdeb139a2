//! The end of a run, of the parts of its closed machine.
ghost use Rattle.std.specs.Prelude.{◌≡◌, ◌<◌, ◌≤◌, ◌^◌, ℕ, None, All, if◌then◌else◌, length};
ghost use Rattle.cloak_model.specs.DomainState as program;
ghost use Rattle.cloak_model.specs.Parts as model;
ghost use Rattle.cloak_pager.specs.State.{held_in};
ghost use Rattle.kernel_report.specs.Console.{ConsoleShows};
ghost use Rattle.cloak_machine.specs.Standing.{ArePartsOf, EndsAs};

use crate::domains::DomainLines;
use crate::end::{RunEnd, kernel_lines_of};
use cloak_base::Stop;
use joint_machine::JointParts;
use kernel_report::Console;

/// Why a run stopped, when a draw may be missing as it closes.
fn stop_of(missed: bool, stop: Stop) -> Stop
    ensures { result ≡ (if missed then Stop.NoRandom else stop) }
{
    if missed { Stop::NoRandom } else { stop }
}

/// The end of a run that this stopped, by the parts of its closed machine.
pub(crate) fn end_of(parts: JointParts, stop: Stop, steps: u32, console: Console) -> RunEnd
    requires outside { (k : ℕ) → held_in parts.memory.pager k ≡ None }
    requires few { length parts.domains.items ≤ 4 }
    ensures { (closed : model.Joint) → ArePartsOf parts closed → ConsoleShows console closed.console →
        All (λ (d : program.Domain). length d.loads < 2 ^ 64) closed.domains → EndsAs result stop steps closed }
{
    let JointParts {
        harts,
        mut memory,
        domains,
        disk,
        ended,
        refused,
    } = parts;
    RunEnd {
        stop: stop_of(memory.missed, stop),
        steps,
        draws: memory.draws,
        ended,
        refused,
        lines: kernel_lines_of(console, &mut memory, disk.bytes(), harts),
        domains: DomainLines::of(domains),
    }
}
