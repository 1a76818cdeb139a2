//! The names of causes, as the privileged manual has them, and of calls.
ghost use Rattle.std.specs.Prelude.{◌≡◌};
ghost use Rattle.cloak_model.specs.Report as report;
ghost use Rattle.kernel_report.specs.Putting.{PutsMore, putting};
ghost use Rattle.record_text.specs.Names as spec;

use cloak_base::{EXIT, TIMER_CAUSE};
use io_traits::Sink;
use kernel_report::lines::{SoFar, hexadecimal, text};

/// The name of the cause of a trap (RISC-V privileged manual, scause). 24 is the one of a context that does not run on the
/// hart which is inside it.
#[tactic(auto, unfolding(crate::specs::Names::cause_name))]
pub fn cause_name(cause: u32) -> &'static str
    ensures { result.now ≡ spec.cause_name cause }
{
    match cause {
        0 => "instruction address misaligned",
        1 => "instruction access fault",
        2 => "illegal instruction",
        3 => "breakpoint",
        4 => "load address misaligned",
        5 => "load access fault",
        6 => "store address misaligned",
        7 => "store access fault",
        8 => "environment call from U-mode",
        12 => "instruction page fault",
        13 => "load page fault",
        15 => "store page fault",
        24 => "it does not run here",
        TIMER_CAUSE => "supervisor timer interrupt",
        _ => "unknown cause",
    }
}

/// The name of a call to the kernel or of an end that a context leaves with.
#[tactic(auto, unfolding(crate::specs::Names::call_name))]
pub fn call_name(number: u32) -> &'static str
    ensures { result.now ≡ spec.call_name number }
{
    match number {
        1 => "WRITE",
        2 => "OPEN",
        3 => "READ",
        EXIT => "EXIT",
        _ => "call",
    }
}

/// A word in eight hexadecimal digits.
pub fn put_word<O: Sink>(out: &mut O, so_far: SoFar, word: u32) -> SoFar
    ensures { PutsMore (putting O.Sink out.old so_far) (putting O.Sink out.new result) (report.hexadecimal word) }
{
    hexadecimal(out, so_far, word)
}

/// A name.
pub fn put_name<O: Sink>(out: &mut O, so_far: SoFar, name: &str) -> SoFar
    ensures { PutsMore (putting O.Sink out.old so_far) (putting O.Sink out.new result) (name.now) }
{
    text(out, so_far, name.as_bytes())
}
