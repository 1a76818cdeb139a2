//! The end of a run, and the report.
ghost use Rattle.std.specs.Prelude.{◌≡◌, List, ℕ, None, map};
ghost use Rattle.std.specs.List.{concat, flat_map};
ghost use Rattle.sha2.specs.Sha256.{sha256};
ghost use Rattle.io_traits.specs.Sinks.{PutsTo};
ghost use Rattle.cloak_model.specs.Cloaking.{CloakedMemory};
ghost use Rattle.cloak_model.specs.Report as spec;
ghost use Rattle.cloak_pager.specs.State.{held_in};
ghost use Rattle.cloaked_side.specs.Holding.{Holds};
ghost use Rattle.cloak_machine.specs.Lines.{line_text};
ghost use Rattle.kernel_report.specs.Console.{ConsoleShows};
ghost use Rattle.kernel_report.specs.Putting.{PutsMore, putting};

use crate::domains::{DomainLine, DomainLines};
use crate::frames::digest_of;
use cloak_base::{Failed, Stop, Violation};
use cloaked_side::Memory;
use host_calls::Hart;
use io_traits::Sink;
use kernel_report::lines::{SoFar, decimal, hexadecimal, text};
use kernel_report::{Console, KernelLines, put_kernel};
use sha2::{Digest, Sha256};

/// A run that is over, with all that its report says.
#[derive(Drop)]
pub struct RunEnd {
    pub stop: Stop,
    /// The steps that were made.
    pub steps: u32,
    /// The draws that were made for pages, without those of the keys.
    pub draws: u64,
    /// For each number of a domain, what ended it.
    pub ended: [Option<Violation>; 4],
    /// How often a resuming was refused of which no domain was left to end, up to 2^64 - 1.
    pub refused: u64,
    pub(crate) lines: KernelLines,
    pub(crate) domains: DomainLines,
}

/// What the report says of this console, this memory, in which each frame is as the kernel sees it, this disk and these
/// harts.
pub fn kernel_lines_of(
    console: Console,
    memory: &mut Memory,
    disk: &[u8],
    harts: Vec<Hart>,
) -> KernelLines
    requires { (k : ℕ) → held_in memory.old.pager k ≡ None }
    ensures count { result.console_length ≡ console.count }
    ensures console { (bytes : List ℕ) → ConsoleShows console bytes → result.console ≡ sha256 bytes }
    ensures ram { (m : CloakedMemory) → Holds memory.old m → result.ram ≡ sha256 (concat m.ram) }
    ensures disk { result.disk ≡ sha256 disk.now }
    ensures harts { result.harts ≡ harts }
{
    KernelLines {
        console_length: console.count,
        console: console.digest(),
        ram: digest_of(memory),
        disk: Sha256::digest(disk),
        harts,
    }
}

/// The line of what ended a domain, if something did.
fn put_violation_line<O: Sink>(out: &mut O, so_far: SoFar, ended: &Option<Violation>) -> SoFar
    ensures { PutsMore (putting O.Sink out.old so_far) (putting O.Sink out.new result)
        (spec.violation_line ended.now) }
{
    match ended {
        None => so_far,
        Some(violation) => {
            let so_far = text(out, so_far, b"violation ");
            let so_far = put_violation(out, so_far, violation);
            text(out, so_far, b"\n")
        }
    }
}

/// A line for each domain that ended, in the order of their numbers.
fn put_violation_lines<O: Sink>(out: &mut O, so_far: SoFar, ended: &[Option<Violation>; 4]) -> SoFar
    ensures { PutsMore (putting O.Sink out.old so_far) (putting O.Sink out.new result)
        (flat_map spec.violation_line ended.now) }
{
    let mut so_far = so_far;
    for what in ended {
        so_far = put_violation_line(out, so_far, what);
    }
    so_far
}

/// What the kernel was refused: a line for each domain that ended, and how often there was none left to end, if ever.
fn put_refusals<O: Sink>(
    out: &mut O,
    so_far: SoFar,
    ended: &[Option<Violation>; 4],
    refused: u64,
) -> SoFar
    ensures { PutsMore (putting O.Sink out.old so_far) (putting O.Sink out.new result)
        (spec.refusal_lines ended.now refused) }
{
    let so_far = put_violation_lines(out, so_far, ended);
    if refused == 0 {
        return so_far;
    }
    put_number(out, so_far, b"refused ", refused)
}

/// What the kernel presented.
fn put_violation<O: Sink>(out: &mut O, so_far: SoFar, violation: &Violation) -> SoFar
    ensures { PutsMore (putting O.Sink out.old so_far) (putting O.Sink out.new result)
        (spec.violation_text violation.now) }
{
    match *violation {
        Violation::Page { page, frame } => {
            let so_far = text(out, so_far, b"page domain ");
            let so_far = decimal(out, so_far, page.domain as u64);
            let so_far = text(out, so_far, b" resource ");
            let so_far = decimal(out, so_far, page.resource as u64);
            let so_far = text(out, so_far, b" page ");
            let so_far = decimal(out, so_far, page.page as u64);
            let so_far = text(out, so_far, b" frame ");
            decimal(out, so_far, frame.0 as u64)
        }
        Violation::Context { ctx } => {
            let so_far = text(out, so_far, b"context ");
            decimal(out, so_far, ctx as u64)
        }
        Violation::Mapping { ctx, root } => {
            let so_far = text(out, so_far, b"mapping ");
            let so_far = decimal(out, so_far, ctx as u64);
            let so_far = text(out, so_far, b" root ");
            hexadecimal(out, so_far, root)
        }
    }
}

/// The line that says why a run ended.
pub fn put_stop_line<O: Sink>(out: &mut O, so_far: SoFar, stop: &Stop) -> SoFar
    ensures { PutsMore (putting O.Sink out.old so_far) (putting O.Sink out.new result) (spec.stop_line stop.now) }
{
    let so_far = put_stop(out, so_far, stop);
    text(out, so_far, b"\n")
}

/// Why a run ended.
fn put_stop<O: Sink>(out: &mut O, so_far: SoFar, stop: &Stop) -> SoFar
    ensures { PutsMore (putting O.Sink out.old so_far) (putting O.Sink out.new result) (spec.stop_text stop.now) }
{
    match *stop {
        Stop::Halt(value) => {
            let so_far = text(out, so_far, b"stop halt ");
            decimal(out, so_far, value as u64)
        }
        Stop::Budget => text(out, so_far, b"stop budget"),
        Stop::NoRandom => text(out, so_far, b"stop norandom"),
    }
}

/// A line of a name and a number.
pub fn put_number<O: Sink>(out: &mut O, so_far: SoFar, name: &[u8], n: u64) -> SoFar
    ensures { PutsMore (putting O.Sink out.old so_far) (putting O.Sink out.new result) (spec.number_line name.now n) }
{
    let so_far = text(out, so_far, name);
    let so_far = decimal(out, so_far, n);
    text(out, so_far, b"\n")
}

/// Lines of programs, as they are.
fn put_lines<O: Sink>(out: &mut O, so_far: SoFar, lines: &[DomainLine]) -> SoFar
    ensures { PutsMore (putting O.Sink out.old so_far) (putting O.Sink out.new result)
        (concat (map line_text lines.now)) }
{
    let mut so_far = so_far;
    for line in lines {
        so_far = text(out, so_far, line.text());
    }
    so_far
}

impl RunEnd {
    ghost use Rattle.cloak_machine.specs.Ending.{end_is_refused, end_report, end_short_report, line_in};

    /// Whether a domain ended, or a resuming was refused of which none was left to end.
    pub fn is_refused(&self) -> bool
        ensures { result ≡ end_is_refused self.now }
    {
        self.ended.iter().any(|what| what.is_some()) || self.refused > 0
    }

    /// The line of a program in the report, and nothing if there is no such program.
    pub fn domain_line(&self, d: u32) -> &[u8]
        ensures { result.now ≡ line_in self.now d }
    {
        self.domains.line(d)
    }

    /// Writes the report. One that failed has written a front of it.
    pub fn report<O: Sink>(&self, out: &mut O) -> Result<(), Failed>
        ensures { PutsTo O.Sink out.old out.new (end_report self.now) result }
    {
        let so_far = put_stop_line(out, Ok(()), &self.stop);
        let so_far = put_number(out, so_far, b"steps ", self.steps as u64);
        let so_far = put_number(out, so_far, b"draws ", self.draws);
        let so_far = put_refusals(out, so_far, &self.ended, self.refused);
        let so_far = put_kernel(out, so_far, &self.lines);
        put_lines(out, so_far, self.domains.all())
    }

    /// Writes the report without the kernel's lines. One that failed has written a front of it.
    pub fn short_report<O: Sink>(&self, out: &mut O) -> Result<(), Failed>
        ensures { PutsTo O.Sink out.old out.new (end_short_report self.now) result }
    {
        let so_far = put_stop_line(out, Ok(()), &self.stop);
        let so_far = put_number(out, so_far, b"steps ", self.steps as u64);
        let so_far = put_number(out, so_far, b"draws ", self.draws);
        let so_far = put_refusals(out, so_far, &self.ended, self.refused);
        put_lines(out, so_far, self.domains.all())
    }
}
