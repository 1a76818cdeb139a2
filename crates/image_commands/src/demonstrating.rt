//! The command `demo`.
ghost use Rattle.std.specs.Prelude.{◌≡◌, ◌≤◌, ◌<◌, ◌-◌, ◌^◌, ◌++◌, IfOk, Ok};
ghost use Rattle.cloak_base.specs.Random.{Random, numbered};
ghost use Rattle.io_traits.specs.Sinks.{PutsTo};
ghost use Rattle.cloak_model.specs.declared.image.Bundle.{Bundle as AnyBundle};
ghost use Rattle.cloak_model.specs.Joint.{Moment};
ghost use Rattle.cloak_model.specs.Opening.{RunEdge, opening};
ghost use Rattle.cloak_model.specs.Run.{first_moment, joint_after, most_steps, run_of, turns_from};
ghost use Rattle.cloak_machine.specs.Ending.{end_short_report};
ghost use Rattle.cloak_machine.specs.Standing.{OpensMachine, StandsForMoment, steps_made};
ghost use Rattle.guest_kernel.specs.Generated.{generated};
ghost use Rattle.guest_kernel.specs.Summary.{summary_line};
ghost use Rattle.command_parts.specs.Outside.{output};
ghost use Rattle.image_commands.specs.Demonstrating.{DemoAnswers};
ghost use Rattle.run_command.specs.Running.{IsEndOf, MadeAll};
ghost use Rattle.cloak_model.specs.Run.{NoClash, NoClashYet};

use cloak_base::{Failed, NoMemory, Stop};
use cloak_machine::{Machine, OpenFault, RunEnd};
use cloak_model::Bundle;
use command_parts::{Refusal, Status, refuse};
use guest_kernel::{generate, put_summary};
use io_traits::{Sink, Stream};
use run_command::{Unheard, stop_status};
use std::alloc::Global;

/// The machine of a number's image, under the random stream of the number, which has a key and each draw that is due.
fn open_image(alloc: Global, number: u64) -> Result<Machine, NoMemory>
    ensures opens { IfOk result (λ machine. OpensMachine (generated number) (numbered number) machine) }
    ensures no_step { IfOk result (λ machine. steps_made machine ≡ 0) }
{
    let Bundle { kernel, programs } = generate(alloc, number)?;
    match Machine::open(alloc, kernel, programs, Stream::numbered(number)) {
        Ok(machine) => Ok(machine),
        Err(OpenFault::NoMemory) => Err(NoMemory),
        Err(OpenFault::NoKey) => unreachable!(),
        Err(OpenFault::NoRandom) => unreachable!(),
    }
}

/// Makes up to this many steps, and returns why the last one stopped the run, if it did.
fn run_unheard(machine: &mut Machine, steps: u32) -> Option<Stop>
    requires fresh { steps_made machine.old ≡ 0 }
    requires few { steps ≤ most_steps }
    ensures { (m : Moment) → StandsForMoment machine.old m → NoClashYet (joint_after m.joint (turns_from steps m)) →
        MadeAll machine.new result m (turns_from steps m) }
{
    let mut unheard = Unheard {};
    for made in 0..steps {
        let _ = made;
        if let Some(stop) = machine.step(&mut unheard) {
            return Some(stop);
        }
    }
    None
}

/// Makes the run of a machine, of which nothing is written.
fn end_of_run(machine: Machine, steps: u32) -> RunEnd
    requires fresh { steps_made machine ≡ 0 }
    requires few { steps ≤ most_steps }
    ensures { (b : AnyBundle) (stream : Random) (o : RunEdge) → opening b stream ≡ Ok o →
        StandsForMoment machine (first_moment b o.joint) → NoClash (run_of b steps o) →
        IsEndOf result (run_of b steps o) }
{
    let mut machine = machine;
    let stopped = run_unheard(&mut machine, steps);
    machine.finish(stopped.unwrap_or(Stop::Budget), &mut Unheard {})
}

/// Shows the line of a number's image, and what its run came to. One that failed has shown a front of it.
fn show_demo<O: Sink>(out: &mut O, number: u64, end: &RunEnd) -> Result<(), Failed>
    ensures { PutsTo O.Sink out.old out.new (summary_line number ++ end_short_report end.now) result }
{
    put_summary(out, number)?;
    end.short_report(out)
}

/// Makes the run of a number's image, under the random stream of the number, and shows what it ends with.
pub fn demo_command<O: Sink>(alloc: Global, number: u64, steps: u32, out: &mut O) -> Status
    requires few { steps ≤ most_steps }
    requires output { O.faults out.old < 2 ^ 64 - 1 }
    ensures { DemoAnswers number steps (output O.Sink out.old) (output O.Sink out.new) result }
{
    let Ok(machine) = open_image(alloc, number) else {
        return refuse(out, &Refusal::NoMemory);
    };
    let end = end_of_run(machine, steps);
    match show_demo(out, number, &end) {
        Ok(()) => stop_status(&end.stop, end.is_refused()),
        Err(_) => Status::WriteFault,
    }
}
