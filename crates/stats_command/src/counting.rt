//! A run whose accesses are counted, and of which nothing is written.
ghost use Rattle.std.specs.Prelude.{◌≡◌, ◌≤◌, Ok};
ghost use Rattle.cloak_base.specs.Random.{Random};
ghost use Rattle.cloak_model.specs.declared.image.Bundle.{Bundle};
ghost use Rattle.cloak_model.specs.Joint.{Moment};
ghost use Rattle.cloak_model.specs.Opening.{RunEdge, opening};
ghost use Rattle.cloak_model.specs.Run.{first_moment, joint_after, most_steps, run_of, turns_from};
ghost use Rattle.cloak_machine.specs.Counting.{CountsAccesses};
ghost use Rattle.cloak_machine.specs.Standing.{StandsForMoment, steps_made};
ghost use Rattle.run_command.specs.Running.{MadeAll};
ghost use Rattle.cloak_model.specs.Run.{NoClash, NoClashYet};
ghost use Rattle.shadow_fold.specs.Events.{after_turns};
ghost use Rattle.shadow_fold.specs.Fold.{Fold};
ghost use Rattle.stats_command.specs.Counting.{IsCountOf};

use cloak_base::Stop;
use cloak_machine::Machine;
use run_command::Unheard;
use shadow_fold::ShadowCounts;

/// What a run results in: why it ended, whether a domain ended or a resuming was refused, and its counts.
#[derive(Drop)]
pub struct Counted {
    pub stop: Stop,
    pub refused: bool,
    pub counts: ShadowCounts,
}

/// Makes up to this many steps, and returns why the last one stopped the run, if it did.
fn run_counted(machine: &mut Machine, steps: u32) -> Option<Stop>
    requires fresh { steps_made machine.old ≡ 0 }
    requires few { steps ≤ most_steps }
    ensures makes { (m : Moment) → StandsForMoment machine.old m →
        NoClashYet (joint_after m.joint (turns_from steps m)) →
        MadeAll machine.new result m (turns_from steps m) }
    ensures counts { (m : Moment) (s : Fold) → StandsForMoment machine.old m → CountsAccesses machine.old s →
        NoClashYet (joint_after m.joint (turns_from steps m)) →
        CountsAccesses machine.new (after_turns m (turns_from steps m) s) }
{
    let mut unheard = Unheard {};
    for made in 0..steps {
        let _ = made;
        if let Some(stop) = machine.step(&mut unheard) {
            return Some(stop);
        }
    }
    None
}

/// Makes the run of a machine that made no step yet, and counts its accesses.
pub fn count_run(machine: Machine, steps: u32) -> Counted
    requires fresh { steps_made machine ≡ 0 }
    requires few { steps ≤ most_steps }
    ensures { (b : Bundle) (stream : Random) (o : RunEdge) → opening b stream ≡ Ok o →
        StandsForMoment machine (first_moment b o.joint) → NoClash (run_of b steps o) →
        IsCountOf result b steps o }
{
    let mut machine = machine;
    machine.count_accesses();
    let stopped = run_counted(&mut machine, steps);
    let counts = machine.counts();
    let end = machine.finish(stopped.unwrap_or(Stop::Budget), &mut Unheard {});
    Counted {
        stop: end.stop,
        refused: end.is_refused(),
        counts,
    }
}
