//! The step of a program over the machine's memory.
ghost use Rattle.std.specs.Prelude.{◌≡◌, ◌≢◌, ◌<◌, ℕ, false, [], None, Some, IsSome};
ghost use Rattle.cloak_model.specs.Cloaking.{CloakedMemory};
ghost use Rattle.cloak_model.specs.Contexts.{context_at};
ghost use Rattle.cloak_model.specs.DomainState as model;
ghost use Rattle.cloak_model.specs.DomainStep.{domain_step};
ghost use Rattle.cloak_model.specs.Exchange.{EmitsSome};
ghost use Rattle.cloak_model.specs.World.{Cloaked, events_of, items_of, is_clashed};
ghost use Rattle.cloaked_side.specs.Holding.{Holds, SameSize, domains_in};
ghost use Rattle.cloaked_side.specs.Tracking.{GoesBy};
ghost use Rattle.hypercalls.specs.Standing.{StandsFor, control_of, number_of};
ghost use Rattle.joint_machine.specs.Turning.{HoldsNoFree, HoldsNoOthers, StepsDomain, begun};

use cloak_base::{Frame, SpaceId, Violation};
use cloak_model::{Emit, InsideRegime, Went};
use cloaked_side::{Memory, ProgramSide, Side, regime_inside};
use hypercalls::Domain;

/// How the step of a program ended.
#[derive(Clone, Copy)]
pub struct SteppedProgram {
    pub went: Went,
    /// What the kernel presented in place of what is recorded.
    pub violation: Option<Violation>,
}

/// Keeps what was presented in place of what is recorded. If nothing was, nothing is moved.
#[inline(always)]
fn keep(into: &mut Option<Violation>, violation: Option<Violation>)
    requires { into.old ≡ None }
    ensures { into.new ≡ violation }
{
    if violation.is_some() {
        *into = violation;
    }
}

/// Makes one step of the context of a slot, which runs in this space on a hart that sees memory so. How it ended is written
/// to `stepped`, of which nothing is moved if the context stays.
pub fn step_domain<E: Emit>(
    domain: &mut Domain,
    slot: u32,
    regime: InsideRegime,
    space: SpaceId,
    memory: &mut Memory,
    e: &mut E,
    stepped: &mut SteppedProgram,
)
    requires staying { stepped.old ≡ record { went = Went.Stay; violation = None } }
    requires runs { IsSome (context_at (control_of domain.old).contexts slot) }
    requires number { number_of domain.old ≡ regime.domain }
    requires there { regime.domain < domains_in memory.old }
    requires unused { HoldsNoFree regime.domain (control_of domain.old).resources memory.old.pager }
    ensures number { number_of domain.new ≡ number_of domain.old }
    ensures size { SameSize memory.old memory.new }
    ensures counting { memory.new.counting ≡ memory.old.counting }
    ensures emits_some { EmitsSome E.gave e.old e.new }
    ensures others { HoldsNoOthers regime.domain memory.old.pager memory.new.pager }
    ensures unused { HoldsNoFree regime.domain (control_of domain.new).resources memory.new.pager }
    ensures steps { (m : CloakedMemory) (d : model.Domain) → Holds memory.old m → StandsFor domain.old d →
        is_clashed (domain_step slot d (Cloaked (begun m regime slot d))).world ≡ false →
        StepsDomain E.gave e.old e.new memory.new domain.new stepped.new
        (domain_step slot d (Cloaked (begun m regime slot d))) }
    ensures goes { (m : CloakedMemory) (d : model.Domain) → Holds memory.old m → StandsFor domain.old d →
        let told = domain_step slot d (Cloaked (begun m regime slot d)) in is_clashed told.world ≡ false →
        GoesBy memory.old memory.new
        (record { space = Some space; events = events_of told.world; items = items_of told.world; changed = [] }) }
{
    let side = Side {
        memory,
        emitter: e,
        violation: None,
        domain: regime.domain,
        regime: regime_inside(regime, space),
    };
    let mut asked = ProgramSide {
        side,
        reached: Frame(0),
    };
    domain.step(slot, &mut asked, &mut stepped.went);
    // No effect at run time. The proof reads what was lent from these uses.
    let Side {
        memory,
        emitter,
        violation,
        ..
    } = asked.side;
    let _ = &*memory;
    let _ = &*emitter;
    keep(&mut stepped.violation, violation);
}
