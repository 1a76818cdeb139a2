//! The step of a hart inside.
ghost use Rattle.std.specs.Prelude.{◌≡◌, ◌≢◌, ◌<◌, ℕ, false, [], Some, IsSome, length, option_map, slice_get};
ghost use Rattle.cloak_model.specs.Cloaking.{CloakedMemory};
ghost use Rattle.cloak_model.specs.Contexts as context;
ghost use Rattle.cloak_model.specs.Contexts.{context_at, domain_of};
ghost use Rattle.cloak_model.specs.Csr.{interrupt_due};
ghost use Rattle.cloak_model.specs.DomainState as model;
ghost use Rattle.cloak_model.specs.Exchange.{EmitsSome};
ghost use Rattle.cloak_model.specs.Joint.{after_interrupt, by_interrupt};
ghost use Rattle.cloak_model.specs.DomainStep as spec;
ghost use Rattle.cloak_model.specs.Parts as parts;
ghost use Rattle.cloaked_side.specs.Holding.{Holds, SameSize, domains_in};
ghost use Rattle.cloaked_side.specs.Tracking.{GoesBy};
ghost use Rattle.shadow_fold.specs.Events as events;
ghost use Rattle.std.specs.Prelude.{Option};
ghost use Rattle.cloak_base.specs.declared.names.PageId.{PageId};
ghost use Rattle.cloak_base.specs.declared.names.SpaceId.{SpaceId as AnySpace};
ghost use Rattle.joint_machine.specs.Mapping.{MakesIn};
ghost use Rattle.space_law.specs.Mapping.{mapped_in, page_of};
ghost use Rattle.hypercalls.specs.Standing.{StandsFor, control_of, number_of};
ghost use Rattle.joint_machine.specs.Turning.{AreRoots, HoldsNoFree, HoldsNoOthers, InterruptsIn, TurnsIn, Unmarks, running_in};

use crate::ended_step::EndedStep;
use crate::going::{go_on, leave_context, leave_stopped};
use crate::joint::Joint;
use crate::stepping::{SteppedProgram, step_domain};
use cloak_base::{SpaceId, Violation};
use cloak_model::{Emit, Item, Went};
use cloaked_side::{Memory, regime_of};
use host_calls::{Hart, tick};
use hypercalls::Domain;
use thread_context::Roots;

/// The space of this context, if it runs on the hart of this number.
fn running_space(domains: &[Domain], number: usize, ctx: u32) -> Option<u32>
    ensures value { result ≡ running_in number ctx (slice_get domains.now (domain_of ctx)) }
    ensures there { IsSome result → domain_of ctx < length domains.now }
{
    let (space, on) = domains.get((ctx / 8) as usize)?.context(ctx % 8)?;
    if on?.0 as usize == number {
        Some(space)
    } else {
        None
    }
}

/// The timer interrupts the hart of this number, and the context of the slot leaves.
fn take_interrupt<E: Emit>(
    h: &mut Hart,
    number: u32,
    d: u8,
    slot: u32,
    domain: &mut Domain,
    memory: &mut Memory,
    e: &mut E,
)
    requires runs { IsSome (context_at (control_of domain.old).contexts slot) }
    ensures number { number_of domain.new ≡ number_of domain.old }
    ensures resources { (control_of domain.new).resources ≡ (control_of domain.old).resources }
    ensures emits_some { EmitsSome E.gave e.old e.new }
    ensures unmarks { Unmarks number memory.old memory.new }
    ensures interrupts { (j : parts.Joint) (was : model.Domain) → StandsFor domain.old was →
        InterruptsIn E.gave e.old e.new h.new domain.new j number d
        (after_interrupt j number h.old d was (spec.interrupt slot was.control)) }
{
    e.item(&Item::Timer { domain: d });
    let shown = domain.interrupt(slot);
    leave_context(h, number, &shown, memory, e);
}

/// The translations of a space of the domain end whose regions the step changed, or which it ended.
fn end_space(memory: &mut Memory, domain: u32, went: &Went)
    ensures size { SameSize memory.old memory.new }
    ensures same_pager { memory.new.pager ≡ memory.old.pager }
    ensures counting { memory.new.counting ≡ memory.old.counting }
    ensures holds { (m : CloakedMemory) → Holds memory.old m → Holds memory.new m }
    ensures goes { (space : Option AnySpace) → GoesBy memory.old memory.new
        (record { space = space; events = []; items = []; changed = events.changed_by domain went.now }) }
{
    match went {
        Went::Remapped(number) => memory.end_space(SpaceId {
            domain,
            number: *number,
        }),
        Went::SpaceGone(number, _) => memory.end_space(SpaceId {
            domain,
            number: *number,
        }),
        Went::Stay => {}
        Went::Stopped => {}
        Went::Leave(_) => {}
    }
}

/// Makes the step of the hart of this number, which runs the context of a slot of this domain, which has this space, after
/// its timer fell. Returns what the kernel presented in place of what is recorded, if that stopped the step.
fn step_context<E: Emit>(
    h: &mut Hart,
    number: u32,
    d: u8,
    slot: u32,
    space: u32,
    domain: &mut Domain,
    roots: &mut Roots,
    memory: &mut Memory,
    e: &mut E,
) -> Option<Violation>
    requires few { d < 4 }
    requires runs { option_map (λ (c : context.Context). c.space) (context_at (control_of domain.old).contexts slot) ≡
        Some space }
    requires number { number_of domain.old ≡ d }
    requires there { d < domains_in memory.old }
    requires unused { HoldsNoFree d (control_of domain.old).resources memory.old.pager }
    ensures number { number_of domain.new ≡ d }
    ensures size { SameSize memory.old memory.new }
    ensures counting { memory.new.counting ≡ memory.old.counting }
    ensures emits_some { EmitsSome E.gave e.old e.new }
    ensures others { HoldsNoOthers d memory.old.pager memory.new.pager }
    ensures unused { HoldsNoFree d (control_of domain.new).resources memory.new.pager }
    ensures turns { (j : parts.Joint) (was : model.Domain) →
        let t = by_interrupt (interrupt_due h.old.mode h.old.csrs) j number h.old d slot was in
        StandsFor domain.old was → Holds memory.old j.memory → AreRoots roots.old j.memory.ledger.root →
        t.joint.memory.ledger.clashed ≡ false →
        TurnsIn E.gave e.old e.new h.new domain.new roots.new memory.new result j number d t }
    ensures goes { (j : parts.Joint) (was : model.Domain) →
        let due = interrupt_due h.old.mode h.old.csrs in
        StandsFor domain.old was → Holds memory.old j.memory →
        (by_interrupt due j number h.old d slot was).joint.memory.ledger.clashed ≡ false →
        GoesBy memory.old memory.new (events.asked_if due j h.old d slot was (context_at was.control.contexts slot)) }
    ensures makes { (j : parts.Joint) (was : model.Domain) (mapped : AnySpace → ℕ → Option PageId) →
        StandsFor domain.old was →
        ((space va : ℕ) → mapped (record { domain = d; number = space }) va ≡ page_of (Some was) space va) →
        MakesIn mapped (events.asked_if (interrupt_due h.old.mode h.old.csrs) j h.old d slot was
        (context_at was.control.contexts slot)) }
{
    if h.csrs.due(h.mode) {
        take_interrupt(h, number, d, slot, domain, memory, e);
        return None;
    }
    domain.whole(space);
    let regime = regime_of(h, d);
    let space = SpaceId {
        domain: d as u32,
        number: space,
    };
    let mut stepped = SteppedProgram {
        went: Went::Stay,
        violation: None,
    };
    step_domain(domain, slot, regime, space, memory, e, &mut stepped);
    end_space(memory, d as u32, &stepped.went);
    go_on(h, number, d as u32, roots, &stepped, memory, e)
}

impl Joint {
    ghost use Rattle.cloak_model.specs.Contexts.{slot_of};
    ghost use Rattle.cloak_model.specs.KernelStep.{ticked};
    ghost use Rattle.cloak_model.specs.Joint.{hart_in, inside_step};
    ghost use Rattle.joint_machine.specs.Standing.{StandsForJoint, harts_of};
    ghost use Rattle.joint_machine.specs.Turning.{EndsTurn};

    /// Makes the step of a hart inside this context: its timer falls. If the context does not run on it, it leaves with
    /// cause 24. Otherwise the context leaves for the interrupt that is due, or makes a step.
    pub(crate) fn inside<E: Emit>(&mut self, number: usize, ctx: u32, e: &mut E) -> EndedStep
        requires { number < harts_of self.old }
        ensures harts { harts_of self.new ≡ harts_of self.old }
        ensures emits_some { EmitsSome E.gave e.old e.new }
        ensures turns { (j : parts.Joint) →
            let d = domain_of ctx in
            let t = inside_step j number (ticked (hart_in j number)) ctx (slice_get j.domains d) in
            StandsForJoint self.old j → t.joint.memory.ledger.clashed ≡ false →
            EndsTurn E.gave e.old e.new self.new result t }
        ensures counting { self.new.memory.counting ≡ self.old.memory.counting }
        ensures goes { (j : parts.Joint) →
            let d = domain_of ctx in
            let h = ticked (hart_in j number) in
            StandsForJoint self.old j →
            (inside_step j number h ctx (slice_get j.domains d)).joint.memory.ledger.clashed ≡ false →
            GoesBy self.old.memory self.new.memory
            (events.asked_inside j number h d (slot_of ctx) (slice_get j.domains d)) }
        ensures makes { (j : parts.Joint) → let d = domain_of ctx in StandsForJoint self.old j → MakesIn (mapped_in j)
            (events.asked_inside j number (ticked (hart_in j number)) d (slot_of ctx) (slice_get j.domains d)) }
    {
        let h = &mut self.harts[number];
        tick(h);
        let Some(space) = running_space(&self.domains, number, ctx) else {
            leave_stopped(h, number as u32, ctx, &mut self.memory, e);
            return EndedStep::met(None);
        };
        let d = (ctx / 8) as usize;
        let domain = &mut self.domains[d];
        EndedStep::met(step_context(
            h,
            number as u32,
            d as u8,
            ctx % 8,
            space,
            domain,
            &mut self.roots,
            &mut self.memory,
            e,
        ))
    }
}
