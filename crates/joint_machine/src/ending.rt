//! A violation ends its domain.
ghost use Rattle.std.specs.Prelude.{◌≡◌, ◌<◌, ℕ, [], None, Some, Option, IsSome, length, slice_get};
ghost use Rattle.cloak_base.specs.declared.names.SpaceId.{SpaceId as AnySpace};
ghost use Rattle.cloak_model.specs.Cloaking.{CloakedMemory};
ghost use Rattle.cloak_model.specs.Contexts.{domain_of};
ghost use Rattle.cloak_model.specs.DomainState as model;
ghost use Rattle.cloak_model.specs.Exchange.{EmitsSome};
ghost use Rattle.cloak_model.specs.Joint as spec;
ghost use Rattle.cloak_model.specs.Joint.{Turn};
ghost use Rattle.cloak_model.specs.Parts as parts;
ghost use Rattle.cloaked_side.specs.Holding.{Holds, SameSize};
ghost use Rattle.cloaked_side.specs.Tracking.{GoesBy};
ghost use Rattle.joint_machine.specs.Turning.{EndsAfter, has_left, nothing_in, spaces_below};
ghost use Rattle.shadow_fold.specs.Events as events;

use crate::joint::Joint;
use cloak_base::{SpaceId, Violation};
use cloak_model::{Emit, Item};
use cloaked_side::{Memory, end_pages};
use hypercalls::Domain;

/// The domain of the page or the context that the kernel presented.
fn domain_met(v: &Violation) -> u32
    ensures { result ≡ spec.domain_met v.now }
{
    match v {
        Violation::Page { page, .. } => page.domain,
        Violation::Context { ctx } => ctx / 8,
        Violation::Mapping { ctx, .. } => ctx / 8,
    }
}

/// There is a domain of this number, and it has not ended.
fn is_left(domains: &[Domain], d: usize) -> bool
    ensures { result ≡ has_left (slice_get domains.now d) }
{
    match domains.get(d) {
        None => false,
        Some(domain) => !domain.has_ended(),
    }
}

/// The translations of all spaces of a domain end.
fn end_spaces(memory: &mut Memory, domain: u32)
    ensures size { SameSize memory.old memory.new }
    ensures same_pager { memory.new.pager ≡ memory.old.pager }
    ensures counting { memory.new.counting ≡ memory.old.counting }
    ensures holds { (m : CloakedMemory) → Holds memory.old m → Holds memory.new m }
    ensures goes { (space : Option AnySpace) → GoesBy memory.old memory.new
        (record { space = space; events = []; items = []; changed = spaces_below domain 8 }) }
{
    for number in 0..8 {
        memory.end_space(SpaceId { domain, number });
    }
}

impl Joint {
    ghost use Rattle.joint_machine.specs.Standing.{StandsForJoint, harts_of};

    /// A domain ends by a violation: what the kernel has yet to see of its pages is emitted, its pages are dropped, its
    /// translations end, and its contexts, resources, spaces and page tables are free.
    fn end_domain<E: Emit>(&mut self, d: usize, v: Violation, e: &mut E)
        requires { d < length self.old.domains.items }
        ensures harts { harts_of self.new ≡ harts_of self.old }
        ensures emits_some { EmitsSome E.gave e.old e.new }
        ensures counting { self.new.memory.counting ≡ self.old.memory.counting }
        ensures ends { (t : Turn) (was : model.Domain) → StandsForJoint self.old t.joint →
            slice_get t.joint.domains d ≡ Some was →
            EndsAfter E.gave e.old e.new self.new t (spec.end_domain d was v t) }
        ensures goes { (j : parts.Joint) (was : model.Domain) (space : Option AnySpace) → StandsForJoint self.old j →
            slice_get j.domains d ≡ Some was →
            GoesBy self.old.memory self.new.memory (events.with_end d was j.memory (nothing_in space)) }
    {
        end_pages(&mut self.memory, d as u8, e);
        end_spaces(&mut self.memory, d as u32);
        self.domains[d].end_all();
        self.roots.forget_all(d as u32);
        self.ended[d] = Some(v);
        e.item(&Item::Ended { domain: d as u8 });
    }

    /// No domain is left to end: the refusal is counted.
    fn refuse(&mut self)
        ensures harts { harts_of self.new ≡ harts_of self.old }
        ensures refuses { (t : Turn) → StandsForJoint self.old t.joint →
            StandsForJoint self.new (spec.refuses t).joint }
        ensures memory { self.new.memory ≡ self.old.memory }
    {
        self.refused = self.refused.saturating_add(1);
    }

    /// A resuming was refused: the domain of the violation ends, if there is one that has not ended.
    fn end_resumed<E: Emit>(&mut self, v: Violation, e: &mut E)
        ensures harts { harts_of self.new ≡ harts_of self.old }
        ensures emits_some { EmitsSome E.gave e.old e.new }
        ensures counting { self.new.memory.counting ≡ self.old.memory.counting }
        ensures ends { (t : Turn) → let d = spec.domain_met v in StandsForJoint self.old t.joint →
            EndsAfter E.gave e.old e.new self.new t (spec.ends_resumed (slice_get t.joint.domains d) d v t) }
        ensures goes { (j : parts.Joint) (space : Option AnySpace) → let d = spec.domain_met v in
            StandsForJoint self.old j → GoesBy self.old.memory self.new.memory
            (events.ended_resumed (slice_get j.domains d) d j.memory (nothing_in space)) }
    {
        let d = domain_met(&v) as usize;
        if is_left(&self.domains, d) {
            self.end_domain(d, v, e);
        } else {
            self.refuse();
        }
    }

    /// A question of this context met a violation: its domain ends.
    fn end_asked<E: Emit>(&mut self, ctx: u32, v: Violation, e: &mut E)
        ensures harts { harts_of self.new ≡ harts_of self.old }
        ensures emits_some { EmitsSome E.gave e.old e.new }
        ensures counting { self.new.memory.counting ≡ self.old.memory.counting }
        ensures ends { (t : Turn) → let d = domain_of ctx in StandsForJoint self.old t.joint →
            EndsAfter E.gave e.old e.new self.new t (spec.ends_asked (slice_get t.joint.domains d) d v t) }
        ensures goes { (j : parts.Joint) (space : Option AnySpace) → let d = domain_of ctx in
            StandsForJoint self.old j → GoesBy self.old.memory self.new.memory
            (events.ended_asked (slice_get j.domains d) d j.memory (nothing_in space)) }
    {
        let d = (ctx / 8) as usize;
        if d < self.domains.len() {
            self.end_domain(d, v, e);
        }
    }

    /// A step of a hart that was inside this context, or outside, met a violation. Out of line, since it is rare.
    #[cold]
    #[inline(never)]
    fn answer<E: Emit>(&mut self, inside: Option<u32>, v: Violation, e: &mut E)
        ensures harts { harts_of self.new ≡ harts_of self.old }
        ensures emits_some { EmitsSome E.gave e.old e.new }
        ensures counting { self.new.memory.counting ≡ self.old.memory.counting }
        ensures ends { (t : Turn) → StandsForJoint self.old t.joint →
            EndsAfter E.gave e.old e.new self.new t (spec.answers_violation inside (Some v) t) }
        ensures goes { (j : parts.Joint) (space : Option AnySpace) → StandsForJoint self.old j →
            GoesBy self.old.memory self.new.memory (events.ended_by inside (Some v) j (nothing_in space)) }
    {
        match inside {
            None => self.end_resumed(v, e),
            Some(ctx) => self.end_asked(ctx, v, e),
        }
    }

    /// What follows a step of a hart that was inside this context, or outside, by the violation that it met.
    #[inline(always)]
    pub(crate) fn answer_any<E: Emit>(
        &mut self,
        inside: Option<u32>,
        met: Option<Violation>,
        e: &mut E,
    )
        ensures harts { harts_of self.new ≡ harts_of self.old }
        ensures emits_some { EmitsSome E.gave e.old e.new }
        ensures counting { self.new.memory.counting ≡ self.old.memory.counting }
        ensures ends { (t : Turn) → StandsForJoint self.old t.joint →
            EndsAfter E.gave e.old e.new self.new t (spec.answers_violation inside met t) }
        ensures unmet { met ≡ None → self.new.memory ≡ self.old.memory }
        ensures goes { (j : parts.Joint) (space : Option AnySpace) → StandsForJoint self.old j → IsSome met →
            GoesBy self.old.memory self.new.memory (events.ended_by inside met j (nothing_in space)) }
    {
        if let Some(v) = met {
            self.answer(inside, v, e);
        }
    }
}
