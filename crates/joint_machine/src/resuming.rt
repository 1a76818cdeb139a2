//! Resuming a context.
ghost use Rattle.std.specs.Prelude.{◌≡◌, ◌<◌, ◌≤◌, ℕ, Some, IfSome, slice_get};
ghost use Rattle.cloak_model.specs.Contexts.{context_at, domain_of, slot_of};
ghost use Rattle.cloak_model.specs.Csr.{satp_of};
ghost use Rattle.cloak_model.specs.DomainState as model;
ghost use Rattle.cloak_model.specs.Exchange.{EmitsSome};
ghost use Rattle.cloak_model.specs.Parts as parts;
ghost use Rattle.cloak_model.proofs.ResumeParts as resumed;
ghost use Rattle.cloak_model.specs.Resuming as spec;
ghost use Rattle.hypercalls.specs.Standing.{StandsFor, control_of, number_of};
ghost use Rattle.joint_machine.specs.Turning.{AreRoots, ResumesIn, idle_space};

use crate::joint::Joint;
use cloak_base::{HartId, SpaceId, Violation};
use cloak_model::{Emit, Item};
use hypercalls::Domain;
use thread_context::Roots;

/// The space of the context of a slot, if it is there and runs on no hart.
fn idle_space(domain: &Domain, slot: u32) -> Option<u32>
    ensures value { result ≡ idle_space (context_at (control_of domain.now).contexts slot) }
    ensures below_eight { IfSome result (λ space. space < 8) }
{
    let (space, on) = domain.context(slot)?;
    match on {
        None => Some(space),
        Some(_) => None,
    }
}

/// Resumes a context of a program on a hart with this page table: the context is there and runs on no hart, and the
/// table is the one of its space, or there was none yet and it is recorded. Returns the violation, if this does not
/// hold.
fn resume_in<E: Emit>(
    domain: &mut Domain,
    roots: &mut Roots,
    hart: HartId,
    satp: u32,
    ctx: u32,
    answer: u32,
    e: &mut E,
) -> Option<Violation>
    requires hart { hart.0 < 4 }
    requires few { domain_of ctx < 4 }
    ensures number { number_of domain.new ≡ number_of domain.old }
    ensures resources { (control_of domain.new).resources ≡ (control_of domain.old).resources }
    ensures emits_some { EmitsSome E.gave e.old e.new }
    ensures resumes { (j : parts.Joint) (was : model.Domain) → slice_get j.domains (domain_of ctx) ≡ Some was →
        StandsFor domain.old was → AreRoots roots.old j.memory.ledger.root →
        ResumesIn E.gave e.old e.new domain.new roots.new result j (domain_of ctx)
        (resumed.by_domain j hart.0 satp ctx answer (Some was)) }
{
    let Some(space) = idle_space(domain, ctx % 8) else {
        return Some(Violation::Context { ctx });
    };
    let space = SpaceId {
        domain: ctx / 8,
        number: space,
    };
    if roots.admit(space, satp).is_err() {
        return Some(Violation::Mapping { ctx, root: satp });
    }
    match domain.resume(ctx % 8, hart, answer) {
        Err(_) => unreachable!(),
        Ok(()) => {}
    }
    e.item(&Item::Resume {
        domain: (ctx / 8) as u8,
        ctx,
        answer,
    });
    None
}

impl Joint {
    ghost use Rattle.cloak_model.specs.Joint.{hart_in};
    ghost use Rattle.joint_machine.specs.Standing.{StandsForJoint, harts_of};
    ghost use Rattle.joint_machine.specs.Turning.{ResumesJoint};

    /// This hart resumes a context with an answer. Returns the violation, if it may not.
    pub(crate) fn resume<E: Emit>(
        &mut self,
        number: usize,
        ctx: u32,
        answer: u32,
        e: &mut E,
    ) -> Option<Violation>
        requires { number < harts_of self.old }
        ensures harts { harts_of self.new ≡ harts_of self.old }
        ensures emits_some { EmitsSome E.gave e.old e.new }
        ensures resumes { (j : parts.Joint) → StandsForJoint self.old j →
            ResumesJoint E.gave e.old e.new self.new result
            (spec.resume j number (satp_of (hart_in j number).csrs) ctx answer) }
        ensures memory { self.new.memory ≡ self.old.memory }
    {
        let d = (ctx / 8) as usize;
        if d >= self.domains.len() {
            return Some(Violation::Context { ctx });
        }
        let satp = self.harts[number].csrs.satp();
        let hart = HartId(number as u32);
        resume_in(
            &mut self.domains[d],
            &mut self.roots,
            hart,
            satp,
            ctx,
            answer,
            e,
        )
    }
}
