//! Forking: a context's space is copied, with the context.
ghost use Rattle.std.specs.Prelude.{◌≡◌, ◌≢◌, ◌<◌, ◌↔◌, ℕ, None, Some, Ok, Err, true, false, slice_index_or, IsSome};
ghost use Rattle.std.specs.Prelude.{IsNone, IfSome, IfErr, OnErr, IfOk, IsOk, IsTrue};
ghost use Rattle.std.specs.Option.{ForSome};
ghost use Rattle.cloak_base.specs.declared.names.CtxId.{CtxId};
ghost use Rattle.cloak_model.specs.declared.resource.MapFault.{MapFault};
ghost use Rattle.cloak_model.specs.Asking.{Follows};
ghost use Rattle.cloak_model.specs.Contexts.{context_at};
ghost use Rattle.cloak_model.specs.Fork as spec;
ghost use Rattle.cloak_model.proofs.ForkParts as parts;
ghost use Rattle.cloak_model.specs.Resources.{resource_at};
ghost use Rattle.resource_map.specs.Kept.{IsInUse};
ghost use Rattle.what_stays.specs.Staying.{SideStays, IsAny};
ghost use Rattle.cloaked_fork.specs.Homes.{AllInUse};
ghost use Rattle.cloaked_fork.specs.Left as left;
ghost use Rattle.cloaked_fork.specs.Marks.{AreCleared};
ghost use Rattle.cloaked_fork.specs.Serving.{Serves, GoesOnServing};
ghost use Rattle.cloak_model.specs.Script.{played};

use crate::pages::copy_all;
use crate::slots::context;
use cloak_base::CtxId;
use cloak_model::{Answer, Forked, MapFault, PageSide};
use resource_map::Resources;
use thread_context::{Context, Contexts};

/// The new context of a fork: at the next instruction, with 0 as its answer, in the new space, on no hart and without a
/// reservation.
fn child(c: &Context, space: u32) -> Context
    ensures { result ≡ spec.child space c.now }
{
    let mut child = *c;
    child.pc = c.pc.wrapping_add(4);
    child.regs.set(10, 0);
    child.space = space;
    child.on = None;
    child.mark = None;
    child
}

/// There is room for a fork of a space: a slot, a space, and numbers and pages for the copies.
#[tactic(auto, unfolding(cloak_model::specs::Fork::fork_fits))]
fn fits(r: &Resources, c: &Contexts, space: u32) -> Result<(), MapFault>
    ensures as_defined { result ≡ spec.fork_fits space r.now c.now }
    ensures room { IsOk result → IsTrue (spec.has_room space r.now c.now) }
    ensures only_full { IfErr result (λ fault. fault ≡ MapFault.Full) }
{
    if c.free_slot().is_some() && r.has_room_for_copy(space) {
        Ok(())
    } else {
        Err(MapFault::Full)
    }
}

/// The pages of a space's private resources are copied to free numbers, once the frames that are owed them are settled.
fn copy_pages<M: PageSide>(r: &Resources, domain: u32, space: u32, m: &mut M)
    requires serves { Serves M.PageSide m.old domain r.now }
    requires cleared { AreCleared (M.is_cleared m.old) (spec.marked space r.now) }
    ensures follows { Follows M.stands_for m.old m.new tt (played (spec.copy_each domain (spec.copies space r.now))) }
    ensures side { SideStays M.PageSide IsAny m.old m.new }
{
    let copies = r.copies(space);
    copy_all(domain, copies.as_slice(), m);
}

/// The caller's space is copied, with its context, to the lowest free numbers. Returns the new context's number.
#[tactic(auto, using(crate::proofs::Freed::freed), unfolding(cloak_model::specs::Fork::forked))]
fn copy_space(r: &mut Resources, c: &mut Contexts, domain: u32, caller: &Context) -> CtxId
    requires number { domain < 4 }
    requires in_use { IsInUse r.old caller.now.space }
    requires room { IsTrue (spec.has_room caller.now.space r.old c.old) }
    ensures number { result ≡ left.new_context_number domain c.old }
    ensures spaces { left.spaces c.new r.new ≡ left.forked_spaces caller.now r.old c.old }
    ensures none_freed { (n : ℕ) → resource_at r.new n ≡ None → resource_at r.old n ≡ None }
    ensures in_use { AllInUse c.old r.old → AllInUse c.new r.new }
{
    let Some(space) = r.free_space() else {
        unreachable!()
    };
    r.copy_space(caller.space, space);
    let Some(slot) = c.add(child(caller, space)) else {
        unreachable!()
    };
    CtxId(8 * domain + slot)
}

/// A fork goes on once its question for settled frames has this answer: the space is copied, or nothing is.
fn fork_settled<M: PageSide>(
    settled: Answer,
    r: &mut Resources,
    c: &mut Contexts,
    domain: u32,
    caller: &Context,
    m: &mut M,
) -> Forked
    requires number { domain < 4 }
    requires in_use { IsInUse r.old caller.now.space }
    requires room { IsTrue (spec.has_room caller.now.space r.old c.old) }
    requires serves { Serves M.PageSide m.old domain r.old }
    requires cleared { settled ≡ Answer.Ok → AreCleared (M.is_cleared m.old) (spec.marked caller.now.space r.old) }
    ensures follows { Follows M.stands_for m.old m.new (left.made_fork result c.new r.new)
        (played (parts.fork_cleared domain caller.now (left.lowest c.old) (left.lowest r.old.spaces) r.old c.old settled)) }
    ensures number { (n : CtxId) → result ≡ Forked.Child n → n ≡ left.new_context_number domain c.old }
    ensures forked { (n : CtxId) → result ≡ Forked.Child n → left.spaces c.new r.new ≡ left.forked_spaces caller.now
        r.old c.old }
    ensures not_refused { (fault : MapFault) → result ≢ Forked.Refused fault }
    ensures stopped_unchanged { result ≡ Forked.Stopped → left.spaces c.new r.new ≡ left.spaces c.old r.old }
    ensures side { GoesOnServing M.PageSide r.new m.old m.new }
    ensures in_use { AllInUse c.old r.old → AllInUse c.new r.new }
{
    match settled {
        Answer::Ok => {
            copy_pages(r, domain, caller.space, m);
            Forked::Child(copy_space(r, c, domain, caller))
        }
        Answer::Absent(_) | Answer::Word(_) | Answer::Stopped => Forked::Stopped,
    }
}

/// Copies the caller's space, with its context, if there is room.
#[tactic(auto, unfolding(cloak_model::specs::Fork::fork))]
fn fork_caller<M: PageSide>(
    r: &mut Resources,
    c: &mut Contexts,
    domain: u32,
    caller: &Context,
    m: &mut M,
) -> Forked
    requires number { domain < 4 }
    requires in_use { IsInUse r.old caller.now.space }
    requires serves { Serves M.PageSide m.old domain r.old }
    ensures follows { Follows M.stands_for m.old m.new (left.made_fork result c.new r.new)
        (played (spec.fork domain caller.now r.old c.old)) }
    ensures number { (n : CtxId) → result ≡ Forked.Child n → n ≡ left.new_context_number domain c.old }
    ensures forked { (n : CtxId) → result ≡ Forked.Child n → left.spaces c.new r.new ≡ left.forked_spaces caller.now
        r.old c.old }
    ensures full { (result ≡ Forked.Refused MapFault.Full) ↔ (spec.fork_fits caller.now.space r.old c.old ≡ Err MapFault.Full) }
    ensures only_full { (fault : MapFault) → result ≡ Forked.Refused fault → fault ≡ MapFault.Full }
    ensures refused_unchanged { (fault : MapFault) → result ≡ Forked.Refused fault →
        left.spaces c.new r.new ≡ left.spaces c.old r.old }
    ensures stopped_unchanged { result ≡ Forked.Stopped → left.spaces c.new r.new ≡ left.spaces c.old r.old }
    ensures side { GoesOnServing M.PageSide r.new m.old m.new }
    ensures in_use { AllInUse c.old r.old → AllInUse c.new r.new }
{
    match fits(r, c, caller.space) {
        Err(fault) => Forked::Refused(fault),
        Ok(()) => {
            let settled = m.clear(domain, &r.marked(caller.space));
            fork_settled(settled, r, c, domain, caller, m)
        }
    }
}

/// Copies the space of a slot's context, with that context: the new one has 0 as its answer and is at the next
/// instruction. Its number is that of the `Child`. `Refused` if there is no room, and `Stopped` if the question for
/// settled frames is answered so.
pub fn fork_space<M: PageSide>(
    r: &mut Resources,
    c: &mut Contexts,
    domain: u32,
    slot: u32,
    m: &mut M,
) -> Forked
    requires number { domain < 4 }
    requires used { IsSome (context_at c.old slot) }
    requires in_use { ForSome (context_at c.old slot) (λ x. IsInUse r.old x.space) }
    requires serves { Serves M.PageSide m.old domain r.old }
    ensures follows { IfSome (context_at c.old slot)
        (λ x. Follows M.stands_for m.old m.new (left.made_fork result c.new r.new) (played (spec.fork domain x r.old c.old))) }
    ensures number { (n : CtxId) → result ≡ Forked.Child n → n ≡ left.new_context_number domain c.old }
    ensures forked { IfSome (context_at c.old slot)
        (λ x. (n : CtxId) → result ≡ Forked.Child n → left.spaces c.new r.new ≡ left.forked_spaces x r.old c.old) }
    ensures full { IfSome (context_at c.old slot)
        (λ x. (result ≡ Forked.Refused MapFault.Full) ↔ (spec.fork_fits x.space r.old c.old ≡ Err MapFault.Full)) }
    ensures only_full { (fault : MapFault) → result ≡ Forked.Refused fault → fault ≡ MapFault.Full }
    ensures refused_unchanged { (fault : MapFault) → result ≡ Forked.Refused fault →
        left.spaces c.new r.new ≡ left.spaces c.old r.old }
    ensures stopped_unchanged { result ≡ Forked.Stopped → left.spaces c.new r.new ≡ left.spaces c.old r.old }
    ensures side { GoesOnServing M.PageSide r.new m.old m.new }
    ensures in_use { AllInUse c.old r.old → AllInUse c.new r.new }
{
    let caller = context(c, slot);
    fork_caller(r, c, domain, &caller, m)
}
