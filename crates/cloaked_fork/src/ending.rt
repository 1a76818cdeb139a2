//! Ending: a context ends, and with the last one its space.
ghost use Rattle.std.specs.Prelude.{◌≡◌, ◌≢◌, ◌↔◌, ℕ, None, true, false, IsSome, IfSome, IsTrue};
ghost use Rattle.std.specs.Option.{ForSome};
ghost use Rattle.std.specs.List.{list_any};
ghost use Rattle.cloak_model.specs.Asking.{Follows};
ghost use Rattle.cloak_model.specs.Contexts.{context_at, end_at};
ghost use Rattle.cloak_model.specs.Resources.{drop_space};
ghost use Rattle.cloak_model.specs.Fork as spec;
ghost use Rattle.cloak_model.proofs.ForkParts as parts;
ghost use Rattle.resource_map.specs.Kept.{IsInUse};
ghost use Rattle.cloaked_fork.specs.Homes.{AllInUse};
ghost use Rattle.cloaked_fork.specs.Left as left;
ghost use Rattle.cloaked_fork.specs.Marks.{AreCleared};
ghost use Rattle.cloaked_fork.specs.Serving.{Serves, GoesOnServing};
ghost use Rattle.cloak_model.specs.Script.{played};

use crate::pages::forget_all;
use crate::slots::context;
use cloak_model::{Answer, Ended, PageSide};
use resource_map::Resources;
use thread_context::Contexts;

/// The pages of a space's private resources are dropped, once the frames that are owed them are settled.
#[tactic(auto, using(crate::proofs::Freed::freed))]
fn forget_pages<M: PageSide>(r: &Resources, domain: u32, space: u32, m: &mut M)
    requires serves { Serves M.PageSide m.old domain r.now }
    requires cleared { AreCleared (M.is_cleared m.old) (spec.marked space r.now) }
    ensures follows { Follows M.stands_for m.old m.new tt (played (spec.forget_each domain (spec.private_numbers space r.now))) }
    ensures side { GoesOnServing M.PageSide (drop_space space r.now) m.old m.new }
{
    let marked = r.marked(space);
    forget_all(domain, &marked, m);
}

/// The end of a space's last context goes on once its question for settled frames has this answer: the space ends, or
/// nothing does.
fn end_settled<M: PageSide>(
    settled: Answer,
    r: &mut Resources,
    c: &mut Contexts,
    domain: u32,
    slot: u32,
    space: u32,
    m: &mut M,
) -> Ended
    requires used { IsSome (context_at c.old slot) }
    requires in_use { IsInUse r.old space }
    requires serves { Serves M.PageSide m.old domain r.old }
    requires last { list_any (spec.is_of_space space) (end_at slot c.old) ≡ false }
    requires cleared { settled ≡ Answer.Ok → AreCleared (M.is_cleared m.old) (spec.marked space r.old) }
    ensures follows { Follows M.stands_for m.old m.new (left.ending result c.new r.new)
        (played (parts.end_cleared domain slot space r.old c.old settled)) }
    ensures not_kept { result ≢ Ended.Kept }
    ensures gone { (n : ℕ) → result ≡ Ended.SpaceGone n → n ≡ space }
    ensures gone_leaves { (n : ℕ) → result ≡ Ended.SpaceGone n → left.spaces c.new r.new ≡ left.spaces
        (end_at slot c.old) (drop_space n r.old) }
    ensures stopped_unchanged { result ≡ Ended.Stopped → left.spaces c.new r.new ≡ left.spaces c.old r.old }
    ensures side { GoesOnServing M.PageSide r.new m.old m.new }
    ensures in_use { AllInUse c.old r.old → AllInUse c.new r.new }
{
    match settled {
        Answer::Ok => {
            forget_pages(r, domain, space, m);
            c.end(slot);
            r.drop_space(space);
            Ended::SpaceGone(space)
        }
        Answer::Absent(_) | Answer::Word(_) | Answer::Stopped => Ended::Stopped,
    }
}

/// Ends the context of a slot, which is of this space.
#[tactic(auto, unfolding(cloak_model::specs::Fork::end_context))]
fn end_in_space<M: PageSide>(
    r: &mut Resources,
    c: &mut Contexts,
    domain: u32,
    slot: u32,
    space: u32,
    m: &mut M,
) -> Ended
    requires used { IsSome (context_at c.old slot) }
    requires in_use { IsInUse r.old space }
    requires serves { Serves M.PageSide m.old domain r.old }
    ensures follows { Follows M.stands_for m.old m.new (left.ending result c.new r.new)
        (played (spec.end_context domain slot space r.old c.old)) }
    ensures kept { (result ≡ Ended.Kept) ↔ IsTrue (list_any (spec.is_of_space space) (end_at slot c.old)) }
    ensures kept_leaves { result ≡ Ended.Kept → left.spaces c.new r.new ≡ left.spaces (end_at slot c.old) r.old }
    ensures gone { (n : ℕ) → result ≡ Ended.SpaceGone n → n ≡ space }
    ensures gone_leaves { (n : ℕ) → result ≡ Ended.SpaceGone n → left.spaces c.new r.new ≡ left.spaces
        (end_at slot c.old) (drop_space n r.old) }
    ensures stopped_unchanged { result ≡ Ended.Stopped → left.spaces c.new r.new ≡ left.spaces c.old r.old }
    ensures side { GoesOnServing M.PageSide r.new m.old m.new }
    ensures in_use { AllInUse c.old r.old → AllInUse c.new r.new }
{
    if c.has_other(slot, space) {
        c.end(slot);
        return Ended::Kept;
    }
    let settled = m.clear(domain, &r.marked(space));
    end_settled(settled, r, c, domain, slot, space, m)
}

/// Ends the context of a slot, and with the last one of its space also that space, its regions and its private
/// resources; files stay. `Stopped` if the question for settled frames is answered so.
pub fn end_context<M: PageSide>(
    r: &mut Resources,
    c: &mut Contexts,
    domain: u32,
    slot: u32,
    m: &mut M,
) -> Ended
    requires used { IsSome (context_at c.old slot) }
    requires in_use { ForSome (context_at c.old slot) (λ x. IsInUse r.old x.space) }
    requires serves { Serves M.PageSide m.old domain r.old }
    ensures follows { IfSome (context_at c.old slot)
        (λ x. Follows M.stands_for m.old m.new (left.ending result c.new r.new) (played (spec.end_context domain slot x.space
        r.old c.old))) }
    ensures kept { IfSome (context_at c.old slot)
        (λ x. (result ≡ Ended.Kept) ↔ IsTrue (list_any (spec.is_of_space x.space) (end_at slot c.old))) }
    ensures kept_leaves { result ≡ Ended.Kept → left.spaces c.new r.new ≡ left.spaces (end_at slot c.old) r.old }
    ensures gone { IfSome (context_at c.old slot) (λ x. (n : ℕ) → result ≡ Ended.SpaceGone n → n ≡ x.space) }
    ensures gone_leaves { (n : ℕ) → result ≡ Ended.SpaceGone n → left.spaces c.new r.new ≡ left.spaces
        (end_at slot c.old) (drop_space n r.old) }
    ensures stopped_unchanged { result ≡ Ended.Stopped → left.spaces c.new r.new ≡ left.spaces c.old r.old }
    ensures side { GoesOnServing M.PageSide r.new m.old m.new }
    ensures in_use { AllInUse c.old r.old → AllInUse c.new r.new }
{
    let space = context(c, slot).space;
    end_in_space(r, c, domain, slot, space, m)
}
