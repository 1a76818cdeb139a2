//! Copies between a buffer in cloaked memory and an area that is not cloaked.
ghost use Rattle.std.specs.Prelude.{◌≡◌, ◌≢◌, ◌↔◌, ◌<◌, ◌%◌, ◌^◌, ◌+◌, ◌-◌, IfSome, is_some, Some, None, false};
ghost use Rattle.cloak_model.specs.World.{World};
ghost use Rattle.cloak_model.specs.World.{HasPage};
ghost use Rattle.cloak_model.specs.Asking.{FollowsWhere};
ghost use Rattle.cloak_model.specs.AskPages.{HasPages};
ghost use Rattle.cloak_model.specs.Contexts as context;
ghost use Rattle.cloak_model.specs.Calls as spec;
ghost use Rattle.cloak_model.proofs.CallParts as parts;
ghost use Rattle.what_stays.specs.Staying.{SideStays, ContextStays, IsFree, IsOther};
ghost use Rattle.shim_calls.specs.Copying.{IsMisplaced, NoLongerFits, next_copy};
ghost use Rattle.shim_calls.specs.Stepping.{after_copy};
ghost use Rattle.cloak_model.specs.Script.{played};

use cloak_base::{Kind, PageId};
use cloak_model::{Answer, Copied, PageSide, PageWord, Phase};
use resource_map::{Resources, page_at};
use thread_context::{Context, word_of_page};

/// How one step of a copy ended.
#[derive(Clone, Copy, Debug, PartialEq, Eq)]
pub struct CopyStep {
    pub ending: Copied,
    /// The word of a cloaked page that it wrote in.
    pub wrote: Option<PageWord>,
}

impl CopyStep {
    /// It wrote in no cloaked page.
    #[inline]
    fn without_write(ending: Copied) -> CopyStep
        ensures { result ≡ record { ending = ending; wrote = None } }
    {
        CopyStep {
            ending,
            wrote: None,
        }
    }
}

/// The space's regions do not fit the call any more: it is over.
fn refuse(c: &mut Context) -> Copied
    ensures refused { spec.copy c.new result ≡ spec.copy
        (context.in_phase Phase.Plain (context.set_word c.old 10 0xFFFFFFFE)) Copied.Refused }
    ensures same_space { c.new.space ≡ c.old.space }
    ensures same_hart { c.new.on ≡ c.old.on }
    ensures same_mark { c.new.mark ≡ c.old.mark }
{
    c.regs.set(10, 0xffff_fffe);
    c.phase = Phase::Plain;
    Copied::Refused
}

/// Makes a step of a copy into the area, of which `done` bytes are done.
#[tactic(auto, using(cloak_model::proofs::ScriptLater::laters, cloak_model::proofs::PagesLater::stay_pages), unfolding(cloak_model::specs::Calls::copy_in_step))]
fn copy_in_step<M: PageSide>(
    c: &mut Context,
    r: &Resources,
    domain: u32,
    done: u32,
    m: &mut M,
) -> Copied
    requires { domain ≡ M.serves m.old }
    ensures follows { FollowsWhere (HasPages domain r.now c.old.space) M.stands_for m.old m.new
        (spec.copy c.new result) (played (spec.copy_in_step domain r.now c.old done)) }
    ensures refused { (result ≡ Copied.Refused) ↔ ((done < spec.call_length c.old) × IsMisplaced r.now c.old done) }
    ensures refused_asks_nothing { result ≡ Copied.Refused → m.new ≡ m.old }
    ensures context { ContextStays (result ≡ Copied.Stopped) c.old c.new None }
    ensures same_mark { c.new.mark ≡ c.old.mark }
    ensures side { SideStays M.PageSide (IsFree r.now) m.old m.new }
{
    if c.regs.get(12) <= done {
        c.phase = Phase::Waiting;
        return Copied::CallReady;
    }
    let from = c.regs.get(11).wrapping_add(done);
    let to = c.regs.get(13).wrapping_add(done);
    let Some(q) = page_at(r, domain, c.space, from) else {
        return refuse(c);
    };
    if r.lookup(c.space, to).is_some() {
        return refuse(c);
    }
    match m.reach(q, from, Kind::Load) {
        Answer::Ok => {
            let byte = m.read(q, from % 4096, 1);
            match m.put(to, 1, byte) {
                Answer::Ok => {
                    c.phase = Phase::CopyIn { done: done + 1 };
                    Copied::Loaded {
                        address: from,
                        byte,
                    }
                }
                Answer::Absent(cause) => Copied::Absent { cause, address: to },
                Answer::Word(_) | Answer::Stopped => Copied::Stopped,
            }
        }
        Answer::Absent(cause) => Copied::Absent {
            cause,
            address: from,
        },
        Answer::Word(_) | Answer::Stopped => Copied::Stopped,
    }
}

/// A byte of the area goes to the buffer in page q, which lies at the address of this byte of it.
#[tactic(auto, using(cloak_model::proofs::ScriptLater::laters, cloak_model::proofs::PagesLater::stay_pages))]
fn store_byte<M: PageSide>(
    c: &mut Context,
    q: PageId,
    done: u32,
    total: u32,
    byte: u32,
    m: &mut M,
) -> CopyStep
    requires done { done < 2 ^ 32 - 1 }
    requires domain { q.domain ≡ M.serves m.old }
    requires resource { q.resource < 16 }
    requires page { q.page < 1024 }
    ensures follows { FollowsWhere (HasPage (spec.byte_address (spec.buffer c.old) done) q) M.stands_for m.old m.new
        (after_copy c.new result) (played (parts.out_got c.old q done total (Answer.Word byte))) }
    ensures not_refused { result.ending ≢ Copied.Refused }
    ensures context { ContextStays (result.ending ≡ Copied.Stopped) c.old c.new result.wrote }
    ensures same_mark { c.new.mark ≡ c.old.mark }
    ensures side { SideStays M.PageSide (IsOther q.resource) m.old m.new }
{
    let to = c.regs.get(11).wrapping_add(done);
    match m.reach(q, to, Kind::Store) {
        Answer::Ok => {
            m.write(q, to % 4096, 1, byte);
            c.phase = Phase::CopyOut {
                done: done + 1,
                total,
            };
            CopyStep {
                ending: Copied::Going,
                wrote: Some(word_of_page(q, to)),
            }
        }
        Answer::Absent(cause) => CopyStep::without_write(Copied::Absent { cause, address: to }),
        Answer::Word(_) | Answer::Stopped => CopyStep::without_write(Copied::Stopped),
    }
}

/// Byte `done` of the area, at this address, goes to the buffer in page q, which lies at its address there.
#[tactic(auto, using(cloak_model::proofs::ScriptLater::laters, cloak_model::proofs::PagesLater::stay_pages))]
fn copy_out_byte<M: PageSide>(
    c: &mut Context,
    q: PageId,
    from: u32,
    done: u32,
    total: u32,
    m: &mut M,
) -> CopyStep
    requires from { from ≡ spec.byte_address (spec.area c.old) done }
    requires done { done < 2 ^ 32 - 1 }
    requires domain { q.domain ≡ M.serves m.old }
    requires resource { q.resource < 16 }
    requires page { q.page < 1024 }
    ensures follows { FollowsWhere (HasPage (spec.byte_address (spec.buffer c.old) done) q) M.stands_for m.old m.new
        (after_copy c.new result) (played (parts.out_placed c.old done total (Some q) false)) }
    ensures not_refused { result.ending ≢ Copied.Refused }
    ensures context { ContextStays (result.ending ≡ Copied.Stopped) c.old c.new result.wrote }
    ensures same_mark { c.new.mark ≡ c.old.mark }
    ensures side { SideStays M.PageSide (IsOther q.resource) m.old m.new }
{
    match m.get(from, 1) {
        Answer::Word(byte) => store_byte(c, q, done, total, byte, m),
        Answer::Absent(cause) => CopyStep::without_write(Copied::Absent {
            cause,
            address: from,
        }),
        Answer::Ok | Answer::Stopped => CopyStep::without_write(Copied::Stopped),
    }
}

/// Makes a step of a copy into the buffer, of which `done` bytes of `total` are done.
#[tactic(auto, using(cloak_model::proofs::ScriptLater::laters, cloak_model::proofs::PagesLater::stay_pages), unfolding(cloak_model::specs::Calls::copy_out_step))]
fn copy_out_step<M: PageSide>(
    c: &mut Context,
    r: &Resources,
    domain: u32,
    done: u32,
    total: u32,
    m: &mut M,
) -> CopyStep
    requires { domain ≡ M.serves m.old }
    ensures follows { FollowsWhere (HasPages domain r.now c.old.space) M.stands_for m.old m.new
        (after_copy c.new result) (played (spec.copy_out_step domain r.now c.old done total)) }
    ensures refused { (result.ending ≡ Copied.Refused) ↔ ((done < total) × IsMisplaced r.now c.old done) }
    ensures refused_asks_nothing { result.ending ≡ Copied.Refused → m.new ≡ m.old }
    ensures context { ContextStays (result.ending ≡ Copied.Stopped) c.old c.new result.wrote }
    ensures same_mark { c.new.mark ≡ c.old.mark }
    ensures side { SideStays M.PageSide (IsFree r.now) m.old m.new }
{
    if total <= done {
        c.phase = Phase::Plain;
        return CopyStep::without_write(Copied::Done);
    }
    let to = c.regs.get(11).wrapping_add(done);
    let from = c.regs.get(13).wrapping_add(done);
    let Some(q) = page_at(r, domain, c.space, to) else {
        return CopyStep::without_write(refuse(c));
    };
    if r.lookup(c.space, from).is_some() {
        return CopyStep::without_write(refuse(c));
    }
    copy_out_byte(c, q, from, done, total, m)
}

/// Makes the next step of the copy that a context is in; if it is in none, nothing is left, which is `Done`. `Refused`
/// exactly if a byte is left that is no longer where the call needs it: nothing was asked then. `Absent` and `Stopped`
/// only if a question was answered like that.
#[tactic(auto, using(cloak_model::proofs::ScriptLater::laters, cloak_model::proofs::PagesLater::stay_pages), unfolding(crate::specs::Copying::next_copy))]
pub fn copy_step<M: PageSide>(c: &mut Context, domain: u32, r: &Resources, m: &mut M) -> CopyStep
    requires { domain ≡ M.serves m.old }

    ensures copies { FollowsWhere (HasPages domain r.now c.old.space) M.stands_for m.old m.new
        (after_copy c.new result) (played (next_copy c.old.phase domain r.now c.old)) }

    ensures refused { (result.ending ≡ Copied.Refused) ↔ NoLongerFits c.old.phase r.now c.old }
    ensures refused_asks_nothing { result.ending ≡ Copied.Refused → m.new ≡ m.old }

    ensures context { ContextStays (result.ending ≡ Copied.Stopped) c.old c.new result.wrote }
    ensures same_mark { c.new.mark ≡ c.old.mark }

    ensures side { SideStays M.PageSide (IsFree r.now) m.old m.new }
{
    match c.phase {
        Phase::CopyIn { done } => CopyStep::without_write(copy_in_step(c, r, domain, done, m)),
        Phase::CopyOut { done, total } => copy_out_step(c, r, domain, done, total, m),
        Phase::Plain | Phase::Waiting => CopyStep::without_write(Copied::Done),
    }
}
