//! The hypercalls, by the number in x17: each changes contexts and resources, and asks at most for a clearing.
ghost use Rattle.std.specs.Prelude.{◌≡◌, ◌≢◌, ℕ, None, IsSome};
ghost use Rattle.cloak_model.specs.Asking.{Follows};
ghost use Rattle.cloak_model.specs.Contexts.{context_at};
ghost use Rattle.cloak_model.specs.Resources.{resource_at};
ghost use Rattle.cloak_model.specs.Hypercalls as spec;
ghost use Rattle.cloaked_fork.specs.Serving.{Serves, GoesOnServing};
ghost use Rattle.hypercalls.specs.Keeping.{SameResources};
ghost use Rattle.hypercalls.specs.Slots.{context_of};
ghost use Rattle.cloak_model.specs.Script.{played};

use crate::control::{Control, leave_hart};
use cloak_base::EXIT;
use cloak_model::{Begun, Ended, Forked, MapFault, PageSide, Region, Went, Why};
use cloaked_files::file_resource;
use cloaked_fork::{end_context, fork_space};
use shim_calls::begin;
use thread_context::{Context, shown};

const NEW: u32 = 0x4f56_0001;

const MAP: u32 = 0x4f56_0002;

const UNMAP: u32 = 0x4f56_0003;

const FILE: u32 = 0x4f56_0004;

const THREAD: u32 = 0x4f56_0005;

const FORK: u32 = 0x4f56_0006;

const CALL: u32 = 0x4f56_0008;

/// The answer to a hypercall that does not exist.
const BAD_CALL: u32 = 0xffff_fffb;

/// A fault as a word.
fn fault_word(fault: MapFault) -> u32
    ensures { result ≡ spec.fault_word fault }
{
    match fault {
        MapFault::Full => 0xffff_ffff,
        MapFault::BadArg => 0xffff_fffe,
        MapFault::Overlap => 0xffff_fffd,
        MapFault::NotFound => 0xffff_fffc,
    }
}

/// The number of a resource, or a fault, as a word.
fn number_word(made: Result<u32, MapFault>) -> u32
    ensures { result ≡ spec.number_word made }
{
    match made {
        Ok(n) => n,
        Err(fault) => fault_word(fault),
    }
}

impl Control {
    /// 1 NEW: a resource of x10 pages, private to the caller's space.
    #[tactic(auto, using(crate::proofs::Fitted::fits_with, crate::proofs::Freed::frees), unfolding(cloak_model::specs::Hypercalls::new_call))]
    fn new_call(&mut self, slot: u32) -> Went
        requires { IsSome (context_at self.old.contexts slot) }
        ensures steps { record { control = self.new; went = result } ≡ spec.new_call slot (context_of self.old slot)
            self.old }
        ensures goes_on { result ≢ Went.Stopped }
        ensures number { self.new.number ≡ self.old.number }
        ensures freed { (n : ℕ) → resource_at self.new.resources n ≡ None → resource_at self.old.resources n ≡ None }
    {
        let c = self.running(slot);
        let space = c.space;
        let pages = c.regs.get(10);
        let made = self.resources.new_resource(space, pages);
        self.answer(slot, number_word(made))
    }

    /// What MAP and UNMAP answer: 0 if the regions of the caller's space changed, or a fault.
    #[tactic(auto, unfolding(cloak_model::specs::Hypercalls::remapped))]
    fn remapped(&mut self, slot: u32, done: Result<(), MapFault>) -> Went
        requires { IsSome (context_at self.old.contexts slot) }
        ensures steps { record { control = self.new; went = result } ≡ spec.remapped slot (context_of self.old slot)
            done self.old }
        ensures goes_on { result ≢ Went.Stopped }
        ensures same { SameResources self.old self.new }
    {
        let space = self.running(slot).space;
        match done {
            Ok(()) => {
                self.answer(slot, 0);
                Went::Remapped(space)
            }
            Err(fault) => self.answer(slot, fault_word(fault)),
        }
    }

    /// 2 MAP: resource x10 from x11 on, its pages from x12 on, x13 of them.
    #[tactic(auto, using(crate::proofs::Fitted::fits_with, crate::proofs::Freed::frees), unfolding(cloak_model::specs::Hypercalls::map_call))]
    fn map_call(&mut self, slot: u32) -> Went
        requires { IsSome (context_at self.old.contexts slot) }
        ensures steps { record { control = self.new; went = result } ≡ spec.map_call slot (context_of self.old slot)
            self.old }
        ensures goes_on { result ≢ Went.Stopped }
        ensures number { self.new.number ≡ self.old.number }
        ensures freed { (n : ℕ) → resource_at self.new.resources n ≡ None → resource_at self.old.resources n ≡ None }
    {
        let c = self.running(slot);
        let space = c.space;
        let region = Region {
            start: c.regs.get(11),
            pages: c.regs.get(13),
            resource: c.regs.get(10),
            first: c.regs.get(12),
        };
        let done = self.resources.map(space, region);
        self.remapped(slot, done)
    }

    /// 3 UNMAP: the region that starts at x10.
    #[tactic(auto, using(crate::proofs::Fitted::fits_with, crate::proofs::Freed::frees), unfolding(cloak_model::specs::Hypercalls::unmap_call))]
    fn unmap_call(&mut self, slot: u32) -> Went
        requires { IsSome (context_at self.old.contexts slot) }
        ensures steps { record { control = self.new; went = result } ≡ spec.unmap_call slot (context_of self.old slot)
            self.old }
        ensures goes_on { result ≢ Went.Stopped }
        ensures number { self.new.number ≡ self.old.number }
        ensures freed { (n : ℕ) → resource_at self.new.resources n ≡ None → resource_at self.old.resources n ≡ None }
    {
        let c = self.running(slot);
        let space = c.space;
        let start = c.regs.get(10);
        let done = self.resources.unmap(space, start);
        self.remapped(slot, done)
    }

    /// 4 FILE: file x10, of x11 pages.
    #[tactic(auto, using(crate::proofs::Fitted::fits_with, crate::proofs::Freed::frees), unfolding(cloak_model::specs::Hypercalls::file_call))]
    fn file_call(&mut self, slot: u32) -> Went
        requires { IsSome (context_at self.old.contexts slot) }
        ensures steps { record { control = self.new; went = result } ≡ spec.file_call slot (context_of self.old slot)
            self.old }
        ensures goes_on { result ≢ Went.Stopped }
        ensures number { self.new.number ≡ self.old.number }
        ensures freed { (n : ℕ) → resource_at self.new.resources n ≡ None → resource_at self.old.resources n ≡ None }
    {
        let c = self.running(slot);
        let number = c.regs.get(10);
        let pages = c.regs.get(11);
        let made = file_resource(&mut self.resources, number, pages);
        self.answer(slot, number_word(made))
    }

    /// 5 THREAD: a context in the caller's space at pc x10, with stack pointer x11 and argument x12.
    #[tactic(auto, using(crate::proofs::Stepping::other_slot, crate::proofs::Fitted::fits_slot), unfolding(cloak_model::specs::Hypercalls::thread_call, cloak_model::specs::Hypercalls::thread_at))]
    fn thread_call(&mut self, slot: u32) -> Went
        requires { IsSome (context_at self.old.contexts slot) }
        ensures steps { record { control = self.new; went = result } ≡ spec.thread_call slot
            (context_of self.old slot) self.old }
        ensures goes_on { result ≢ Went.Stopped }
        ensures same { SameResources self.old self.new }
    {
        let c = self.running(slot);
        let pc = c.regs.get(10);
        if pc % 4 != 0 {
            return self.answer(slot, fault_word(MapFault::BadArg));
        }
        let thread = Context::start(c.space, pc, c.regs.get(11), c.regs.get(12));
        self.reserved = true;
        match self.contexts.add(thread) {
            None => self.answer(slot, fault_word(MapFault::Full)),
            Some(free) => {
                let number = self.context_number(free);
                self.answer(slot, number)
            }
        }
    }

    /// 8 CALL: begins the call that the context is at, at the next instruction.
    #[tactic(auto, using(crate::proofs::Fitted::changes), unfolding(cloak_model::specs::Hypercalls::kernel_call, cloak_model::specs::Hypercalls::call_begun))]
    fn kernel_call(&mut self, slot: u32) -> Went
        requires { IsSome (context_at self.old.contexts slot) }
        ensures steps { record { control = self.new; went = result } ≡ spec.kernel_call slot
            (context_of self.old slot) self.old }
        ensures goes_on { result ≢ Went.Stopped }
        ensures same { SameResources self.old self.new }
    {
        let number = self.context_number(slot);
        self.reserved = true;
        let c = self.contexts.get_mut(slot);
        c.pc = c.pc.wrapping_add(4);
        match begin(c, &self.resources) {
            Err(fault) => {
                c.regs.set(10, fault_word(fault));
                Went::Stay
            }
            Ok(Begun::Copying) => Went::Stay,
            Ok(Begun::Leave) => Went::Leave(leave_hart(c, number, &Why::Call)),
        }
    }

    /// 6 FORK: the caller's space is copied, with its context.
    #[tactic(auto, using(crate::proofs::Fitted::spaces_fit), unfolding(cloak_model::specs::Hypercalls::fork_call, cloak_model::specs::Hypercalls::fork_told))]
    fn fork_call<M: PageSide>(&mut self, slot: u32, m: &mut M) -> Went
        requires used { IsSome (context_at self.old.contexts slot) }
        requires serves { Serves M.PageSide m.old self.old.number self.old.resources }
        ensures follows { Follows M.stands_for m.old m.new (record { control = self.new; went = result })
            (played (spec.fork_call slot (context_of self.old slot) self.old)) }
        ensures stopped_unchanged { result ≡ Went.Stopped → self.new ≡ self.old }
        ensures side { GoesOnServing M.PageSide self.new.resources m.old m.new }
        ensures number { self.new.number ≡ self.old.number }
    {
        self.reserved = true;
        match fork_space(
            &mut self.resources,
            &mut self.contexts,
            self.number,
            slot,
            m,
        ) {
            Forked::Refused(fault) => self.answer(slot, fault_word(fault)),
            Forked::Stopped => Went::Stopped,
            Forked::Child(ctx) => self.answer(slot, ctx.0),
        }
    }

    /// 7 EXIT: the context ends, and with the last one its space.
    #[tactic(auto, using(crate::proofs::Fitted::spaces_fit), unfolding(cloak_model::specs::Hypercalls::exit_call, cloak_model::specs::Hypercalls::end_told))]
    fn exit_call<M: PageSide>(&mut self, slot: u32, m: &mut M) -> Went
        requires used { IsSome (context_at self.old.contexts slot) }
        requires serves { Serves M.PageSide m.old self.old.number self.old.resources }
        ensures follows { Follows M.stands_for m.old m.new (record { control = self.new; went = result })
            (played (spec.exit_call slot (context_of self.old slot) self.old)) }
        ensures stopped_unchanged { result ≡ Went.Stopped → self.new ≡ self.old }
        ensures side { GoesOnServing M.PageSide self.new.resources m.old m.new }
        ensures number { self.new.number ≡ self.old.number }
    {
        let seen = shown(self.running(slot), self.context_number(slot), &Why::Exit);
        self.reserved = true;
        match end_context(
            &mut self.resources,
            &mut self.contexts,
            self.number,
            slot,
            m,
        ) {
            Ended::Kept => Went::Leave(seen),
            Ended::SpaceGone(space) => Went::SpaceGone(space, seen),
            Ended::Stopped => Went::Stopped,
        }
    }

    /// Makes the hypercall that the context of a slot is at.
    #[tactic(auto, unfolding(cloak_model::specs::Hypercalls::hypercall))]
    pub fn hypercall<M: PageSide>(&mut self, slot: u32, m: &mut M) -> Went
        requires used { IsSome (context_at self.old.contexts slot) }
        requires serves { Serves M.PageSide m.old self.old.number self.old.resources }
        ensures follows { Follows M.stands_for m.old m.new (record { control = self.new; went = result })
            (played (spec.hypercall (spec.hypercall_of (context_of self.old slot)) slot (context_of self.old slot)
            self.old)) }
        ensures stopped_unchanged { result ≡ Went.Stopped → self.new ≡ self.old }
        ensures side { GoesOnServing M.PageSide self.new.resources m.old m.new }
        ensures number { self.new.number ≡ self.old.number }
    {
        match self.running(slot).regs.get(17) {
            NEW => self.new_call(slot),
            MAP => self.map_call(slot),
            UNMAP => self.unmap_call(slot),
            FILE => self.file_call(slot),
            THREAD => self.thread_call(slot),
            FORK => self.fork_call(slot, m),
            EXIT => self.exit_call(slot, m),
            CALL => self.kernel_call(slot),
            _ => self.answer(slot, BAD_CALL),
        }
    }
}
