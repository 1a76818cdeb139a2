//! What is asked for the frames of whole resources.
ghost use Rattle.std.specs.Prelude.{◌≡◌, ◌<◌, ℕ, slice_index_or, false, true};
ghost use Rattle.cloak_base.specs.Pages.{is_of};
ghost use Rattle.cloak_base.specs.declared.names.PageId.{PageId as AnyPage};
ghost use Rattle.cloak_model.specs.AskPages as inside;
ghost use Rattle.shadow_fold.specs.Fold.{holds};

use crate::program_side::ProgramSide;
use crate::side::Side;
use cloak_base::{Frame, PageId};
use cloak_model::{Answer, Emit};

/// Whether the resource of this number is marked.
fn is_mark_set(resources: &[bool; 16], n: u32) -> bool
    ensures { result ≡ slice_index_or resources.now n false }
{
    if n < 16 { resources[n as usize] } else { false }
}

/// Whether this is owed a page of one of the marked resources of a domain.
fn is_marked(domain: u32, resources: &[bool; 16], owed: Option<PageId>) -> bool
    ensures { result ≡ inside.is_marked domain resources.now owed }
{
    match owed {
        None => false,
        Some(q) => q.domain == domain && is_mark_set(resources, q.resource),
    }
}

/// Whether this is a page of a resource of a domain.
#[tactic(auto, unfolding(cloak_base::specs::Pages::is_of))]
fn is_page_of(domain: u32, resource: u32, held: Option<PageId>) -> bool
    ensures { result ≡ holds (is_of domain resource) held }
{
    match held {
        None => false,
        Some(q) => q.domain == domain && q.resource == resource,
    }
}

impl<'m, 'e, E: Emit> Side<'m, 'e, E> {
    ghost use Rattle.cloak_model.specs.Asking.{Keeps};
    ghost use Rattle.cloak_model.specs.AskPages.{settled_if_marked, ask_forget};
    ghost use Rattle.cloak_pager.specs.State.{held_in, owed_at, IsNoneOwed, IsNoneHeld};
    ghost use Rattle.cloaked_side.specs.Holding.{frames_of, domains_in};
    ghost use Rattle.cloaked_side.specs.Seeing.{Becomes, FollowsAlways, ShowsOn, StaysWithin};
    ghost use Rattle.cloaked_side.specs.Tracking.{Tracks, TracksBy, touched_if};
    ghost use Rattle.shadow_fold.specs.Fold.{Fold, touched_where};

    /// Settles a frame if it is owed a page of one of the marked resources.
    pub(crate) fn clear_frame(&mut self, domain: u32, resources: &[bool; 16], f: Frame)
        requires { f.0 < frames_of self.old.memory.now }
        ensures sees { Becomes E.gave self.old self.new (settled_if_marked domain resources.now f.0) }
        ensures keeps { Keeps (StaysWithin E.gave) self.old self.new }
        ensures same_count { frames_of self.new.memory.now ≡ frames_of self.old.memory.now }
        ensures cleared { inside.is_marked domain resources.now (owed_at self.new.memory.now.pager f.0) ≡ false }
    {
        if is_marked(domain, resources, self.memory.owed_page(f)) {
            self.settle(f);
        }
    }

    /// Brings a frame outside if it holds a page of a resource of which none is owed. The frame shows what was last
    /// shown of the page, without a draw and without an item.
    fn empty_frame(&mut self, domain: u32, resource: u32, f: Frame)
        requires inside { f.0 < frames_of self.old.memory.now }
        requires cleared { IsNoneOwed self.old.memory.now.pager domain resource }
        ensures shows { ShowsOn E.gave self.old self.new }
        ensures tracks { (s : Fold) → Tracks self.old.memory.now s → Tracks self.new.memory.now
            (touched_if (holds (is_of domain resource) (s.held f.0)) f.0 s) }
        ensures keeps { Keeps (StaysWithin E.gave) self.old self.new }
        ensures same_count { frames_of self.new.memory.now ≡ frames_of self.old.memory.now }
        ensures away { (q : AnyPage) → held_in self.new.memory.now.pager f.0 ≡ Some q →
            is_of domain resource q ≡ false }
    {
        if is_page_of(domain, resource, self.memory.pager.holds(f)) {
            self.settle(f);
        }
    }

    /// Brings outside what holds pages of a resource of which no frame is owed one.
    pub(crate) fn empty_frames(&mut self, domain: u32, resource: u32)
        requires cleared { IsNoneOwed self.old.memory.now.pager domain resource }
        ensures shows { ShowsOn E.gave self.old self.new }
        ensures tracks { TracksBy self.old.memory.now self.new.memory.now (touched_where (is_of domain resource)) }
        ensures keeps { Keeps (StaysWithin E.gave) self.old self.new }
        ensures away { IsNoneHeld self.new.memory.now.pager domain resource }
    {
        let count = self.memory.pager.count();
        for i in 0..count {
            self.empty_frame(domain, resource, Frame(i));
        }
        self.memory.pager.whole();
    }

    /// Drops the pages of a resource of which no frame is owed one. The frames that held one are brought outside first.
    pub(crate) fn drop_resource(&mut self, domain: u32, resource: u32)
        requires domain { domain < domains_in self.old.memory.now }
        requires resource { resource < 16 }
        requires cleared { IsNoneOwed self.old.memory.now.pager domain resource }
        ensures told { FollowsAlways E.gave self.old self.new tt (ask_forget domain resource) }
        ensures keeps { Keeps (StaysWithin E.gave) self.old self.new }
        ensures away { IsNoneHeld self.new.memory.now.pager domain resource }
    {
        self.empty_frames(domain, resource);
        self.memory.pager.drop_pages(domain, resource)
    }
}

impl<'m, 'e, E: Emit> ProgramSide<'m, 'e, E> {
    ghost use Rattle.cloak_model.specs.Asking.{Keeps};
    ghost use Rattle.cloak_model.specs.AskPages.{ask_clear};
    ghost use Rattle.cloak_pager.specs.State.{IsNoneOwed};
    ghost use Rattle.cloaked_side.specs.Seeing.{FollowsAlways, StaysWithin};

    /// Settles the frames that are owed pages of the marked resources, by rising number, up to a missing draw.
    pub(crate) fn clear_frames(&mut self, domain: u32, resources: &[bool; 16]) -> Answer
        ensures told { FollowsAlways E.gave self.old.side self.new.side result (ask_clear domain resources.now) }
        ensures keeps { Keeps (StaysWithin E.gave) self.old.side self.new.side }
        ensures cleared { result ≡ Answer.Ok → (r : ℕ) → slice_index_or resources.now r false ≡ true →
            IsNoneOwed self.new.side.memory.now.pager domain r }
    {
        let memory = &mut *self.side.memory;
        let count = memory.pager.count();
        for i in 0..count {
            self.side.clear_frame(domain, resources, Frame(i));
            if self.side.memory.missed {
                return self.answer(Answer::Stopped);
            }
        }
        let memory = &mut *self.side.memory;
        memory.pager.whole();
        self.answer(Answer::Ok)
    }
}
