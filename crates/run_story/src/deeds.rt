//! What was done to a page, and to the frames that it was shown and presented in, up to the violation.
ghost use Rattle.cloak_model.specs.Items.{item_of};
ghost use Rattle.std.specs.Prelude.{◌≡◌, ◌≤◌, ◌<◌, ◌++◌, [], ◌∷◌, ℕ, List, IfOk, IfSome, Some, None, slice_get};
ghost use Rattle.cloak_base.specs.Pages as pages;
ghost use Rattle.cloak_model.specs.KernelAlone.{Outside, kernel_alone};
ghost use Rattle.cloak_model.specs.Parts.{KernelPart};
ghost use Rattle.cloak_model.specs.Record.{IsItem};
ghost use Rattle.cloak_model.specs.declared.image.Bundle.{Bundle};
ghost use Rattle.cloak_model.specs.Items.{Item as AnyItem};
ghost use Rattle.replayed_run.specs.Leading as leading;
ghost use Rattle.replayed_run.specs.Watching.{Watches, notes_of};
ghost use Rattle.run_story.specs.Carrying.{carrying_of};
ghost use Rattle.run_story.specs.Deeds as spec;
ghost use Rattle.run_story.specs.Gathering.{Gathers, GathersNext, KeepsLast};
ghost use Rattle.run_story.specs.Seeing.{HasRoom, KeepsDeeds, KeepsTarget, SeesAhead, SeesFrames, StandsAhead, ahead_events, ahead_move, change_more, ended_events, ended_move, seen_bytes};
ghost use Rattle.run_story.specs.declared.deeds.PageEvent.{PageEvent};
ghost use Rattle.run_story.specs.declared.presented.Presented.{Presented};

use crate::carriers::Carriers;
use crate::presented::Presented;
use alone_views::KernelStage;
use cloak_base::{NoMemory, PageId};
use cloak_model::{Bundle, Item};
use host_calls::Hart;
use replayed_run::{DiskCall, Showing, Watch, disk_call};
use std::alloc::Global;

/// A store to a frame: how many bytes it changed, and the first of them.
#[derive(Clone, Copy)]
pub struct FrameChange {
    pub place: u32,
    pub was: u8,
    pub now: u8,
    pub count: u32,
}

/// What was done.
#[derive(Clone, Copy)]
pub enum PageDeed {
    /// The page was shown in a frame, and not again.
    LastShown(Showing),
    /// A page was shown in a frame: the page in question, or another one in a frame of interest.
    Shown {
        page: PageId,
        frame: u32,
    },
    /// A hart wrote a frame to a block of the disk, or read a block into one.
    Moved {
        hart: usize,
        call: DiskCall,
    },
    /// A hart stored to a frame: the kernel, or the context that the hart is inside, where the kernel sees it.
    Stored {
        hart: usize,
        ctx: Option<u32>,
        frame: usize,
        change: FrameChange,
    },
    /// The address leads to another frame than before, or to none, by a store of the kernel or of a context.
    Leads {
        ctx: Option<u32>,
        address: u32,
        from: Option<usize>,
        to: Option<usize>,
    },
}

/// What was done in a step.
#[derive(Clone, Copy)]
pub struct PageEvent {
    pub step: u32,
    pub deed: PageDeed,
}

/// The most events that are kept: the last ones.
const MOST: usize = 16;

/// A frame of interest as the last step found it.
#[derive(Drop)]
struct SeenFrame {
    /// There was such a frame.
    is_there: bool,
    bytes: [u8; 4096],
}

/// What a step of the kernel is about to find and to do, or a store of a context.
#[derive(Clone, Copy)]
pub struct StepAhead {
    step: u32,
    hart: usize,
    /// The context that stores.
    ctx: Option<u32>,
    call: Option<DiskCall>,
    leads: Option<usize>,
}

/// The events of a page, and of the frames that it was shown and presented in.
#[derive(Drop)]
pub struct Deeds {
    target: Presented,
    /// The frame in which the page was last shown.
    shown_in: SeenFrame,
    /// The frame that was presented, if it is another one.
    presented_in: SeenFrame,
    /// The third frame into which bytes of the page were read, if there is one.
    third_in: SeenFrame,
    /// Where bytes of the page are.
    carriers: Carriers,
    events: Vec<PageEvent>,
    /// How many earlier events were left out.
    left_out: u64,
    /// Where the bytes that were found had last been shown, if they were.
    origin: Option<Showing>,
}

/// One byte more changed.
fn changed(change: Option<FrameChange>, place: u32, was: u8, now: u8) -> FrameChange
    requires count { IfSome change (λ c. c.count ≤ place) }
    requires place { place < 4096 }
    ensures { result ≡ change_more change place was now }
{
    match change {
        None => FrameChange {
            place,
            was,
            now,
            count: 1,
        },
        Some(first) => FrameChange {
            count: first.count + 1,
            ..first
        },
    }
}

/// How new bytes differ from old ones.
fn difference(old: &[u8; 4096], new: &[u8; 4096]) -> Option<FrameChange>
    ensures { result ≡ spec.change_of old.now new.now }
{
    let mut change: Option<FrameChange> = None;
    for place in 0..4096 {
        let (was, now) = (old[place as usize], new[place as usize]);
        if was != now {
            change = Some(changed(change, place, was, now));
        }
    }
    change
}

/// Both are one frame, or none.
fn same_frame(one: Option<usize>, other: Option<usize>) -> bool
    ensures { result ≡ spec.frame_eq one other }
{
    match one {
        None => other.is_none(),
        Some(one) => match other {
            None => false,
            Some(other) => one == other,
        },
    }
}

/// Both are one page.
#[tactic(auto, unfolding(cloak_base::specs::Pages::same_page))]
fn same_page(one: PageId, other: PageId) -> bool
    ensures { result ≡ pages.same_page one other }
{
    one.domain == other.domain && one.resource == other.resource && one.page == other.page
}

/// The frame in which the page was last shown, or the one that was presented.
fn frame_shown(presented: &Presented) -> usize
    ensures { result ≡ spec.shown_in presented.now }
{
    match presented.showing {
        Some(showing) => showing.frame as usize,
        None => presented.found.frame,
    }
}

/// The page was shown, and not another one.
fn is_shown(target: &Presented, showing: Option<Showing>) -> bool
    ensures { result ≡ spec.is_shown target.now showing }
{
    match showing {
        None => false,
        Some(Showing { page, .. }) => same_page(page, target.found.page),
    }
}

/// The call that a hart made, if it answers 0.
fn done_by(call: DiskCall, made: &Hart) -> Option<DiskCall>
    ensures { result ≡ spec.done_by (Some call) (Some made.now) }
{
    if made.regs.get(10) == 0 {
        Some(call)
    } else {
        None
    }
}

/// The block that a step moved, which was ahead.
fn moved_by(watch: &Watch, ahead: Option<StepAhead>) -> Option<DiskCall>
    ensures { (b : Bundle) (items : List AnyItem) → Watches b items watch.now →
        result ≡ ahead_move ahead (kernel_alone b.kernel items).kernel }
{
    let StepAhead { hart, call, .. } = ahead?;
    let call = call?;
    let made = watch.hart_at(hart)?;
    done_by(call, made)
}

impl SeenFrame {
    /// None was seen.
    fn new() -> SeenFrame {
        SeenFrame {
            is_there: false,
            bytes: [0; 4096],
        }
    }

    /// A frame as it is before a step.
    fn look(&mut self, watch: &Watch, frame: usize)
        ensures { (b : Bundle) (items : List AnyItem) → Watches b items watch.now →
            seen_bytes self.new ≡ slice_get (kernel_alone b.kernel items).kernel.ram frame }
    {
        match watch.frames().get(frame) {
            None => self.is_there = false,
            Some(bytes) => {
                self.is_there = true;
                self.bytes = *bytes;
            }
        }
    }

    /// What a step changed of it.
    fn change(&self, watch: &Watch, frame: usize) -> Option<FrameChange>
        ensures { (b : Bundle) (items : List AnyItem) → Watches b items watch.now → result
            ≡ spec.change_between (seen_bytes self.now) (slice_get (kernel_alone b.kernel items).kernel.ram frame) }
    {
        if !self.is_there {
            return None;
        }
        match watch.frames().get(frame) {
            None => None,
            Some(bytes) => difference(&self.bytes, bytes),
        }
    }
}

impl Deeds {
    /// None yet, of a run of this bundle.
    pub fn new(alloc: Global, bundle: &Bundle, target: Presented) -> Result<Deeds, NoMemory>
        ensures { IfOk result (Gathers bundle.now target []) }
    {
        let kernel = &bundle.kernel;
        Ok(Deeds {
            target,
            shown_in: SeenFrame::new(),
            presented_in: SeenFrame::new(),
            third_in: SeenFrame::new(),
            carriers: Carriers::new(
                alloc,
                kernel.frames as usize,
                kernel.disk.as_slice().len() / 4096,
            )?,
            events: Vec::new(alloc),
            left_out: 0,
            origin: None,
        })
    }

    /// The last events, in order.
    pub fn events(&self) -> &[PageEvent]
        ensures { result.now ≡ self.now.events.items }
    {
        self.events.as_slice()
    }

    /// How many earlier events were left out.
    pub fn left_out(&self) -> u64
        ensures { result ≡ self.now.left_out }
    {
        self.left_out
    }

    /// Where the bytes that were found had last been shown, if they were.
    pub fn origin(&self) -> Option<Showing>
        ensures { result ≡ self.now.origin }
    {
        self.origin
    }

    /// Leaves out the earliest event, if there is no room for one more.
    fn make_room(&mut self)
        ensures room { (all : List PageEvent) → KeepsLast all self.old → HasRoom all self.new }
        ensures same { KeepsTarget self.old self.new }
        ensures origin { self.new.origin ≡ self.old.origin }
    {
        if self.events.len() >= MOST {
            self.events.remove(0);
            self.left_out = self.left_out.saturating_add(1);
        }
    }

    /// Keeps an event.
    fn keep(&mut self, step: u32, deed: PageDeed) -> Result<(), NoMemory>
        ensures last { (all : List PageEvent) → KeepsLast all self.old →
            IfOk result (λ done. KeepsLast (all ++ spec.event step deed ∷ []) self.new) }
        ensures same { KeepsTarget self.old self.new }
        ensures origin { self.new.origin ≡ self.old.origin }
    {
        self.make_room();
        self.events.push(PageEvent { step, deed })?;
        Ok(())
    }

    /// The frame is one of those that the page was shown or presented in.
    fn is_of_interest(&self, frame: usize) -> bool
        ensures { result ≡ spec.is_of_interest self.now.target frame }
    {
        frame == self.target.found.frame || frame == frame_shown(&self.target)
    }

    /// Nothing more was shown of the page in question.
    fn is_last(&self, showing: &Showing) -> bool
        ensures { result ≡ spec.is_last self.now.target.showing showing.now }
    {
        match self.target.showing {
            Some(last) => {
                same_page(last.page, showing.page)
                    && last.frame == showing.frame
                    && last.step == showing.step
            }
            None => false,
        }
    }

    /// Bytes are shown: those that were found later, or others.
    fn note_origin(&mut self, showing: Showing)
        ensures { self.new ≡ record self.old {
          origin = spec.origin_after self.old.target self.old.origin (Some showing);
        } }
    {
        if showing.digest == self.target.digest {
            self.origin = Some(showing);
        }
    }

    /// A page is shown. It is shown again later, or is another one.
    fn note_shown(&mut self, showing: Showing) -> Result<(), NoMemory>
        ensures last { (all : List PageEvent) → KeepsLast all self.old →
            IfOk result (λ done. KeepsLast (all ++ spec.shown_events self.old.target showing) self.new) }
        ensures same { KeepsTarget self.old self.new }
        ensures origin { self.new.origin ≡ self.old.origin }
    {
        let Showing {
            page,
            frame,
            step,
            ..
        } = showing;
        if same_page(page, self.target.found.page) || self.is_of_interest(frame as usize) {
            self.keep(step, PageDeed::Shown { page, frame })
        } else {
            Ok(())
        }
    }

    /// A page is shown.
    fn note_page(&mut self, showing: Showing) -> Result<(), NoMemory>
        ensures last { (all : List PageEvent) → KeepsLast all self.old →
            IfOk result (λ done. KeepsLast (all ++ spec.showing_events self.old.target (Some showing)) self.new) }
        ensures same { KeepsTarget self.old self.new }
        ensures origin { self.new.origin ≡ spec.origin_after self.old.target self.old.origin (Some showing) }
    {
        self.note_origin(showing);
        if self.is_last(&showing) {
            self.keep(showing.step, PageDeed::LastShown(showing))
        } else {
            self.note_shown(showing)
        }
    }

    /// What an item shows of a page.
    fn note_showing(&mut self, showing: Option<Showing>) -> Result<(), NoMemory>
        ensures last { (all : List PageEvent) → KeepsLast all self.old →
            IfOk result (λ done. KeepsLast (all ++ spec.showing_events self.old.target showing) self.new) }
        ensures same { KeepsTarget self.old self.new }
        ensures origin { self.new.origin ≡ spec.origin_after self.old.target self.old.origin showing }
    {
        match showing {
            None => Ok(()),
            Some(showing) => self.note_page(showing),
        }
    }

    /// Where the address leads.
    fn leads(&self, watch: &Watch) -> Option<usize>
        ensures { (b : Bundle) (items : List AnyItem) → Watches b items watch.now →
            result ≡ spec.leads_in self.now.target (kernel_alone b.kernel items).kernel.ram }
    {
        watch.frame_for(
            self.target.tables,
            self.target.found.address,
            self.target.found.kind,
        )
    }

    /// Sees the frames of interest before a step.
    fn look(&mut self, watch: &Watch)
        ensures frames { (b : Bundle) (items : List AnyItem) → Watches b items watch.now →
            SeesFrames (kernel_alone b.kernel items).kernel.ram self.new }
        ensures same { KeepsDeeds self.old self.new }
    {
        let shown = frame_shown(&self.target);
        let presented = self.target.found.frame;
        self.shown_in.look(watch, shown);
        if shown != presented {
            self.presented_in.look(watch, presented);
        }
        if let Some(third) = self.carriers.third() {
            self.third_in.look(watch, third);
        }
    }

    /// What this hart is about to find and to do.
    fn step_ahead(&self, watch: &Watch, hart: usize, now: &Hart) -> StepAhead
        ensures step { result.step ≡ (notes_of watch.now).step }
        ensures hart { result.hart ≡ hart }
        ensures outside { result.ctx ≡ None }
        ensures call { (b : Bundle) (items : List AnyItem) → Watches b items watch.now →
            result.call ≡ leading.disk_call (kernel_alone b.kernel items).kernel.ram now.now }
        ensures leads { (b : Bundle) (items : List AnyItem) → Watches b items watch.now →
            result.leads ≡ spec.leads_in self.now.target (kernel_alone b.kernel items).kernel.ram }
    {
        StepAhead {
            step: watch.step(),
            hart,
            ctx: None,
            call: disk_call(watch.frames(), now),
            leads: self.leads(watch),
        }
    }

    /// What the hart of a number is about to find and to do, if it is there.
    fn hart_ahead(&mut self, watch: &Watch, hart: usize) -> Option<StepAhead>
        ensures ahead { (b : Bundle) (items : List AnyItem) → Watches b items watch.now →
            StandsAhead (spec.hart_events self.new.target (carrying_of self.new.carriers) (notes_of watch.now).step hart
            (slice_get (kernel_alone b.kernel items).kernel.harts hart) (kernel_alone b.kernel items).kernel)
            (spec.made_move (Outside hart) (kernel_alone b.kernel items).kernel)
            (kernel_alone b.kernel items).kernel self.new result }
        ensures same { KeepsDeeds self.old self.new }
    {
        match watch.hart_at(hart) {
            None => None,
            Some(now) => {
                self.look(watch);
                Some(self.step_ahead(watch, hart, now))
            }
        }
    }

    /// What the open step of the kernel is about to find and to do, if one is open.
    fn open_ahead(&mut self, watch: &Watch) -> Option<StepAhead>
        ensures ahead { (b : Bundle) (items : List AnyItem) → Watches b items watch.now →
            StandsAhead (spec.made_events self.new.target (carrying_of self.new.carriers) (notes_of watch.now).step
            (kernel_alone b.kernel items).stage (kernel_alone b.kernel items).kernel)
            (spec.made_move (kernel_alone b.kernel items).stage (kernel_alone b.kernel items).kernel)
            (kernel_alone b.kernel items).kernel self.new result }
        ensures same { KeepsDeeds self.old self.new }
    {
        match watch.stage() {
            KernelStage::Outside { hart } => self.hart_ahead(watch, hart),
            KernelStage::Between => None,
            KernelStage::Inside { .. } => None,
            KernelStage::Left => None,
        }
    }

    /// What a store of a context that this hart is inside is about to find and to do.
    fn store_ahead(&mut self, watch: &Watch, hart: usize, ctx: u32) -> Option<StepAhead>
        ensures ahead { (b : Bundle) (items : List AnyItem) → Watches b items watch.now →
            StandsAhead (spec.step_events self.new.target (carrying_of self.new.carriers) (notes_of watch.now).step hart
            (Some ctx) None (kernel_alone b.kernel items).kernel) (λ now. None) (kernel_alone b.kernel items).kernel
            self.new result }
        ensures same { KeepsDeeds self.old self.new }
    {
        self.look(watch);
        Some(StepAhead {
            step: watch.step(),
            hart,
            ctx: Some(ctx),
            call: None,
            leads: self.leads(watch),
        })
    }

    /// What a store of the context is about to find and to do whose step is open, if one is.
    fn put_ahead(&mut self, watch: &Watch) -> Option<StepAhead>
        ensures ahead { (b : Bundle) (items : List AnyItem) → Watches b items watch.now →
            StandsAhead (spec.put_events self.new.target (carrying_of self.new.carriers) (notes_of watch.now).step
            (kernel_alone b.kernel items).stage (kernel_alone b.kernel items).kernel) (λ now. None)
            (kernel_alone b.kernel items).kernel self.new result }
        ensures same { KeepsDeeds self.old self.new }
    {
        match watch.stage() {
            KernelStage::Inside { hart, ctx } => self.store_ahead(watch, hart, ctx),
            KernelStage::Between => None,
            KernelStage::Outside { .. } => None,
            KernelStage::Left => None,
        }
    }

    /// What the item is about to do, or the step that it ends.
    fn ahead(&mut self, watch: &Watch, item: &Item<'_>) -> Option<StepAhead>
        ensures ahead { (b : Bundle) (items : List AnyItem) → Watches b items watch.now →
            StandsAhead (ended_events b self.new.target (carrying_of self.new.carriers) items (item_of item.now))
            (ended_move b items (item_of item.now)) (kernel_alone b.kernel items).kernel self.new result }
        ensures same { KeepsDeeds self.old self.new }
    {
        match item {
            Item::Step { .. } => self.open_ahead(watch),
            Item::Put { .. } => self.put_ahead(watch),
            Item::Cipher { .. }
            | Item::Leave(_)
            | Item::Close { .. }
            | Item::End
            | Item::Ok { .. }
            | Item::Absent { .. }
            | Item::Word { .. }
            | Item::Timer { .. }
            | Item::Resume { .. }
            | Item::Stopped { .. }
            | Item::Ended { .. } => None,
        }
    }

    /// What was changed of a frame, unless a block was called for.
    fn note_change(
        &mut self,
        ahead: &StepAhead,
        frame: usize,
        change: Option<FrameChange>,
    ) -> Result<(), NoMemory>
        ensures last { (all : List PageEvent) → KeepsLast all self.old → IfOk result (λ done. KeepsLast
            (all ++ spec.change_events ahead.now.step ahead.now.hart ahead.now.ctx ahead.now.call frame change) self.new) }
        ensures same { KeepsTarget self.old self.new }
        ensures origin { self.new.origin ≡ self.old.origin }
    {
        let StepAhead {
            step,
            hart,
            ctx,
            call,
            ..
        } = *ahead;
        match call {
            Some(_) => Ok(()),
            None => match change {
                None => Ok(()),
                Some(change) => {
                    let deed = PageDeed::Stored {
                        hart,
                        ctx,
                        frame,
                        change,
                    };
                    self.keep(step, deed)
                }
            },
        }
    }

    /// A block that a hart moved, to or from a frame of interest or a place that has bytes of the page.
    fn note_moving(&mut self, ahead: &StepAhead, moved: Option<DiskCall>) -> Result<(), NoMemory>
        ensures last { (all : List PageEvent) → KeepsLast all self.old → IfOk result (λ done. KeepsLast
            (all ++ spec.moving_events self.old.target (carrying_of self.old.carriers) ahead.now.step ahead.now.hart moved)
            self.new) }
        ensures same { KeepsTarget self.old self.new }
        ensures origin { self.new.origin ≡ self.old.origin }
    {
        let (step, hart) = (ahead.step, ahead.hart);
        match moved {
            None => Ok(()),
            Some(call) => {
                if self.is_of_interest(call.frame) || self.carriers.has(call) {
                    self.keep(step, PageDeed::Moved { hart, call })
                } else {
                    Ok(())
                }
            }
        }
    }

    /// What a step changed of the frame in which the page was last shown.
    fn note_shown_in(&mut self, watch: &Watch, ahead: &StepAhead) -> Result<(), NoMemory>
        ensures last { (b : Bundle) (items : List AnyItem) (ram : List (List ℕ)) (all : List PageEvent) →
            Watches b items watch.now → SeesFrames ram self.old → KeepsLast all self.old →
            IfOk result (λ done. KeepsLast (all ++ spec.change_events ahead.now.step ahead.now.hart ahead.now.ctx ahead.now.call
            (spec.shown_in self.old.target) (spec.frame_change ram (kernel_alone b.kernel items).kernel.ram
            (spec.shown_in self.old.target))) self.new) }
        ensures same { KeepsTarget self.old self.new }
        ensures origin { self.new.origin ≡ self.old.origin }
    {
        let frame = frame_shown(&self.target);
        let change = self.shown_in.change(watch, frame);
        self.note_change(ahead, frame, change)
    }

    /// What a step changed of the frame that was presented, if it is another one.
    fn note_presented(&mut self, watch: &Watch, ahead: &StepAhead) -> Result<(), NoMemory>
        ensures last { (b : Bundle) (items : List AnyItem) (ram : List (List ℕ)) (all : List PageEvent) →
            Watches b items watch.now → SeesFrames ram self.old → KeepsLast all self.old →
            IfOk result (λ done. KeepsLast (all ++ spec.presented_events self.old.target ahead.now.step ahead.now.hart
            ahead.now.ctx ahead.now.call ram (kernel_alone b.kernel items).kernel.ram) self.new) }
        ensures same { KeepsTarget self.old self.new }
        ensures origin { self.new.origin ≡ self.old.origin }
    {
        let frame = self.target.found.frame;
        if frame_shown(&self.target) == frame {
            Ok(())
        } else {
            let change = self.presented_in.change(watch, frame);
            self.note_change(ahead, frame, change)
        }
    }

    /// What a step changed of a third frame, into which bytes of the page were read.
    fn note_third(&mut self, watch: &Watch, ahead: &StepAhead) -> Result<(), NoMemory>
        ensures last { (b : Bundle) (items : List AnyItem) (ram : List (List ℕ)) (all : List PageEvent) →
            Watches b items watch.now → SeesFrames ram self.old → KeepsLast all self.old →
            IfOk result (λ done. KeepsLast (all ++ spec.third_events (carrying_of self.old.carriers).third ahead.now.step
            ahead.now.hart ahead.now.ctx ahead.now.call ram (kernel_alone b.kernel items).kernel.ram) self.new) }
        ensures same { KeepsTarget self.old self.new }
        ensures origin { self.new.origin ≡ self.old.origin }
    {
        match self.carriers.third() {
            None => Ok(()),
            Some(frame) => {
                let change = self.third_in.change(watch, frame);
                self.note_change(ahead, frame, change)
            }
        }
    }

    /// Where the address leads after a step.
    fn note_leads(&mut self, watch: &Watch, ahead: &StepAhead) -> Result<(), NoMemory>
        ensures last { (b : Bundle) (items : List AnyItem) (all : List PageEvent) → Watches b items watch.now →
            KeepsLast all self.old → IfOk result (λ done. KeepsLast (all ++ spec.leading_events self.old.target
            ahead.now.step ahead.now.ctx ahead.now.leads (spec.leads_in self.old.target (kernel_alone b.kernel items).kernel.ram))
            self.new) }
        ensures same { KeepsTarget self.old self.new }
        ensures origin { self.new.origin ≡ self.old.origin }
    {
        let (from, to) = (ahead.leads, self.leads(watch));
        if same_frame(from, to) {
            Ok(())
        } else {
            let (ctx, address) = (ahead.ctx, self.target.found.address);
            let deed = PageDeed::Leads {
                ctx,
                address,
                from,
                to,
            };
            self.keep(ahead.step, deed)
        }
    }

    /// What the kernel's step or a store did, once it is made, with the block that it moved.
    fn note_made(
        &mut self,
        watch: &Watch,
        ahead: &StepAhead,
        moved: Option<DiskCall>,
    ) -> Result<(), NoMemory>
        ensures last { (b : Bundle) (items : List AnyItem) (was : KernelPart) (all : List PageEvent) →
            Watches b items watch.now → SeesAhead was.ram self.old (Some ahead.now) → KeepsLast all self.old →
            moved ≡ ahead_move (Some ahead.now) (kernel_alone b.kernel items).kernel →
            IfOk result (λ done. KeepsLast (all ++ ahead_events self.old.target (carrying_of self.old.carriers)
            (Some ahead.now) was (kernel_alone b.kernel items).kernel) self.new) }
        ensures same { KeepsTarget self.old self.new }
        ensures origin { self.new.origin ≡ self.old.origin }
    {
        self.note_moving(ahead, moved)?;
        self.note_shown_in(watch, ahead)?;
        self.note_presented(watch, ahead)?;
        self.note_third(watch, ahead)?;
        self.note_leads(watch, ahead)
    }

    /// What the kernel's step or a store did, if one was ahead, with the block that it moved.
    fn note_step(
        &mut self,
        watch: &Watch,
        ahead: Option<StepAhead>,
        moved: Option<DiskCall>,
    ) -> Result<(), NoMemory>
        ensures last { (b : Bundle) (items : List AnyItem) (was : KernelPart) (all : List PageEvent) →
            Watches b items watch.now → SeesAhead was.ram self.old ahead → KeepsLast all self.old →
            moved ≡ ahead_move ahead (kernel_alone b.kernel items).kernel →
            IfOk result (λ done. KeepsLast (all ++ ahead_events self.old.target (carrying_of self.old.carriers) ahead was
            (kernel_alone b.kernel items).kernel) self.new) }
        ensures same { KeepsTarget self.old self.new }
        ensures origin { self.new.origin ≡ self.old.origin }
    {
        match ahead {
            None => Ok(()),
            Some(ahead) => self.note_made(watch, &ahead, moved),
        }
    }

    /// A block was moved, if one was.
    fn carry_moved(&mut self, moved: Option<DiskCall>)
        ensures same { self.new ≡ record self.old { carriers = self.new.carriers } }
        ensures carries { carrying_of self.new.carriers ≡ spec.moved self.old.target moved (carrying_of self.old.carriers) }
    {
        match moved {
            None => {}
            Some(call) => {
                let known = self.is_of_interest(call.frame);
                self.carriers.note_move(known, call);
            }
        }
    }

    /// Follows where bytes of the page are, by what an item shows and by the block that was moved in the step that it ends.
    fn carry(&mut self, item: &Item<'_>, showing: Option<Showing>, moved: Option<DiskCall>)
        ensures same { self.new ≡ record self.old { carriers = self.new.carriers } }
        ensures carries { carrying_of self.new.carriers ≡
            spec.carrying_after self.old.target (item_of item.now) showing moved (carrying_of self.old.carriers) }
    {
        match item {
            Item::Cipher { frame, .. } => {
                let is_it = is_shown(&self.target, showing);
                self.carriers.show(*frame as usize, is_it);
            }
            Item::Step { .. } => self.carry_moved(moved),
            Item::Put { .. }
            | Item::Leave(_)
            | Item::Close { .. }
            | Item::End
            | Item::Ok { .. }
            | Item::Absent { .. }
            | Item::Word { .. }
            | Item::Timer { .. }
            | Item::Resume { .. }
            | Item::Stopped { .. }
            | Item::Ended { .. } => {}
        }
    }

    /// Takes the next item, and notes what it shows of a page or stores, and what the kernel's step did that it ends. Returns
    /// that it fits.
    pub fn take(&mut self, watch: &mut Watch, item: &Item<'_>) -> Result<bool, NoMemory>
        ensures { (b : Bundle) (p : Presented) (items : List AnyItem) → IsItem (item_of item.now) → Watches b items watch.old →
            Gathers b p items self.old → GathersNext b p items (item_of item.now) watch.new self.new result }
    {
        let ahead = self.ahead(watch, item);
        match watch.take(item) {
            Ok(showing) => {
                let moved = moved_by(watch, ahead);
                self.note_showing(showing)?;
                self.note_step(watch, ahead, moved)?;
                self.carry(item, showing, moved);
                Ok(true)
            }
            Err(_) => Ok(false),
        }
    }
}
