//! A run as it is made again from the items of its record: the kernel, the programs, what is noted of them, and which page each
//! frame shows.
ghost use Rattle.cloak_model.specs.Items.{item_of};
ghost use Rattle.std.specs.Prelude.{◌≡◌, ◌/◌, ◌*◌, ◌++◌, ◌&&◌, ◌||◌, [], ◌∷◌, List, IfOk, false, not, option_copied, slice_get};
ghost use Rattle.cloak_model.specs.Bundle.{IsInGrammar};
ghost use Rattle.cloak_model.specs.KernelAlone.{kernel_alone, kernel_hart};
ghost use Rattle.cloak_model.specs.Record.{IsItem};
ghost use Rattle.cloak_model.specs.declared.image.Bundle.{Bundle};
ghost use Rattle.cloak_model.specs.Items.{Item as AnyItem};
ghost use Rattle.alone_views.specs.KernelStages.{stood_stage};
ghost use Rattle.replayed_run.specs.Alone as alone;
ghost use Rattle.replayed_run.specs.Alone.{standing_told};
ghost use Rattle.replayed_run.specs.ContextsTold.{table_of, told_of};
ghost use Rattle.replayed_run.specs.Leading as leading;
ghost use Rattle.replayed_run.specs.Leading.{frame_for};
ghost use Rattle.replayed_run.specs.Questions.{questioned_in};
ghost use Rattle.replayed_run.specs.Machines.{StandAlone};
ghost use Rattle.replayed_run.specs.Noted as noted;
ghost use Rattle.replayed_run.specs.Noted.{notes_after};
ghost use Rattle.replayed_run.specs.PagesTold as paging;
ghost use Rattle.replayed_run.specs.PagesTold.{paged_in, pages_after, pages_of, showing_in, showing_told};
ghost use Rattle.replayed_run.specs.Watching.{KeepsRun, PagesNext, WatchTakes, WatchTook, Watches, notes_of};

use crate::contexts::{FirstTable, ToldContext};
use crate::frames::{PresentedPage, Tables};
use crate::machines::{HartWords, Machines, StandingContext};
use crate::notes::{Asking, Notes, asked_from, halted_from};
use crate::pages::{Pages, Showing};
use crate::questions::Questions;
use alone_views::{AskedAccess, KernelStage, Unfit};
use cloak_base::{Kind, NoMemory};
use cloak_model::{Bundle, Item};
use host_calls::Hart;
use sha2::{Digest, Sha256};
use std::alloc::Global;

/// A run as far as its items were taken.
#[derive(Drop)]
pub struct Watch {
    machines: Machines,
    notes: Notes,
    pages: Pages,
    questions: Questions,
}

/// Every byte is zero.
fn is_wiped(bytes: &[u8; 4096]) -> bool
    ensures { result ≡ noted.is_wiped bytes.now }
{
    bytes.iter().all(|byte| *byte == 0)
}

/// The space is left, also by one context more.
fn without(left: bool, inside: bool) -> bool
    ensures { result ≡ left && not inside }
{
    left && !inside
}

impl Watch {
    /// The run of a bundle before its first item.
    pub fn open(alloc: Global, bundle: &Bundle) -> Result<Watch, NoMemory>
        requires { IsInGrammar bundle.now }
        ensures { IfOk result (Watches bundle.now []) }
    {
        Ok(Watch {
            machines: Machines::open(alloc, bundle)?,
            notes: Notes::new(),
            pages: Pages::open(alloc, bundle.kernel.frames, bundle.programs.as_slice())?,
            questions: Questions::none(),
        })
    }

    /// The number of the last step, 0 before the first.
    pub fn step(&self) -> u32
        ensures { result ≡ (notes_of self.now).step }
    {
        self.notes.step
    }

    /// Where the items of the kernel stand.
    pub fn stage(&self) -> KernelStage
        ensures { (b : Bundle) (items : List AnyItem) → Watches b items self.now →
            stood_stage result ≡ (kernel_alone b.kernel items).stage }
    {
        self.machines.stage()
    }

    /// What a hart says as it asks to resume a context.
    pub fn words_of(&self, hart: usize) -> HartWords
        ensures { (b : Bundle) (items : List AnyItem) → Watches b items self.now →
            result ≡ alone.words_of (kernel_hart (kernel_alone b.kernel items).kernel hart) }
    {
        self.machines.words_of(hart)
    }

    /// The hart of a number.
    pub fn hart_at(&self, number: usize) -> Option<&Hart>
        ensures { (b : Bundle) (items : List AnyItem) → Watches b items self.now →
            option_copied result ≡ slice_get (kernel_alone b.kernel items).kernel.harts number }
    {
        self.machines.hart_at(number)
    }

    /// The page tables of the hart whose step is open.
    pub fn tables(&self) -> Option<Tables>
        ensures { (b : Bundle) (items : List AnyItem) → Watches b items self.now →
            result ≡ leading.tables_in (kernel_alone b.kernel items) }
    {
        self.machines.tables()
    }

    /// The frames as the kernel sees them.
    pub fn frames(&self) -> &[[u8; 4096]]
        ensures { (b : Bundle) (items : List AnyItem) → Watches b items self.now →
            result.now ≡ (kernel_alone b.kernel items).kernel.ram }
    {
        self.machines.frames()
    }

    /// The frame that an address of a program leads to.
    pub fn frame_for(&self, tables: Tables, address: u32, kind: Kind) -> Option<usize>
        ensures { (b : Bundle) (items : List AnyItem) → Watches b items self.now →
            result ≡ frame_for (kernel_alone b.kernel items).kernel.ram tables address kind }
    {
        self.machines.frame_for(tables, address, kind)
    }

    /// Which page each frame holds, and what was shown of them.
    pub fn pages(&self) -> &Pages
        ensures { (b : Bundle) (items : List AnyItem) → Watches b items self.now →
            pages_of result.now ≡ (paged_in b items).pages }
    {
        &self.pages
    }

    /// The context for which a hart asked in the step that ended last, if the record has no resume of it.
    pub fn asked(&self) -> Option<Asking>
        ensures { result ≡ (notes_of self.now).asked }
    {
        self.notes.asked
    }

    /// A draw was missing: for a frame, which was shown as zeros, or for a question that was stopped and ended no program.
    pub fn lacks_draw(&self) -> bool
        ensures { result ≡ noted.lacks_draw (notes_of self.now) }
    {
        self.notes.has_missed || self.notes.is_stopped
    }

    /// The value with which the step that ended last halted.
    pub fn halted(&self) -> Option<u32>
        ensures { result ≡ (notes_of self.now).halted }
    {
        self.notes.halted
    }

    /// There is a program of this number.
    pub fn has_program(&self, domain: u32) -> bool
        ensures { (b : Bundle) (items : List AnyItem) → Watches b items self.now →
            result ≡ alone.has_program b domain }
    {
        (domain as usize) < self.machines.programs.len()
    }

    /// What the record tells of a context.
    pub fn told(&self, ctx: u32) -> Option<ToldContext>
        ensures { result ≡ told_of (notes_of self.now).contexts ctx }
    {
        self.notes.contexts.told(ctx)
    }

    /// The page table under which a space was first resumed; the program's spaces are counted from 8 times its number on.
    pub fn table(&self, space: u32) -> Option<FirstTable>
        ensures { result ≡ table_of (notes_of self.now).contexts space }
    {
        self.notes.contexts.table(space)
    }

    /// A context, if there is one of this number.
    pub fn context(&self, ctx: u32) -> Option<StandingContext>
        ensures { (b : Bundle) (items : List AnyItem) → StandAlone b items self.now.machines →
            result ≡ standing_told b items ctx }
    {
        self.machines.context(ctx)
    }

    /// The page of the last question, and the frame in which the kernel presents it.
    pub fn presented(&self) -> Option<PresentedPage>
        ensures { (b : Bundle) (items : List AnyItem) → Watches b items self.now →
            result ≡ leading.presented_by (kernel_alone b.kernel items) (questioned_in b items).questions.last }
    {
        self.machines.presented(self.questions.last)
    }

    /// A context is in this space.
    fn is_in_space(&self, ctx: u32, space: u32) -> bool
        ensures { (b : Bundle) (items : List AnyItem) → StandAlone b items self.now.machines →
            result ≡ noted.is_in_space space (standing_told b items ctx) }
    {
        match self.context(ctx) {
            Some(context) => context.space == space,
            None => false,
        }
    }

    /// No context of a program is in this space.
    fn is_left(&self, space: u32) -> bool
        ensures { (b : Bundle) (items : List AnyItem) → StandAlone b items self.now.machines →
            result ≡ noted.is_left b items space 8 }
    {
        let first = space / 8 * 8;
        let mut left = true;
        for slot in 0..8 {
            left = without(left, self.is_in_space(first + slot, space));
        }
        left
    }

    /// A context was resumed.
    fn note_resume(&mut self, ctx: u32)
        ensures notes { (b : Bundle) (items : List AnyItem) → StandAlone b items self.old.machines →
            self.new.notes ≡ noted.resumed_notes b items self.old.notes ctx }
        ensures machines { self.new.machines ≡ self.old.machines }
        ensures pages { self.new.pages ≡ self.old.pages }
    {
        self.notes.has_resumed = true;
        if let KernelStage::Outside { hart } = self.machines.stage() {
            if let Some(context) = self.context(ctx) {
                let satp = self.machines.words_of(hart).satp;
                let step = self.notes.step;
                self.notes.contexts.resume(ctx, context.space, satp, step);
            }
        }
    }

    /// A context left. If it ended, its space may have ended with it.
    fn note_leave(&mut self, ctx: u32)
        ensures notes { (b : Bundle) (items : List AnyItem) → StandAlone b items self.old.machines →
            self.new.notes ≡ noted.left_notes b items self.old.notes ctx }
        ensures machines { self.new.machines ≡ self.old.machines }
        ensures pages { self.new.pages ≡ self.old.pages }
    {
        if self.context(ctx).is_some() {
            return;
        }
        if let Some(was) = self.told(ctx) {
            let alone = self.is_left(was.space);
            let step = self.notes.step;
            self.notes.contexts.end(ctx, was, step, alone);
        }
    }

    /// A step ended, before which the kernel was at this stage.
    fn note_end(&mut self, stage: KernelStage)
        ensures notes { self.new.notes ≡ record self.old.notes {
          asked = noted.asked_unless self.old.notes.has_resumed (stood_stage stage) self.old.machines.kernel.ending;
          halted = noted.halted_from (stood_stage stage) (λ hart. self.old.machines.kernel.ending);
        } }
        ensures machines { self.new.machines ≡ self.old.machines }
        ensures pages { self.new.pages ≡ self.old.pages }
    {
        self.notes.asked = if self.notes.has_resumed {
            None
        } else {
            asked_from(stage, self.machines.kernel.ending())
        };
        self.notes.halted = halted_from(stage, self.machines.kernel.ending());
    }

    /// A step begins.
    fn note_begin(&mut self, number: u32)
        ensures notes { self.new.notes ≡ record self.old.notes { step = number; has_resumed = false } }
        ensures machines { self.new.machines ≡ self.old.machines }
        ensures pages { self.new.pages ≡ self.old.pages }
    {
        self.notes.step = number;
        self.notes.has_resumed = false;
    }

    /// A frame is shown, as zeros if its page found no draw.
    fn note_missed(&mut self, bytes: &[u8; 4096])
        ensures notes { self.new.notes ≡ record self.old.notes {
          has_missed = self.old.notes.has_missed || noted.is_wiped bytes.now;
        } }
        ensures machines { self.new.machines ≡ self.old.machines }
        ensures pages { self.new.pages ≡ self.old.pages }
    {
        if is_wiped(bytes) {
            self.notes.has_missed = true;
        }
    }

    /// Notes an item that the machines took, before which the kernel was at this stage.
    fn note(&mut self, stage: KernelStage, item: &Item<'_>)
        ensures notes { (b : Bundle) (items : List AnyItem) → WatchTook b items (item_of item.now) (stood_stage stage) self.old →
            self.new.notes ≡ notes_after b items (items ++ (item_of item.now) ∷ []) self.old.notes (item_of item.now) }
        ensures machines { self.new.machines ≡ self.old.machines }
        ensures pages { self.new.pages ≡ self.old.pages }
    {
        match item {
            Item::Step { number } => {
                self.note_end(stage);
                self.note_begin(*number);
            }
            Item::Close { .. } => self.note_end(stage),
            Item::Resume { ctx, .. } => self.note_resume(*ctx),
            Item::Leave(shown) => self.note_leave(shown.ctx),
            Item::Cipher { bytes, .. } => self.note_missed(bytes),
            Item::Stopped { .. } => self.notes.is_stopped = true,
            Item::Ended { .. } => self.notes.is_stopped = false,
            Item::Put { .. }
            | Item::End
            | Item::Ok { .. }
            | Item::Absent { .. }
            | Item::Word { .. }
            | Item::Timer { .. } => {}
        }
    }

    /// A frame is shown. Returns what it shows of a page.
    fn note_cipher(&mut self, frame: u32, bytes: &[u8; 4096]) -> Option<Showing>
        ensures run { KeepsRun self.old self.new }
        ensures pages { pages_of self.new.pages ≡
            paging.after_cipher (pages_of self.old.pages) (notes_of self.old).step frame bytes.now }
        ensures shows { result ≡ paging.cipher_showing (pages_of self.old.pages) (notes_of self.old).step frame bytes.now }
    {
        if is_wiped(bytes) {
            self.pages.wipe(frame);
            return None;
        }
        let digest = Sha256::digest(bytes.as_slice());
        self.pages.show(frame, self.notes.step, digest)
    }

    /// A program was granted this question.
    fn note_grant(&mut self, asked: AskedAccess)
        ensures run { KeepsRun self.old self.new }
        ensures pages { (b : Bundle) (items : List AnyItem) → StandAlone b items self.old.machines →
            pages_of self.new.pages ≡ paging.after_grant
            (leading.presented_by (kernel_alone b.kernel items) asked) (pages_of self.old.pages) }
    {
        if let Some(found) = self.machines.presented(asked) {
            self.pages.reach(found.page, found.frame);
        }
    }

    /// A context left. If it is not there any more, what was shown of pages that ended with it is of no more use.
    fn note_end_of_pages(&mut self, ctx: u32)
        ensures run { KeepsRun self.old self.new }
        ensures pages { (b : Bundle) (items : List AnyItem) → StandAlone b items self.old.machines →
            pages_of self.new.pages ≡ paging.after_leave b items ctx (standing_told b items ctx) (pages_of self.old.pages) }
    {
        match self.context(ctx) {
            Some(_) => {}
            None => self.pages.forget(&self.machines, ctx / 8),
        }
    }

    /// Notes what an item says of pages, of which this is the question. Returns what it shows of one, if it does.
    fn note_page(&mut self, item: &Item<'_>, asked: AskedAccess) -> Option<Showing>
        ensures run { KeepsRun self.old self.new }
        ensures pages { (b : Bundle) (items : List AnyItem) → PagesNext b items (item_of item.now) asked self.old →
            pages_of self.new.pages ≡
            pages_after b items (items ++ (item_of item.now) ∷ []) (pages_of self.old.pages) (item_of item.now) }
        ensures shows { result ≡ showing_in (pages_of self.old.pages) (notes_of self.old).step (item_of item.now) }
    {
        match item {
            Item::Cipher { frame, bytes } => self.note_cipher(*frame, bytes),
            Item::Ok { .. } => {
                self.note_grant(asked);
                None
            }
            Item::Leave(shown) => {
                self.note_end_of_pages(shown.ctx);
                None
            }
            Item::Step { .. }
            | Item::Close { .. }
            | Item::Resume { .. }
            | Item::Put { .. }
            | Item::End
            | Item::Absent { .. }
            | Item::Word { .. }
            | Item::Timer { .. }
            | Item::Stopped { .. }
            | Item::Ended { .. } => None,
        }
    }

    /// Takes the next item. Returns what it shows of a page, if it does.
    pub fn take(&mut self, item: &Item<'_>) -> Result<Option<Showing>, Unfit>
        ensures takes { (b : Bundle) (items : List AnyItem) → IsItem (item_of item.now) → Watches b items self.old →
            WatchTakes b items (item_of item.now) self.new result }
        ensures shows { (b : Bundle) (items : List AnyItem) → IsItem (item_of item.now) → Watches b items self.old →
            IfOk result (λ showing. showing ≡ showing_told b items (item_of item.now)) }
    {
        let stage = self.machines.stage();
        let question = self.machines.question_for(item, self.questions.answers);
        let questions = self.questions.after(item, question);
        self.machines.take(item)?;
        let showing = self.note_page(item, questions.last);
        self.note(stage, item);
        self.questions = questions;
        Ok(showing)
    }
}
