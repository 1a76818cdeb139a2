//! What is known of a run as its items are taken: what each frame and block has, who runs, and what is marked.
ghost use Rattle.std.specs.Prelude.{◌≡◌, Some, map, slice_index_or, slice_set};
ghost use Rattle.run_notes.specs.Marking.{added, none_now};
ghost use Rattle.run_notes.specs.Noting as spec;
ghost use Rattle.run_notes.specs.Noting.{EndsProgram, LosesProgram, hart_marks, notes_now, with_frame, with_hart_mark, with_page};

use crate::columns::steps_of;
use crate::console::Printed;
use crate::look::{CipherId, Look, Sight};
use crate::marks::{Mark, MarkKind, Marks};
use crate::moves::{Move, Moves};
use crate::plan::{Plan, Weight};
use crate::rows::Rows;
use crate::turns::Turns;
use cloak_base::{Kind, NoMemory, PageId, Shown};
use cloak_model::{Bundle, Program};
use std::alloc::Global;

/// Every byte is zero.
pub fn is_wiped(bytes: &[u8]) -> bool
    ensures { result ≡ spec.is_wiped bytes.now }
{
    bytes.iter().all(|byte| *byte == 0)
}

/// Where a page lies for its program: an address of a space.
#[derive(Clone, Copy)]
pub struct Found {
    pub space: u32,
    pub address: u32,
}

/// What a page is known to be.
#[derive(Clone, Copy)]
struct PageNow {
    /// How often it was shown.
    shown: u32,
    /// The frame in which it was last in use.
    frame: u32,
    /// The ciphertext of its bytes, if it was not changed since.
    takes: Option<CipherId>,
    /// Where its program reached it last.
    found: Option<Found>,
}

impl PageNow {
    /// Nothing is known.
    fn none() -> PageNow
        ensures { result ≡ spec.no_page }
    {
        PageNow {
            shown: 0,
            frame: 0,
            takes: None,
            found: None,
        }
    }
}

/// The row of a hart.
#[derive(Drop)]
pub struct HartRow {
    pub turns: Turns,
    pub marks: Marks,
}

/// The pages of a program: 16 resources, of each 1,024.
const PAGES: usize = 16384;

/// What is known of a run.
#[derive(Drop)]
pub struct Notes {
    /// The step that is open, 0 in the opening; the closing is one behind the last.
    pub step: u32,
    /// How many steps were made.
    pub steps: u32,
    pub harts: Vec<HartRow>,
    pub frames: Rows,
    pub blocks: Rows,
    pub frame_weights: Vec<Weight>,
    pub block_weights: Vec<Weight>,
    pages: Vec<PageNow>,
    pub printed: Printed,
    pub moves: Moves,
    /// The value with which the run was halted.
    pub halted: Option<u32>,
    /// The step in which each program ended.
    pub ended: [Option<u32>; 4],
    /// The step from which on the items of each program do not fit.
    pub lost: [Option<u32>; 4],
}

/// What frames have as a run begins, once the kernel's segments stand in them.
fn first_frames(alloc: Global, frames: &[[u8; 4096]]) -> Result<Vec<Sight>, NoMemory> {
    let mut sights = Vec::with_capacity(alloc, frames.len())?;
    for frame in frames {
        let look = if is_wiped(frame) {
            Look::Zeros
        } else {
            Look::Open
        };
        sights.push(Sight::bare(look))?;
    }
    Ok(sights)
}

/// What the blocks of the disk have.
fn first_blocks(alloc: Global, disk: &[u8]) -> Result<Vec<Sight>, NoMemory> {
    let mut sights = Vec::new(alloc);
    for block in disk.chunks(4096) {
        let look = if is_wiped(block) {
            Look::Zeros
        } else {
            Look::Open
        };
        sights.push(Sight::bare(look))?;
    }
    Ok(sights)
}

/// Rows of harts.
fn open_harts(alloc: Global, count: u32, steps: u32) -> Result<Vec<HartRow>, NoMemory> {
    let mut harts = Vec::new(alloc);
    for _ in 0..count {
        harts.push(HartRow {
            turns: Turns::open(alloc, steps_of(8, steps))?,
            marks: Marks::open(alloc, steps_of(6, steps))?,
        })?;
    }
    Ok(harts)
}

/// A mark in the row of a hart.
fn mark_row(harts: &mut [HartRow], hart: usize, mark: Mark)
    ensures { map hart_marks harts.new ≡
        slice_set (map hart_marks harts.old) hart (added (slice_index_or (map hart_marks harts.old) hart none_now) mark) }
{
    if hart < harts.len() {
        harts[hart].marks.add(mark);
    }
}

/// One of these has a mark more.
fn add_weight(weights: &mut [Weight], at: usize)
    ensures { weights.new ≡ spec.heavier_at weights.old at }
{
    if at < weights.len() {
        weights[at].marks = weights[at].marks.saturating_add(1);
    }
}

/// One of these has a row.
fn show_weight(weights: &mut [Weight], at: usize)
    ensures { weights.new ≡ spec.shown_at weights.old at }
{
    if at < weights.len() {
        weights[at].is_shown = true;
    }
}

/// No other one is heavier.
fn raise_weight(weights: &mut [Weight], at: usize)
    ensures { weights.new ≡ spec.heaviest_at weights.old at }
{
    if at < weights.len() {
        weights[at].marks = u32::MAX;
    }
}

/// Sets what is known of the page at a place.
fn set_now(pages: &mut [PageNow], place: usize, now: PageNow)
    ensures { pages.new ≡ slice_set pages.old place now }
{
    if place < pages.len() {
        pages[place] = now;
    }
}

/// Sets the step in which a program ended.
fn set_ended(ended: &mut [Option<u32>; 4], domain: usize, step: u32)
    ensures { ended.new ≡ slice_set ended.old domain (Some step) }
{
    if domain < 4 {
        ended[domain] = Some(step);
    }
}

/// What the kernel finds where a program has this.
fn found_in(pages: &[PageNow], sight: Sight) -> Sight {
    match (sight.look, sight.page) {
        (Look::Used, Some(page)) => match pages.get(Notes::place_of(page)) {
            Some(now) => Sight::cipher(now.takes),
            None => Sight::bare(Look::Cipher),
        },
        _ => sight,
    }
}

/// No page takes the ciphertexts of a program in frames any more.
fn age_frames(frames: &mut Rows, pages: &[PageNow], domain: u32, after: u32) {
    for number in 0..frames.len() {
        let sight = frames.sight(number);
        if sight.domain() == Some(domain) {
            frames.set(number, after, found_in(pages, sight).aged());
        }
    }
}

/// No page takes the ciphertexts of a program in blocks any more.
fn age_blocks(blocks: &mut Rows, domain: u32, after: u32) {
    for number in 0..blocks.len() {
        let sight = blocks.sight(number);
        if sight.domain() == Some(domain) {
            blocks.set(number, after, sight.aged());
        }
    }
}

/// No page of a program takes a ciphertext any more.
fn forget_all(pages: &mut [PageNow], domain: u32) {
    let first = (domain as usize).saturating_mul(PAGES);
    for place in first..first.saturating_add(PAGES) {
        if let Some(now) = pages.get_mut(place) {
            now.takes = None;
        }
    }
}

impl Notes {
    /// What is known before the first item.
    pub fn open(
        alloc: Global,
        bundle: &Bundle,
        frames: &[[u8; 4096]],
        plan: &Plan,
    ) -> Result<Notes, NoMemory> {
        let (column, mark_column) = (steps_of(2, plan.end), steps_of(4, plan.end));
        let sights = first_frames(alloc, frames)?;
        let blocks = first_blocks(alloc, bundle.kernel.disk.as_slice())?;
        let (frame_count, block_count) = (sights.len(), blocks.len());
        let chosen_frames = plan.frames.as_slice();
        let chosen_blocks = plan.blocks.as_slice();
        let mut notes = Notes {
            step: 0,
            steps: 0,
            harts: open_harts(alloc, bundle.kernel.harts, plan.end)?,
            frames: Rows::open(alloc, sights, chosen_frames, column, mark_column)?,
            blocks: Rows::open(alloc, blocks, chosen_blocks, column, mark_column)?,
            frame_weights: vec![in alloc; Weight::none(); frame_count]?,
            block_weights: vec![in alloc; Weight::none(); block_count]?,
            pages: vec![in alloc; PageNow::none(); 4 * PAGES]?,
            printed: Printed::open(alloc, steps_of(16, plan.end))?,
            moves: Moves::open(alloc)?,
            halted: None,
            ended: [None; 4],
            lost: [None; 4],
        };
        let mut domain = 0;
        for program in bundle.programs.as_slice() {
            notes.place(domain, program);
            domain = u32::saturating_add(domain, 1);
        }
        Ok(notes)
    }

    /// The pages of a program stand in their frames.
    fn place(&mut self, domain: u32, program: &Program) {
        for number in 0..program.start.pages {
            let page = PageId {
                domain,
                resource: 0,
                page: number,
            };
            self.find(
                page,
                Found {
                    space: 0,
                    address: program
                        .start
                        .base
                        .saturating_add(number.saturating_mul(4096)),
                },
            );
            self.change(page, program.place.saturating_add(number));
        }
    }

    /// After how many steps what is done now begins.
    fn after(&self) -> u32 {
        self.step.saturating_sub(1)
    }

    /// Where a page stands among all.
    fn place_of(page: PageId) -> usize
        ensures { result ≡ spec.page_place page }
    {
        (page.domain as usize * 16 + page.resource as usize) * 1024 + page.page as usize
    }

    fn page_now(&self, page: PageId) -> PageNow
        ensures { result ≡ spec.page_at (notes_now self.now) page }
    {
        match self.pages.get(Notes::place_of(page)) {
            Some(now) => *now,
            None => PageNow::none(),
        }
    }

    fn set_page(&mut self, page: PageId, now: PageNow)
        ensures { notes_now self.new ≡ with_page page now (notes_now self.old) }
    {
        set_now(&mut self.pages, Notes::place_of(page), now);
    }

    /// A program reached a page here.
    pub fn find(&mut self, page: PageId, found: Found) {
        let now = self.page_now(page);
        self.set_page(
            page,
            PageNow {
                found: Some(found),
                ..now
            },
        );
    }

    /// Where a program reached a page last.
    pub fn found(&self, page: PageId) -> Option<Found> {
        self.page_now(page).found
    }

    fn set_frame(&mut self, frame: u32, sight: Sight)
        ensures { notes_now self.new ≡ with_frame frame sight (notes_now self.old) }
    {
        let after = self.after();
        self.frames.set(frame, after, sight);
    }

    fn mark_frame(&mut self, frame: u32, mark: Mark)
        ensures { notes_now self.new ≡ spec.with_frame_mark frame mark (notes_now self.old) }
    {
        add_weight(&mut self.frame_weights, frame as usize);
        self.frames.mark(frame, mark);
    }

    fn show_frame(&mut self, frame: u32)
        ensures { notes_now self.new ≡ spec.with_frame_shown frame (notes_now self.old) }
    {
        show_weight(&mut self.frame_weights, frame as usize);
    }

    /// A mark in the row of a hart.
    pub fn mark_hart(&mut self, hart: usize, mark: Mark)
        ensures { notes_now self.new ≡ with_hart_mark hart mark (notes_now self.old) }
    {
        mark_row(&mut self.harts, hart, mark);
    }

    /// Some page has the bytes of a ciphertext.
    fn is_taken(&self, id: CipherId) -> bool {
        let first = (id.page.domain as usize).saturating_mul(PAGES);
        match self.pages.get(first..first.saturating_add(PAGES)) {
            Some(pages) => pages.iter().any(|now| now.takes == Some(id)),
            None => false,
        }
    }

    /// Each frame and block with a ciphertext that no page takes has it as old.
    fn age(&mut self, id: CipherId) {
        if self.is_taken(id) {
            return;
        }
        let after = self.after();
        for number in 0..self.frames.len() {
            let sight = self.frames.sight(number);
            if sight.cipher_id() == Some(id) {
                self.frames.set(number, after, sight.aged());
            }
        }
        for number in 0..self.blocks.len() {
            let sight = self.blocks.sight(number);
            if sight.cipher_id() == Some(id) {
                self.blocks.set(number, after, sight.aged());
            }
        }
    }

    /// A page is not in use any more where it was last, if it was not changed there.
    fn leave_frame(&mut self, page: PageId) {
        let frame = self.page_now(page).frame;
        if self.frames.sight(frame).page == Some(page) {
            self.touch(frame);
        }
    }

    /// A page does not have the bytes of its ciphertext any more.
    fn forget_cipher(&mut self, page: PageId) {
        let now = self.page_now(page);
        if let Some(id) = now.takes {
            self.set_page(page, PageNow { takes: None, ..now });
            self.age(id);
        }
    }

    /// A page is in use in a frame, and newer than what was shown of it.
    fn change(&mut self, page: PageId, frame: u32) {
        let was = self.frames.sight(frame);
        if was.look == Look::Changed && was.page == Some(page) {
            return;
        }
        self.leave_frame(page);
        self.forget_cipher(page);
        let now = self.page_now(page);
        self.set_page(page, PageNow { frame, ..now });
        self.show_frame(frame);
        self.set_frame(frame, Sight::changed(page, now.shown));
    }

    /// A page is in use in a frame, as it was last shown.
    fn reach(&mut self, page: PageId, frame: u32) {
        let was = self.frames.sight(frame);
        if was.page == Some(page) && (was.look == Look::Used || was.look == Look::Changed) {
            return;
        }
        self.leave_frame(page);
        let now = self.page_now(page);
        let takes = match now.takes {
            Some(id) => Some(id),
            None => was.cipher_id(),
        };
        self.set_page(
            page,
            PageNow {
                frame,
                takes,
                ..now
            },
        );
        self.show_frame(frame);
        self.set_frame(frame, Sight::used(page, takes));
    }

    /// A program is granted an access to a page in a frame.
    pub fn grant(&mut self, page: PageId, frame: u32, kind: Kind) {
        let was = self.frames.sight(frame);
        let is_known = was.is_cipher()
            || was.look == Look::Used
            || self.page_now(page).takes.is_some();
        if kind != Kind::Store && is_known {
            self.reach(page, frame);
        } else {
            self.change(page, frame);
        }
    }

    /// A page was copied: the copy has the same bytes, and lies here.
    pub fn copy(&mut self, page: PageId, copy: PageId, found: Found) {
        let takes = self.page_now(page).takes;
        self.set_page(
            copy,
            PageNow {
                takes,
                found: Some(found),
                ..PageNow::none()
            },
        );
    }

    /// A page is no more.
    pub fn drop_page(&mut self, page: PageId) {
        self.leave_frame(page);
        self.forget_cipher(page);
        self.set_page(page, PageNow::none());
    }

    /// The kernel reaches a frame: what is in use there as it was shown is settled.
    pub fn touch(&mut self, frame: u32)
        ensures { notes_now self.new ≡ spec.touched frame (notes_now self.old) }
    {
        let was = self.frames.sight(frame);
        if let (Look::Used, Some(page)) = (was.look, was.page) {
            let takes = self.page_now(page).takes;
            self.set_frame(frame, Sight::cipher(takes));
        }
    }

    /// Something was stored into a frame where the kernel sees it. Tells if it was ciphertext as it was made.
    fn store(&mut self, frame: u32) -> bool
        ensures stores { notes_now self.new ≡ spec.with_store frame (notes_now self.old) }
        ensures attacks { result ≡ spec.is_attacked frame (notes_now self.old) }
    {
        self.touch(frame);
        let was = self.frames.sight(frame);
        self.set_frame(frame, was.stored());
        was.is_whole_cipher()
    }

    /// The kernel stored into a frame.
    pub fn note_store(&mut self, frame: u32)
        ensures { notes_now self.new ≡ spec.with_kernel_store frame (notes_now self.old) }
    {
        if self.store(frame) {
            self.mark_frame(frame, Mark::of(MarkKind::Altered, self.step));
        }
    }

    /// A program stored into a frame in the open.
    pub fn note_put(&mut self, frame: u32, domain: u32)
        ensures { notes_now self.new ≡ spec.with_program_store frame domain (notes_now self.old) }
    {
        self.store(frame);
        self.show_frame(frame);
        self.frames.note_put(frame);
        self.mark_frame(frame, Mark::of(MarkKind::Put, self.step).with(domain));
    }

    /// The kernel is shown zeros in a frame, or ciphertext, of this page if it is known.
    fn note_shown(&mut self, frame: u32, is_wiped: bool, page: Option<PageId>)
        ensures { notes_now self.new ≡ spec.with_shown_as is_wiped page frame (notes_now self.old) }
    {
        let mark = Mark::of(MarkKind::Shown, self.step);
        if is_wiped {
            self.set_frame(frame, Sight::bare(Look::Zeros));
            self.mark_frame(frame, mark);
            return;
        }
        let Some(page) = page else {
            self.set_frame(frame, Sight::bare(Look::Cipher));
            self.mark_frame(frame, mark);
            return;
        };
        let now = self.page_now(page);
        let number = now.shown.saturating_add(1);
        let takes = Some(CipherId { page, number });
        self.set_page(
            page,
            PageNow {
                shown: number,
                frame,
                takes,
                ..now
            },
        );
        self.set_frame(frame, Sight::cipher(takes));
        self.mark_frame(frame, mark.about(Some(page)).with(number));
    }

    /// The kernel is shown these bytes in a frame.
    pub fn note_cipher(&mut self, frame: u32, bytes: &[u8; 4096])
        ensures { notes_now self.new ≡ spec.with_shown frame bytes.now (notes_now self.old) }
    {
        self.show_frame(frame);
        let held = self.frames.sight(frame).held();
        self.note_shown(frame, is_wiped(bytes), held);
    }

    /// A frame goes to a block, or a block comes into a frame.
    fn move_page(&mut self, frame: u32, block: u32, is_write: bool)
        ensures { notes_now self.new ≡ spec.moved frame block is_write (notes_now self.old) }
    {
        if is_write {
            let (sight, after) = (self.frames.sight(frame), self.after());
            self.blocks.set(block, after, sight);
            self.mark_frame(frame, Mark::of(MarkKind::Written, self.step).with(block));
        } else {
            let sight = self.blocks.sight(block);
            self.set_frame(frame, sight);
            self.mark_frame(frame, Mark::of(MarkKind::Read, self.step).with(block));
        }
    }

    /// A move is kept.
    fn keep_move(&mut self, moved: Move)
        ensures { notes_now self.new ≡ spec.with_kept_move moved (notes_now self.old) }
    {
        add_weight(&mut self.block_weights, moved.block as usize);
        show_weight(&mut self.block_weights, moved.block as usize);
        self.moves.add(moved);
    }

    /// The kernel moved a frame to a block of the disk, or a block into a frame.
    pub fn note_move(&mut self, frame: u32, block: u32, is_write: bool)
        ensures { notes_now self.new ≡ spec.with_move frame block is_write (notes_now self.old) }
    {
        self.touch(frame);
        self.move_page(frame, block, is_write);
        self.keep_move(Move {
            step: self.step,
            frame,
            block,
            is_write,
        });
    }

    /// A page was presented in a frame, and is not the one recorded.
    pub fn note_stopped(&mut self, frame: u32, page: PageId)
        ensures { notes_now self.new ≡ spec.with_stopped frame page (notes_now self.old) }
    {
        self.show_frame(frame);
        let mark = Mark::of(MarkKind::Stopped, self.step).about(Some(page));
        self.mark_frame(frame, mark);
        raise_weight(&mut self.frame_weights, frame as usize);
    }

    /// A context left.
    pub fn note_left(&mut self, hart: usize, shown: &Shown)
        ensures { notes_now self.new ≡ spec.with_left hart shown.now (notes_now self.old) }
    {
        let mark = Mark::of(MarkKind::Left, self.step)
            .with(shown.number)
            .because(shown.cause);
        self.mark_hart(hart, mark);
    }

    /// A program is gone, and its pages with it.
    pub fn note_gone(&mut self, domain: u32)
        ensures { LosesProgram (notes_now self.old) (notes_now self.new) }
    {
        let after = self.after();
        age_frames(&mut self.frames, self.pages.as_slice(), domain, after);
        age_blocks(&mut self.blocks, domain, after);
        forget_all(&mut self.pages, domain);
    }

    /// A program ended by a violation.
    pub fn note_ended(&mut self, hart: usize, domain: u32)
        ensures { EndsProgram hart domain (notes_now self.old) (notes_now self.new) }
    {
        set_ended(&mut self.ended, domain as usize, self.step);
        self.mark_hart(hart, Mark::of(MarkKind::Stopped, self.step).with(domain));
        self.note_gone(domain);
    }

    /// The items of a program do not fit from now on.
    pub fn lose(&mut self, domain: u32) {
        let (step, after) = (self.step, self.after());
        if let Some(lost) = self.lost.get_mut(domain as usize) {
            *lost = Some(step);
        }
        for number in 0..self.frames.len() {
            let sight = self.frames.sight(number);
            if sight.domain() == Some(domain) && matches!(sight.look, Look::Used | Look::Changed) {
                self.frames.set(number, after, Sight::bare(Look::Lost));
            }
        }
    }

    /// The items of a program fit so far.
    pub fn is_fit(&self, domain: usize) -> bool {
        match self.lost.get(domain) {
            Some(lost) => lost.is_none(),
            None => false,
        }
    }

    /// This one runs on a hart from the end of the step on.
    pub fn note_turn(&mut self, hart: usize, inside: Option<u32>) {
        let after = self.step;
        if let Some(row) = self.harts.get_mut(hart) {
            row.turns.set(after, inside);
        }
    }

    /// A byte was printed.
    pub fn note_byte(&mut self, byte: u8) {
        let step = self.step;
        self.printed.add(step, byte);
    }

    /// The picture ends after so many steps, of which so many were made.
    pub fn end(&mut self, end: u32) {
        let steps = self.steps;
        for row in self.harts.iter_mut() {
            row.turns.end(steps);
        }
        self.frames.end(end);
        self.blocks.end(end);
    }
}
