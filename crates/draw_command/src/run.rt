//! A run as it is made again from the items of its record: the kernel alone, each program alone, and what is noted.
ghost use Rattle.cloak_model.specs.Items.{item_of};
ghost use Rattle.std.specs.Prelude.{◌≡◌, ℕ, List, None, IfOk};
ghost use Rattle.cloak_model.specs.Bundle.{IsInGrammar};
ghost use Rattle.cloak_model.specs.KernelAlone as model;
ghost use Rattle.cloak_model.specs.Record.{IsItem};
ghost use Rattle.alone_views.specs.KernelStanding.{StandsForKernel};
ghost use Rattle.cloak_model.specs.DomainAlone as domain;
ghost use Rattle.alone_views.specs.DomainStanding.{StandsForDomain};
ghost use Rattle.draw_command.specs.Doing as doing;
ghost use Rattle.draw_command.specs.Replaying.{TakesOne};

use crate::ear::Ear;
use crate::frames::{differs, frame_led};
use crate::spaces::Spaces;
use alone_views::{AskedAccess, DomainAlone, KernelAlone, KernelStage, Unfit};
use cloak_base::{NoMemory, PageId, frame_of, place_of};
use cloak_model::{Bundle, Item, Kernel};
use run_notes::{Found, Mark, MarkKind, Notes, Plan};
use std::alloc::Global;
use step_lines::{HartAhead, look_ahead};

/// The word of an ECALL, and the numbers of the host calls that reach the disk.
const ECALL: u32 = 0x73;

const READ_BLOCK: u32 = 2;

const WRITE_BLOCK: u32 = 3;

/// A run as far as its items were taken.
#[derive(Drop)]
pub struct Run {
    pub kernel: KernelAlone,
    pub side: Side,
}

/// What beside the kernel is made again, and what is noted.
#[derive(Drop)]
pub struct Side {
    programs: Vec<DomainAlone>,
    schedule: Vec<u8>,
    /// The resources of each program that are files, a bit for each.
    files: [u16; 4],
    pub notes: Notes,
    /// How many answers a program got in the step.
    answers: u32,
}

/// What a hart outside is about to do.
#[derive(Clone, Copy)]
struct StepAhead {
    hart: usize,
    ahead: HartAhead,
}

/// The programs of a bundle, each alone.
fn open_programs(alloc: Global, bundle: &Bundle) -> Result<Vec<DomainAlone>, NoMemory>
    requires { IsInGrammar bundle.now }
{
    let programs = bundle.programs.as_slice();
    let mut opened = Vec::new(alloc);
    for number in 0..programs.len().min(4) {
        let program = DomainAlone::open(alloc, &bundle.kernel, number as u32, &programs[number])?;
        opened.push(program)?;
    }
    Ok(opened)
}

/// What a kernel's step that an item ends is about to do.
fn step_ahead(kernel: &KernelAlone, item: &Item<'_>) -> Option<StepAhead> {
    if !matches!(item, Item::Step { .. } | Item::Close { .. }) {
        return None;
    }
    let KernelStage::Outside { hart } = kernel.stage() else {
        return None;
    };
    Some(StepAhead {
        hart,
        ahead: look_ahead(kernel.frames(), kernel.harts().get(hart)?),
    })
}

/// The pages of a program: 16 resources, of each 1,024.
const PAGES: u32 = 16384;

/// The page at a place among those of a program.
fn page_of(number: usize, place: u32) -> PageId {
    PageId {
        domain: number.min(3) as u32,
        resource: place / 1024,
        page: place % 1024,
    }
}

/// Who runs on a hart.
fn inside_of(kernel: &KernelAlone, hart: usize) -> Option<u32> {
    kernel.harts().get(hart)?.inside
}

/// A frame that goes to the disk, or a block that comes into a frame.
#[derive(Clone, Copy)]
struct DiskMove {
    frame: u32,
    block: u32,
    is_write: bool,
}

/// What a host call of this number moved, if it was answered so.
fn move_of(number: u32, block: u32, address: u32, answer: u32) -> Option<DiskMove>
    ensures { result ≡ doing.move_of number block address answer }
{
    let frame = frame_of(address).0;
    if answer != 0 {
        None
    } else if number == READ_BLOCK {
        Some(DiskMove {
            frame,
            block,
            is_write: false,
        })
    } else if number == WRITE_BLOCK {
        Some(DiskMove {
            frame,
            block,
            is_write: true,
        })
    } else {
        None
    }
}

/// What a step moved with this word and these registers, which left this in x10.
fn disk_move(word: Option<u32>, regs: &[u32; 32], answer: u32) -> Option<DiskMove>
    ensures { result ≡ doing.disk_move word regs.now answer }
{
    match word {
        None => None,
        Some(word) => {
            if word == ECALL {
                move_of(regs[17], regs[10], regs[11], answer)
            } else {
                None
            }
        }
    }
}

/// A slot of a program has no context.
fn is_free(program: &DomainAlone, slot: u32) -> bool
    ensures { (number : ℕ) (schedule : List ℕ) (s : domain.DomainAlone) →
        StandsForDomain number schedule program.now s → s.unfit ≡ None →
        result ≡ doing.is_free s.part.domain.control.contexts slot }
{
    match program.context(slot) {
        None => true,
        Some(_) => false,
    }
}

/// A program has no context any more.
fn is_over(program: &DomainAlone) -> bool
    ensures { (number : ℕ) (schedule : List ℕ) (s : domain.DomainAlone) →
        StandsForDomain number schedule program.now s → s.unfit ≡ None →
        result ≡ doing.is_over s.part.domain.control.contexts }
{
    is_free(program, 0)
        && (is_free(program, 1)
            && (is_free(program, 2)
                && (is_free(program, 3)
                    && (is_free(program, 4)
                        && (is_free(program, 5) && (is_free(program, 6) && is_free(program, 7)))))))
}

impl Side {
    /// The hart of the step.
    fn turn(&self) -> usize {
        let turn = self.notes.step.saturating_sub(1) as usize;
        match turn.checked_rem(self.schedule.len()) {
            Some(turn) => match self.schedule.get(turn) {
                Some(hart) => *hart as usize,
                None => 0,
            },
            None => 0,
        }
    }

    /// Gives an item to the programs.
    fn give(&mut self, item: &Item<'_>) {
        for number in 0..self.programs.len() {
            self.give_one(number, item);
        }
    }

    /// Gives an item to a program.
    fn give_one(&mut self, number: usize, item: &Item<'_>) {
        if !self.notes.is_fit(number) {
            return;
        }
        let Some(program) = self.programs.get_mut(number) else {
            return;
        };
        let before = Spaces::of(program);
        if program.take(item).is_err() {
            self.notes.lose(number.min(3) as u32);
            return;
        }
        let after = Spaces::of(program);
        self.note_spaces(number, &before, &after);
        self.note_file(number, &before);
    }

    /// Spaces began or ended: a fork copies the pages of the space that runs, and pages end with theirs.
    fn note_spaces(&mut self, number: usize, before: &Spaces, after: &Spaces) {
        for space in 0..8 {
            if before.has(space) && !after.has(space) {
                self.drop_pages(number, space);
            }
            if let Some(running) = before.running {
                if after.has(space) && !before.has(space) {
                    self.copy_pages(number, running.space, space);
                }
            }
        }
    }

    /// The pages of a space were copied for another one.
    fn copy_pages(&mut self, number: usize, from: u32, to: u32) {
        let Some(program) = self.programs.get(number) else {
            return;
        };
        for place in 0..PAGES {
            let page = page_of(number, place);
            let Some(found) = self.notes.found(page) else {
                continue;
            };
            let address = found.address;
            if program.space_page(from, address) != Some(page) {
                continue;
            }
            if let Some(copy) = program.space_page(to, address) {
                if copy != page {
                    self.notes.copy(page, copy, Found { space: to, address });
                }
            }
        }
    }

    /// The pages of a space are no more. Those of files stay.
    fn drop_pages(&mut self, number: usize, space: u32) {
        let files = match self.files.get(number) {
            Some(files) => *files,
            None => 0,
        };
        for place in 0..PAGES {
            let page = page_of(number, place);
            let is_file = files & u16::wrapping_shl(1, page.resource) != 0;
            match self.notes.found(page) {
                Some(found) if found.space == space && !is_file => self.notes.drop_page(page),
                _ => {}
            }
        }
    }

    /// A program may have got a file as a resource.
    fn note_file(&mut self, number: usize, before: &Spaces) {
        let Some(running) = before.running else {
            return;
        };
        let Some(program) = self.programs.get(number) else {
            return;
        };
        if !running.asks_file || program.running().is_some() {
            return;
        }
        let Some(c) = program.slot_context(running.slot) else {
            return;
        };
        let resource = c.regs.get(10);
        if let Some(files) = self.files.get_mut(number) {
            if resource < 16 {
                *files = *files | u16::wrapping_shl(1, resource);
            }
        }
    }

    /// Where an address lies for the program that runs on the hart of the step.
    fn found_at(&self, kernel: &KernelAlone, address: u32) -> Option<Found> {
        let ctx = inside_of(kernel, self.turn())?;
        let program = self.programs.get((ctx / 8) as usize)?;
        let c = program.slot_context(ctx % 8)?;
        Some(Found {
            space: c.space,
            address,
        })
    }

    /// What a step of the kernel reached in memory, if it was no trap.
    fn note_reached(&mut self, kernel: &KernelAlone, ahead: &HartAhead) {
        let Some(reached) = ahead.reached else {
            return;
        };
        let frame = frame_of(reached.place).0;
        self.notes.touch(frame);
        let Some(bytes) = kernel.frames().get(frame as usize) else {
            return;
        };
        let place = place_of(reached.place);
        if reached.is_store && differs(bytes, place, reached.width, reached.value) {
            self.notes.note_store(frame);
        }
    }

    /// A move to or from the disk that a step of the kernel made.
    fn note_disk_call(&mut self, kernel: &KernelAlone, made: &StepAhead) {
        let Some(hart) = kernel.harts().get(made.hart) else {
            return;
        };
        let ahead = &made.ahead;
        if let Some(moved) = disk_move(ahead.word, &ahead.sight.regs, hart.regs.get(10)) {
            self.notes
                .note_move(moved.frame, moved.block, moved.is_write);
        }
    }

    /// What a step of a hart outside did, once it is made.
    fn note_made(&mut self, kernel: &KernelAlone, made: &StepAhead, ear: &Ear) {
        match kernel.ending() {
            Kernel::Trapped => return,
            Kernel::Halt(value) => self.notes.halted = Some(value),
            _ => {}
        }
        self.note_reached(kernel, &made.ahead);
        self.note_disk_call(kernel, made);
        if let Some(byte) = ear.byte {
            self.notes.note_byte(byte);
        }
    }

    /// The step that was open ended.
    fn note_end(&mut self, kernel: &KernelAlone, made: &Option<StepAhead>, ear: &Ear) {
        if let Some(made) = made {
            self.note_made(kernel, made, ear);
        }
        if self.notes.step > 0 {
            let hart = self.turn();
            self.notes.note_turn(hart, inside_of(kernel, hart));
            self.notes.steps = self.notes.step;
        }
        self.answers = 0;
    }

    /// The question of a program that was answered last in the step.
    fn last_asked(&self, domain: u8) -> AskedAccess {
        let Some(program) = self.programs.get(domain as usize) else {
            return AskedAccess::Nothing;
        };
        let [first, second] = program.asked();
        match self.answers {
            1 => first,
            2 => second,
            _ => AskedAccess::Nothing,
        }
    }

    /// A program was answered that its question is granted, or stopped.
    fn note_answer(&mut self, kernel: &KernelAlone, domain: u8, is_granted: bool) {
        if !self.notes.is_fit(domain as usize) {
            return;
        }
        let AskedAccess::Page {
            page,
            address,
            kind,
        } = self.last_asked(domain)
        else {
            return;
        };
        let Some(hart) = kernel.harts().get(self.turn()) else {
            return;
        };
        let Some(frame) = frame_led(kernel.frames(), hart, address, kind) else {
            return;
        };
        if is_granted {
            if let Some(found) = self.found_at(kernel, address) {
                self.notes.find(page, found);
            }
            self.notes.grant(page, frame, kind);
        } else {
            self.notes.note_stopped(frame, page);
        }
    }

    /// A program has no context any more.
    fn is_over(&self, domain: u32) -> bool {
        match self.programs.get(domain as usize) {
            Some(program) => is_over(program),
            None => false,
        }
    }

    /// A context left.
    fn note_left(&mut self, kernel: &KernelAlone, shown: &cloak_base::Shown) {
        let hart = self.turn();
        self.notes.note_left(hart, shown);
        self.notes.note_turn(hart, inside_of(kernel, hart));
        let domain = shown.ctx / 8;
        if self.is_over(domain) {
            self.notes.note_gone(domain);
        }
    }

    /// The program that runs on the hart of the step.
    fn domain_inside(&self, kernel: &KernelAlone) -> u32 {
        match inside_of(kernel, self.turn()) {
            Some(ctx) => ctx / 8,
            None => 0,
        }
    }

    /// What an item in a step says.
    fn note_item(&mut self, kernel: &KernelAlone, item: &Item<'_>) {
        match item {
            Item::Cipher { frame, bytes } => self.notes.note_cipher(*frame, bytes),
            Item::Put { address, .. } => {
                let domain = self.domain_inside(kernel);
                self.notes.note_put(frame_of(*address).0, domain);
            }
            Item::Leave(shown) => self.note_left(kernel, shown),
            Item::Ok { domain } => {
                self.answers = self.answers.saturating_add(1);
                self.note_answer(kernel, *domain, true);
            }
            Item::Absent { .. } | Item::Word { .. } => {
                self.answers = self.answers.saturating_add(1);
            }
            Item::Stopped { domain } => {
                self.answers = self.answers.saturating_add(1);
                self.note_answer(kernel, *domain, false);
            }
            Item::Resume { ctx, .. } => {
                let (step, hart) = (self.notes.step, self.turn());
                self.notes
                    .mark_hart(hart, Mark::of(MarkKind::Resumed, step).with(*ctx));
            }
            Item::Ended { domain } => {
                let hart = self.turn();
                self.notes.note_ended(hart, u32::from(*domain));
            }
            _ => {}
        }
    }

    /// What an item says, once the kernel took it.
    fn note(&mut self, kernel: &KernelAlone, item: &Item<'_>, made: &Option<StepAhead>, ear: &Ear) {
        match item {
            Item::Step { number } => {
                self.note_end(kernel, made, ear);
                self.give(item);
                self.notes.step = *number;
            }
            Item::Close { steps } => {
                self.note_end(kernel, made, ear);
                self.give(item);
                self.notes.step = steps.saturating_add(1);
            }
            _ => {
                self.give(item);
                self.note_item(kernel, item);
            }
        }
    }
}

impl Side {
    /// What an item says, if the kernel took it.
    fn note_taken(
        &mut self,
        kernel: &KernelAlone,
        item: &Item<'_>,
        made: &Option<StepAhead>,
        ear: &Ear,
        fits: bool,
    ) {
        if fits {
            self.note(kernel, item, made, ear);
        }
    }
}

impl Run {
    /// The run of a bundle before its first item.
    pub fn open(
        alloc: Global,
        bundle: &Bundle,
        kernel: KernelAlone,
        plan: &Plan,
    ) -> Result<Run, NoMemory>
        requires { IsInGrammar bundle.now }
        ensures { IfOk result (λ run. run.kernel ≡ kernel) }
    {
        let notes = Notes::open(alloc, bundle, kernel.frames(), plan)?;
        let side = Side {
            programs: open_programs(alloc, bundle)?,
            schedule: Vec::from_slice(alloc, bundle.kernel.schedule.as_slice())?,
            files: [0; 4],
            notes,
            answers: 0,
        };
        Ok(Run { kernel, side })
    }

    /// Takes the next item.
    pub fn take(&mut self, item: &Item<'_>) -> Result<(), Unfit>
        ensures { (turns : List ℕ) (s : model.KernelAlone) → IsItem (item_of item.now) → StandsForKernel self.old.kernel turns s →
            TakesOne self.new.kernel result turns (model.take_kernel_item turns s (item_of item.now)) }
    {
        let made = step_ahead(&self.kernel, item);
        let mut ear = Ear { byte: None };
        let taken = self.kernel.take(item, &mut ear);
        self.side
            .note_taken(&self.kernel, item, &made, &ear, taken.is_ok());
        taken
    }
}
