//! The kernel alone: it takes the items of a record one after another, and ignores the inward ones. A step of a hart
//! outside shows the step's Ciphers and then makes the plain step, once the step's end has been read. A step of a hart
//! inside counts the timer, and shows what the step's Ciphers, Puts and Leave say.
ghost use Rattle.cloak_model.specs.Items.{item_of};
ghost use Rattle.std.specs.Prelude.{◌≡◌, ◌<◌, ◌≤◌, ◌^◌, ℕ, true, None, List, length, All, IfOk, IsSome};
ghost use Rattle.cloak_model.specs.Bundle.{IsKernelImage};
ghost use Rattle.cloak_model.specs.Exchange.{EmitsSome};
ghost use Rattle.cloak_model.specs.KernelAlone as spec;
ghost use Rattle.cloak_model.specs.Record.{IsItem};
ghost use Rattle.cloak_model.specs.Report.{kernel_lines};
ghost use Rattle.io_traits.specs.Sinks.{PutsTo};
ghost use Rattle.io_traits.specs.Told.{Counts};
ghost use Rattle.alone_views.specs.KernelStages.{IsStageAmong};

use crate::kernel_ram::{FlatRam, load_segments};
use crate::kernel_stage::KernelStage;
use crate::kernel_starting::start_harts;
use crate::unfit::Unfit;
use cloak_base::{Failed, NoMemory};
use cloak_model::{Emit, Item, Kernel, KernelImage};
use host_calls::{Disk, Hart};
use io_traits::Sink;
use kernel_report::{Console, KernelLines, put_kernel};
use sha2::{Digest, Sha256};
use std::alloc::Global;

/// A kernel that runs alone, on the items of a record.
#[derive(Drop)]
pub struct KernelAlone {
    pub(crate) harts: Vec<Hart>,
    pub(crate) ram: FlatRam,
    pub(crate) disk: Disk,
    pub(crate) console: Console,
    pub(crate) schedule: Vec<u8>,
    /// The number of the last Step, 0 before the first.
    pub(crate) steps: u32,
    pub(crate) stage: KernelStage,
    /// The last step that was made halted.
    pub(crate) halted: bool,
    /// How the last plain step ended; before the first, as one that shows nothing.
    pub(crate) ending: Kernel,
    /// The step at which an item was unfit.
    pub(crate) unfit: Option<u32>,
    ghost few_harts: { length harts.items ≤ 4 },
    ghost some_turns: { 0 < length schedule.items },
    ghost turns: { All (λ h. h < length harts.items) schedule.items },
    ghost staged: { IsStageAmong (length harts.items) stage },
}

impl KernelAlone {
    ghost use Rattle.alone_views.specs.KernelChanges.{ChangesTo};
    ghost use Rattle.alone_views.specs.KernelStanding.{Gains, StandsForKernel, TakesItem};
    ghost use Rattle.alone_views.specs.KernelStanding.{answer_for, turns_of, unfit_step};
    ghost use Rattle.alone_views.specs.KernelEnding.{EndsAs, ending_in, is_end};

    /// The kernel of a guest image before any item.
    pub fn open(alloc: Global, k: &KernelImage) -> Result<KernelAlone, NoMemory>
        requires { IsKernelImage k.now }
        ensures { IfOk result (λ machine. StandsForKernel machine k.now.schedule (spec.opened_kernel k.now)) }
    {
        let harts = start_harts(alloc, k.entry, k.harts)?;
        let ram = load_segments(alloc, k.frames, k.harts, k.segments.as_slice())?;
        let disk = Disk::open(alloc, k.disk.as_slice())?;
        let schedule = Vec::from_slice(alloc, k.schedule.as_slice())?;
        Ok(KernelAlone {
            harts,
            ram,
            disk,
            console: Console::new(),
            schedule,
            steps: 0,
            stage: KernelStage::Between,
            halted: false,
            ending: Kernel::Stay,
            unfit: None,
        })
    }

    /// An item is unfit at the last Step.
    pub(crate) fn refuse(&mut self)
        ensures becomes { ChangesTo self.old self.new spec.kernel_unfit }
        ensures ending { ending_in self.new ≡ ending_in self.old }
    {
        self.unfit = Some(self.steps);
    }

    /// Takes an item if none was unfit.
    fn take_fit<E: Emit>(&mut self, i: &Item<'_>, e: &mut E)
        ensures gains { (turns : List ℕ) (s : spec.KernelAlone) → IsItem (item_of i.now) → StandsForKernel self.old turns s →
            Gains E.gave e.old e.new self.new turns s (spec.kernel_takes turns (item_of i.now) s) }
        ensures ending { is_end (item_of i.now) ≡ true → EndsAs self.old self.new }
        ensures schedule { turns_of self.new ≡ turns_of self.old }
        ensures emits_some { EmitsSome E.gave e.old e.new }
    {
        match i {
            Item::Cipher { frame, bytes } => self.take_cipher(*frame, bytes),
            Item::Put {
                address,
                width,
                value,
            } => self.take_put(*address, *width as u32, *value),
            Item::Leave(shown) => self.take_leave(shown),
            Item::Step { number } => {
                self.end_step(e);
                self.take_step(*number);
            }
            Item::Close { .. } => self.end_step(e),
            Item::End => {}
            Item::Ok { .. } => {}
            Item::Absent { .. } => {}
            Item::Word { .. } => {}
            Item::Timer { .. } => {}
            Item::Resume { .. } => {}
            Item::Stopped { .. } => {}
            Item::Ended { .. } => {}
        }
    }

    /// Takes an item, unless one was unfit.
    fn take_next<E: Emit>(&mut self, i: &Item<'_>, e: &mut E)
        ensures gains { (turns : List ℕ) (s : spec.KernelAlone) → IsItem (item_of i.now) → StandsForKernel self.old turns s →
            Gains E.gave e.old e.new self.new turns s (spec.take_kernel_item turns s (item_of i.now)) }
        ensures ending { is_end (item_of i.now) ≡ true → unfit_step self.old ≡ None → EndsAs self.old self.new }
        ensures stays { IsSome (unfit_step self.old) → (self.new ≡ self.old) × (e.new ≡ e.old) }
        ensures schedule { turns_of self.new ≡ turns_of self.old }
        ensures emits_some { EmitsSome E.gave e.old e.new }
    {
        if self.unfit.is_some() {
            return;
        }
        self.take_fit(i, e);
    }

    /// What is returned after the last item.
    fn answer(&self) -> Result<(), Unfit>
        ensures { result ≡ answer_for (unfit_step self.now) }
    {
        match self.unfit {
            None => Ok(()),
            Some(step) => Err(Unfit { step }),
        }
    }

    /// Takes the next item, and shows what the console gains. Once an item was unfit, each is answered so, and nothing
    /// changes.
    pub fn take<E: Emit>(&mut self, i: &Item<'_>, e: &mut E) -> Result<(), Unfit>
        ensures takes { (turns : List ℕ) (s : spec.KernelAlone) → IsItem (item_of i.now) → StandsForKernel self.old turns s →
            TakesItem E.gave e.old e.new self.new result turns s (spec.take_kernel_item turns s (item_of i.now)) }
        ensures ending { is_end (item_of i.now) ≡ true → unfit_step self.old ≡ None → EndsAs self.old self.new }
        ensures answer { result ≡ answer_for (unfit_step self.new) }
        ensures stays { IsSome (unfit_step self.old) → (self.new ≡ self.old) × (e.new ≡ e.old) }
        ensures emits_some { EmitsSome E.gave e.old e.new }
    {
        self.take_next(i, e);
        self.answer()
    }

    /// Writes the kernel's lines of the report. One that failed has written a front of them.
    pub fn report<O: Sink>(self, out: &mut O) -> Result<(), Failed>
        ensures puts { (turns : List ℕ) (s : spec.KernelAlone) → StandsForKernel self turns s →
            length s.kernel.console < 2 ^ 64 →
            PutsTo O.Sink out.old out.new (kernel_lines s.kernel) result }
        ensures faults { Counts (O.faults out.old) (O.faults out.new) result }
    {
        let KernelAlone {
            harts,
            ram,
            disk,
            console,
            ..
        } = self;
        let lines = KernelLines {
            console_length: console.count,
            console: console.digest(),
            ram: ram.digest(),
            disk: Sha256::digest(disk.bytes()),
            harts,
        };
        put_kernel(out, Ok(()), &lines)
    }
}
