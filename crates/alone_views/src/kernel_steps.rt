//! The steps of a kernel that runs alone: each begins as its Step is read, and ends as the next one or Close is. A hart
//! outside then makes its plain step, after the step's Ciphers.
ghost use Rattle.std.specs.Prelude.{◌≡◌, ◌-◌, ◌%◌, ◌<◌, ◌++◌, ℕ, List, length, slice_index};
ghost use Rattle.cloak_model.specs.Exchange.{EmitsSome};
ghost use Rattle.cloak_model.specs.KernelAlone as spec;

use crate::kernel::KernelAlone;
use crate::kernel_showing::show;
use crate::kernel_stage::KernelStage;
use cloak_model::Emit;
use host_calls::{Kernel, kernel_step, tick};

/// The step halted.
fn has_halted(ending: Kernel) -> bool
    ensures { result ≡ spec.has_halted ending }
{
    match ending {
        Kernel::Halt(_) => true,
        Kernel::Stay | Kernel::Trapped | Kernel::Put(_) | Kernel::Resume { .. } => false,
    }
}

impl KernelAlone {
    ghost use Rattle.alone_views.specs.KernelChanges.{ChangesTo};
    ghost use Rattle.alone_views.specs.KernelStanding.{Gains, StandsForKernel, turns_of, state_with};
    ghost use Rattle.alone_views.specs.KernelEnding.{EndsAs, ending_in, plain_ending};

    /// Makes the plain step of a hart, which is outside.
    fn step_plainly(&mut self, hart: usize) -> Kernel
        requires { hart < length self.old.harts.items }
        ensures state { (console : List ℕ) → state_with self.new (console ++ spec.console_byte result)
            ≡ spec.plain_step hart (state_with self.old console) }
        ensures ending { (console : List ℕ) → ending_in self.new ≡ plain_ending hart (state_with self.old console) }
        ensures console { self.new.console ≡ self.old.console }
        ensures schedule { turns_of self.new ≡ turns_of self.old }
    {
        let ending = kernel_step(&mut self.harts[hart], &mut self.disk, &mut self.ram);
        self.stage = KernelStage::Between;
        self.halted = has_halted(ending);
        self.ending = ending;
        ending
    }

    /// Ends a step of a hart outside by its plain step, and shows the byte of the console.
    fn end_plainly<E: Emit>(&mut self, hart: usize, e: &mut E)
        requires { hart < length self.old.harts.items }
        ensures gains { (turns : List ℕ) (s : spec.KernelAlone) → StandsForKernel self.old turns s →
            Gains E.gave e.old e.new self.new turns s (spec.plain_step hart s) }
        ensures ending { (turns : List ℕ) (s : spec.KernelAlone) → StandsForKernel self.old turns s →
            ending_in self.new ≡ plain_ending hart s }
        ensures schedule { turns_of self.new ≡ turns_of self.old }
        ensures emits_some { EmitsSome E.gave e.old e.new }
    {
        let ending = self.step_plainly(hart);
        show(&mut self.console, ending, e);
    }

    /// Ends the step that is open, if there is one: a hart outside makes its plain step.
    pub(crate) fn end_step<E: Emit>(&mut self, e: &mut E)
        ensures gains { (turns : List ℕ) (s : spec.KernelAlone) → StandsForKernel self.old turns s →
            Gains E.gave e.old e.new self.new turns s (spec.kernel_step_ended s.stage s) }
        ensures ending { EndsAs self.old self.new }
        ensures schedule { turns_of self.new ≡ turns_of self.old }
        ensures emits_some { EmitsSome E.gave e.old e.new }
    {
        match self.stage {
            KernelStage::Between => {}
            KernelStage::Outside { hart } => self.end_plainly(hart, e),
            KernelStage::Inside { .. } => self.stage = KernelStage::Between,
            KernelStage::Left => self.stage = KernelStage::Between,
        }
    }

    /// The hart of the step with this number.
    fn hart_of(&self, number: u32) -> usize
        ensures there { result < length self.now.harts.items }
        ensures turn { result ≡ slice_index (turns_of self.now) ((number - 1) % length (turns_of self.now)) }
    {
        self.schedule[number.saturating_sub(1) as usize % self.schedule.len()] as usize
    }

    /// Begins a step of a hart. Inside, its timer counts.
    fn begin_step(&mut self, hart: usize)
        requires { hart < length self.old.harts.items }
        ensures becomes { ChangesTo self.old self.new
            (λ s. spec.kernel_step_begun hart (spec.kernel_hart s.kernel hart).inside s) }
        ensures ending { ending_in self.new ≡ ending_in self.old }
    {
        match self.harts[hart].inside {
            None => self.stage = KernelStage::Outside { hart },
            Some(ctx) => {
                tick(&mut self.harts[hart]);
                self.stage = KernelStage::Inside { hart, ctx };
            }
        }
    }

    /// Takes a Step after the end of the last one.
    pub(crate) fn take_step(&mut self, number: u32)
        ensures becomes { ChangesTo self.old self.new (spec.take_kernel_step (turns_of self.old) number) }
        ensures ending { ending_in self.new ≡ ending_in self.old }
    {
        if self.halted {
            return self.refuse();
        }
        self.steps = number;
        let hart = self.hart_of(number);
        self.begin_step(hart);
    }
}
