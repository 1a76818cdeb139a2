//! What a kernel that runs alone is at a moment.
ghost use Rattle.std.specs.Prelude.{◌≡◌, ◌≤◌, ℕ, List, length};
ghost use Rattle.cloak_model.specs.KernelAlone as spec;

use crate::kernel::KernelAlone;
use crate::kernel_stage::KernelStage;
use cloak_model::Kernel;
use host_calls::Hart;

impl KernelAlone {
    ghost use Rattle.alone_views.specs.KernelStanding.{StandsForKernel};
    ghost use Rattle.alone_views.specs.KernelEnding.{ending_in};
    ghost use Rattle.alone_views.specs.KernelStages.{stood_stage};

    /// The harts, by their numbers.
    pub fn harts(&self) -> &[Hart]
        ensures { (turns : List ℕ) (s : spec.KernelAlone) → StandsForKernel self.now turns s →
            result.now ≡ s.kernel.harts }
    {
        self.harts.as_slice()
    }

    /// The frames as the kernel sees them.
    pub fn frames(&self) -> &[[u8; 4096]]
        ensures few { length result.now ≤ 4096 }
        ensures seen { (turns : List ℕ) (s : spec.KernelAlone) → StandsForKernel self.now turns s →
            result.now ≡ s.kernel.ram }
    {
        self.ram.frames.as_slice()
    }

    /// The number of the last step, 0 before the first.
    pub fn step(&self) -> u32
        ensures { (turns : List ℕ) (s : spec.KernelAlone) → StandsForKernel self.now turns s →
            result ≡ s.steps }
    {
        self.steps
    }

    /// Where the items stand.
    pub fn stage(&self) -> KernelStage
        ensures { (turns : List ℕ) (s : spec.KernelAlone) → StandsForKernel self.now turns s →
            stood_stage result ≡ s.stage }
    {
        self.stage
    }

    /// The last step that was made halted.
    pub fn is_halted(&self) -> bool
        ensures { (turns : List ℕ) (s : spec.KernelAlone) → StandsForKernel self.now turns s →
            result ≡ s.halted }
    {
        self.halted
    }

    /// How the last plain step ended, as `take` tells of the item that ends it.
    pub fn ending(&self) -> Kernel
        ensures { result ≡ ending_in self.now }
    {
        self.ending
    }
}
