//! What is noted of a run besides its machines.
ghost use Rattle.std.specs.Prelude.{◌≡◌, false};
ghost use Rattle.alone_views.specs.KernelStages.{stood_stage};
ghost use Rattle.replayed_run.specs.Noted as spec;

use crate::contexts::ToldContexts;
use alone_views::KernelStage;
use cloak_model::Kernel;

/// A hart that asks to resume a context.
#[derive(Clone, Copy)]
pub struct Asking {
    pub hart: usize,
    pub ctx: u32,
}

/// What is noted of the items so far.
#[derive(Drop)]
pub struct Notes {
    /// The number of the last step, 0 before the first.
    pub step: u32,
    /// A context was resumed in it.
    pub has_resumed: bool,
    pub contexts: ToldContexts,
    /// The context for which a hart asked in the step that ended last, if the record has no resume of it.
    pub asked: Option<Asking>,
    /// A frame was shown as zeros, as one is whose page found no draw.
    pub has_missed: bool,
    /// A question was stopped, and no program ended since.
    pub is_stopped: bool,
    /// The value with which the step that ended last halted.
    pub halted: Option<u32>,
}

/// The context for which a hart asks by a plain step that ended so.
fn asked_by(hart: usize, ending: Kernel) -> Option<Asking>
    ensures { result ≡ spec.asked_by hart ending }
{
    match ending {
        Kernel::Resume { ctx, .. } => Some(Asking { hart, ctx }),
        Kernel::Stay => None,
        Kernel::Trapped => None,
        Kernel::Put(_) => None,
        Kernel::Halt(_) => None,
    }
}

/// The context for which the hart asked that was outside, by how the last plain step ended.
pub fn asked_from(stage: KernelStage, ending: Kernel) -> Option<Asking>
    ensures { result ≡ spec.asked_from (stood_stage stage) (λ hart. ending) }
{
    match stage {
        KernelStage::Outside { hart } => asked_by(hart, ending),
        KernelStage::Between => None,
        KernelStage::Inside { .. } => None,
        KernelStage::Left => None,
    }
}

/// The value with which a plain step halted that ended so.
fn halted_by(ending: Kernel) -> Option<u32>
    ensures { result ≡ spec.halted_by ending }
{
    match ending {
        Kernel::Halt(value) => Some(value),
        Kernel::Resume { .. } => None,
        Kernel::Stay => None,
        Kernel::Trapped => None,
        Kernel::Put(_) => None,
    }
}

/// The value with which the hart halted that was outside, by how the last plain step ended.
pub fn halted_from(stage: KernelStage, ending: Kernel) -> Option<u32>
    ensures { result ≡ spec.halted_from (stood_stage stage) (λ hart. ending) }
{
    match stage {
        KernelStage::Outside { .. } => halted_by(ending),
        KernelStage::Between => None,
        KernelStage::Inside { .. } => None,
        KernelStage::Left => None,
    }
}

impl Notes {
    /// Nothing is noted yet.
    pub fn new() -> Notes
        ensures { result ≡ spec.no_notes }
    {
        Notes {
            step: 0,
            has_resumed: false,
            contexts: ToldContexts::new(),
            asked: None,
            has_missed: false,
            is_stopped: false,
            halted: None,
        }
    }
}
