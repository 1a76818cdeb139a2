//! A context of a program, before its step and after it.
ghost use Rattle.std.specs.Prelude.{◌≡◌};
ghost use Rattle.step_lines.specs.Contexts as spec;

use cloak_model::Phase;
use thread_context::Context;

/// A context at a moment.
#[derive(Clone, Copy)]
pub struct ContextSight {
    pub pc: u32,
    pub regs: [u32; 32],
    /// It runs on a hart.
    pub runs: bool,
}

/// What an instruction of a program reaches.
#[derive(Clone, Copy)]
pub struct ReachedPage {
    pub is_store: bool,
    pub address: u32,
    /// How many bytes.
    pub width: u32,
    /// A page of the program lies at the address.
    pub is_cloaked: bool,
    /// What stands there before the step, if one does.
    pub value: u32,
    /// What is stored by a store that is not atomic.
    pub stored: u32,
}

/// A context before its step.
#[derive(Clone, Copy)]
pub struct ContextAhead {
    pub sight: ContextSight,
    pub phase: Phase,
    /// The word at its program counter, if its next step is an instruction of a page of its own.
    pub word: Option<u32>,
    /// What the instruction reaches.
    pub reached: Option<ReachedPage>,
}

/// The last answer that a step got.
#[derive(Clone, Copy)]
pub enum LastAnswer {
    /// It asked nothing.
    Nothing,
    Granted,
    Absent { cause: u32 },
    Word { value: u32 },
    Stopped,
    /// It was interrupted.
    Timer,
}

/// What a line tells of a context.
pub fn context_sight(c: &Context) -> ContextSight
    ensures { result ≡ spec.context_sight c.now }
{
    ContextSight {
        pc: c.pc,
        regs: *c.regs.words(),
        runs: c.on.is_some(),
    }
}
