ghost use Rattle.std.specs.Prelude.{◌≡◌, None, Some, if◌then◌else◌};
ghost use Rattle.cloak_base.specs.declared.causes.Stop.TheVariants as stop;
ghost use Rattle.cloak_model.specs.Joint.{stop_without_miss};

use cloak_base::{Stop, Violation};

/// How a step ended, but for a draw that may be missing.
#[derive(Clone, Copy)]
pub struct EndedStep {
    /// The byte that it showed on the console.
    pub console: Option<u8>,
    /// What the kernel presented in place of what is recorded.
    pub violation: Option<Violation>,
    /// The value with which it halted.
    pub halt: Option<u32>,
}

impl EndedStep {
    /// Nothing was shown, and at most this violation met.
    pub fn met(violation: Option<Violation>) -> EndedStep
        ensures { result ≡ record { console = None; violation = violation; halt = None } }
    {
        EndedStep {
            console: None,
            violation,
            halt: None,
        }
    }

    /// Why the step stops the run: a missing draw before a halt.
    pub fn stop(&self, missed: bool) -> Option<Stop>
        ensures { result ≡ (if missed then Some stop.NoRandom else stop_without_miss self.now.halt) }
    {
        if missed {
            return Some(Stop::NoRandom);
        }
        match self.halt {
            Some(value) => Some(Stop::Halt(value)),
            None => None,
        }
    }
}
