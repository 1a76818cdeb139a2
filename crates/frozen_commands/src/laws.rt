//! What is true of any two calls of `freeze`.
ghost use Rattle.frozen_commands.specs.TwoRuns.{
  KernelsAgree,
  KernelsAgreeSoFar,
  ProgramsAgree,
  ProgramsAgreeSoFar,
};

use io_traits::{Shelf, Sink};

/// Isolation of two runs that calls of `freeze` made: if their images have one kernel and the runs one outward half,
/// the kernel's part is one after each step and at the end. It is the same with a program and its inward half. And if
/// only what was written up to a step has one half, the part is one after this step. It does nothing: its contract is
/// the law.
pub fn law_of_two_frozen_runs<S: Shelf, O: Sink>()
    ensures kernel { KernelsAgree S O }
    ensures programs { ProgramsAgree S O }
    ensures kernel_so_far { KernelsAgreeSoFar S O }
    ensures programs_so_far { ProgramsAgreeSoFar S O }
{}
