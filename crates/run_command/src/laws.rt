//! What is true of any two calls of `run`.
ghost use Rattle.run_command.specs.TwoRuns.{KernelsAgree, ProgramsAgree, RecordsTellRuns};

use io_traits::{Shelf, Sink};

/// Isolation of two runs that calls of `run` made: if their images have one kernel and the runs one outward half, the
/// kernel's part is one after each step and at the end. It is the same with a program and its inward half. The halves can
/// be read off the records. It does nothing: its contract is the law.
pub fn law_of_two_runs<S: Shelf, O: Sink>()
    ensures kernel { KernelsAgree S O }
    ensures programs { ProgramsAgree S O }
    ensures records { RecordsTellRuns S O }
{}
