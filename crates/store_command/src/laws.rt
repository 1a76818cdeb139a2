//! What is true of any two calls of `store`.
ghost use Rattle.store_command.specs.NextRun.{
  FirstRunsHaveNoFiles,
  NextImagesKeepKeys,
  NextRunsGoOn,
  RunsBeginChains,
};
ghost use Rattle.store_command.specs.TwoRuns.{KernelsAgree, ProgramsAgree, RecordsTellRuns};

use io_traits::{Shelf, Sink};

/// Isolation of two runs that calls of `store` made: if their images have one kernel and the runs one outward half, the
/// kernel's part is one after each step and at the end. It is the same with a program that begins with the same files,
/// and its inward half. The halves can be read off the records. It does nothing: its contract is the law.
pub fn law_of_two_stored_runs<S: Shelf, O: Sink>()
    ensures kernel { KernelsAgree S O }
    ensures programs { ProgramsAgree S O }
    ensures records { RecordsTellRuns S O }
{}

/// If a call of `store` reads the store file that another one wrote, with its secret and the counter that it wrote,
/// then loads return what was stored last in both runs, and in all before. It does nothing: its contract is the law.
pub fn law_of_next_runs<S: Shelf, O: Sink>()
    ensures next { NextRunsGoOn S O }
    ensures images { NextImagesKeepKeys S O }
    ensures begins { RunsBeginChains S O }
    ensures first { FirstRunsHaveNoFiles S O }
{}
