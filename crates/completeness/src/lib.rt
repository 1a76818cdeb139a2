//! Completeness: what a command ends with if no call on files or output fails, and the files that it reads are told
//! and good. These are a bundle, a random stream and vectors; for `store` a secret of 80 bytes or more and, unless the
//! counter is 0, a store file of this counter; for `thaw` a state of the bundle; for `view` and `solo` a record whose
//! items all fit, and for `solo` a program that the bundle has. Each command's table of answers (`run_command`,
//! `store_command`, `frozen_commands`, `stats_command`, `read_back`, `image_commands`) then leaves what its law says,
//! or want of memory before anything is begun: so no body can return a fault that did not come. Of a run in which
//! pages clash the laws say at most that other files stay. Of files that are not good they say nothing: there the
//! tables alone give each status its cause.
//!
//! On a `NeverShelf` and a `NeverSink` (`never_fails`) no call fails, so over them the laws hold without that premise.
//!
//! No body changes a law, so there is no wrong body to refuse here; `cloak_commands` has edits for its clause. These
//! changed definitions were tried on a copy, and with none of them did the proof of its law go through. Of runs: the
//! line for a key that is missing is that for the draw of a page; the record keeps its bytes; the run has a step more.
//! Of stores: a secret of 79 bytes is long enough; no file but the record is written; the new store file skips a
//! counter. Of freezes: a run whose vectors are too few has the status of one that was frozen; one that was frozen has
//! status 0; the vectors are the stream of the run. Of thaws: a stream without the keys is named as one with too few
//! draws; only the steps that are asked for are limited; the steps of the rest are counted from 0. Of stats: the
//! status is 0 whatever became of the run; its counts are of a run with a step more; whatever the opening lacks, the
//! line is that for a key. Of views: `solo` shows a record as one that was not read to its end; `view` shows no lines
//! after the console, and may have an item that does not fit. Of images: `gen` never lacks memory; `demo` shows the
//! line of the next image; a bundle whose version 2 has the largest size is too large for `upgrade`. Of reading back:
//! `view` shows the parts that the run began with; so does `solo` of its program; this may have begun with files. Of
//! runs that never fail: there is always memory; the run has a step more; its stream is any.
#![tactic(auto)]

ghost use Rattle.completeness.specs.Runs.{RunsAreComplete};
ghost use Rattle.completeness.specs.Stats.{StatsAreComplete};
ghost use Rattle.completeness.specs.SoloOvers.{SoloOversAreComplete};
ghost use Rattle.completeness.specs.Views.{SolosAreComplete, ViewsAreComplete};
ghost use Rattle.completeness.specs.ReadingBack.{RunsAreSoloed, RunsAreViewed};
ghost use Rattle.completeness.specs.Images.{DemosAreComplete, GensAreComplete};
ghost use Rattle.completeness.specs.Stores.{StoresAreComplete};
ghost use Rattle.completeness.specs.Freezes.{FreezesAreComplete};
ghost use Rattle.completeness.specs.Thaws.{ThawsAreComplete};
ghost use Rattle.completeness.specs.Upgrades.{UpgradesAreComplete};
ghost use Rattle.completeness.specs.NeverFailing.{NothingEverRises, RunsNeverFail};

use io_traits::{Shelf, Sink};
use never_fails::{NeverShelf, NeverSink};

/// If no call fails, `run` results in what the opening and the joint run say. It does nothing: its contract is the law.
pub fn law_of_complete_runs<S: Shelf, O: Sink>()
    ensures { RunsAreComplete S O }
{}

/// If no call fails, `store` results in what the opening and the joint run say over all contents that the store file
/// stands for. It does nothing: its contract is the law.
pub fn law_of_complete_stores<S: Shelf, O: Sink>()
    ensures { StoresAreComplete S O }
{}

/// If no call fails, `freeze` results in what the opening and the joint run say, with these vectors. It does nothing:
/// its contract is the law.
pub fn law_of_complete_freezes<S: Shelf, O: Sink>()
    ensures { FreezesAreComplete S O }
{}

/// If no call fails, `thaw` results in what the tests of the state say, and the rest of each run that can go on from
/// it. It does nothing: its contract is the law.
pub fn law_of_complete_thaws<S: Shelf, O: Sink>()
    ensures { ThawsAreComplete S O }
{}

/// If no call fails, `stats` results in what the opening, the joint run and its counts say. It does nothing: its
/// contract is the law.
pub fn law_of_complete_stats<S: Shelf, O: Sink>()
    ensures { StatsAreComplete S O }
{}

/// If no call fails and the record fits, `view` and `solo` read it to its end; `solo` over cloaked files refuses the files,
/// or reads the record to its end or its first fault. It does nothing: its contract is the law.
pub fn law_of_complete_views<S: Shelf, O: Sink>()
    ensures views { ViewsAreComplete S O }
    ensures solos { SolosAreComplete S O }
    ensures over_files { SoloOversAreComplete S O }
{}

/// If no call fails, `gen` writes its image, `demo` results in what the joint run of its image says, and `upgrade`
/// writes version 2 of its bundle, or that is too large. It does nothing: its contract is the law.
pub fn law_of_complete_images<S: Shelf, O: Sink>()
    ensures gens { GensAreComplete S O }
    ensures demos { DemosAreComplete O }
    ensures upgrades { UpgradesAreComplete S O }
{}

/// `view` of the record that a run wrote shows the lines of that run, however it began, and so does `solo` for a program
/// that began without files. It does nothing: its contract is the law.
pub fn law_of_reading_back<S: Shelf, O: Sink>()
    ensures views { RunsAreViewed S O }
    ensures solos { RunsAreSoloed S O }
{}

/// On a `NeverShelf` and a `NeverSink` no count of faults rises. So `run` of a bundle ends with what the opening and the
/// joint run say, or for want of memory. It does nothing: its contract is the law.
pub fn law_of_runs_that_never_fail()
    ensures nothing { NothingEverRises ⟦<NeverShelf as Shelf>⟧ ⟦<NeverSink as Sink>⟧ }
    ensures runs { RunsNeverFail ⟦<NeverShelf as Shelf>⟧ ⟦<NeverSink as Sink>⟧ }
{}
