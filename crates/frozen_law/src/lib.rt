//! Laws on the definitions alone: what a run can be frozen with (`cloak_model`, `specs/Run`) is in the ranges that a
//! frozen state has, at every moment of every run, whatever the kernel does. The limits of programs, page tables,
//! words and refusals are in `limit_law`, and pages of which no ciphertext is recorded in `chain_law`. Program counters
//! are multiples of 4, and control and status registers have no stray bit. A hart reserves words of RAM alone. The
//! opening draws for 4096 pages at most, and a step offers two pages at most: each makes a frame owe a page, for which
//! a draw is made once. The stream that is left is the beginning's without these draws. If no draw was missing, as in
//! a run that goes on, a recorded ciphertext is that of its page's newest bytes. Each page that is owed or recorded,
//! and each that is named by what ended its program, is one that this program can have. All these together: the state
//! with which a fresh run is frozen is in range, and its machine can go on. And what a run leaves of its cloaked files is
//! such of which a table can tell, and sealed under the keys with which it began: so the next run can go on from it.
//!
//! No body changes a law, so there is no wrong body to refuse here. These changed definitions were tried on a copy,
//! and with none of them did the proof of its law go through. Of harts: sstatus keeps no SUM; program counters are
//! multiples of 8; register 1 is 0. Of reservations: their addresses are multiples of 8; none is in the last frame;
//! none is of the first word of RAM. Of draws: a step offers one page at most; the opening draws for 4095 pages at
//! most; there are fewer than 2^20. Of sizes: each hart has the number 0; the disk has as many bytes as there are
//! frames; there are as many places for owed pages as harts. Of streams: there was one draw more than the ledger
//! counts; the first draw after the opening's keys is one of them again; the stream stays. Of misses: the last step
//! does not stop a run; no draw was missing even after a step that stopped it, or if only the steps before the last
//! one are looked at. Of records: they tell their pages also if a draw was missing, or of a page that a frame is owed,
//! or if the files have other ciphertexts. Of whole pages: they have 4095 bytes; the image has any numbers instead of
//! bytes, or what the run begins with has. Of pages: the last one of a resource is none of it; all are of resource 0,
//! or of program 0. Of ends: there are 15 resources; a resource has 1023 pages; the last frame is not named. Of pages
//! that fit: one that a frame is owed is as recorded, or zeros if nothing is recorded; they fit also after a step that
//! stopped the run. Of going on: a run goes on after such a step, or though pages clashed, or under a stream of any
//! numbers.
#![tactic(auto)]

ghost use Rattle.frozen_law.specs.Draws.{DrawsAreBelow, DrawsAreFew};
ghost use Rattle.frozen_law.specs.Fit.{RunsFitPages};
ghost use Rattle.frozen_law.specs.Frozen.{FrozenStatesGoOn};
ghost use Rattle.frozen_law.specs.Harts.{HartsAreInRange, MarksAreInRam};
ghost use Rattle.frozen_law.specs.Held.{RunsHoldPages};
ghost use Rattle.frozen_law.specs.Left.{RunsEndWithKeys, RunsLeaveContents, VectorsAreBlocks};
ghost use Rattle.frozen_law.specs.Missed.{NothingIsMissed, OnlyLastStops};
ghost use Rattle.frozen_law.specs.Pages.{PagesAreWhole};
ghost use Rattle.frozen_law.specs.Records.{RecordsTellPages};
ghost use Rattle.frozen_law.specs.Sizes.{RunsKeepSizes};
ghost use Rattle.frozen_law.specs.Streams.{RunsKeepKeys, RunsKeepStreams};
ghost use Rattle.frozen_law.specs.Violations.{EndsAreInRange};

/// A state with which a run is frozen is in range, and its machine can go on. It does nothing: its contract is the law.
pub fn law_of_going_on()
    ensures { FrozenStatesGoOn }
{}

/// Harts have no stray bit. It does nothing: its contract is the law.
pub fn law_of_harts()
    ensures { HartsAreInRange }
{}

/// Reservations are of words of RAM. It does nothing: its contract is the law.
pub fn law_of_reservations()
    ensures { MarksAreInRam }
{}

/// Draws are few: by the steps that were made, and so below 2^60. It does nothing: its contract is the law.
pub fn law_of_draws()
    ensures steps { DrawsAreFew }
    ensures below { DrawsAreBelow }
{}

/// There is as much of all as the image says, each under its number. It does nothing: its contract is the law.
pub fn law_of_sizes()
    ensures { RunsKeepSizes }
{}

/// A run's keys are those of its beginning, and its stream is what is left after the draws that were made. It does
/// nothing: its contract is the law.
pub fn law_of_streams()
    ensures streams { RunsKeepStreams }
    ensures keys { RunsKeepKeys }
{}

/// While a run goes on, no draw was missing. It does nothing: its contract is the law.
pub fn law_of_misses()
    ensures steps { OnlyLastStops }
    ensures drawn { NothingIsMissed }
{}

/// What is recorded of a page that no frame is owed tells its newest bytes. It does nothing: its contract is the law.
pub fn law_of_records()
    ensures { RecordsTellPages }
{}

/// Each page has 4096 bytes, each below 256. It does nothing: its contract is the law.
pub fn law_of_whole_pages()
    ensures { PagesAreWhole }
{}

/// What is recorded of pages is enough to go on with them. It does nothing: its contract is the law.
pub fn law_of_fit_pages()
    ensures { RunsFitPages }
{}

/// Each page that is owed or recorded is of a program that there is, of a resource in use, below its size. It does
/// nothing: its contract is the law.
pub fn law_of_pages()
    ensures { RunsHoldPages }
{}

/// What the files of a run hold as it is closed can be told by a table, and is sealed under the keys with which the run
/// began, unless a draw was missing. It does nothing: its contract is the law.
pub fn law_of_left_files()
    ensures vectors { VectorsAreBlocks }
    ensures contents { RunsLeaveContents }
    ensures keys { RunsEndWithKeys }
{}

/// What ended a program names, if it names a page, one that this program can have, and a frame of RAM. It does nothing:
/// its contract is the law.
pub fn law_of_ends()
    ensures { EndsAreInRange }
{}
