//! Laws on the definitions alone: a run that is frozen and thawed is one run (`cloak_model`, `specs/Run`, and
//! `frozen_state`, `specs/Continuing`). A step appends to the console and to the completed loads of a program, and
//! reads neither. So a run goes on alike from a machine that has lost both. A run over two budgets, one after the
//! other, is the run over their sum, unless one of the first steps stops it. Both together say what a user is
//! promised: the record of a run that is frozen, followed by that of its thawing, is the record of the run that was
//! never stopped. The same is true of what is shown, up to the report. Stop and refusals are the same, and so is
//! the status. The report differs in console and loads alone, which it tells since the thawing.
//!
//! The laws hold of the run of every bundle, also of one that no file spells, from whatever beginning.
//!
//! No body changes a law, so there is no wrong body to refuse here. These changes were tried on a copy, and with none
//! of them did the proofs go through. Of the definitions: a completed load stands before the earlier ones; the end of
//! a program drops its loads; a run goes on after the step that stopped it. Of a past: what the console showed before
//! stands after. Of two parts: the steps of the second are counted from where the first began; it begins with the
//! machine of that moment. Of a thawed run: it begins with the console as it was; its steps are numbered from 1; its
//! Close tells the steps since the thawing. Of the law: the console at the end is that since the thawing.
#![tactic(auto)]

ghost use Rattle.thaw_law.specs.FreezeThaw.{RunsAreFirstAndRest, StoppedRunsAreWhole};
ghost use Rattle.thaw_law.specs.Past.{ClosingKeepsPast, RunsKeepPast, RunsNeedNoPast, StepsKeepPast};
ghost use Rattle.thaw_law.specs.TwoParts.{RunsGoOn, StoppedRunsStay};

/// What was shown and loaded before does not matter to what comes, and stays before it. It does nothing: its contract
/// is the law.
pub fn law_of_the_past()
    ensures steps { StepsKeepPast }
    ensures runs { RunsKeepPast }
    ensures closing { ClosingKeepsPast }
    ensures alike { RunsNeedNoPast }
{}

/// A run over n + k steps is one over n steps, and then one over k steps from there. It does nothing: its contract is
/// the law.
pub fn law_of_budgets()
    ensures goes_on { RunsGoOn }
    ensures stopped { StoppedRunsStay }
{}

/// A run that is frozen and thawed is one run. It does nothing: its contract is the law.
pub fn law_of_frozen_runs()
    ensures frozen { RunsAreFirstAndRest }
    ensures stopped { StoppedRunsAreWhole }
{}
