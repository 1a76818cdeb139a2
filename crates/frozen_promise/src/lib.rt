//! Two laws of `freeze` and `thaw`. A run that is frozen by the one, and whose rest is made by the other, is one run;
//! and a state that was saved is accepted. They join the tables of answers of the two commands (`frozen_commands`) by
//! what is true of a run in two parts (`thaw_law`), of a file that spells a state (`frozen_run`), and of a machine that
//! can go on (`joint_machine`).
//!
//! No body changes a law, so there is no wrong body to refuse here; `frozen_commands` and the crates below it have
//! edits. These changed definitions were tried on a copy, and with none of them did the proof of its law go through.
//! Of one run: the report of `thaw` counts steps from where it went on; the state may change before `thaw` reads it;
//! so may the stream. Of saved states: only the steps of `thaw` are limited; a rest that is made has the status 0; a
//! file that cannot be read is no reason for a refusal.
#![tactic(auto)]

ghost use Rattle.frozen_promise.specs.Accepted.{SavedStatesAreAccepted};
ghost use Rattle.frozen_promise.specs.OneRun.{PartsAreOneRun};

use io_traits::{Shelf, Sink};

/// If `freeze` returns Frozen, and `thaw` goes on from its state with the same image and the same random stream, then
/// their records, one after the other, are the record of `run` over the steps of both, and so are their consoles; and
/// the status is that of `run`. It does nothing: its contract is the law.
pub fn law_of_one_run<S: Shelf, O: Sink>()
    ensures { PartsAreOneRun S O }
{}

/// If `freeze` returns Frozen, then `thaw` accepts the state that it saved, with the same image and the same random
/// stream: it makes the rest of the run, unless a file cannot be read or written, or there is not enough memory. It
/// does nothing: its contract is the law.
pub fn law_of_saved_states<S: Shelf, O: Sink>()
    ensures { SavedStatesAreAccepted S O }
{}
