//! A law on the definitions alone: the record of a run tells exactly the violations of its report (`cloak_model`,
//! `specs/Report`). A program is listed as ended exactly if its end is among the items of the record. And the refusals that are
//! counted are the steps in which a hart asks to resume a context, and no item of the step answers: the context is not
//! resumed, and no program ends.
//!
//! The law holds from every beginning, also over the files of an earlier run.
//!
//! No body changes a law, so there is no wrong body to refuse here.
#![tactic(auto)]

ghost use Rattle.recorded_law.specs.Recorded.{EndsAreRecorded, RefusalsAreRecorded};

/// Who reads the record and who reads the report know of the same ends, and of as many refusals. It does nothing: its
/// contract is the law.
pub fn law_of_recorded_violations()
    ensures ends { EndsAreRecorded }
    ensures refusals { RefusalsAreRecorded }
{}
