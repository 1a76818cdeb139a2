//! A law on the definitions alone: a host call on the disk that is told of a step was made in that step. `disk_call`
//! (`replayed_run`, `specs/Leading`) names, before a step of a hart outside, the block and the frame of its call. If the hart then
//! has the answer 0, the step moved that block: a frame went to the disk, or a block came into a frame, and nothing else of disk
//! and frames changed (`specs/Calls`).
//!
//! No body changes a law, so there is no wrong body to refuse here.
#![tactic(auto)]

ghost use Rattle.call_law.specs.Calls.{ToldCallsAreMade};

/// It does nothing: its contract is the law.
pub fn law_of_told_calls()
    ensures { ToldCallsAreMade }
{}
