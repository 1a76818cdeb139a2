//! What is asked of a run that is frozen, and of one that goes on.
ghost use Rattle.std.specs.Prelude.{◌≤◌, ◌≢◌};
ghost use Rattle.cloak_model.specs.Run.{most_steps};

use crate::run_request::Randomness;

/// The files of a run that is frozen.
#[derive(Clone, Copy)]
pub struct FreezeFiles<'a> {
    pub bundle: &'a str,
    pub record_name: &'a str,
    /// The frozen state, which is written.
    pub state_name: &'a str,
    /// The initialization vectors of what is shown in it.
    pub vectors_name: &'a str,
}

/// A run that is frozen after this many steps. The two names that are written are different words.
#[derive(Drop)]
pub struct FreezeRequest<'a> {
    pub files: FreezeFiles<'a>,
    pub steps: u32,
    pub randomness: Randomness<'a>,
    ghost few_steps: { steps ≤ most_steps },
    ghost apart: { files.record_name.now ≢ files.state_name.now },
}

/// The files of a run that goes on.
#[derive(Clone, Copy)]
pub struct ThawFiles<'a> {
    pub bundle: &'a str,
    /// The record of the rest, which is written.
    pub record_name: &'a str,
    /// The frozen state, which is read.
    pub state_name: &'a str,
}

/// A run that goes on from its frozen state for up to this many steps, with the randomness of the whole run.
#[derive(Drop)]
pub struct ThawRequest<'a> {
    pub files: ThawFiles<'a>,
    pub steps: u32,
    pub randomness: Randomness<'a>,
    ghost few_steps: { steps ≤ most_steps },
}
