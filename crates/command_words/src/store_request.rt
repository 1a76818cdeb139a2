//! What is asked of a run over cloaked files.
ghost use Rattle.std.specs.Prelude.{◌≤◌, ◌≢◌};
ghost use Rattle.cloak_model.specs.Run.{most_steps};
ghost use Rattle.command_words.specs.Command.{last_counter};

use crate::run_request::Randomness;

/// The files of a run over cloaked files.
#[derive(Clone, Copy)]
pub struct StoreFiles<'a> {
    pub bundle: &'a str,
    pub record_name: &'a str,
    /// The store file that is read, unless the counter is 0.
    pub old_name: &'a str,
    /// The store file that is written.
    pub new_name: &'a str,
    /// The bundle with the disk of the end, which is written.
    pub next_name: &'a str,
    pub secret_name: &'a str,
}

/// A run over the cloaked files that a store file with this counter tells of. The three names that are written are
/// different words.
#[derive(Drop)]
pub struct StoreRequest<'a> {
    pub files: StoreFiles<'a>,
    /// 0 if there are no files yet.
    pub counter: u64,
    pub steps: u32,
    pub randomness: Randomness<'a>,
    ghost few_steps: { steps ≤ most_steps },
    ghost not_last: { counter ≤ last_counter },
    ghost new_apart: { files.record_name.now ≢ files.new_name.now },
    ghost next_apart: { files.record_name.now ≢ files.next_name.now },
    ghost both_apart: { files.new_name.now ≢ files.next_name.now },
}
