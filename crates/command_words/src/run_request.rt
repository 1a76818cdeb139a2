//! What is asked of a run.
ghost use Rattle.std.specs.Prelude.{◌≤◌};
ghost use Rattle.cloak_model.specs.Run.{most_steps};

/// Where a run takes its randomness.
#[derive(Clone, Copy)]
pub enum Randomness<'a> {
    /// The stream of a number.
    Numbered(u64),
    /// The bytes of the file of this name.
    FromFile(&'a str),
}

/// A run that is asked for, with its record.
#[derive(Drop)]
pub struct RunRequest<'a> {
    pub bundle: &'a str,
    pub record_name: &'a str,
    pub steps: u32,
    pub randomness: Randomness<'a>,
    ghost few_steps: { steps ≤ most_steps },
}

/// A run whose counts are asked for. It has no record.
#[derive(Drop)]
pub struct StatsRequest<'a> {
    pub bundle: &'a str,
    pub steps: u32,
    pub randomness: Randomness<'a>,
    ghost few_steps: { steps ≤ most_steps },
}
