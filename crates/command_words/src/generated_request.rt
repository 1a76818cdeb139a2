//! What is asked of a generated guest image.
ghost use Rattle.std.specs.Prelude.{◌≤◌};
ghost use Rattle.cloak_model.specs.Run.{most_steps};

/// A generated guest image to write.
#[derive(Drop)]
pub struct GenRequest<'a> {
    pub number: u64,
    pub bundle: &'a str,
}

/// A run of a generated guest image, without files.
#[derive(Drop)]
pub struct DemoRequest {
    pub number: u64,
    pub steps: u32,
    ghost few_steps: { steps ≤ most_steps },
}
