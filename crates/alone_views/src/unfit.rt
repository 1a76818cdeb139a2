/// An item, or a missing one, does not fit a machine that runs alone.
#[derive(Clone, Copy, Debug, PartialEq, Eq)]
pub struct Unfit {
    /// The number of the last Step before it, 0 in the opening.
    pub step: u32,
}
