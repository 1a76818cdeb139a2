use frame_store::{ChangedRight, CleanRight, OutsideRight};

/// The right of a frame.
#[derive(Drop)]
pub enum FrameRight {
    Outside(OutsideRight),
    Clean(CleanRight),
    Changed(ChangedRight),
    /// While the right is on its way from one state to another; never seen between calls.
    Spent,
}
