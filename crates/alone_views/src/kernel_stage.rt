/// Where the items of a kernel that runs alone stand.
#[derive(Clone, Copy)]
pub enum KernelStage {
    /// In no step: before the first Step, or after Close.
    Between,
    /// In a step of this hart, which is outside.
    Outside { hart: usize },
    /// In a step of this hart, which runs a context.
    Inside { hart: usize, ctx: u32 },
    /// In a step whose hart has left.
    Left,
}
