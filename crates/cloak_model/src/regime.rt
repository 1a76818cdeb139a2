/// How a hart inside a context sees memory, and whose context it runs.
#[derive(Clone, Copy)]
pub struct InsideRegime {
    pub satp: u32,
    /// SUM of `sstatus`.
    pub sum: bool,
    /// MXR of `sstatus`.
    pub mxr: bool,
    /// The number of the domain.
    pub domain: u8,
}
