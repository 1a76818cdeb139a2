use rv_atomic::Atomic;
use rv_isa::Instr;

/// What one word of the image stands for.
#[derive(Clone, Copy)]
pub enum ImageWord {
    Instruction(Instr),
    Atomic(Atomic),
    /// A word given by its number.
    Data(u32),
}
