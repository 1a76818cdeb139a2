//! Where an instruction reaches memory.
ghost use Rattle.std.specs.Prelude.{◌≡◌, IfSome};
ghost use Rattle.rv_atomic.specs.Table.{InRange};
ghost use Rattle.step_lines.specs.Ahead as spec;

use cloak_base::Regs;
use cloak_model::Effect;
use rv_atomic::{Atomic, AtomicOp, decode_atomic};
use rv_core::effect;
use rv_isa::decode;

/// An access that an instruction makes to memory.
#[derive(Clone, Copy)]
pub struct MemoryReach {
    pub is_store: bool,
    pub is_atomic: bool,
    pub address: u32,
    /// How many bytes.
    pub width: u32,
    /// What is stored by a store that is not atomic.
    pub stored: u32,
}

/// Where an effect reaches memory.
fn reach_of_effect(e: &Effect) -> Option<MemoryReach>
    ensures { result ≡ spec.reach_of_effect e.now }
{
    match *e {
        Effect::Load { address, width, .. } => Some(MemoryReach {
            is_store: false,
            is_atomic: false,
            address,
            width,
            stored: 0,
        }),
        Effect::Store {
            address,
            width,
            value,
        } => Some(MemoryReach {
            is_store: true,
            is_atomic: false,
            address,
            width,
            stored: value,
        }),
        Effect::Write { .. } => None,
        Effect::Jump { .. } => None,
        Effect::Go { .. } => None,
        Effect::System => None,
        Effect::Nothing => None,
        Effect::Raise { .. } => None,
    }
}

/// An atomic instruction is a store.
fn is_atomic_store(op: AtomicOp) -> bool
    ensures { result ≡ spec.is_atomic_store op }
{
    !matches!(op, AtomicOp::Lr)
}

/// Where an atomic instruction reaches memory.
fn reach_of_atomic(regs: &Regs, a: Option<Atomic>) -> Option<MemoryReach>
    requires { IfSome a InRange }
    ensures { result ≡ spec.reach_of_atomic regs.now a }
{
    match a {
        None => None,
        Some(a) => {
            let address = regs.get(a.rs1);
            if address % 4 == 0 {
                Some(MemoryReach {
                    is_store: is_atomic_store(a.op),
                    is_atomic: true,
                    address,
                    width: 4,
                    stored: 0,
                })
            } else {
                None
            }
        }
    }
}

/// Where the instruction of a word reaches memory, with these registers and at this program counter.
pub fn reach_of(regs: &Regs, pc: u32, word: u32) -> Option<MemoryReach>
    ensures { result ≡ spec.reach_of regs.now pc word }
{
    match decode(word) {
        None => reach_of_atomic(regs, decode_atomic(word)),
        Some(i) => reach_of_effect(&effect(&i, regs, pc)),
    }
}
