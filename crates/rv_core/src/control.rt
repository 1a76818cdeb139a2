//! Jumps and branches.

ghost use Rattle.std.specs.Prelude.{◌≡◌, ◌<◌};
ghost use Rattle.cloak_model.specs.Effect as model;

use crate::arithmetic::offset;
use cloak_model::Effect;

/// Instruction address misaligned.
const MISALIGNED: u32 = 0;

#[inline]
pub fn jump(rd: u32, pc: u32, target: u32) -> Effect
    requires { rd < 32 }
    ensures value { result ≡ model.jump rd pc target }
    ensures range { model.EffectInRange result }
{
    if target % 4 == 0 {
        Effect::Jump {
            rd,
            link: pc.wrapping_add(4),
            target,
        }
    } else {
        Effect::Raise {
            cause: MISALIGNED,
            tval: target,
        }
    }
}

/// The target of JALR: its lowest bit is cleared.
#[inline]
pub fn even(target: u32) -> u32
    ensures { result ≡ model.even target }
{
    target / 2 * 2
}

#[inline]
pub fn branch(taken: bool, pc: u32, imm: i32) -> Effect
    ensures value { result ≡ model.branch taken pc imm }
    ensures range { model.EffectInRange result }
{
    if !taken {
        return Effect::Nothing;
    }
    let target = offset(pc, imm);
    if target % 4 == 0 {
        Effect::Go { target }
    } else {
        Effect::Raise {
            cause: MISALIGNED,
            tval: target,
        }
    }
}
