//! Loads and stores, of one, two or four bytes.

ghost use Rattle.std.specs.Prelude.{◌≡◌, ◌<◌, ◌%◌, ◌*◌, ◌^◌};
ghost use Rattle.cloak_model.specs.Effect as model;

use cloak_model::Effect;

/// Load address misaligned.
const LOAD_MISALIGNED: u32 = 4;

/// Store address misaligned.
const STORE_MISALIGNED: u32 = 6;

#[inline]
pub fn load(rd: u32, address: u32, width: u32, signed: bool) -> Effect
    requires register { rd < 32 }
    requires width { model.IsWidth width }
    ensures value { result ≡ model.load_effect rd address width signed }
    ensures range { model.EffectInRange result }
{
    if address % width == 0 {
        Effect::Load {
            rd,
            address,
            width,
            signed,
        }
    } else {
        Effect::Raise {
            cause: LOAD_MISALIGNED,
            tval: address,
        }
    }
}

/// The low bytes of a word.
#[inline]
fn low_bytes(value: u32, width: u32) -> u32
    requires { model.IsWidth width }
    ensures value { result ≡ value % 2 ^ (8 * width) }
    ensures below { result < 2 ^ (8 * width) }
{
    match width {
        1 => value % 0x100,
        2 => value % 0x1_0000,
        _ => value,
    }
}

#[inline]
pub fn store(address: u32, width: u32, value: u32) -> Effect
    requires { model.IsWidth width }
    ensures value { result ≡ model.store_effect address width value }
    ensures range { model.EffectInRange result }
{
    if address % width == 0 {
        Effect::Store {
            address,
            width,
            value: low_bytes(value, width),
        }
    } else {
        Effect::Raise {
            cause: STORE_MISALIGNED,
            tval: address,
        }
    }
}
