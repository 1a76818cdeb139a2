//! Single bits of a word, and the fields of `sstatus`.

ghost use Rattle.std.specs.Prelude.{◌≡◌, ◌<◌, ◌≤◌, ◌^◌};
ghost use Rattle.cloak_model.specs.Csr as model;

use cloak_base::Mode;
use cloak_model::{Sstatus, has_bit};

/// STIE of `sie` and STIP of `sip`.
pub const TIMER: u32 = 5;

const SIE: u32 = 1;

const SPIE: u32 = 5;

const SPP: u32 = 8;

const SUM: u32 = 18;

const MXR: u32 = 19;

/// A word whose bit `k` is set, or 0.
#[inline]
pub fn bit(k: u32, set: bool) -> u32
    requires { k < 32 }
    ensures value { result ≡ model.bit k set }
    ensures bound { result ≤ 2 ^ k }
{
    if set { 1 << k } else { 0 }
}

#[inline]
pub fn sstatus_of(word: u32) -> Sstatus
    ensures { result ≡ model.sstatus_of word }
{
    Sstatus {
        sie: has_bit(word, SIE),
        spie: has_bit(word, SPIE),
        spp: if has_bit(word, SPP) { Mode::S } else { Mode::U },
        sum: has_bit(word, SUM),
        mxr: has_bit(word, MXR),
    }
}

#[inline]
fn is_supervisor(mode: Mode) -> bool
    ensures { result ≡ model.is_supervisor mode }
{
    match mode {
        Mode::U => false,
        Mode::S => true,
    }
}

#[inline]
pub fn sstatus_word(status: Sstatus) -> u32
    ensures { result ≡ model.sstatus_word status }
{
    bit(SIE, status.sie)
        + bit(SPIE, status.spie)
        + bit(SPP, is_supervisor(status.spp))
        + bit(SUM, status.sum)
        + bit(MXR, status.mxr)
}
