//! The fields of an address and of a table entry, and what an entry allows.

ghost use Rattle.std.specs.Prelude.{◌≡◌, ◌==◌, ◌+◌, ◌*◌, ◌<◌, ◌%◌, ◌^◌};
ghost use Rattle.rv_isa.specs.Fields as fields;
ghost use Rattle.cloak_model.specs.Walk as spec;

use cloak_base::{Kind, Mode, RAM_START};
use cloak_model::{Access, has_bit};

#[inline]
pub fn is_valid(entry: u32) -> bool
    ensures { result ≡ spec.is_valid entry }
{
    has_bit(entry, 0) && (has_bit(entry, 1) || !has_bit(entry, 2))
}

#[inline]
pub fn is_pointer(entry: u32) -> bool
    ensures { result ≡ spec.is_pointer entry }
{
    !has_bit(entry, 1) && !has_bit(entry, 3)
}

#[inline]
pub fn is_plain_pointer(entry: u32) -> bool
    ensures { result ≡ spec.is_plain_pointer entry }
{
    !has_bit(entry, 6) && (!has_bit(entry, 7) && !has_bit(entry, 4))
}

fn allows_kind(kind: Kind, mxr: bool, entry: u32) -> bool
    ensures { result ≡ spec.allows_kind kind mxr entry }
{
    match kind {
        Kind::Fetch => has_bit(entry, 3),
        Kind::Load => has_bit(entry, 1) || (mxr && has_bit(entry, 3)),
        Kind::Store => has_bit(entry, 2) && has_bit(entry, 7),
    }
}

fn is_fetch(kind: Kind) -> bool
    ensures { result ≡ spec.is_fetch kind }
{
    match kind {
        Kind::Fetch => true,
        Kind::Load | Kind::Store => false,
    }
}

fn allows_mode(mode: Mode, sum: bool, kind: Kind, entry: u32) -> bool
    ensures { result ≡ spec.allows_mode mode sum kind entry }
{
    match mode {
        Mode::U => has_bit(entry, 4),
        Mode::S => !has_bit(entry, 4) || (sum && !is_fetch(kind)),
    }
}

/// A leaf lets the access through.
pub fn allows(a: &Access, entry: u32) -> bool
    ensures { result ≡ spec.allows a.now entry }
{
    allows_kind(a.kind, a.mxr, entry)
        && (allows_mode(a.mode, a.sum, a.kind, entry) && has_bit(entry, 6))
}

pub fn page_fault(kind: Kind) -> u32
    ensures { result ≡ spec.page_fault kind }
{
    match kind {
        Kind::Fetch => 12,
        Kind::Load => 13,
        Kind::Store => 15,
    }
}

/// The frame of a physical address.
pub fn frame_of(pa: u64) -> u32
    requires { pa < 2 ^ 34 }
    ensures { result ≡ (spec.frame_at pa).0 }
{
    (pa.saturating_sub(RAM_START as u64) / 4096) as u32
}

/// Where the entry of level 1 lies.
pub fn first_entry(satp: u32, va: u32) -> u64
    ensures value { result ≡ spec.first_entry satp va }
    ensures aligned { result % 4 ≡ 0 }
    ensures bound { result < 2 ^ 34 }
{
    4096 * (satp & 0x3f_ffff) as u64 + 4 * (va >> 22) as u64
}

/// Where the entry of level 0 lies.
pub fn second_entry(entry: u32, va: u32) -> u64
    ensures value { result ≡ spec.second_entry entry va }
    ensures aligned { result % 4 ≡ 0 }
    ensures bound { result < 2 ^ 34 }
{
    4096 * (entry >> 10) as u64 + 4 * ((va >> 12) & 0x3ff) as u64
}

/// PPN[0] is 0, as it must be in a superpage.
pub fn is_aligned_superpage(entry: u32) -> bool
    ensures { result ≡ (fields.bits entry 19 10 == 0) }
{
    (entry >> 10) & 0x3ff == 0
}

/// The address in a superpage.
pub fn superpage_address(entry: u32, va: u32) -> u64
    ensures value { result ≡ 4194304 * fields.bits entry 31 20 + fields.bits va 21 0 }
    ensures offset { result % 4096 ≡ va % 4096 }
{
    4194304 * (entry >> 20) as u64 + (va & 0x3f_ffff) as u64
}

/// The address in a page.
pub fn page_address(entry: u32, va: u32) -> u64
    ensures value { result ≡ 4096 * fields.bits entry 31 10 + fields.bits va 11 0 }
    ensures offset { result % 4096 ≡ va % 4096 }
{
    4096 * (entry >> 10) as u64 + (va & 0xfff) as u64
}
