//! What a line tells of a hart outside.
ghost use Rattle.std.specs.Prelude.{◌≡◌};
ghost use Rattle.step_lines.specs.Sights as spec;

use cloak_base::Mode;
use host_calls::Hart;

/// A hart outside at a moment.
#[derive(Clone, Copy)]
pub struct HartSight {
    pub mode: Mode,
    pub pc: u32,
    pub regs: [u32; 32],
    /// Its control and status registers, in the order of the report.
    pub csrs: [u32; 9],
}

/// What a line tells of a hart.
pub fn sight_of(h: &Hart) -> HartSight
    ensures { result ≡ spec.sight_of h.now }
{
    HartSight {
        mode: h.mode,
        pc: h.pc,
        regs: *h.regs.words(),
        csrs: h.csrs.words(),
    }
}
