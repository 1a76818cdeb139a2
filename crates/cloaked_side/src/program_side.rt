//! What the step of a cloaked program asks of the machine's memory.
ghost use Rattle.std.specs.Prelude.{◌≡◌, ◌<◌};
ghost use Rattle.cloak_model.specs.Csr as csr;
ghost use Rattle.cloaked_side.specs.Leading as spec;

use crate::side::Side;
use cloak_base::{Frame, Kind, PageId, SpaceId};
use cloak_model::{Answer, Emit, InsideRegime, PageSide};
use host_calls::Hart;
use multi_shadow::Regime;

/// What the step of a context reaches, and how its questions are answered.
#[derive(Drop)]
pub struct ProgramSide<'m, 'e, E: Emit> {
    /// It has the regime of the context for the whole step.
    pub side: Side<'m, 'e, E>,
    /// The frame that was reached last for a page of the context.
    pub reached: Frame,
}

/// How a hart that runs a context of this domain sees memory.
pub fn regime_of(h: &Hart, domain: u8) -> InsideRegime
    ensures satp { result.satp ≡ csr.satp_of h.now.csrs }
    ensures sum { result.sum ≡ csr.sum_of h.now.csrs }
    ensures mxr { result.mxr ≡ csr.mxr_of h.now.csrs }
    ensures domain { result.domain ≡ domain }
{
    InsideRegime {
        satp: h.csrs.satp(),
        sum: h.csrs.sum(),
        mxr: h.csrs.mxr(),
        domain,
    }
}

/// Who translates for a context of this space, on a hart that sees memory so.
pub fn regime_inside(regime: InsideRegime, space: SpaceId) -> Regime
    ensures { result ≡ spec.inside_regime regime space }
{
    Regime::Inside {
        satp: regime.satp,
        sum: regime.sum,
        mxr: regime.mxr,
        space,
    }
}

impl<'m, 'e, E: Emit> ProgramSide<'m, 'e, E> {
    ghost use Rattle.cloaked_side.specs.Holding.{domains_in};
    ghost use Rattle.cloaked_side.specs.Seeing.{served};

    /// States what is true of a domain that is served. It does nothing.
    fn prove_served(&self, domain: u32)
        requires { domain ≡ served self.now.side }
        ensures own { domain ≡ self.now.side.domain }
        ensures there { domain < domains_in self.now.side.memory.now }
    {}
}

impl<'m, 'e, E: Emit> PageSide for ProgramSide<'m, 'e, E> {
    ghost use Rattle.cloaked_side.specs.Seeing.{SeesInside, Stays, CanRead, CanWrite, IsCleared, IsUnused, served};

    ghost stands_for = { λ first now w. SeesInside E.gave first.side now.side w };

    ghost kept = { λ first now. Stays E.gave first.side now.side };

    ghost serves = { λ now. served now.side };

    ghost is_reached = { λ now q. CanRead now q };

    ghost is_writable = { λ now q. CanWrite now q };

    ghost is_cleared = { λ now r. IsCleared now.side r };

    ghost is_unused = { λ now n. IsUnused now.side n };

    // In its callers the name of the page stays in registers.
    #[inline(always)]
    fn reach(&mut self, q: PageId, va: u32, kind: Kind) -> Answer {
        self.prove_served(q.domain);
        self.reach_page(q, va, kind)
    }

    #[inline(always)]
    fn read(&mut self, q: PageId, at: u32, width: u32) -> u32 {
        let memory = &mut *self.side.memory;
        memory.pager.read_plain(q, self.reached, at, width)
    }

    #[inline(always)]
    fn write(&mut self, q: PageId, at: u32, width: u32, v: u32) {
        let memory = &mut *self.side.memory;
        memory.pager.write_plain(q, self.reached, at, width, v)
    }

    fn get(&mut self, va: u32, width: u32) -> Answer {
        self.get_value(va, width)
    }

    fn put(&mut self, va: u32, width: u32, v: u32) -> Answer {
        self.put_value(va, width, v)
    }

    fn clear(&mut self, domain: u32, resources: &[bool; 16]) -> Answer {
        self.clear_frames(domain, resources)
    }

    fn copy(&mut self, domain: u32, from: u32, to: u32) {
        let memory = &mut *self.side.memory;
        memory.pager.copy_pages(domain, from, to)
    }

    fn forget(&mut self, domain: u32, resource: u32) {
        self.side.drop_resource(domain, resource)
    }
}
