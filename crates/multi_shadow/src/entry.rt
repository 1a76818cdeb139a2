ghost use Rattle.std.specs.Prelude.{◌≡◌, ◌<◌, true, false, IfSome};
ghost use Rattle.cloak_model.specs.Contexts.{same_space};
ghost use Rattle.shadow_fold.specs.Entries as spec;

use cloak_base::{Frame, Kind, Mode, SpaceId};
use shadow_fold::{Entry, Regime};

#[inline(always)]
fn is_same_mode(a: Mode, b: Mode) -> bool
    ensures { result ≡ spec.same_mode a b }
{
    match (a, b) {
        (Mode::U, Mode::U) => true,
        (Mode::S, Mode::S) => true,
        _ => false,
    }
}

#[inline(always)]
fn is_same_kind(a: Kind, b: Kind) -> bool
    ensures { result ≡ spec.same_kind a b }
{
    match (a, b) {
        (Kind::Fetch, Kind::Fetch) => true,
        (Kind::Load, Kind::Load) => true,
        (Kind::Store, Kind::Store) => true,
        _ => false,
    }
}

#[inline(always)]
fn is_same_space(a: SpaceId, b: SpaceId) -> bool
    ensures { result ≡ same_space a b }
{
    a.domain == b.domain && a.number == b.number
}

#[inline(always)]
fn is_same_regime(a: &Regime, b: &Regime) -> bool
    ensures { result ≡ spec.same_regime a.now b.now }
{
    match (*a, *b) {
        (
            Regime::Outside {
                satp,
                mode,
                sum,
                mxr,
            },
            Regime::Outside {
                satp: satp2,
                mode: mode2,
                sum: sum2,
                mxr: mxr2,
            },
        ) => { satp == satp2 && (is_same_mode(mode, mode2) && (sum == sum2 && mxr == mxr2)) }
        (
            Regime::Inside {
                satp,
                sum,
                mxr,
                space,
            },
            Regime::Inside {
                satp: satp2,
                sum: sum2,
                mxr: mxr2,
                space: space2,
            },
        ) => { satp == satp2 && (sum == sum2 && (mxr == mxr2 && is_same_space(space, space2))) }
        _ => false,
    }
}

fn is_frame(f: Frame, table: Option<Frame>) -> bool
    ensures { result ≡ spec.is_frame f table }
{
    match table {
        Some(g) => g.0 == f.0,
        None => false,
    }
}

/// The entry is of this regime, page and kind. The page is what most entries differ in.
#[tactic(auto, unfolding(shadow_fold::specs::Entries::is_for))]
#[inline(always)]
pub(crate) fn is_for(e: &Entry, v: &Regime, page: u32, kind: Kind) -> bool
    ensures { result ≡ spec.is_for v.now page kind e.now }
{
    e.page == page && (is_same_regime(&e.regime, v) && is_same_kind(e.kind, kind))
}

/// The entry leads to this frame.
#[tactic(auto, unfolding(shadow_fold::specs::Entries::is_target))]
pub(crate) fn is_target(f: Frame, e: &Entry) -> bool
    ensures { result ≡ spec.is_target f e.now }
{
    e.frame.0 == f.0
}

/// The frame is one of the entry's table frames.
#[tactic(auto, unfolding(shadow_fold::specs::Entries::is_table))]
pub fn is_table(f: Frame, e: &Entry) -> bool
    ensures { result ≡ spec.is_table f e.now }
{
    is_frame(f, e.pt1) || is_frame(f, e.pt0)
}

/// The entry is of a regime of this space.
#[tactic(auto, unfolding(shadow_fold::specs::Entries::is_of_space))]
pub(crate) fn is_of_space(s: SpaceId, e: &Entry) -> bool
    ensures { result ≡ spec.is_of_space s e.now }
{
    match e.regime {
        Regime::Inside { space, .. } => is_same_space(space, s),
        Regime::Outside { .. } => false,
    }
}

#[inline(always)]
fn is_below(frames: u32, table: Option<Frame>) -> bool
    ensures below { result ≡ true → IfSome table (λ f. f.0 < frames) }
    ensures beyond { result ≡ false → IfSome table (λ f. f.0 < frames) → ⊥ }
{
    match table {
        Some(f) => f.0 < frames,
        None => true,
    }
}

/// The entry's frames are among the first `frames`.
#[inline(always)]
pub(crate) fn is_within(frames: u32, e: &Entry) -> bool
    ensures within { result ≡ true → spec.IsWithin frames e.now }
    ensures beyond { result ≡ false → spec.IsWithin frames e.now → ⊥ }
{
    e.frame.0 < frames && (is_below(frames, e.pt1) && is_below(frames, e.pt0))
}
