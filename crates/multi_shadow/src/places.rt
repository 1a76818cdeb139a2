//! Live entries in an arena: each stands in the chains of the heads that it hangs on, so that whatever ends entries
//! finds them by one chain.
ghost use Rattle.std.specs.Prelude.{◌≡◌, ◌<◌, ◌%◌, ℕ, length, slice_get, slice_set, find, Some, None, IfSome, option_map, true, false};
ghost use Rattle.chain_arena.specs.declared.chain.Chain.{Chain};
ghost use Rattle.chain_arena.specs.Arena.{IsFree, IsInUse, Stands, chains, chain_at, unhooked, IsTidyArena};
ghost use Rattle.multi_shadow.specs.Placed as spec;
ghost use Rattle.multi_shadow.specs.Placed.{ArePlaced, AreApart, LiesAt, live_in, entered, without_if, emptied_if};
ghost use Rattle.multi_shadow.specs.Placed.{all_entered, hangs_on, is_hit, EndsJust, IsPut, IsPower};
ghost use Rattle.chain_arena.specs.Chains.{without};
ghost use Rattle.shadow_fold.specs.Agreement.{satp_in};
ghost use Rattle.shadow_fold.specs.Entries as entries;
ghost use Rattle.shadow_fold.specs.Entries.{IsWithin};
ghost use Rattle.shadow_fold.specs.declared.entry.Entry.{Entry};

use crate::entry::{is_for, is_of_space};
use chain_arena::{Chain, ChainArena, Slot};
use cloak_base::{Frame, Kind, SpaceId};
use shadow_fold::{Entry, Regime};

fn kind_number(kind: Kind) -> u64
    ensures { result ≡ spec.kind_number kind }
{
    match kind {
        Kind::Fetch => 0,
        Kind::Load => 1,
        Kind::Store => 2,
    }
}

fn satp_of(v: &Regime) -> u32
    ensures { result ≡ satp_in v.now }
{
    match *v {
        Regime::Outside { satp, .. } => satp,
        Regime::Inside { satp, .. } => satp,
    }
}

/// The remainder by a power of two.
#[inline(always)]
fn low_part(number: u64, power: u32) -> u32
    requires power { IsPower power }
    ensures within { result < power }
    ensures part { result ≡ number % power }
{
    let mask = u64::from(power - 1);
    (number & mask) as u32
}

/// The bucket of a regime, page and kind.
#[inline(always)]
#[tactic(auto, unfolding(crate::specs::Placed::bucket_of))]
fn bucket_of(heads: u32, v: &Regime, page: u32, kind: Kind) -> u32
    requires power { IsPower heads }
    ensures within { result < heads }
    ensures bucket { result ≡ spec.bucket_of heads v.now page kind }
{
    let number = 4 * u64::from(page) + kind_number(kind) + 37 * u64::from(satp_of(v));
    low_part(number, heads)
}

fn number_of(f: Option<Frame>) -> Option<u32>
    ensures { result ≡ spec.number_of f }
{
    match f {
        Some(g) => Some(g.0),
        None => None,
    }
}

/// Whether an entry is of this space; without a space every entry is wanted.
fn is_wanted(space: Option<SpaceId>, e: &Entry) -> bool
    ensures { result ≡ spec.is_wanted space e.now }
{
    match space {
        Some(s) => is_of_space(s, e),
        None => true,
    }
}

/// Puts the slot first in the chain of this head, if there is one.
fn enter(arena: &mut ChainArena<Entry>, s: Slot, c: Chain, head: Option<u32>)
    requires tidy { IsTidyArena arena.old }
    requires in_use { IsInUse arena.old s }
    requires within { IfSome head (λ h. h < arena.old.heads) }
    requires apart { Stands arena.old c s → ⊥ }
    ensures entered { arena.new ≡ entered arena.old c head s }
    ensures tidy { IsTidyArena arena.new }
{
    if let Some(h) = head {
        arena.hook(s, c, h);
    }
}

/// Takes the slot out of its chain of this kind, if it stands in one.
fn leave(arena: &mut ChainArena<Entry>, s: Slot, c: Chain, stands: bool)
    requires long { (c : Chain) → length (chains arena.old c) ≡ arena.old.heads }
    requires in_use { IsInUse arena.old s }
    requires stands { stands ≡ true → Stands arena.old c s }
    requires out { stands ≡ false → Stands arena.old c s → ⊥ }
    ensures { arena.new ≡ unhooked arena.old c s }
{
    if stands {
        arena.unhook(s, c);
    }
}

/// Puts the slot of an entry into all its chains.
fn enter_all(arena: &mut ChainArena<Entry>, heads: u32, s: Slot, e: Entry)
    requires tidy { IsTidyArena arena.old }
    requires lies { LiesAt arena.old s e }
    requires apart { (c : Chain) → Stands arena.old c s → ⊥ }
    requires heads { heads ≡ arena.old.heads }
    requires some { 0 < heads }
    requires power { IsPower heads }
    requires within { IsWithin heads e }
    ensures entered { arena.new ≡ all_entered arena.old s e }
    ensures tidy { IsTidyArena arena.new }
{
    let bucket = bucket_of(heads, &e.regime, e.page, e.kind);
    enter(arena, s, Chain::Bucket, Some(bucket));
    enter(arena, s, Chain::Target, Some(e.frame.0));
    enter(arena, s, Chain::First, number_of(e.pt1));
    enter(arena, s, Chain::Second, number_of(e.pt0));
}

/// Puts an entry into a free slot and into its chains. False if all slots are in use. Kept out of line, so that an
/// entry that displaces none costs little.
#[inline(never)]
pub(crate) fn place(arena: &mut ChainArena<Entry>, heads: u32, e: Entry) -> bool
    requires placed { ArePlaced arena.old }
    requires heads { heads ≡ arena.old.heads }
    requires some { 0 < heads }
    requires power { IsPower heads }
    requires within { IsWithin heads e }
    ensures full { result ≡ false → (s : ℕ) → IsFree arena.old s → ⊥ }
    ensures unchanged { result ≡ false → arena.new ≡ arena.old }
    ensures put { result ≡ true → IsPut e arena.old arena.new }
    ensures placed { ArePlaced arena.new }
    ensures heads { arena.new.heads ≡ arena.old.heads }
{
    match arena.take(e) {
        Some(s) => {
            enter_all(arena, heads, s, e);
            true
        }
        None => false,
    }
}

/// Takes an entry out of all its chains, and gives its slot back. Kept out of line, so that an empty chain costs
/// little.
#[cold]
#[inline(never)]
fn remove(arena: &mut ChainArena<Entry>, s: Slot)
    requires placed { ArePlaced arena.old }
    requires in_use { IsInUse arena.old s }
    ensures placed { ArePlaced arena.new }
    ensures heads { arena.new.heads ≡ arena.old.heads }
    ensures payloads { arena.new.payloads ≡ slice_set arena.old.payloads s None }
    ensures chains { (c : Chain) (h : ℕ) → chain_at arena.new c h ≡ without s (chain_at arena.old c h) }
{
    let e = arena.payload(s);
    leave(arena, s, Chain::Bucket, true);
    leave(arena, s, Chain::Target, true);
    leave(arena, s, Chain::First, e.pt1.is_some());
    leave(arena, s, Chain::Second, e.pt0.is_some());
    arena.give_back(s);
}

/// The same, if that is wanted.
fn remove_if(arena: &mut ChainArena<Entry>, s: Slot, wanted: bool)
    requires placed { ArePlaced arena.old }
    requires in_use { IsInUse arena.old s }
    ensures placed { ArePlaced arena.new }
    ensures heads { arena.new.heads ≡ arena.old.heads }
    ensures payloads { arena.new.payloads ≡ emptied_if wanted s arena.old.payloads }
    ensures chains { (c : Chain) (h : ℕ) → chain_at arena.new c h ≡ without_if wanted s (chain_at arena.old c h) }
{
    if wanted {
        remove(arena, s);
    }
}

/// Ends the entries in the chain of one head: those of a space, or all.
#[inline(never)]
fn prune(arena: &mut ChainArena<Entry>, c: Chain, head: u32, space: Option<SpaceId>)
    requires placed { ArePlaced arena.old }
    requires within { head < arena.old.heads }
    ensures placed { ArePlaced arena.new }
    ensures heads { arena.new.heads ≡ arena.old.heads }
    ensures ends { EndsJust (is_hit arena.old.heads c head space) arena.old arena.new }
{
    let mut at = arena.first(c, head);
    while let Some(s) = at {
        let e = arena.payload(s);
        at = arena.next(s, c);
        remove_if(arena, s, is_wanted(space, &e));
    }
}

/// The same, with little done if the chain is empty.
#[inline(always)]
fn prune_head(arena: &mut ChainArena<Entry>, c: Chain, head: u32, space: Option<SpaceId>)
    requires placed { ArePlaced arena.old }
    requires within { head < arena.old.heads }
    ensures placed { ArePlaced arena.new }
    ensures heads { arena.new.heads ≡ arena.old.heads }
    ensures ends { EndsJust (is_hit arena.old.heads c head space) arena.old arena.new }
{
    if arena.first(c, head).is_some() {
        prune(arena, c, head, space);
    }
}

/// Ends the entries that hang on a frame, by one kind of chains.
#[inline(always)]
pub(crate) fn prune_frame(arena: &mut ChainArena<Entry>, heads: u32, c: Chain, f: Frame)
    requires placed { ArePlaced arena.old }
    requires heads { heads ≡ arena.old.heads }
    ensures placed { ArePlaced arena.new }
    ensures heads { arena.new.heads ≡ arena.old.heads }
    ensures ends { EndsJust (hangs_on arena.old.heads c f.0) arena.old arena.new }
{
    if f.0 < heads {
        prune_head(arena, c, f.0, None);
    }
}

/// Ends all entries, or all of a space.
pub(crate) fn prune_all(arena: &mut ChainArena<Entry>, heads: u32, space: Option<SpaceId>)
    requires placed { ArePlaced arena.old }
    requires heads { heads ≡ arena.old.heads }
    ensures placed { ArePlaced arena.new }
    ensures heads { arena.new.heads ≡ arena.old.heads }
    ensures ends { EndsJust (spec.is_wanted space) arena.old arena.new }
{
    for head in 0..heads {
        prune_head(arena, Chain::Bucket, head, space);
    }
}

/// The entry of a regime, page and kind, in the chain of its bucket.
#[inline(never)]
fn search_chain<'a>(
    arena: &'a ChainArena<Entry>,
    bucket: u32,
    v: &Regime,
    page: u32,
    kind: Kind,
) -> Option<&'a Entry>
    requires placed { ArePlaced arena.now }
    requires apart { AreApart (live_in arena.now.payloads) }
    requires within { bucket < arena.now.heads }
    requires bucket { bucket ≡ spec.bucket_of arena.now.heads v.now page kind }
    ensures { option_map (λ e. e.now) result ≡ find (entries.is_for v.now page kind) (live_in arena.now.payloads) }
{
    let mut at = arena.first(Chain::Bucket, bucket);
    while let Some(s) = at {
        let e = arena.payload_ref(s);
        if is_for(e, v, page, kind) {
            return Some(e);
        }
        at = arena.next(s, Chain::Bucket);
    }
    None
}

/// The same, with a slot that is tried before the chain, at no call.
#[inline(always)]
fn search_from<'a>(
    arena: &'a ChainArena<Entry>,
    bucket: u32,
    s: Slot,
    v: &Regime,
    page: u32,
    kind: Kind,
) -> Option<&'a Entry>
    requires placed { ArePlaced arena.now }
    requires apart { AreApart (live_in arena.now.payloads) }
    requires in_use { IsInUse arena.now s }
    requires within { bucket < arena.now.heads }
    requires bucket { bucket ≡ spec.bucket_of arena.now.heads v.now page kind }
    ensures { option_map (λ e. e.now) result ≡ find (entries.is_for v.now page kind) (live_in arena.now.payloads) }
{
    let e = arena.payload_ref(s);
    if is_for(e, v, page, kind) {
        return Some(e);
    }
    search_chain(arena, bucket, v, page, kind)
}

/// The entry of a regime, page and kind, with little done if the chain of its bucket is empty.
#[inline(always)]
pub(crate) fn search<'a>(
    arena: &'a ChainArena<Entry>,
    heads: u32,
    v: &Regime,
    page: u32,
    kind: Kind,
) -> Option<&'a Entry>
    requires placed { ArePlaced arena.now }
    requires apart { AreApart (live_in arena.now.payloads) }
    requires heads { heads ≡ arena.now.heads }
    requires some { 0 < heads }
    requires power { IsPower heads }
    ensures { option_map (λ e. e.now) result ≡ find (entries.is_for v.now page kind) (live_in arena.now.payloads) }
{
    let bucket = bucket_of(heads, v, page, kind);
    match arena.first(Chain::Bucket, bucket) {
        Some(s) => search_from(arena, bucket, s, v, page, kind),
        None => None,
    }
}
