//! A machine that goes on from a frozen state.
ghost use Rattle.std.specs.Prelude.{◌≡◌, ◌≢◌, ◌≤◌, ◌<◌, ◌+◌, ◌%◌, ◌↔◌, ◌++◌, ℕ, List, [], All, AllPairs, IfOk, IfErr, IfSome, IsSomeAnd, IsTrue, None, Option, is_some, length, map, slice_get, slice_index, slice_index_or, true, false};
ghost use Rattle.std.specs.List.{flat_map};
ghost use Rattle.cloak_base.specs.declared.names.PageId.{PageId as AnyPage};
ghost use Rattle.cloak_base.specs.declared.names.SpaceId.{SpaceId as AnySpace};
ghost use Rattle.cloak_model.specs.Bundle.{IsInGrammar};
ghost use Rattle.cloak_model.specs.Csr as csr;
ghost use Rattle.cloak_model.specs.DomainState as program;
ghost use Rattle.cloak_model.specs.Beginning.{stored_keys};
ghost use Rattle.cloak_model.specs.Hart as hart;
ghost use Rattle.cloak_model.specs.Memory.{with_mark};
ghost use Rattle.cloak_model.specs.Resources.{resource_at};
ghost use Rattle.cloak_model.specs.Sealing.{Chained};
ghost use Rattle.protect_meta.specs.Pages.{IsIn};
ghost use Rattle.protect_meta.specs.Table.{domains_of, meta_at};
ghost use Rattle.thread_context.specs.Recorded.{root_at};
ghost use Rattle.resource_map.specs.Kept.{IsInUse};
ghost use Rattle.frozen_state.specs.FrozenState as frozen;
ghost use Rattle.frozen_state.specs.Limits.{IsOnce};
ghost use Rattle.frozen_state.specs.Ranges.{IsInRange, IsPage, Rises, has_only, kept_bits, owed_page};
ghost use Rattle.frozen_state.specs.Refusing.{IsFirstChanged, IsProgramOf, IsWholeDomain, IsWholeFrame, LiesIn};
ghost use Rattle.frozen_state.specs.Thawing.{IsHart};
ghost use Rattle.frozen_state.specs.declared.frozen.FrozenFrame.{FrozenFrame as AnyFrame};
ghost use Rattle.frozen_state.specs.declared.frozen.FrozenHart.{FrozenHart as AnyHart};
ghost use Rattle.frozen_state.specs.declared.frozen.FrozenPage.{FrozenPage as AnyRecord};
ghost use Rattle.cloak_pager.specs.State.{bytes_in, held_in, right_at, IsFresh};
ghost use Rattle.cloak_pager.specs.Turns.{StaysBut};
ghost use Rattle.cloak_pager.specs.declared.frame_right.FrameRight.TheVariants as FrameRight;
ghost use Rattle.hypercalls.specs.Standing.{control_of};
ghost use Rattle.joint_machine.specs.Freezing.{AreOwedOrOutside};
ghost use Rattle.joint_machine.specs.Thawing.{AreFilled, AreHarts, AreNumberedHarts, AreThawedDomains, AreThawedFrames};
ghost use Rattle.joint_machine.specs.Thawing.{IsDomainFault, IsFaultUnder, IsFrameFault, IsThawedDomain, IsThawedFrame};
ghost use Rattle.joint_machine.specs.Thawing.{FitsResources, IsThawedPager, FillsFrames, Restores, IsThawFault, ThawsJoint, ThawsUnder, number_of_entry};
ghost use Rattle.joint_machine.specs.Thawing.{root_shown, violation_shown};

use crate::drawing::{count_keys, draw_keys, groups_of};
use crate::joint::Joint;
use crate::thaw_fault::ThawFault;
use cloak_base::{Frame, Meta, NoMemory, PageId, SpaceId, Violation};
use cloak_model::{Bundle, has_bit};
use cloak_pager::Pager;
use cloaked_side::Memory;
use frozen_state::{Frozen, FrozenDomain, FrozenFrame, FrozenHart, FrozenPage};
use host_calls::{Disk, Hart, Reservations};
use hypercalls::Domain;
use io_traits::Stream;
use multi_shadow::Shadows;
use rv_traps::Csrs;
use sha2::{Digest, Sha256};
use std::alloc::Global;
use thread_context::Roots;

/// The page of a domain has its digest.
fn is_whole(from: &FrozenDomain) -> bool
    ensures { IsTrue result ↔ IsWholeDomain from.now }
{
    Sha256::digest(from.page.as_slice()) == from.meta.digest
}

/// The pages of all domains have their digests. The error is the first one that has not.
fn check_domains(domains: &[FrozenDomain]) -> Result<(), u32>
    requires { length domains.now ≤ 4 }
    ensures whole { IfOk result (λ _. All IsWholeDomain domains.now) }
    ensures changed { IfErr result (IsFirstChanged IsWholeDomain domains.now) }
{
    for (number, from) in domains.iter().enumerate() {
        if !is_whole(from) {
            return Err(number as u32);
        }
    }
    Ok(())
}

/// Each frame has its bytes.
fn fill_frames(pager: &mut Pager, frames: &[FrozenFrame])
    requires few { length frames.now ≤ 4096 }
    requires count { length frames.now ≡ length pager.old.frames }
    requires outside { (k : ℕ) → held_in pager.old k ≡ None }
    ensures { FillsFrames pager.old pager.new frames.now }
{
    for (f, frame) in frames.iter().enumerate() {
        pager.fill_outside(Frame(f as u32), &frame.bytes);
    }
}

/// What is known of recorded pages is told to a pager that knows nothing of pages yet.
fn restore_recorded(pager: &mut Pager, recorded: &[FrozenPage])
    requires pages { All (λ (p : AnyRecord). IsIn (domains_of pager.old.table) p.page) recorded.now }
    requires rising { AllPairs Rises recorded.now }
    requires fresh { (q : AnyPage) → IsFresh pager.old q }
    ensures { Restores pager.old pager.new recorded.now }
{
    for p in recorded {
        pager.restore(p.page, p.meta);
    }
}

/// A frame that is owed a page holds it again. False if what it shows has not its digest.
fn thaw_frame(pager: &mut Pager, f: Frame, from: &FrozenFrame) -> bool
    requires inside { f.0 < length pager.old.frames }
    requires outside { right_at pager.old f.0 ≡ FrameRight.Outside f }
    requires bytes { bytes_in pager.old f.0 ≡ from.now.bytes }
    requires page { IfSome (owed_page from.now) (IsIn (domains_of pager.old.table)) }
    requires nowhere { IfSome (owed_page from.now) (λ q. (k : ℕ) → held_in pager.old k ≢ Some q) }
    ensures stays { StaysBut f.0 pager.old pager.new }
    ensures metas { (q : AnyPage) → meta_at pager.new.table q ≡ meta_at pager.old.table q }
    ensures thawed { result ≡ true → IsThawedFrame pager.new f.0 from.now from.now.owed }
    ensures whole { result ≡ true → IsWholeFrame from.now }
    ensures changed { result ≡ false → IsWholeFrame from.now → ⊥ }
{
    match &from.owed {
        None => true,
        Some((q, meta)) => pager.thaw_frame(f, *q, meta),
    }
}

/// Each frame that is owed a page holds it again, by rising number. The error is the first one that does not show what it
/// has the digest of.
fn thaw_frames(pager: &mut Pager, frames: &[FrozenFrame]) -> Result<(), u32>
    requires few { length frames.now ≤ 4096 }
    requires count { length frames.now ≡ length pager.old.frames }
    requires outside { AreFilled pager.old frames.now }
    requires pages { All (λ (frame : AnyFrame). IfSome (owed_page frame) (IsIn (domains_of pager.old.table))) frames.now }
    requires once { IsOnce (map owed_page frames.now) }
    ensures thawed { IfOk result (λ _. AreThawedFrames pager.old pager.new frames.now) }
    ensures whole { IfOk result (λ _. All IsWholeFrame frames.now) }
    ensures changed { IfErr result (IsFirstChanged IsWholeFrame frames.now) }
{
    for (f, frame) in frames.iter().enumerate() {
        if !thaw_frame(pager, Frame(f as u32), frame) {
            return Err(f as u32);
        }
    }
    Ok(())
}

/// The pager of frozen frames and pages, under these keys.
fn thaw_pager(
    alloc: Global,
    keys: [[u8; 16]; 4],
    group: [u32; 4],
    f: &Frozen,
) -> Result<Pager, ThawFault>
    requires least { 64 ≤ length f.now.frames }
    requires most { length f.now.frames ≤ 4096 }
    requires domains { length f.now.domains ≤ 4 }
    requires groups { All (λ g. g < 4) group }
    requires owed { All (λ (frame : AnyFrame). IfSome (owed_page frame) (IsPage (length f.now.domains))) f.now.frames }
    requires once { IsOnce (map owed_page f.now.frames) }
    requires recorded { All (λ (p : AnyRecord). IsPage (length f.now.domains) p.page) f.now.recorded }
    requires rising { AllPairs Rises f.now.recorded }
    ensures thaws { IfOk result (λ pager. IsThawedPager pager (record { numbered = keys; group = group; seal = Chained })
        (length f.now.domains) f.now.frames f.now.recorded) }
    ensures whole { IfOk result (λ _. All IsWholeFrame f.now.frames) }
    ensures faults { IfErr result (IsFrameFault f.now.frames) }
{
    let frames = f.frames.as_slice();
    let count = frames.len() as u32;
    let domains = f.domains.as_slice().len() as u32;
    let mut pager = Pager::open(alloc, count, domains, keys, group)?;
    fill_frames(&mut pager, frames);
    restore_recorded(&mut pager, f.recorded.as_slice());
    match thaw_frames(&mut pager, frames) {
        Ok(()) => Ok(pager),
        Err(number) => Err(ThawFault::Frame(number)),
    }
}

/// A page lies below the size of a resource in use.
fn is_in_use(domain: &Domain, q: &PageId) -> bool
    ensures { IsTrue result ↔ IsSomeAnd (resource_at (control_of domain.now).resources q.now.resource)
        (λ held. q.now.page < held.pages) }
{
    match domain.pages(q.resource) {
        None => false,
        Some(pages) => q.page < pages,
    }
}

/// So does a page if it is of the domain of this number.
fn lies_in(domain: &Domain, number: u32, q: &PageId) -> bool
    ensures { IsTrue result ↔ LiesIn (control_of domain.now).resources number q.now }
{
    if q.domain == number {
        is_in_use(domain, q)
    } else {
        true
    }
}

/// So does the page that a frame is owed.
fn owes_in(domain: &Domain, number: u32, frame: &FrozenFrame) -> bool
    ensures { IsTrue result ↔ IfSome (owed_page frame.now) (LiesIn (control_of domain.now).resources number) }
{
    match &frame.owed {
        None => true,
        Some((q, _)) => lies_in(domain, number, q),
    }
}

/// So do the pages that all frames are owed.
fn all_owed(domain: &Domain, number: u32, frames: &[FrozenFrame]) -> bool
    ensures { IsTrue result ↔ All (λ (frame : AnyFrame). IfSome (owed_page frame)
        (LiesIn (control_of domain.now).resources number)) frames.now }
{
    frames.iter().all(|frame| owes_in(domain, number, frame))
}

/// So do all pages that are recorded.
fn all_recorded(domain: &Domain, number: u32, recorded: &[FrozenPage]) -> bool
    ensures { IsTrue result ↔ All (λ (p : AnyRecord). LiesIn (control_of domain.now).resources number p.page) recorded.now }
{
    recorded.iter().all(|p| lies_in(domain, number, &p.page))
}

/// A space is in use if a page table is shown of it.
fn is_rooted(domain: &Domain, roots: &[Option<u32>; 8], space: u32) -> bool
    requires { space < 8 }
    ensures { IsTrue result ↔ (is_some (slice_index_or roots.now space None) ≡ true →
        IsInUse (control_of domain.now).resources space) }
{
    match roots[space as usize] {
        None => true,
        Some(_) => domain.has_space(space),
    }
}

/// Each space is in use of which a page table is shown.
fn all_rooted(domain: &Domain, roots: &[Option<u32>; 8]) -> bool
    ensures { IsTrue result ↔ ((space : ℕ) → is_some (slice_index_or roots.now space None) ≡ true →
        IsInUse (control_of domain.now).resources space) }
{
    for space in 0..8 {
        if !is_rooted(domain, roots, space) {
            return false;
        }
    }
    true
}

/// All that is frozen beside the page of a domain is of its program.
fn fits(domain: &Domain, f: &Frozen, number: u32, from: &FrozenDomain) -> bool
    ensures { IsTrue result ↔ FitsResources f.now number from.now (control_of domain.now).resources }
{
    if !all_owed(domain, number, f.frames.as_slice()) {
        return false;
    }
    if !all_recorded(domain, number, f.recorded.as_slice()) {
        return false;
    }
    all_rooted(domain, &from.roots)
}

/// The program that is shown as a domain. None if there is none.
fn thaw_domain(pager: &Pager, f: &Frozen, number: u32, from: &FrozenDomain) -> Option<Domain>
    requires { number < 4 }
    ensures thaws { IfSome result (IsThawedDomain pager.now.keys f.now number from.now) }
    ensures wrong { result ≡ None → (control : program.Control) →
        IsProgramOf pager.now.keys f.now number from.now control → ⊥ }
{
    let mut page = from.page;
    pager.open_bytes(number, &from.meta.iv, &mut page);
    let domain = Domain::from_state(number, from.violation.is_some(), &page)?;
    if fits(&domain, f, number, from) {
        Some(domain)
    } else {
        None
    }
}

/// How many bytes of the file the page tables of a domain have.
fn roots_length(roots: &[Option<u32>; 8]) -> u64
    ensures value { result ≡ length (flat_map frozen.maybe_word roots.now) }
    ensures few { result ≤ 40 }
{
    let mut length = 0;
    for root in roots {
        length += match root {
            None => 1,
            Some(_) => 5,
        };
    }
    length
}

/// How many bytes of the file a vector and a digest have.
fn meta_length(meta: &Meta) -> u64
    ensures value { result ≡ 48 }
    ensures iv { length meta.now.iv ≡ 16 }
    ensures digest { length meta.now.digest ≡ 32 }
{
    (meta.iv.as_slice().len() + meta.digest.as_slice().len()) as u64
}

/// How many bytes of the file stand before the page of a domain, from the domain's first one on.
fn before_page(from: &FrozenDomain) -> u64
    ensures value { result ≡ length (frozen.violation_bytes from.now.violation ++ flat_map frozen.maybe_word from.now.roots) + 48 }
    ensures few { result ≤ 101 }
    ensures iv { length from.now.meta.iv ≡ 16 }
    ensures digest { length from.now.meta.digest ≡ 32 }
    ensures page { length from.now.page ≡ 4096 }
{
    let violation = match from.violation {
        None => 1,
        Some(Violation::Page { .. }) => 13,
        Some(Violation::Context { .. }) => 5,
        Some(Violation::Mapping { .. }) => 9,
    };
    violation + roots_length(&from.roots) + meta_length(&from.meta)
}

/// The programs that are shown as domains, by rising number. The error is the first one that shows none, by the place of
/// its page in the file.
fn thaw_domains(alloc: Global, pager: &Pager, f: &Frozen) -> Result<Vec<Domain>, ThawFault>
    requires { length f.now.domains ≤ 4 }
    ensures thaws { IfOk result (λ domains. AreThawedDomains pager.now.keys f.now domains.items) }
    ensures faults { IfErr result (IsDomainFault pager.now.keys f.now) }
{
    let mut domains = Vec::new(alloc);
    let mut at = 60;
    for (number, from) in f.domains.as_slice().iter().enumerate() {
        at += before_page(from);
        let Some(domain) = thaw_domain(pager, f, number as u32, from) else {
            return Err(ThawFault::Form(at));
        };
        domains.push(domain)?;
        at += 4096;
    }
    Ok(domains)
}

/// The registers with these words.
fn thaw_csrs(words: &[u32; 9]) -> Csrs
    requires { (i : ℕ) → i < 9 → has_only (slice_index kept_bits i) (slice_index words.now i) ≡ true }
    ensures { (csrs : csr.Csrs) → map number_of_entry csrs ≡ csr.csr_numbers → csr.csr_words csrs ≡ words.now →
        result ≡ csrs }
{
    let mut csrs = Csrs::new();
    csrs.write(0x100, words[0]);
    csrs.write(0x104, words[1]);
    csrs.write(0x105, words[2]);
    csrs.write(0x140, words[3]);
    csrs.write(0x141, words[4]);
    csrs.write(0x142, words[5]);
    csrs.write(0x143, words[6]);
    csrs.write(0x180, words[8]);
    csrs.set_pending(has_bit(words[7], 5));
    csrs
}

/// The hart of this number.
fn thaw_hart(number: u32, from: &FrozenHart) -> Hart
    requires aligned { from.now.pc % 4 ≡ 0 }
    requires csrs { (i : ℕ) → i < 9 → has_only (slice_index kept_bits i) (slice_index from.now.csrs i) ≡ true }
    ensures { (marks : List (Option ℕ)) (h : hart.Hart) → IsHart number h → frozen.hart_with marks h ≡ from.now → result ≡ h }
{
    Hart {
        regs: from.regs,
        csrs: thaw_csrs(&from.csrs),
        mode: from.mode,
        pc: from.pc,
        timer: from.timer,
        inside: from.inside,
        id: number,
    }
}

/// All harts.
fn thaw_harts(alloc: Global, from: &[FrozenHart]) -> Result<Vec<Hart>, NoMemory>
    requires few { length from.now ≤ 4 }
    requires harts { AreHarts from.now }
    ensures count { IfOk result (λ harts. length harts.items ≡ length from.now) }
    ensures thaws { IfOk result (λ harts. (marks : List (Option ℕ)) (hs : List hart.Hart) → AreNumberedHarts hs →
        map (frozen.hart_with marks) hs ≡ from.now → harts.items ≡ hs) }
{
    let mut harts = Vec::new(alloc);
    for (number, h) in from.iter().enumerate() {
        harts.push(thaw_hart(number as u32, h))?;
    }
    Ok(harts)
}

/// A hart has this reservation now, or none.
fn put_mark(reservations: &mut Reservations, hart: u32, word: Option<u32>)
    ensures { reservations.new ≡ with_mark hart word reservations.old }
{
    match word {
        None => reservations.unmark(hart),
        Some(pa) => reservations.mark(hart, pa),
    }
}

/// The reservations of all harts.
fn thaw_reservations(from: &[FrozenHart]) -> Reservations
    requires { length from.now ≤ 4 }
    ensures { result ≡ map (λ (h : AnyHart). h.mark) from.now }
{
    let mut reservations = Reservations::none(from.len() as u32);
    for (number, h) in from.iter().enumerate() {
        put_mark(&mut reservations, number as u32, h.mark);
    }
    reservations
}

/// The page tables of a domain's spaces are recorded.
fn put_roots(roots: &mut Roots, domain: u32, from: &[Option<u32>; 8])
    requires domain { domain < 4 }
    requires empty { (s : AnySpace) → s.domain ≡ domain → root_at roots.old s ≡ None }
    ensures own { (s : AnySpace) → s.domain ≡ domain → root_at roots.new s ≡ slice_index_or from.now s.number None }
    ensures others { (s : AnySpace) → s.domain ≢ domain → root_at roots.new s ≡ root_at roots.old s }
{
    for number in 0..8 {
        roots.set(SpaceId { domain, number }, from[number as usize]);
    }
}

/// The page tables of all spaces.
fn thaw_roots(from: &[FrozenDomain]) -> Roots
    requires { length from.now ≤ 4 }
    ensures { (s : AnySpace) → root_at result s ≡ root_shown (slice_get from.now s.domain) s.number }
{
    let mut roots = Roots::open();
    for (number, domain) in from.iter().enumerate() {
        put_roots(&mut roots, number as u32, &domain.roots);
    }
    roots
}

/// What ended each domain.
fn thaw_ended(from: &[FrozenDomain]) -> [Option<Violation>; 4]
    requires { length from.now ≤ 4 }
    ensures four { length result ≡ 4 }
    ensures each { (d : ℕ) → slice_index_or result d None ≡ violation_shown (slice_get from.now d) }
{
    let mut ended = [None; 4];
    for (number, domain) in from.iter().enumerate() {
        ended[number] = domain.violation;
    }
    ended
}

/// The machine of a state whose domains have their digests, under these keys, and with what the stream has left.
fn thaw_under(
    alloc: Global,
    b: &Bundle,
    keys: [[u8; 16]; 4],
    stream: Stream,
    f: Frozen,
) -> Result<Joint, ThawFault>
    requires image { IsInGrammar b.now }
    requires range { IsInRange b.now.kernel (length b.now.programs) f }
    ensures thaws { IfOk result (ThawsUnder (stored_keys b.now keys) stream f) }
    ensures faults { IfErr result (IsFaultUnder (stored_keys b.now keys) f) }
{
    let pager = match thaw_pager(alloc, keys, groups_of(b.programs.as_slice()), &f) {
        Ok(pager) => pager,
        Err(fault) => return Err(fault),
    };
    pager.whole();
    let domains = match thaw_domains(alloc, &pager, &f) {
        Ok(domains) => domains,
        Err(fault) => return Err(fault),
    };
    let shadows = Shadows::open(alloc, pager.count())?;
    let harts = thaw_harts(alloc, f.harts.as_slice())?;
    let memory = Memory {
        pager,
        stream,
        draws: f.draws,
        missed: false,
        reservations: thaw_reservations(f.harts.as_slice()),
        shadows,
        counting: false,
    };
    let roots = thaw_roots(f.domains.as_slice());
    let ended = thaw_ended(f.domains.as_slice());
    let Frozen { refused, disk, .. } = f;
    Ok(Joint {
        harts,
        memory,
        domains,
        roots,
        disk: Disk::of(disk.into_vec()),
        ended,
        refused,
    })
}

impl Joint {
    ghost use Rattle.joint_machine.specs.Standing.{harts_of};

    /// The machine that goes on from a frozen state of a guest image, under the run's stream: after its keys and the draws
    /// that were made this hands out the next ones. The tests stand in the order of the faults. The memory of the state's
    /// disk is taken over, and that of its lists is given back.
    pub fn thaw(alloc: Global, b: &Bundle, s: Stream, f: Frozen) -> Result<Joint, ThawFault>
        requires image { IsInGrammar b.now }
        requires range { IsInRange b.now.kernel (length b.now.programs) f }
        ensures thaws { IfOk result (ThawsJoint b.now s f) }
        ensures faults { IfErr result (IsThawFault b.now s f) }
        ensures harts { IfOk result (λ joint. harts_of joint ≡ b.now.kernel.harts) }
        ensures empty { IfOk result (λ joint. joint.memory.shadows.live ≡ []) }
        ensures settled { IfOk result (λ joint. AreOwedOrOutside joint.memory.pager) }
    {
        let mut stream = s;
        let programs = b.programs.as_slice();
        let Some(keys) = draw_keys(&mut stream, count_keys(programs)) else {
            return Err(ThawFault::NoKey);
        };
        if !stream.skip(f.draws) {
            return Err(ThawFault::NoRandom);
        }
        match check_domains(f.domains.as_slice()) {
            Ok(()) => {}
            Err(number) => return Err(ThawFault::Domain(number)),
        }
        thaw_under(alloc, b, keys, stream, f)
    }
}
