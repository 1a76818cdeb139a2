//! A frozen state is read.
ghost use Rattle.std.specs.Prelude.{◌≡◌, ◌≤◌, ◌+◌, ◌-◌, ℕ, Some, IfOk, OnOk, MatchResult, length, take, drop};
ghost use Rattle.std.specs.Str.{bytes_eq};
ghost use Rattle.sha2.specs.Sha256.{sha256};
ghost use Rattle.cloak_model.specs.Fields as spec;
ghost use Rattle.cloak_model.specs.Fields.{first_in};
ghost use Rattle.cloak_model.specs.StoreFault.{body_of, long_at};
ghost use Rattle.cloak_model.specs.declared.image.KernelImage.{KernelImage};
ghost use Rattle.frozen_state.specs.declared.frozen.Frozen.{Frozen};
ghost use Rattle.frozen_state.specs.FrozenFault as format;
ghost use Rattle.frozen_state.specs.FrozenFault.{form_fault, frozen_fault};
ghost use Rattle.frozen_state.specs.Ranges.{IsFrozen};
ghost use Rattle.field_facts.specs.Faults.{fault_of};
ghost use Rattle.frozen_run.specs.Reading.{TellsFirst, frozen_in};
ghost use Rattle.frozen_run.specs.Shapes.{HasShape};

mod domains;
mod fields;
mod frames;
mod harts;
mod owed;
mod recorded;

use cloak_model::{KernelImage, Sequence};
use domains::read_domains;
use fields::{long, whole, word};
use frames::read_frames;
use frozen_state::{Frozen, FrozenFault};
use harts::read_harts;
use recorded::read_recorded;
use sha2::{Digest, Sha256};
use std::alloc::Global;

/// Magic and digest.
const SHORTEST: usize = 40;

/// The most steps of a run.
const MOST_STEPS: u32 = 1_000_000_000;

/// No run makes this many draws.
const DRAWS_END: u64 = 1 << 60;

/// The numbers that a state begins with.
#[derive(Clone, Copy)]
struct StateHeader {
    steps: u32,
    draws: u64,
    refused: u64,
}

/// The last 32 bytes are the digest of all before them.
fn is_closed(b: &[u8]) -> bool
    requires { 32 ≤ length b.now }
    ensures { result ≡ bytes_eq (drop (length b.now - 32) b.now) (sha256 (body_of b.now)) }
{
    let (body, digest) = b.split_at(b.len() - 32);
    let mut hasher = Sha256::new();
    hasher.update(body);
    let due: [u8; 32] = hasher.finalize();
    digest == due.as_slice()
}

/// A body is of another image.
fn is_other_bundle(body: &[u8], bundle: &[u8; 32]) -> bool
    ensures { result ≡ format.is_other_bundle body.now bundle.now }
{
    body.len() >= 52 && &body[20..52] != bundle.as_slice()
}

/// The body of a file with the right first bytes and digest, which is of no other image.
#[tactic(auto, unfolding(frozen_state::specs::FrozenFault::frozen_fault))]
fn opened<'a>(b: &'a [u8], bundle: &[u8; 32]) -> Result<&'a [u8], FrozenFault>
    ensures fault { (k : KernelImage) (programs : ℕ) → MatchResult result
        (λ body. frozen_fault bundle.now k programs b.now ≡ form_fault body.now k programs)
        (λ fault. frozen_fault bundle.now k programs b.now ≡ Some fault) }
    ensures body { IfOk result (λ body. body.now ≡ body_of b.now) }
    ensures long { IfOk result (λ body. 8 ≤ length body.now) }
{
    if b.len() < SHORTEST {
        return Err(FrozenFault::Short(b.len() as u64));
    }
    if &b[..8] != b"CLOAKFRZ".as_slice() {
        return Err(FrozenFault::BadMagic);
    }
    if !is_closed(b) {
        return Err(FrozenFault::Digest);
    }
    let body = &b[..b.len() - 32];
    if is_other_bundle(body, bundle) {
        return Err(FrozenFault::OtherBundle);
    }
    Ok(body)
}

/// The numbers after the first eight bytes.
fn read_header(body: &[u8]) -> Result<StateHeader, FrozenFault>
    requires { 8 ≤ length body.now }
    ensures fault { fault_of result ≡ first_in body.now (format.header body.now) }
    ensures steps { IfOk result (λ h. h.steps ≡ spec.number body.now 8) }
    ensures draws { IfOk result (λ h. h.draws ≡ long_at body.now 12) }
    ensures refused { IfOk result (λ h. h.refused ≡ long_at body.now 52) }
    ensures inside { OnOk result (60 ≤ length body.now) }
{
    let steps = word(body, 8)?;
    if steps > MOST_STEPS {
        return Err(FrozenFault::Form(8));
    }
    let draws = long(body, 12)?;
    if draws >= DRAWS_END {
        return Err(FrozenFault::Form(12));
    }
    whole(body, 20, 32)?;
    let refused = long(body, 52)?;
    if refused > steps as u64 {
        return Err(FrozenFault::Form(52));
    }
    Ok(StateHeader {
        steps,
        draws,
        refused,
    })
}

/// The bytes of the disk.
fn disk(alloc: Global, body: &[u8], at: usize, n: usize) -> Result<Vec<u8>, FrozenFault>
    requires { at ≤ length body.now }
    ensures fault { TellsFirst result (spec.fault_in body.now (format.any_in body.now at n)) }
    ensures value { IfOk result (λ disk. disk.items ≡ take n (drop at body.now)) }
    ensures inside { OnOk result (at + n ≤ length body.now) }
{
    whole(body, at, n)?;
    Ok(Vec::from_slice(alloc, &body[at..at + n])?)
}

/// The state of a body.
fn form(alloc: Global, body: &[u8], k: &KernelImage, programs: u32) -> Result<Frozen, FrozenFault>
    requires { 8 ≤ length body.now }
    ensures fault { TellsFirst result (form_fault body.now k.now programs) }
    ensures value { IfOk result (λ f. f ≡ frozen_in body.now k.now programs) }
{
    let h = read_header(body)?;
    let (domains, at) = read_domains(alloc, body, 60, k.frames, programs)?;
    let (harts, at) = read_harts(alloc, body, at, k.frames, k.harts)?;
    let blocks = k.disk.as_slice().len();
    let disk = disk(alloc, body, at, blocks)?;
    let (frames, at) = read_frames(alloc, body, at + blocks, programs, k.frames)?;
    let count = word(body, at)?;
    let (recorded, end) = read_recorded(alloc, body, at + 4, programs, count)?;
    if end != body.len() {
        return Err(FrozenFault::Form(end as u64));
    }
    Ok(Frozen {
        steps: h.steps,
        draws: h.draws,
        refused: h.refused,
        domains: Sequence::new(domains),
        harts: Sequence::new(harts),
        disk: Sequence::new(disk),
        frames: Sequence::new(frames),
        recorded: Sequence::new(recorded),
    })
}

/// Reads the frozen state of an image, of which the digest of its file, the kernel and the number of programs are
/// handed in. A fault is the first test that the file fails, in this order: its length below 40 bytes (`Short`), its
/// first eight bytes (`BadMagic`), its last 32 bytes (`Digest`), the digest of the image (`OtherBundle`), and then its
/// fields (`Form`, with the offset). `NoMemory` comes only if a growth was refused.
pub fn read_frozen(
    alloc: Global,
    b: &[u8],
    bundle: &[u8; 32],
    k: &KernelImage,
    programs: u32,
) -> Result<Frozen, FrozenFault>
    // What is read is spelled so, and it is in the ranges of the image.
    ensures state { IfOk result (IsFrozen k.now programs bundle.now b.now) }
    // It is refused with the first fault, and a file that is read has none.
    ensures fault { TellsFirst result (frozen_fault bundle.now k.now programs b.now) }
    // A state that spells the file is the one that is read.
    ensures only { (f : Frozen) → HasShape f → IsFrozen k.now programs bundle.now b.now f →
        IfOk result (λ read. read ≡ f) }
{
    let body = opened(b, bundle)?;
    form(alloc, body, k, programs)
}
