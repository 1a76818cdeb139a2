//! RAM as a run begins.
ghost use Rattle.std.specs.Prelude.{◌≡◌, ◌≤◌, ◌+◌, ◌-◌, ◌*◌, ◌<◌, ℕ, [], length, reverse, take, drop, All, IfOk};
ghost use Rattle.cloak_base.specs.Constants.{ram_start, ram_end};
ghost use Rattle.cloak_model.specs.Bundle.{IsKernelImage, IsSegmentIn};
ghost use Rattle.cloak_model.specs.Memory.{with_bytes};
ghost use Rattle.cloak_model.specs.Opening.{started_memory};
ghost use Rattle.cloak_model.specs.Sealing.{Chained};
ghost use Rattle.cloak_pager.specs.State.{held_in};
ghost use Rattle.cloaked_side.specs.Holding.{Holds, domains_in, frames_of};
ghost use Rattle.joint_machine.specs.Starting.{ArePages, HasFrames, IsReady};

use cloak_base::{Frame, NoMemory, RAM_START};
use cloak_model::{KernelImage, Segment};
use cloak_pager::Pager;
use cloaked_side::Memory;
use host_calls::{Disk, Reservations};
use io_traits::Stream;
use multi_shadow::Shadows;
use std::alloc::Global;

/// How many bytes a segment gives back at a time.
const PIECE: usize = 65_536;

/// Stores bytes from an address on.
fn store(pager: &mut Pager, address: u32, bytes: &[u8])
    requires from_start { ram_start ≤ address }
    requires to_end { address + length bytes.now ≤ ram_end (length pager.old.frames) }
    requires few { length pager.old.frames ≤ 4096 }
    requires outside { (k : ℕ) → held_in pager.old k ≡ None }
    requires pages { ArePages pager.old.frames }
    ensures { HasFrames pager.old pager.new (with_bytes pager.old.frames address bytes.now) }
{
    for (i, b) in bytes.iter().enumerate() {
        let place = address - RAM_START + i as u32;
        pager.write_outside(Frame(place / 4096), place % 4096, 1, u32::from(*b));
    }
}

/// Stores the last bytes of a list, the last one first, from an address on. The list gives them back. Returns how many
/// they are.
fn store_piece(pager: &mut Pager, address: u32, bytes: &mut Vec<u8>) -> u32
    requires from_start { ram_start ≤ address }
    requires to_end { address + length bytes.old.items ≤ ram_end (length pager.old.frames) }
    requires few { length pager.old.frames ≤ 4096 }
    requires outside { (k : ℕ) → held_in pager.old k ≡ None }
    requires pages { ArePages pager.old.frames }
    ensures frames { HasFrames pager.old pager.new
        (with_bytes pager.old.frames address (reverse (drop (length bytes.old.items - result) bytes.old.items))) }
    ensures rest { bytes.new.items ≡ take (length bytes.old.items - result) bytes.old.items }
    ensures some { 0 < length bytes.old.items → 0 < result }
    ensures within { result ≤ length bytes.old.items }
{
    let from = bytes.len().saturating_sub(PIECE);
    let count = (bytes.len() - from) as u32;
    bytes[from..].reverse();
    store(pager, address, &bytes[from..]);
    bytes.truncate(from);
    bytes.shrink_to_fit();
    count
}

/// Stores a segment, which gives its bytes back as they are stored.
fn store_segment(pager: &mut Pager, segment: Segment)
    requires segment { IsSegmentIn (length pager.old.frames) segment }
    requires few { length pager.old.frames ≤ 4096 }
    requires outside { (k : ℕ) → held_in pager.old k ≡ None }
    requires pages { ArePages pager.old.frames }
    ensures { HasFrames pager.old pager.new (with_bytes pager.old.frames segment.address segment.bytes) }
{
    let Segment { address, bytes } = segment;
    let mut address = address;
    let mut bytes = bytes.into_vec();
    bytes.reverse();
    while !bytes.is_empty() {
        address += store_piece(pager, address, &mut bytes);
    }
}

/// Memory before any page is placed: zeros, and then the kernel's segments in their order, each of which is given back. No hart
/// has a reservation. And the disk, in the memory of the image's disk.
pub(crate) fn load(
    alloc: Global,
    k: KernelImage,
    domains: u32,
    keys: [[u8; 16]; 4],
    group: [u32; 4],
    stream: Stream,
) -> Result<(Memory, Disk), NoMemory>
    requires kernel { IsKernelImage k }
    requires domains { domains ≤ 4 }
    requires groups { All (λ g. g < 4) group }
    ensures holds { IfOk result (λ p. Holds p.0
        (started_memory k (record { numbered = keys; group = group; seal = Chained }) stream)) }
    ensures frames { IfOk result (λ p. frames_of p.0 ≡ k.frames) }
    ensures domains { IfOk result (λ p. domains_in p.0 ≡ domains) }
    ensures ready { IfOk result (λ p. IsReady p.0.pager 0 0) }
    ensures empty { IfOk result (λ p. p.0.shadows.live ≡ []) }
    ensures disk { IfOk result (λ p. p.1 ≡ k.disk) }
{
    let KernelImage {
        frames,
        harts,
        segments,
        disk,
        ..
    } = k;
    let mut pager = Pager::open(alloc, frames, domains, keys, group)?;
    let shadows = Shadows::open(alloc, frames)?;
    let mut segments = segments.into_vec();
    segments.reverse();
    while let Some(segment) = segments.pop() {
        store_segment(&mut pager, segment);
    }
    pager.whole();
    let memory = Memory {
        pager,
        stream,
        draws: 0,
        missed: false,
        reservations: Reservations::none(harts),
        shadows,
        counting: false,
    };
    Ok((memory, Disk::of(disk.into_vec())))
}
