//! The frames of a machine without cloaked pages, and the reservations of its harts.
ghost use Rattle.std.specs.Prelude.{◌≡◌, ◌+◌, ◌*◌, ◌%◌, ◌≤◌, ◌<◌, None, length, nat_lt, replicate, slice_set, IfOk, All, IsTrue};
ghost use Rattle.std.specs.List.{concat};
ghost use Rattle.sha2.specs.Sha256.{sha256};
ghost use Rattle.cloak_base.specs.Pages.{zero_page};
ghost use Rattle.cloak_model.specs.Ask as ask;
ghost use Rattle.cloak_model.specs.Asking.{Follows};
ghost use Rattle.cloak_model.specs.Bundle.{IsSegmentIn};
ghost use Rattle.cloak_model.specs.Effect.{IsWidth};
ghost use Rattle.cloak_base.specs.Constants.{ram_start, ram_end, is_in_frames};
ghost use Rattle.cloak_model.specs.Memory.{filled, mark_of, stored, value_at, with_bytes, with_value_at, zero_ram};
ghost use Rattle.cloak_model.specs.Opening.{with_segments};

use cloak_base::{Frame, NoMemory, RAM_START, frame_of, is_in_frames, place_of};
use cloak_model::{Access, Segment, Walked, access_fault, set_value_in, value_in, word_in};
use host_calls::{Ram, Reservations};
use rv_atomic::{AtomicOp, combine};
use sha2::{Digest, Sha256};
use std::alloc::Global;
use sv32_walk::{WordMemory, walk};

/// RAM without cloaked pages: its frames as the kernel sees them, and the reservations of the harts.
#[derive(Drop)]
pub struct FlatRam {
    pub frames: Vec<[u8; 4096]>,
    pub reservations: Reservations,
    ghost few: { length frames.items ≤ 4096 },
}

impl FlatRam {
    ghost use Rattle.alone_views.specs.KernelWorld.{IsWorld, after_conditional, seen_by};

    /// The address lies in RAM.
    #[inline]
    pub fn is_inside(&self, pa: u64) -> bool
        ensures { result ≡ is_in_frames (length self.now.frames.items) pa }
    {
        is_in_frames(self.frames.len() as u32, pa)
    }

    /// There is a frame of this number.
    pub fn has_frame(&self, f: u32) -> bool
        ensures { result ≡ nat_lt f (length self.now.frames.items) }
    {
        (f as usize) < self.frames.len()
    }

    /// The walk that leads an access to an address in RAM, by the page tables. Err is the cause of its fault.
    fn led(&mut self, satp: u32, access: Access) -> Result<Walked, u32>
        ensures follows { Follows IsWorld self.old self.new result (ask.ask_translate satp access) }
        ensures inside { IfOk result (λ walked. IsTrue (is_in_frames (length self.new.frames.items) walked.pa)) }
        ensures offset { IfOk result (λ walked. walked.pa % 4096 ≡ access.va % 4096) }
        ensures same_count { length self.new.frames.items ≡ length self.old.frames.items }
    {
        let Access {
            mode,
            sum,
            mxr,
            va,
            kind,
        } = access;
        match walk(satp, mode, sum, mxr, va, kind, self) {
            Err(cause) => Err(cause),
            Ok(walked) => {
                if self.is_inside(walked.pa) {
                    Ok(walked)
                } else {
                    Err(access_fault(kind))
                }
            }
        }
    }

    /// The value of the 1, 2 or 4 bytes at an address, the lowest byte first.
    #[inline]
    fn read_at(&self, pa: u32, width: u32) -> u32
        requires inside { IsTrue (is_in_frames (length self.now.frames.items) pa) }
        requires width { IsWidth width }
        requires aligned { pa % width ≡ 0 }
        ensures { result ≡ value_at self.now.frames.items pa width }
    {
        value_in(&self.frames[frame_of(pa).0 as usize], place_of(pa), width)
    }

    /// Stores the lowest 1, 2 or 4 bytes of a word at an address.
    #[inline]
    pub fn write_at(&mut self, pa: u32, width: u32, value: u32)
        requires inside { IsTrue (is_in_frames (length self.old.frames.items) pa) }
        requires width { IsWidth width }
        requires aligned { pa % width ≡ 0 }
        ensures frames { self.new.frames.items ≡ with_value_at pa width value self.old.frames.items }
        ensures marks { self.new.reservations ≡ (stored pa width value (seen_by self.old)).marks }
    {
        set_value_in(
            &mut self.frames[frame_of(pa).0 as usize],
            place_of(pa),
            width,
            value,
        );
        self.reservations.word_written(pa);
    }

    /// A hart has reserved the word at this address.
    fn has_reserved(&self, hart: u32, pa: u32) -> bool
        ensures { result ≡ ask.is_reserved pa (mark_of hart self.now.reservations) }
    {
        match self.reservations.marked(hart) {
            None => false,
            Some(word) => word == pa,
        }
    }

    /// Stores a word at an address if a hart has reserved the word there; its reservation ends either way. Whether the word
    /// was stored.
    fn store_reserved(&mut self, pa: u32, hart: u32, v: u32) -> bool
        requires inside { IsTrue (is_in_frames (length self.old.frames.items) pa) }
        requires aligned { pa % 4 ≡ 0 }
        ensures stored { result ≡ ask.is_reserved pa (mark_of hart self.old.reservations) }
        ensures seen { seen_by self.new ≡ after_conditional result hart pa v (seen_by self.old) }
        ensures same_count { length self.new.frames.items ≡ length self.old.frames.items }
    {
        if self.has_reserved(hart, pa) {
            self.write_at(pa, 4, v);
            self.reservations.unmark(hart);
            return true;
        }
        self.reservations.unmark(hart);
        false
    }

    /// Replaces the bytes of a frame.
    pub fn set_frame(&mut self, f: u32, bytes: &[u8; 4096])
        requires { f < length self.old.frames.items }
        ensures frames { self.new.frames.items ≡ slice_set self.old.frames.items f bytes.now }
        ensures marks { self.new.reservations ≡ (filled f bytes.now (seen_by self.old)).marks }
    {
        self.frames[f as usize] = *bytes;
        self.reservations.frame_written(Frame(f));
    }

    /// The digest of all frames in order.
    pub fn digest(&self) -> [u8; 32]
        ensures { result ≡ sha256 (concat self.now.frames.items) }
    {
        let mut hasher = Sha256::new();
        let frames = self.frames.as_slice();
        for frame in frames {
            hasher.update(frame.as_slice());
        }
        hasher.finalize()
    }
}

#[tactic(auto, unfolding(cloak_model::specs::Ask::ask_word))]
impl WordMemory for FlatRam {
    ghost use Rattle.alone_views.specs.KernelWorld.{IsWorld};

    ghost stands_for = { λ first side w. IsWorld first side w };

    ghost kept = { λ first side. Unit {0} };

    fn word(&mut self, pa: u64) -> Option<u32> {
        if !self.is_inside(pa) {
            return None;
        }
        let pa = pa as u32;
        Some(word_in(&self.frames[frame_of(pa).0 as usize], place_of(pa)))
    }
}

#[tactic(auto, using(cloak_model::proofs::Later::laters), unfolding(cloak_model::specs::Ask::ask_frame, cloak_model::specs::Ask::ask_unmark, cloak_model::specs::Ask::ask_fill, cloak_model::specs::Ask::ask_count))]
impl Ram for FlatRam {
    ghost use Rattle.std.specs.Prelude.{length};
    ghost use Rattle.alone_views.specs.KernelWorld.{IsWorld};

    ghost stands_for = { λ first side w. IsWorld first side w };

    ghost kept = { λ first side. Unit {0} };

    ghost count = { λ side. length side.frames.items };

    fn load(&mut self, satp: u32, access: Access, width: u32) -> Result<u32, u32> {
        match self.led(satp, access) {
            Err(cause) => Err(cause),
            Ok(walked) => Ok(self.read_at(walked.pa as u32, width)),
        }
    }

    fn store(&mut self, satp: u32, access: Access, width: u32, v: u32) -> Result<(), u32> {
        match self.led(satp, access) {
            Err(cause) => Err(cause),
            Ok(walked) => {
                self.write_at(walked.pa as u32, width, v);
                Ok(())
            }
        }
    }

    fn reserve(&mut self, satp: u32, access: Access, hart: u32) -> Result<u32, u32> {
        match self.led(satp, access) {
            Err(cause) => Err(cause),
            Ok(walked) => {
                let pa = walked.pa as u32;
                self.reservations.mark(hart, pa);
                Ok(self.read_at(pa, 4))
            }
        }
    }

    fn store_conditional(
        &mut self,
        satp: u32,
        access: Access,
        hart: u32,
        v: u32,
    ) -> Result<bool, u32> {
        match self.led(satp, access) {
            Err(cause) => Err(cause),
            Ok(walked) => Ok(self.store_reserved(walked.pa as u32, hart, v)),
        }
    }

    fn combine(
        &mut self,
        satp: u32,
        access: Access,
        op: AtomicOp,
        operand: u32,
    ) -> Result<u32, u32> {
        match self.led(satp, access) {
            Err(cause) => Err(cause),
            Ok(walked) => {
                let pa = walked.pa as u32;
                let old = self.read_at(pa, 4);
                self.write_at(pa, 4, combine(op, old, operand));
                Ok(old)
            }
        }
    }

    fn unmark(&mut self, hart: u32) {
        self.reservations.unmark(hart);
    }

    fn frame(&mut self, f: Frame) -> &[u8; 4096] {
        &self.frames[f.0 as usize]
    }

    fn fill(&mut self, f: Frame, b: &[u8; 4096]) {
        self.set_frame(f.0, b);
    }

    fn frames(&self) -> u32 {
        self.frames.len() as u32
    }
}

#[tactic(auto, unfolding(cloak_base::specs::Pages::zero_page))]
fn zeros() -> [u8; 4096]
    ensures { result ≡ zero_page }
{
    [0; 4096]
}

/// Stores bytes from an address on.
fn store_bytes(frames: &mut [[u8; 4096]], address: u32, bytes: &[u8])
    requires from_start { ram_start ≤ address }
    requires to_end { address + length bytes.now ≤ ram_end (length frames.old) }
    requires few { length frames.old ≤ 4096 }
    ensures { frames.new ≡ with_bytes frames.old address bytes.now }
{
    for (i, b) in bytes.iter().enumerate() {
        let place = (address - RAM_START) as usize + i;
        frames[place / 4096][place % 4096] = *b;
    }
}

/// RAM as a run of this many harts begins: zeros, and then the segments in their order. No hart has a reservation.
pub fn load_segments(
    alloc: Global,
    count: u32,
    harts: u32,
    segments: &[Segment],
) -> Result<FlatRam, NoMemory>
    requires few { count ≤ 4096 }
    requires few_harts { harts ≤ 4 }
    requires inside { All (IsSegmentIn count) segments.now }
    ensures frames { IfOk result (λ ram. ram.frames.items ≡ with_segments (zero_ram count) segments.now) }
    ensures marks { IfOk result (λ ram. ram.reservations ≡ replicate harts None) }
{
    let mut frames = Vec::with_capacity(alloc, count as usize)?;
    for made in 0..count {
        let _ = made;
        frames.push(zeros())?;
    }
    for segment in segments {
        store_bytes(&mut frames, segment.address, segment.bytes.as_slice());
    }
    Ok(FlatRam {
        frames,
        reservations: Reservations::none(harts),
    })
}
