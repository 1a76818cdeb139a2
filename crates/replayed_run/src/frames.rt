//! Frames that are only read: words, walks by page tables, and instructions.
ghost use Rattle.std.specs.Prelude.{◌≡◌, ◌<◌, IfSome, length};
ghost use Rattle.cloak_model.specs.Walk as spec;
ghost use Rattle.replayed_run.specs.Leading as leading;
ghost use Rattle.replayed_run.specs.Leading.{frame_in, frame_led};

use cloak_base::{Kind, Mode, PageId, RAM_START};
use cloak_model::word_in;
use host_calls::Hart;
use sv32_walk::{WordMemory, walk};

/// The word of an ECALL.
const ECALL: u32 = 0x0000_0073;

/// Frames as the kernel sees them.
#[derive(Drop)]
struct Frames<'f> {
    frames: &'f [[u8; 4096]],
}

#[tactic(auto, unfolding(cloak_model::specs::Ask::ask_word))]
impl<'f> WordMemory for Frames<'f> {
    ghost use Rattle.std.specs.Prelude.{[]};
    ghost use Rattle.cloak_model.specs.World.{Flat};

    ghost stands_for = { λ first side w. w ≡ Flat (record { ram = side.frames.now; marks = [] }) };

    ghost kept = { λ first side. Unit {0} };

    fn word(&mut self, pa: u64) -> Option<u32> {
        match frame_of(self.frames, pa) {
            None => None,
            Some(frame) => {
                let place = (pa - RAM_START as u64) % 4096;
                Some(word_in(&self.frames[frame], place as usize))
            }
        }
    }
}

/// The frame of a physical address, if it is one of RAM.
fn frame_of(frames: &[[u8; 4096]], pa: u64) -> Option<usize>
    ensures value { result ≡ frame_in frames.now pa }
    ensures inside { IfSome result (λ f. f < length frames.now) }
{
    if pa < RAM_START as u64 {
        return None;
    }
    let frame = (pa - RAM_START as u64) / 4096;
    if frame < frames.len() as u64 {
        Some(frame as usize)
    } else {
        None
    }
}

/// The page tables by which addresses are translated.
#[derive(Clone, Copy)]
pub struct Tables {
    pub satp: u32,
    pub sum: bool,
    pub mxr: bool,
}

/// A page that a program asked for, and the frame in which the kernel presents it.
#[derive(Clone, Copy)]
pub struct PresentedPage {
    pub page: PageId,
    /// The address of the access.
    pub address: u32,
    pub kind: Kind,
    pub frame: usize,
}

/// The page tables of a hart as it is.
pub fn tables_of(hart: &Hart) -> Tables
    ensures { result ≡ leading.tables_of hart.now }
{
    Tables {
        satp: hart.csrs.satp(),
        sum: hart.csrs.sum(),
        mxr: hart.csrs.mxr(),
    }
}

/// The frame that an address leads to, for an access.
pub fn frame_at(
    frames: &[[u8; 4096]],
    tables: Tables,
    mode: Mode,
    address: u32,
    kind: Kind,
) -> Option<usize>
    ensures value { result ≡ frame_led frames.now (spec.walk frames.now tables.satp (record {
      mode = mode;
      sum = tables.sum;
      mxr = tables.mxr;
      va = address;
      kind = kind;
    })) }
    ensures inside { IfSome result (λ f. f < length frames.now) }
{
    let Tables { satp, sum, mxr } = tables;
    let mut memory = Frames { frames };
    match walk(satp, mode, sum, mxr, address, kind, &mut memory) {
        Ok(walked) => frame_of(frames, walked.pa),
        Err(_) => None,
    }
}

/// A host call of a hart outside that reaches the disk.
#[derive(Clone, Copy)]
pub struct DiskCall {
    /// A frame goes to a block; otherwise a block comes into a frame.
    pub is_write: bool,
    pub block: u32,
    pub frame: usize,
}

/// The hart takes the timer's interrupt in its next step.
#[tactic(auto, unfolding(cloak_model::specs::KernelStep::ticked))]
fn is_interrupted(hart: &Hart) -> bool
    ensures { result ≡ leading.is_interrupted hart.now }
{
    let mut csrs = hart.csrs;
    if hart.timer == 1 {
        csrs.set_pending(true);
    }
    csrs.due(hart.mode)
}

/// A hart in S mode calls for a block to be read or written.
fn calls_disk(hart: &Hart, word: u32) -> bool
    ensures { result ≡ leading.calls_disk hart.now word }
{
    let number = hart.regs.get(17);
    word == ECALL && matches!(hart.mode, Mode::S) && (number == 2 || number == 3)
}

/// The call of a hart that names this frame, if it names one.
fn call_for(hart: &Hart, frame: Option<usize>) -> Option<DiskCall>
    ensures { result ≡ leading.call_for hart.now frame }
{
    match frame {
        None => None,
        Some(frame) => Some(DiskCall {
            is_write: hart.regs.get(17) == 3,
            block: hart.regs.get(10),
            frame,
        }),
    }
}

/// The host call that a hart outside makes in its next step, if it reaches the disk.
pub fn disk_call(frames: &[[u8; 4096]], hart: &Hart) -> Option<DiskCall>
    ensures { result ≡ leading.disk_call frames.now hart.now }
{
    if is_interrupted(hart) {
        return None;
    }
    match frame_at(frames, tables_of(hart), hart.mode, hart.pc, Kind::Fetch) {
        None => None,
        Some(frame) => {
            if calls_disk(hart, word_in(&frames[frame], (hart.pc % 4096) as usize)) {
                call_for(hart, frame_of(frames, u64::from(hart.regs.get(11))))
            } else {
                None
            }
        }
    }
}
