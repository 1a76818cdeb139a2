//! A pager's way through its calls, as tables. The digests are of ciphertexts that another program made, by AES-128-CBC
//! without padding under the key 000102..0f, with the bytes of each draw as IV.

ghost use Rattle.std.specs.Prelude.{◌≡◌, ◌<◌, ◌≢◌, ◌⊎◌, ◌↔◌, ℕ, IsTrue, length};
ghost use Rattle.protect_meta.specs.Table.{domains_of};
ghost use Rattle.cloak_pager.specs.State.{held_in, owed_at};

use crate::checks::same;
use cloak_base::{Frame, Meta, PageId};
use cloak_pager::{Offered, Pager, Touched};
use io_traits::Stream;
use sha2::{Digest, Sha256};
use std::process::Abort;
use std::test::Fail;

const KEY: [u8; 16] = [0, 1, 2, 3, 4, 5, 6, 7, 8, 9, 10, 11, 12, 13, 14, 15];

const F5: Frame = Frame(5);

const F6: Frame = Frame(6);

const F7: Frame = Frame(7);

const Q: PageId = PageId {
    domain: 0,
    resource: 0,
    page: 0,
};

const R: PageId = PageId {
    domain: 0,
    resource: 15,
    page: 1023,
};

/// Page Q under resource 1.
const Q1: PageId = PageId {
    domain: 0,
    resource: 1,
    page: 0,
};

// SHA-256 of 4096 zeros, and of a 7 and 4095 zeros. Of ciphertexts of zeros, and of a page whose first byte is 7 or 8
// and the others zero, each under the draw of the name's number.
const PLAIN_ZEROS: [u8; 32] = [
    0xad, 0x7f, 0xac, 0xb2, 0x58, 0x6f, 0xc6, 0xe9, 0x66, 0xc0, 0x04, 0xd7, 0xd1, 0xd1, 0x6b, 0x02,
    0x4f, 0x58, 0x05, 0xff, 0x7c, 0xb4, 0x7c, 0x7a, 0x85, 0xda, 0xbd, 0x8b, 0x48, 0x89, 0x2c, 0xa7,
];

const PLAIN_SEVEN: [u8; 32] = [
    0xde, 0xc1, 0x59, 0x3a, 0x74, 0x56, 0xc8, 0xc9, 0x40, 0x7b, 0x9b, 0x8b, 0x9c, 0x89, 0x68, 0x2d,
    0xff, 0xf3, 0x3c, 0x38, 0x92, 0xbc, 0xc9, 0xd9, 0xf0, 0x69, 0x56, 0xfe, 0xe0, 0xa1, 0xb9, 0x49,
];

const ZEROS_1: [u8; 32] = [
    0xff, 0xfa, 0x16, 0xa1, 0x51, 0x8e, 0x5b, 0x6b, 0x33, 0x6d, 0x1e, 0x44, 0xef, 0xb4, 0xec, 0x35,
    0x2f, 0xc0, 0x51, 0x26, 0xe9, 0x62, 0x4f, 0xfe, 0x8a, 0x1d, 0x76, 0x2e, 0x4f, 0x49, 0xd0, 0xba,
];

const ZEROS_3: [u8; 32] = [
    0xb2, 0x61, 0x31, 0xf2, 0x3a, 0x0a, 0x45, 0x67, 0x6d, 0xe0, 0x64, 0xfd, 0x91, 0xb5, 0xb3, 0xcd,
    0xb2, 0xf2, 0x24, 0x14, 0xef, 0x23, 0xeb, 0x97, 0x34, 0xaa, 0x9d, 0xdf, 0xbf, 0x18, 0xa2, 0x22,
];

const ZEROS_4: [u8; 32] = [
    0xda, 0x00, 0xcd, 0x7c, 0xb9, 0x87, 0x61, 0xf9, 0x4f, 0xdd, 0x9e, 0x42, 0x4f, 0x59, 0x9b, 0xef,
    0x57, 0xee, 0xd5, 0xb6, 0x0c, 0x10, 0x8d, 0xe5, 0xa7, 0x66, 0x1a, 0xc5, 0xd4, 0xc8, 0x20, 0xb2,
];

const SEVEN_1: [u8; 32] = [
    0xf0, 0xb5, 0x07, 0x7d, 0x1c, 0xb3, 0x56, 0x15, 0xb6, 0xc4, 0x23, 0x0a, 0xd5, 0xd1, 0x5b, 0x3d,
    0x60, 0xa4, 0xeb, 0x80, 0x1f, 0x5a, 0x83, 0x1d, 0x83, 0x58, 0x36, 0xeb, 0xbf, 0xfd, 0xc7, 0x05,
];

const SEVEN_2: [u8; 32] = [
    0x90, 0x7f, 0x8d, 0x08, 0xd5, 0x16, 0x18, 0x02, 0xd2, 0x3c, 0x9b, 0xab, 0x7a, 0xec, 0x94, 0x39,
    0x41, 0xd3, 0x01, 0x56, 0x12, 0x92, 0x35, 0xa6, 0x97, 0xd3, 0x5d, 0xc2, 0x74, 0xd3, 0x86, 0x3b,
];

const EIGHT_3: [u8; 32] = [
    0x50, 0xbe, 0x1b, 0x42, 0x96, 0x93, 0x98, 0x7e, 0xe1, 0x9d, 0xfa, 0x5e, 0x51, 0xa2, 0x13, 0x0c,
    0x1c, 0xd2, 0xbe, 0x10, 0xff, 0x04, 0x0d, 0xb8, 0xfe, 0x89, 0xee, 0xaf, 0xab, 0xfa, 0xb2, 0x62,
];

/// What is known of page Q with a 7 as it was shown under draw 2.
const SHOWN_2: Meta = Meta {
    iv: [
        0x20, 0x21, 0x22, 0x23, 0x24, 0x25, 0x26, 0x27, 0x28, 0x29, 0x2a, 0x2b, 0x2c, 0x2d, 0x2e,
        0x2f,
    ],
    digest: SEVEN_2,
};

/// A step of a way: a call, or a look at the frames and the stream from outside.
#[derive(Clone, Copy, Debug, PartialEq, Eq)]
enum PagerCall {
    /// Fills the outside frame with one byte.
    Fill(Frame, u8),
    /// Keeps the bytes of the outside frame aside.
    Keep(Frame),
    /// Fills the outside frame with the bytes that were kept.
    Put(Frame),
    /// The digest of the bytes of the outside frame.
    Look(Frame),
    /// How often outside frames were read.
    Reads,
    /// Stores a word at the start of the outside frame.
    Store(Frame, u32),
    Offer(PageId, Frame, bool),
    /// Reads the first word of the page.
    Read(PageId),
    /// Writes the first word of the page.
    Write(PageId, u32),
    Owed(Frame),
    Touch(Frame),
    /// Copies the pages of a resource to another.
    Copy(u32, u32),
    /// Drops the pages of a resource.
    Drop(u32),
    Close,
    /// How many bytes of the stream are left.
    Left,
}

/// What a step showed.
#[derive(Clone, Copy, Debug, PartialEq, Eq)]
enum SeenOfCall {
    Done,
    Bytes([u8; 32]),
    Offer(Offered),
    Word(u32),
    Owed(bool),
    Reads(u64),
    Touch(Touched),
    Left(Option<u64>),
    /// A condition of the call is not met, and it was not made.
    Unmet,
}

/// A pager of 64 frames and one domain, its random stream, and the bytes that were kept aside.
#[derive(Drop)]
struct PagerRun {
    pager: Pager,
    stream: Stream,
    kept: [u8; 4096],
    ghost frames: { length pager.frames ≡ 64 },
    ghost domains: { domains_of pager.table ≡ 1 },
}

fn is_page(q: PageId) -> bool
    ensures { IsTrue result → (q.domain < 1) × (q.resource < 16) × (q.page < 1024) }
{
    q.domain < 1 && q.resource < 16 && q.page < 1024
}

/// This many bytes, from 0x10 on.
fn stream_of(rt: &HostRuntime, bytes: u8) -> Result<Stream, Fail>
    requires { bytes < 100 }
{
    let mut drawn = Vec::new(rt.alloc());
    for i in 0..bytes {
        drawn.push(0x10 + i)?;
    }
    Ok(Stream::bytes(drawn))
}

impl PagerRun {
    /// A run whose stream has this many bytes.
    fn open(rt: &HostRuntime, bytes: u8) -> Result<PagerRun, Fail>
        requires { bytes < 100 }
    {
        Ok(PagerRun {
            pager: Pager::open(rt.alloc(), 64, 1, [KEY; 4], [0; 4])?,
            stream: stream_of(rt, bytes)?,
            kept: [0; 4096],
        })
    }

    /// A run to whose pager page Q is restored, as it is under draw 2 with a 7.
    fn restored(rt: &HostRuntime, kept: [u8; 4096]) -> Result<PagerRun, Fail> {
        let mut pager = Pager::open(rt.alloc(), 64, 1, [KEY; 4], [0; 4])?;
        pager.restore(Q, SHOWN_2);
        let stream = stream_of(rt, 0)?;
        Ok(PagerRun {
            pager,
            stream,
            kept,
        })
    }

    /// A run whose stream had this many bytes when page Q was to be placed in frame 5 with a 7, and whether it was.
    fn placed(rt: &HostRuntime, bytes: u8) -> Result<(PagerRun, bool), Fail>
        requires { bytes < 100 }
    {
        let mut pager = Pager::open(rt.alloc(), 64, 1, [KEY; 4], [0; 4])?;
        let mut stream = stream_of(rt, bytes)?;
        let mut page = [0; 4096];
        page[0] = 7;
        let placed = pager.place(Q, F5, &page, &mut stream);
        let run = PagerRun {
            pager,
            stream,
            kept: [0; 4096],
        };
        Ok((run, placed))
    }

    /// What is known of a page.
    fn known(&self, q: PageId) -> Option<Meta> {
        if is_page(q) { self.pager.meta(q) } else { None }
    }

    fn is_outside(&self, f: Frame) -> bool
        ensures { IsTrue result → (f.0 < 64) × (held_in self.now.pager f.0 ≡ None) }
    {
        f.0 < 64 && self.pager.holds(f).is_none()
    }

    fn fill(&mut self, f: Frame, bytes: &[u8; 4096]) -> SeenOfCall {
        if !self.is_outside(f) {
            return SeenOfCall::Unmet;
        }
        self.pager.fill_outside(f, bytes);
        SeenOfCall::Done
    }

    fn keep(&mut self, f: Frame) -> SeenOfCall {
        if !self.is_outside(f) {
            return SeenOfCall::Unmet;
        }
        self.kept = *self.pager.read_outside(f);
        SeenOfCall::Done
    }

    fn owed(&self, f: Frame) -> SeenOfCall {
        if f.0 >= 64 {
            return SeenOfCall::Unmet;
        }
        SeenOfCall::Owed(self.pager.owed(f))
    }

    fn look(&mut self, f: Frame) -> SeenOfCall {
        if !self.is_outside(f) {
            return SeenOfCall::Unmet;
        }
        SeenOfCall::Bytes(Sha256::digest(self.pager.read_outside(f).as_slice()))
    }

    fn touch(&mut self, f: Frame) -> SeenOfCall {
        if f.0 >= 64 {
            return SeenOfCall::Unmet;
        }
        SeenOfCall::Touch(self.pager.touch(f, &mut self.stream))
    }

    fn can_offer(&self, q: PageId, g: Frame) -> bool
        ensures inside { IsTrue result → g.0 < 64 }
        ensures page { IsTrue result → (q.domain < 1) × (q.resource < 16) × (q.page < 1024) }
        ensures room { IsTrue result → (held_in self.now.pager g.0 ≡ None) ⊎ (held_in self.now.pager g.0 ≡ Some q) }
        ensures alone { IsTrue result → (k : ℕ) → held_in self.now.pager k ≡ Some q → k ≡ g.0 }
    {
        if g.0 >= 64 || !is_page(q) {
            return false;
        }
        self.pager.whole();
        match (self.pager.holds(g), self.pager.home(q)) {
            (None, None) => true,
            (Some(p), Some(f)) => p == q && f == g,
            _ => false,
        }
    }

    fn offer(&mut self, q: PageId, g: Frame, write: bool) -> SeenOfCall {
        if !self.can_offer(q, g) {
            return SeenOfCall::Unmet;
        }
        SeenOfCall::Offer(self.pager.offer(q, g, write))
    }

    fn read(&self, q: PageId) -> SeenOfCall {
        if !is_page(q) {
            return SeenOfCall::Unmet;
        }
        match self.pager.home(q) {
            Some(f) => SeenOfCall::Word(self.pager.read_plain(q, f, 0, 4)),
            None => SeenOfCall::Unmet,
        }
    }

    fn write(&mut self, q: PageId, v: u32) -> SeenOfCall {
        if !is_page(q) {
            return SeenOfCall::Unmet;
        }
        match self.pager.home(q) {
            Some(f) if f.0 < 64 && self.pager.owed(f) => {
                self.pager.write_plain(q, f, 0, 4, v);
                SeenOfCall::Done
            }
            _ => SeenOfCall::Unmet,
        }
    }

    fn store(&mut self, f: Frame, v: u32) -> SeenOfCall {
        if !self.is_outside(f) {
            return SeenOfCall::Unmet;
        }
        self.pager.write_outside(f, 0, 4, v);
        SeenOfCall::Done
    }

    fn holds_none(&self) -> bool
        ensures { IsTrue result → (k : ℕ) → held_in self.now.pager k ≡ None }
    {
        self.pager.whole();
        for i in 0..64 {
            if self.pager.holds(Frame(i)).is_some() {
                return false;
            }
        }
        true
    }

    fn owes_none(&self) -> bool
        ensures { IsTrue result → (k : ℕ) → owed_at self.now.pager k ≡ None }
    {
        self.pager.whole();
        for i in 0..64 {
            if self.pager.owed(Frame(i)) {
                return false;
            }
        }
        true
    }

    fn copy(&mut self, from: u32, to: u32) -> SeenOfCall {
        if from >= 16 || to >= 16 || !self.holds_none() {
            return SeenOfCall::Unmet;
        }
        self.pager.copy_pages(0, from, to);
        SeenOfCall::Done
    }

    fn drop_pages(&mut self, resource: u32) -> SeenOfCall {
        if resource >= 16 || !self.holds_none() {
            return SeenOfCall::Unmet;
        }
        self.pager.drop_pages(0, resource);
        SeenOfCall::Done
    }

    fn close(&mut self) -> SeenOfCall {
        if !self.owes_none() {
            return SeenOfCall::Unmet;
        }
        self.pager.close();
        SeenOfCall::Done
    }

    fn step(&mut self, step: PagerCall) -> SeenOfCall {
        match step {
            PagerCall::Fill(f, byte) => self.fill(f, &[byte; 4096]),
            PagerCall::Keep(f) => self.keep(f),
            PagerCall::Put(f) => {
                let kept = self.kept;
                self.fill(f, &kept)
            }
            PagerCall::Look(f) => self.look(f),
            PagerCall::Reads => SeenOfCall::Reads(self.pager.reads()),
            PagerCall::Store(f, v) => self.store(f, v),
            PagerCall::Offer(q, g, write) => self.offer(q, g, write),
            PagerCall::Read(q) => self.read(q),
            PagerCall::Write(q, v) => self.write(q, v),
            PagerCall::Owed(f) => self.owed(f),
            PagerCall::Touch(f) => self.touch(f),
            PagerCall::Copy(from, to) => self.copy(from, to),
            PagerCall::Drop(resource) => self.drop_pages(resource),
            PagerCall::Close => self.close(),
            PagerCall::Left => SeenOfCall::Left(self.stream.left()),
        }
    }

    fn goes(&mut self, rt: &impl Abort, way: &[(PagerCall, SeenOfCall)]) {
        for (step, want) in way {
            let seen = self.step(*step);
            same(rt, &(*step, seen), &(*step, *want), "a step");
        }
    }
}

/// A page that was never shown comes as zeros, whatever its frame showed.
static FRESH: [(PagerCall, SeenOfCall); 7] = [
    (PagerCall::Fill(F5, 0xff), SeenOfCall::Done),
    (
        PagerCall::Offer(Q, F5, false),
        SeenOfCall::Offer(Offered::Ready),
    ),
    (PagerCall::Read(Q), SeenOfCall::Word(0)),
    (PagerCall::Owed(F5), SeenOfCall::Owed(true)),
    (PagerCall::Touch(F5), SeenOfCall::Touch(Touched::Sealed)),
    (PagerCall::Look(F5), SeenOfCall::Bytes(ZEROS_1)),
    (PagerCall::Left, SeenOfCall::Left(Some(48))),
];

/// What was written is shown under a new draw, and read again.
static STORE_AND_LOAD: [(PagerCall, SeenOfCall); 7] = [
    (
        PagerCall::Offer(Q, F5, true),
        SeenOfCall::Offer(Offered::Ready),
    ),
    (PagerCall::Write(Q, 7), SeenOfCall::Done),
    (PagerCall::Touch(F5), SeenOfCall::Touch(Touched::Sealed)),
    (PagerCall::Look(F5), SeenOfCall::Bytes(SEVEN_2)),
    (PagerCall::Left, SeenOfCall::Left(Some(32))),
    (
        PagerCall::Offer(Q, F5, false),
        SeenOfCall::Offer(Offered::Ready),
    ),
    (PagerCall::Read(Q), SeenOfCall::Word(7)),
];

/// A page that was only read is shown as before, and no draw is taken.
static ONLY_READ: [(PagerCall, SeenOfCall); 5] = [
    (PagerCall::Owed(F5), SeenOfCall::Owed(false)),
    (PagerCall::Touch(F5), SeenOfCall::Touch(Touched::Resealed)),
    (PagerCall::Look(F5), SeenOfCall::Bytes(SEVEN_2)),
    (PagerCall::Left, SeenOfCall::Left(Some(32))),
    (PagerCall::Touch(F5), SeenOfCall::Touch(Touched::Quiet)),
];

/// Older bytes of the page are refused, and stay.
static REPLAYED: [(PagerCall, SeenOfCall); 4] = [
    (PagerCall::Touch(F5), SeenOfCall::Touch(Touched::Resealed)),
    (PagerCall::Put(F5), SeenOfCall::Done),
    (
        PagerCall::Offer(Q, F5, false),
        SeenOfCall::Offer(Offered::Mismatch),
    ),
    (PagerCall::Look(F5), SeenOfCall::Bytes(ZEROS_1)),
];

/// A page may be opened in any frame that shows its bytes, until it is shown under another draw; and a frame may be
/// used for another page.
static TWO_FRAMES_AND_TWO_NAMES: [(PagerCall, SeenOfCall); 20] = [
    (PagerCall::Keep(F5), SeenOfCall::Done),
    (PagerCall::Put(F6), SeenOfCall::Done),
    (
        PagerCall::Offer(Q, F6, false),
        SeenOfCall::Offer(Offered::Ready),
    ),
    (PagerCall::Read(Q), SeenOfCall::Word(7)),
    (PagerCall::Offer(Q, F5, false), SeenOfCall::Unmet),
    (PagerCall::Touch(F6), SeenOfCall::Touch(Touched::Resealed)),
    (
        PagerCall::Offer(Q, F5, false),
        SeenOfCall::Offer(Offered::Ready),
    ),
    (PagerCall::Touch(F5), SeenOfCall::Touch(Touched::Resealed)),
    (
        PagerCall::Offer(Q, F6, true),
        SeenOfCall::Offer(Offered::Ready),
    ),
    (PagerCall::Write(Q, 8), SeenOfCall::Done),
    (PagerCall::Touch(F6), SeenOfCall::Touch(Touched::Sealed)),
    (PagerCall::Look(F6), SeenOfCall::Bytes(EIGHT_3)),
    (
        PagerCall::Offer(Q, F5, false),
        SeenOfCall::Offer(Offered::Mismatch),
    ),
    (PagerCall::Fill(F7, 0), SeenOfCall::Done),
    (
        PagerCall::Offer(Q, F7, false),
        SeenOfCall::Offer(Offered::Mismatch),
    ),
    (
        PagerCall::Offer(R, F6, false),
        SeenOfCall::Offer(Offered::Ready),
    ),
    (PagerCall::Read(R), SeenOfCall::Word(0)),
    (PagerCall::Touch(F6), SeenOfCall::Touch(Touched::Sealed)),
    (PagerCall::Look(F6), SeenOfCall::Bytes(ZEROS_4)),
    (
        PagerCall::Offer(Q, F6, false),
        SeenOfCall::Offer(Offered::Mismatch),
    ),
];

/// A copy is opened by what was shown of the page, also when the page itself is dropped and is as if never shown.
static CLOSED_COPIED_AND_DROPPED: [(PagerCall, SeenOfCall); 14] = [
    (PagerCall::Copy(0, 1), SeenOfCall::Unmet),
    (PagerCall::Close, SeenOfCall::Done),
    (PagerCall::Look(F5), SeenOfCall::Bytes(SEVEN_2)),
    (PagerCall::Left, SeenOfCall::Left(Some(32))),
    (PagerCall::Copy(0, 1), SeenOfCall::Done),
    (PagerCall::Drop(0), SeenOfCall::Done),
    (
        PagerCall::Offer(Q1, F5, false),
        SeenOfCall::Offer(Offered::Ready),
    ),
    (PagerCall::Read(Q1), SeenOfCall::Word(7)),
    (
        PagerCall::Offer(Q, F6, false),
        SeenOfCall::Offer(Offered::Ready),
    ),
    (PagerCall::Read(Q), SeenOfCall::Word(0)),
    (PagerCall::Close, SeenOfCall::Unmet),
    (PagerCall::Touch(F6), SeenOfCall::Touch(Touched::Sealed)),
    (PagerCall::Look(F6), SeenOfCall::Bytes(ZEROS_3)),
    (PagerCall::Reads, SeenOfCall::Reads(4)),
];

/// If no draw is left, a changed page is not shown, and what was shown of it before is still its record. The kernel's
/// stores are seen as they are, and refused.
static WIPED: [(PagerCall, SeenOfCall); 14] = [
    (
        PagerCall::Offer(Q, F5, true),
        SeenOfCall::Offer(Offered::Ready),
    ),
    (PagerCall::Touch(F5), SeenOfCall::Touch(Touched::Sealed)),
    (PagerCall::Look(F5), SeenOfCall::Bytes(ZEROS_1)),
    (
        PagerCall::Offer(Q, F5, true),
        SeenOfCall::Offer(Offered::Ready),
    ),
    (PagerCall::Write(Q, 7), SeenOfCall::Done),
    (PagerCall::Touch(F5), SeenOfCall::Touch(Touched::Wiped)),
    (PagerCall::Look(F5), SeenOfCall::Bytes(PLAIN_ZEROS)),
    (PagerCall::Left, SeenOfCall::Left(Some(15))),
    (
        PagerCall::Offer(Q, F5, false),
        SeenOfCall::Offer(Offered::Mismatch),
    ),
    (PagerCall::Store(F5, 7), SeenOfCall::Done),
    (PagerCall::Look(F5), SeenOfCall::Bytes(PLAIN_SEVEN)),
    (
        PagerCall::Offer(Q, F5, false),
        SeenOfCall::Offer(Offered::Mismatch),
    ),
    (PagerCall::Touch(F5), SeenOfCall::Touch(Touched::Quiet)),
    (PagerCall::Look(F5), SeenOfCall::Bytes(PLAIN_SEVEN)),
];

#[test]
fn a_page_is_sealed_and_opened_in_any_frame(rt: HostRuntime) -> Result<(), Fail> {
    let mut run = PagerRun::open(&rt, 64)?;
    run.goes(&rt, &FRESH);
    run.goes(&rt, &STORE_AND_LOAD);
    run.goes(&rt, &ONLY_READ);
    run.goes(&rt, &TWO_FRAMES_AND_TWO_NAMES);
    Ok(())
}

#[test]
fn a_resource_is_copied_and_dropped(rt: HostRuntime) -> Result<(), Fail> {
    let mut run = PagerRun::open(&rt, 64)?;
    run.goes(&rt, &FRESH);
    run.goes(&rt, &STORE_AND_LOAD);
    run.goes(&rt, &CLOSED_COPIED_AND_DROPPED);
    Ok(())
}

#[test]
fn a_changed_page_is_wiped_without_a_draw(rt: HostRuntime) -> Result<(), Fail> {
    let mut run = PagerRun::open(&rt, 31)?;
    run.goes(&rt, &WIPED);
    Ok(())
}

#[test]
fn a_replayed_page_is_refused(rt: HostRuntime) -> Result<(), Fail> {
    let mut run = PagerRun::open(&rt, 64)?;
    run.goes(&rt, &FRESH);
    run.goes(&rt, &[(PagerCall::Keep(F5), SeenOfCall::Done)]);
    run.goes(&rt, &STORE_AND_LOAD);
    run.goes(&rt, &REPLAYED);
    Ok(())
}

/// Another pager opens the page by the metadata alone.
#[test]
fn a_restored_page_is_opened(rt: HostRuntime) -> Result<(), Fail> {
    let mut run = PagerRun::open(&rt, 64)?;
    run.goes(&rt, &FRESH);
    run.goes(&rt, &STORE_AND_LOAD);
    run.goes(&rt, &ONLY_READ);
    run.goes(&rt, &[(PagerCall::Keep(F5), SeenOfCall::Done)]);
    same(&rt, &run.known(Q), &Some(SHOWN_2), "shown");
    same(&rt, &run.known(R), &None, "never shown");
    let mut other = PagerRun::restored(&rt, run.kept)?;
    same(&rt, &other.known(Q), &Some(SHOWN_2), "restored");
    other.goes(
        &rt,
        &[
            (PagerCall::Put(F5), SeenOfCall::Done),
            (
                PagerCall::Offer(Q, F5, false),
                SeenOfCall::Offer(Offered::Ready),
            ),
            (PagerCall::Read(Q), SeenOfCall::Word(7)),
        ],
    );
    Ok(())
}

/// With a byte too few for a draw, and with one draw: whether a page is placed in frame 5, what that frame shows then,
/// and what is read of the page.
#[test]
fn a_page_is_placed_where_a_draw_is_left(rt: HostRuntime) -> Result<(), Fail> {
    for (bytes, want, left, shown, word) in [
        (15, false, 15, PLAIN_ZEROS, 0),
        (16, true, 0, SEVEN_1, 7),
    ] {
        let (mut run, placed) = PagerRun::placed(&rt, bytes)?;
        same(&rt, &placed, &want, bytes);
        run.goes(
            &rt,
            &[
                (PagerCall::Left, SeenOfCall::Left(Some(left))),
                (PagerCall::Look(F5), SeenOfCall::Bytes(shown)),
                (
                    PagerCall::Offer(Q, F5, false),
                    SeenOfCall::Offer(Offered::Ready),
                ),
                (PagerCall::Read(Q), SeenOfCall::Word(word)),
            ],
        );
    }
    Ok(())
}
