//! How many items are chosen of each kind.
ghost use Rattle.cloak_model.specs.Items.{item_of};
ghost use Rattle.std.specs.Prelude.{◌≡◌, ◌^◌, ◌-◌, ◌<◌, ◌++◌, [], ◌∷◌, List, length};
ghost use Rattle.std.specs.List.{count_by};
ghost use Rattle.cloak_model.specs.Report.{number_line};
ghost use Rattle.cloak_model.specs.Items.{Item as AnyItem};
ghost use Rattle.kernel_report.specs.Putting.{PutsMore, putting};
ghost use Rattle.record_text.specs.Counting.{AreCounts, counts_text};
ghost use Rattle.record_text.specs.Kinds.{is_of_kind};

use crate::kinds::Kinds;
use cloak_model::Item;
use io_traits::Sink;
use kernel_report::lines::{SoFar, decimal, text};

/// How many items there are of each kind.
#[derive(Clone, Copy, Debug, PartialEq, Eq)]
pub struct KindCounts {
    pub cipher: u64,
    pub put: u64,
    pub leave: u64,
    pub ok: u64,
    pub absent: u64,
    pub word: u64,
    pub timer: u64,
    pub resume: u64,
    pub stopped: u64,
    pub ended: u64,
}

/// How many items are of a kind, after one more.
fn counted(count: u64, kind: Kinds, item: &Item<'_>) -> u64
    ensures { (items : List AnyItem) → length items < 2 ^ 64 - 1 → count ≡ count_by (is_of_kind kind) items →
        result ≡ count_by (is_of_kind kind) (items ++ (item_of item.now) ∷ []) }
{
    if kind.has(item) {
        count.saturating_add(1)
    } else {
        count
    }
}

/// The line of a count, whose name has a space after it.
fn put_count<O: Sink>(out: &mut O, so_far: SoFar, name: &[u8], count: u64) -> SoFar
    ensures { PutsMore (putting O.Sink out.old so_far) (putting O.Sink out.new result) (number_line name.now count) }
{
    let so_far = text(out, so_far, name);
    let so_far = decimal(out, so_far, count);
    text(out, so_far, b"\n")
}

impl KindCounts {
    /// None yet.
    pub fn new() -> KindCounts
        ensures { AreCounts result [] }
    {
        KindCounts {
            cipher: 0,
            put: 0,
            leave: 0,
            ok: 0,
            absent: 0,
            word: 0,
            timer: 0,
            resume: 0,
            stopped: 0,
            ended: 0,
        }
    }

    /// One more.
    pub fn count(&mut self, item: &Item<'_>)
        ensures { (items : List AnyItem) → length items < 2 ^ 64 - 1 → AreCounts self.old items →
            AreCounts self.new (items ++ (item_of item.now) ∷ []) }
    {
        self.cipher = counted(self.cipher, Kinds::CIPHER, item);
        self.put = counted(self.put, Kinds::PUT, item);
        self.leave = counted(self.leave, Kinds::LEAVE, item);
        self.ok = counted(self.ok, Kinds::OK, item);
        self.absent = counted(self.absent, Kinds::ABSENT, item);
        self.word = counted(self.word, Kinds::WORD, item);
        self.timer = counted(self.timer, Kinds::TIMER, item);
        self.resume = counted(self.resume, Kinds::RESUME, item);
        self.stopped = counted(self.stopped, Kinds::STOPPED, item);
        self.ended = counted(self.ended, Kinds::ENDED, item);
    }

    /// A line for each kind.
    pub fn put<O: Sink>(&self, out: &mut O, so_far: SoFar) -> SoFar
        ensures { (items : List AnyItem) → AreCounts self.now items →
            PutsMore (putting O.Sink out.old so_far) (putting O.Sink out.new result) (counts_text items) }
    {
        let so_far = put_count(out, so_far, b"cipher ", self.cipher);
        let so_far = put_count(out, so_far, b"put ", self.put);
        let so_far = put_count(out, so_far, b"leave ", self.leave);
        let so_far = put_count(out, so_far, b"ok ", self.ok);
        let so_far = put_count(out, so_far, b"absent ", self.absent);
        let so_far = put_count(out, so_far, b"word ", self.word);
        let so_far = put_count(out, so_far, b"timer ", self.timer);
        let so_far = put_count(out, so_far, b"resume ", self.resume);
        let so_far = put_count(out, so_far, b"stopped ", self.stopped);
        put_count(out, so_far, b"ended ", self.ended)
    }
}
