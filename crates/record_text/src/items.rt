//! An item in words.
ghost use Rattle.cloak_model.specs.Items.{item_of};
ghost use Rattle.std.specs.Prelude.{◌++◌};
ghost use Rattle.cloak_model.specs.Report.{words_text};
ghost use Rattle.kernel_report.specs.Putting.{PutsMore, putting};
ghost use Rattle.record_text.specs.Items as spec;

use crate::causes::{call_name, cause_name, put_name, put_word};
use cloak_base::Shown;
use cloak_model::Item;
use io_traits::Sink;
use kernel_report::lines::{SoFar, decimal, digest, text};
use sha2::{Digest, Sha256};

/// `program D`
fn put_program<O: Sink>(out: &mut O, so_far: SoFar, domain: u8) -> SoFar
    ensures { PutsMore (putting O.Sink out.old so_far) (putting O.Sink out.new result) (spec.program_named domain) }
{
    let so_far = text(out, so_far, b"program ");
    decimal(out, so_far, domain as u64)
}

/// `context C`
fn put_context<O: Sink>(out: &mut O, so_far: SoFar, ctx: u32) -> SoFar
    ensures { PutsMore (putting O.Sink out.old so_far) (putting O.Sink out.new result) (spec.context_named ctx) }
{
    let so_far = text(out, so_far, b"context ");
    decimal(out, so_far, ctx as u64)
}

/// What the kernel is shown in a frame.
fn put_cipher<O: Sink>(out: &mut O, so_far: SoFar, frame: u32, bytes: &[u8; 4096]) -> SoFar
    ensures { PutsMore (putting O.Sink out.old so_far) (putting O.Sink out.new result)
        (spec.cipher_text frame bytes.now) }
{
    let so_far = text(out, so_far, b"frame ");
    let so_far = decimal(out, so_far, frame as u64);
    let so_far = text(out, so_far, b" is shown as ");
    digest(out, so_far, &Sha256::digest(bytes.as_slice()))
}

/// What a program stores where the kernel sees it.
fn put_put<O: Sink>(out: &mut O, so_far: SoFar, address: u32, width: u8, value: u32) -> SoFar
    ensures { PutsMore (putting O.Sink out.old so_far) (putting O.Sink out.new result)
        (spec.put_text address width value) }
{
    let so_far = text(out, so_far, b"a program stores ");
    let so_far = put_word(out, so_far, value);
    let so_far = text(out, so_far, b" of width ");
    let so_far = decimal(out, so_far, width as u64);
    let so_far = text(out, so_far, b" at ");
    put_word(out, so_far, address)
}

/// Each word after a space.
fn put_words<O: Sink>(out: &mut O, so_far: SoFar, words: &[u32]) -> SoFar
    ensures { PutsMore (putting O.Sink out.old so_far) (putting O.Sink out.new result) (words_text words.now) }
{
    let mut so_far = so_far;
    for word in words {
        so_far = text(out, so_far, b" ");
        so_far = put_word(out, so_far, *word);
    }
    so_far
}

/// The call of a leave, with its arguments.
fn put_call<O: Sink>(out: &mut O, so_far: SoFar, shown: &Shown) -> SoFar
    ensures { PutsMore (putting O.Sink out.old so_far) (putting O.Sink out.new result) (spec.call_text shown.now) }
{
    let so_far = text(out, so_far, b": ");
    let so_far = put_name(out, so_far, call_name(shown.number));
    let so_far = text(out, so_far, b" (");
    let so_far = put_word(out, so_far, shown.number);
    let so_far = text(out, so_far, b") with");
    put_words(out, so_far, &shown.args)
}

/// The page of a leave.
fn put_page<O: Sink>(out: &mut O, so_far: SoFar, shown: &Shown) -> SoFar
    ensures { PutsMore (putting O.Sink out.old so_far) (putting O.Sink out.new result) (spec.page_text shown.now) }
{
    let so_far = text(out, so_far, b" at page ");
    put_word(out, so_far, shown.stval)
}

/// What a leave shows after its cause.
fn put_leave_end<O: Sink>(out: &mut O, so_far: SoFar, shown: &Shown) -> SoFar
    ensures { PutsMore (putting O.Sink out.old so_far) (putting O.Sink out.new result) (spec.leave_end shown.now) }
{
    if shown.cause == 8 {
        put_call(out, so_far, shown)
    } else if shown.cause >= 16 || shown.cause == 2 || shown.cause == 3 {
        so_far
    } else {
        put_page(out, so_far, shown)
    }
}

/// Why a context leaves.
fn put_leave<O: Sink>(out: &mut O, so_far: SoFar, shown: &Shown) -> SoFar
    ensures { PutsMore (putting O.Sink out.old so_far) (putting O.Sink out.new result) (spec.leave_text shown.now) }
{
    let so_far = put_context(out, so_far, shown.ctx);
    let so_far = text(out, so_far, b" leaves: ");
    let so_far = put_name(out, so_far, cause_name(shown.cause));
    put_leave_end(out, so_far, shown)
}

/// What a program was answered.
fn put_inward<O: Sink>(out: &mut O, so_far: SoFar, domain: u8, words: &[u8]) -> SoFar
    ensures { PutsMore (putting O.Sink out.old so_far) (putting O.Sink out.new result)
        (spec.inward_text domain words.now) }
{
    let so_far = put_program(out, so_far, domain);
    text(out, so_far, words)
}

/// A resume.
fn put_resume<O: Sink>(out: &mut O, so_far: SoFar, domain: u8, ctx: u32, answer: u32) -> SoFar
    ensures { PutsMore (putting O.Sink out.old so_far) (putting O.Sink out.new result)
        (spec.resume_text domain ctx answer) }
{
    let so_far = put_context(out, so_far, ctx);
    let so_far = text(out, so_far, b" of ");
    let so_far = put_program(out, so_far, domain);
    let so_far = text(out, so_far, b" is resumed with answer ");
    put_word(out, so_far, answer)
}

/// An address that is absent.
fn put_absent<O: Sink>(out: &mut O, so_far: SoFar, domain: u8, cause: u32) -> SoFar
    ensures { PutsMore (putting O.Sink out.old so_far) (putting O.Sink out.new result) (spec.absent_text domain cause) }
{
    let so_far = put_inward(out, so_far, domain, b" finds its address absent: ");
    put_name(out, so_far, cause_name(cause))
}

/// A word that was loaded where the kernel sees it.
fn put_loaded<O: Sink>(out: &mut O, so_far: SoFar, domain: u8, value: u32) -> SoFar
    ensures { PutsMore (putting O.Sink out.old so_far) (putting O.Sink out.new result) (spec.word_text domain value) }
{
    let so_far = put_inward(out, so_far, domain, b" loads, uncloaked, ");
    put_word(out, so_far, value)
}

/// An item that is no marker, in words.
#[tactic(auto, unfolding(crate::specs::Items::item_text))]
pub fn put_item<O: Sink>(out: &mut O, so_far: SoFar, item: &Item<'_>) -> SoFar
    ensures { PutsMore (putting O.Sink out.old so_far) (putting O.Sink out.new result) (spec.item_text (item_of item.now)) }
{
    match item {
        Item::Cipher { frame, bytes } => put_cipher(out, so_far, *frame, bytes),
        Item::Put {
            address,
            width,
            value,
        } => put_put(out, so_far, *address, *width, *value),
        Item::Leave(shown) => put_leave(out, so_far, shown),
        Item::Step { .. } => so_far,
        Item::Close { .. } => so_far,
        Item::End => so_far,
        Item::Ok { domain } => put_inward(out, so_far, *domain, b" is granted its access"),
        Item::Absent { domain, cause } => put_absent(out, so_far, *domain, *cause),
        Item::Word { domain, value } => put_loaded(out, so_far, *domain, *value),
        Item::Timer { domain } => put_inward(out, so_far, *domain, b" is interrupted by the timer"),
        Item::Resume {
            domain,
            ctx,
            answer,
        } => put_resume(out, so_far, *domain, *ctx, *answer),
        Item::Stopped { domain } => {
            put_inward(out, so_far, *domain, b" asks what ends it or stops the run")
        }
        Item::Ended { domain } => put_inward(out, so_far, *domain, b" is ended"),
    }
}
