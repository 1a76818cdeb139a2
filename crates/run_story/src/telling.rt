//! The story in sentences.

ghost use Rattle.std.specs.Prelude.{◌≡◌, Some};
ghost use Rattle.std.specs.Fmt.{DisplaysOnOk};
ghost use Rattle.std.specs.Str.{IsUtf8};
ghost use Rattle.hex.specs.Hex.{encode_lower};
ghost use Rattle.cloak_model.specs.Report.{hexadecimal};
ghost use Rattle.run_story.specs.Passages as spec;
ghost use Rattle.run_story.specs.declared.deeds.PageDeed.TheVariants as deed;

use crate::deeds::{Deeds, FrameChange, PageDeed, PageEvent};
use crate::presented::{AskedResume, Presented, Refused};
use cloak_base::{Kind, PageId};
use replayed_run::{Asking, DiskCall, FirstTable, PresentedPage, Showing, ToldContext};
use std::fmt;

/// A violation, as it is told.
#[derive(Drop)]
pub enum Passage {
    /// A program ended by a context that was to be resumed.
    Resume(AskedResume, Refused),
    /// In this step a resume was refused: there is no such program, or it ended in that step before.
    Gone(u32, Asking, Option<u32>),
    /// A program ended by the page that a frame was presented for, for its question, with more about it.
    Page(Presented, String),
    /// In this step a program ended by a page for this context, of which no more is told.
    Question(u32, u32),
}

/// More about a page that was presented: what was done to it before, and what was found.
#[derive(Clone, Copy)]
pub struct PageStory<'d> {
    pub presented: &'d Presented,
    pub deeds: &'d Deeds,
}

/// A page, by its numbers.
#[derive(Clone, Copy)]
struct PageName(PageId);

/// A digest in hexadecimal digits.
#[derive(Clone, Copy)]
struct DigestText([u8; 32]);

/// A byte in two hexadecimal digits.
#[derive(Clone, Copy)]
struct ByteText(u8);

/// The step of an event, or the opening.
#[derive(Clone, Copy)]
struct StepName(u32);

/// A frame, or none.
#[derive(Clone, Copy)]
struct FrameName(Option<usize>);

/// What a host call does that reaches the disk.
#[derive(Clone, Copy)]
struct CallName(DiskCall);

impl fmt::Display for PageName {
    ghost output = { λ p. Some (spec.page_name p.0) };

    fn fmt<W: fmt::Write>(&self, f: &mut fmt::Formatter<W>) -> fmt::Result {
        write_page_name(self.0, f)
    }
}

/// The hexadecimal digits of a digest.
fn digest_digits(digest: [u8; 32]) -> [u8; 64]
    ensures { result ≡ encode_lower digest }
{
    let mut digits = [0; 64];
    let Ok(()) = hex::encode_to_slice(digest.as_slice(), &mut digits) else {
        unreachable!();
    };
    digits
}

impl fmt::Display for DigestText {
    ghost output = { λ d. Some (encode_lower d.0) };

    fn fmt<W: fmt::Write>(&self, f: &mut fmt::Formatter<W>) -> fmt::Result {
        let digits = digest_digits(self.0);
        f.write_str(shown_text(&digits))
    }
}

/// The hexadecimal digits of a byte.
fn byte_digits(byte: u8) -> [u8; 2]
    ensures { result ≡ spec.byte_text byte }
{
    let mut digits = [0; 2];
    let Ok(()) = hex::encode_to_slice([byte].as_slice(), &mut digits) else {
        unreachable!();
    };
    digits
}

impl fmt::Display for ByteText {
    ghost output = { λ b. Some (spec.byte_text b.0) };

    fn fmt<W: fmt::Write>(&self, f: &mut fmt::Formatter<W>) -> fmt::Result {
        let digits = byte_digits(self.0);
        f.write_str(shown_text(&digits))
    }
}

impl fmt::Display for StepName {
    ghost output = { λ s. Some (spec.step_name s.0) };

    fn fmt<W: fmt::Write>(&self, f: &mut fmt::Formatter<W>) -> fmt::Result {
        let step = self.0;
        if step == 0 {
            f.write_str("opening")
        } else {
            write!(f, "step {step}")
        }
    }
}

impl fmt::Display for FrameName {
    ghost output = { λ n. Some (spec.frame_name n.0) };

    fn fmt<W: fmt::Write>(&self, f: &mut fmt::Formatter<W>) -> fmt::Result {
        match self.0 {
            Some(frame) => write!(f, "frame {frame}"),
            None => f.write_str("no frame"),
        }
    }
}

impl fmt::Display for CallName {
    ghost output = { λ c. Some (spec.call_name c.0) };

    fn fmt<W: fmt::Write>(&self, f: &mut fmt::Formatter<W>) -> fmt::Result {
        let DiskCall { block, frame, .. } = self.0;
        if self.0.is_write {
            write!(f, "wrote frame {frame} to block {block}")
        } else {
            write!(f, "read block {block} into frame {frame}")
        }
    }
}

/// The first byte that a store changed.
fn write_first_changed<W: fmt::Write>(change: FrameChange, f: &mut fmt::Formatter<W>) -> fmt::Result
    ensures { DisplaysOnOk W.write_str_gives f.old result (Some (spec.first_changed change)) f.new }
{
    let place = change.place;
    let (was, now) = (ByteText(change.was), ByteText(change.now));
    write!(f, "byte {place} was {was} and became {now}")
}

impl fmt::Display for FrameChange {
    ghost output = { λ c. Some (spec.change_text c) };

    fn fmt<W: fmt::Write>(&self, f: &mut fmt::Formatter<W>) -> fmt::Result {
        let count = self.count;
        if count == 1 {
            write_first_changed(*self, f)
        } else {
            write_first_changed(*self, f)?;
            write!(f, ", and so on, {count} bytes in all")
        }
    }
}

/// A page that was shown last.
fn write_last_shown<W: fmt::Write>(showing: Showing, f: &mut fmt::Formatter<W>) -> fmt::Result
    ensures { DisplaysOnOk W.write_str_gives f.old result (Some (spec.deed_text (deed.LastShown showing))) f.new }
{
    let Showing {
        page,
        frame,
        digest,
        ..
    } = showing;
    let (page, digest) = (PageName(page), DigestText(digest));
    write!(f, "{page} was last shown, in frame {frame}, ")?;
    write!(f, "as ciphertext with the digest {digest}")
}

/// A page that was shown.
fn write_shown<W: fmt::Write>(page: PageId, frame: u32, f: &mut fmt::Formatter<W>) -> fmt::Result
    ensures { DisplaysOnOk W.write_str_gives f.old result (Some (spec.deed_text (deed.Shown page frame))) f.new }
{
    write_page_name(page, f)?;
    write!(f, " was shown, in frame {frame}")
}

/// A host call on the disk.
fn write_moved<W: fmt::Write>(hart: usize, call: DiskCall, f: &mut fmt::Formatter<W>) -> fmt::Result
    ensures { DisplaysOnOk W.write_str_gives f.old result (Some (spec.deed_text (deed.Moved hart call))) f.new }
{
    let call = CallName(call);
    write!(f, "the kernel, on hart {hart}, {call}")
}

/// A store of the kernel to a frame.
fn write_stored_by_kernel<W: fmt::Write>(
    hart: usize,
    frame: usize,
    change: FrameChange,
    f: &mut fmt::Formatter<W>,
) -> fmt::Result
    ensures { DisplaysOnOk W.write_str_gives f.old result (Some (spec.stored_text hart None frame change)) f.new }
{
    write!(
        f,
        "the kernel, on hart {hart}, stored to frame {frame}: {change}"
    )
}

/// A store of a context to a frame, where the kernel sees it.
fn write_stored_by_context<W: fmt::Write>(
    hart: usize,
    ctx: u32,
    frame: usize,
    change: FrameChange,
    f: &mut fmt::Formatter<W>,
) -> fmt::Result
    ensures { DisplaysOnOk W.write_str_gives f.old result (Some (spec.stored_text hart (Some ctx) frame change)) f.new }
{
    write!(
        f,
        "context {ctx}, on hart {hart}, stored in the open to frame {frame}: {change}"
    )
}

/// A store to a frame.
fn write_stored<W: fmt::Write>(
    hart: usize,
    ctx: Option<u32>,
    frame: usize,
    change: FrameChange,
    f: &mut fmt::Formatter<W>,
) -> fmt::Result
    ensures { DisplaysOnOk W.write_str_gives f.old result (Some (spec.stored_text hart ctx frame change)) f.new }
{
    match ctx {
        None => write_stored_by_kernel(hart, frame, change, f),
        Some(ctx) => write_stored_by_context(hart, ctx, frame, change, f),
    }
}

/// The kernel, or the context, that changed a page table.
fn write_table_changed<W: fmt::Write>(ctx: Option<u32>, f: &mut fmt::Formatter<W>) -> fmt::Result
    ensures { DisplaysOnOk W.write_str_gives f.old result (Some (spec.table_changed ctx)) f.new }
{
    match ctx {
        None => f.write_str("the kernel changed its page table: "),
        Some(ctx) => write!(f, "context {ctx} changed the kernel's page table: "),
    }
}

/// An address that leads elsewhere.
fn write_leads<W: fmt::Write>(
    ctx: Option<u32>,
    address: u32,
    from: Option<usize>,
    to: Option<usize>,
    f: &mut fmt::Formatter<W>,
) -> fmt::Result
    ensures { DisplaysOnOk W.write_str_gives f.old result
        (Some (spec.deed_text (deed.Leads ctx address from to))) f.new }
{
    let (from, to) = (FrameName(from), FrameName(to));
    write_table_changed(ctx, f)?;
    write_word(address, f)?;
    write!(f, " led to {from}, and now leads to {to}")
}

impl fmt::Display for PageDeed {
    ghost output = { λ d. Some (spec.deed_text d) };

    fn fmt<W: fmt::Write>(&self, f: &mut fmt::Formatter<W>) -> fmt::Result {
        match *self {
            PageDeed::LastShown(showing) => write_last_shown(showing, f),
            PageDeed::Shown { page, frame } => write_shown(page, frame, f),
            PageDeed::Moved { hart, call } => write_moved(hart, call, f),
            PageDeed::Stored {
                hart,
                ctx,
                frame,
                change,
            } => write_stored(hart, ctx, frame, change, f),
            PageDeed::Leads {
                ctx,
                address,
                from,
                to,
            } => write_leads(ctx, address, from, to, f),
        }
    }
}

impl fmt::Display for PageEvent {
    ghost output = { λ e. Some (spec.event_text e) };

    fn fmt<W: fmt::Write>(&self, f: &mut fmt::Formatter<W>) -> fmt::Result {
        let step = StepName(self.step);
        let deed = self.deed;
        write!(f, "  {step}: {deed}\n")
    }
}

/// The page of which the bytes of a frame are not what was last shown.
fn write_whose<W: fmt::Write>(showing: Option<Showing>, f: &mut fmt::Formatter<W>) -> fmt::Result
    ensures { DisplaysOnOk W.write_str_gives f.old result (Some (spec.whose_text showing)) f.new }
{
    f.write_str(", and what that frame has is not what was last shown of ")?;
    match showing {
        Some(_) => f.write_str("the page.\n"),
        None => f.write_str(
            "the page, or of the page from which a fork copied it, up to that fork.\n",
        ),
    }
}

/// How many earlier events are left out.
fn write_left_out<W: fmt::Write>(left_out: u64, f: &mut fmt::Formatter<W>) -> fmt::Result
    ensures { DisplaysOnOk W.write_str_gives f.old result (Some (spec.left_out_text left_out)) f.new }
{
    if left_out == 0 {
        Ok(())
    } else {
        write!(f, "  (earlier events that are left out: {left_out})\n")
    }
}

/// What was done before.
fn write_events<W: fmt::Write>(
    left_out: u64,
    events: &[PageEvent],
    f: &mut fmt::Formatter<W>,
) -> fmt::Result
    ensures { DisplaysOnOk W.write_str_gives f.old result (Some (spec.events_text left_out events.now)) f.new }
{
    write_left_out(left_out, f)?;
    for event in events {
        write!(f, "{event}")?;
    }
    Ok(())
}

/// The step in which bytes had last been shown, or the opening.
fn write_origin_place<W: fmt::Write>(step: u32, f: &mut fmt::Formatter<W>) -> fmt::Result
    ensures { DisplaysOnOk W.write_str_gives f.old result (Some (spec.origin_place step)) f.new }
{
    if step == 0 {
        f.write_str(" at the opening\n")
    } else {
        write!(f, " at step {step}\n")
    }
}

/// Where bytes had last been shown.
fn write_origin<W: fmt::Write>(origin: Option<Showing>, f: &mut fmt::Formatter<W>) -> fmt::Result
    ensures { DisplaysOnOk W.write_str_gives f.old result (Some (spec.origin_text origin)) f.new }
{
    match origin {
        Some(Showing { page, step, .. }) => {
            f.write_str("shown of ")?;
            write_page_name(page, f)?;
            write_origin_place(step, f)
        }
        None => f.write_str("not shown in this run before\n"),
    }
}

/// What the program found in the frame, and where those bytes come from.
fn write_found<W: fmt::Write>(
    presented: &Presented,
    origin: Option<Showing>,
    f: &mut fmt::Formatter<W>,
) -> fmt::Result
    ensures { DisplaysOnOk W.write_str_gives f.old result (Some (spec.found_text presented.now origin)) f.new }
{
    let step = presented.step;
    let frame = presented.found.frame;
    let digest = DigestText(presented.digest);
    write!(
        f,
        "  step {step}: the program asked for the page, and found in frame {frame} "
    )?;
    write!(f, "bytes with the digest {digest}, which were ")?;
    write_origin(origin, f)
}

impl fmt::Display for PageStory<'_> {
    ghost output = { λ s. Some (spec.lines_of s.presented.now
        s.deeds.now.left_out s.deeds.now.events.items s.deeds.now.origin) };

    fn fmt<W: fmt::Write>(&self, f: &mut fmt::Formatter<W>) -> fmt::Result {
        write_whose(self.presented.showing, f)?;
        write_events(self.deeds.left_out(), self.deeds.events(), f)?;
        write_found(self.presented, self.deeds.origin(), f)?;
        f.write_str(
            "The rule: a frame that the kernel presents for a cloaked page has exactly the bytes that were last shown of that page.\n",
        )
    }
}

/// A hart's asking to resume a context.
fn write_asking<W: fmt::Write>(
    step: u32,
    hart: usize,
    ctx: u32,
    f: &mut fmt::Formatter<W>,
) -> fmt::Result
    ensures { DisplaysOnOk W.write_str_gives f.old result (Some (spec.asking_text step hart ctx)) f.new }
{
    write!(
        f,
        "A violation at step {step}: the kernel, on hart {hart}, "
    )?;
    write!(f, "asked to resume context {ctx}.\n")
}

/// The end of a context's program.
fn write_end<W: fmt::Write>(ctx: u32, f: &mut fmt::Formatter<W>) -> fmt::Result
    ensures { DisplaysOnOk W.write_str_gives f.old result (Some (spec.end_text ctx)) f.new }
{
    let domain = ctx / 8;
    write!(f, "So program {domain} ended.\n")
}

/// Where a context was resumed.
fn write_resumed<W: fmt::Write>(told: Option<ToldContext>, f: &mut fmt::Formatter<W>) -> fmt::Result
    ensures { DisplaysOnOk W.write_str_gives f.old result (Some (spec.resumed_text told)) f.new }
{
    match told {
        Some(ToldContext { resumed, .. }) => {
            write!(f, ", where it was resumed at step {resumed}.\n")
        }
        None => f.write_str(".\n"),
    }
}

/// Where a context ended, if it is known.
fn write_ended<W: fmt::Write>(ended: Option<u32>, f: &mut fmt::Formatter<W>) -> fmt::Result
    ensures { DisplaysOnOk W.write_str_gives f.old result (Some (spec.ended_text ended)) f.new }
{
    match ended {
        Some(step) => write!(f, "it ended at step {step}.\n"),
        None => f.write_str("the record has no such context.\n"),
    }
}

/// A context that is not there.
fn write_gone<W: fmt::Write>(told: Option<ToldContext>, f: &mut fmt::Formatter<W>) -> fmt::Result
    ensures { DisplaysOnOk W.write_str_gives f.old result (Some (spec.gone_text told)) f.new }
{
    match told {
        Some(ToldContext { ended, .. }) => write_ended(ended, f),
        None => write_ended(None, f),
    }
}

/// A text of these bytes, if they are one.
fn shown_text(bytes: &[u8]) -> &str
    ensures { IsUtf8 bytes.now → result.now ≡ bytes.now }
{
    std::str::from_utf8(bytes).unwrap_or("")
}

/// The hexadecimal digits of a word.
fn word_digits(word: u32) -> [u8; 8]
    ensures { result ≡ hexadecimal word }
{
    let mut digits = [0; 8];
    let Ok(()) = hex::encode_to_slice(word.to_be_bytes().as_slice(), &mut digits) else {
        unreachable!();
    };
    digits
}

/// A word in eight hexadecimal digits.
fn write_word<W: fmt::Write>(word: u32, f: &mut fmt::Formatter<W>) -> fmt::Result
    ensures { DisplaysOnOk W.write_str_gives f.old result (Some (hexadecimal word)) f.new }
{
    let digits = word_digits(word);
    f.write_str(shown_text(&digits))
}

/// A space that has another page table.
fn write_mapping<W: fmt::Write>(
    satp: u32,
    first: FirstTable,
    f: &mut fmt::Formatter<W>,
) -> fmt::Result
    ensures { DisplaysOnOk W.write_str_gives f.old result (Some (spec.mapping_text satp first)) f.new }
{
    let FirstTable { satp: was, step } = first;
    f.write_str("The page table of the hart is ")?;
    write_word(satp, f)?;
    f.write_str(" (satp), and the context's space was first resumed under ")?;
    write_word(was, f)?;
    write!(f, ", at step {step}.\n")
}

/// The rule on contexts that are resumed.
fn write_context_rule<W: fmt::Write>(f: &mut fmt::Formatter<W>) -> fmt::Result
    ensures { DisplaysOnOk W.write_str_gives f.old result (Some spec.context_rule) f.new }
{
    f.write_str("The rule: a context that is resumed is there, and runs on no hart.\n")
}

/// Why a context was not resumed, and the rule that asking for it broke.
fn write_why<W: fmt::Write>(satp: u32, why: Refused, f: &mut fmt::Formatter<W>) -> fmt::Result
    ensures { DisplaysOnOk W.write_str_gives f.old result (Some (spec.why_text satp why)) f.new }
{
    match why {
        Refused::Running(on, told) => {
            let on = on.0;
            write!(f, "The context runs on hart {on}")?;
            write_resumed(told, f)?;
            write_context_rule(f)
        }
        Refused::Gone(told) => {
            f.write_str("The context is not there: ")?;
            write_gone(told, f)?;
            write_context_rule(f)
        }
        Refused::Mapping(first) => {
            write_mapping(satp, first, f)?;
            f.write_str(
                "The rule: each space of a program is resumed under one page table, the first one.\n",
            )
        }
    }
}

/// A program that ended by the context that was to be resumed.
fn write_resume<W: fmt::Write>(
    asking: &AskedResume,
    why: Refused,
    f: &mut fmt::Formatter<W>,
) -> fmt::Result
    ensures { DisplaysOnOk W.write_str_gives f.old result (Some (spec.resume_text asking.now why)) f.new }
{
    write_asking(asking.step, asking.hart, asking.ctx, f)?;
    write_why(asking.satp, why, f)?;
    write_end(asking.ctx, f)
}

/// Why no program was left to end.
fn write_left<W: fmt::Write>(ctx: u32, ended: Option<u32>, f: &mut fmt::Formatter<W>) -> fmt::Result
    ensures { DisplaysOnOk W.write_str_gives f.old result (Some (spec.left_text ctx ended)) f.new }
{
    let domain = ctx / 8;
    match ended {
        None => write!(f, "there is no program {domain}.\n"),
        Some(step) => write!(f, "program {domain} ended at step {step}.\n"),
    }
}

/// A resume that was refused.
fn write_none<W: fmt::Write>(
    step: u32,
    asked: Asking,
    ended: Option<u32>,
    f: &mut fmt::Formatter<W>,
) -> fmt::Result
    ensures { DisplaysOnOk W.write_str_gives f.old result (Some (spec.none_text step asked ended)) f.new }
{
    write_asking(step, asked.hart, asked.ctx, f)?;
    f.write_str("The resume was refused: ")?;
    write_left(asked.ctx, ended, f)
}

/// What an access did.
fn write_access_name<W: fmt::Write>(kind: Kind, f: &mut fmt::Formatter<W>) -> fmt::Result
    ensures { DisplaysOnOk W.write_str_gives f.old result (Some (spec.access_name kind)) f.new }
{
    match kind {
        Kind::Fetch => f.write_str("fetched an instruction"),
        Kind::Load => f.write_str("loaded"),
        Kind::Store => f.write_str("stored"),
    }
}

/// A page, by its numbers.
fn write_page_name<W: fmt::Write>(page: PageId, f: &mut fmt::Formatter<W>) -> fmt::Result
    ensures { DisplaysOnOk W.write_str_gives f.old result (Some (spec.page_name page)) f.new }
{
    let PageId {
        domain,
        resource,
        page,
    } = page;
    write!(f, "page {page} of resource {resource} of program {domain}")
}

/// The program's access that was stopped, and the frame to which it led.
fn write_access<W: fmt::Write>(presented: PresentedPage, f: &mut fmt::Formatter<W>) -> fmt::Result
    ensures { DisplaysOnOk W.write_str_gives f.old result (Some (spec.access_text presented)) f.new }
{
    let frame = presented.frame;
    write_access_name(presented.kind, f)?;
    f.write_str(" at ")?;
    write_word(presented.address, f)?;
    f.write_str(", which is ")?;
    write_page_name(presented.page, f)?;
    write!(f, ".\nThe kernel's page table leads there to frame {frame}")
}

/// The step of a context.
fn write_running<W: fmt::Write>(
    step: u32,
    hart: usize,
    ctx: u32,
    f: &mut fmt::Formatter<W>,
) -> fmt::Result
    ensures { DisplaysOnOk W.write_str_gives f.old result (Some (spec.running_text step hart ctx)) f.new }
{
    write!(
        f,
        "A violation at step {step}: context {ctx}, on hart {hart}, "
    )
}

/// A page that was presented.
fn write_page<W: fmt::Write>(
    presented: &Presented,
    more: &str,
    f: &mut fmt::Formatter<W>,
) -> fmt::Result
    ensures { DisplaysOnOk W.write_str_gives f.old result
        (Some (spec.page_text presented.now more.now)) f.new }
{
    let Presented {
        step,
        hart,
        ctx,
        ..
    } = *presented;
    write_running(step, hart, ctx, f)?;
    write_access(presented.found, f)?;
    f.write_str(more)?;
    write_end(ctx, f)
}

/// A page of which no more is told.
fn write_question<W: fmt::Write>(step: u32, ctx: u32, f: &mut fmt::Formatter<W>) -> fmt::Result
    ensures { DisplaysOnOk W.write_str_gives f.old result (Some (spec.question_text step ctx)) f.new }
{
    let domain = ctx / 8;
    write!(
        f,
        "A violation at step {step}: what the kernel presented for a page of program {domain} "
    )?;
    f.write_str("is not what was last shown of that page.\n")?;
    write_end(ctx, f)
}

impl fmt::Display for Passage {
    ghost output = { λ p. Some (spec.passage_text p) };

    fn fmt<W: fmt::Write>(&self, f: &mut fmt::Formatter<W>) -> fmt::Result {
        match self {
            Passage::Resume(asking, why) => write_resume(asking, *why, f),
            Passage::Gone(step, asked, ended) => write_none(*step, *asked, *ended, f),
            Passage::Page(presented, more) => write_page(presented, more, f),
            Passage::Question(step, ctx) => write_question(*step, *ctx, f),
        }
    }
}
