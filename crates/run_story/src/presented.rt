//! What was presented as a violation was met.
ghost use Rattle.std.specs.Prelude.{◌≡◌, List, ℕ};
ghost use Rattle.cloak_model.specs.KernelAlone.{kernel_alone, kernel_hart};
ghost use Rattle.cloak_model.specs.declared.image.Bundle.{Bundle};
ghost use Rattle.cloak_model.specs.Items.{Item};
ghost use Rattle.replayed_run.specs.Alone.{standing_told, words_of};
ghost use Rattle.replayed_run.specs.Watching.{Watches, notes_of};
ghost use Rattle.run_story.specs.Presenting as model;
ghost use Rattle.run_story.specs.Told as spec;
ghost use Rattle.run_story.specs.Telling.{due_of};

use alone_views::KernelStage;
use cloak_base::HartId;
use replayed_run::{
    FirstTable, HartWords, PresentedPage, Showing, StandingContext, Tables, ToldContext, Watch,
};
use sha2::{Digest, Sha256};

/// A program's question that was stopped.
#[derive(Clone, Copy)]
pub struct StoppedQuestion {
    pub step: u32,
    pub hart: usize,
    pub ctx: u32,
    /// How many items the record has before the answer.
    pub before: u64,
}

/// A page that a frame was presented for, as a question for it was stopped.
#[derive(Clone, Copy)]
pub struct Presented {
    pub step: u32,
    pub hart: usize,
    pub ctx: u32,
    /// How many items the record has before the answer.
    pub before: u64,
    pub found: PresentedPage,
    pub tables: Tables,
    /// The digest of what the frame has.
    pub digest: [u8; 32],
    /// What was last shown of the page. Of a copy made by a fork nothing was.
    pub showing: Option<Showing>,
}

/// A context that a hart was asked to resume.
#[derive(Clone, Copy)]
pub struct AskedResume {
    pub step: u32,
    pub hart: usize,
    pub ctx: u32,
    pub satp: u32,
}

/// Why a context is not resumed.
#[derive(Clone, Copy)]
pub enum Refused {
    /// It runs on this hart.
    Running(HartId, Option<ToldContext>),
    /// It is not there.
    Gone(Option<ToldContext>),
    /// Its space was first resumed under another page table.
    Mapping(FirstTable),
}

/// What was presented in a step, by which a program ends unless a draw is missing.
#[derive(Clone, Copy)]
pub enum Target {
    Nothing,
    /// A page, of which no more is known, for a question of this context.
    Question { ctx: u32 },
    Page(Presented),
    Context(AskedResume, Refused),
}

/// Bytes of this digest are what was last shown of a page.
fn is_last_shown(digest: &[u8; 32], showing: Option<Showing>) -> bool
    ensures { result ≡ model.is_last_shown digest.now showing }
{
    match showing {
        None => false,
        Some(showing) => showing.digest == *digest,
    }
}

/// What is known of a page that was presented under these tables, in a frame of these bytes.
fn presented_as(
    question: StoppedQuestion,
    found: PresentedPage,
    showing: Option<Showing>,
    tables: Tables,
    bytes: &[u8; 4096],
) -> Option<Presented>
    ensures { result ≡ model.presented_as question found showing tables bytes.now }
{
    let digest = Sha256::digest(bytes.as_slice());
    if is_last_shown(&digest, showing) {
        return None;
    }
    let StoppedQuestion {
        step,
        hart,
        ctx,
        before,
    } = question;
    Some(Presented {
        step,
        hart,
        ctx,
        before,
        found,
        tables,
        digest,
        showing,
    })
}

/// What is known of a page that was presented for a question. No more is, if its frame has what was last shown of the page.
fn presented_for(
    watch: &Watch,
    question: StoppedQuestion,
    found: Option<PresentedPage>,
) -> Option<Presented>
    ensures { (b : Bundle) (items : List Item) → Watches b items watch.now →
        result ≡ model.presented_for b items question found }
{
    let found = found?;
    let tables = watch.tables()?;
    let bytes = watch.frames().get(found.frame)?;
    presented_as(
        question,
        found,
        watch.pages().shown(found.page),
        tables,
        bytes,
    )
}

/// A page that was presented for a question of a context, if more is known of it.
fn page_target(ctx: u32, presented: Option<Presented>) -> Target
    ensures { due_of result ≡ spec.page_due ctx presented }
{
    match presented {
        None => Target::Question { ctx },
        Some(presented) => Target::Page(presented),
    }
}

/// What was presented as a program's question was stopped, before whose answer the record has so many items.
pub fn question_target(watch: &Watch, before: u64) -> Target
    ensures { (b : Bundle) (items : List Item) → Watches b items watch.now →
        due_of result ≡ spec.question_in b items before }
{
    match watch.stage() {
        KernelStage::Inside { hart, ctx } => {
            let question = StoppedQuestion {
                step: watch.step(),
                hart,
                ctx,
                before,
            };
            page_target(ctx, presented_for(watch, question, watch.presented()))
        }
        KernelStage::Outside { .. } => Target::Nothing,
        KernelStage::Between => Target::Nothing,
        KernelStage::Left => Target::Nothing,
    }
}

/// A space has another page table than this one.
fn refused_by_table(satp: u32, first: Option<FirstTable>) -> Option<Refused>
    ensures { result ≡ spec.refused_by_table satp first }
{
    match first {
        None => None,
        Some(first) => {
            if first.satp == satp {
                None
            } else {
                Some(Refused::Mapping(first))
            }
        }
    }
}

/// Why a context is not resumed under a page table.
fn refusal(watch: &Watch, ctx: u32, satp: u32, context: Option<StandingContext>) -> Option<Refused>
    ensures { result ≡ spec.refused_for (notes_of watch.now) ctx satp context }
{
    match context {
        None => Some(Refused::Gone(watch.told(ctx))),
        Some(StandingContext { space, on }) => match on {
            Some(on) => Some(Refused::Running(on, watch.told(ctx))),
            None => refused_by_table(satp, watch.table(space)),
        },
    }
}

/// The context that a hart names is not resumed for this reason.
fn target_for(asking: AskedResume, refused: Option<Refused>) -> Target
    ensures { due_of result ≡ spec.due_for asking refused }
{
    match refused {
        None => Target::Nothing,
        Some(refused) => Target::Context(asking, refused),
    }
}

/// What is presented as a program ends in a step of a hart outside, which asks to resume a context.
fn resume_target(watch: &Watch, domain: u32, hart: usize) -> Target
    ensures { (b : Bundle) (items : List Item) → Watches b items watch.now →
        due_of result ≡ spec.resume_due b items (notes_of watch.now) domain hart
        (words_of (kernel_hart (kernel_alone b.kernel items).kernel hart)) }
{
    let HartWords { ctx, satp } = watch.words_of(hart);
    if ctx / 8 == domain {
        let asking = AskedResume {
            step: watch.step(),
            hart,
            ctx,
            satp,
        };
        target_for(asking, refusal(watch, ctx, satp, watch.context(ctx)))
    } else {
        Target::Nothing
    }
}

/// A page that was presented for a question of this program.
fn own_target(target: Target, domain: u32) -> Target
    ensures { due_of result ≡ spec.own_due domain (due_of target) }
{
    match target {
        Target::Page(presented) => {
            if presented.ctx / 8 == domain {
                target
            } else {
                Target::Nothing
            }
        }
        Target::Question { ctx } => {
            if ctx / 8 == domain {
                target
            } else {
                Target::Nothing
            }
        }
        Target::Context(_, _) => Target::Nothing,
        Target::Nothing => Target::Nothing,
    }
}

/// By what a program is about to end, if this was presented in the step before.
pub fn end_target(watch: &Watch, target: Target, domain: u32) -> Target
    ensures { (b : Bundle) (items : List Item) → Watches b items watch.now →
        due_of result ≡ spec.due_at b items (notes_of watch.now) (due_of target) domain
        (kernel_alone b.kernel items).stage }
{
    match watch.stage() {
        KernelStage::Outside { hart } => resume_target(watch, domain, hart),
        KernelStage::Between => own_target(target, domain),
        KernelStage::Inside { .. } => own_target(target, domain),
        KernelStage::Left => own_target(target, domain),
    }
}
