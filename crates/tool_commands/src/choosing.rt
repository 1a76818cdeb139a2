//! What is meant by words.
ghost use Rattle.std.specs.Prelude.{◌≡◌, option_map, None};
ghost use Rattle.command_words.specs.Request.{old_of};
ghost use Rattle.tool_words.specs.ToolRequest.{names_of};
ghost use Rattle.tool_commands.specs.KindNames as spec;
ghost use Rattle.tool_commands.specs.ToolAnswering as answering;

use crate::kinds::kinds_of_names;
use command_words::OldFiles;
use disassembly::{ImagePart, address_of};
use record_text::Selection;
use run_trace::TraceChoice;
use tool_words::{DisasmRequest, OldNamed, ShowRequest, TraceRequest};

/// What of a record is meant, unless a name is that of no kind.
pub fn selection_asked(show: &ShowRequest<'_>) -> Option<Selection>
    ensures { result ≡ spec.selection_asked show.now.from show.now.to (option_map names_of show.now.only) show.now.counts }
{
    let only = match &show.only {
        None => None,
        Some(names) => match kinds_of_names(names.as_slice()) {
            Some(kinds) => Some(kinds),
            None => return None,
        },
    };
    Some(Selection {
        from: show.from,
        to: show.to,
        only,
        counts: show.counts,
    })
}

/// The address that is meant, unless the text is none.
fn base_asked(base: Option<&str>) -> Option<u32>
    ensures { result ≡ answering.base_asked (option_map (λ text. text.now) base.entry) }
{
    match base {
        None => Some(0),
        Some(text) => address_of(text),
    }
}

/// Which words are meant.
#[derive(Clone, Copy, Debug, PartialEq, Eq)]
pub enum WordsMeant {
    /// Those of a file, of which the first is at this address.
    FileFrom(u32),
    /// Those of a part of an image.
    PartOf(ImagePart),
    /// The text of the address is none.
    NoAddress,
    /// More than one is asked for.
    Several,
}

/// The words of a file.
fn file_from(base: Option<&str>) -> WordsMeant
    ensures { result ≡ answering.words_asked (option_map (λ text. text.now) base.entry) None None }
{
    match base_asked(base) {
        Some(base) => WordsMeant::FileFrom(base),
        None => WordsMeant::NoAddress,
    }
}

/// The words of a part of an image, unless an address is asked for, too.
fn part_of(base: Option<&str>, part: ImagePart) -> WordsMeant
    ensures { result ≡ answering.part_asked (option_map (λ text. text.now) base.entry) part }
{
    match base {
        None => WordsMeant::PartOf(part),
        Some(_) => WordsMeant::Several,
    }
}

/// Which words are meant.
pub fn words_asked(request: &DisasmRequest<'_>) -> WordsMeant
    ensures { result ≡ answering.words_asked (option_map (λ text. text.now) request.now.base)
        request.now.segment request.now.program }
{
    match (request.segment, request.program) {
        (None, None) => file_from(request.base),
        (Some(number), None) => part_of(request.base, ImagePart::Segment(number)),
        (None, Some(number)) => part_of(request.base, ImagePart::Program(number)),
        (Some(_), Some(_)) => WordsMeant::Several,
    }
}

/// The cloaked files that a run went on from, if what is named of them goes together.
#[tactic(auto, unfolding(crate::specs::ToolAnswering::old_asked))]
pub fn old_asked<'a>(named: &OldNamed<'a>) -> Option<Option<OldFiles<'a>>>
    ensures { option_map (λ given. option_map old_of given) result ≡ answering.old_asked
        (option_map (λ text. text.now) named.now.old) (option_map (λ text. text.now) named.now.secret) named.now.counter }
{
    match (named.old, named.secret, named.counter) {
        (None, None, None) => Some(None),
        (Some(old_name), Some(secret_name), Some(counter)) => Some(Some(OldFiles {
            old_name,
            secret_name,
            counter: counter as u64,
        })),
        _ => None,
    }
}

/// Which steps are meant.
pub fn choice_asked(trace: &TraceRequest<'_>) -> TraceChoice
    ensures { result ≡ answering.choice_asked trace.now.from trace.now.to trace.now.hart }
{
    TraceChoice {
        from: trace.from,
        to: trace.to,
        hart: trace.hart,
    }
}
