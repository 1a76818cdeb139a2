//! What the words result in.
ghost use Rattle.std.specs.Prelude.{◌≡◌, IfOk, map, string_bytes};
ghost use Rattle.clap.specs.Words.{found_of, kind_of, rows_of};
ghost use Rattle.tool_words.specs.ToolCommand as spec;
ghost use Rattle.tool_words.specs.ToolRequest.{ReadsTool, SaysFault, asked_of_disasm, asked_of_show, asked_of_trace, old_named_of, tool_asked_of};

use crate::form::tools_form;
use crate::found::{given_names, given_text, is_flagged, needed_text, number_named, step_named};
use crate::request::{DisasmRequest, OldNamed, ShowRequest, ToolRequest, ToolWords, TraceRequest};
use clap::error::ErrorKind;
use clap::{ArgMatches, Error};
use cloak_base::NoMemory;
use std::alloc::Global;

/// What is asked of a record with the texts that were found.
fn show_request<'a>(alloc: Global, matches: &ArgMatches<'a>) -> Result<ShowRequest<'a>, NoMemory>
    ensures { IfOk result (λ show. asked_of_show show ≡ spec.show_asked (rows_of (found_of matches.now))) }
{
    let follow = step_named(matches, "follow", 0);
    Ok(ShowRequest {
        record_name: needed_text(matches, "RECORD"),
        from: step_named(matches, "from", follow),
        to: step_named(matches, "to", u32::MAX),
        only: given_names(alloc, matches, "only")?,
        counts: is_flagged(matches, "counts"),
        json: is_flagged(matches, "json"),
    })
}

/// Which words are asked for with the texts that were found.
fn disasm_request<'a>(matches: &ArgMatches<'a>) -> DisasmRequest<'a>
    ensures { asked_of_disasm result ≡ spec.disasm_asked (rows_of (found_of matches.now)) }
{
    DisasmRequest {
        words: needed_text(matches, "FILE"),
        base: given_text(matches, "base"),
        segment: number_named(matches, "segment"),
        program: number_named(matches, "program"),
    }
}

/// What is named of cloaked files with the texts that were found.
fn old_named<'a>(matches: &ArgMatches<'a>) -> OldNamed<'a>
    ensures { old_named_of result ≡ spec.old_named (rows_of (found_of matches.now)) }
{
    OldNamed {
        old: given_text(matches, "files"),
        secret: given_text(matches, "secret"),
        counter: number_named(matches, "counter"),
    }
}

/// What is asked of a run with the texts that were found.
fn trace_request<'a>(matches: &ArgMatches<'a>) -> TraceRequest<'a>
    ensures { asked_of_trace result ≡ spec.trace_asked (rows_of (found_of matches.now)) }
{
    TraceRequest {
        bundle: needed_text(matches, "BUNDLE"),
        record_name: needed_text(matches, "RECORD"),
        program: number_named(matches, "program"),
        from: step_named(matches, "from", 0),
        to: step_named(matches, "to", u32::MAX),
        hart: number_named(matches, "hart"),
        old: old_named(matches),
    }
}

/// What a command asks with the texts that it found.
#[tactic(auto, unfolding(crate::specs::ToolCommand::tool_asked_with))]
fn asked_with<'a>(
    alloc: Global,
    name: &str,
    matches: &ArgMatches<'a>,
) -> Result<ToolRequest<'a>, NoMemory>
    ensures { IfOk result (λ request. tool_asked_of request
        ≡ spec.tool_asked_with name.now (rows_of (found_of matches.now))) }
{
    match name {
        "asm" => Ok(ToolRequest::Asm {
            text: needed_text(matches, "TEXT"),
            words: needed_text(matches, "OUT"),
        }),
        "disasm" => Ok(ToolRequest::Disasm(disasm_request(matches))),
        "pack" => Ok(ToolRequest::Pack {
            manifest: needed_text(matches, "MANIFEST"),
            bundle: needed_text(matches, "BUNDLE"),
        }),
        "show" => Ok(ToolRequest::Show(show_request(alloc, matches)?)),
        "trace" => Ok(ToolRequest::Trace(trace_request(matches))),
        "draw" => Ok(ToolRequest::Draw {
            bundle: needed_text(matches, "BUNDLE"),
            record_name: needed_text(matches, "RECORD"),
            out: needed_text(matches, "OUT"),
        }),
        _ => Ok(ToolRequest::Explain {
            bundle: needed_text(matches, "BUNDLE"),
            record_name: needed_text(matches, "RECORD"),
        }),
    }
}

/// What words that are not taken result in, or nothing for want of memory.
fn not_taken<'a>(alloc: Global, error: &Error) -> Result<ToolWords<'a>, NoMemory>
    ensures { IfOk result (SaysFault (kind_of error.now)) }
{
    match error.kind() {
        ErrorKind::OutOfMemory => Err(NoMemory),
        ErrorKind::DisplayHelp | ErrorKind::DisplayVersion => Ok(ToolWords::Help(error.to_string(
            alloc,
        )?)),
        _ => Ok(ToolWords::Faulty(error.to_string(alloc)?)),
    }
}

/// Reads the words, of which the first is the program's name.
pub fn read_tool_words<'a>(alloc: Global, words: &'a [String]) -> Result<ToolWords<'a>, NoMemory>
    ensures { IfOk result (ReadsTool (map string_bytes words.now)) }
{
    let matches = match tools_form(alloc)?.try_get_matches_from(words) {
        Ok(matches) => matches,
        Err(error) => return not_taken(alloc, &error),
    };
    match matches.subcommand() {
        Some((name, found)) => Ok(ToolWords::Asks(asked_with(alloc, name, found)?)),
        None => Ok(ToolWords::Faulty(String::from_str(alloc, "error: there is no command\n")?)),
    }
}
