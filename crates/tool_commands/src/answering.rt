//! What is done by the words.
ghost use Rattle.std.specs.Prelude.{◌≡◌, Some, map, option_map, string_bytes};
ghost use Rattle.command_parts.specs.Outside.{outside, output};
ghost use Rattle.command_words.specs.Request.{old_of};
ghost use Rattle.disassembly.specs.Disassembling.{ShowsText};
ghost use Rattle.tool_words.specs.ToolRequest.{asked_of_disasm, asked_of_show, asked_of_trace, tool_asked_of};
ghost use Rattle.tool_commands.specs.ToolAnswering.{DrawFrom, ReadAnswers, ShowsSelection, ToolAnswers, TraceFrom, WordsAnswers};
ghost use Rattle.tool_commands.specs.ToolAnswering as answers;

use crate::choosing::{WordsMeant, choice_asked, old_asked, selection_asked, words_asked};
use crate::saying::say;
use asm_text::asm_command;
use command_parts::{Refusal, Status, refuse};
use command_words::OldFiles;
use disassembly::{disasm_command, disasm_part_command};
use draw_command::draw_command;
use io_traits::{Shelf, Sink};
use manifest::pack_command;
use record_json::show_json_command;
use record_text::{Selection, show_command};
use run_story::explain_command;
use run_trace::{TraceChoice, trace_command, trace_over_command};
use std::alloc::Global;
use tool_words::{
    DisasmRequest, ShowRequest, ToolRequest, ToolWords, TraceRequest, read_tool_words,
};

/// Shows what is chosen of a record, as objects of JSON or in lines.
fn show_as<S: Shelf, O: Sink>(
    json: bool,
    name: &str,
    selection: &Selection,
    shelf: &mut S,
    out: &mut O,
) -> Status
    requires { S.is_settled shelf.old }
    ensures { ShowsSelection json selection.now name.now
        (outside S.Shelf O.Sink shelf.old out.old) (outside S.Shelf O.Sink shelf.new out.new) result }
{
    if json {
        show_json_command(name, selection, shelf, out)
    } else {
        show_command(name, selection, shelf, out)
    }
}

/// Shows what is meant of a record.
fn show<S: Shelf, O: Sink>(show: &ShowRequest<'_>, shelf: &mut S, out: &mut O) -> Status
    requires { S.is_settled shelf.old }
    ensures { ToolAnswers (asked_of_show show.now)
        (outside S.Shelf O.Sink shelf.old out.old) (outside S.Shelf O.Sink shelf.new out.new) result }
{
    match selection_asked(show) {
        Some(selection) => show_as(show.json, show.record_name, &selection, shelf, out),
        None => say(out, b"error: --only has an unknown kind\n", Status::Usage),
    }
}

/// Shows the words that are meant as a text.
fn disasm<S: Shelf, O: Sink>(
    alloc: Global,
    request: &DisasmRequest<'_>,
    shelf: &mut S,
    out: &mut O,
) -> Status
    requires { S.is_settled shelf.old }
    ensures { ToolAnswers (asked_of_disasm request.now)
        (outside S.Shelf O.Sink shelf.old out.old) (outside S.Shelf O.Sink shelf.new out.new) result }
{
    match words_asked(request) {
        WordsMeant::FileFrom(base) => disasm_command(alloc, base, request.words, shelf, out),
        WordsMeant::PartOf(part) => disasm_part_command(alloc, part, request.words, shelf, out),
        WordsMeant::NoAddress => say(out, b"error: --base is not an address\n", Status::Usage),
        WordsMeant::Several => say(
            out,
            b"error: of --base, --segment and --program only one may be given\n",
            Status::Usage,
        ),
    }
}

/// Says that what is named of cloaked files does not go together.
fn say_apart<O: Sink>(out: &mut O) -> Status
    ensures { ShowsText answers.old_line Status.Usage (output O.Sink out.old) (output O.Sink out.new) result }
{
    say(
        out,
        b"error: --files, --secret and --counter are given together, and with --program\n",
        Status::Usage,
    )
}

/// Shows the steps that are meant of a program of a run over cloaked files.
fn trace_over<S: Shelf, O: Sink>(
    alloc: Global,
    request: &TraceRequest<'_>,
    old: &OldFiles<'_>,
    choice: &TraceChoice,
    shelf: &mut S,
    out: &mut O,
) -> Status
    requires { S.is_settled shelf.old }
    ensures { TraceFrom (Some (Some (old_of old.now))) request.now.bundle.now request.now.record_name.now
        request.now.program choice.now
        (outside S.Shelf O.Sink shelf.old out.old) (outside S.Shelf O.Sink shelf.new out.new) result }
{
    match request.program {
        None => say_apart(out),
        Some(number) => trace_over_command(
            alloc,
            request.bundle,
            request.record_name,
            number,
            old,
            choice,
            shelf,
            out,
        ),
    }
}

/// Shows the steps of a run that are meant, which went on from these cloaked files or from none.
fn trace_from<S: Shelf, O: Sink>(
    alloc: Global,
    request: &TraceRequest<'_>,
    old: Option<Option<OldFiles<'_>>>,
    choice: &TraceChoice,
    shelf: &mut S,
    out: &mut O,
) -> Status
    requires { S.is_settled shelf.old }
    ensures { TraceFrom (option_map (λ given. option_map old_of given) old.entry) request.now.bundle.now
        request.now.record_name.now request.now.program choice.now
        (outside S.Shelf O.Sink shelf.old out.old) (outside S.Shelf O.Sink shelf.new out.new) result }
{
    match old {
        None => say_apart(out),
        Some(given) => match given {
            None => trace_command(
                alloc,
                request.bundle,
                request.record_name,
                request.program,
                choice,
                shelf,
                out,
            ),
            Some(old) => trace_over(alloc, request, &old, choice, shelf, out),
        },
    }
}

/// Shows the steps of a run that are meant.
fn trace<S: Shelf, O: Sink>(
    alloc: Global,
    request: &TraceRequest<'_>,
    shelf: &mut S,
    out: &mut O,
) -> Status
    requires { S.is_settled shelf.old }
    ensures { ToolAnswers (asked_of_trace request.now)
        (outside S.Shelf O.Sink shelf.old out.old) (outside S.Shelf O.Sink shelf.new out.new) result }
{
    let choice = choice_asked(request);
    trace_from(alloc, request, old_asked(&request.old), &choice, shelf, out)
}

/// A picture would take the place of the image or of the record.
fn is_taken(picture: &str, bundle: &str, record_name: &str) -> bool
    ensures { result ≡ answers.is_taken picture.now bundle.now record_name.now }
{
    picture == bundle || picture == record_name
}

/// Draws a run, unless the picture would take the place of what it is drawn from.
fn draw<S: Shelf, O: Sink>(
    alloc: Global,
    bundle: &str,
    record_name: &str,
    picture: &str,
    shelf: &mut S,
    out: &mut O,
) -> Status
    requires { S.is_settled shelf.old }
    ensures { DrawFrom (answers.is_taken picture.now bundle.now record_name.now) bundle.now record_name.now picture.now
        (outside S.Shelf O.Sink shelf.old out.old) (outside S.Shelf O.Sink shelf.new out.new) result }
{
    let taken = is_taken(picture, bundle, record_name);
    if taken {
        say(out, b"error: OUT is BUNDLE or RECORD\n", Status::Usage)
    } else {
        draw_command(alloc, bundle, record_name, picture, shelf, out)
    }
}

/// Does what is asked for.
fn carry_out<S: Shelf, O: Sink>(
    alloc: Global,
    request: &ToolRequest<'_>,
    shelf: &mut S,
    out: &mut O,
) -> Status
    requires { S.is_settled shelf.old }
    ensures { ToolAnswers (tool_asked_of request.now)
        (outside S.Shelf O.Sink shelf.old out.old) (outside S.Shelf O.Sink shelf.new out.new) result }
{
    match request {
        ToolRequest::Asm { text, words } => asm_command(alloc, text, words, shelf, out),
        ToolRequest::Disasm(request) => disasm(alloc, request, shelf, out),
        ToolRequest::Pack { manifest, bundle } => pack_command(alloc, manifest, bundle, shelf, out),
        ToolRequest::Show(request) => show(request, shelf, out),
        ToolRequest::Trace(request) => trace(alloc, request, shelf, out),
        ToolRequest::Draw {
            bundle,
            record_name,
            out: picture,
        } => draw(alloc, bundle, record_name, picture, shelf, out),
        ToolRequest::Explain {
            bundle,
            record_name,
        } => explain_command(alloc, bundle, record_name, shelf, out),
    }
}

/// Does what was read of words.
fn follow<S: Shelf, O: Sink>(
    alloc: Global,
    read: &ToolWords<'_>,
    shelf: &mut S,
    out: &mut O,
) -> Status
    requires { S.is_settled shelf.old }
    ensures { ReadAnswers read.now
        (outside S.Shelf O.Sink shelf.old out.old) (outside S.Shelf O.Sink shelf.new out.new) result }
{
    match read {
        ToolWords::Asks(request) => carry_out(alloc, request, shelf, out),
        ToolWords::Help(text) => say(out, text.as_bytes(), Status::Done),
        ToolWords::Faulty(text) => say(out, text.as_bytes(), Status::Usage),
    }
}

/// Does what the words ask for, of which the first is the program's name.
pub fn obey<S: Shelf, O: Sink>(
    alloc: Global,
    words: &Vec<String>,
    shelf: &mut S,
    out: &mut O,
) -> Status
    requires { S.is_settled shelf.old }
    ensures { WordsAnswers (map string_bytes words.now.items)
        (outside S.Shelf O.Sink shelf.old out.old) (outside S.Shelf O.Sink shelf.new out.new) result }
{
    match read_tool_words(alloc, words.as_slice()) {
        Ok(read) => follow(alloc, &read, shelf, out),
        Err(_) => refuse(out, &Refusal::NoMemory),
    }
}
