//! The tools as a command of `clap`, which reads their words and writes help.
ghost use Rattle.std.specs.Prelude.{◌≡◌, IfOk, false};
ghost use Rattle.clap.specs.Words.{App, app_of, rule_of, with_subcommand};
ghost use Rattle.command_words.specs.Forms as forms;
ghost use Rattle.tool_words.specs.HasForm.{AddsForm, HasForm};
ghost use Rattle.tool_words.specs.ToolForms as spec;

use clap::builder::ValueParser;
use clap::{Arg, ArgAction, Command, value_parser};
use cloak_base::NoMemory;
use std::alloc::Global;

/// A position, which is not to be left out.
fn position<'a>(alloc: Global, name: &'a str, help: &'a str) -> Arg<'a>
    ensures rule { rule_of result ≡ forms.position name.entry.now }
    ensures local { result.global ≡ false }
{
    Arg::new(alloc, name).required(true).help(help)
}

/// An option with one value; `value` is what help calls it.
fn named_option<'a>(alloc: Global, name: &'a str, value: &'a str, help: &'a str) -> Arg<'a>
    ensures rule { rule_of result ≡ spec.named_option name.entry.now }
    ensures local { result.global ≡ false }
{
    Arg::new(alloc, name)
        .long(name)
        .value_name(value)
        .help(help)
}

/// An option whose value is a number, which help calls `value`.
fn number_option<'a>(alloc: Global, name: &'a str, value: &'a str, help: &'a str) -> Arg<'a>
    ensures rule { rule_of result ≡ spec.number_option name.entry.now }
    ensures local { result.global ≡ false }
{
    named_option(alloc, name, value, help).value_parser(value_parser!(u32))
}

/// An option whose value is the number of a program, 0 to 3.
fn program_option<'a>(alloc: Global, name: &'a str, help: &'a str) -> Arg<'a>
    ensures rule { rule_of result ≡ spec.program_option name.entry.now }
    ensures local { result.global ≡ false }
{
    named_option(alloc, name, "D", help).value_parser(ValueParser::Signed(0, 3))
}

/// An option whose value is names of kinds.
fn kinds_option<'a>(alloc: Global, name: &'a str, help: &'a str) -> Arg<'a>
    ensures rule { rule_of result ≡ spec.named_option name.entry.now }
    ensures local { result.global ≡ false }
{
    named_option(alloc, name, "KINDS", help)
}

/// An option with no value.
fn flag<'a>(alloc: Global, name: &'a str, help: &'a str) -> Arg<'a>
    ensures rule { rule_of result ≡ spec.flag name.entry.now }
    ensures local { result.global ≡ false }
{
    Arg::new(alloc, name)
        .long(name)
        .action(ArgAction::SetTrue)
        .help(help)
}

fn asm_form<'a>(alloc: Global) -> Result<Command<'a>, NoMemory>
    ensures { IfOk result (HasForm spec.asm_form) }
{
    let text = position(alloc, "TEXT", "The text, one statement a line");
    let out = position(alloc, "OUT", "The file that gets the bytes");
    let asm = Command::new(alloc, "asm")
        .about("Assemble a text, and write the flat bytes of its words")
        .arg(text)?
        .arg(out)?;
    Ok(asm)
}

fn disasm_form<'a>(alloc: Global) -> Result<Command<'a>, NoMemory>
    ensures { IfOk result (HasForm spec.disasm_form) }
{
    let file = position(
        alloc,
        "FILE",
        "The words, one after another, each with its lowest byte first; or a guest image",
    );
    let base = named_option(
        alloc,
        "base",
        "ADDRESS",
        "The address of the first word, decimal or hexadecimal after 0x [default: 0]",
    );
    let segment = number_option(
        alloc,
        "segment",
        "N",
        "FILE is an image: the words of this segment, from 0 on",
    );
    let program = number_option(
        alloc,
        "program",
        "N",
        "FILE is an image: the words of this program, from 0 on",
    );
    let disasm = Command::new(alloc, "disasm")
        .about("Show words as a text that assembles to them")
        .arg(file)?
        .arg(base)?
        .arg(segment)?
        .arg(program)?;
    Ok(disasm)
}

fn pack_form<'a>(alloc: Global) -> Result<Command<'a>, NoMemory>
    ensures { IfOk result (HasForm spec.pack_form) }
{
    let manifest = position(alloc, "MANIFEST", "The manifest, a TOML document");
    let bundle = position(alloc, "BUNDLE", "The file that gets the image");
    let pack = Command::new(alloc, "pack")
        .about("Make the guest image that a manifest means")
        .arg(manifest)?
        .arg(bundle)?;
    Ok(pack)
}

fn show_form<'a>(alloc: Global) -> Result<Command<'a>, NoMemory>
    ensures { IfOk result (HasForm spec.show_form) }
{
    let record = position(alloc, "RECORD", "The record of a run");
    let from = number_option(alloc, "from", "N", "The first step; 0 is the opening");
    let to = number_option(alloc, "to", "N", "The last step");
    let only = kinds_option(
        alloc,
        "only",
        "Only these items: cipher, put, leave, ok, absent, word, timer, resume, stopped, ended, outward, inward, with commas between",
    );
    let counts = flag(
        alloc,
        "counts",
        "Show how many items there are of each kind",
    );
    let json = flag(
        alloc,
        "json",
        "Show objects of JSON, a line for each item, instead of text",
    );
    let follow = number_option(
        alloc,
        "follow",
        "N",
        "Begin at this step: another name for --from, which counts if both are given",
    );
    let show = Command::new(alloc, "show")
        .about("Show a record as text, a line for each step with its items")
        .arg(record)?
        .arg(from)?
        .arg(to)?
        .arg(only)?
        .arg(counts)?
        .arg(json)?
        .arg(follow)?;
    Ok(show)
}

fn trace_form<'a>(alloc: Global) -> Result<Command<'a>, NoMemory>
    ensures { IfOk result (HasForm spec.trace_form) }
{
    let bundle = position(alloc, "BUNDLE", "The guest image");
    let record = position(alloc, "RECORD", "The record of its run");
    let from = number_option(alloc, "from", "N", "The first step");
    let to = number_option(alloc, "to", "N", "The last step");
    let program = program_option(
        alloc,
        "program",
        "The side of this program, 0 to 3, instead of the kernel's",
    );
    let hart = number_option(alloc, "hart", "H", "Only the steps of this hart");
    let files = named_option(
        alloc,
        "files",
        "OLD",
        "The store file that the run read; with --program, --secret and --counter",
    );
    let secret = named_option(alloc, "secret", "FILE", "The secret of the store file");
    let counter = number_option(alloc, "counter", "N", "The counter of the store file");
    let trace = Command::new(alloc, "trace")
        .about("Show a run as text, a line for each step of the kernel's side, or of a program's")
        .arg(bundle)?
        .arg(record)?
        .arg(program)?
        .arg(from)?
        .arg(to)?
        .arg(hart)?
        .arg(files)?
        .arg(secret)?
        .arg(counter)?;
    Ok(trace)
}

fn explain_form<'a>(alloc: Global) -> Result<Command<'a>, NoMemory>
    ensures { IfOk result (HasForm spec.explain_form) }
{
    let bundle = position(alloc, "BUNDLE", "The guest image");
    let record = position(alloc, "RECORD", "The record of its run");
    let explain = Command::new(alloc, "explain")
        .about("Tell the violations of a run")
        .arg(bundle)?
        .arg(record)?;
    Ok(explain)
}

fn draw_form<'a>(alloc: Global) -> Result<Command<'a>, NoMemory>
    ensures { IfOk result (HasForm spec.draw_form) }
{
    let bundle = position(alloc, "BUNDLE", "The guest image");
    let record = position(alloc, "RECORD", "The record of its run");
    let out = position(alloc, "OUT", "The file that gets the picture, in SVG");
    let draw = Command::new(alloc, "draw")
        .about("Draw a run: who runs, what each frame has, the disk and the console")
        .arg(bundle)?
        .arg(record)?
        .arg(out)?;
    Ok(draw)
}

/// The tools before their commands.
fn top<'a>(alloc: Global) -> Command<'a>
    ensures { app_of result ≡ spec.tools_top }
{
    Command::new(alloc, "tools")
        .about("For people who make guest images and read records")
        .version("1.0")
        .arg_required_else_help(true)
}

/// One command more.
fn with_command<'a>(tools: Command<'a>, command: Command<'a>) -> Result<Command<'a>, NoMemory>
    ensures { IfOk result (λ more. (form : App) → AddsForm command.entry form →
        app_of more ≡ with_subcommand (app_of tools.entry) form.top) }
{
    Ok(tools.subcommand(command)?)
}

/// All that the tools take.
pub fn tools_form<'a>(alloc: Global) -> Result<Command<'a>, NoMemory>
    ensures { IfOk result (λ tools. app_of tools ≡ spec.tools_form) }
{
    let asm = with_command(top(alloc), asm_form(alloc)?)?;
    let disasm = with_command(asm, disasm_form(alloc)?)?;
    let pack = with_command(disasm, pack_form(alloc)?)?;
    let show = with_command(pack, show_form(alloc)?)?;
    let trace = with_command(show, trace_form(alloc)?)?;
    let draw = with_command(trace, draw_form(alloc)?)?;
    with_command(draw, explain_form(alloc)?)
}
