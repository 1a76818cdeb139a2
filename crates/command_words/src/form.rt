//! The commands as commands of `clap`, which read the words after their names.
ghost use Rattle.std.specs.Prelude.{◌≡◌, IfOk, codes, false};
ghost use Rattle.clap.specs.Words.{app_of, rule_of};
ghost use Rattle.command_words.specs.Forms as spec;

use crate::command_name::CommandName;
use clap::{Arg, Command};
use cloak_base::NoMemory;
use std::alloc::Global;

/// A position, which is not to be left out.
fn position<'a>(alloc: Global, name: &'a str) -> Arg<'a>
    ensures rule { rule_of result ≡ spec.position name.entry.now }
    ensures local { result.global ≡ false }
{
    Arg::new(alloc, name).required(true)
}

/// An option with one value.
fn valued_option<'a>(alloc: Global, name: &'a str) -> Arg<'a>
    ensures rule { rule_of result ≡ spec.valued_option name.entry.now }
    ensures local { result.global ≡ false }
{
    Arg::new(alloc, name).long(name)
}

/// An option that is not to be left out.
fn needed_option<'a>(alloc: Global, name: &'a str) -> Arg<'a>
    ensures rule { rule_of result ≡ spec.needed_option name.entry.now }
    ensures local { result.global ≡ false }
{
    valued_option(alloc, name).required(true)
}

/// A command that takes no words, and has no flags for help and version.
fn bare_form<'a>(alloc: Global, name: &'a str) -> Command<'a>
    ensures { app_of result ≡ spec.bare_form name.entry.now }
{
    Command::new(alloc, name)
        .disable_help_flag(true)
        .disable_version_flag(true)
}

fn run_form<'a>(alloc: Global) -> Result<Command<'a>, NoMemory>
    ensures { IfOk result (λ command. app_of command ≡ spec.form_of CommandName.Run) }
{
    let run = bare_form(alloc, "run")
        .arg(position(alloc, "BUNDLE"))?
        .arg(position(alloc, "RECORD"))?
        .arg(needed_option(alloc, "steps"))?
        .arg(valued_option(alloc, "stream"))?
        .arg(valued_option(alloc, "number"))?;
    Ok(run)
}

fn view_form<'a>(alloc: Global) -> Result<Command<'a>, NoMemory>
    ensures { IfOk result (λ command. app_of command ≡ spec.form_of CommandName.View) }
{
    let view = bare_form(alloc, "view")
        .arg(position(alloc, "BUNDLE"))?
        .arg(position(alloc, "RECORD"))?;
    Ok(view)
}

fn solo_form<'a>(alloc: Global) -> Result<Command<'a>, NoMemory>
    ensures { IfOk result (λ command. app_of command ≡ spec.form_of CommandName.Solo) }
{
    let solo = bare_form(alloc, "solo")
        .arg(position(alloc, "DOMAIN"))?
        .arg(position(alloc, "BUNDLE"))?
        .arg(position(alloc, "RECORD"))?
        .arg(valued_option(alloc, "files"))?
        .arg(valued_option(alloc, "secret"))?
        .arg(valued_option(alloc, "counter"))?;
    Ok(solo)
}

fn gen_form<'a>(alloc: Global) -> Result<Command<'a>, NoMemory>
    ensures { IfOk result (λ command. app_of command ≡ spec.form_of CommandName.Gen) }
{
    let command = bare_form(alloc, "gen")
        .arg(position(alloc, "NUMBER"))?
        .arg(position(alloc, "BUNDLE"))?;
    Ok(command)
}

fn demo_form<'a>(alloc: Global) -> Result<Command<'a>, NoMemory>
    ensures { IfOk result (λ command. app_of command ≡ spec.form_of CommandName.Demo) }
{
    let demo = bare_form(alloc, "demo")
        .arg(position(alloc, "NUMBER"))?
        .arg(needed_option(alloc, "steps"))?;
    Ok(demo)
}

fn stats_form<'a>(alloc: Global) -> Result<Command<'a>, NoMemory>
    ensures { IfOk result (λ command. app_of command ≡ spec.form_of CommandName.Stats) }
{
    let stats = bare_form(alloc, "stats")
        .arg(position(alloc, "BUNDLE"))?
        .arg(needed_option(alloc, "steps"))?
        .arg(valued_option(alloc, "stream"))?
        .arg(valued_option(alloc, "number"))?;
    Ok(stats)
}

fn upgrade_form<'a>(alloc: Global) -> Result<Command<'a>, NoMemory>
    ensures { IfOk result (λ command. app_of command ≡ spec.form_of CommandName.Upgrade) }
{
    let upgrade = bare_form(alloc, "upgrade")
        .arg(position(alloc, "OLD"))?
        .arg(position(alloc, "NEW"))?;
    Ok(upgrade)
}

fn store_form<'a>(alloc: Global) -> Result<Command<'a>, NoMemory>
    ensures { IfOk result (λ command. app_of command ≡ spec.form_of CommandName.Store) }
{
    let store = bare_form(alloc, "store")
        .arg(position(alloc, "BUNDLE"))?
        .arg(position(alloc, "RECORD"))?
        .arg(position(alloc, "OLD"))?
        .arg(position(alloc, "NEW"))?
        .arg(position(alloc, "NEXT"))?
        .arg(needed_option(alloc, "secret"))?
        .arg(needed_option(alloc, "counter"))?
        .arg(needed_option(alloc, "steps"))?
        .arg(valued_option(alloc, "stream"))?
        .arg(valued_option(alloc, "number"))?;
    Ok(store)
}

fn freeze_form<'a>(alloc: Global) -> Result<Command<'a>, NoMemory>
    ensures { IfOk result (λ command. app_of command ≡ spec.form_of CommandName.Freeze) }
{
    let freeze = bare_form(alloc, "freeze")
        .arg(position(alloc, "BUNDLE"))?
        .arg(position(alloc, "RECORD"))?
        .arg(position(alloc, "STATE"))?
        .arg(needed_option(alloc, "ivs"))?
        .arg(needed_option(alloc, "steps"))?
        .arg(valued_option(alloc, "stream"))?
        .arg(valued_option(alloc, "number"))?;
    Ok(freeze)
}

fn thaw_form<'a>(alloc: Global) -> Result<Command<'a>, NoMemory>
    ensures { IfOk result (λ command. app_of command ≡ spec.form_of CommandName.Thaw) }
{
    let thaw = bare_form(alloc, "thaw")
        .arg(position(alloc, "BUNDLE"))?
        .arg(position(alloc, "RECORD"))?
        .arg(position(alloc, "STATE"))?
        .arg(needed_option(alloc, "steps"))?
        .arg(valued_option(alloc, "stream"))?
        .arg(valued_option(alloc, "number"))?;
    Ok(thaw)
}

/// What the command of this name takes.
pub fn form_of<'a>(alloc: Global, name: CommandName) -> Result<Command<'a>, NoMemory>
    ensures { IfOk result (λ command. app_of command ≡ spec.form_of name) }
{
    match name {
        CommandName::Run => run_form(alloc),
        CommandName::View => view_form(alloc),
        CommandName::Solo => solo_form(alloc),
        CommandName::Gen => gen_form(alloc),
        CommandName::Demo => demo_form(alloc),
        CommandName::Stats => stats_form(alloc),
        CommandName::Upgrade => upgrade_form(alloc),
        CommandName::Store => store_form(alloc),
        CommandName::Freeze => freeze_form(alloc),
        CommandName::Thaw => thaw_form(alloc),
    }
}
