//! The texts that a command finds in the words.
ghost use Rattle.std.specs.Prelude.{◌≡◌, IfOk, option_copied, option_map};
ghost use Rattle.clap.specs.Words.{first_of, found_of, rows_of};
ghost use Rattle.command_words.specs.Command as command;
ghost use Rattle.tool_words.specs.ToolCommand as spec;
ghost use Rattle.tool_words.specs.ToolRequest.{names_of};

use clap::ArgMatches;
use std::alloc::{AllocError, Global};

/// The text of a position or an option, if it was given.
pub fn given_text<'a>(matches: &ArgMatches<'a>, name: &str) -> Option<&'a str>
    ensures { option_copied result ≡ first_of name.now (rows_of (found_of matches.now)) }
{
    matches.get_str(name)
}

/// The text of a position.
pub fn needed_text<'a>(matches: &ArgMatches<'a>, name: &str) -> &'a str
    ensures { result.now ≡ command.needed_text name.now (rows_of (found_of matches.now)) }
{
    match given_text(matches, name) {
        Some(text) => text,
        None => "",
    }
}

/// Names with commas between.
fn names_in<'a>(alloc: Global, text: &'a str) -> Result<Vec<&'a str>, AllocError>
    ensures { IfOk result (λ names. names_of names ≡ spec.names_in text.now) }
{
    text.split(',').collect(alloc)
}

/// The names that an option gives, if it was given.
pub fn given_names<'a>(
    alloc: Global,
    matches: &ArgMatches<'a>,
    name: &str,
) -> Result<Option<Vec<&'a str>>, AllocError>
    ensures { IfOk result (λ given. option_map names_of given
        ≡ option_map spec.names_in (first_of name.now (rows_of (found_of matches.now)))) }
{
    match given_text(matches, name) {
        Some(text) => Ok(Some(names_in(alloc, text)?)),
        None => Ok(None),
    }
}

/// The step that an option names, or another if it is not given.
pub fn step_named(matches: &ArgMatches<'_>, name: &str, otherwise: u32) -> u32
    ensures { result ≡ spec.step_named name.now otherwise (rows_of (found_of matches.now)) }
{
    matches.get_one::<u32>(name).unwrap_or(otherwise)
}

/// The number that an option names, if it is given.
pub fn number_named(matches: &ArgMatches<'_>, name: &str) -> Option<u32>
    ensures { result ≡ spec.number_named name.now (rows_of (found_of matches.now)) }
{
    matches.get_one::<u32>(name)
}

/// The flag is given.
pub fn is_flagged(matches: &ArgMatches<'_>, name: &str) -> bool
    ensures { result ≡ spec.is_flagged name.now (rows_of (found_of matches.now)) }
{
    match given_text(matches, name) {
        Some(text) => text == "true",
        None => false,
    }
}
