//! The texts that a command finds in the words.
ghost use Rattle.std.specs.Prelude.{◌≡◌, IfOk, map, true, option_map, option_copied, string_bytes};
ghost use Rattle.clap.specs.Words.{app_of, first_of, found_of, is_simple_and_free, rows_of};
ghost use Rattle.command_words.specs.Command as spec;

use clap::error::ErrorKind;
use clap::{ArgMatches, Command};
use cloak_base::NoMemory;

/// What a command finds in the words, or nothing if it refuses them.
pub fn found_in<'a>(
    command: Command<'a>,
    words: &'a [String],
) -> Result<Option<ArgMatches<'a>>, NoMemory>
    requires simple { is_simple_and_free (app_of command) ≡ true }
    ensures { IfOk result (λ found. option_map (λ m. rows_of (found_of m)) found
        ≡ spec.found_in (app_of command.entry) (map string_bytes words.now)) }
{
    match command.try_get_matches_from(words) {
        Ok(matches) => Ok(Some(matches)),
        Err(error) => {
            if error.kind() == ErrorKind::OutOfMemory {
                return Err(NoMemory);
            }
            Ok(None)
        }
    }
}

/// The text of an option, if it was given.
pub fn given_text<'a>(matches: &ArgMatches<'a>, name: &str) -> Option<&'a str>
    ensures { option_copied result ≡ first_of name.now (rows_of (found_of matches.now)) }
{
    matches.get_str(name)
}

/// The text of a position, or of an option that the command needs.
pub fn needed_text<'a>(matches: &ArgMatches<'a>, name: &str) -> &'a str
    ensures { result.now ≡ spec.needed_text name.now (rows_of (found_of matches.now)) }
{
    match given_text(matches, name) {
        Some(text) => text,
        None => "",
    }
}
