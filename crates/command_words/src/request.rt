//! What the words of a command line ask for.
ghost use Rattle.std.specs.Prelude.{◌≡◌, ◌≤◌, IfOk, OnErr, map, string_bytes, option_copied, option_map};
ghost use Rattle.std.specs.Result.{result_map_both};
ghost use Rattle.cloak_model.specs.Run.{most_steps};
ghost use Rattle.clap.specs.Words.{found_of, rows_of};
ghost use Rattle.command_words.specs.Command as spec;
ghost use Rattle.command_words.specs.Request.{asked_of, freeze_names_of, names_of, old_of, randomness_of, thaw_names_of};

use crate::command_name::CommandName;
use crate::form::form_of;
use crate::found::{found_in, given_text, needed_text};
use crate::frozen_request::{FreezeFiles, FreezeRequest, ThawFiles, ThawRequest};
use crate::generated_request::{DemoRequest, GenRequest};
use crate::number::number_up_to;
use crate::record_request::{OldFiles, RecordRequest, SoloOverRequest, SoloRequest};
use crate::run_request::{Randomness, RunRequest, StatsRequest};
use crate::store_request::{StoreFiles, StoreRequest};
use crate::upgrade_request::UpgradeRequest;
use crate::usage_fault::UsageFault;
use clap::ArgMatches;
use cloak_base::NoMemory;
use std::alloc::Global;

/// The most steps of a run.
pub const MOST_STEPS: u64 = 1_000_000_000;

/// The last counter of a store file over which a run may go on.
const LAST_COUNTER: u64 = u64::MAX - 1;

/// The last number of a program.
const LAST_DOMAIN: u64 = 3;

/// What is asked for.
#[derive(Drop)]
pub enum Request<'a> {
    Faulty(UsageFault),
    Run(RunRequest<'a>),
    View(RecordRequest<'a>),
    Solo(SoloRequest<'a>),
    SoloOver(SoloOverRequest<'a>),
    Gen(GenRequest<'a>),
    Demo(DemoRequest),
    Stats(StatsRequest<'a>),
    Upgrade(UpgradeRequest<'a>),
    Store(StoreRequest<'a>),
    Freeze(FreezeRequest<'a>),
    Thaw(ThawRequest<'a>),
}

/// A run with its record, or with none.
fn asked_run<'a>(
    bundle: &'a str,
    record_name: Option<&'a str>,
    steps: u32,
    randomness: Randomness<'a>,
) -> Request<'a>
    requires few_steps { steps ≤ most_steps }
    ensures { asked_of result ≡ spec.asked_run bundle.now (option_copied record_name.entry) steps
        (randomness_of randomness.entry) }
{
    match record_name {
        Some(record_name) => Request::Run(RunRequest {
            bundle,
            record_name,
            steps,
            randomness,
        }),
        None => Request::Stats(StatsRequest {
            bundle,
            steps,
            randomness,
        }),
    }
}

/// Where a run takes its randomness. Exactly one of the two options must be given.
#[tactic(auto, unfolding(crate::specs::Command::given_randomness))]
fn given_randomness<'a>(
    stream: Option<&'a str>,
    number: Option<&str>,
) -> Result<Randomness<'a>, UsageFault>
    ensures { result_map_both randomness_of (λ fault. fault) result ≡
        spec.given_randomness (option_copied stream.entry) (option_copied number.entry) }
{
    match (stream, number) {
        (Some(name), None) => Ok(Randomness::FromFile(name)),
        (None, Some(text)) => match number_up_to(text, u64::MAX) {
            Some(number) => Ok(Randomness::Numbered(number)),
            None => Err(UsageFault::WrongNumber),
        },
        _ => Err(UsageFault::NoRandomness),
    }
}

/// The run with these texts.
fn run_of_texts<'a>(
    bundle: &'a str,
    record_name: Option<&'a str>,
    steps: &str,
    stream: Option<&'a str>,
    number: Option<&str>,
) -> Request<'a>
    ensures { asked_of result ≡ spec.run_of_texts bundle.now (option_copied record_name.entry) steps.now
        (option_copied stream.entry) (option_copied number.entry) }
{
    let randomness = match given_randomness(stream, number) {
        Ok(randomness) => randomness,
        Err(fault) => return Request::Faulty(fault),
    };
    match number_up_to(steps, MOST_STEPS) {
        Some(steps) => asked_run(bundle, record_name, steps as u32, randomness),
        None => Request::Faulty(UsageFault::WrongNumber),
    }
}

/// Whether two of the files that are written have one name.
fn writes_one_twice(files: &StoreFiles<'_>) -> bool
    ensures { result ≡ spec.writes_one_twice (names_of files.now) }
{
    files.record_name == files.new_name
        || files.record_name == files.next_name
        || files.new_name == files.next_name
}

/// Whether the random bytes come from the file of this name.
fn is_drawn_from(randomness: &Randomness<'_>, name: &str) -> bool
    ensures { result ≡ spec.is_drawn_from (randomness_of randomness.now) name.now }
{
    match randomness {
        Randomness::Numbered(_) => false,
        Randomness::FromFile(stream) => *stream == name,
    }
}

/// The run over cloaked files with these texts. The names are compared last.
fn store_of_texts<'a>(
    files: StoreFiles<'a>,
    counter: &str,
    steps: &str,
    stream: Option<&'a str>,
    number: Option<&str>,
) -> Request<'a>
    ensures { asked_of result ≡ spec.store_of_values (names_of files.entry)
        (spec.number_up_to spec.last_counter counter.now) (spec.number_up_to most_steps steps.now)
        (spec.given_randomness (option_copied stream.entry) (option_copied number.entry)) }
{
    let randomness = match given_randomness(stream, number) {
        Ok(randomness) => randomness,
        Err(fault) => return Request::Faulty(fault),
    };
    let (Some(counter), Some(steps)) = (
        number_up_to(counter, LAST_COUNTER),
        number_up_to(steps, MOST_STEPS),
    ) else {
        return Request::Faulty(UsageFault::WrongNumber);
    };
    if writes_one_twice(&files) {
        return Request::Faulty(UsageFault::SameName);
    }
    if is_drawn_from(&randomness, files.secret_name) {
        return Request::Faulty(UsageFault::SameSource);
    }
    Request::Store(StoreRequest {
        files,
        counter,
        steps: steps as u32,
        randomness,
    })
}

/// The run with these texts that is frozen. The names are compared last.
fn freeze_of_texts<'a>(
    files: FreezeFiles<'a>,
    steps: &str,
    stream: Option<&'a str>,
    number: Option<&str>,
) -> Request<'a>
    ensures { asked_of result ≡ spec.freeze_of_values (freeze_names_of files.entry)
        (spec.number_up_to most_steps steps.now)
        (spec.given_randomness (option_copied stream.entry) (option_copied number.entry)) }
{
    let randomness = match given_randomness(stream, number) {
        Ok(randomness) => randomness,
        Err(fault) => return Request::Faulty(fault),
    };
    let Some(steps) = number_up_to(steps, MOST_STEPS) else {
        return Request::Faulty(UsageFault::WrongNumber);
    };
    if files.record_name == files.state_name {
        return Request::Faulty(UsageFault::SameName);
    }
    if is_drawn_from(&randomness, files.vectors_name) {
        return Request::Faulty(UsageFault::SameSource);
    }
    Request::Freeze(FreezeRequest {
        files,
        steps: steps as u32,
        randomness,
    })
}

/// The run with these texts that goes on.
fn thaw_of_texts<'a>(
    files: ThawFiles<'a>,
    steps: &str,
    stream: Option<&'a str>,
    number: Option<&str>,
) -> Request<'a>
    ensures { asked_of result ≡ spec.thaw_of_values (thaw_names_of files.entry)
        (spec.number_up_to most_steps steps.now)
        (spec.given_randomness (option_copied stream.entry) (option_copied number.entry)) }
{
    let randomness = match given_randomness(stream, number) {
        Ok(randomness) => randomness,
        Err(fault) => return Request::Faulty(fault),
    };
    match number_up_to(steps, MOST_STEPS) {
        Some(steps) => Request::Thaw(ThawRequest {
            files,
            steps: steps as u32,
            randomness,
        }),
        None => Request::Faulty(UsageFault::WrongNumber),
    }
}

/// The cloaked files with these texts that a run went on from. All three must be given, or none.
#[tactic(auto, unfolding(crate::specs::Command::old_of_texts))]
fn old_of_texts<'a>(
    old: Option<&'a str>,
    secret: Option<&'a str>,
    counter: Option<&str>,
) -> Result<Option<OldFiles<'a>>, UsageFault>
    ensures { result_map_both (λ given. option_map old_of given) (λ fault. fault) result ≡
        spec.old_of_texts (option_copied old.entry) (option_copied secret.entry) (option_copied counter.entry) }
{
    match (old, secret, counter) {
        (None, None, None) => Ok(None),
        (Some(old_name), Some(secret_name), Some(text)) => match number_up_to(text, LAST_COUNTER) {
            Some(counter) => Ok(Some(OldFiles {
                old_name,
                secret_name,
                counter,
            })),
            None => Err(UsageFault::WrongNumber),
        },
        _ => Err(UsageFault::WrongWords),
    }
}

/// What a program makes of a record, of a run over cloaked files if some are given.
fn asked_solo<'a>(solo: SoloRequest<'a>, old: Option<OldFiles<'a>>) -> Request<'a>
    ensures { asked_of result ≡ spec.asked_solo solo.entry.domain solo.entry.files.bundle.now
        solo.entry.files.record_name.now (option_map old_of old.entry) }
{
    match old {
        None => Request::Solo(solo),
        Some(old) => Request::SoloOver(SoloOverRequest { solo, old }),
    }
}

/// What the program of this number makes of a record, if it is one.
fn solo_of_texts<'a>(
    domain: &str,
    files: RecordRequest<'a>,
    old: Option<&'a str>,
    secret: Option<&'a str>,
    counter: Option<&str>,
) -> Request<'a>
    ensures { asked_of result ≡ spec.solo_of_values (spec.number_up_to spec.last_domain domain.now)
        files.entry.bundle.now files.entry.record_name.now
        (spec.old_of_texts (option_copied old.entry) (option_copied secret.entry) (option_copied counter.entry)) }
{
    let old = match old_of_texts(old, secret, counter) {
        Ok(old) => old,
        Err(fault) => return Request::Faulty(fault),
    };
    match number_up_to(domain, LAST_DOMAIN) {
        Some(domain) => {
            let domain = domain as u32;
            asked_solo(SoloRequest { domain, files }, old)
        }
        None => Request::Faulty(UsageFault::WrongNumber),
    }
}

/// The generated bundle of this number, if it is one.
fn gen_of_number<'a>(number: &str, bundle: &'a str) -> Request<'a>
    ensures { asked_of result ≡ spec.gen_of_number (spec.number_up_to spec.last_stream number.now) bundle.now }
{
    match number_up_to(number, u64::MAX) {
        Some(number) => Request::Gen(GenRequest { number, bundle }),
        None => Request::Faulty(UsageFault::WrongNumber),
    }
}

/// The run of a generated bundle with these numbers, if they are numbers.
fn demo_of_numbers<'a>(number: &str, steps: &str) -> Request<'a>
    ensures { asked_of result ≡ spec.demo_of_numbers (spec.number_up_to spec.last_stream number.now)
        (spec.number_up_to most_steps steps.now) }
{
    match (
        number_up_to(number, u64::MAX),
        number_up_to(steps, MOST_STEPS),
    ) {
        (Some(number), Some(steps)) => Request::Demo(DemoRequest {
            number,
            steps: steps as u32,
        }),
        _ => Request::Faulty(UsageFault::WrongNumber),
    }
}

/// What a command asks with the texts that it found.
#[tactic(auto, unfolding(crate::specs::Command::asked_with))]
fn asked_with<'a>(command: CommandName, matches: &ArgMatches<'a>) -> Request<'a>
    ensures { asked_of result ≡ spec.asked_with command (rows_of (found_of matches.now)) }
{
    match command {
        CommandName::Run => run_of_texts(
            needed_text(matches, "BUNDLE"),
            Some(needed_text(matches, "RECORD")),
            needed_text(matches, "steps"),
            given_text(matches, "stream"),
            given_text(matches, "number"),
        ),
        CommandName::View => Request::View(RecordRequest {
            bundle: needed_text(matches, "BUNDLE"),
            record_name: needed_text(matches, "RECORD"),
        }),
        CommandName::Solo => {
            let files = RecordRequest {
                bundle: needed_text(matches, "BUNDLE"),
                record_name: needed_text(matches, "RECORD"),
            };
            solo_of_texts(
                needed_text(matches, "DOMAIN"),
                files,
                given_text(matches, "files"),
                given_text(matches, "secret"),
                given_text(matches, "counter"),
            )
        }
        CommandName::Gen => gen_of_number(
            needed_text(matches, "NUMBER"),
            needed_text(matches, "BUNDLE"),
        ),
        CommandName::Demo => demo_of_numbers(
            needed_text(matches, "NUMBER"),
            needed_text(matches, "steps"),
        ),
        CommandName::Stats => run_of_texts(
            needed_text(matches, "BUNDLE"),
            None,
            needed_text(matches, "steps"),
            given_text(matches, "stream"),
            given_text(matches, "number"),
        ),
        CommandName::Upgrade => Request::Upgrade(UpgradeRequest {
            old_name: needed_text(matches, "OLD"),
            new_name: needed_text(matches, "NEW"),
        }),
        CommandName::Store => {
            let files = StoreFiles {
                bundle: needed_text(matches, "BUNDLE"),
                record_name: needed_text(matches, "RECORD"),
                old_name: needed_text(matches, "OLD"),
                new_name: needed_text(matches, "NEW"),
                next_name: needed_text(matches, "NEXT"),
                secret_name: needed_text(matches, "secret"),
            };
            store_of_texts(
                files,
                needed_text(matches, "counter"),
                needed_text(matches, "steps"),
                given_text(matches, "stream"),
                given_text(matches, "number"),
            )
        }
        CommandName::Freeze => {
            let files = FreezeFiles {
                bundle: needed_text(matches, "BUNDLE"),
                record_name: needed_text(matches, "RECORD"),
                state_name: needed_text(matches, "STATE"),
                vectors_name: needed_text(matches, "ivs"),
            };
            freeze_of_texts(
                files,
                needed_text(matches, "steps"),
                given_text(matches, "stream"),
                given_text(matches, "number"),
            )
        }
        CommandName::Thaw => {
            let files = ThawFiles {
                bundle: needed_text(matches, "BUNDLE"),
                record_name: needed_text(matches, "RECORD"),
                state_name: needed_text(matches, "STATE"),
            };
            thaw_of_texts(
                files,
                needed_text(matches, "steps"),
                given_text(matches, "stream"),
                given_text(matches, "number"),
            )
        }
    }
}

/// The command of this name.
fn command_named(word: &str) -> Option<CommandName>
    ensures { result ≡ spec.command_named word.now }
{
    match word {
        "run" => Some(CommandName::Run),
        "view" => Some(CommandName::View),
        "solo" => Some(CommandName::Solo),
        "gen" => Some(CommandName::Gen),
        "demo" => Some(CommandName::Demo),
        "stats" => Some(CommandName::Stats),
        "upgrade" => Some(CommandName::Upgrade),
        "store" => Some(CommandName::Store),
        "freeze" => Some(CommandName::Freeze),
        "thaw" => Some(CommandName::Thaw),
        _ => None,
    }
}

/// Reads the words of a command, of which the first is its name.
fn read_command<'a>(
    alloc: Global,
    command: CommandName,
    words: &'a [String],
) -> Result<Request<'a>, NoMemory>
    ensures { IfOk result (λ request. asked_of request
        ≡ spec.asked_of_command (Some command) (map string_bytes words.now)) }
{
    match found_in(form_of(alloc, command)?, words)? {
        Some(matches) => Ok(asked_with(command, &matches)),
        None => Ok(Request::Faulty(UsageFault::WrongWords)),
    }
}

/// Reads the words. That can lack memory only if they name a command.
#[tactic(auto, unfolding(crate::specs::Command::words_of))]
pub fn read_words<'a>(alloc: Global, words: &'a [String]) -> Result<Request<'a>, NoMemory>
    ensures asked { IfOk result (λ request. asked_of request ≡ spec.words_of (map string_bytes words.now)) }
    ensures memory { OnErr result (spec.NamesCommand (map string_bytes words.now)) }
{
    let [first, ..] = words else {
        return Ok(Request::Faulty(UsageFault::NoCommand));
    };
    match command_named(first.as_str()) {
        Some(command) => read_command(alloc, command, words),
        None => Ok(Request::Faulty(UsageFault::UnknownCommand)),
    }
}
