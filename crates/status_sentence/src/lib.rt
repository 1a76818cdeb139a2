//! The sentence that tells a person why a status other than 0 came.
//!
//! `specs/Sentence` has it for each status, by what the words ask for. The layer above may rely on this: a `Sentence` shows
//! exactly that, and takes no memory.
#![tactic(auto)]

ghost use Rattle.std.specs.Prelude.{◌++◌, Some, option_map};
ghost use Rattle.std.specs.Fmt.{DisplaysOnOk};
ghost use Rattle.command_words.specs.Request.{asked_of, names_of, randomness_of};
ghost use Rattle.command_words.specs.Command as words;
ghost use Rattle.status_sentence.specs.Sentence as spec;
ghost use Rattle.status_sentence.specs.Showing.{sentence_text};

use command_parts::Status;
use command_words::{FreezeFiles, OldFiles, Randomness, Request, StoreFiles, UsageFault};
use std::fmt;

/// Why a status came.
#[derive(Drop)]
pub struct Sentence<'a> {
    /// What the words ask for, if it is known.
    pub request: Option<Request<'a>>,
    pub status: Status,
}

impl fmt::Display for Sentence<'_> {
    ghost output = { λ s. Some (sentence_text s) };

    fn fmt<W: fmt::Write>(&self, f: &mut fmt::Formatter<W>) -> fmt::Result {
        if self.status == Status::Done {
            return Ok(());
        }
        f.write_str("cloak: ")?;
        write_cause(&self.request, self.status, f)?;
        f.write_str("\n")
    }
}

/// Writes the sentence without the program's name and the line feed.
fn write_cause<W: fmt::Write>(
    request: &Option<Request<'_>>,
    status: Status,
    f: &mut fmt::Formatter<W>,
) -> fmt::Result
    ensures { DisplaysOnOk W.write_str_gives f.old result
        (Some (spec.cause_of (option_map asked_of request.now) status)) f.new }
{
    match status {
        Status::Done => Ok(()),
        Status::Violation => f.write_str(
            "the kernel broke a rule of cloaking: a program was ended, or a resume was refused",
        ),
        Status::Usage => write_words_fault(request, f),
        Status::BadBundle => {
            write_bundle(request, f)?;
            write_bundle_fault(request, f)?;
            f.write_str(
                ", and the line `bundle` says why (a file that is not there is read as an empty one)",
            )
        }
        Status::ReadFault => {
            write_read(request, f)?;
            f.write_str(" cannot be read")
        }
        Status::WriteFault => {
            write_written(request, f)?;
            f.write_str(" cannot be written, and what was written before stands")
        }
        Status::NoMemory => f.write_str("there is not enough memory"),
        Status::NoRandom => {
            write_stream(request, f)?;
            write_too_few(request, f)
        }
        Status::BadRecord => {
            write_record(request, f)?;
            f.write_str(" is damaged, or is not of ")?;
            write_bundle(request, f)?;
            write_files_hint(request, f)?;
            f.write_str(", and the line `record` says where")?;
            f.write_str(
                " (one without magic may be the rest of a frozen run, to be put after its first part)",
            )
        }
        Status::BadStore => write_store(request, f),
        Status::Frozen => write_frozen(request, f),
        Status::BadState => write_state(request, f),
    }
}

/// Writes which bundle is read.
fn write_bundle<W: fmt::Write>(
    request: &Option<Request<'_>>,
    f: &mut fmt::Formatter<W>,
) -> fmt::Result
    ensures { DisplaysOnOk W.write_str_gives f.old result
        (Some (spec.bundle_of (option_map asked_of request.now))) f.new }
{
    match request {
        Some(Request::Run(run)) => write!(f, "the bundle `{}`", run.bundle),
        Some(Request::View(files)) => write!(f, "the bundle `{}`", files.bundle),
        Some(Request::Solo(solo)) => write!(f, "the bundle `{}`", solo.files.bundle),
        Some(Request::SoloOver(over)) => write!(f, "the bundle `{}`", over.solo.files.bundle),
        Some(Request::Stats(stats)) => write!(f, "the bundle `{}`", stats.bundle),
        Some(Request::Upgrade(upgrade)) => write!(f, "the bundle `{}`", upgrade.old_name),
        Some(Request::Store(store)) => write!(f, "the bundle `{}`", store.files.bundle),
        Some(Request::Freeze(freeze)) => write!(f, "the bundle `{}`", freeze.files.bundle),
        Some(Request::Thaw(thaw)) => write!(f, "the bundle `{}`", thaw.files.bundle),
        _ => f.write_str("the bundle"),
    }
}

/// Writes what is wrong with the bundle.
fn write_bundle_fault<W: fmt::Write>(
    request: &Option<Request<'_>>,
    f: &mut fmt::Formatter<W>,
) -> fmt::Result
    ensures { DisplaysOnOk W.write_str_gives f.old result
        (Some (spec.fault_of_bundle (option_map asked_of request.now))) f.new }
{
    match request {
        Some(Request::Upgrade(_)) => {
            f.write_str(" is not a guest image, or is too large in version 2")
        }
        _ => f.write_str(" is not a guest image"),
    }
}

/// Writes which record is read.
fn write_record<W: fmt::Write>(
    request: &Option<Request<'_>>,
    f: &mut fmt::Formatter<W>,
) -> fmt::Result
    ensures { DisplaysOnOk W.write_str_gives f.old result
        (Some (spec.record_of (option_map asked_of request.now))) f.new }
{
    match request {
        Some(Request::View(files)) => write!(f, "the record `{}`", files.record_name),
        Some(Request::Solo(solo)) => write!(f, "the record `{}`", solo.files.record_name),
        Some(Request::SoloOver(over)) => write!(f, "the record `{}`", over.solo.files.record_name),
        _ => f.write_str("the record"),
    }
}

/// Writes what a record may be that is none of a run without the cloaked files of an earlier one.
fn write_files_hint<W: fmt::Write>(
    request: &Option<Request<'_>>,
    f: &mut fmt::Formatter<W>,
) -> fmt::Result
    ensures { DisplaysOnOk W.write_str_gives f.old result
        (Some (spec.files_hint (option_map asked_of request.now))) f.new }
{
    match request {
        Some(Request::Solo(_)) => f.write_str(
            ", or of a run over cloaked files, which --files, --secret and --counter name",
        ),
        _ => f.write_str(""),
    }
}

/// Writes the names of a store file and its secret, and the counter.
fn write_store_named<W: fmt::Write>(
    old_name: &str,
    secret_name: &str,
    counter: u64,
    f: &mut fmt::Formatter<W>,
) -> fmt::Result
    ensures { DisplaysOnOk W.write_str_gives f.old result
        (Some (spec.store_and_secret old_name.now secret_name.now ++ spec.and_counter counter)) f.new }
{
    write!(
        f,
        "the run cannot go on over the store file `{old_name}` with the secret `{secret_name}`"
    )?;
    write!(
        f,
        " and the counter {counter}, and the line before says why"
    )
}

/// Writes why a run does not go on over cloaked files.
fn write_store<W: fmt::Write>(
    request: &Option<Request<'_>>,
    f: &mut fmt::Formatter<W>,
) -> fmt::Result
    ensures { DisplaysOnOk W.write_str_gives f.old result
        (Some (spec.store_of (option_map asked_of request.now))) f.new }
{
    match request {
        Some(Request::Store(store)) => write_store_named(
            store.files.old_name,
            store.files.secret_name,
            store.counter,
            f,
        ),
        Some(Request::SoloOver(over)) => write_store_named(
            over.old.old_name,
            over.old.secret_name,
            over.old.counter,
            f,
        ),
        _ => f.write_str("the run cannot go on over the store file"),
    }
}

/// Writes that a run was frozen.
fn write_frozen<W: fmt::Write>(
    request: &Option<Request<'_>>,
    f: &mut fmt::Formatter<W>,
) -> fmt::Result
    ensures { DisplaysOnOk W.write_str_gives f.old result
        (Some (spec.frozen_of (option_map asked_of request.now))) f.new }
{
    match request {
        Some(Request::Freeze(freeze)) => write!(
            f,
            "the run is frozen, and `thaw` goes on from the state `{}`",
            freeze.files.state_name
        ),
        _ => f.write_str("the run is frozen"),
    }
}

/// Writes why a run does not go on from a state.
fn write_state<W: fmt::Write>(
    request: &Option<Request<'_>>,
    f: &mut fmt::Formatter<W>,
) -> fmt::Result
    ensures { DisplaysOnOk W.write_str_gives f.old result
        (Some (spec.state_of (option_map asked_of request.now))) f.new }
{
    match request {
        Some(Request::Thaw(thaw)) => write!(
            f,
            "no run goes on from the state `{}`, and the line `state` says why",
            thaw.files.state_name
        ),
        _ => f.write_str("no run goes on from the state"),
    }
}

/// Writes where the random bytes come from.
fn write_stream<W: fmt::Write>(
    request: &Option<Request<'_>>,
    f: &mut fmt::Formatter<W>,
) -> fmt::Result
    ensures { DisplaysOnOk W.write_str_gives f.old result
        (Some (spec.stream_of (option_map asked_of request.now))) f.new }
{
    match request {
        Some(Request::Run(run)) => write_randomness(&run.randomness, f),
        Some(Request::Stats(stats)) => write_randomness(&stats.randomness, f),
        Some(Request::Store(store)) => write_randomness(&store.randomness, f),
        Some(Request::Freeze(freeze)) => {
            write_randomness(&freeze.randomness, f)?;
            write_or_vectors(freeze.files.vectors_name, f)
        }
        Some(Request::Thaw(thaw)) => write_randomness(&thaw.randomness, f),
        _ => f.write_str("the random stream"),
    }
}

/// Writes that the random bytes are too few.
fn write_too_few<W: fmt::Write>(
    request: &Option<Request<'_>>,
    f: &mut fmt::Formatter<W>,
) -> fmt::Result
    ensures { DisplaysOnOk W.write_str_gives f.old result
        (Some (spec.too_few (option_map asked_of request.now))) f.new }
{
    match request {
        Some(Request::Freeze(_)) => f.write_str(" have too few bytes for this run"),
        _ => f.write_str(" has too few bytes for this run"),
    }
}

/// Writes what a run's random bytes are.
fn write_randomness<W: fmt::Write>(
    randomness: &Randomness<'_>,
    f: &mut fmt::Formatter<W>,
) -> fmt::Result
    ensures { DisplaysOnOk W.write_str_gives f.old result
        (Some (spec.randomness_named (randomness_of randomness.now))) f.new }
{
    match *randomness {
        Randomness::FromFile(name) => write!(f, "the stream `{name}`"),
        Randomness::Numbered(_) => f.write_str("the random stream"),
    }
}

/// Writes the name of a file of vectors, after another one.
fn write_or_vectors<W: fmt::Write>(name: &str, f: &mut fmt::Formatter<W>) -> fmt::Result
    ensures { DisplaysOnOk W.write_str_gives f.old result (Some (spec.or_vectors name.now)) f.new }
{
    write!(f, " or the vectors `{name}`")
}

/// Writes which files are read.
fn write_read<W: fmt::Write>(
    request: &Option<Request<'_>>,
    f: &mut fmt::Formatter<W>,
) -> fmt::Result
    ensures { DisplaysOnOk W.write_str_gives f.old result
        (Some (spec.read_of (option_map asked_of request.now))) f.new }
{
    match request {
        Some(Request::Run(run)) => write_sources(run.bundle, &run.randomness, f),
        Some(Request::View(files)) => write_files(files.bundle, files.record_name, f),
        Some(Request::Solo(solo)) => write_files(solo.files.bundle, solo.files.record_name, f),
        Some(Request::Stats(stats)) => write_sources(stats.bundle, &stats.randomness, f),
        Some(Request::SoloOver(over)) => {
            write_back_sources(
                over.solo.files.bundle,
                over.solo.files.record_name,
                &over.old,
                f,
            )
        }
        Some(Request::Upgrade(upgrade)) => write!(f, "the bundle `{}`", upgrade.old_name),
        Some(Request::Store(store)) => write_store_sources(&store.files, &store.randomness, f),
        Some(Request::Freeze(freeze)) => {
            write!(f, "the bundle `{}`", freeze.files.bundle)?;
            write_vectors_and_stream(freeze.files.vectors_name, &freeze.randomness, f)
        }
        Some(Request::Thaw(thaw)) => {
            write!(f, "the bundle `{}`", thaw.files.bundle)?;
            write_state_and_stream(thaw.files.state_name, &thaw.randomness, f)
        }
        _ => f.write_str("a file"),
    }
}

/// Writes the names of the files that a run reads.
fn write_sources<W: fmt::Write>(
    bundle: &str,
    randomness: &Randomness<'_>,
    f: &mut fmt::Formatter<W>,
) -> fmt::Result
    ensures { DisplaysOnOk W.write_str_gives f.old result
        (Some (spec.sources_named bundle.now (randomness_of randomness.now))) f.new }
{
    match *randomness {
        Randomness::FromFile(name) => write!(f, "the bundle `{bundle}` or the stream `{name}`"),
        Randomness::Numbered(_) => write!(f, "the bundle `{bundle}`"),
    }
}

/// Writes the names of the files that a run over cloaked files reads.
fn write_store_sources<W: fmt::Write>(
    files: &StoreFiles<'_>,
    randomness: &Randomness<'_>,
    f: &mut fmt::Formatter<W>,
) -> fmt::Result
    ensures { DisplaysOnOk W.write_str_gives f.old result
        (Some (spec.store_sources_named (names_of files.now) (randomness_of randomness.now))) f.new }
{
    write_bundle_and_secret(files.bundle, files.secret_name, f)?;
    match *randomness {
        Randomness::FromFile(name) => write_last_sources(files.old_name, name, f),
        Randomness::Numbered(_) => write!(f, " or the store file `{}`", files.old_name),
    }
}

/// Writes the names of the files that a run that is frozen reads, after the bundle.
fn write_vectors_and_stream<W: fmt::Write>(
    vectors: &str,
    randomness: &Randomness<'_>,
    f: &mut fmt::Formatter<W>,
) -> fmt::Result
    ensures { DisplaysOnOk W.write_str_gives f.old result
        (Some (spec.vectors_and_stream vectors.now (randomness_of randomness.now))) f.new }
{
    match *randomness {
        Randomness::FromFile(name) => write_vectors_with(vectors, name, f),
        Randomness::Numbered(_) => write_or_vectors(vectors, f),
    }
}

/// Writes the names of vectors and stream.
fn write_vectors_with<W: fmt::Write>(
    vectors: &str,
    stream: &str,
    f: &mut fmt::Formatter<W>,
) -> fmt::Result
    ensures { DisplaysOnOk W.write_str_gives f.old result
        (Some (spec.vectors_and_stream vectors.now (words.FromFile stream.now))) f.new }
{
    write!(f, ", the vectors `{vectors}` or the stream `{stream}`")
}

/// Writes the names of the files that a run that goes on reads, after the bundle.
fn write_state_and_stream<W: fmt::Write>(
    state: &str,
    randomness: &Randomness<'_>,
    f: &mut fmt::Formatter<W>,
) -> fmt::Result
    ensures { DisplaysOnOk W.write_str_gives f.old result
        (Some (spec.state_and_stream state.now (randomness_of randomness.now))) f.new }
{
    match *randomness {
        Randomness::FromFile(name) => write_state_with(state, name, f),
        Randomness::Numbered(_) => write!(f, " or the state `{state}`"),
    }
}

/// Writes the names of state and stream.
fn write_state_with<W: fmt::Write>(
    state: &str,
    stream: &str,
    f: &mut fmt::Formatter<W>,
) -> fmt::Result
    ensures { DisplaysOnOk W.write_str_gives f.old result
        (Some (spec.state_and_stream state.now (words.FromFile stream.now))) f.new }
{
    write!(f, ", the state `{state}` or the stream `{stream}`")
}

/// Writes the names of bundle and secret.
fn write_bundle_and_secret<W: fmt::Write>(
    bundle: &str,
    secret_name: &str,
    f: &mut fmt::Formatter<W>,
) -> fmt::Result
    ensures { DisplaysOnOk W.write_str_gives f.old result
        (Some (spec.bundle_and_secret bundle.now secret_name.now)) f.new }
{
    write!(f, "the bundle `{bundle}`, the secret `{secret_name}`")
}

/// Writes the names of the files that are read of a run over cloaked files whose record is read back.
fn write_back_sources<W: fmt::Write>(
    bundle: &str,
    record_name: &str,
    old: &OldFiles<'_>,
    f: &mut fmt::Formatter<W>,
) -> fmt::Result
    ensures { DisplaysOnOk W.write_str_gives f.old result
        (Some (spec.bundle_and_secret bundle.now old.now.secret_name.now
        ++ spec.old_and_record old.now.old_name.now record_name.now)) f.new }
{
    write_bundle_and_secret(bundle, old.secret_name, f)?;
    write_old_and_record(old.old_name, record_name, f)
}

/// Writes the names of store file and record.
fn write_old_and_record<W: fmt::Write>(
    old_name: &str,
    record_name: &str,
    f: &mut fmt::Formatter<W>,
) -> fmt::Result
    ensures { DisplaysOnOk W.write_str_gives f.old result
        (Some (spec.old_and_record old_name.now record_name.now)) f.new }
{
    write!(
        f,
        ", the store file `{old_name}` or the record `{record_name}`"
    )
}

/// Writes the names of store file and stream.
fn write_last_sources<W: fmt::Write>(
    old_name: &str,
    stream: &str,
    f: &mut fmt::Formatter<W>,
) -> fmt::Result
    ensures { DisplaysOnOk W.write_str_gives f.old result
        (Some (spec.last_sources old_name.now (words.FromFile stream.now))) f.new }
{
    write!(f, ", the store file `{old_name}` or the stream `{stream}`")
}

/// Writes the names of a bundle and a record that are read.
fn write_files<W: fmt::Write>(
    bundle: &str,
    record_name: &str,
    f: &mut fmt::Formatter<W>,
) -> fmt::Result
    ensures { DisplaysOnOk W.write_str_gives f.old result
        (Some (spec.files_named bundle.now record_name.now)) f.new }
{
    write!(f, "the bundle `{bundle}` or the record `{record_name}`")
}

/// Writes what is written.
fn write_written<W: fmt::Write>(
    request: &Option<Request<'_>>,
    f: &mut fmt::Formatter<W>,
) -> fmt::Result
    ensures { DisplaysOnOk W.write_str_gives f.old result
        (Some (spec.written_of (option_map asked_of request.now))) f.new }
{
    match request {
        Some(Request::Run(run)) => write_new_record(run.record_name, f),
        Some(Request::Freeze(freeze)) => write_recorded(&freeze.files, f),
        Some(Request::Thaw(thaw)) => write_new_record(thaw.files.record_name, f),
        Some(Request::Gen(image)) => write!(f, "the bundle `{}` or the output", image.bundle),
        Some(Request::Upgrade(upgrade)) => {
            write!(f, "the bundle `{}` or the output", upgrade.new_name)
        }
        Some(Request::Store(store)) => write_stored(&store.files, f),
        Some(_) => f.write_str("the output"),
        None => f.write_str("a file or the output"),
    }
}

/// Writes the name of a record that is written, and the output.
fn write_new_record<W: fmt::Write>(name: &str, f: &mut fmt::Formatter<W>) -> fmt::Result
    ensures { DisplaysOnOk W.write_str_gives f.old result (Some (spec.written_record name.now)) f.new }
{
    write!(f, "the record `{name}` or the output")
}

/// Writes the names of the files that a run that is frozen writes.
fn write_recorded<W: fmt::Write>(files: &FreezeFiles<'_>, f: &mut fmt::Formatter<W>) -> fmt::Result
    ensures { DisplaysOnOk W.write_str_gives f.old result
        (Some (spec.record_named files.now.record_name.now ++ spec.written_state files.now.state_name.now)) f.new }
{
    write!(f, "the record `{}`", files.record_name)?;
    write!(f, ", the state `{}` or the output", files.state_name)
}

/// Writes the names of the files that a run over cloaked files writes.
fn write_stored<W: fmt::Write>(files: &StoreFiles<'_>, f: &mut fmt::Formatter<W>) -> fmt::Result
    ensures { DisplaysOnOk W.write_str_gives f.old result
        (Some (spec.record_and_store files.now.record_name.now files.now.new_name.now
        ++ spec.next_bundle files.now.next_name.now)) f.new }
{
    write!(
        f,
        "the record `{}`, the store file `{}`",
        files.record_name, files.new_name
    )?;
    write!(f, ", the bundle `{}` or the output", files.next_name)
}

/// Writes what is wrong with the words.
fn write_words_fault<W: fmt::Write>(
    request: &Option<Request<'_>>,
    f: &mut fmt::Formatter<W>,
) -> fmt::Result
    ensures { DisplaysOnOk W.write_str_gives f.old result
        (Some (spec.words_fault_of (option_map asked_of request.now))) f.new }
{
    match request {
        Some(Request::Faulty(fault)) => write_usage(*fault, f),
        Some(Request::Solo(solo)) => {
            let (bundle, domain) = (solo.files.bundle, solo.domain);
            write!(f, "program {domain} is not in the bundle `{bundle}`")
        }
        Some(Request::SoloOver(over)) => {
            let (bundle, domain) = (over.solo.files.bundle, over.solo.domain);
            write!(f, "program {domain} is not in the bundle `{bundle}`")
        }
        Some(Request::Thaw(thaw)) => write!(
            f,
            "with the steps before the state `{}` the run would have more than 1000000000 steps",
            thaw.files.state_name
        ),
        _ => f.write_str("the words are faulty"),
    }
}

fn write_usage<W: fmt::Write>(fault: UsageFault, f: &mut fmt::Formatter<W>) -> fmt::Result
    ensures { DisplaysOnOk W.write_str_gives f.old result (Some (spec.usage_of fault)) f.new }
{
    f.write_str(match fault {
        UsageFault::NoCommand =>
            "there is no command: the commands are run, view, solo, gen, demo, stats, upgrade, store, freeze and thaw",
        UsageFault::UnknownCommand => {
            "the first word is not a command: the commands are run, view, solo, gen, demo, stats, upgrade, \
             store, freeze and thaw"
        }
        UsageFault::WrongWords => "these are not the words that the command takes",
        UsageFault::NoRandomness => {
            "a run takes its random bytes from exactly one of --number and --stream"
        }
        UsageFault::WrongNumber =>
            "a number is not written in decimal digits, or is out of its range",
        UsageFault::SameName => "two of the files that are written have one name",
        UsageFault::SameSource =>
            "--stream names the file of --secret or --ivs, and keys in it would be shown as vectors",
    })
}
