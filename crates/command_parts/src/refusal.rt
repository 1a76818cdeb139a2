//! Why there is no run, and the line that says so.
ghost use Rattle.std.specs.Prelude.{◌≡◌, decimal};
ghost use Rattle.io_traits.specs.Sinks.{PutsTo};
ghost use Rattle.command_words.specs.Command.{usage_line};
ghost use Rattle.command_parts.specs.Outside.{output};
ghost use Rattle.command_parts.specs.Refusing.{Refuses};
ghost use Rattle.command_parts.specs.Refusal.{bundle_line, numbered_line, refusal_line, state_line, status_of_refusal, store_line};

use crate::status::Status;
use cloak_base::Failed;
use cloak_model::{BundleFault, StoreFault};
use command_words::UsageFault;
use frozen_state::FrozenFault;
use io_traits::{Sink, put_all};

/// Why there is no run.
#[derive(Clone, Copy, Debug, PartialEq, Eq)]
pub enum Refusal {
    Usage(UsageFault),
    BadBundle(BundleFault),
    /// A file could not be read.
    ReadFault,
    NoMemory,
    /// The random stream holds no key.
    NoKey,
    /// A page of a program found no draw.
    NoPageDraw,
    /// The bundle has no program of the number that is asked for.
    NoSuchDomain,
    /// The secret file has fewer than 80 bytes.
    ShortSecret,
    /// The file that was to tell of cloaked files does not.
    BadStore(StoreFault),
    /// There is no room for a cloaked file of this domain.
    NoRoom(u32),
    /// The file that was to be a frozen state of the bundle is none.
    BadState(FrozenFault),
    /// In a frozen state the page of this domain has not its digest.
    ChangedDomain(u32),
    /// In a frozen state the page that this frame is owed has not its digest.
    ChangedFrame(u32),
}

/// The status that a refusal is answered with.
fn status(refusal: &Refusal) -> Status
    ensures { result ≡ status_of_refusal refusal.now }
{
    match *refusal {
        Refusal::Usage(_) | Refusal::NoSuchDomain => Status::Usage,
        Refusal::BadBundle(_) => Status::BadBundle,
        Refusal::ReadFault => Status::ReadFault,
        Refusal::NoMemory => Status::NoMemory,
        Refusal::NoKey | Refusal::NoPageDraw => Status::NoRandom,
        Refusal::ShortSecret | Refusal::BadStore(_) | Refusal::NoRoom(_) => Status::BadStore,
        Refusal::BadState(_) | Refusal::ChangedDomain(_) | Refusal::ChangedFrame(_) =>
            Status::BadState,
    }
}

/// Shows a text.
fn show<O: Sink>(out: &mut O, text: &[u8]) -> Result<(), Failed>
    ensures { PutsTo O.Sink out.old out.new text.now result }
{
    put_all(out, text)
}

/// Shows a number in decimal digits.
pub fn show_decimal<O: Sink>(out: &mut O, number: u64) -> Result<(), Failed>
    ensures { PutsTo O.Sink out.old out.new (decimal number) result }
{
    let mut digits = itoa::Buffer::new();
    show(out, digits.format(number).as_bytes())
}

/// Shows a line that ends with a number.
pub fn show_numbered<O: Sink>(out: &mut O, text: &[u8], number: u64) -> Result<(), Failed>
    ensures { PutsTo O.Sink out.old out.new (numbered_line text.now number) result }
{
    show(out, text)?;
    show_decimal(out, number)?;
    show(out, b"\n")
}

/// Shows what is wrong with the words.
fn show_usage<O: Sink>(out: &mut O, fault: UsageFault) -> Result<(), Failed>
    ensures { PutsTo O.Sink out.old out.new (usage_line fault) result }
{
    match fault {
        UsageFault::NoCommand => show(out, b"usage: no command\n"),
        UsageFault::UnknownCommand => show(out, b"usage: unknown command\n"),
        UsageFault::WrongWords => show(out, b"usage: words\n"),
        UsageFault::NoRandomness => show(out, b"usage: randomness\n"),
        UsageFault::WrongNumber => show(out, b"usage: number\n"),
        UsageFault::SameName | UsageFault::SameSource => show(out, b"usage: same name\n"),
    }
}

/// Shows why a file is no bundle.
fn show_bundle_fault<O: Sink>(out: &mut O, fault: BundleFault) -> Result<(), Failed>
    ensures { PutsTo O.Sink out.old out.new (bundle_line fault) result }
{
    match fault {
        BundleFault::Short(at) => show_numbered(out, b"bundle: short at ", at),
        BundleFault::BadMagic => show(out, b"bundle: magic\n"),
        BundleFault::BadVersion(version) => show_numbered(out, b"bundle: version ", version as u64),
        BundleFault::BadCount(at) => show_numbered(out, b"bundle: count at ", at),
        BundleFault::TooLarge(at) => show_numbered(out, b"bundle: too large at ", at),
        BundleFault::BadRange(at) => show_numbered(out, b"bundle: range at ", at),
        BundleFault::Extra(at) => show_numbered(out, b"bundle: extra at ", at),
        BundleFault::NoMemory => show(out, b"no memory\n"),
    }
}

/// Shows why a file is no store file.
fn show_store_fault<O: Sink>(out: &mut O, fault: StoreFault) -> Result<(), Failed>
    ensures { PutsTo O.Sink out.old out.new (store_line fault) result }
{
    match fault {
        StoreFault::Short(length) => show_numbered(out, b"store: short at ", length),
        StoreFault::BadMagic => show(out, b"store: magic\n"),
        StoreFault::Seal => show(out, b"store: seal\n"),
        StoreFault::Counter(counter) => show_numbered(out, b"store: counter ", counter),
        StoreFault::Form(at) => show_numbered(out, b"store: form at ", at),
    }
}

/// Shows why a file is no frozen state.
fn show_state_fault<O: Sink>(out: &mut O, fault: FrozenFault) -> Result<(), Failed>
    ensures { PutsTo O.Sink out.old out.new (state_line fault) result }
{
    match fault {
        FrozenFault::Short(length) => show_numbered(out, b"state: short at ", length),
        FrozenFault::BadMagic => show(out, b"state: magic\n"),
        FrozenFault::Digest => show(out, b"state: digest\n"),
        FrozenFault::OtherBundle => show(out, b"state: bundle\n"),
        FrozenFault::Form(at) => show_numbered(out, b"state: form at ", at),
        FrozenFault::NoMemory => show(out, b"no memory\n"),
    }
}

/// Shows the line of a refusal.
#[tactic(auto, unfolding(crate::specs::Refusal::refusal_line))]
fn show_line<O: Sink>(out: &mut O, refusal: &Refusal) -> Result<(), Failed>
    ensures { PutsTo O.Sink out.old out.new (refusal_line refusal.now) result }
{
    match *refusal {
        Refusal::Usage(fault) => show_usage(out, fault),
        Refusal::BadBundle(fault) => show_bundle_fault(out, fault),
        Refusal::ReadFault => show(out, b"read fault\n"),
        Refusal::NoMemory => show(out, b"no memory\n"),
        Refusal::NoKey => show(out, b"random: no key\n"),
        Refusal::NoPageDraw => show(out, b"random: opening\n"),
        Refusal::NoSuchDomain => show(out, b"usage: no such domain\n"),
        Refusal::ShortSecret => show(out, b"secret: short\n"),
        Refusal::BadStore(fault) => show_store_fault(out, fault),
        Refusal::NoRoom(domain) => show_numbered(out, b"store: no room ", domain as u64),
        Refusal::BadState(fault) => show_state_fault(out, fault),
        Refusal::ChangedDomain(domain) => {
            show_numbered(out, b"state: changed domain ", domain as u64)
        }
        Refusal::ChangedFrame(frame) => show_numbered(out, b"state: changed frame ", frame as u64),
    }
}

/// Shows the line of a refusal, and returns its status, or the write fault.
pub fn refuse<O: Sink>(out: &mut O, refusal: &Refusal) -> Status
    ensures { Refuses (output O.Sink out.old) (output O.Sink out.new) refusal.now result }
{
    match show_line(out, refusal) {
        Ok(()) => status(refusal),
        Err(_) => Status::WriteFault,
    }
}
