//! The bundle that a file is.
ghost use Rattle.std.specs.Prelude.{◌≡◌, IfErr, IfOk, IfSome};
ghost use Rattle.io_traits.specs.Told.{SameFiles};
ghost use Rattle.command_parts.specs.Files.{TellsUnread};
ghost use Rattle.command_parts.specs.Bundles.{ReadsBundle, ReadsBundleBytes, ReadsJudging};

use crate::files::read_front;
use crate::refusal::Refusal;
use cloak_base::LARGEST_BUNDLE;
use cloak_model::Bundle;
use guest_bundle::{BundleFault, read};
use io_traits::Shelf;
use std::alloc::Global;

/// The bytes of a file that is not too large for a bundle.
#[tactic(auto, using(crate::proofs::BundleFacts::whole))]
fn read_whole<S: Shelf>(alloc: Global, shelf: &mut S, name: &str) -> Result<Vec<u8>, Refusal>
    requires { S.is_settled shelf.old }
    ensures bytes { IfOk result (λ v. IfSome (S.held shelf.old name.now) (λ bytes. v.items ≡ bytes)) }
    ensures judged { ReadsJudging (S.held shelf.old name.now)
        (S.reading_faults shelf.old) (S.reading_faults shelf.new) result }
    ensures files { SameFiles (S.held shelf.old) (S.held shelf.new) }
    ensures unread { IfErr result (TellsUnread (S.unread shelf.new) name.now) }
    ensures writing { S.writing_faults shelf.new ≡ S.writing_faults shelf.old }
    ensures settled { S.is_settled shelf.new }
{
    let bytes = read_front(alloc, shelf, name, LARGEST_BUNDLE as u64 + 1)?;
    if bytes.len() > LARGEST_BUNDLE as usize {
        return Err(Refusal::BadBundle(BundleFault::TooLarge(0)));
    }
    Ok(bytes)
}

/// The bundle that a file is.
pub fn read_bundle<S: Shelf>(alloc: Global, shelf: &mut S, name: &str) -> Result<Bundle, Refusal>
    requires { S.is_settled shelf.old }
    ensures bundle { ReadsBundle (S.held shelf.old name.now)
        (S.reading_faults shelf.old) (S.reading_faults shelf.new) result }
    ensures files { SameFiles (S.held shelf.old) (S.held shelf.new) }
    ensures unread { IfErr result (TellsUnread (S.unread shelf.new) name.now) }
    ensures writing { S.writing_faults shelf.new ≡ S.writing_faults shelf.old }
    ensures settled { S.is_settled shelf.new }
{
    let bytes = read_whole(alloc, shelf, name)?;
    match read(alloc, bytes) {
        Ok(bundle) => Ok(bundle),
        Err(BundleFault::NoMemory) => Err(Refusal::NoMemory),
        Err(fault) => Err(Refusal::BadBundle(fault)),
    }
}

/// The bundle that a file is, and a copy of the file's bytes.
pub fn read_bundle_with_bytes<S: Shelf>(
    alloc: Global,
    shelf: &mut S,
    name: &str,
) -> Result<(Bundle, Vec<u8>), Refusal>
    requires { S.is_settled shelf.old }
    ensures bundle { ReadsBundleBytes (S.held shelf.old name.now)
        (S.reading_faults shelf.old) (S.reading_faults shelf.new) result }
    ensures files { SameFiles (S.held shelf.old) (S.held shelf.new) }
    ensures unread { IfErr result (TellsUnread (S.unread shelf.new) name.now) }
    ensures writing { S.writing_faults shelf.new ≡ S.writing_faults shelf.old }
    ensures settled { S.is_settled shelf.new }
{
    let bytes = read_whole(alloc, shelf, name)?;
    let copy = match Vec::from_slice(alloc, bytes.as_slice()) {
        Ok(copy) => copy,
        Err(_) => return Err(Refusal::NoMemory),
    };
    match read(alloc, bytes) {
        Ok(bundle) => Ok((bundle, copy)),
        Err(BundleFault::NoMemory) => Err(Refusal::NoMemory),
        Err(fault) => Err(Refusal::BadBundle(fault)),
    }
}
