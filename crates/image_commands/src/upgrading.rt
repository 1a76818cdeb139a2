//! The command `upgrade`.
ghost use Rattle.std.specs.Prelude.{◌≡◌, ◌<◌, ◌-◌, ◌^◌};
ghost use Rattle.cloak_model.specs.Bundle.{IsInGrammar};
ghost use Rattle.cloak_model.specs.declared.image.Bundle.{Bundle};
ghost use Rattle.io_traits.specs.Told.{OtherFiles};
ghost use Rattle.command_parts.specs.Outside.{outside};
ghost use Rattle.image_commands.specs.Upgrading.{MakesVersion2, UpgradeAnswers, WritesUpgrade, version_2};

use cloak_base::LARGEST_BUNDLE;
use cloak_model::{Bundle, BundleFault};
use command_parts::{Refusal, Status, read_bundle, refuse, show_numbered, write_file};
use guest_bundle::{file_length, write};
use io_traits::{Shelf, Sink};
use std::alloc::Global;

/// The bytes of version 2 of a bundle, unless they are too many for a file.
fn version_2_bytes(alloc: Global, bundle: &Bundle) -> Result<Vec<u8>, Refusal>
    requires { IsInGrammar bundle.now }
    ensures { MakesVersion2 bundle.now result }
{
    if file_length(bundle) > LARGEST_BUNDLE as u64 {
        return Err(Refusal::BadBundle(BundleFault::TooLarge(0)));
    }
    match write(alloc, bundle) {
        Ok(bytes) => Ok(bytes),
        Err(_) => Err(Refusal::NoMemory),
    }
}

/// Writes version 2 of a bundle to the file of a name, and then shows how many bytes it has.
fn write_upgraded<S: Shelf, O: Sink>(bytes: &[u8], name: &str, shelf: &mut S, out: &mut O) -> Status
    requires writing { S.writing_faults shelf.old < 2 ^ 64 - 1 }
    requires output { O.faults out.old < 2 ^ 64 - 1 }
    ensures answers { (b : Bundle) → bytes.now ≡ version_2 b → WritesUpgrade name.now b
        (outside S.Shelf O.Sink shelf.old out.old) (outside S.Shelf O.Sink shelf.new out.new) result }
    ensures others { OtherFiles name.now (S.held shelf.old) (S.held shelf.new) }
{
    if write_file(shelf, name, bytes).is_err() {
        return Status::WriteFault;
    }
    if show_numbered(out, b"upgraded ", bytes.len() as u64).is_err() {
        return Status::WriteFault;
    }
    Status::Done
}

/// Reads the bundle of a file whole, writes its version 2 to another file or to the same one, and then shows how many bytes
/// that has. Nothing is written if version 2 would be too large, or if there is no memory for it.
pub fn upgrade_command<S: Shelf, O: Sink>(
    alloc: Global,
    old_name: &str,
    new_name: &str,
    shelf: &mut S,
    out: &mut O,
) -> Status
    requires settled { S.is_settled shelf.old }
    requires reading { S.reading_faults shelf.old < 2 ^ 64 - 1 }
    requires writing { S.writing_faults shelf.old < 2 ^ 64 - 1 }
    requires output { O.faults out.old < 2 ^ 64 - 1 }
    ensures answers { UpgradeAnswers old_name.now new_name.now
        (outside S.Shelf O.Sink shelf.old out.old) (outside S.Shelf O.Sink shelf.new out.new) result }
    ensures kept { OtherFiles new_name.now (S.held shelf.old) (S.held shelf.new) }
{
    let bundle = match read_bundle(alloc, shelf, old_name) {
        Ok(bundle) => bundle,
        Err(refusal) => return refuse(out, &refusal),
    };
    match version_2_bytes(alloc, &bundle) {
        Ok(bytes) => write_upgraded(bytes.as_slice(), new_name, shelf, out),
        Err(refusal) => refuse(out, &refusal),
    }
}
