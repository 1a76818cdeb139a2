//! The command `pack`.
ghost use Rattle.std.specs.Prelude.{◌≡◌, ◌≤◌, IfErr, IfOk, Some, length};
ghost use Rattle.io_traits.specs.Told.{Tells};
ghost use Rattle.toml.specs.View.{view, table_view};
ghost use Rattle.command_parts.specs.Outside.{files, outside};
ghost use Rattle.cloak_base.specs.Constants.{largest_bundle};
ghost use Rattle.cloak_model.specs.Bundle.{IsInGrammar, bundle_bytes};
ghost use Rattle.asm_text.specs.Making.{IsWhy, ReadsFor};
ghost use Rattle.manifest.specs.Faults.{ReturnsRead, fault_of};
ghost use Rattle.manifest.specs.Images.{DocumentReads, Means};
ghost use Rattle.manifest.specs.Reading.{IsNoReadFault, ReadsParts};
ghost use Rattle.manifest.specs.Telling.{pack_text};
ghost use Rattle.manifest.specs.Packing.{IsPacked, PackAnswers, TellsPackFault};

use crate::fault::{PackError, PackFault};
use crate::image::bundle_of;
use crate::sources::read_whole;
use crate::telling::FaultyManifest;
use asm_text::{Reason, conclude};
use cloak_model::Bundle;
use command_parts::Status;
use guest_bundle::write;
use io_traits::{Shelf, Sink};
use std::alloc::Global;
use toml::{Table, Value};

/// The most bytes of a manifest.
const LONGEST_MANIFEST: u32 = 1_048_576;

/// The document that the text of a manifest is.
fn document(alloc: Global, text: &[u8]) -> Result<Table, PackError>
    ensures read { ReturnsRead table_view (DocumentReads text.now) result }
    ensures no_read { IfErr result IsNoReadFault }
{
    let Ok(text) = std::str::from_utf8(text) else {
        return Err(PackError::Faulty(PackFault::NotText));
    };
    match toml::table_from_str(alloc, text) {
        Ok(table) => Ok(table),
        Err(error) if error.is_memory() => Err(PackError::NoMemory),
        Err(error) => Err(PackError::Faulty(PackFault::NotToml(error.to_string(alloc)?))),
    }
}

/// The bundle that the manifest of a file means.
fn meant_bundle<S: Shelf>(alloc: Global, shelf: &mut S, manifest: &str) -> Result<Bundle, PackError>
    requires { S.is_settled shelf.old }
    ensures means { ReturnsRead (λ b. b) (Means (S.held shelf.old) manifest.now) result }
    ensures in_grammar { IfOk result IsInGrammar }
    ensures fits { IfOk result (λ b. length (bundle_bytes 2 b) ≤ largest_bundle) }
    ensures reads { ReadsParts (files S.Shelf shelf.old) (files S.Shelf shelf.new) result }
{
    let Some(text) = read_whole(alloc, shelf, manifest, LONGEST_MANIFEST)? else {
        return Err(PackError::Faulty(PackFault::TooLong));
    };
    let text = text.as_slice();
    if text.is_empty() {
        return Err(PackError::Faulty(PackFault::NoBytes));
    }
    let document = Value::Table(document(alloc, text)?);
    bundle_of(alloc, shelf, manifest, &document)
}

/// Why the manifest in a file of this name means no bundle.
fn reason_of_fault(alloc: Global, manifest: &str, fault: &PackFault) -> Reason
    ensures { IsWhy (λ shown. shown ≡ pack_text manifest.now (fault_of fault.now)) result }
{
    let faulty = FaultyManifest {
        name: manifest,
        fault,
    };
    match faulty.to_string(alloc) {
        Ok(text) => Reason::Faulty(text),
        Err(_) => Reason::NoMemory,
    }
}

/// The file of version 2 of the bundle that a manifest means.
fn packed<S: Shelf>(alloc: Global, shelf: &mut S, manifest: &str) -> Result<Vec<u8>, Reason>
    requires { S.is_settled shelf.old }
    ensures { ReadsFor (IsPacked (S.held shelf.old) manifest.now) (TellsPackFault (S.held shelf.old) manifest.now)
        (files S.Shelf shelf.old) (files S.Shelf shelf.new) result }
{
    let bundle = match meant_bundle(alloc, shelf, manifest) {
        Ok(bundle) => bundle,
        Err(PackError::ReadFault) => return Err(Reason::ReadFault),
        Err(PackError::NoMemory) => return Err(Reason::NoMemory),
        Err(PackError::Faulty(fault)) => return Err(reason_of_fault(alloc, manifest, &fault)),
    };
    match write(alloc, &bundle) {
        Ok(file) => Ok(file),
        Err(_) => Err(Reason::NoMemory),
    }
}

/// Writes the file of version 2 of the bundle that a manifest means.
pub fn pack_command<S: Shelf, O: Sink>(
    alloc: Global,
    manifest: &str,
    bundle: &str,
    shelf: &mut S,
    out: &mut O,
) -> Status
    requires { S.is_settled shelf.old }
    ensures { PackAnswers manifest.now bundle.now
        (outside S.Shelf O.Sink shelf.old out.old) (outside S.Shelf O.Sink shelf.new out.new) result }
{
    let made = packed(alloc, shelf, manifest);
    conclude(&made, bundle, shelf, out)
}
