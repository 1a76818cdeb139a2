//! The bundle that a document means.
ghost use Rattle.std.specs.Prelude.{◌≤◌, IfOk, length};
ghost use Rattle.toml.specs.View.{view};
ghost use Rattle.command_parts.specs.Outside.{files};
ghost use Rattle.cloak_base.specs.Constants.{largest_bundle};
ghost use Rattle.cloak_model.specs.Bundle.{IsInGrammar, bundle_bytes};
ghost use Rattle.manifest.specs.Faults.{ReturnsRead};
ghost use Rattle.manifest.specs.Images.{ImageReads};
ghost use Rattle.manifest.specs.Reading.{ReadsParts};

use crate::fault::{KeyFault, PackError};
use crate::fields::NamedTable;
use crate::kernel::kernel;
use crate::key::{Key, ManifestTable};
use crate::programs::programs;
use crate::room::room_behind;
use cloak_model::{Bundle, Sequence};
use io_traits::Shelf;
use std::alloc::Global;
use toml::Value;

/// The keys at the top of a manifest.
const KEYS: [Key; 7] = [
    Key::Frames,
    Key::Harts,
    Key::Schedule,
    Key::Entry,
    Key::Segment,
    Key::Disk,
    Key::Program,
];

/// The bundle that the document of the manifest of this name means. Its file of version 2 is not too large.
pub fn bundle_of<S: Shelf>(
    alloc: Global,
    shelf: &mut S,
    manifest: &str,
    document: &Value,
) -> Result<Bundle, PackError>
    requires { S.is_settled shelf.old }
    ensures read { ReturnsRead (λ b. b) (ImageReads (S.held shelf.old) manifest.now (view document.now)) result }
    ensures in_grammar { IfOk result IsInGrammar }
    ensures fits { IfOk result (λ b. length (bundle_bytes 2 b) ≤ largest_bundle) }
    ensures reads { ReadsParts (files S.Shelf shelf.old) (files S.Shelf shelf.new) result }
    ensures settled { S.is_settled shelf.new }
{
    let place = NamedTable {
        part: ManifestTable::Image,
        table: document,
    };
    place.has_only(alloc, &KEYS)?;
    let kernel = kernel(alloc, shelf, manifest, document)?;
    let tables = place.short_list(Key::Program, 4)?;
    let programs = programs(alloc, shelf, manifest, tables, kernel.frames)?;
    let bundle = Bundle {
        kernel,
        programs: Sequence::new(programs),
    };
    if room_behind(&bundle).is_none() {
        return Err(PackError::from(place.fault(Key::Segment, KeyFault::TooLarge)));
    }
    Ok(bundle)
}
