ghost use Rattle.std.specs.Prelude.{◌≡◌, ◌≤◌, length, OnOk};
ghost use Rattle.cloak_model.specs.Bundle.{is_version};
ghost use Rattle.guest_bundle.specs.Reading.{version_at, header_at};

use crate::BundleFault;
use crate::fields::{bytes, count, entry, number};

/// The numbers of fixed places that a file begins with.
#[derive(Clone, Copy)]
pub struct Header {
    /// Each program has the number of a key.
    pub keys: bool,
    pub frames: u32,
    pub harts: u32,
    /// The length of the schedule.
    pub turns: u32,
    pub entry: u32,
    pub segments: u32,
    pub blocks: u32,
    pub programs: u32,
}

/// There is a version of this number.
fn is_known(version: u32) -> bool
    ensures { result ≡ is_version version }
{
    version == 1 || version == 2
}

#[tactic(auto, unfolding(crate::specs::Reading::version_at))]
fn version(file: &[u8]) -> Result<u32, BundleFault>
    ensures field { result ≡ version_at file.now }
    ensures whole { OnOk result (12 ≤ length file.now) }
{
    let magic = bytes(file, 0, 8)?;
    if magic != b"CLOAKBND".as_slice() {
        return Err(BundleFault::BadMagic);
    }
    let version = number(file, 8)?;
    if !is_known(version) {
        return Err(BundleFault::BadVersion(version));
    }
    Ok(version)
}

#[tactic(auto, unfolding(crate::specs::Reading::header_at))]
pub fn read_header(file: &[u8]) -> Result<Header, BundleFault>
    ensures fields { result ≡ header_at file.now }
    ensures whole { OnOk result (40 ≤ length file.now) }
{
    let version = version(file)?;
    let frames = count(file, 12, 64, 4096)?;
    let harts = count(file, 16, 1, 4)?;
    let turns = count(file, 20, 1, 64)?;
    let entry = entry(file, 24)?;
    let segments = count(file, 28, 0, 16)?;
    let blocks = count(file, 32, 0, 4096)?;
    let programs = count(file, 36, 0, 4)?;
    Ok(Header {
        keys: version == 2,
        frames,
        harts,
        turns,
        entry,
        segments,
        blocks,
        programs,
    })
}
