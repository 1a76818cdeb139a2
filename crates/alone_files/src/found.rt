//! Blocks of a disk, found by their digests.
ghost use Rattle.std.specs.Prelude.{◌≡◌, ◌≢◌, ◌<◌, ◌≤◌, ◌+◌, ◌*◌, ℕ, IfOk, length, slice_index_or, []};
ghost use Rattle.cloak_model.specs.HostCalls.{block_at};
ghost use Rattle.alone_files.specs.Finding.{AreDigests, IsFirstDigest};

use cloak_base::NoMemory;
use sha2::{Digest, Sha256};
use std::alloc::Global;

/// The bytes of a block.
pub(crate) fn block_of(disk: &[u8], block: usize) -> &[u8; 4096]
    requires { 4096 * block + 4096 ≤ length disk.now }
    ensures { result.now ≡ block_at disk.now block }
{
    let at = block * 4096;
    let Ok(bytes) = <&[u8; 4096]>::try_from(&disk[at..at + 4096]) else {
        unreachable!();
    };
    bytes
}

/// The digest of each block of a disk.
pub(crate) fn digests_of(alloc: Global, disk: &[u8]) -> Result<Vec<[u8; 32]>, NoMemory>
    ensures { IfOk result (λ digests. AreDigests disk.now digests.items) }
{
    let count = disk.len() / 4096;
    let mut digests = Vec::with_capacity(alloc, count)?;
    for block in 0..count {
        digests.push_reserved(Sha256::digest(block_of(disk, block).as_slice()));
    }
    Ok(digests)
}

/// The first of these digests that is this one.
pub(crate) fn find_digest(digests: &[[u8; 32]], digest: &[u8; 32]) -> Option<usize>
    ensures { IsFirstDigest digests.now digest.now result }
{
    for at in 0..digests.len() {
        if digests[at] == *digest {
            return Some(at);
        }
    }
    None
}
