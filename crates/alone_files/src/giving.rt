//! Files that are given to a program before its first item.
ghost use Rattle.std.specs.Prelude.{◌≡◌, ◌<◌, ◌≤◌, All, length};
ghost use Rattle.aes_block.specs.Bytes.{IsBytes};
ghost use Rattle.cloak_model.specs.Chain.{cbc};
ghost use Rattle.cloak_model.specs.StoredFiles.{IsFile, IsTable};
ghost use Rattle.protect_meta.specs.FileTable.{file_at};
ghost use Rattle.alone_files.specs.Finding.{AreDigests};
ghost use Rattle.alone_files.specs.Giving.{Gives, GivesOne, GivesPage, GivesPages};

use crate::found::{block_of, digests_of, find_digest};
use aes_block::KeySchedule;
use aes_cbc::open_page;
use alone_views::DomainAlone;
use cloak_base::Meta;
use protect_meta::FileTable;
use std::alloc::Global;

/// Why a program is not given files.
#[derive(Clone, Copy, Debug, PartialEq, Eq)]
pub enum FilesFault {
    /// There is no room for a file of the program.
    NoRoom,
    NoMemory,
}

/// A disk with the digest of each block, and the key of the pages that are looked for on it.
#[derive(Clone, Copy)]
struct Kept<'a> {
    disk: &'a [u8],
    digests: &'a [[u8; 32]],
    key: &'a KeySchedule,
}

/// Bytes are below 256. It does nothing: its contract is what the type says.
fn are_bytes(bytes: &[u8])
    ensures { All (λ b. b < 256) bytes.now }
{}

/// A page that was sealed, deciphered.
fn opened(key: &KeySchedule, iv: &[u8; 16], block: &[u8; 4096]) -> [u8; 4096]
    ensures sealed { cbc key.now iv.now result ≡ block.now }
    ensures whole { IsBytes 4096 result }
{
    let mut page = *block;
    open_page(key, iv, &mut page);
    are_bytes(page.as_slice());
    page
}

/// Gives a program a page of which this is known, if it is found, and tells whether it is.
fn give_page(
    program: &mut DomainAlone,
    resource: u32,
    page: u32,
    known: &Meta,
    kept: Kept<'_>,
) -> bool
    requires resource { resource < 16 }
    requires page { page < 1024 }
    requires digests { AreDigests kept.disk.now kept.digests.now }
    ensures { GivesPage kept.entry.key.now kept.entry.disk.now known.now resource page program.old program.new result }
{
    let Some(block) = find_digest(kept.digests, &known.digest) else {
        return false;
    };
    let bytes = opened(kept.key, &known.iv, block_of(kept.disk, block));
    program.set_page(resource, page, &bytes);
    true
}

/// Gives a program the pages of a file of the table, and tells whether each that was shown was found.
fn give_pages(
    program: &mut DomainAlone,
    resource: u32,
    files: &FileTable,
    file: u32,
    kept: Kept<'_>,
) -> bool
    requires file { file < length files.now }
    requires pages { length (file_at files.now file).pages ≤ 1024 }
    requires resource { resource < 16 }
    requires digests { AreDigests kept.disk.now kept.digests.now }
    ensures { GivesPages kept.entry.key.now kept.entry.disk.now (length (file_at files.now file).pages)
        (file_at files.now file).pages resource program.old program.new result }
{
    let (_, _, pages) = files.file(file);
    let mut whole = true;
    for page in 0..pages {
        if let Some(known) = files.page(file, page) {
            if !give_page(program, resource, page, &known, kept) {
                whole = false;
            }
        }
    }
    whole
}

/// Gives a program a file of the table if it is its own, and tells whether each page that was shown was found.
fn give_file(
    program: &mut DomainAlone,
    number: u32,
    files: &FileTable,
    file: u32,
    kept: Kept<'_>,
) -> Result<bool, FilesFault>
    requires file { file < length files.now }
    requires is_file { IsFile (file_at files.now file) }
    requires digests { AreDigests kept.disk.now kept.digests.now }
    ensures { GivesOne number kept.entry.key.now kept.entry.disk.now (file_at files.now file) program.old program.new
        result }
{
    let (domain, name, pages) = files.file(file);
    if domain != number {
        return Ok(true);
    }
    let Ok(resource) = program.add_file(name, pages) else {
        return Err(FilesFault::NoRoom);
    };
    Ok(give_pages(program, resource, files, file, kept))
}

/// Gives the program of a number, before its first item, the files of a table whose pages are looked for on a disk, under
/// the key of its pages. Tells whether each page that was shown was found.
pub fn give_files(
    alloc: Global,
    program: &mut DomainAlone,
    number: u32,
    files: &FileTable,
    key: &[u8; 16],
    disk: &[u8],
) -> Result<bool, FilesFault>
    requires table { IsTable files.now }
    ensures { Gives number key.now disk.now files.now program.old program.new result }
{
    let Ok(digests) = digests_of(alloc, disk) else {
        return Err(FilesFault::NoMemory);
    };
    let key = KeySchedule::new(key);
    let kept = Kept {
        disk,
        digests: digests.as_slice(),
        key: &key,
    };
    let mut whole = true;
    for file in 0..files.count() {
        let found = match give_file(program, number, files, file, kept) {
            Ok(found) => found,
            Err(fault) => return Err(fault),
        };
        if !found {
            whole = false;
        }
    }
    Ok(whole)
}
