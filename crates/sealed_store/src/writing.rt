//! A store file is written.
ghost use Rattle.std.specs.Prelude.{◌≡◌, ◌≤◌, ◌<◌, ◌+◌, ◌*◌, length, take, drop};
ghost use Rattle.cloak_model.specs.Bits.{word};
ghost use Rattle.cloak_model.specs.StoredFiles.{page_bytes, file_bytes, table_bytes, store_bytes};
ghost use Rattle.protect_meta.specs.FileTable.{file_at};
ghost use Rattle.sealed_store.specs.Writing.{IsWrittenAt};

use crate::seal::hmac;
use cloak_base::Meta;
use protect_meta::FileTable;

/// The length of the longest store file.
pub const LONGEST_STORE: usize = 201_524;

/// Writes these bytes after the first `at` of a room, and returns where they end.
fn put(into: &mut [u8], at: usize, bytes: &[u8]) -> usize
    requires room { at + length bytes.now ≤ length into.old }
    ensures { IsWrittenAt into.old at bytes.now into.new result }
{
    let end = at + bytes.len();
    into[at..end].copy_from_slice(bytes);
    end
}

/// Writes a number.
fn put_word(into: &mut [u8], at: usize, n: u32) -> usize
    requires room { at + 4 ≤ length into.old }
    ensures { IsWrittenAt into.old at (word n) into.new result }
{
    put(into, at, &n.to_le_bytes())
}

/// Writes what is known of a page, in at most 49 bytes.
fn put_page(into: &mut [u8], at: usize, known: Option<Meta>) -> usize
    requires room { at + 49 ≤ length into.old }
    ensures written { IsWrittenAt into.old at (page_bytes known) into.new result }
    ensures few { result ≤ at + 49 }
{
    match known {
        None => put(into, at, &[0]),
        Some(m) => {
            let shown = put(into, at, &[1]);
            let iv = put(into, shown, &m.iv);
            put(into, iv, &m.digest)
        }
    }
}

/// Writes a file: at most 49 bytes for each page, and twelve.
fn put_file(into: &mut [u8], at: usize, t: &FileTable, file: u32) -> usize
    requires file { file < length t.now }
    requires room { at + 12 + 49 * length (file_at t.now file).pages ≤ length into.old }
    ensures written { IsWrittenAt into.old at (file_bytes (file_at t.now file)) into.new result }
    ensures few { result ≤ at + 12 + 49 * length (file_at t.now file).pages }
{
    let (domain, number, pages) = t.file(file);
    let first = put_word(into, at, domain);
    let second = put_word(into, first, number);
    let mut end = put_word(into, second, pages);
    for page in 0..pages {
        end = put_page(into, end, t.page(file, page));
    }
    end
}

/// Writes all but the code, and returns its length.
fn put_table(into: &mut [u8], t: &FileTable, counter: u64) -> usize
    requires room { LONGEST_STORE ≤ length into.old }
    ensures written { IsWrittenAt into.old 0 (table_bytes counter t.now) into.new result }
    ensures few { result + 32 ≤ LONGEST_STORE }
{
    let count = t.count();
    let magic = put(into, 0, b"CLOAKSTO");
    let numbered = put(into, magic, &counter.to_le_bytes());
    let mut end = put_word(into, numbered, count);
    for file in 0..count {
        end = put_file(into, end, t, file);
    }
    end
}

/// Writes the store file of a table under a key for codes and a counter, and returns its length. What stands after it in
/// the room stays.
pub fn write_store(t: &FileTable, mac: &[u8; 16], counter: u64, into: &mut [u8]) -> usize
    requires room { LONGEST_STORE ≤ length into.old }
    ensures bytes { take result into.new ≡ store_bytes mac.now counter t.now }
    ensures length { result ≤ LONGEST_STORE }
    ensures room { length into.new ≡ length into.old }
    ensures rest { drop result into.new ≡ drop result into.old }
{
    let end = put_table(into, t, counter);
    let code = hmac(mac, &into[..end]);
    put(into, end, &code)
}
