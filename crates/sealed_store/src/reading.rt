//! A store file is read.
ghost use Rattle.std.specs.Prelude.{◌≡◌, ◌≤◌, ◌↔◌, [], Err, Some, IfOk, OnErr, OnOk, MatchResult, length};
ghost use Rattle.std.specs.Str.{bytes_eq};
ghost use Rattle.cloak_model.specs.Fields as spec;
ghost use Rattle.cloak_model.specs.StoredFiles.{IsStore};
ghost use Rattle.cloak_model.specs.StoreFault.{form_fault, long_at, body_of, code_of, store_fault};
ghost use Rattle.cloak_model.specs.Hmac as codes;
ghost use Rattle.field_facts.specs.Faults.{fault_of};
ghost use Rattle.sealed_store.specs.Reading.{files_in};

use crate::cursor::Cursor;
use crate::files::read_files;
use crate::seal::hmac;
use crate::writing::LONGEST_STORE;
use cloak_model::StoreFault;
use protect_meta::FileTable;

/// The length of the shortest store file: that of the empty table.
const SHORTEST_STORE: usize = 52;

/// The last 32 bytes are the code of all before them.
fn is_sealed(file: &[u8], mac: &[u8; 16]) -> bool
    requires { 32 ≤ length file.now }
    ensures { result ≡ bytes_eq (code_of file.now) (codes.hmac mac.now (body_of file.now)) }
{
    let (body, code) = file.split_at(file.len() - 32);
    let due = hmac(mac, body);
    code == due.as_slice()
}

/// The counter of a file.
fn counter_of(file: &[u8]) -> u64
    requires { 16 ≤ length file.now }
    ensures { result ≡ long_at file.now 8 }
{
    let mut long = [0; 8];
    long.copy_from_slice(&file[8..16]);
    u64::from_le_bytes(long)
}

/// The body of a file whose length, first bytes, code and counter are right.
#[tactic(auto, unfolding(cloak_model::specs::StoreFault::store_fault))]
fn unsealed<'a>(file: &'a [u8], mac: &[u8; 16], counter: u64) -> Result<&'a [u8], StoreFault>
    ensures fault { MatchResult result
        (λ body. store_fault mac.now counter file.now ≡ form_fault body.now)
        (λ fault. store_fault mac.now counter file.now ≡ Some fault) }
    ensures body { IfOk result (λ body. body.now ≡ body_of file.now) }
    ensures long { IfOk result (λ body. 20 ≤ length body.now) }
{
    if file.len() > LONGEST_STORE {
        return Err(StoreFault::Form(LONGEST_STORE as u64));
    }
    if file.len() < SHORTEST_STORE {
        return Err(StoreFault::Short(file.len() as u64));
    }
    if &file[..8] != b"CLOAKSTO".as_slice() {
        return Err(StoreFault::BadMagic);
    }
    if !is_sealed(file, mac) {
        return Err(StoreFault::Seal);
    }
    let its_own = counter_of(file);
    if its_own != counter {
        return Err(StoreFault::Counter(its_own));
    }
    Ok(&file[..file.len() - 32])
}

/// Reads the files of a body into an empty table.
#[tactic(auto, unfolding(cloak_model::specs::StoreFault::form_fault))]
fn read_form(body: &[u8], t: &mut FileTable) -> Result<(), StoreFault>
    requires empty { t.old ≡ [] }
    requires long { 20 ≤ length body.now }
    ensures fault { fault_of result ≡ form_fault body.now }
    ensures table { OnOk result (t.new ≡ files_in body.now (spec.number body.now 16) 20) }
{
    let mut c = Cursor { body, at: 16 };
    let count = c.number()?;
    if count > 64 {
        return Err(StoreFault::Form(16));
    }
    read_files(&mut c, count, t)?;
    if c.at != body.len() {
        return Err(StoreFault::Form(c.at as u64));
    }
    Ok(())
}

/// Reads a store file under a key for codes and a counter into an empty table. A fault is the first test that the file
/// fails, in this order: its length above 201,524 bytes (`Form`) or below 52 (`Short`), its first eight bytes
/// (`BadMagic`), its code (`Seal`), its counter (`Counter`, with the one that it has), and then its fields (`Form`,
/// with the offset). After a fault the table is empty.
pub fn read_store(
    b: &[u8],
    mac: &[u8; 16],
    counter: u64,
    t: &mut FileTable,
) -> Result<(), StoreFault>
    requires { t.old ≡ [] }
    ensures reads { IfOk result (λ done. IsStore mac.now counter b.now t.new) }
    ensures faults { (fault : StoreFault) → (result ≡ Err fault) ↔ (store_fault mac.now counter b.now ≡ Some fault) }
    ensures refused_empty { OnErr result (t.new ≡ []) }
{
    let body = unsealed(b, mac, counter)?;
    let read = read_form(body, t);
    if read.is_err() {
        t.clear();
    }
    read
}
