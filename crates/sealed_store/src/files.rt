//! The files of a body.
ghost use Rattle.std.specs.Prelude.{◌≡◌, ◌+◌, ◌≤◌, ◌<◌, ◌++◌, ◌∷◌, [], length, sum_by, IfOk, OnOk};
ghost use Rattle.cloak_model.specs.Fields as spec;
ghost use Rattle.cloak_model.specs.Fields.{fault_in, first_in};
ghost use Rattle.cloak_model.specs.StoredFiles.{page_count};
ghost use Rattle.cloak_model.specs.StoreFault as format;
ghost use Rattle.cloak_model.specs.StoreFault.{ruled_at, files_fields, files_end, none_before};
ghost use Rattle.sealed_store.specs.Moving.{Moves};
ghost use Rattle.field_facts.specs.Faults.{fault_of};
ghost use Rattle.sealed_store.specs.Reading.{new_file, file_fields, file_in, after_file, files_in};

use crate::cursor::Cursor;
use cloak_model::StoreFault;
use protect_meta::FileTable;

/// Domain and number of a file.
type FileName = (u32, u32);

/// Whether a domain may stand after the last file.
fn domain_rises(last: Option<FileName>, domain: u32) -> bool
    ensures { result ≡ format.domain_rises last domain }
{
    match last {
        None => domain < 4,
        Some((before, _)) => domain < 4 && before <= domain,
    }
}

/// Whether a file of a domain with this number may stand after the last file.
fn number_rises(last: Option<FileName>, domain: u32, number: u32) -> bool
    ensures { result ≡ format.number_rises last domain number }
{
    match last {
        None => true,
        Some((before, other)) => before < domain || other < number,
    }
}

/// The name of a file, which rises from that of the last one.
fn name(c: &mut Cursor<'_>, last: Option<FileName>) -> Result<FileName, StoreFault>
    requires { c.old.at ≤ length c.old.body.now }
    ensures fault { fault_of result ≡ first_in c.old.body.now
        (ruled_at c.old.at 4 (format.domain_rises last (spec.number c.old.body.now c.old.at))
        ∷ ruled_at (c.old.at + 4) 4
        (format.number_rises last (spec.number c.old.body.now c.old.at) (spec.number c.old.body.now (c.old.at + 4)))
        ∷ []) }
    ensures name { IfOk result
        (λ name. name ≡ (spec.number c.old.body.now c.old.at, spec.number c.old.body.now (c.old.at + 4))) }
    ensures moves { OnOk result (Moves c.old c.new (c.old.at + 8)) }
{
    let at = c.at as u64;
    let domain = c.number()?;
    if !domain_rises(last, domain) {
        return Err(StoreFault::Form(at));
    }
    let number = c.number()?;
    if !number_rises(last, domain, number) {
        return Err(StoreFault::Form(at + 4));
    }
    Ok((domain, number))
}

/// Adds a file of this name, and returns the count of its pages.
fn add(c: &mut Cursor<'_>, name: FileName, t: &mut FileTable) -> Result<u32, StoreFault>
    requires at { c.old.at ≤ length c.old.body.now }
    requires room { length t.old < 64 }
    ensures fault { fault_of result ≡ fault_in c.old.body.now
        (ruled_at c.old.at 4 (format.pages_fit (sum_by page_count t.old) (spec.number c.old.body.now c.old.at))) }
    ensures count { IfOk result (λ n. n ≡ spec.number c.old.body.now c.old.at) }
    ensures added { IfOk result (λ n. t.new ≡ t.old ++ new_file name.0 name.1 n ∷ []) }
    ensures moves { OnOk result (Moves c.old c.new (c.old.at + 4)) }
{
    let at = c.at as u64;
    let pages = c.number()?;
    let some = 1 <= pages && pages <= 1024;
    if !some || !t.add(name.0, name.1, pages) {
        return Err(StoreFault::Form(at));
    }
    Ok(pages)
}

/// Reads a file into the table, and returns its name.
fn read_file(
    c: &mut Cursor<'_>,
    last: Option<FileName>,
    t: &mut FileTable,
) -> Result<FileName, StoreFault>
    requires at { c.old.at ≤ length c.old.body.now }
    requires room { length t.old < 64 }
    ensures fault { fault_of result ≡ first_in c.old.body.now
        (file_fields c.old.body.now (record { last = last; pages = sum_by page_count t.old }) c.old.at) }
    ensures name { IfOk result
        (λ name. name ≡ (spec.number c.old.body.now c.old.at, spec.number c.old.body.now (c.old.at + 4))) }
    ensures table { OnOk result (t.new ≡ t.old ++ file_in c.old.body.now c.old.at ∷ []) }
    ensures moves { OnOk result (Moves c.old c.new (after_file c.old.body.now c.old.at)) }
{
    let file = t.count();
    let name = name(c, last)?;
    let pages = add(c, name, t)?;
    for i in 0..pages {
        let known = c.page()?;
        t.set_page(file, i, known);
    }
    Ok(name)
}

/// Reads n files into an empty table.
pub fn read_files(c: &mut Cursor<'_>, n: u32, t: &mut FileTable) -> Result<(), StoreFault>
    requires empty { t.old ≡ [] }
    requires few { n ≤ 64 }
    requires at { c.old.at ≤ length c.old.body.now }
    ensures fault { fault_of result ≡ first_in c.old.body.now
        (files_fields c.old.body.now n none_before c.old.at) }
    ensures table { OnOk result (t.new ≡ files_in c.old.body.now n c.old.at) }
    ensures moves { OnOk result (Moves c.old c.new (files_end c.old.body.now n c.old.at)) }
{
    let mut last = None;
    for _ in 0..n {
        last = Some(read_file(c, last, t)?);
    }
    Ok(())
}
