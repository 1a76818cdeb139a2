//! The files of an earlier run, as a run begins.
ghost use Rattle.std.specs.Prelude.{◌≡◌, ◌≤◌, ◌<◌, ℕ, List, All, length, slice_get};
ghost use Rattle.cloak_base.specs.declared.names.PageId.{PageId as AnyPage};
ghost use Rattle.cloak_base.specs.Pages.{with_page};
ghost use Rattle.cloak_model.specs.Beginning.{file_added, files_added};
ghost use Rattle.cloak_model.specs.Parts as parts;
ghost use Rattle.cloak_model.specs.StoredFiles.{StoredFile, FileContents, HasSealedPages, IsFile, IsTable, stored_file, table_of};
ghost use Rattle.protect_meta.specs.FileTable.{file_at};
ghost use Rattle.protect_meta.specs.Pages.{IsIn};
ghost use Rattle.protect_meta.specs.Table.{meta_at, domains_of};
ghost use Rattle.cloak_pager.specs.State.{IsFresh, held_in};
ghost use Rattle.cloak_pager.specs.Turns.{MetasTurn};
ghost use Rattle.cloaked_side.specs.Holding.{SameSize, domains_in};
ghost use Rattle.joint_machine.specs.Filing.{AddsTo, AreFreeUnshown, IsNewFile, KeepsOtherPages, StandsContinued, StandFiled, AreTwoFiles};
ghost use Rattle.joint_machine.specs.Programs.{AreNumbered};
ghost use Rattle.joint_machine.specs.Standing.{AreDomains};

use cloak_base::{Meta, PageId};
use cloak_pager::Pager;
use cloaked_side::Memory;
use hypercalls::Domain;
use protect_meta::FileTable;

/// The page goes on with the content of which this is known.
fn restore_page(pager: &mut Pager, q: PageId, known: Option<Meta>)
    requires page { IsIn (domains_of pager.old.table) q }
    requires fresh { IsFresh pager.old q }
    ensures state { MetasTurn pager.old pager.new (with_page (meta_at pager.old.table) q known) }
    ensures continues { StandsContinued pager.old pager.new q known }
{
    if let Some(m) = known {
        pager.restore(q, m);
    }
}

/// The pages of a resource go on with those of a file of the table.
fn restore_pages(pager: &mut Pager, domain: u32, resource: u32, files: &FileTable, file: u32)
    requires file { file < length files.now }
    requires pages { length (file_at files.now file).pages ≤ 1024 }
    requires domain { domain < domains_of pager.old.table }
    requires resource { resource < 16 }
    requires fresh { (q : AnyPage) → q.domain ≡ domain → q.resource ≡ resource → IsFresh pager.old q }
    ensures others { KeepsOtherPages domain resource pager.old pager.new }
    ensures go_on { StandFiled pager.old pager.new domain resource (file_at files.now file).pages }
{
    let (_, _, pages) = files.file(file);
    for page in 0..pages {
        let q = PageId {
            domain,
            resource,
            page,
        };
        restore_page(pager, q, files.page(file, page));
    }
}

/// A file of the table is added: it is made in its domain, and its pages go on with what is known of them. The error is a
/// domain that has no room for it.
fn add_file(
    domains: &mut [Domain],
    memory: &mut Memory,
    files: &FileTable,
    file: u32,
) -> Result<(), u32>
    requires file { file < length files.now }
    requires is_file { IsFile (file_at files.now file) }
    requires served { length domains.old ≡ domains_in memory.old }
    requires outside { (k : ℕ) → held_in memory.old.pager k ≡ None }
    requires is_new { IsNewFile domains.old (file_at files.now file) }
    requires unshown { AreFreeUnshown domains.old memory.old.pager }
    ensures size { SameSize memory.old memory.new }
    ensures outside { (k : ℕ) → held_in memory.new.pager k ≡ None }
    ensures numbered { AreNumbered domains.old → AreNumbered domains.new }
    ensures unshown { AreFreeUnshown domains.new memory.new.pager }
    ensures others { (f : StoredFile) → AreTwoFiles (file_at files.now file) f → IsNewFile domains.old f →
        IsNewFile domains.new f }
    ensures shadows { memory.new.shadows ≡ memory.old.shadows }
    ensures adds { (f : FileContents) (j : parts.Joint) → file_at files.now file ≡ stored_file f →
        HasSealedPages j.memory.ledger.keys f → AreDomains domains.old j.domains →
        AddsTo memory.old memory.new domains.new j result (file_added f j (slice_get j.domains f.domain)) }
{
    let (domain, number, pages) = files.file(file);
    if domain as usize >= domains.len() {
        return Err(domain);
    }
    let Ok(resource) = domains[domain as usize].add_file(number, pages) else {
        return Err(domain);
    };
    restore_pages(&mut memory.pager, domain, resource, files, file);
    Ok(())
}

/// The files of the table are added, in order. The error is the domain of the first one for which there is no room.
pub(crate) fn add_files(
    domains: &mut [Domain],
    memory: &mut Memory,
    files: &FileTable,
) -> Result<(), u32>
    requires table { IsTable files.now }
    requires served { length domains.old ≡ domains_in memory.old }
    requires outside { (k : ℕ) → held_in memory.old.pager k ≡ None }
    requires none_there { (f : StoredFile) → IsNewFile domains.old f }
    requires unshown { AreFreeUnshown domains.old memory.old.pager }
    ensures size { SameSize memory.old memory.new }
    ensures outside { (k : ℕ) → held_in memory.new.pager k ≡ None }
    ensures numbered { AreNumbered domains.old → AreNumbered domains.new }
    ensures shadows { memory.new.shadows ≡ memory.old.shadows }
    ensures adds { (contents : List FileContents) (j : parts.Joint) → files.now ≡ table_of contents →
        All (HasSealedPages j.memory.ledger.keys) contents → AreDomains domains.old j.domains →
        AddsTo memory.old memory.new domains.new j result (files_added contents j) }
{
    for file in 0..files.count() {
        add_file(domains, memory, files, file)?;
    }
    Ok(())
}
