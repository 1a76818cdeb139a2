//! What the files of programs hold as a run ends.
ghost use Rattle.std.specs.Prelude.{◌≡◌, ◌≤◌, ◌<◌, ◌+◌, ◌*◌, ◌++◌, ◌∷◌, [], false, nat_lt, length, map, sum_by, All, AllPairs};
ghost use Rattle.cloak_model.specs.Parts as model;
ghost use Rattle.cloak_model.specs.StoredFiles.{StoredFile, IsMetaIfKnown, IsTable, Precedes, StandsForFiles, page_count, table_of};
ghost use Rattle.cloak_model.specs.StoredRun.{contents_of};
ghost use Rattle.protect_meta.specs.Table.{domains_of};
ghost use Rattle.joint_machine.specs.Storing.{HasLowerNumber, known_file, known_files, pages_at, place_before, places_of};
ghost use Rattle.joint_machine.specs.declared.storing.FilePlace.{FilePlace as AnyPlace};

use crate::joint::Joint;
use arrayvec::ArrayVec;
use cloak_base::{Meta, PageId};
use cloak_pager::Pager;
use hypercalls::Domain;
use protect_meta::FileTable;

/// A file of a domain: its resource, the number that the program chose, and how many pages it has.
#[derive(Clone, Copy, Debug, Default, PartialEq, Eq)]
pub struct FilePlace {
    pub resource: u32,
    pub number: u32,
    pub pages: u32,
}

/// The place of a file of this number among files by rising number: before the first one with a greater number.
fn place_among(files: &[FilePlace], number: u32) -> usize
    ensures { result ≡ place_before number files.now }
{
    for (i, f) in files.iter().enumerate() {
        if number < f.number {
            return i;
        }
    }
    files.len()
}

/// The files of a domain, by rising number.
fn files_of(domain: &Domain) -> ArrayVec<FilePlace, 16>
    ensures value { result.items ≡ places_of domain.now }
    ensures rise { AllPairs HasLowerNumber result.items }
    ensures some_pages { All (λ (f : AnyPlace). 1 ≤ f.pages) result.items }
    ensures inside { All (λ (f : AnyPlace). f.resource < 16) result.items }
    ensures few_pages { sum_by pages_at result.items ≤ 1024 }
{
    let mut files = ArrayVec::new();
    for k in 0..16 {
        let resource = 15 - k;
        if let Some((number, pages)) = domain.file(resource) {
            let place = place_among(files.as_slice(), number);
            files.insert(
                place,
                FilePlace {
                    resource,
                    number,
                    pages,
                },
            );
        }
    }
    files
}

/// Bytes are below 256. It does nothing: its contract is what the type says.
fn are_bytes(bytes: &[u8])
    ensures { All (λ b. b < 256) bytes.now }
{}

/// What is known of a page, if something is, is sixteen bytes and thirty-two. It does nothing.
fn is_meta(known: &Option<Meta>)
    ensures { IsMetaIfKnown known.now }
{
    if let Some(m) = known {
        are_bytes(&m.iv);
        are_bytes(&m.digest);
    }
}

/// Tells a file of a domain, with what is known of its pages.
fn store_file(pager: &Pager, domain: u32, f: &FilePlace, files: &mut FileTable)
    requires table { IsTable files.old }
    requires domain { domain < 4 }
    requires served { domain < domains_of pager.now.table }
    requires resource { f.now.resource < 16 }
    requires some_pages { 1 ≤ f.now.pages }
    requires few_pages { f.now.pages ≤ 1024 }
    requires follows { All (λ (g : StoredFile). Precedes g (known_file pager.now.table domain f.now)) files.old }
    requires room { length files.old < 64 }
    requires page_room { sum_by page_count files.old + f.now.pages ≤ 4096 }
    ensures table { IsTable files.new }
    ensures added { files.new ≡ files.old ++ known_file pager.now.table domain f.now ∷ [] }
{
    let file = files.count();
    files.add(domain, f.number, f.pages);
    for page in 0..f.pages {
        let q = PageId {
            domain,
            resource: f.resource,
            page,
        };
        let known = pager.meta(q);
        is_meta(&known);
        files.set_page(file, page, known);
    }
}

/// Tells files of a domain, by rising number.
fn store_places(pager: &Pager, number: u32, places: &[FilePlace], files: &mut FileTable)
    requires table { IsTable files.old }
    requires domain { number < 4 }
    requires served { number < domains_of pager.now.table }
    requires follows { All (λ (g : StoredFile). g.domain < number) files.old }
    requires room { length files.old ≤ 16 * number }
    requires page_room { sum_by page_count files.old ≤ 1024 * number }
    requires few { length places.now ≤ 16 }
    requires rise { AllPairs HasLowerNumber places.now }
    requires some_pages { All (λ (f : AnyPlace). 1 ≤ f.pages) places.now }
    requires inside { All (λ (f : AnyPlace). f.resource < 16) places.now }
    requires few_pages { sum_by pages_at places.now ≤ 1024 }
    ensures table { IsTable files.new }
    ensures added { files.new ≡ files.old ++ map (known_file pager.now.table number) places.now }
{
    for f in places {
        store_file(pager, number, f, files);
    }
}

/// Tells the files of a domain, by rising number.
fn store_domain(pager: &Pager, number: u32, domain: &Domain, files: &mut FileTable)
    requires table { IsTable files.old }
    requires domain { number < 4 }
    requires served { number < domains_of pager.now.table }
    requires follows { All (λ (g : StoredFile). g.domain < number) files.old }
    requires room { length files.old ≤ 16 * number }
    requires page_room { sum_by page_count files.old ≤ 1024 * number }
    ensures table { IsTable files.new }
    ensures added { files.new ≡ files.old ++ map (known_file pager.now.table number) (places_of domain.now) }
    ensures follows { All (λ (g : StoredFile). g.domain < number + 1) files.new }
    ensures room { length files.new ≤ 16 * (number + 1) }
    ensures page_room { sum_by page_count files.new ≤ 1024 * (number + 1) }
{
    let places = files_of(domain);
    store_places(pager, number, places.as_slice(), files);
}

/// Tells the files of all domains, in order.
fn store_domains(pager: &Pager, domains: &[Domain], files: &mut FileTable)
    requires empty { files.old ≡ [] }
    requires few { length domains.now ≤ 4 }
    requires served { length domains.now ≡ domains_of pager.now.table }
    ensures table { IsTable files.new }
    ensures tells { files.new ≡ known_files pager.now.table 0 domains.now }
{
    for (number, domain) in domains.iter().enumerate() {
        store_domain(pager, number as u32, domain, files);
    }
}

impl Joint {
    ghost use Rattle.joint_machine.specs.Standing.{AllOutside, StandsForJoint};

    /// Tells what the files of the programs hold, by domain and rising number, once each frame is as the kernel sees it.
    pub fn store_files(&self, files: &mut FileTable)
        requires empty { files.old ≡ [] }
        requires outside { AllOutside self.now }
        ensures table { IsTable files.new }
        ensures tells { (j : model.Joint) → StandsForJoint self.now j → files.new ≡ table_of (contents_of j) }
        ensures stands { (j : model.Joint) → StandsForJoint self.now j → j.memory.ledger.missed ≡ false →
            StandsForFiles j.memory.ledger.keys files.new (contents_of j) }
    {
        store_domains(&self.memory.pager, &self.domains, files);
    }
}
