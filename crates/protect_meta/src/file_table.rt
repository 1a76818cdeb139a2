//! A table of the cloaked files of all domains.
ghost use Rattle.std.specs.Prelude.{◌≡◌, ◌≤◌, ◌<◌, ◌+◌, ◌&&◌, ◌++◌, ◌∷◌, [], nat_lt, nat_le, length, take, drop, replicate, sum_by, slice_index_or, None, IfOk, if◌then◌else◌};
ghost use Rattle.cloak_model.specs.StoredFiles.{StoredFile, page_count};
ghost use Rattle.protect_meta.specs.FileTable.{file_at, with_meta};

use arrayvec::ArrayVec;
use cloak_base::{Meta, NoMemory};
use std::alloc::Global;
use std::marker::Model;

/// How many files a table has room for.
const FILES: usize = 64;

/// How many pages a table has room for.
const PAGES: u32 = 4096;

/// A file: domain and number, and which pages of the table are its own.
#[derive(Clone, Copy, Default)]
struct FileRow {
    domain: u32,
    number: u32,
    first: u32,
    count: u32,
}

/// The cloaked files of all domains, with what is known of each of their pages: what a store file tells. It has room for
/// 64 files with 4096 pages in all.
#[derive(Drop)]
pub struct FileTable {
    rows: ArrayVec<FileRow, FILES>,
    /// How many pages belong to files: the first ones.
    used: u32,
    pages: Vec<Option<Meta>>,
}

impl Model for FileTable {
    ghost use Rattle.std.specs.Prelude.{List};
    ghost use Rattle.cloak_model.specs.StoredFiles.{StoredFile};
    ghost use Rattle.protect_meta.specs.FileRows.{files_of, IsLaidOut};

    ghost Value = { List StoredFile };

    ghost view = { λ t. files_of t.rows.items t.pages.items };

    ghost invariant = { λ t. IsLaidOut t.rows.items t.used t.pages.items };
}

/// Of n pages from a place on nothing is known any more.
fn forget(pages: &mut [Option<Meta>], first: usize, n: usize)
    requires { first + n ≤ length pages.old }
    ensures { pages.new ≡ take first pages.old ++ (replicate n None ++ drop (first + n) pages.old) }
{
    pages[first..first + n].fill(None);
}

impl FileTable {
    /// Without files. The one call that takes memory.
    pub fn open(alloc: Global) -> Result<FileTable, NoMemory>
        ensures { IfOk result (λ t. t ≡ []) }
    {
        let pages = vec![in alloc; None; PAGES as usize]?;
        Ok(FileTable {
            rows: ArrayVec::new(),
            used: 0,
            pages,
        })
    }

    /// Adds a file whose pages were never shown, and returns whether there was room for it.
    pub fn add(&mut self, domain: u32, number: u32, pages: u32) -> bool
        ensures room { result ≡ nat_lt (length self.old) 64 && nat_le (sum_by page_count self.old + pages) 4096 }
        ensures added { self.new ≡ if result then self.old ++ record { domain = domain; number = number; pages = replicate pages None } ∷ [] else self.old }
    {
        if self.rows.is_full() || pages > PAGES - self.used {
            return false;
        }
        forget(&mut self.pages, self.used as usize, pages as usize);
        self.rows.push(FileRow {
            domain,
            number,
            first: self.used,
            count: pages,
        });
        self.used += pages;
        true
    }

    /// Sets what is known of a page of a file. Places are counted from 0.
    pub fn set_page(&mut self, file: u32, page: u32, m: Option<Meta>)
        requires file { file < length self.old }
        requires page { page < length (file_at self.old file).pages }
        ensures { self.new ≡ with_meta file page m self.old }
    {
        let row = self.rows.as_slice()[file as usize];
        self.pages[(row.first + page) as usize] = m;
    }

    /// How many files there are: at most 64, with at most 4096 pages.
    pub fn count(&self) -> u32
        ensures count { result ≡ length self.now }
        ensures few { result ≤ 64 }
        ensures few_pages { sum_by page_count self.now ≤ 4096 }
    {
        self.rows.len() as u32
    }

    /// Domain, number and count of pages of a file.
    pub fn file(&self, i: u32) -> (u32, u32, u32)
        requires { i < length self.now }
        ensures { result ≡ ((file_at self.now i).domain, (file_at self.now i).number, length (file_at self.now i).pages) }
    {
        let row = self.rows.as_slice()[i as usize];
        (row.domain, row.number, row.count)
    }

    /// What is known of a page of a file: nothing of one that was never shown.
    pub fn page(&self, file: u32, page: u32) -> Option<Meta>
        requires file { file < length self.now }
        requires page { page < length (file_at self.now file).pages }
        ensures { result ≡ slice_index_or (file_at self.now file).pages page None }
    {
        let row = self.rows.as_slice()[file as usize];
        let at = row.first + page;
        self.pages[at as usize]
    }

    /// Takes all files out.
    pub fn clear(&mut self)
        ensures { self.new ≡ [] }
    {
        self.rows.clear();
        self.used = 0;
    }
}
