//! The cloaked files with which a program begins.
ghost use Rattle.std.specs.Prelude.{◌<◌, ℕ, List, IfOk};
ghost use Rattle.cloak_model.specs.DomainAlone as spec;
ghost use Rattle.cloak_model.specs.Files as rule;
ghost use Rattle.cloak_model.specs.Parts.{DomainPart};

use crate::domain::DomainAlone;
use cloak_base::PageId;
use cloak_model::MapFault;
use plain_pages::page_place;

impl DomainAlone {
    ghost use Rattle.alone_views.specs.DomainBeginning.{AddsFile, BeginsWith};

    /// The program has a file of this number and size before its first item, by the rule of the hypercall FILE. Returns
    /// the number of the file's resource. A refusal changes nothing.
    pub fn add_file(&mut self, number: u32, pages: u32) -> Result<u32, MapFault>
        ensures adds { (d : ℕ) (schedule : List ℕ) (p : DomainPart) → BeginsWith d schedule self.old p →
            AddsFile d schedule self.new result p (rule.file_resource number pages p.domain.control.resources) }
        ensures inside { IfOk result (λ n. n < 16) }
    {
        self.domain.add_file(number, pages)
    }

    /// A page of the program has these bytes before its first item.
    pub fn set_page(&mut self, resource: u32, page: u32, bytes: &[u8; 4096])
        requires resource { resource < 16 }
        requires page { page < 1024 }
        ensures { (d : ℕ) (schedule : List ℕ) (p : DomainPart) → BeginsWith d schedule self.old p →
            BeginsWith d schedule self.new
            (record p { plain = spec.with_bytes_of resource page bytes.now p.plain }) }
    {
        let q = PageId {
            domain: self.side.domain,
            resource,
            page,
        };
        self.side.pages.set(page_place(q), bytes);
    }
}
