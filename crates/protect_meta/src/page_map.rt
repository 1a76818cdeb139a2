ghost use Rattle.std.specs.Prelude.{◌≡◌, ◌*◌, ◌+◌, ◌<◌, ◌≤◌, IfOk};
ghost use Rattle.cloak_base.specs.declared.names.PageId.{PageId};
ghost use Rattle.cloak_base.specs.Pages.{with_page, with_resource, with_copied};
ghost use Rattle.protect_meta.specs.Pages.{IsIn, page_index};
ghost use Rattle.protect_meta.specs.PageRow.{HasValues, at_page};

use cloak_base::{NoMemory, PageId};
use std::alloc::Global;
use std::marker::Model;

/// A value for each page of each domain that has one.
#[derive(Drop)]
pub struct PageMap<T: Copy> {
    domains: u32,
    row: Vec<Option<T>>,
}

impl<T: Copy> Model for PageMap<T> {
    ghost use Rattle.std.specs.Prelude.{◌≡◌, ◌*◌, length};
    ghost use Rattle.protect_meta.specs.PageRow.{PageRow};

    ghost Value = { PageRow T };

    ghost view = { λ t. record { domains = t.domains; row = t.row.items } };

    ghost invariant = { λ t. length t.row.items ≡ t.domains * 16384 };
}

/// Where a page's value stands.
#[inline]
fn page_index(domain: u32, resource: u32, page: u32) -> usize
    ensures { result ≡ page_index domain resource page }
{
    (domain as usize * 16 + resource as usize) * 1024 + page as usize
}

impl<T: Copy> PageMap<T> {
    /// The one call that takes memory.
    pub fn open(alloc: Global, domains: u32) -> Result<PageMap<T>, NoMemory>
        requires { domains ≤ 4 }
        ensures empty { IfOk result (λ t. (p : PageId) → at_page t p ≡ None) }
        ensures domains { IfOk result (λ t. t.domains ≡ domains) }
    {
        let row = vec![in alloc; None; domains as usize * 16384]?;
        Ok(PageMap { domains, row })
    }

    #[inline]
    pub fn get(&self, q: PageId) -> Option<T>
        requires page { IsIn self.now.domains q }
        ensures { result ≡ at_page self.now q }
    {
        self.row[page_index(q.domain, q.resource, q.page)]
    }

    pub fn set(&mut self, q: PageId, value: T)
        requires page { IsIn self.old.domains q }
        ensures { HasValues self.old self.new (with_page (at_page self.old) q (Some value)) }
    {
        let at = page_index(q.domain, q.resource, q.page);
        self.row[at] = Some(value);
    }

    /// Each page of resource `to` gets what its page in `from` has, or none.
    pub fn copy_range(&mut self, domain: u32, from: u32, to: u32)
        requires domain { domain < self.old.domains }
        requires from { from < 16 }
        requires to { to < 16 }
        ensures { HasValues self.old self.new (with_copied (at_page self.old) domain from to) }
    {
        let first = page_index(domain, from, 0);
        self.row
            .copy_within(first..first + 1024, page_index(domain, to, 0));
    }

    /// No page of the resource has a value any more.
    pub fn clear_range(&mut self, domain: u32, resource: u32)
        requires domain { domain < self.old.domains }
        requires resource { resource < 16 }
        ensures { HasValues self.old self.new (with_resource (at_page self.old) domain resource None) }
    {
        let first = page_index(domain, resource, 0);
        for i in 0..1024 {
            self.row[first + i] = None;
        }
    }
}
