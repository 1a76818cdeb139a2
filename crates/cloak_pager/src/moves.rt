ghost use Rattle.std.specs.Prelude.{◌≡◌, ◌≢◌, ℕ, ◌<◌};
ghost use Rattle.cloak_base.specs.declared.names.PageId.{PageId as AnyPage};

use crate::pager::Pager;

impl Pager {
    ghost use Rattle.protect_meta.specs.Table.{domains_of};
    ghost use Rattle.cloak_pager.specs.State.{IsNoneOwed, IsNoneHeld};
    ghost use Rattle.cloak_pager.specs.Turns.{CopiesPages, DropsPages};
    ghost use Rattle.cloak_pager.specs.Asking.{FollowsCallStill, after_copy_pages, after_drop_pages};

    /// Each page of resource `to` becomes a copy of the page of `from`: what was last shown of the one opens as the
    /// other.
    pub fn copy_pages(&mut self, domain: u32, from: u32, to: u32)
        requires domain { domain < domains_of self.old.table }
        requires from { from < 16 }
        requires to { to < 16 }
        requires shown { IsNoneOwed self.old domain from }
        requires away { IsNoneHeld self.old domain to }
        ensures state { CopiesPages self.old self.new domain from to }
        ensures model { FollowsCallStill self.old self.new tt (after_copy_pages domain from to) }
    {
        self.table.copy_range(domain, from, to);
    }

    /// The pages of the resource are as if they had never been shown.
    pub fn drop_pages(&mut self, domain: u32, resource: u32)
        requires domain { domain < domains_of self.old.table }
        requires resource { resource < 16 }
        requires away { IsNoneHeld self.old domain resource }
        ensures state { DropsPages self.old self.new domain resource }
        ensures model { FollowsCallStill self.old self.new tt (after_drop_pages domain resource) }
    {
        self.table.clear_range(domain, resource);
    }
}
