//! What a program that runs alone is at a moment.
ghost use Rattle.std.specs.Prelude.{◌≡◌, ◌<◌, ℕ, List, None, IfSome, is_some, option_map};
ghost use Rattle.cloak_model.specs.Contexts.{context_at};
ghost use Rattle.cloak_model.specs.DomainAlone as spec;
ghost use Rattle.cloak_model.specs.Resources.{page_at, resource_at};

use crate::domain::{DomainAlone, DomainStage};
use cloak_base::PageId;
use plain_pages::page_place;
use thread_context::Context;

impl DomainAlone {
    ghost use Rattle.alone_views.specs.DomainStanding.{StandsForDomain, hart_at};
    ghost use Rattle.alone_views.specs.DomainMoments.{running_in};

    /// The number of the last step, 0 before the first.
    pub fn step(&self) -> u32
        ensures { (number : ℕ) (schedule : List ℕ) (s : spec.DomainAlone) →
            StandsForDomain number schedule self.now s → s.unfit ≡ None → result ≡ s.steps }
    {
        self.steps
    }

    /// The hart of the last step.
    pub fn turn(&self) -> u32
        ensures { (number : ℕ) (schedule : List ℕ) (s : spec.DomainAlone) →
            StandsForDomain number schedule self.now s → s.unfit ≡ None → result ≡ hart_at schedule s.steps }
    {
        self.hart()
    }

    /// The slot of the context whose step is open, and does not have its items.
    pub fn running(&self) -> Option<u32>
        ensures { (number : ℕ) (schedule : List ℕ) (s : spec.DomainAlone) →
            StandsForDomain number schedule self.now s → s.unfit ≡ None → result ≡ running_in s.stage }
    {
        match self.stage {
            DomainStage::Running { slot, .. } => Some(slot),
            DomainStage::Between => None,
            DomainStage::Other => None,
            DomainStage::Done => None,
            DomainStage::Stopped => None,
        }
    }

    /// The context of a slot, none exactly if the slot is free or above 7.
    pub fn slot_context(&self, slot: u32) -> Option<&Context>
        ensures below_eight { IfSome result (λ c. slot < 8) }
        ensures value { (number : ℕ) (schedule : List ℕ) (s : spec.DomainAlone) →
            StandsForDomain number schedule self.now s → s.unfit ≡ None →
            option_map (λ c. c.now) result ≡ context_at s.part.domain.control.contexts slot }
    {
        self.domain.slot_context(slot)
    }

    /// The page at an address of a space, none exactly if the address is not cloaked there.
    pub fn space_page(&self, space: u32, address: u32) -> Option<PageId>
        ensures value { (number : ℕ) (schedule : List ℕ) (s : spec.DomainAlone) →
            StandsForDomain number schedule self.now s → s.unfit ≡ None →
            result ≡ page_at s.part.domain.control.number s.part.domain.control.resources space address }
        ensures resource { IfSome result (λ q. q.resource < 16) }
        ensures page { IfSome result (λ q. q.page < 1024) }
    {
        self.domain.space_page(space, address)
    }

    /// There is a resource of this number.
    pub fn has_resource(&self, resource: u32) -> bool
        ensures { (number : ℕ) (schedule : List ℕ) (s : spec.DomainAlone) →
            StandsForDomain number schedule self.now s → s.unfit ≡ None →
            result ≡ is_some (resource_at s.part.domain.control.resources resource) }
    {
        self.domain.pages(resource).is_some()
    }

    /// The bytes of a page.
    pub fn page(&self, q: PageId) -> &[u8; 4096]
        requires resource { q.resource < 16 }
        requires page { q.page < 1024 }
        ensures { (number : ℕ) (schedule : List ℕ) (s : spec.DomainAlone) →
            StandsForDomain number schedule self.now s → s.unfit ≡ None →
            result.now ≡ s.part.plain q.resource q.page }
    {
        self.side.pages.at(page_place(q))
    }
}
