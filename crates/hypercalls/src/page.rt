//! A domain as a page of its state, and back; and what else is asked of a domain that is thawed.
ghost use Rattle.std.specs.Prelude.{◌≡◌, ◌↔◌, ◌<◌, [], IsTrue, IfSome, MatchOption, option_map};
ghost use Rattle.cloak_model.specs.declared.resource.Resource.{Resource};
ghost use Rattle.cloak_model.specs.DomainState as model;
ghost use Rattle.cloak_model.specs.Resources.{resource_at};
ghost use Rattle.frozen_state.specs.DomainPage.{domain_page, IsPageOf};
ghost use Rattle.resource_map.specs.Kept.{IsInUse};
ghost use Rattle.hypercalls.specs.Paging.{IsReadAs};

use crate::control::Control;
use crate::domain::Domain;
use crate::loads::Loads;
use domain_page::{ProgramParts, read_page, write_page};

impl Control {
    /// The page of these contexts and resources.
    fn state(&self, into: &mut [u8; 4096])
        ensures { into.new ≡ domain_page self.now }
    {
        write_page(&self.contexts, &self.resources, into);
    }

    /// What has this page, with a number and with what is told of its end; none exactly if no program has the page.
    fn from_state(number: u32, ended: bool, b: &[u8; 4096]) -> Option<Control>
        requires { number < 4 }
        ensures { MatchOption result ((d : model.Control) → IsPageOf number b.now d → ⊥) (IsReadAs number ended b.now) }
    {
        let ProgramParts {
            contexts,
            resources,
        } = read_page(b)?;
        Some(Control {
            number,
            contexts,
            resources,
            ended,
            reserved: true,
        })
    }

    /// The pages of a resource.
    fn resource_pages(&self, n: u32) -> Option<u32>
        ensures { result ≡ option_map (λ (held : Resource). held.pages) (resource_at self.now.resources n) }
    {
        let (_, pages) = self.resources.resource(n)?;
        Some(pages)
    }

    fn has_space(&self, space: u32) -> bool
        ensures { IsTrue result ↔ IsInUse self.now.resources space }
    {
        self.resources.has_space(space)
    }
}

impl Domain {
    ghost use Rattle.hypercalls.specs.Standing.{StandsFor, control_of, number_of};

    /// Writes the page of the domain's state: contexts, spaces, resources and reservations. It tells neither the number of
    /// the domain, nor whether it has ended, nor its loads.
    pub fn state(&self, into: &mut [u8; 4096])
        ensures { into.new ≡ domain_page (control_of self.now) }
    {
        self.control.state(into);
    }

    /// The domain with this page, which has ended or not, and has completed no load. None exactly if there is no program
    /// with this page that keeps the limits.
    pub fn from_state(number: u32, ended: bool, b: &[u8; 4096]) -> Option<Domain>
        requires { number < 4 }
        ensures reads { MatchOption result ((d : model.Control) → IsPageOf number b.now d → ⊥)
            (λ domain. IsReadAs number ended b.now (control_of domain)) }
        ensures stands { IfSome result (λ domain. StandsFor domain (record { control = control_of domain; loads = [] })) }
        ensures one { IfSome result (λ domain. (d : model.Control) → IsPageOf number b.now d →
            StandsFor domain (record { control = record d { ended = ended }; loads = [] })) }
    {
        Some(Domain {
            control: Control::from_state(number, ended, b)?,
            loads: Loads::new(),
        })
    }

    /// The pages of a resource, none exactly if its number is free or above 15.
    pub fn pages(&self, resource: u32) -> Option<u32>
        ensures { result ≡ option_map (λ (held : Resource). held.pages)
            (resource_at (control_of self.now).resources resource) }
    {
        self.control.resource_pages(resource)
    }

    /// The space is in use.
    pub fn has_space(&self, space: u32) -> bool
        ensures { IsTrue result ↔ IsInUse (control_of self.now).resources space }
    {
        self.control.has_space(space)
    }
}
