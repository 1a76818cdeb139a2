//! Which page of a domain lies at an address.
ghost use Rattle.std.specs.Prelude.{◌≡◌, ◌<◌, is_some, IfSome, IsSome};
ghost use Rattle.cloak_model.specs.World.{World, HasPage};
ghost use Rattle.cloak_model.specs.AskPages.{HasPages};
ghost use Rattle.cloak_model.specs.Resources as spec;

use crate::resources::Resources;
use cloak_base::PageId;

/// The page of a domain at an address of a space.
#[tactic(auto, unfolding(cloak_model::specs::Resources::page_at))]
pub fn page_at(r: &Resources, domain: u32, space: u32, va: u32) -> Option<PageId>
    ensures value { result ≡ spec.page_at domain r.now space va }
    ensures cloaked { is_some result ≡ is_some (spec.lookup r.now space va) }
    ensures domain { IfSome result (λ q. q.domain ≡ domain) }
    ensures resource { IfSome result (λ q. q.resource < 16) }
    ensures page { IfSome result (λ q. q.page < 1024) }
    ensures in_use { IfSome result (λ q. IsSome (spec.resource_at r.now q.resource)) }
    ensures lies { IfSome result (λ q. (w : World) → HasPages domain r.now space w → HasPage va q w) }
{
    let (resource, page) = r.lookup(space, va)?;
    Some(PageId {
        domain,
        resource,
        page,
    })
}
