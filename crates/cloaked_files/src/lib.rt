//! The cloaked files of a domain (this project's rules, `docs/MACHINE.md`): a file is a resource under a number that
//! the program chooses, and every space of the domain may map it.
//!
//! The definition is `cloak_model`, `specs/Files`. A file is made when it is first asked for, has the size that was
//! asked for then, and stays when the spaces end. What stands in its pages is no matter of this crate.
#![tactic(auto)]

ghost use Rattle.std.specs.Prelude.{◌≡◌};
ghost use Rattle.cloak_model.specs.Files as spec;
ghost use Rattle.resource_map.specs.Owning.{SameSpaces};

use cloak_model::{MapFault, Owner};
use resource_map::Resources;

/// The resource of a file, which is made if the domain has none of this number. `BadArg` if the file has another size,
/// and for a new file if the size is 0 or above 1024; `Full` if a new file has no number left, or if the domain's pages
/// with these are more than 1024. A refusal changes nothing.
#[tactic(auto, unfolding(cloak_model::specs::Files::file_resource, cloak_model::specs::Files::file_found))]
pub fn file_resource(r: &mut Resources, number: u32, pages: u32) -> Result<u32, MapFault>
    ensures value { record { answer = result; resources = r.new } ≡ spec.file_resource number pages r.old }
    ensures spaces { SameSpaces r.old r.new }
{
    let Some(n) = r.file(number) else {
        return r.new_owned(Owner::File(number), pages);
    };
    match r.resource(n) {
        Some((_, size)) if size == pages => Ok(n),
        _ => Err(MapFault::BadArg),
    }
}
