//! Resources are made of what was read of them, one space, one resource and one region after another.
ghost use Rattle.std.specs.Prelude.{◌≡◌, ◌↔◌, ◌≤◌, ℕ, true, None, Some, [], map, replicate, IsTrue};
ghost use Rattle.cloak_model.specs.Resources as spec;
ghost use Rattle.cloak_model.specs.Resources.{regions_in, with_regions};
ghost use Rattle.frozen_state.specs.Limits.{IsSpace};
ghost use Rattle.resource_map.specs.Kept.{IsInUse, IsSound};
ghost use Rattle.resource_map.specs.Owning.{MayOwn, SameSpaces};
ghost use Rattle.domain_page.specs.Making.{emptied, CanPut, CanHold, CanMap, CanMapAll};

use crate::region_list::RegionList;
use cloak_model::{Owner, Region, Resource};
use resource_map::Resources;

/// The spaces that are in use are opened, without their regions.
fn opened(spaces: &[Option<RegionList>; 8]) -> Resources
    ensures { result ≡ record { held = replicate 16 None; spaces = map emptied spaces.now } }
{
    let mut r = Resources::empty();
    for space in 0..8 {
        if spaces[space as usize].is_some() {
            r.open_space(space);
        }
    }
    r
}

/// A private resource is of a space in use, and a file is not there yet.
fn may_own(r: &Resources, owner: Owner) -> bool
    ensures { IsTrue result ↔ MayOwn owner r.now }
{
    match owner {
        Owner::Space(space) => r.has_space(space),
        Owner::File(number) => r.file(number).is_none(),
    }
}

/// The resource can be put beside others that have this many pages.
fn can_put(r: &Resources, held: &Resource, pages: u32) -> bool
    requires pages { pages ≡ spec.all_pages r.now }
    requires few { pages ≤ 1024 }
    ensures { IsTrue result ↔ CanPut r.now held.now }
{
    held.pages >= 1 && held.pages <= 1024 - pages && may_own(r, held.owner)
}

/// Puts resources at their numbers. False if one of them cannot be put.
fn put_all(r: &mut Resources, held: &[Option<Resource>; 16]) -> bool
    requires { r.old.held ≡ replicate 16 None }
    ensures put { result ≡ true → r.new ≡ record r.old { held = held.now } }
    ensures can { CanHold r.old held.now → result ≡ true }
{
    let mut pages = 0;
    for n in 0..16 {
        if let Some(one) = &held[n as usize] {
            if !can_put(r, one, pages) {
                return false;
            }
            pages += one.pages;
            r.put_resource(n, one.owner, one.pages);
        }
    }
    true
}

/// Maps regions into a space. False if one of them cannot be mapped.
fn map_all(r: &mut Resources, space: u32, regions: &[Region]) -> bool
    requires { IsInUse r.old space }
    ensures can { regions_in r.old space ≡ [] → CanMap r.old space regions.now → result ≡ true }
    ensures maps { regions_in r.old space ≡ [] → CanMap r.old space regions.now →
        r.new ≡ with_regions space regions.now r.old }
    ensures spaces { SameSpaces r.old r.new }
{
    for g in regions {
        if r.map(space, *g).is_err() {
            return false;
        }
    }
    true
}

/// Maps the regions of all spaces. False if one of them cannot be mapped.
fn map_spaces(r: &mut Resources, spaces: &[Option<RegionList>; 8]) -> bool
    requires { r.old.spaces ≡ map emptied spaces.now }
    ensures can { CanMapAll r.old spaces.now → result ≡ true }
    ensures maps { CanMapAll r.old spaces.now → r.new ≡ record r.old { spaces = spaces.now } }
{
    for space in 0..8 {
        if let Some(list) = &spaces[space as usize] {
            if !map_all(r, space, list.as_slice()) {
                return false;
            }
        }
    }
    true
}

/// The resources with these numbers and these spaces, if they are sound. If they are not, it is none or any others.
pub fn resources_of(
    held: &[Option<Resource>; 16],
    spaces: &[Option<RegionList>; 8],
) -> Option<Resources>
    ensures { (r : spec.Resources) → r.held ≡ held.now → r.spaces ≡ spaces.now → IsSound r →
        ((space : ℕ) → IsSpace (regions_in r space)) → result ≡ Some r }
{
    let mut r = opened(spaces);
    if put_all(&mut r, held) && map_spaces(&mut r, spaces) {
        Some(r)
    } else {
        None
    }
}
