//! What is asked of all resources of a domain.
ghost use Rattle.std.specs.Prelude.{◌≡◌, ◌<◌, ◌≤◌, length, map, position, sum_by, IfSome, is_none};
ghost use Rattle.cloak_model.specs.Files as files;
ghost use Rattle.cloak_model.specs.Fork as fork;
ghost use Rattle.cloak_model.specs.Resources as spec;

use cloak_model::{Owner, Resource};

/// The 16 numbers, each free or a resource.
pub type Held = [Option<Resource>; 16];

/// The pages of a number: 0 if it is free.
pub fn pages_of(held: &Option<Resource>) -> u32
    ensures { result ≡ spec.pages_of held.now }
{
    match held {
        Some(held) => held.pages,
        None => 0,
    }
}

/// The pages of all resources.
pub fn all_pages(held: &Held) -> u64
    ensures value { result ≡ sum_by spec.pages_of held.now }
    ensures few { result ≤ 68719476720 }
{
    let mut sum: u64 = 0;
    for one in held {
        sum += pages_of(one) as u64;
    }
    sum
}

/// The lowest place that is free.
pub fn first_free<T>(places: &[Option<T>]) -> Option<usize>
    ensures value { result ≡ spec.first_free places.now }
    ensures inside { IfSome result (λ n. n < length places.now) }
{
    places.iter().position(|one| one.is_none())
}

/// A space may map what this one owns.
fn is_shared_with(space: u32, owner: &Owner) -> bool
    ensures { result ≡ spec.is_shared_with space owner.now }
{
    match owner {
        Owner::Space(number) => *number == space,
        Owner::File(_) => true,
    }
}

/// The size of a resource that a space may map.
pub fn size_for(space: u32, held: &Option<Resource>) -> Option<u32>
    ensures { result ≡ spec.size_for space held.now }
{
    match held {
        Some(held) if is_shared_with(space, &held.owner) => Some(held.pages),
        _ => None,
    }
}

/// There is a resource, and it is private to a space.
pub fn is_private_to(space: u32, held: &Option<Resource>) -> bool
    ensures { result ≡ spec.is_private_to space held.now }
{
    match held {
        Some(
            Resource {
                owner: Owner::Space(number),
                ..
            },
        ) => *number == space,
        _ => false,
    }
}

/// There is a resource, and it is the file of this number.
fn holds_file(number: u32, held: &Option<Resource>) -> bool
    ensures { result ≡ files.holds_file number held.now }
{
    match held {
        Some(
            Resource {
                owner: Owner::File(file),
                ..
            },
        ) => *file == number,
        _ => false,
    }
}

/// The resource of a file.
pub fn file(held: &Held, number: u32) -> Option<usize>
    ensures value { result ≡ position (files.holds_file number) held.now }
    ensures inside { IfSome result (λ n. n < 16) }
{
    held.iter().position(|one| holds_file(number, one))
}

/// What is left of a number when a space ends.
fn without_space(space: u32, held: Option<Resource>) -> Option<Resource>
    ensures { result ≡ spec.without_space space held }
{
    if is_private_to(space, &held) {
        None
    } else {
        held
    }
}

/// The numbers without the private resources of a space.
pub fn without_private(space: u32, held: &Held) -> Held
    ensures { result ≡ map (spec.without_space space) held.now }
{
    held.map(|one| without_space(space, one))
}

/// Which numbers are private resources of a space.
pub fn marked(space: u32, held: &Held) -> [bool; 16]
    ensures { result ≡ map (spec.is_private_to space) held.now }
{
    held.map(|one| is_private_to(space, &one))
}

/// Which numbers are free.
pub fn free(held: &Held) -> [bool; 16]
    ensures { result ≡ map is_none held.now }
{
    held.map(|one| one.is_none())
}
