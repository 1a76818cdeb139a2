//! The numbers that a copy of a space takes.
ghost use Rattle.std.specs.Prelude.{◌≡◌, ◌<◌, ◌≤◌, All, filter, length, sum_by, zip, is_none};
ghost use Rattle.cloak_model.specs.Fork as fork;
ghost use Rattle.cloak_model.specs.Resources as spec;

use crate::held::{Held, free, is_private_to, marked, pages_of};
use arrayvec::ArrayVec;
use cloak_model::Region;

/// The numbers that are marked, rising.
fn numbers(marks: &[bool; 16]) -> ArrayVec<u32, 16>
    ensures value { result.items ≡ fork.places (λ mark. mark) 0 marks.now }
{
    let mut list = ArrayVec::new();
    for (n, mark) in marks.iter().enumerate() {
        if *mark {
            list.push(n as u32);
        }
    }
    list
}

/// The private resources of a space, rising.
pub fn private_numbers(space: u32, held: &Held) -> ArrayVec<u32, 16>
    ensures { result.items ≡ fork.places (spec.is_private_to space) 0 held.now }
{
    numbers(&marked(space, held))
}

/// The free numbers, rising.
pub fn free_numbers(held: &Held) -> ArrayVec<u32, 16>
    ensures { result.items ≡ fork.places is_none 0 held.now }
{
    numbers(&free(held))
}

/// Each of some numbers with the one of others that stands at its place.
pub fn pairs(froms: &[u32], tos: &[u32]) -> ArrayVec<(u32, u32), 16>
    requires { length froms.now ≤ 16 }
    ensures { result.items ≡ zip froms.now tos.now }
{
    let mut list = ArrayVec::new();
    for (from, to) in froms.iter().zip(tos) {
        list.push((*from, *to));
    }
    list
}

/// The pages of a space's private resources.
pub fn private_pages(space: u32, held: &Held) -> u64
    ensures value { result ≡ sum_by spec.pages_of (filter (spec.is_private_to space) held.now) }
    ensures few { result ≤ 68719476720 }
{
    let mut sum: u64 = 0;
    for one in held {
        if is_private_to(space, one) {
            sum += pages_of(one) as u64;
        }
    }
    sum
}

/// The number that stands for a resource in the new space: its copy's, if it has one.
fn copy_of(copies: &[(u32, u32)], n: u32) -> u32
    ensures { result ≡ fork.copy_of copies.now n }
{
    for (from, to) in copies {
        if *from == n {
            return *to;
        }
    }
    n
}

/// The region of the new space that stands for one of the old.
pub fn copied_region(copies: &[(u32, u32)], g: &Region) -> Region
    ensures { result ≡ fork.copied_region copies.now g.now }
{
    Region {
        resource: copy_of(copies, g.resource),
        ..*g
    }
}
