//! Calls in a row, with the answers that the rules of a program's calls give.

use crate::checks::{holds, same};
use resource_map::{MapFault, Owner, Region, Resources};
use std::process::Abort;

/// Where the program of a test lies.
const BASE: u32 = 0x0040_0000;

fn region(resource: u32, start: u32, first: u32, pages: u32) -> Region {
    Region {
        start,
        pages,
        resource,
        first,
    }
}

/// The number of pages that a new resource shall have, and the answer.
static SIZES: [(u32, Result<u32, MapFault>); 5] = [
    (0, Err(MapFault::BadArg)),
    (1025, Err(MapFault::BadArg)),
    (1024, Err(MapFault::Full)),
    (1023, Ok(1)),
    (1, Err(MapFault::Full)),
];

fn make_each(rt: &impl Abort, r: &mut Resources) {
    for &(pages, answer) in &SIZES {
        holds(rt, r.has_space(0), "the space is used");
        same(rt, &r.new_resource(0, pages), &answer, pages);
    }
}

/// Resource, start, first page and number of pages of a region, and the answer.
static REGIONS: [([u32; 4], Result<(), MapFault>, &str); 9] = [
    ([9, 0x1001, 0, 0], Err(MapFault::NotFound), "no resource"),
    ([1, 0x1001, 0, 1], Err(MapFault::BadArg), "no page"),
    (
        [1, BASE, 0, 0],
        Err(MapFault::BadArg),
        "no pages, over the program",
    ),
    (
        [1, 0xffff_f000, 0, 2],
        Err(MapFault::BadArg),
        "past the last address",
    ),
    (
        [1, 0x1000, 1, 1023],
        Err(MapFault::BadArg),
        "past the resource",
    ),
    (
        [1, BASE - 0x1000, 0, 2],
        Err(MapFault::Overlap),
        "over the program",
    ),
    ([1, 0x1000, 1021, 2], Ok(()), "its last two pages"),
    ([1, 0xffff_f000, 0, 1], Ok(()), "at the last page"),
    (
        [1, 0x2000, 0, 1],
        Err(MapFault::Overlap),
        "over the first of them",
    ),
];

fn map_each(rt: &impl Abort, r: &mut Resources) {
    for &([resource, start, first, pages], answer, words) in &REGIONS {
        holds(rt, r.has_space(0), "the space is used");
        let g = region(resource, start, first, pages);
        same(rt, &r.map(0, g), &answer, words);
    }
}

/// Addresses, and the pages that lie there.
static PLACES: [(u32, Option<(u32, u32)>); 7] = [
    (0xfff, None),
    (0x1000, Some((1, 1021))),
    (0x2fff, Some((1, 1022))),
    (0x3000, None),
    (BASE + 0xfff, Some((0, 0))),
    (BASE + 0x1000, None),
    (0xffff_ffff, Some((1, 0))),
];

fn look_up_each(rt: &impl Abort, r: &Resources) {
    for &(va, place) in &PLACES {
        same(rt, &(r.lookup(0, va), r.lookup(1, va)), &(place, None), va);
    }
}

/// Starts of regions to unmap in a row, and the answers.
static STARTS: [(u32, Result<(), MapFault>); 4] = [
    (0x5000, Err(MapFault::NotFound)),
    (0x2000, Err(MapFault::NotFound)),
    (0x1000, Ok(())),
    (0x1000, Err(MapFault::NotFound)),
];

fn unmap_each(rt: &impl Abort, r: &mut Resources) {
    for &(start, answer) in &STARTS {
        holds(rt, r.has_space(0), "the space is used");
        same(rt, &r.unmap(0, start), &answer, start);
    }
}

#[test]
fn makes_and_maps(rt: HostRuntime) {
    let mut r = Resources::open(1, BASE);
    make_each(&rt, &mut r);
    map_each(&rt, &mut r);
    look_up_each(&rt, &r);
    unmap_each(&rt, &mut r);
    for (i, left) in [
        Some(region(0, BASE, 0, 1)),
        Some(region(1, 0xffff_f000, 0, 1)),
        None,
    ]
    .iter()
    .enumerate()
    {
        same(&rt, &r.region(0, i as u32), left, i);
    }
    same(
        &rt,
        &r.resource(1),
        &Some((Owner::Space(0), 1023)),
        "resource 1",
    );
}

/// Numbers and regions have a limit of 16, whatever pages are left.
#[test]
fn fills(rt: HostRuntime) {
    let mut r = Resources::open(1, BASE);
    for n in 1..16 {
        holds(&rt, r.has_space(0), "the space is used");
        same(&rt, &r.new_resource(0, 1), &Ok(n), n);
        holds(&rt, r.has_space(0), "the space is used");
        same(&rt, &r.map(0, region(n, n * 0x1000, 0, 1)), &Ok(()), n);
    }
    holds(&rt, r.has_space(0), "the space is used");
    same(
        &rt,
        &r.new_resource(0, 1),
        &Err(MapFault::Full),
        "a seventeenth resource",
    );
    holds(&rt, r.has_space(0), "the space is used");
    same(
        &rt,
        &r.map(0, region(1, 0x1000, 0, 1)),
        &Err(MapFault::Overlap),
        "over a region",
    );
    holds(&rt, r.has_space(0), "the space is used");
    same(
        &rt,
        &r.map(0, region(1, 0x8000_0000, 0, 1)),
        &Err(MapFault::Full),
        "a seventeenth region",
    );
}

/// What one domain takes is none of another's.
#[test]
fn two_domains_have_limits_of_their_own(rt: HostRuntime) {
    let mut one = Resources::open(1, BASE);
    let mut other = Resources::open(1, BASE);
    same(&rt, &one.new_resource(0, 1023), &Ok(1), "one domain");
    same(&rt, &other.new_resource(0, 1023), &Ok(1), "another domain");
}

/// A space with two private resources and a file is copied, and then ends.
#[test]
fn copies_and_drops(rt: HostRuntime) {
    let mut r = Resources::open(3, BASE);
    same(&rt, &r.file(7), &None, "no file yet");
    holds(&rt, r.has_space(0), "the space is used");
    if r.file(7).is_none() {
        same(&rt, &r.new_owned(Owner::File(7), 2), &Ok(1), "a file");
    }
    same(&rt, &r.new_resource(0, 4), &Ok(2), "a resource");
    for n in 1..3 {
        holds(&rt, r.has_space(0), "the space is used");
        same(&rt, &r.map(0, region(n, n * 0x10000, 1, 1)), &Ok(()), n);
    }
    same(
        &rt,
        &r.copies(0).as_slice(),
        &[(0, 3), (2, 4)].as_slice(),
        "copies",
    );
    same(
        &rt,
        &r.private_numbers(0).as_slice(),
        &[0, 2].as_slice(),
        "private resources",
    );
    same(&rt, &r.free_space(), &Some(1), "a free space");
    holds(&rt, r.has_space(0), "the space is used");
    holds(&rt, r.has_room_for_copy(0), "room for a copy");
    if let Some(new) = r.free_space() {
        r.copy_space(0, new);
    }
    for (space, froms) in [(0, [1, 2, 0]), (1, [1, 4, 3])] {
        for (i, n) in froms.iter().enumerate() {
            same(
                &rt,
                &r.region(space, i as u32).map(|g| g.resource),
                &Some(*n),
                space,
            );
        }
    }
    holds(&rt, r.has_space(0), "the space is used");
    r.drop_space(0);
    holds(&rt, !r.has_space(0), "the space is gone");
    for (n, held) in [
        (0, None),
        (1, Some((Owner::File(7), 2))),
        (2, None),
        (3, Some((Owner::Space(1), 3))),
        (4, Some((Owner::Space(1), 4))),
        (5, None),
    ] {
        same(&rt, &r.resource(n), &held, n);
    }
    same(
        &rt,
        &r.marked(1).iter().filter(|mark| **mark).count(),
        &2,
        "resources of the copy",
    );
}

/// A space that was opened is empty.
#[test]
fn opens_a_space(rt: HostRuntime) {
    let mut r = Resources::open(1, BASE);
    if let Some(space) = r.free_space() {
        r.open_space(space);
        same(&rt, &r.region(space, 0), &None, "no region");
        same(&rt, &r.new_resource(space, 1), &Ok(1), "a resource");
        same(
            &rt,
            &r.map(0, region(1, 0, 0, 1)),
            &Err(MapFault::NotFound),
            "a resource of another space",
        );
    }
    holds(&rt, r.has_space(1), "a space");
}
