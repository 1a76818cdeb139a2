//! A file is one resource.

use crate::checks::same;
use cloak_model::MapFault;
use cloaked_files::file_resource;
use resource_map::Resources;

/// The number of a file, its pages, and the answer.
static FILES: [(u32, u32, Result<u32, MapFault>, &str); 3] = [
    (4, 1, Ok(1), "a new file"),
    (4, 1, Ok(1), "the same file"),
    (4, 2, Err(MapFault::BadArg), "of another size"),
];

#[test]
fn answers(rt: HostRuntime) {
    let mut r = Resources::open(1, 0x0040_0000);
    for &(number, pages, answer, words) in &FILES {
        same(&rt, &file_resource(&mut r, number, pages), &answer, words);
    }
}
