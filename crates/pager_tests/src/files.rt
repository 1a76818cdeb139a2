//! A table of cloaked files, from the call that takes its memory on.

use crate::checks::same;
use cloak_base::{Meta, NoMemory};
use protect_meta::FileTable;

#[test]
fn a_table_opens_and_keeps_a_file(rt: HostRuntime) -> Result<(), NoMemory> {
    let meta = Meta {
        iv: [1; 16],
        digest: [2; 32],
    };
    let mut table = FileTable::open(rt.alloc())?;
    same(&rt, &table.add(3, 7, 2), &true, "added");
    table.set_page(0, 1, Some(meta));
    same(&rt, &table.count(), &1, "how many files");
    let (domain, number, pages) = table.file(0);
    same(&rt, &domain, &3, "domain");
    same(&rt, &number, &7, "number");
    same(&rt, &pages, &2, "pages");
    same(&rt, &table.page(0, 0), &None, "fresh");
    same(&rt, &table.page(0, 1), &Some(meta), "shown");
    table.clear();
    same(&rt, &table.count(), &0, "cleared");
    Ok(())
}
