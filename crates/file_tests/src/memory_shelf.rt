//! Files in memory.

use crate::checks::same;
use io_traits::{MemoryShelf, Shelf};
use std::test::Fail;

/// With ample memory only the call fails whose number is in the list.
#[test]
fn files_take_their_pieces(rt: HostRuntime) -> Result<(), Fail> {
    let mut shelf = MemoryShelf::open(rt.alloc(), vec![in rt.alloc(); 5]?);
    shelf.add("a", b"old")?;
    shelf.begin("b")?;
    for (call, (name, piece)) in [("a", "one"), ("b", "two"), ("c", "three"), ("b", "six")]
        .iter()
        .enumerate()
    {
        same(
            &rt,
            &shelf.append(name, piece.as_bytes()).is_ok(),
            &(call < 3),
            *name,
        );
    }
    for (name, bytes) in [("a", "oldone"), ("b", "two"), ("c", "three")] {
        same(&rt, &shelf.bytes(name), &bytes.as_bytes(), name);
    }
    Ok(())
}
