//! Records that are written and read.

use crate::checks::{holds, same};
use cloak_base::Shown;
use cloak_model::Item;
use exchange_log::{LONGEST, write_item};
use io_traits::{MemoryShelf, Shelf};
use record_reader::{NextFault, Reader};
use std::test::*;

/// How many items are read, and what comes after them.
fn read_on(shelf: &mut MemoryShelf, reader: &mut Reader<'_>) -> (usize, Result<(), NextFault>) {
    let mut room = [0; 4096];
    for count in 0..100 {
        match reader.next(shelf, &mut room) {
            Ok(Some(_)) => {}
            Ok(None) => return (count, Ok(())),
            Err(fault) => return (count, Err(fault)),
        }
    }
    (100, Ok(()))
}

/// One item of each kind, in the order of a record.
fn items<'p>(first: &'p [u8; 4096], last: &'p [u8; 4096]) -> [Item<'p>; 14] {
    let shown = Shown {
        cause: 8,
        stval: 0,
        ctx: 1,
        number: 0x0102_0304,
        args: [1, 2, 3, 4, 5, 6],
    };
    [
        Item::Cipher {
            frame: 3,
            bytes: first,
        },
        Item::Step { number: 1 },
        Item::Put {
            address: 0x8000_1000,
            width: 4,
            value: 0xffff_fffe,
        },
        Item::Ok { domain: 0 },
        Item::Absent {
            domain: 1,
            cause: 13,
        },
        Item::Word {
            domain: 1,
            value: 7,
        },
        Item::Timer { domain: 2 },
        Item::Resume {
            domain: 2,
            ctx: 1,
            answer: 9,
        },
        Item::Stopped { domain: 3 },
        Item::Ended { domain: 3 },
        Item::Leave(shown),
        Item::Close { steps: 1 },
        Item::Cipher {
            frame: 4,
            bytes: last,
        },
        Item::End,
    ]
}

#[test]
fn what_was_written_is_read(rt: HostRuntime) -> Result<(), Fail> {
    let mut shelf = MemoryShelf::open(rt.alloc(), Vec::new(rt.alloc()));
    shelf.add("r", b"CLOAKREC")?;
    let (first, last) = ([0xa5; 4096], [0x5a; 4096]);
    let items = items(&first, &last);
    let mut buffer = [0; LONGEST];
    for item in &items {
        let count = write_item(item, &mut buffer);
        shelf.append("r", &buffer[..count])?;
    }
    let mut reader = Reader::open("r");
    let mut room = [0; 4096];
    for item in &items {
        match reader.next(&mut shelf, &mut room) {
            Ok(Some(read)) => same(&rt, &read, item, "an item"),
            _ => assert!(rt; false, "no item"),
        }
    }
    for _ in 0..2 {
        holds(
            &rt,
            matches!(reader.next(&mut shelf, &mut room), Ok(None)),
            "behind the last item",
        );
    }
    Ok(())
}

/// The Nth call on the shelf fails, and how many items were read before. Then the reader goes on. A piece of the file is
/// read by a call for its bytes and one that finds its end: from the magic on, from Close, from End, and after it.
#[test]
fn failing_calls(rt: HostRuntime) -> Result<(), Fail> {
    for (call, count) in [(1, 0), (2, 0), (3, 0), (4, 0), (5, 1), (6, 1), (7, 2)] {
        let mut shelf = MemoryShelf::open(rt.alloc(), vec![in rt.alloc(); call]?);
        shelf.add("r", b"CLOAKREC\x11\0\0\0\0\x12")?;
        let mut reader = Reader::open("r");
        let first = read_on(&mut shelf, &mut reader);
        same(&rt, &first, &(count, Err(NextFault::Read)), call);
        let again = read_on(&mut shelf, &mut reader);
        same(&rt, &again, &(2 - count, Ok(())), call);
    }
    Ok(())
}
