//! A program with three private pages and a file, whose space is forked and ends.
ghost use Rattle.std.specs.Prelude.{◌≡◌};

use crate::checks::same;
use cloak_base::{CtxId, Kind, PageId};
use cloak_model::{Answer, Ended, Forked, MapFault, Owner, PageSide, Region};
use cloaked_fork::{end_context, fork_space};
use resource_map::Resources;
use std::process::Abort;
use std::test::Fail;
use thread_context::{Context, Contexts};

/// A side of domain 1 that answers a clearing with `clearing`, and keeps what it was asked last. It stands for no
/// world.
#[derive(Drop)]
struct Fake {
    clearing: Answer,
    marked: [bool; 16],
    copied: Option<(u32, u32)>,
    forgotten: Option<u32>,
}

impl Fake {
    fn new(clearing: Answer) -> Fake {
        Fake {
            clearing,
            marked: [false; 16],
            copied: None,
            forgotten: None,
        }
    }
}

impl PageSide for Fake {
    ghost use Rattle.std.specs.Prelude.{◌≡◌};

    ghost stands_for = { λ first side w. ⊥ };

    ghost kept = { λ first side. Unit {0} };

    ghost serves = { λ side. 1 };

    ghost is_reached = { λ side q. Unit {0} };

    ghost is_writable = { λ side q. Unit {0} };

    ghost is_cleared = { λ side r. Unit {0} };

    ghost is_unused = { λ side n. Unit {0} };

    fn reach(&mut self, _: PageId, _: u32, _: Kind) -> Answer {
        Answer::Stopped
    }

    fn read(&mut self, _: PageId, _: u32, _: u32) -> u32 {
        0
    }

    fn write(&mut self, _: PageId, _: u32, _: u32, _: u32) {}

    fn get(&mut self, _: u32, _: u32) -> Answer {
        Answer::Stopped
    }

    fn put(&mut self, _: u32, _: u32, _: u32) -> Answer {
        Answer::Stopped
    }

    fn clear(&mut self, _: u32, resources: &[bool; 16]) -> Answer {
        self.marked = *resources;
        self.clearing
    }

    fn copy(&mut self, _: u32, from: u32, to: u32) {
        self.copied = Some((from, to));
    }

    fn forget(&mut self, _: u32, resource: u32) {
        self.forgotten = Some(resource);
    }
}

/// The program's pages, and a page of file 4 at 0x0010_0000.
fn program() -> Option<Resources> {
    let mut r = Resources::open(3, 0x8000);
    if r.file(4).is_some() || !r.has_space(0) {
        return None;
    }
    let resource = r.new_owned(Owner::File(4), 1).ok()?;
    if !r.has_space(0) {
        return None;
    }
    r.map(0, region(0x0010_0000, 1, resource)).ok()?;
    Some(r)
}

fn region(start: u32, pages: u32, resource: u32) -> Region {
    Region {
        start,
        pages,
        resource,
        first: 0,
    }
}

/// Forks by the context of a slot, if it is there and in a space.
fn fork(r: &mut Resources, c: &mut Contexts, slot: u32, m: &mut Fake) -> Option<Forked> {
    let space = c.get(slot)?.space;
    if !r.has_space(space) {
        return None;
    }
    Some(fork_space(r, c, 1, slot, m))
}

/// Ends the context of a slot, if it is there and in a space.
fn end(r: &mut Resources, c: &mut Contexts, slot: u32, m: &mut Fake) -> Option<Ended> {
    let space = c.get(slot)?.space;
    if !r.has_space(space) {
        return None;
    }
    Some(end_context(r, c, 1, slot, m))
}

/// The owners and pages of the first resources once the space was forked.
static HELD: [Option<(Owner, u32)>; 4] = [
    Some((Owner::Space(0), 3)),
    Some((Owner::File(4), 1)),
    Some((Owner::Space(1), 3)),
    None,
];

fn holds_each(rt: &impl Abort, r: &Resources) {
    for (n, held) in HELD.iter().enumerate() {
        same(rt, &r.resource(n as u32), held, n);
    }
}

/// The child has the lowest free space, slot and number, and its regions are of its copy and of the file.
#[test]
fn forks_a_space_with_a_file(rt: HostRuntime) -> Result<(), Fail> {
    let mut r = program().expect(&rt, "room");
    let mut c = Contexts::open(0x8010, 0xb000);
    let mut m = Fake::new(Answer::Ok);
    same(
        &rt,
        &fork(&mut r, &mut c, 0, &mut m),
        &Some(Forked::Child(CtxId(9))),
        "fork",
    );
    same(
        &rt,
        &(m.marked[0], m.marked[1], m.copied),
        &(true, false, Some((0, 2))),
        "questions",
    );
    holds_each(&rt, &r);
    let regions = [0, 1, 2].map(|n| r.region(1, n));
    let copied = region(0x8000, 3, 2);
    same(
        &rt,
        &regions,
        &[Some(copied), Some(region(0x0010_0000, 1, 1)), None],
        "regions of the child",
    );
    let child = c.get(1).expect(&rt, "the child");
    same(
        &rt,
        &(child.pc, child.regs.get(2), child.regs.get(10)),
        &(0x8014, 0xb000, 0),
        "registers of the child",
    );
    same(&rt, &(child.space, child.on), &(1, None), "its space");
    Ok(())
}

/// There are eight contexts at most.
#[test]
fn refuses_a_ninth_context(rt: HostRuntime) -> Result<(), Fail> {
    let mut r = program().expect(&rt, "room");
    let mut c = Contexts::open(0x8010, 0xb000);
    let mut m = Fake::new(Answer::Ok);
    for slot in 1..8 {
        same(
            &rt,
            &fork(&mut r, &mut c, 0, &mut m),
            &Some(Forked::Child(CtxId(8 + slot))),
            slot,
        );
    }
    same(
        &rt,
        &fork(&mut r, &mut c, 0, &mut m),
        &Some(Forked::Refused(MapFault::Full)),
        "a ninth context",
    );
    Ok(())
}

/// A space stays while it has a context, and its file stays after its last one.
#[test]
fn ends_a_space_with_its_last_context(rt: HostRuntime) -> Result<(), Fail> {
    let mut r = program().expect(&rt, "room");
    let mut c = Contexts::open(0x8010, 0xb000);
    let mut m = Fake::new(Answer::Ok);
    same(
        &rt,
        &c.add(Context::start(0, 0x8020, 0xa000, 7)),
        &Some(1),
        "a second context",
    );
    same(
        &rt,
        &end(&mut r, &mut c, 0, &mut m),
        &Some(Ended::Kept),
        "the first ends",
    );
    same(
        &rt,
        &(c.get(0).is_some(), r.has_space(0), m.forgotten),
        &(false, true, None),
        "after the first end",
    );
    same(
        &rt,
        &end(&mut r, &mut c, 1, &mut m),
        &Some(Ended::SpaceGone(0)),
        "the second ends",
    );
    same(
        &rt,
        &(c.get(1).is_some(), r.has_space(0), m.forgotten),
        &(false, false, Some(0)),
        "after the second end",
    );
    same(
        &rt,
        &(r.resource(0), r.resource(1)),
        &(None, Some((Owner::File(4), 1))),
        "resources",
    );
    Ok(())
}

/// If the clearing is answered `Stopped`, nothing changes.
#[test]
fn stops_with_nothing_changed(rt: HostRuntime) -> Result<(), Fail> {
    let mut r = program().expect(&rt, "room");
    let mut c = Contexts::open(0x8010, 0xb000);
    let mut m = Fake::new(Answer::Stopped);
    same(
        &rt,
        &fork(&mut r, &mut c, 0, &mut m),
        &Some(Forked::Stopped),
        "fork",
    );
    same(
        &rt,
        &end(&mut r, &mut c, 0, &mut m),
        &Some(Ended::Stopped),
        "end",
    );
    same(&rt, &(m.copied, m.forgotten), &(None, None), "questions");
    same(
        &rt,
        &(r.resource(0), r.resource(2)),
        &(Some((Owner::Space(0), 3)), None),
        "resources",
    );
    same(
        &rt,
        &(c.get(0).is_some(), c.get(1).is_some(), r.has_space(1)),
        &(true, false, false),
        "contexts and spaces",
    );
    Ok(())
}
