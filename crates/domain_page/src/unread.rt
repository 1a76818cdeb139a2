//! Bytes are read one after another. Each read returns some value, whatever the bytes are.
ghost use Rattle.std.specs.Prelude.{◌≡◌, ◌∷◌, ◌++◌, ◌%◌, ◌<◌, ◌≤◌, ◌*◌, ◌/◌, ◌^◌, ℕ, List, Option, map};
ghost use Rattle.std.specs.List.{flat_map};
ghost use Rattle.cloak_model.specs.Bits.{word};
ghost use Rattle.cloak_model.specs.Contexts as context;
ghost use Rattle.cloak_model.specs.DomainState as spec;
ghost use Rattle.cloak_model.specs.Record.{IsWord};
ghost use Rattle.frozen_state.specs.DomainPage as page;
ghost use Rattle.domain_page.specs.Reading.{ReadsSpelled, all, phase_in, hart_in, owner_in, HasPhaseWords, AreRegs, regs_bytes, IsReadable, IsReadableSlot, unmarked, HasMarkWords, HasRegionWords, AreRegions, IsReadableSpace, IsReadableNumber, AreEight, AreSixteen, AreUnmarked};

use crate::region_list::RegionList;
use cloak_base::{HartId, Regs};
use cloak_model::{Owner, PageWord, Phase, Region, Resource};
use thread_context::Context;

/// The bytes that are not read yet.
#[derive(Drop)]
pub struct Unread<'a> {
    pub left: &'a [u8],
}

/// The phase of these numbers.
fn phase_of(number: u8, done: u32, total: u32) -> Phase
    ensures { result ≡ phase_in number done total }
{
    match number {
        0 => Phase::Plain,
        1 => Phase::CopyIn { done },
        2 => Phase::Waiting,
        _ => Phase::CopyOut { done, total },
    }
}

/// The hart of a byte, none for 255.
fn hart_of(byte: u8) -> Option<HartId>
    ensures { result ≡ hart_in byte }
{
    match byte {
        255 => None,
        _ => Some(HartId(byte as u32)),
    }
}

/// The owner of a kind and a number.
fn owner_of(tag: u8, number: u32) -> Owner
    ensures { result ≡ owner_in tag number }
{
    match tag {
        1 => Owner::Space(number),
        _ => Owner::File(number),
    }
}

impl Unread<'_> {
    /// A byte, or 0 at the end.
    fn byte(&mut self) -> u8
        ensures { (x : ℕ) (rest : List ℕ) → self.old.left.now ≡ x ∷ rest → (result ≡ x) × (self.new.left.now ≡ rest) }
    {
        let left = self.left;
        if left.len() == 0 {
            return 0;
        }
        self.left = &left[1..];
        left[0]
    }

    /// A word, or 0 if fewer than four bytes are left.
    fn word(&mut self) -> u32
        ensures { ReadsSpelled word IsWord all self.old.left.now self.new.left.now result }
    {
        let left = self.left;
        if left.len() < 4 {
            return 0;
        }
        self.left = &left[4..];
        u32::from_le_bytes([left[0], left[1], left[2], left[3]])
    }

    fn phase(&mut self) -> Phase
        ensures { ReadsSpelled spec.phase_bytes HasPhaseWords all self.old.left.now self.new.left.now result }
    {
        let number = self.byte();
        let done = self.word();
        let total = self.word();
        phase_of(number, done, total)
    }

    /// All registers but x0.
    fn regs(&mut self) -> Regs
        ensures { ReadsSpelled regs_bytes AreRegs all self.old.left.now self.new.left.now result }
    {
        let mut regs = Regs::zero();
        for i in 1..32 {
            regs.set(i, self.word());
        }
        regs
    }

    /// A slot without its reservation.
    fn slot(&mut self) -> Option<Context>
        ensures { ReadsSpelled spec.slot_bytes IsReadableSlot unmarked self.old.left.now self.new.left.now result }
    {
        if self.byte() == 0 {
            return None;
        }
        let hart = self.byte();
        let phase = self.phase();
        let space = self.word();
        let pc = self.word();
        let regs = self.regs();
        Some(Context {
            pc: pc / 4 * 4,
            regs,
            phase,
            space,
            on: hart_of(hart),
            mark: None,
        })
    }

    /// The slots without their reservations.
    pub fn slots(&mut self) -> [Option<Context>; 8]
        ensures { ReadsSpelled (flat_map spec.slot_bytes) (AreEight IsReadableSlot) (map unmarked)
            self.old.left.now self.new.left.now result }
    {
        let mut slots = [None; 8];
        for i in 0..8 {
            slots[i] = self.slot();
        }
        slots
    }

    fn mark(&mut self) -> Option<PageWord>
        ensures { ReadsSpelled page.mark_bytes HasMarkWords all self.old.left.now self.new.left.now result }
    {
        if self.byte() == 0 {
            return None;
        }
        Some(PageWord {
            resource: self.word(),
            page: self.word(),
            at: self.word(),
        })
    }

    /// The reservation of a slot.
    fn slot_mark(&mut self, slot: &Option<Context>) -> Option<Context>
        ensures { (x : Option context.Context) (rest : List ℕ) → IsReadableSlot x → slot.now ≡ unmarked x →
            self.old.left.now ≡ page.slot_mark_bytes x ++ rest → (result ≡ x) × (self.new.left.now ≡ rest) }
    {
        let mark = self.mark();
        match slot {
            None => None,
            Some(c) => {
                let mut c = *c;
                c.mark = mark;
                Some(c)
            }
        }
    }

    /// The reservations of the slots.
    pub fn marks(&mut self, slots: &[Option<Context>; 8]) -> [Option<Context>; 8]
        ensures { ReadsSpelled (flat_map page.slot_mark_bytes) (AreUnmarked slots.now) all
            self.old.left.now self.new.left.now result }
    {
        let mut marked = [None; 8];
        for i in 0..8 {
            marked[i] = self.slot_mark(&slots[i]);
        }
        marked
    }

    fn region(&mut self) -> Region
        ensures { ReadsSpelled spec.region_bytes HasRegionWords all self.old.left.now self.new.left.now result }
    {
        let start = self.word();
        let pages = self.word();
        let resource = self.word();
        let first = self.word();
        Region {
            start,
            pages,
            resource,
            first,
        }
    }

    /// So many regions, at most 16.
    fn regions(&mut self, count: u32) -> RegionList
        ensures { ReadsSpelled (flat_map spec.region_bytes) (AreRegions count) all self.old.left.now
            self.new.left.now result }
    {
        let mut list = RegionList::new();
        for _i in 0..count.min(16) {
            list.push(self.region());
        }
        list
    }

    fn space(&mut self) -> Option<RegionList>
        ensures { ReadsSpelled spec.space_bytes IsReadableSpace all self.old.left.now self.new.left.now result }
    {
        if self.byte() == 0 {
            return None;
        }
        let count = self.word();
        Some(self.regions(count))
    }

    pub fn spaces(&mut self) -> [Option<RegionList>; 8]
        ensures { ReadsSpelled (flat_map spec.space_bytes) (AreEight IsReadableSpace) all
            self.old.left.now self.new.left.now result }
    {
        let mut spaces = [None, None, None, None, None, None, None, None];
        for i in 0..8 {
            spaces[i] = self.space();
        }
        spaces
    }

    fn resource(&mut self) -> Option<Resource>
        ensures { ReadsSpelled spec.resource_bytes IsReadableNumber all self.old.left.now self.new.left.now result }
    {
        let tag = self.byte();
        if tag == 0 {
            return None;
        }
        let number = self.word();
        let pages = self.word();
        Some(Resource {
            owner: owner_of(tag, number),
            pages,
        })
    }

    pub fn resources(&mut self) -> [Option<Resource>; 16]
        ensures { ReadsSpelled (flat_map spec.resource_bytes) (AreSixteen IsReadableNumber) all
            self.old.left.now self.new.left.now result }
    {
        let mut held = [None; 16];
        for n in 0..16 {
            held[n] = self.resource();
        }
        held
    }
}
