//! Loads and stores of every width, by the cases of the unprivileged manual, "Load and Store Instructions", and atomic
//! instructions, by its chapter 8.
ghost use Rattle.std.specs.Prelude.{◌≡◌};

use crate::checks::same;
use cloak_base::{Kind, PageId};
use cloak_model::{Answer, PageSide, set_value_in, value_in};
use inside_step::{Ran, instruction_step};
use resource_map::Resources;
use std::test::Fail;
use thread_context::Context;

/// A side of domain 0 with one page, and memory that is not the program's own. It stands for no world.
#[derive(Drop)]
struct Fake {
    page: [u8; 4096],
    outside: [u8; 4096],
}

impl PageSide for Fake {
    ghost use Rattle.std.specs.Prelude.{◌≡◌};

    ghost stands_for = { λ first side w. ⊥ };

    ghost kept = { λ first side. Unit {0} };

    ghost serves = { λ side. 0 };

    ghost is_reached = { λ side q. Unit {0} };

    ghost is_writable = { λ side q. Unit {0} };

    ghost is_cleared = { λ side r. Unit {0} };

    ghost is_unused = { λ side n. Unit {0} };

    fn reach(&mut self, _: PageId, _: u32, _: Kind) -> Answer {
        Answer::Ok
    }

    fn read(&mut self, _: PageId, at: u32, width: u32) -> u32 {
        value_in(&self.page, at as usize, width)
    }

    fn write(&mut self, _: PageId, at: u32, width: u32, v: u32) {
        set_value_in(&mut self.page, at as usize, width, v)
    }

    fn get(&mut self, va: u32, width: u32) -> Answer {
        Answer::Word(value_in(&self.outside, (va % 4096) as usize, width))
    }

    fn put(&mut self, va: u32, width: u32, v: u32) -> Answer {
        set_value_in(&mut self.outside, (va % 4096) as usize, width, v);
        Answer::Ok
    }

    fn clear(&mut self, _: u32, _: &[bool; 16]) -> Answer {
        Answer::Ok
    }

    fn copy(&mut self, _: u32, _: u32, _: u32) {}

    fn forget(&mut self, _: u32, _: u32) {}
}

/// The program's page, and an address that is not cloaked.
const CLOAKED: u32 = 0x0000_1000;

const UNCLOAKED: u32 = 0x0000_5000;

/// Bytes 80 ff 7f 01 from place 0x800 on, in the page and outside, and this word at the program counter.
fn side(word: u32) -> Fake {
    let mut page = [0; 4096];
    let mut outside = [0; 4096];
    set_value_in(&mut page, 0, 4, word);
    set_value_in(&mut page, 0x800, 4, 0x017f_ff80);
    set_value_in(&mut outside, 0x800, 4, 0x017f_ff80);
    Fake { page, outside }
}

/// A context whose x5 is an address, and x6 a value.
fn context(address: u32, value: u32) -> Context {
    let mut c = Context::start(0, CLOAKED, 0, 0);
    c.regs.set(5, address);
    c.regs.set(6, value);
    c
}

fn run(c: &mut Context, m: &mut Fake) -> Ran {
    instruction_step(c, &Resources::open(1, CLOAKED), 0, m, &mut None, &mut false)
}

/// The word of `lb` (0), `lh` (1), `lw` (2), `lbu` (4) or `lhu` (5) of x6, 0(x5).
fn load(kind: u32) -> u32 {
    0x0002_8303 + (kind % 8) * 0x1000
}

/// The word of `sb` (0), `sh` (1) or `sw` (2) of x6, 0(x5).
fn store(kind: u32) -> u32 {
    0x0062_8023 + (kind % 8) * 0x1000
}

/// The kind of a load, its place, what is told of it (or its cause), and what x6 then has.
static LOADS: [(u32, u32, Result<u32, u32>, u32, &str); 9] = [
    (0, 0x800, Ok(0x80), 0xffff_ff80, "lb"),
    (4, 0x800, Ok(0x80), 0x80, "lbu"),
    (1, 0x800, Ok(0xff80), 0xffff_ff80, "lh"),
    (5, 0x800, Ok(0xff80), 0xff80, "lhu"),
    (2, 0x800, Ok(0x017f_ff80), 0x017f_ff80, "lw"),
    (0, 0x801, Ok(0xff), 0xffff_ffff, "lb of another byte"),
    (
        1,
        0x802,
        Ok(0x017f),
        0x017f,
        "lh of a number that is not negative",
    ),
    (1, 0x801, Err(4), 9, "lh at an odd address"),
    (2, 0x802, Err(4), 9, "lw at no multiple of 4"),
];

#[test]
fn loads(rt: HostRuntime) -> Result<(), Fail> {
    for &(kind, place, told, loaded, name) in &LOADS {
        let mut m = side(load(kind));
        let mut c = context(CLOAKED + place, 9);
        let address = CLOAKED + place;
        let ran = match told {
            Ok(value) => Ran::Loaded { address, value },
            Err(cause) => Ran::Trap { cause, address },
        };
        let went = run(&mut c, &mut m);
        same(
            &rt,
            &(address, went, c.regs.get(6)),
            &(address, ran, loaded),
            name,
        );
        let mut c = context(UNCLOAKED + place, 9);
        let address = UNCLOAKED + place;
        let ran = match told {
            Ok(_) => Ran::Stay,
            Err(cause) => Ran::Trap { cause, address },
        };
        let went = run(&mut c, &mut m);
        same(
            &rt,
            &(address, went, c.regs.get(6)),
            &(address, ran, loaded),
            name,
        );
    }
    Ok(())
}

/// The kind of a store, its place, whether it is a fault, and the word that it leaves.
static STORES: [(u32, u32, bool, u32, &str); 6] = [
    (0, 0x800, false, 0x017f_ff44, "sb"),
    (0, 0x803, false, 0x447f_ff80, "sb of the highest byte"),
    (1, 0x802, false, 0x3344_ff80, "sh"),
    (2, 0x800, false, 0x1122_3344, "sw"),
    (1, 0x803, true, 0x017f_ff80, "sh at an odd address"),
    (2, 0x801, true, 0x017f_ff80, "sw at no multiple of 4"),
];

#[test]
fn stores(rt: HostRuntime) -> Result<(), Fail> {
    for &(kind, place, faults, left, name) in &STORES {
        let mut m = side(store(kind));
        for base in [CLOAKED, UNCLOAKED] {
            let address = base + place;
            let mut c = context(address, 0x1122_3344);
            let ran = if faults {
                Ran::Trap { cause: 6, address }
            } else {
                Ran::Stay
            };
            same(&rt, &(base, run(&mut c, &mut m)), &(base, ran), name);
        }
        let words = (value_in(&m.page, 0x800, 4), value_in(&m.outside, 0x800, 4));
        same(&rt, &words, &(left, left), name);
    }
    Ok(())
}

const LR: u32 = 0b00010;

const SC: u32 = 0b00011;

const ADD: u32 = 0b00000;

/// The atomic instruction of an operation: x7, x6, (x5), of LR x7, (x5).
fn atomic(operation: u32) -> u32 {
    let operand = if operation == LR { 0 } else { 6 };
    (operation % 32) * 0x0800_0000 + operand * 0x0010_0000 + 0x0002_a3af
}

/// Instructions in a row at one word: the operation, how it ends, what x7 then has, and the word.
static AT_A_WORD: [(u32, bool, u32, u32, &str); 6] = [
    (SC, false, 1, 0x017f_ff80, "sc with no reservation"),
    (LR, true, 0x017f_ff80, 0x017f_ff80, "lr"),
    (SC, false, 0, 0x0000_0011, "sc"),
    (SC, false, 1, 0x0000_0011, "sc once more"),
    (ADD, true, 0x0000_0011, 0x0000_0022, "amoadd"),
    (LR, true, 0x0000_0022, 0x0000_0022, "lr of the sum"),
];

/// Each that is a load is told of as one, and SC is none.
#[test]
fn atomics(rt: HostRuntime) -> Result<(), Fail> {
    let address = CLOAKED + 0x800;
    let mut m = side(0);
    let mut c = context(address, 0x11);
    for &(operation, is_load, value, left, name) in &AT_A_WORD {
        c.pc = CLOAKED;
        set_value_in(&mut m.page, 0, 4, atomic(operation));
        let ran = if is_load {
            Ran::Loaded { address, value }
        } else {
            Ran::Stay
        };
        same(&rt, &run(&mut c, &mut m), &ran, name);
        same(
            &rt,
            &(c.regs.get(7), value_in(&m.page, 0x800, 4)),
            &(value, left),
            name,
        );
    }
    Ok(())
}

/// An operation, an address at which it faults, and the cause.
static FAULTS: [(u32, u32, u32, &str); 4] = [
    (
        LR,
        UNCLOAKED + 0x800,
        5,
        "lr at an address that is not cloaked",
    ),
    (SC, UNCLOAKED + 0x800, 7, "sc there"),
    (LR, UNCLOAKED + 0x802, 4, "lr at no multiple of 4"),
    (ADD, CLOAKED + 0x801, 6, "amoadd at an odd address"),
];

#[test]
fn faults_of_atomics(rt: HostRuntime) -> Result<(), Fail> {
    for &(operation, address, cause, name) in &FAULTS {
        let mut m = side(atomic(operation));
        let mut c = context(address, 0x11);
        same(
            &rt,
            &run(&mut c, &mut m),
            &Ran::Trap { cause, address },
            name,
        );
        same(&rt, &(c.pc, c.regs.get(7)), &(CLOAKED, 0), name);
    }
    Ok(())
}
