//! Steps as tables: rows of the privileged manual ("Supervisor Interrupt Registers", "Supervisor Instructions"),
//! and the host calls.

use crate::checks::same;
use alone_views::FlatRam;
use cloak_base::{Mode, Shown};
use host_calls::{Disk, Hart, Kernel, Reservations, kernel_step, leave};
use rv_traps::Csrs;
use std::alloc::Global;
use std::process::Abort;
use std::test::Fail;

/// Registers with these words in sstatus and sie, and with all traps to 0x80000800.
fn registers(sstatus: u32, sie: u32) -> Csrs {
    let mut csrs = Csrs::new();
    for (number, value) in [
        (0x100, sstatus),
        (0x104, sie),
        (0x105, 0x8000_0800),
        (0x141, 0x8000_0100),
    ] {
        let _ = csrs.write(number, value);
    }
    csrs
}

/// A hart at 0x80000000 in this mode, with these words in sstatus and sie, and all traps to 0x80000800.
fn hart(mode: Mode, sstatus: u32, sie: u32) -> Hart {
    let mut hart = Hart::start(0x8000_0000, 0);
    hart.mode = mode;
    hart.csrs = registers(sstatus, sie);
    hart
}

/// Three frames with this word at 0x80000000.
fn frames_with(alloc: Global, word: u32) -> Result<FlatRam, Fail> {
    let mut page = [0; 4096];
    page[..4].copy_from_slice(&word.to_le_bytes());
    let frames = Vec::from_array(alloc, [page, [0; 4096], [0; 4096]])?;
    Ok(FlatRam {
        frames,
        reservations: Reservations::none(1),
    })
}

const ADDI: u32 = 0x0010_0093; // addi x1, x0, 1

const ECALL: u32 = 0x0000_0073;

const SRET: u32 = 0x1020_0073;

const WFI: u32 = 0x1050_0073;

const SFENCE: u32 = 0x1200_0073; // sfence.vma x0, x0

const SIE: u32 = 0x2;

const STIE: u32 = 0x20;

/// The cause of the timer's interrupt.
const TIMER: u32 = 0x8000_0005;

/// A row of the table below.
type Interrupt = (
    &'static str,
    Mode,
    u32,
    u32,
    bool,
    u32,
    u32,
    (Mode, u32, u32, u32),
);

/// Interrupts and the instructions of the supervisor: mode, sstatus, sie, whether the timer's interrupt is
/// pending, and the timer before the step; its word; mode, program counter, scause and stval after it. A step that has a
/// cause then has trapped.
static INTERRUPTS: [Interrupt; 15] = [
    (
        "not in S mode with SIE clear",
        Mode::S,
        0,
        STIE,
        true,
        0,
        ADDI,
        (Mode::S, 0x8000_0004, 0, 0),
    ),
    (
        "in S mode with SIE set",
        Mode::S,
        SIE,
        STIE,
        true,
        0,
        ADDI,
        (Mode::S, 0x8000_0800, TIMER, 0),
    ),
    (
        "in U mode with SIE clear",
        Mode::U,
        0,
        STIE,
        true,
        0,
        ADDI,
        (Mode::S, 0x8000_0800, TIMER, 0),
    ),
    (
        "not where it is not enabled",
        Mode::U,
        SIE,
        0,
        true,
        0,
        ADDI,
        (Mode::U, 0x8000_0004, 0, 0),
    ),
    (
        "not where none is pending",
        Mode::U,
        SIE,
        STIE,
        false,
        0,
        ADDI,
        (Mode::U, 0x8000_0004, 0, 0),
    ),
    (
        "as the timer reaches 0",
        Mode::U,
        0,
        STIE,
        false,
        1,
        ADDI,
        (Mode::S, 0x8000_0800, TIMER, 0),
    ),
    (
        "not before",
        Mode::U,
        0,
        STIE,
        false,
        2,
        ADDI,
        (Mode::U, 0x8000_0004, 0, 0),
    ),
    (
        "SRET to U mode",
        Mode::S,
        0x20,
        0,
        false,
        0,
        SRET,
        (Mode::U, 0x8000_0100, 0, 0),
    ),
    (
        "SRET to S mode",
        Mode::S,
        0x100,
        0,
        false,
        0,
        SRET,
        (Mode::S, 0x8000_0100, 0, 0),
    ),
    (
        "SRET in U mode",
        Mode::U,
        0,
        0,
        false,
        0,
        SRET,
        (Mode::S, 0x8000_0800, 2, SRET),
    ),
    (
        "WFI in U mode",
        Mode::U,
        0,
        0,
        false,
        0,
        WFI,
        (Mode::S, 0x8000_0800, 2, WFI),
    ),
    (
        "WFI in S mode",
        Mode::S,
        0,
        0,
        false,
        0,
        WFI,
        (Mode::S, 0x8000_0004, 0, 0),
    ),
    (
        "SFENCE.VMA in U mode",
        Mode::U,
        0,
        0,
        false,
        0,
        SFENCE,
        (Mode::S, 0x8000_0800, 2, SFENCE),
    ),
    (
        "SFENCE.VMA in S mode",
        Mode::S,
        0,
        0,
        false,
        0,
        SFENCE,
        (Mode::S, 0x8000_0004, 0, 0),
    ),
    (
        "ECALL in U mode",
        Mode::U,
        0,
        0,
        false,
        0,
        ECALL,
        (Mode::S, 0x8000_0800, 8, 0),
    ),
];

/// Makes the step of a row.
fn interrupted(rt: &impl Abort, alloc: Global, row: &Interrupt) -> Result<(), Fail> {
    let &(name, mode, sstatus, sie, pending, count, word, want) = row;
    let mut h = hart(mode, sstatus, sie);
    h.csrs.set_pending(pending);
    h.timer = count;
    let mut d = Disk::open(alloc, &[])?;
    let mut m = frames_with(alloc, word)?;
    let ending = kernel_step(&mut h, &mut d, &mut m);
    let cause = h.csrs.read(0x142).unwrap_or(1);
    let value = h.csrs.read(0x143).unwrap_or(1);
    let ended = if want.2 == 0 {
        Kernel::Stay
    } else {
        Kernel::Trapped
    };
    same(rt, &ending, &ended, name);
    same(rt, &(h.mode, h.pc, cause, value), &want, name);
    Ok(())
}

#[test]
fn interrupts_and_returns(rt: HostRuntime) -> Result<(), Fail> {
    for row in &INTERRUPTS {
        interrupted(&rt, rt.alloc(), row)?;
    }
    Ok(())
}

/// A row of the table below.
type HostCallRow = (&'static str, u32, u32, u32, Kernel, u32, u32);

/// Host calls: x17, x10 and x11; the ending, x10 and the timer after it.
static CALLS: [HostCallRow; 11] = [
    ("PUT", 0, 0x141, 7, Kernel::Put(0x41), 0, 9),
    ("TIMER", 1, 100, 7, Kernel::Stay, 0, 100),
    ("READ", 2, 1, 0x8000_1000, Kernel::Stay, 0, 9),
    ("READ of no block", 2, 2, 0x8000_1000, Kernel::Stay, 1, 9),
    ("READ to no frame", 2, 1, 0x8000_3000, Kernel::Stay, 1, 9),
    ("READ into a frame", 2, 1, 0x8000_1004, Kernel::Stay, 1, 9),
    ("WRITE", 3, 0, 0x8000_0000, Kernel::Stay, 0, 9),
    (
        "WRITE of no block",
        3,
        u32::MAX,
        0x8000_0000,
        Kernel::Stay,
        1,
        9,
    ),
    ("WRITE below RAM", 3, 0, 0x7fff_f000, Kernel::Stay, 1, 9),
    ("HALT", 4, 3, 7, Kernel::Halt(3), 3, 9),
    ("no call", 5, 3, 7, Kernel::Stay, u32::MAX, 9),
];

/// Makes the call of a row.
fn called(rt: &impl Abort, alloc: Global, row: &HostCallRow) -> Result<(), Fail> {
    let &(name, call, first, second, ending, answer, timer) = row;
    let mut h = hart(Mode::S, 0, 0);
    h.regs.set(17, call);
    h.regs.set(10, first);
    h.regs.set(11, second);
    h.timer = 10;
    let mut d = Disk::open(alloc, [5; 8192].as_slice())?;
    let mut m = frames_with(alloc, ECALL)?;
    let ended = kernel_step(&mut h, &mut d, &mut m);
    same(rt, &ended, &ending, name);
    let left = (h.regs.get(10), h.timer, h.pc);
    same(rt, &left, &(answer, timer, 0x8000_0004), name);
    Ok(())
}

#[test]
fn calls_the_host(rt: HostRuntime) -> Result<(), Fail> {
    for row in &CALLS {
        called(&rt, rt.alloc(), row)?;
    }
    Ok(())
}

/// A block goes to a frame, and that frame to another block.
#[test]
fn transfers_pages(rt: HostRuntime) -> Result<(), Fail> {
    let mut blocks = [0; 8192];
    blocks[4096] = 7;
    let mut d = Disk::open(rt.alloc(), blocks.as_slice())?;
    let mut m = frames_with(rt.alloc(), ECALL)?;
    for (call, block) in [(2, 1), (3, 0)] {
        let mut h = hart(Mode::S, 0, 0);
        h.regs.set(17, call);
        h.regs.set(10, block);
        h.regs.set(11, 0x8000_1000);
        same(
            &rt,
            &kernel_step(&mut h, &mut d, &mut m),
            &Kernel::Stay,
            call,
        );
    }
    same(
        &rt,
        &d.bytes().first(),
        &Some(&7),
        "the first byte of the disk",
    );
    Ok(())
}

/// A context is resumed from this mode, and left again.
fn resumed_and_left(rt: &impl Abort, alloc: Global, mode: Mode) -> Result<(), Fail> {
    let mut h = hart(mode, 0, 0);
    h.regs.set(17, 0x4f56_0000);
    h.regs.set(5, 3);
    h.regs.set(10, 8);
    let mut d = Disk::open(alloc, &[])?;
    let mut m = frames_with(alloc, ECALL)?;
    let ending = kernel_step(&mut h, &mut d, &mut m);
    same(rt, &ending, &Kernel::Resume { ctx: 3, answer: 8 }, "ending");
    same(
        rt,
        &(h.inside, h.mode, h.pc),
        &(Some(3), Mode::U, 0x1000),
        "inside",
    );
    same(
        rt,
        &h.regs.words().iter().max(),
        &Some(&0),
        "registers inside",
    );
    let shown = Shown {
        cause: 8,
        stval: 0,
        ctx: 3,
        number: 9,
        args: [1, 2, 3, 4, 5, 6],
    };
    leave(&mut h, &shown);
    same(
        rt,
        &(h.inside, h.mode, h.pc),
        &(None, Mode::S, 0x8000_0800),
        "after the leave",
    );
    same(
        rt,
        &(h.csrs.read(0x141), h.csrs.read(0x142)),
        &(Some(0x1000), Some(8)),
        "sepc and scause",
    );
    same(
        rt,
        &(
            h.regs.get(5),
            h.regs.get(10),
            h.regs.get(15),
            h.regs.get(17),
        ),
        &(3, 1, 6, 9),
        "registers after the leave",
    );
    Ok(())
}

#[test]
fn resumes_and_leaves(rt: HostRuntime) -> Result<(), Fail> {
    resumed_and_left(&rt, rt.alloc(), Mode::S)?;
    resumed_and_left(&rt, rt.alloc(), Mode::U)
}
