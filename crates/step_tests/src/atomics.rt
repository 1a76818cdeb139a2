//! Words of atomic instructions, what operations store, and steps of harts that make them.

use crate::checks::{holds, same};
use alone_views::FlatRam;
use host_calls::{Disk, Hart, Kernel, Reservations, kernel_step};
use rv_atomic::{Atomic, AtomicOp, combine, decode_atomic};
use std::alloc::Global;
use std::process::Abort;
use std::test::Fail;

/// LLVM 14's assembler for RV32IMA (register numbers at their ends, and each of `.rl`, `.aq` and `.aqrl`): a word, its
/// operation, rd, rs1, rs2, and the bits `aq` and `rl`.
static ASSEMBLED: [(u32, AtomicOp, u32, u32, u32, u32); 44] = [
    (0x1000_2faf, AtomicOp::Lr, 31, 0, 0, 0),
    (0x140f_a02f, AtomicOp::Lr, 0, 31, 0, 2),
    (0x1201_20af, AtomicOp::Lr, 1, 2, 0, 1),
    (0x160a_a52f, AtomicOp::Lr, 10, 21, 0, 3),
    (0x1800_2faf, AtomicOp::Sc, 31, 0, 0, 0),
    (0x1c0f_a02f, AtomicOp::Sc, 0, 31, 0, 2),
    (0x1bf0_202f, AtomicOp::Sc, 0, 0, 31, 1),
    (0x1e5a_a52f, AtomicOp::Sc, 10, 21, 5, 3),
    (0x0800_2faf, AtomicOp::Swap, 31, 0, 0, 0),
    (0x0c0f_a02f, AtomicOp::Swap, 0, 31, 0, 2),
    (0x0bf0_202f, AtomicOp::Swap, 0, 0, 31, 1),
    (0x0e5a_a52f, AtomicOp::Swap, 10, 21, 5, 3),
    (0x0000_2faf, AtomicOp::Add, 31, 0, 0, 0),
    (0x040f_a02f, AtomicOp::Add, 0, 31, 0, 2),
    (0x03f0_202f, AtomicOp::Add, 0, 0, 31, 1),
    (0x065a_a52f, AtomicOp::Add, 10, 21, 5, 3),
    (0x2000_2faf, AtomicOp::Xor, 31, 0, 0, 0),
    (0x240f_a02f, AtomicOp::Xor, 0, 31, 0, 2),
    (0x23f0_202f, AtomicOp::Xor, 0, 0, 31, 1),
    (0x265a_a52f, AtomicOp::Xor, 10, 21, 5, 3),
    (0x6000_2faf, AtomicOp::And, 31, 0, 0, 0),
    (0x640f_a02f, AtomicOp::And, 0, 31, 0, 2),
    (0x63f0_202f, AtomicOp::And, 0, 0, 31, 1),
    (0x665a_a52f, AtomicOp::And, 10, 21, 5, 3),
    (0x4000_2faf, AtomicOp::Or, 31, 0, 0, 0),
    (0x440f_a02f, AtomicOp::Or, 0, 31, 0, 2),
    (0x43f0_202f, AtomicOp::Or, 0, 0, 31, 1),
    (0x465a_a52f, AtomicOp::Or, 10, 21, 5, 3),
    (0x8000_2faf, AtomicOp::Min, 31, 0, 0, 0),
    (0x840f_a02f, AtomicOp::Min, 0, 31, 0, 2),
    (0x83f0_202f, AtomicOp::Min, 0, 0, 31, 1),
    (0x865a_a52f, AtomicOp::Min, 10, 21, 5, 3),
    (0xa000_2faf, AtomicOp::Max, 31, 0, 0, 0),
    (0xa40f_a02f, AtomicOp::Max, 0, 31, 0, 2),
    (0xa3f0_202f, AtomicOp::Max, 0, 0, 31, 1),
    (0xa65a_a52f, AtomicOp::Max, 10, 21, 5, 3),
    (0xc000_2faf, AtomicOp::Minu, 31, 0, 0, 0),
    (0xc40f_a02f, AtomicOp::Minu, 0, 31, 0, 2),
    (0xc3f0_202f, AtomicOp::Minu, 0, 0, 31, 1),
    (0xc65a_a52f, AtomicOp::Minu, 10, 21, 5, 3),
    (0xe000_2faf, AtomicOp::Maxu, 31, 0, 0, 0),
    (0xe40f_a02f, AtomicOp::Maxu, 0, 31, 0, 2),
    (0xe3f0_202f, AtomicOp::Maxu, 0, 0, 31, 1),
    (0xe65a_a52f, AtomicOp::Maxu, 10, 21, 5, 3),
];

#[test]
fn decodes_as_another_assembler(rt: HostRuntime) {
    for &(word, op, rd, rs1, rs2, order) in &ASSEMBLED {
        let want = Atomic {
            op,
            rd,
            rs1,
            rs2,
            order,
        };
        same(&rt, &decode_atomic(word), &Some(want), word);
    }
}

/// Words that are no atomic instruction of this machine: others of RISC-V, and neighbours of words that are one.
static OTHERS: [u32; 21] = [
    0x0000_0000, // the all-zeros word
    0xffff_ffff, // the all-ones word
    0x1012_a3af, // lr.w with rs2 1
    0x11f2_a3af, // lr.w with rs2 31
    0x0062_b3af, // amoadd.d x7, x6, (x5)
    0x1002_b3af, // lr.d x7, (x5)
    0x1862_b42f, // sc.d x8, x6, (x5)
    0x0062_83af, // amoadd with funct3 0
    0x0062_93af, // amoadd with funct3 1
    0x0062_c3af, // amoadd with funct3 4
    0x0062_e3af, // amoadd with funct3 6
    0x2862_a3af, // funct5 00101
    0x3062_a3af, // funct5 00110
    0x4862_a3af, // funct5 01001
    0x8862_a3af, // funct5 10001
    0xf862_a3af, // funct5 11111
    0x0062_a3a7, // the opcode of floating-point stores
    0x0062_a3bf, // opcode 0111111
    0x0062_a3ad, // opcode 0101101
    0x0062_a3ae, // opcode 0101110
    0x0002_a383, // lw x7, 0(x5)
];

#[test]
fn refuses_other_words(rt: HostRuntime) {
    for &word in &OTHERS {
        holds(&rt, decode_atomic(word).is_none(), word);
    }
}

/// An operation, the word that stood, the operand, and what is stored, by the manual's sentences; the operands are
/// mostly those of the RISC-V project's own tests (rv32ua).
static COMBINED: [(AtomicOp, u32, u32, u32); 24] = [
    (AtomicOp::Add, 0x8000_0000, 0xffff_f800, 0x7fff_f800),
    (AtomicOp::Add, 0x7fff_f800, 0x8000_0000, 0xffff_f800),
    (AtomicOp::Add, 0xffff_ffff, 1, 0),
    (AtomicOp::And, 0x8000_0000, 0xffff_f800, 0x8000_0000),
    (AtomicOp::And, 0xffff_f800, 0x0000_0fff, 0x0000_0800),
    (AtomicOp::Or, 0x8000_0000, 0xffff_f800, 0xffff_f800),
    (AtomicOp::Or, 0xffff_f800, 1, 0xffff_f801),
    (AtomicOp::Xor, 0x8000_0000, 0xffff_f800, 0x7fff_f800),
    (AtomicOp::Xor, 0x7fff_f800, 0xc000_0001, 0xbfff_f801),
    (AtomicOp::Swap, 0x8000_0000, 0xffff_f800, 0xffff_f800),
    (AtomicOp::Max, 0x8000_0000, 0xffff_f800, 0xffff_f800),
    (AtomicOp::Max, 0, 1, 1),
    (AtomicOp::Max, 0x8000_0000, 0x7fff_ffff, 0x7fff_ffff),
    (AtomicOp::Maxu, 0x8000_0000, 0xffff_f800, 0xffff_f800),
    (AtomicOp::Maxu, 0, 0xffff_ffff, 0xffff_ffff),
    (AtomicOp::Maxu, 0x7fff_ffff, 0x8000_0000, 0x8000_0000),
    (AtomicOp::Min, 0x8000_0000, 0xffff_f800, 0x8000_0000),
    (AtomicOp::Min, 0, 0xffff_ffff, 0xffff_ffff),
    (AtomicOp::Min, 0x7fff_ffff, 0x8000_0000, 0x8000_0000),
    (AtomicOp::Minu, 0x8000_0000, 0xffff_f800, 0x8000_0000),
    (AtomicOp::Minu, 0, 0xffff_ffff, 0),
    (AtomicOp::Minu, 0x8000_0000, 0x7fff_ffff, 0x7fff_ffff),
    (AtomicOp::Lr, 5, 9, 5),
    (AtomicOp::Sc, 5, 9, 5),
];

#[test]
fn combines_at_the_ends(rt: HostRuntime) {
    for &(op, old, operand, stored) in &COMBINED {
        same(
            &rt,
            &(op, old, combine(op, old, operand)),
            &(op, old, stored),
            operand,
        );
    }
}

const LR: u32 = 0x1002_a3af; // lr.w x7, (x5)

const SC: u32 = 0x1862_a3af; // sc.w x7, x6, (x5)

const ADD: u32 = 0x0062_a3af; // amoadd.w x7, x6, (x5)

const ADD_TO_ADDRESS: u32 = 0x0062_a2af; // amoadd.w x5, x6, (x5)

const ADD_TO_OPERAND: u32 = 0x0062_a32f; // amoadd.w x6, x6, (x5)

const ADD_TO_ZERO: u32 = 0x0062_a02f; // amoadd.w x0, x6, (x5)

const STORE: u32 = 0x0062_a023; // sw x6, 0(x5)

const WORD: u32 = 0x8000_1000;

/// RAM of three frames for two harts: the instruction at 0x80000000, and a 5 in the word at 0x80001000.
fn ram_with(alloc: Global, instruction: u32) -> Result<FlatRam, Fail> {
    let mut code = [0; 4096];
    code[..4].copy_from_slice(&instruction.to_le_bytes());
    code[4..8].copy_from_slice(&LR.to_le_bytes());
    code[8..12].copy_from_slice(&SC.to_le_bytes());
    code[12..16].copy_from_slice(&ADD.to_le_bytes());
    code[16..20].copy_from_slice(&STORE.to_le_bytes());
    let mut data = [0; 4096];
    data[0] = 5;
    let frames = Vec::from_array(alloc, [code, data, [0; 4096]])?;
    Ok(FlatRam {
        frames,
        reservations: Reservations::none(2),
    })
}

/// The lowest byte of the word at 0x80001000.
fn low_byte(m: &FlatRam) -> u8 {
    match m.frames.get(1) {
        Some(frame) => frame[0],
        None => 0xff,
    }
}

/// A hart at this place of frame 0, with this address in x5, and 9 in x6.
fn hart(number: u32, place: u8, address: u32) -> Hart {
    let mut h = Hart::start(0x8000_0000 + u32::from(place) / 4 * 4, number);
    h.regs.set(5, address);
    h.regs.set(6, 9);
    h
}

/// Instructions of one hart: the word and the address; x5, x6 and x7 and the word at 0x80001000 after it.
static MADE: [(&str, u32, u32, (u32, u32, u32, u8)); 6] = [
    ("lr", LR, WORD, (WORD, 9, 5, 5)),
    ("sc", SC, WORD, (WORD, 9, 1, 5)),
    ("amoadd", ADD, WORD, (WORD, 9, 5, 14)),
    ("rd is rs1", ADD_TO_ADDRESS, WORD, (5, 9, 0, 14)),
    ("rd is rs2", ADD_TO_OPERAND, WORD, (WORD, 5, 0, 14)),
    ("rd is x0", ADD_TO_ZERO, WORD, (WORD, 9, 0, 14)),
];

/// Makes the step of a row.
fn made(
    rt: &impl Abort,
    alloc: Global,
    row: &(&'static str, u32, u32, (u32, u32, u32, u8)),
) -> Result<(), Fail> {
    let &(name, instruction, address, want) = row;
    let mut d = Disk::open(alloc, &[])?;
    let mut m = ram_with(alloc, instruction)?;
    let mut h = hart(0, 0, address);
    let ending = kernel_step(&mut h, &mut d, &mut m);
    same(rt, &ending, &Kernel::Stay, name);
    let left = (h.regs.get(5), h.regs.get(6), h.regs.get(7), low_byte(&m));
    same(rt, &left, &want, name);
    Ok(())
}

#[test]
fn makes_atomic_instructions(rt: HostRuntime) -> Result<(), Fail> {
    for row in &MADE {
        made(&rt, rt.alloc(), row)?;
    }
    Ok(())
}

/// Instructions that trap: the word and the address; the cause.
static TRAPS: [(&str, u32, u32, u32); 7] = [
    ("lr at no multiple of 4", LR, WORD + 2, 4),
    ("sc at no multiple of 4", SC, WORD + 1, 6),
    ("amoadd at no multiple of 4", ADD, WORD + 3, 6),
    ("no multiple of 4 goes first", LR, 0x8000_3002, 4),
    ("lr outside RAM", LR, 0x8000_3000, 5),
    ("sc outside RAM", SC, 0x8000_3000, 7),
    ("amoadd outside RAM", ADD, 0x8000_3000, 7),
];

/// Makes the step of a row.
fn trapped(
    rt: &impl Abort,
    alloc: Global,
    row: &(&'static str, u32, u32, u32),
) -> Result<(), Fail> {
    let &(name, instruction, address, cause) = row;
    let mut d = Disk::open(alloc, &[])?;
    let mut m = ram_with(alloc, instruction)?;
    let mut h = hart(0, 0, address);
    let ending = kernel_step(&mut h, &mut d, &mut m);
    same(rt, &ending, &Kernel::Trapped, name);
    same(
        rt,
        &(h.csrs.read(0x142), h.csrs.read(0x143)),
        &(Some(cause), Some(address)),
        name,
    );
    Ok(())
}

#[test]
fn traps_at_atomic_instructions(rt: HostRuntime) -> Result<(), Fail> {
    for row in &TRAPS {
        trapped(&rt, rt.alloc(), row)?;
    }
    Ok(())
}

/// Steps on one memory, one after another: the hart and the place of its instruction (0 traps, 4 LR, 8 SC, 12 AMOADD,
/// 16 SW); x7 and the word after it.
static RESERVATIONS: [(&str, u32, u8, u32, u8); 20] = [
    ("nothing is reserved", 0, 8, 1, 5),
    ("hart 0 reserves", 0, 4, 5, 5),
    ("hart 1 has no reservation", 1, 8, 1, 5),
    ("hart 0 stores", 0, 8, 0, 9),
    ("once", 0, 8, 1, 9),
    ("hart 0 reserves again", 0, 4, 9, 9),
    ("hart 1 stores the same value", 1, 16, 0, 9),
    ("so hart 0 stores nothing", 0, 8, 1, 9),
    ("both reserve", 0, 4, 9, 9),
    ("the second too", 1, 4, 9, 9),
    ("the second stores", 1, 8, 0, 9),
    ("so the first does not", 0, 8, 1, 9),
    ("hart 0 reserves, and traps", 0, 4, 9, 9),
    ("a trap", 0, 0, 0, 9),
    ("so it stores nothing", 0, 8, 1, 9),
    ("hart 0 reserves, and hart 1 traps", 0, 4, 9, 9),
    ("a trap of another", 1, 0, 0, 9),
    ("it stores", 0, 8, 0, 9),
    ("hart 1 reserves", 1, 4, 9, 9),
    ("hart 0 adds", 0, 12, 9, 18),
];

/// Makes the step of a row.
fn stepped(rt: &impl Abort, d: &mut Disk, m: &mut FlatRam, row: &(&'static str, u32, u8, u32, u8)) {
    let &(name, number, place, value, word) = row;
    let mut h = hart(number, place, WORD);
    let _ = kernel_step(&mut h, d, m);
    same(rt, &(h.regs.get(7), low_byte(m)), &(value, word), name);
}

#[test]
fn reserves_words(rt: HostRuntime) -> Result<(), Fail> {
    let mut d = Disk::open(rt.alloc(), &[])?;
    let mut m = ram_with(rt.alloc(), 0)?;
    for row in &RESERVATIONS {
        stepped(&rt, &mut d, &mut m, row);
    }
    Ok(())
}
