//! Words as text. The texts are those of `llvm-mc` 14, of the command
//! `llvm-mc --disassemble -triple=riscv32 -mattr=+m,+a -M no-aliases -M numeric`, rewritten by these rules: upper immediates
//! and numbers of control and status registers are hexadecimal with all digits of their field, a branch or a jump names
//! the label of the address that it leads to, and FENCE has no operands. Words that it refuses, and words that this
//! machine's assembler has no form for, are written by their number.

use crate::checks::same;
use std::process::Abort;
use std::test::*;
use word_text::word_text;

/// Upper immediates, jumps, branches, loads, stores and immediates.
static IMMEDIATES: [(u32, &str); 32] = [
    (0x8000_02b7, "lui x5, 0x80000"),
    (0xffff_ffb7, "lui x31, 0xfffff"),
    (0x0000_1097, "auipc x1, 0x00001"),
    (0x0000_0517, "auipc x10, 0x00000"),
    (0x0400_00ef, "jal x1, L80000040"),
    (0x8000_006f, "jal x0, L7ff00000"),
    (0x7fff_ffef, "jal x31, L800ffffe"),
    (0x0002_80e7, "jalr x1, 0(x5)"),
    (0x8000_8067, "jalr x0, -2048(x1)"),
    (0x05f0_8063, "beq x1, x31, L80000040"),
    (0x81e1_1063, "bne x2, x30, L7ffff000"),
    (0x7fb2_cfe3, "blt x5, x27, L80000ffe"),
    (0xffa3_5fe3, "bge x6, x26, L7ffffffe"),
    (0x0193_e063, "bltu x7, x25, L80000000"),
    (0x0184_70e3, "bgeu x8, x24, L80000800"),
    (0x0009_0483, "lb x9, 0(x18)"),
    (0x7ff9_1503, "lh x10, 2047(x18)"),
    (0xffc9_2583, "lw x11, -4(x18)"),
    (0x8009_4683, "lbu x13, -2048(x18)"),
    (0x0019_5703, "lhu x14, 1(x18)"),
    (0xff14_0fa3, "sb x17, -1(x8)"),
    (0x7f14_9f23, "sh x17, 2046(x9)"),
    (0x8115_2023, "sw x17, -2048(x10)"),
    (0xff4f_0013, "addi x0, x30, -12"),
    (0x7fff_2113, "slti x2, x30, 2047"),
    (0x800f_3193, "sltiu x3, x30, -2048"),
    (0xffff_4213, "xori x4, x30, -1"),
    (0x001f_6313, "ori x6, x30, 1"),
    (0x0fff_7393, "andi x7, x30, 255"),
    (0x01f3_1293, "slli x5, x6, 31"),
    (0x0010_5513, "srli x10, x0, 1"),
    (0x410a_5993, "srai x19, x20, 16"),
];

/// Registers, control and status registers, the supervisor, and atomic instructions.
static REGISTERS: [(u32, &str); 45] = [
    (0x00c5_8533, "add x10, x11, x12"),
    (0x40c5_8533, "sub x10, x11, x12"),
    (0x00c5_9533, "sll x10, x11, x12"),
    (0x00c5_a533, "slt x10, x11, x12"),
    (0x00c5_b533, "sltu x10, x11, x12"),
    (0x00c5_c533, "xor x10, x11, x12"),
    (0x00c5_d533, "srl x10, x11, x12"),
    (0x40c5_d533, "sra x10, x11, x12"),
    (0x00c5_e533, "or x10, x11, x12"),
    (0x00c5_f533, "and x10, x11, x12"),
    (0x021f_8033, "mul x0, x31, x1"),
    (0x021f_9033, "mulh x0, x31, x1"),
    (0x021f_a033, "mulhsu x0, x31, x1"),
    (0x021f_b033, "mulhu x0, x31, x1"),
    (0x021f_c033, "div x0, x31, x1"),
    (0x021f_d033, "divu x0, x31, x1"),
    (0x021f_e033, "rem x0, x31, x1"),
    (0x021f_f033, "remu x0, x31, x1"),
    (0x0000_000f, "fence"),
    (0x0000_100f, "fence.i"),
    (0x1052_9073, "csrrw x0, 0x105, x5"),
    (0x1800_2373, "csrrs x6, 0x180, x0"),
    (0x1444_33f3, "csrrc x7, 0x144, x8"),
    (0x100f_d073, "csrrwi x0, 0x100, 31"),
    (0x1410_64f3, "csrrsi x9, 0x141, 0"),
    (0xc001_7073, "csrrci x0, 0xc00, 2"),
    (0x0000_0073, "ecall"),
    (0x0010_0073, "ebreak"),
    (0x1020_0073, "sret"),
    (0x1050_0073, "wfi"),
    (0x1202_8073, "sfence.vma x5, x0"),
    (0x13f0_0073, "sfence.vma x0, x31"),
    (0x1003_22af, "lr.w x5, (x6)"),
    (0x160f_2faf, "lr.w.aqrl x31, (x30)"),
    (0x1873_22af, "sc.w x5, x7, (x6)"),
    (0x1fff_a02f, "sc.w.aqrl x0, x31, (x31)"),
    (0x0a31_20af, "amoswap.w.rl x1, x3, (x2)"),
    (0x0062_a22f, "amoadd.w x4, x6, (x5)"),
    (0x2494_23af, "amoxor.w.aq x7, x9, (x8)"),
    (0x60c5_a52f, "amoand.w x10, x12, (x11)"),
    (0x46f7_26af, "amoor.w.aqrl x13, x15, (x14)"),
    (0x8328_a82f, "amomin.w.rl x16, x18, (x17)"),
    (0xa55a_29af, "amomax.w.aq x19, x21, (x20)"),
    (0xc18b_ab2f, "amominu.w x22, x24, (x23)"),
    (0xe7ff_afaf, "amomaxu.w.aqrl x31, x31, (x31)"),
];

/// Illegal words, MRET, and a FENCE with operands.
static NUMBERS: [(u32, &str); 11] = [
    (0x0000_0000, ".word 0x00000000"),
    (0xffff_ffff, ".word 0xffffffff"),
    (0x0000_1067, ".word 0x00001067"),
    (0x0000_3003, ".word 0x00003003"),
    (0x4000_1013, ".word 0x40001013"),
    (0x8200_0033, ".word 0x82000033"),
    (0x0ff0_000f, ".word 0x0ff0000f"),
    (0x0000_200f, ".word 0x0000200f"),
    (0x3020_0073, ".word 0x30200073"),
    (0x1015_202f, ".word 0x1015202f"),
    (0x0000_402f, ".word 0x0000402f"),
];

/// Shows that each word, at the address 0x80000000, has its text.
fn have_texts(rt: &impl Abort, table: &[(u32, &str)]) {
    for &(word, text) in table {
        same(
            rt,
            &word_text(word, 0x8000_0000).as_slice(),
            &text.as_bytes(),
            text,
        );
    }
}

#[test]
fn immediates_have_their_texts(rt: HostRuntime) {
    have_texts(&rt, &IMMEDIATES);
}

#[test]
fn registers_have_their_texts(rt: HostRuntime) {
    have_texts(&rt, &REGISTERS);
}

#[test]
fn numbers_have_their_texts(rt: HostRuntime) {
    have_texts(&rt, &NUMBERS);
}

/// `bge x6, x26, -2` at 0: addresses wrap.
#[test]
fn a_target_below_zero_is_high(rt: HostRuntime) {
    same(
        &rt,
        &word_text(0xffa3_5fe3, 0).as_slice(),
        &b"bge x6, x26, Lfffffffe".as_slice(),
        "target",
    );
}
