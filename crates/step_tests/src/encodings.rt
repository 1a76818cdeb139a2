//! Words that another assembler made.

use crate::checks::{holds, same};
use rv_isa::{Instr, decode};

/// LLVM 14's assembler for RV32IM (its immediates, shifts and register numbers at their ends): a word, the
/// mnemonic and the operands in the order of the fields of `Instr`. Of a fence the operand is the word
/// without its bits 14..12 and 6..0.
static ASSEMBLED: [(u32, &str, [i64; 3]); 173] = [
    (0x0000_0037, "lui", [0, 0, 0]),
    (0xffff_ffb7, "lui", [31, 0xffff_f000, 0]),
    (0x8000_00b7, "lui", [1, 0x8000_0000, 0]),
    (0x0000_1137, "lui", [2, 4096, 0]),
    (0x0000_0017, "auipc", [0, 0, 0]),
    (0xffff_ff97, "auipc", [31, 0xffff_f000, 0]),
    (0x8000_0097, "auipc", [1, 0x8000_0000, 0]),
    (0x0000_1117, "auipc", [2, 4096, 0]),
    (0x8000_0fef, "jal", [31, -1048576, 0]),
    (0x7fff_ffef, "jal", [31, 1048574, 0]),
    (0xffff_ffef, "jal", [31, -2, 0]),
    (0x0010_0fef, "jal", [31, 2048, 0]),
    (0x0000_106f, "jal", [0, 4096, 0]),
    (0x8000_0fe7, "jalr", [31, 0, -2048]),
    (0x7fff_8067, "jalr", [0, 31, 2047]),
    (0xfff1_00e7, "jalr", [1, 2, -1]),
    (0x800f_8063, "beq", [31, 0, -4096]),
    (0x7ff0_0fe3, "beq", [0, 31, 4094]),
    (0x8020_80e3, "beq", [1, 2, -2048]),
    (0x800f_9063, "bne", [31, 0, -4096]),
    (0x7ff0_1fe3, "bne", [0, 31, 4094]),
    (0x0020_90e3, "bne", [1, 2, 2048]),
    (0x800f_c063, "blt", [31, 0, -4096]),
    (0x7ff0_4fe3, "blt", [0, 31, 4094]),
    (0x8020_c0e3, "blt", [1, 2, -2048]),
    (0x800f_d063, "bge", [31, 0, -4096]),
    (0x7ff0_5fe3, "bge", [0, 31, 4094]),
    (0x8020_d0e3, "bge", [1, 2, -2048]),
    (0x800f_e063, "bltu", [31, 0, -4096]),
    (0x7ff0_6fe3, "bltu", [0, 31, 4094]),
    (0x8020_e0e3, "bltu", [1, 2, -2048]),
    (0x800f_f063, "bgeu", [31, 0, -4096]),
    (0x7ff0_7fe3, "bgeu", [0, 31, 4094]),
    (0x8020_f0e3, "bgeu", [1, 2, -2048]),
    (0x8000_0f83, "lb", [31, 0, -2048]),
    (0x7fff_8003, "lb", [0, 31, 2047]),
    (0xfff1_0083, "lb", [1, 2, -1]),
    (0x8000_1f83, "lh", [31, 0, -2048]),
    (0x7fff_9003, "lh", [0, 31, 2047]),
    (0xfff1_1083, "lh", [1, 2, -1]),
    (0x8000_2f83, "lw", [31, 0, -2048]),
    (0x7fff_a003, "lw", [0, 31, 2047]),
    (0xfff1_2083, "lw", [1, 2, -1]),
    (0x8000_4f83, "lbu", [31, 0, -2048]),
    (0x7fff_c003, "lbu", [0, 31, 2047]),
    (0xfff1_4083, "lbu", [1, 2, -1]),
    (0x8000_5f83, "lhu", [31, 0, -2048]),
    (0x7fff_d003, "lhu", [0, 31, 2047]),
    (0xfff1_5083, "lhu", [1, 2, -1]),
    (0x800f_8023, "sb", [31, 0, -2048]),
    (0x7ff0_0fa3, "sb", [0, 31, 2047]),
    (0x0020_8fa3, "sb", [1, 2, 31]),
    (0x0211_0023, "sb", [2, 1, 32]),
    (0x800f_9023, "sh", [31, 0, -2048]),
    (0x7ff0_1fa3, "sh", [0, 31, 2047]),
    (0x0020_9fa3, "sh", [1, 2, 31]),
    (0x0211_1023, "sh", [2, 1, 32]),
    (0x800f_a023, "sw", [31, 0, -2048]),
    (0x7ff0_2fa3, "sw", [0, 31, 2047]),
    (0x0020_afa3, "sw", [1, 2, 31]),
    (0x0211_2023, "sw", [2, 1, 32]),
    (0x8000_0f93, "addi", [31, 0, -2048]),
    (0x7fff_8013, "addi", [0, 31, 2047]),
    (0xfff1_0093, "addi", [1, 2, -1]),
    (0x8000_2f93, "slti", [31, 0, -2048]),
    (0x7fff_a013, "slti", [0, 31, 2047]),
    (0xfff1_2093, "slti", [1, 2, -1]),
    (0x8000_3f93, "sltiu", [31, 0, -2048]),
    (0x7fff_b013, "sltiu", [0, 31, 2047]),
    (0xfff1_3093, "sltiu", [1, 2, -1]),
    (0x8000_4f93, "xori", [31, 0, -2048]),
    (0x7fff_c013, "xori", [0, 31, 2047]),
    (0xfff1_4093, "xori", [1, 2, -1]),
    (0x8000_6f93, "ori", [31, 0, -2048]),
    (0x7fff_e013, "ori", [0, 31, 2047]),
    (0xfff1_6093, "ori", [1, 2, -1]),
    (0x8000_7f93, "andi", [31, 0, -2048]),
    (0x7fff_f013, "andi", [0, 31, 2047]),
    (0xfff1_7093, "andi", [1, 2, -1]),
    (0x01f0_1f93, "slli", [31, 0, 31]),
    (0x000f_9013, "slli", [0, 31, 0]),
    (0x0101_1093, "slli", [1, 2, 16]),
    (0x01f0_5f93, "srli", [31, 0, 31]),
    (0x000f_d013, "srli", [0, 31, 0]),
    (0x0101_5093, "srli", [1, 2, 16]),
    (0x41f0_5f93, "srai", [31, 0, 31]),
    (0x400f_d013, "srai", [0, 31, 0]),
    (0x4101_5093, "srai", [1, 2, 16]),
    (0x0000_0fb3, "add", [31, 0, 0]),
    (0x000f_8033, "add", [0, 31, 0]),
    (0x01f0_0033, "add", [0, 0, 31]),
    (0x4000_0fb3, "sub", [31, 0, 0]),
    (0x400f_8033, "sub", [0, 31, 0]),
    (0x41f0_0033, "sub", [0, 0, 31]),
    (0x0000_1fb3, "sll", [31, 0, 0]),
    (0x000f_9033, "sll", [0, 31, 0]),
    (0x01f0_1033, "sll", [0, 0, 31]),
    (0x0000_2fb3, "slt", [31, 0, 0]),
    (0x000f_a033, "slt", [0, 31, 0]),
    (0x01f0_2033, "slt", [0, 0, 31]),
    (0x0000_3fb3, "sltu", [31, 0, 0]),
    (0x000f_b033, "sltu", [0, 31, 0]),
    (0x01f0_3033, "sltu", [0, 0, 31]),
    (0x0000_4fb3, "xor", [31, 0, 0]),
    (0x000f_c033, "xor", [0, 31, 0]),
    (0x01f0_4033, "xor", [0, 0, 31]),
    (0x0000_5fb3, "srl", [31, 0, 0]),
    (0x000f_d033, "srl", [0, 31, 0]),
    (0x01f0_5033, "srl", [0, 0, 31]),
    (0x4000_5fb3, "sra", [31, 0, 0]),
    (0x400f_d033, "sra", [0, 31, 0]),
    (0x41f0_5033, "sra", [0, 0, 31]),
    (0x0000_6fb3, "or", [31, 0, 0]),
    (0x000f_e033, "or", [0, 31, 0]),
    (0x01f0_6033, "or", [0, 0, 31]),
    (0x0000_7fb3, "and", [31, 0, 0]),
    (0x000f_f033, "and", [0, 31, 0]),
    (0x01f0_7033, "and", [0, 0, 31]),
    (0x0200_0fb3, "mul", [31, 0, 0]),
    (0x020f_8033, "mul", [0, 31, 0]),
    (0x03f0_0033, "mul", [0, 0, 31]),
    (0x0200_1fb3, "mulh", [31, 0, 0]),
    (0x020f_9033, "mulh", [0, 31, 0]),
    (0x03f0_1033, "mulh", [0, 0, 31]),
    (0x0200_2fb3, "mulhsu", [31, 0, 0]),
    (0x020f_a033, "mulhsu", [0, 31, 0]),
    (0x03f0_2033, "mulhsu", [0, 0, 31]),
    (0x0200_3fb3, "mulhu", [31, 0, 0]),
    (0x020f_b033, "mulhu", [0, 31, 0]),
    (0x03f0_3033, "mulhu", [0, 0, 31]),
    (0x0200_4fb3, "div", [31, 0, 0]),
    (0x020f_c033, "div", [0, 31, 0]),
    (0x03f0_4033, "div", [0, 0, 31]),
    (0x0200_5fb3, "divu", [31, 0, 0]),
    (0x020f_d033, "divu", [0, 31, 0]),
    (0x03f0_5033, "divu", [0, 0, 31]),
    (0x0200_6fb3, "rem", [31, 0, 0]),
    (0x020f_e033, "rem", [0, 31, 0]),
    (0x03f0_6033, "rem", [0, 0, 31]),
    (0x0200_7fb3, "remu", [31, 0, 0]),
    (0x020f_f033, "remu", [0, 31, 0]),
    (0x03f0_7033, "remu", [0, 0, 31]),
    (0x0ff0_000f, "fence", [0x0ff0_0000, 0, 0]),
    (0x0310_000f, "fence", [0x0310_0000, 0, 0]),
    (0x8330_000f, "fence", [0x8330_0000, 0, 0]),
    (0xffff_8f8f, "fence", [0xffff_8f80, 0, 0]),
    (0x0000_100f, "fence.i", [0, 0, 0]),
    (0xffff_9f8f, "fence.i", [0xffff_8f80, 0, 0]),
    (0xfff0_1ff3, "csrrw", [31, 0, 4095]),
    (0x000f_9073, "csrrw", [0, 31, 0]),
    (0x1801_10f3, "csrrw", [1, 2, 384]),
    (0xfff0_2ff3, "csrrs", [31, 0, 4095]),
    (0x000f_a073, "csrrs", [0, 31, 0]),
    (0x1801_20f3, "csrrs", [1, 2, 384]),
    (0xfff0_3ff3, "csrrc", [31, 0, 4095]),
    (0x000f_b073, "csrrc", [0, 31, 0]),
    (0x1801_30f3, "csrrc", [1, 2, 384]),
    (0xfff0_5ff3, "csrrwi", [31, 0, 4095]),
    (0x000f_d073, "csrrwi", [0, 31, 0]),
    (0x1001_50f3, "csrrwi", [1, 2, 256]),
    (0xfff0_6ff3, "csrrsi", [31, 0, 4095]),
    (0x000f_e073, "csrrsi", [0, 31, 0]),
    (0x1001_60f3, "csrrsi", [1, 2, 256]),
    (0xfff0_7ff3, "csrrci", [31, 0, 4095]),
    (0x000f_f073, "csrrci", [0, 31, 0]),
    (0x1001_70f3, "csrrci", [1, 2, 256]),
    (0x0000_0073, "ecall", [0, 0, 0]),
    (0x0010_0073, "ebreak", [0, 0, 0]),
    (0x1020_0073, "sret", [0, 0, 0]),
    (0x1050_0073, "wfi", [0, 0, 0]),
    (0x120f_8073, "sfence.vma", [31, 0, 0]),
    (0x13f0_0073, "sfence.vma", [0, 31, 0]),
    (0x1200_0073, "sfence.vma", [0, 0, 0]),
];

/// Words that are no instruction here: other words of RISC-V (RV64, machine mode, the hypervisor,
/// atomics, which have a table of their own, floats, compressed words) and neighbours of words that are one.
static ILLEGAL: [u32; 40] = [
    0x0000_0000, // the all-zeros word
    0xffff_ffff, // the all-ones word
    0x0000_0001, // c.nop
    0x0000_2067, // jalr with funct3 2
    0x0000_2063, // branch with funct3 2
    0x0000_3063, // branch with funct3 3
    0x0000_3003, // ld
    0x0000_6003, // lwu
    0x0000_7003, // load with funct3 7
    0x0000_3023, // sd
    0x0000_4023, // store with funct3 4
    0x0210_9093, // slli x1, x1, 33
    0x0210_d093, // srli x1, x1, 33
    0x4210_d093, // srai x1, x1, 33
    0x4010_9093, // slli with funct7 0100000
    0x6000_9093, // clz x1, x1
    0x4000_1033, // sll with funct7 0100000
    0x4000_2033, // slt with funct7 0100000
    0x4000_7033, // andn x0, x0, x0
    0x0400_0033, // add with funct7 0000010
    0x2000_2033, // sh1add x0, x0, x0
    0x0000_001b, // addiw x0, x0, 0
    0x0000_003b, // addw x0, x0, x0
    0x0000_200f, // misc-mem with funct3 2
    0x1000_202f, // lr.w x0, (x0)
    0x0000_202f, // amoadd.w x0, x0, (x0)
    0x0000_2007, // flw f0, 0(x0)
    0x0000_0053, // fadd.s f0, f0, f0, rne
    0x0000_4073, // system with funct3 4
    0x0000_00f3, // ecall with rd 1
    0x0000_8073, // ecall with rs1 1
    0x0020_0073, // uret
    0x3020_0073, // mret
    0x1020_00f3, // sret with rd 1
    0x1020_8073, // sret with rs1 1
    0x1050_00f3, // wfi with rd 1
    0x7b20_0073, // dret
    0x1200_00f3, // sfence.vma with rd 1
    0x1600_0073, // sinval.vma x0, x0
    0x2200_0073, // hfence.vvma x0, x0
];

/// The mnemonic and the fields.
fn listing(i: Instr) -> (&'static str, [i64; 3]) {
    match i {
        Instr::Lui { rd, imm } => ("lui", [i64::from(rd), i64::from(imm), 0]),
        Instr::Auipc { rd, imm } => ("auipc", [i64::from(rd), i64::from(imm), 0]),
        Instr::Jal { rd, imm } => ("jal", [i64::from(rd), i64::from(imm), 0]),
        Instr::Jalr { rd, rs1, imm } => ("jalr", [i64::from(rd), i64::from(rs1), i64::from(imm)]),
        Instr::Beq { rs1, rs2, imm } => ("beq", [i64::from(rs1), i64::from(rs2), i64::from(imm)]),
        Instr::Bne { rs1, rs2, imm } => ("bne", [i64::from(rs1), i64::from(rs2), i64::from(imm)]),
        Instr::Blt { rs1, rs2, imm } => ("blt", [i64::from(rs1), i64::from(rs2), i64::from(imm)]),
        Instr::Bge { rs1, rs2, imm } => ("bge", [i64::from(rs1), i64::from(rs2), i64::from(imm)]),
        Instr::Bltu { rs1, rs2, imm } => ("bltu", [i64::from(rs1), i64::from(rs2), i64::from(imm)]),
        Instr::Bgeu { rs1, rs2, imm } => ("bgeu", [i64::from(rs1), i64::from(rs2), i64::from(imm)]),
        Instr::Lb { rd, rs1, imm } => ("lb", [i64::from(rd), i64::from(rs1), i64::from(imm)]),
        Instr::Lh { rd, rs1, imm } => ("lh", [i64::from(rd), i64::from(rs1), i64::from(imm)]),
        Instr::Lw { rd, rs1, imm } => ("lw", [i64::from(rd), i64::from(rs1), i64::from(imm)]),
        Instr::Lbu { rd, rs1, imm } => ("lbu", [i64::from(rd), i64::from(rs1), i64::from(imm)]),
        Instr::Lhu { rd, rs1, imm } => ("lhu", [i64::from(rd), i64::from(rs1), i64::from(imm)]),
        Instr::Sb { rs1, rs2, imm } => ("sb", [i64::from(rs1), i64::from(rs2), i64::from(imm)]),
        Instr::Sh { rs1, rs2, imm } => ("sh", [i64::from(rs1), i64::from(rs2), i64::from(imm)]),
        Instr::Sw { rs1, rs2, imm } => ("sw", [i64::from(rs1), i64::from(rs2), i64::from(imm)]),
        Instr::Addi { rd, rs1, imm } => ("addi", [i64::from(rd), i64::from(rs1), i64::from(imm)]),
        Instr::Slti { rd, rs1, imm } => ("slti", [i64::from(rd), i64::from(rs1), i64::from(imm)]),
        Instr::Sltiu { rd, rs1, imm } => ("sltiu", [i64::from(rd), i64::from(rs1), i64::from(imm)]),
        Instr::Xori { rd, rs1, imm } => ("xori", [i64::from(rd), i64::from(rs1), i64::from(imm)]),
        Instr::Ori { rd, rs1, imm } => ("ori", [i64::from(rd), i64::from(rs1), i64::from(imm)]),
        Instr::Andi { rd, rs1, imm } => ("andi", [i64::from(rd), i64::from(rs1), i64::from(imm)]),
        Instr::Slli { rd, rs1, shamt } => (
            "slli",
            [i64::from(rd), i64::from(rs1), i64::from(shamt)],
        ),
        Instr::Srli { rd, rs1, shamt } => (
            "srli",
            [i64::from(rd), i64::from(rs1), i64::from(shamt)],
        ),
        Instr::Srai { rd, rs1, shamt } => (
            "srai",
            [i64::from(rd), i64::from(rs1), i64::from(shamt)],
        ),
        Instr::Add { rd, rs1, rs2 } => ("add", [i64::from(rd), i64::from(rs1), i64::from(rs2)]),
        Instr::Sub { rd, rs1, rs2 } => ("sub", [i64::from(rd), i64::from(rs1), i64::from(rs2)]),
        Instr::Sll { rd, rs1, rs2 } => ("sll", [i64::from(rd), i64::from(rs1), i64::from(rs2)]),
        Instr::Slt { rd, rs1, rs2 } => ("slt", [i64::from(rd), i64::from(rs1), i64::from(rs2)]),
        Instr::Sltu { rd, rs1, rs2 } => ("sltu", [i64::from(rd), i64::from(rs1), i64::from(rs2)]),
        Instr::Xor { rd, rs1, rs2 } => ("xor", [i64::from(rd), i64::from(rs1), i64::from(rs2)]),
        Instr::Srl { rd, rs1, rs2 } => ("srl", [i64::from(rd), i64::from(rs1), i64::from(rs2)]),
        Instr::Sra { rd, rs1, rs2 } => ("sra", [i64::from(rd), i64::from(rs1), i64::from(rs2)]),
        Instr::Or { rd, rs1, rs2 } => ("or", [i64::from(rd), i64::from(rs1), i64::from(rs2)]),
        Instr::And { rd, rs1, rs2 } => ("and", [i64::from(rd), i64::from(rs1), i64::from(rs2)]),
        Instr::Mul { rd, rs1, rs2 } => ("mul", [i64::from(rd), i64::from(rs1), i64::from(rs2)]),
        Instr::Mulh { rd, rs1, rs2 } => ("mulh", [i64::from(rd), i64::from(rs1), i64::from(rs2)]),
        Instr::Mulhsu { rd, rs1, rs2 } => (
            "mulhsu",
            [i64::from(rd), i64::from(rs1), i64::from(rs2)],
        ),
        Instr::Mulhu { rd, rs1, rs2 } => ("mulhu", [i64::from(rd), i64::from(rs1), i64::from(rs2)]),
        Instr::Div { rd, rs1, rs2 } => ("div", [i64::from(rd), i64::from(rs1), i64::from(rs2)]),
        Instr::Divu { rd, rs1, rs2 } => ("divu", [i64::from(rd), i64::from(rs1), i64::from(rs2)]),
        Instr::Rem { rd, rs1, rs2 } => ("rem", [i64::from(rd), i64::from(rs1), i64::from(rs2)]),
        Instr::Remu { rd, rs1, rs2 } => ("remu", [i64::from(rd), i64::from(rs1), i64::from(rs2)]),
        Instr::Fence { rest } => ("fence", [i64::from(rest), 0, 0]),
        Instr::FenceI { rest } => ("fence.i", [i64::from(rest), 0, 0]),
        Instr::Csrrw { rd, rs1, csr } => ("csrrw", [i64::from(rd), i64::from(rs1), i64::from(csr)]),
        Instr::Csrrs { rd, rs1, csr } => ("csrrs", [i64::from(rd), i64::from(rs1), i64::from(csr)]),
        Instr::Csrrc { rd, rs1, csr } => ("csrrc", [i64::from(rd), i64::from(rs1), i64::from(csr)]),
        Instr::Csrrwi { rd, uimm, csr } => (
            "csrrwi",
            [i64::from(rd), i64::from(uimm), i64::from(csr)],
        ),
        Instr::Csrrsi { rd, uimm, csr } => (
            "csrrsi",
            [i64::from(rd), i64::from(uimm), i64::from(csr)],
        ),
        Instr::Csrrci { rd, uimm, csr } => (
            "csrrci",
            [i64::from(rd), i64::from(uimm), i64::from(csr)],
        ),
        Instr::Ecall => ("ecall", [0, 0, 0]),
        Instr::Ebreak => ("ebreak", [0, 0, 0]),
        Instr::Sret => ("sret", [0, 0, 0]),
        Instr::Wfi => ("wfi", [0, 0, 0]),
        Instr::SfenceVma { rs1, rs2 } => ("sfence.vma", [i64::from(rs1), i64::from(rs2), 0]),
    }
}

#[test]
fn decodes_as_another_assembler(rt: HostRuntime) {
    for (word, mnemonic, operands) in &ASSEMBLED {
        let (name, fields) = listing(decode(*word).expect(&rt, mnemonic));
        same(&rt, &(name, fields), &(*mnemonic, *operands), *word);
    }
}

#[test]
fn refuses_other_words(rt: HostRuntime) {
    for word in &ILLEGAL {
        holds(&rt, decode(*word).is_none(), *word);
    }
}
