//! From words to instructions: a match on the opcode, then on funct3.

ghost use Rattle.std.specs.Prelude.{◌≡◌, IfSome};
ghost use Rattle.rv_isa.specs.Range.{InRange};
ghost use Rattle.rv_isa.specs.Table.{jalr_line, branch_line, load_line, store_line, op_imm_line, op_line, misc_mem_line, system_line, privileged_line, instruction};

use crate::fields::{bits, imm_b, imm_i, imm_j, imm_s, imm_u, rest};
use crate::{Instr, opcode};

/// The instruction of a word, or none if the word is illegal. Any `u32` may be given.
#[inline(always)]
#[tactic(auto, unfolding(crate::specs::Table::instruction))]
pub fn decode(word: u32) -> Option<Instr>
    ensures table { result ≡ instruction word }
    ensures range { IfSome result InRange }
{
    let rd = bits(word, 11, 7);
    match bits(word, 6, 0) {
        opcode::LUI => Some(Instr::Lui {
            rd,
            imm: imm_u(word),
        }),
        opcode::AUIPC => Some(Instr::Auipc {
            rd,
            imm: imm_u(word),
        }),
        opcode::JAL => Some(Instr::Jal {
            rd,
            imm: imm_j(word),
        }),
        opcode::JALR => decode_jalr(word),
        opcode::BRANCH => decode_branch(word),
        opcode::LOAD => decode_load(word),
        opcode::STORE => decode_store(word),
        opcode::OP_IMM => decode_op_imm(word),
        opcode::OP => decode_op(word),
        opcode::MISC_MEM => decode_misc_mem(word),
        opcode::SYSTEM => decode_system(word),
        _ => None,
    }
}

#[tactic(auto, unfolding(crate::specs::Table::jalr_line))]
fn decode_jalr(word: u32) -> Option<Instr>
    ensures table { result ≡ jalr_line word }
    ensures range { IfSome result InRange }
{
    let rd = bits(word, 11, 7);
    let rs1 = bits(word, 19, 15);
    let imm = imm_i(word);
    match bits(word, 14, 12) {
        0b000 => Some(Instr::Jalr { rd, rs1, imm }),
        _ => None,
    }
}

#[tactic(auto, unfolding(crate::specs::Table::branch_line))]
fn decode_branch(word: u32) -> Option<Instr>
    ensures table { result ≡ branch_line word }
    ensures range { IfSome result InRange }
{
    let rs1 = bits(word, 19, 15);
    let rs2 = bits(word, 24, 20);
    let imm = imm_b(word);
    match bits(word, 14, 12) {
        0b000 => Some(Instr::Beq { rs1, rs2, imm }),
        0b001 => Some(Instr::Bne { rs1, rs2, imm }),
        0b100 => Some(Instr::Blt { rs1, rs2, imm }),
        0b101 => Some(Instr::Bge { rs1, rs2, imm }),
        0b110 => Some(Instr::Bltu { rs1, rs2, imm }),
        0b111 => Some(Instr::Bgeu { rs1, rs2, imm }),
        _ => None,
    }
}

#[tactic(auto, unfolding(crate::specs::Table::load_line))]
fn decode_load(word: u32) -> Option<Instr>
    ensures table { result ≡ load_line word }
    ensures range { IfSome result InRange }
{
    let rd = bits(word, 11, 7);
    let rs1 = bits(word, 19, 15);
    let imm = imm_i(word);
    match bits(word, 14, 12) {
        0b000 => Some(Instr::Lb { rd, rs1, imm }),
        0b001 => Some(Instr::Lh { rd, rs1, imm }),
        0b010 => Some(Instr::Lw { rd, rs1, imm }),
        0b100 => Some(Instr::Lbu { rd, rs1, imm }),
        0b101 => Some(Instr::Lhu { rd, rs1, imm }),
        _ => None,
    }
}

#[tactic(auto, unfolding(crate::specs::Table::store_line))]
fn decode_store(word: u32) -> Option<Instr>
    ensures table { result ≡ store_line word }
    ensures range { IfSome result InRange }
{
    let rs1 = bits(word, 19, 15);
    let rs2 = bits(word, 24, 20);
    let imm = imm_s(word);
    match bits(word, 14, 12) {
        0b000 => Some(Instr::Sb { rs1, rs2, imm }),
        0b001 => Some(Instr::Sh { rs1, rs2, imm }),
        0b010 => Some(Instr::Sw { rs1, rs2, imm }),
        _ => None,
    }
}

#[tactic(auto, unfolding(crate::specs::Table::op_imm_line))]
fn decode_op_imm(word: u32) -> Option<Instr>
    ensures table { result ≡ op_imm_line word }
    ensures range { IfSome result InRange }
{
    let rd = bits(word, 11, 7);
    let rs1 = bits(word, 19, 15);
    let shamt = bits(word, 24, 20);
    let imm = imm_i(word);
    match (bits(word, 14, 12), bits(word, 31, 25)) {
        (0b000, _) => Some(Instr::Addi { rd, rs1, imm }),
        (0b010, _) => Some(Instr::Slti { rd, rs1, imm }),
        (0b011, _) => Some(Instr::Sltiu { rd, rs1, imm }),
        (0b100, _) => Some(Instr::Xori { rd, rs1, imm }),
        (0b110, _) => Some(Instr::Ori { rd, rs1, imm }),
        (0b111, _) => Some(Instr::Andi { rd, rs1, imm }),
        (0b001, 0b000_0000) => Some(Instr::Slli { rd, rs1, shamt }),
        (0b101, 0b000_0000) => Some(Instr::Srli { rd, rs1, shamt }),
        (0b101, 0b010_0000) => Some(Instr::Srai { rd, rs1, shamt }),
        _ => None,
    }
}

#[tactic(auto, unfolding(crate::specs::Table::op_line))]
fn decode_op(word: u32) -> Option<Instr>
    ensures table { result ≡ op_line word }
    ensures range { IfSome result InRange }
{
    let rd = bits(word, 11, 7);
    let rs1 = bits(word, 19, 15);
    let rs2 = bits(word, 24, 20);
    match (bits(word, 14, 12), bits(word, 31, 25)) {
        (0b000, 0b000_0000) => Some(Instr::Add { rd, rs1, rs2 }),
        (0b000, 0b010_0000) => Some(Instr::Sub { rd, rs1, rs2 }),
        (0b001, 0b000_0000) => Some(Instr::Sll { rd, rs1, rs2 }),
        (0b010, 0b000_0000) => Some(Instr::Slt { rd, rs1, rs2 }),
        (0b011, 0b000_0000) => Some(Instr::Sltu { rd, rs1, rs2 }),
        (0b100, 0b000_0000) => Some(Instr::Xor { rd, rs1, rs2 }),
        (0b101, 0b000_0000) => Some(Instr::Srl { rd, rs1, rs2 }),
        (0b101, 0b010_0000) => Some(Instr::Sra { rd, rs1, rs2 }),
        (0b110, 0b000_0000) => Some(Instr::Or { rd, rs1, rs2 }),
        (0b111, 0b000_0000) => Some(Instr::And { rd, rs1, rs2 }),
        (0b000, 0b000_0001) => Some(Instr::Mul { rd, rs1, rs2 }),
        (0b001, 0b000_0001) => Some(Instr::Mulh { rd, rs1, rs2 }),
        (0b010, 0b000_0001) => Some(Instr::Mulhsu { rd, rs1, rs2 }),
        (0b011, 0b000_0001) => Some(Instr::Mulhu { rd, rs1, rs2 }),
        (0b100, 0b000_0001) => Some(Instr::Div { rd, rs1, rs2 }),
        (0b101, 0b000_0001) => Some(Instr::Divu { rd, rs1, rs2 }),
        (0b110, 0b000_0001) => Some(Instr::Rem { rd, rs1, rs2 }),
        (0b111, 0b000_0001) => Some(Instr::Remu { rd, rs1, rs2 }),
        _ => None,
    }
}

#[tactic(auto, unfolding(crate::specs::Table::misc_mem_line))]
fn decode_misc_mem(word: u32) -> Option<Instr>
    ensures table { result ≡ misc_mem_line word }
    ensures range { IfSome result InRange }
{
    let rest = rest(word);
    match bits(word, 14, 12) {
        0b000 => Some(Instr::Fence { rest }),
        0b001 => Some(Instr::FenceI { rest }),
        _ => None,
    }
}

#[tactic(auto, unfolding(crate::specs::Table::system_line))]
fn decode_system(word: u32) -> Option<Instr>
    ensures table { result ≡ system_line word }
    ensures range { IfSome result InRange }
{
    let rd = bits(word, 11, 7);
    let rs1 = bits(word, 19, 15);
    let csr = bits(word, 31, 20);
    match bits(word, 14, 12) {
        0b000 => decode_privileged(word),
        0b001 => Some(Instr::Csrrw { rd, rs1, csr }),
        0b010 => Some(Instr::Csrrs { rd, rs1, csr }),
        0b011 => Some(Instr::Csrrc { rd, rs1, csr }),
        0b101 => Some(Instr::Csrrwi { rd, uimm: rs1, csr }),
        0b110 => Some(Instr::Csrrsi { rd, uimm: rs1, csr }),
        0b111 => Some(Instr::Csrrci { rd, uimm: rs1, csr }),
        _ => None,
    }
}

#[tactic(auto, unfolding(crate::specs::Table::privileged_line))]
fn decode_privileged(word: u32) -> Option<Instr>
    ensures table { result ≡ privileged_line word }
    ensures range { IfSome result InRange }
{
    let rs1 = bits(word, 19, 15);
    let rs2 = bits(word, 24, 20);
    match word {
        0x0000_0073 => Some(Instr::Ecall),
        0x0010_0073 => Some(Instr::Ebreak),
        0x1020_0073 => Some(Instr::Sret),
        0x1050_0073 => Some(Instr::Wfi),
        _ if bits(word, 31, 25) == 0b000_1001 && bits(word, 11, 7) == 0 => {
            Some(Instr::SfenceVma { rs1, rs2 })
        }
        _ => None,
    }
}
