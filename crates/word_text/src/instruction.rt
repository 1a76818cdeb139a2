//! Instructions as text.
ghost use Rattle.std.specs.Prelude.{◌≡◌};
ghost use Rattle.rv_isa.specs.Range.{InRange};
ghost use Rattle.word_text.specs.Text as spec;

use crate::WordText;
use crate::forms::{
    bare_form, branch_form, csr_form, csr_immediate_form, immediate_form, jump_form, memory_form,
    register_form, shift_form, two_registers, upper_form,
};
use rv_isa::Instr;

/// The assembler has a form for the instruction.
pub fn has_form(i: &Instr) -> bool
    ensures { result ≡ spec.has_form i.now }
{
    match *i {
        Instr::Fence { rest } | Instr::FenceI { rest } => rest == 0,
        _ => true,
    }
}

/// An instruction at an address.
pub fn instruction_text(i: &Instr, at: u32) -> WordText
    requires { InRange i.now }
    ensures { result.items ≡ spec.instruction_text at i.now }
{
    match *i {
        Instr::Lui { rd, imm } => upper_form(b"lui", rd, imm),
        Instr::Auipc { rd, imm } => upper_form(b"auipc", rd, imm),
        Instr::Jal { rd, imm } => jump_form(rd, at, imm),
        Instr::Jalr { rd, rs1, imm } => memory_form(b"jalr", rd, imm, rs1),
        Instr::Beq { rs1, rs2, imm } => branch_form(b"beq", rs1, rs2, at, imm),
        Instr::Bne { rs1, rs2, imm } => branch_form(b"bne", rs1, rs2, at, imm),
        Instr::Blt { rs1, rs2, imm } => branch_form(b"blt", rs1, rs2, at, imm),
        Instr::Bge { rs1, rs2, imm } => branch_form(b"bge", rs1, rs2, at, imm),
        Instr::Bltu { rs1, rs2, imm } => branch_form(b"bltu", rs1, rs2, at, imm),
        Instr::Bgeu { rs1, rs2, imm } => branch_form(b"bgeu", rs1, rs2, at, imm),
        Instr::Lb { rd, rs1, imm } => memory_form(b"lb", rd, imm, rs1),
        Instr::Lh { rd, rs1, imm } => memory_form(b"lh", rd, imm, rs1),
        Instr::Lw { rd, rs1, imm } => memory_form(b"lw", rd, imm, rs1),
        Instr::Lbu { rd, rs1, imm } => memory_form(b"lbu", rd, imm, rs1),
        Instr::Lhu { rd, rs1, imm } => memory_form(b"lhu", rd, imm, rs1),
        Instr::Sb { rs1, rs2, imm } => memory_form(b"sb", rs2, imm, rs1),
        Instr::Sh { rs1, rs2, imm } => memory_form(b"sh", rs2, imm, rs1),
        Instr::Sw { rs1, rs2, imm } => memory_form(b"sw", rs2, imm, rs1),
        Instr::Addi { rd, rs1, imm } => immediate_form(b"addi", rd, rs1, imm),
        Instr::Slti { rd, rs1, imm } => immediate_form(b"slti", rd, rs1, imm),
        Instr::Sltiu { rd, rs1, imm } => immediate_form(b"sltiu", rd, rs1, imm),
        Instr::Xori { rd, rs1, imm } => immediate_form(b"xori", rd, rs1, imm),
        Instr::Ori { rd, rs1, imm } => immediate_form(b"ori", rd, rs1, imm),
        Instr::Andi { rd, rs1, imm } => immediate_form(b"andi", rd, rs1, imm),
        Instr::Slli { rd, rs1, shamt } => shift_form(b"slli", rd, rs1, shamt),
        Instr::Srli { rd, rs1, shamt } => shift_form(b"srli", rd, rs1, shamt),
        Instr::Srai { rd, rs1, shamt } => shift_form(b"srai", rd, rs1, shamt),
        Instr::Add { rd, rs1, rs2 } => register_form(b"add", rd, rs1, rs2),
        Instr::Sub { rd, rs1, rs2 } => register_form(b"sub", rd, rs1, rs2),
        Instr::Sll { rd, rs1, rs2 } => register_form(b"sll", rd, rs1, rs2),
        Instr::Slt { rd, rs1, rs2 } => register_form(b"slt", rd, rs1, rs2),
        Instr::Sltu { rd, rs1, rs2 } => register_form(b"sltu", rd, rs1, rs2),
        Instr::Xor { rd, rs1, rs2 } => register_form(b"xor", rd, rs1, rs2),
        Instr::Srl { rd, rs1, rs2 } => register_form(b"srl", rd, rs1, rs2),
        Instr::Sra { rd, rs1, rs2 } => register_form(b"sra", rd, rs1, rs2),
        Instr::Or { rd, rs1, rs2 } => register_form(b"or", rd, rs1, rs2),
        Instr::And { rd, rs1, rs2 } => register_form(b"and", rd, rs1, rs2),
        Instr::Mul { rd, rs1, rs2 } => register_form(b"mul", rd, rs1, rs2),
        Instr::Mulh { rd, rs1, rs2 } => register_form(b"mulh", rd, rs1, rs2),
        Instr::Mulhsu { rd, rs1, rs2 } => register_form(b"mulhsu", rd, rs1, rs2),
        Instr::Mulhu { rd, rs1, rs2 } => register_form(b"mulhu", rd, rs1, rs2),
        Instr::Div { rd, rs1, rs2 } => register_form(b"div", rd, rs1, rs2),
        Instr::Divu { rd, rs1, rs2 } => register_form(b"divu", rd, rs1, rs2),
        Instr::Rem { rd, rs1, rs2 } => register_form(b"rem", rd, rs1, rs2),
        Instr::Remu { rd, rs1, rs2 } => register_form(b"remu", rd, rs1, rs2),
        Instr::Fence { .. } => bare_form(b"fence"),
        Instr::FenceI { .. } => bare_form(b"fence.i"),
        Instr::Csrrw { rd, rs1, csr } => csr_form(b"csrrw", rd, csr, rs1),
        Instr::Csrrs { rd, rs1, csr } => csr_form(b"csrrs", rd, csr, rs1),
        Instr::Csrrc { rd, rs1, csr } => csr_form(b"csrrc", rd, csr, rs1),
        Instr::Csrrwi { rd, uimm, csr } => csr_immediate_form(b"csrrwi", rd, csr, uimm),
        Instr::Csrrsi { rd, uimm, csr } => csr_immediate_form(b"csrrsi", rd, csr, uimm),
        Instr::Csrrci { rd, uimm, csr } => csr_immediate_form(b"csrrci", rd, csr, uimm),
        Instr::Ecall => bare_form(b"ecall"),
        Instr::Ebreak => bare_form(b"ebreak"),
        Instr::Sret => bare_form(b"sret"),
        Instr::Wfi => bare_form(b"wfi"),
        Instr::SfenceVma { rs1, rs2 } => two_registers(b"sfence.vma", rs1, rs2),
    }
}
