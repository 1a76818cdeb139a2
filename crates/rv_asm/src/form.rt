//! The instructions that need no label, each from the text of its operands.

ghost use Rattle.std.specs.Prelude.{◌≡◌, IfSome};
ghost use Rattle.rv_isa.specs.Range.{InRange};
ghost use Rattle.rv_asm.specs.Statements.{register_form, immediate_form, shift_form, upper_form, load_form};
ghost use Rattle.rv_asm.specs.Statements.{store_form, csr_form, csr_immediate_form, fence_form};

use crate::operand::{
    immediate_operand, memory_operand, register_operand, three, unsigned_operand,
};
use crate::operation::{
    CsrImmediateOp, CsrOp, ImmediateOp, LoadOp, RegisterOp, ShiftOp, StoreOp, UpperOp,
    csr_immediate_instruction, csr_instruction, immediate_instruction, load_instruction,
    register_instruction, shift_instruction, store_instruction, upper_instruction,
};
use crate::words::cut;
use rv_isa::Instr;

#[tactic(auto, unfolding(crate::specs::Statements::register_form))]
pub fn register_form(op: RegisterOp, text: &[u8]) -> Option<Instr>
    ensures value { result ≡ register_form op text.now }
    ensures range { IfSome result InRange }
{
    let (rd, rs1, rs2) = three(text)?;
    let rd = register_operand(rd)?;
    let rs1 = register_operand(rs1)?;
    let rs2 = register_operand(rs2)?;
    Some(register_instruction(op, rd, rs1, rs2))
}

#[tactic(auto, unfolding(crate::specs::Statements::immediate_form))]
pub fn immediate_form(op: ImmediateOp, text: &[u8]) -> Option<Instr>
    ensures value { result ≡ immediate_form op text.now }
    ensures range { IfSome result InRange }
{
    let (rd, rs1, imm) = three(text)?;
    let rd = register_operand(rd)?;
    let rs1 = register_operand(rs1)?;
    let imm = immediate_operand(imm)?;
    Some(immediate_instruction(op, rd, rs1, imm))
}

#[tactic(auto, unfolding(crate::specs::Statements::shift_form))]
pub fn shift_form(op: ShiftOp, text: &[u8]) -> Option<Instr>
    ensures value { result ≡ shift_form op text.now }
    ensures range { IfSome result InRange }
{
    let (rd, rs1, shamt) = three(text)?;
    let rd = register_operand(rd)?;
    let rs1 = register_operand(rs1)?;
    let shamt = unsigned_operand(32, shamt)?;
    Some(shift_instruction(op, rd, rs1, shamt))
}

#[tactic(auto, unfolding(crate::specs::Statements::upper_form))]
pub fn upper_form(op: UpperOp, text: &[u8]) -> Option<Instr>
    ensures value { result ≡ upper_form op text.now }
    ensures range { IfSome result InRange }
{
    let (rd, upper) = cut(text, b',')?;
    let rd = register_operand(rd)?;
    let upper = unsigned_operand(0x10_0000, upper)?;
    Some(upper_instruction(op, rd, upper * 4096))
}

#[tactic(auto, unfolding(crate::specs::Statements::load_form))]
pub fn load_form(op: LoadOp, text: &[u8]) -> Option<Instr>
    ensures value { result ≡ load_form op text.now }
    ensures range { IfSome result InRange }
{
    let (rd, address) = cut(text, b',')?;
    let rd = register_operand(rd)?;
    let (imm, rs1) = memory_operand(address)?;
    Some(load_instruction(op, rd, rs1, imm))
}

#[tactic(auto, unfolding(crate::specs::Statements::store_form))]
pub fn store_form(op: StoreOp, text: &[u8]) -> Option<Instr>
    ensures value { result ≡ store_form op text.now }
    ensures range { IfSome result InRange }
{
    let (rs2, address) = cut(text, b',')?;
    let rs2 = register_operand(rs2)?;
    let (imm, rs1) = memory_operand(address)?;
    Some(store_instruction(op, rs1, rs2, imm))
}

#[tactic(auto, unfolding(crate::specs::Statements::csr_form))]
pub fn csr_form(op: CsrOp, text: &[u8]) -> Option<Instr>
    ensures value { result ≡ csr_form op text.now }
    ensures range { IfSome result InRange }
{
    let (rd, csr, rs1) = three(text)?;
    let rd = register_operand(rd)?;
    let csr = unsigned_operand(4096, csr)?;
    let rs1 = register_operand(rs1)?;
    Some(csr_instruction(op, rd, rs1, csr))
}

#[tactic(auto, unfolding(crate::specs::Statements::csr_immediate_form))]
pub fn csr_immediate_form(op: CsrImmediateOp, text: &[u8]) -> Option<Instr>
    ensures value { result ≡ csr_immediate_form op text.now }
    ensures range { IfSome result InRange }
{
    let (rd, csr, uimm) = three(text)?;
    let rd = register_operand(rd)?;
    let csr = unsigned_operand(4096, csr)?;
    let uimm = unsigned_operand(32, uimm)?;
    Some(csr_immediate_instruction(op, rd, uimm, csr))
}

#[tactic(auto, unfolding(crate::specs::Statements::fence_form))]
pub fn fence_form(text: &[u8]) -> Option<Instr>
    ensures value { result ≡ fence_form text.now }
    ensures range { IfSome result InRange }
{
    let (rs1, rs2) = cut(text, b',')?;
    let rs1 = register_operand(rs1)?;
    let rs2 = register_operand(rs2)?;
    Some(Instr::SfenceVma { rs1, rs2 })
}
