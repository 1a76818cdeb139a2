//! What an instruction does.

ghost use Rattle.std.specs.Prelude.{◌≡◌};
ghost use Rattle.cloak_model.specs.Effect as model;
ghost use Rattle.rv_isa.specs.Range.{InRange};

use crate::access::{load, store};
use crate::arithmetic::{
    difference, flag, is_less, offset, shift_amount, shifted_left, shifted_right,
    shifted_right_signed,
};
use crate::control::{branch, even, jump};
use crate::multiply::{
    high_product, high_product_mixed, high_product_unsigned, product, quotient, quotient_unsigned,
    remainder, remainder_unsigned,
};
use cloak_base::Regs;
use cloak_model::Effect;
use rv_isa::Instr;

/// The effect of an instruction on a hart with these registers, at this program counter.
#[inline(always)]
#[tactic(auto, unfolding(cloak_model::specs::Effect::effect))]
pub fn effect(i: &Instr, r: &Regs, pc: u32) -> Effect
    requires { InRange i.now }
    ensures value { result ≡ model.effect i.now r.now pc }
    ensures range { model.EffectInRange result }
{
    match *i {
        Instr::Lui { rd, imm } => write(rd, imm),
        Instr::Auipc { rd, imm } => write(rd, pc.wrapping_add(imm)),
        Instr::Jal { rd, imm } => jump(rd, pc, offset(pc, imm)),
        Instr::Jalr { rd, rs1, imm } => jump(rd, pc, even(offset(r.get(rs1), imm))),
        Instr::Beq { rs1, rs2, imm } => branch(r.get(rs1) == r.get(rs2), pc, imm),
        Instr::Bne { rs1, rs2, imm } => branch(r.get(rs1) != r.get(rs2), pc, imm),
        Instr::Blt { rs1, rs2, imm } => branch(is_less(r.get(rs1), r.get(rs2)), pc, imm),
        Instr::Bge { rs1, rs2, imm } => branch(!is_less(r.get(rs1), r.get(rs2)), pc, imm),
        Instr::Bltu { rs1, rs2, imm } => branch(r.get(rs1) < r.get(rs2), pc, imm),
        Instr::Bgeu { rs1, rs2, imm } => branch(r.get(rs1) >= r.get(rs2), pc, imm),
        Instr::Lb { rd, rs1, imm } => load(rd, offset(r.get(rs1), imm), 1, true),
        Instr::Lh { rd, rs1, imm } => load(rd, offset(r.get(rs1), imm), 2, true),
        Instr::Lw { rd, rs1, imm } => load(rd, offset(r.get(rs1), imm), 4, true),
        Instr::Lbu { rd, rs1, imm } => load(rd, offset(r.get(rs1), imm), 1, false),
        Instr::Lhu { rd, rs1, imm } => load(rd, offset(r.get(rs1), imm), 2, false),
        Instr::Sb { rs1, rs2, imm } => store(offset(r.get(rs1), imm), 1, r.get(rs2)),
        Instr::Sh { rs1, rs2, imm } => store(offset(r.get(rs1), imm), 2, r.get(rs2)),
        Instr::Sw { rs1, rs2, imm } => store(offset(r.get(rs1), imm), 4, r.get(rs2)),
        Instr::Addi { rd, rs1, imm } => write(rd, offset(r.get(rs1), imm)),
        Instr::Slti { rd, rs1, imm } => write(rd, flag(is_less(r.get(rs1), imm.cast_unsigned()))),
        Instr::Sltiu { rd, rs1, imm } => write(rd, flag(r.get(rs1) < imm.cast_unsigned())),
        Instr::Xori { rd, rs1, imm } => write(rd, r.get(rs1) ^ imm.cast_unsigned()),
        Instr::Ori { rd, rs1, imm } => write(rd, r.get(rs1) | imm.cast_unsigned()),
        Instr::Andi { rd, rs1, imm } => write(rd, r.get(rs1) & imm.cast_unsigned()),
        Instr::Slli { rd, rs1, shamt } => write(rd, shifted_left(r.get(rs1), shamt)),
        Instr::Srli { rd, rs1, shamt } => write(rd, shifted_right(r.get(rs1), shamt)),
        Instr::Srai { rd, rs1, shamt } => write(rd, shifted_right_signed(r.get(rs1), shamt)),
        Instr::Add { rd, rs1, rs2 } => write(rd, r.get(rs1).wrapping_add(r.get(rs2))),
        Instr::Sub { rd, rs1, rs2 } => write(rd, difference(r.get(rs1), r.get(rs2))),
        Instr::Sll { rd, rs1, rs2 } => write(
            rd,
            shifted_left(r.get(rs1), shift_amount(r.get(rs2))),
        ),
        Instr::Slt { rd, rs1, rs2 } => write(rd, flag(is_less(r.get(rs1), r.get(rs2)))),
        Instr::Sltu { rd, rs1, rs2 } => write(rd, flag(r.get(rs1) < r.get(rs2))),
        Instr::Xor { rd, rs1, rs2 } => write(rd, r.get(rs1) ^ r.get(rs2)),
        Instr::Srl { rd, rs1, rs2 } => write(
            rd,
            shifted_right(r.get(rs1), shift_amount(r.get(rs2))),
        ),
        Instr::Sra { rd, rs1, rs2 } => write(
            rd,
            shifted_right_signed(r.get(rs1), shift_amount(r.get(rs2))),
        ),
        Instr::Or { rd, rs1, rs2 } => write(rd, r.get(rs1) | r.get(rs2)),
        Instr::And { rd, rs1, rs2 } => write(rd, r.get(rs1) & r.get(rs2)),
        Instr::Mul { rd, rs1, rs2 } => write(rd, product(r.get(rs1), r.get(rs2))),
        Instr::Mulh { rd, rs1, rs2 } => write(rd, high_product(r.get(rs1), r.get(rs2))),
        Instr::Mulhsu { rd, rs1, rs2 } => write(rd, high_product_mixed(r.get(rs1), r.get(rs2))),
        Instr::Mulhu { rd, rs1, rs2 } => write(rd, high_product_unsigned(r.get(rs1), r.get(rs2))),
        Instr::Div { rd, rs1, rs2 } => write(rd, quotient(r.get(rs1), r.get(rs2))),
        Instr::Divu { rd, rs1, rs2 } => write(rd, quotient_unsigned(r.get(rs1), r.get(rs2))),
        Instr::Rem { rd, rs1, rs2 } => write(rd, remainder(r.get(rs1), r.get(rs2))),
        Instr::Remu { rd, rs1, rs2 } => write(rd, remainder_unsigned(r.get(rs1), r.get(rs2))),
        Instr::Fence { .. } | Instr::FenceI { .. } => Effect::Nothing,
        Instr::Csrrw { .. }
        | Instr::Csrrs { .. }
        | Instr::Csrrc { .. }
        | Instr::Csrrwi { .. }
        | Instr::Csrrsi { .. }
        | Instr::Csrrci { .. }
        | Instr::Ecall
        | Instr::Ebreak
        | Instr::Sret
        | Instr::Wfi
        | Instr::SfenceVma { .. } => Effect::System,
    }
}

#[inline]
fn write(rd: u32, value: u32) -> Effect
    ensures { result ≡ Effect.Write rd value }
{
    Effect::Write { rd, value }
}
