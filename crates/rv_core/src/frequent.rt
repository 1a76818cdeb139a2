//! The effect of a word that spells a frequent instruction. It is made in one match, with no instruction in between.

ghost use Rattle.std.specs.Prelude.{◌≡◌, ◌<◌, ◌≤◌, ◌^◌, ℕ, Some, IfSome};
ghost use Rattle.cloak_model.specs.Effect as model;
ghost use Rattle.rv_isa.specs.Fields as fields;
ghost use Rattle.rv_isa.specs.Table.{jalr_line, branch_line, load_line, store_line, op_imm_line, op_line, instruction};
ghost use Rattle.rv_core.specs.Frequent.{IsEffectOf, IsPlain};

use crate::access::{load, store};
use crate::arithmetic::{
    difference, flag, is_less, offset, shift_amount, shifted_left, shifted_right,
    shifted_right_signed,
};
use crate::control::{branch, even, jump};
use crate::multiply::product;
use cloak_base::Regs;
use cloak_model::Effect;
use rv_isa::bits;

const LOAD: u32 = 0b000_0011;

const OP_IMM: u32 = 0b001_0011;

const AUIPC: u32 = 0b001_0111;

const STORE: u32 = 0b010_0011;

const OP: u32 = 0b011_0011;

const LUI: u32 = 0b011_0111;

const BRANCH: u32 = 0b110_0011;

const JALR: u32 = 0b110_0111;

const JAL: u32 = 0b110_1111;

/// A number of `count` bits as a signed number, by its highest bit.
#[inline(always)]
fn sign_extended(n: u32, count: u32) -> i32
    requires some { 1 ≤ count }
    requires few { count < 31 }
    requires below { n < 2 ^ count }
    ensures { result ≡ fields.sign_extended count n }
{
    if n < 1 << (count - 1) {
        n as i32
    } else {
        n as i32 - (1 << count)
    }
}

#[inline(always)]
fn imm_i(word: u32) -> i32
    ensures { result ≡ fields.imm_i word }
{
    sign_extended(bits(word, 31, 20), 12)
}

#[inline(always)]
fn imm_s(word: u32) -> i32
    ensures { result ≡ fields.imm_s word }
{
    sign_extended((bits(word, 31, 25) << 5) + bits(word, 11, 7), 12)
}

#[inline(always)]
fn imm_b(word: u32) -> i32
    ensures { result ≡ fields.imm_b word }
{
    sign_extended(
        (bits(word, 31, 31) << 12)
            + (bits(word, 7, 7) << 11)
            + (bits(word, 30, 25) << 5)
            + (bits(word, 11, 8) << 1),
        13,
    )
}

#[inline(always)]
fn imm_u(word: u32) -> u32
    ensures { result ≡ fields.imm_u word }
{
    bits(word, 31, 12) << 12
}

#[inline(always)]
fn imm_j(word: u32) -> i32
    ensures { result ≡ fields.imm_j word }
{
    sign_extended(
        (bits(word, 31, 31) << 20)
            + (bits(word, 19, 12) << 12)
            + (bits(word, 20, 20) << 11)
            + (bits(word, 30, 21) << 1),
        21,
    )
}

#[inline(always)]
fn write(rd: u32, value: u32) -> Option<Effect>
    ensures { result ≡ Some (Effect.Write rd value) }
{
    Some(Effect::Write { rd, value })
}

#[inline(always)]
#[tactic(auto, unfolding(rv_isa::specs::Table::load_line, cloak_model::specs::Effect::effect))]
fn load_effect(word: u32, r: &Regs) -> Option<Effect>
    ensures value { (pc : ℕ) → IsEffectOf r.now pc (load_line word) result }
    ensures range { IfSome result model.EffectInRange }
    ensures plain { IfSome result IsPlain }
{
    let rd = bits(word, 11, 7);
    let address = offset(r.get(bits(word, 19, 15)), imm_i(word));
    match bits(word, 14, 12) {
        0b000 => Some(load(rd, address, 1, true)),
        0b001 => Some(load(rd, address, 2, true)),
        0b010 => Some(load(rd, address, 4, true)),
        0b100 => Some(load(rd, address, 1, false)),
        0b101 => Some(load(rd, address, 2, false)),
        _ => None,
    }
}

#[inline(always)]
#[tactic(auto, unfolding(rv_isa::specs::Table::store_line, cloak_model::specs::Effect::effect))]
fn store_effect(word: u32, r: &Regs) -> Option<Effect>
    ensures value { (pc : ℕ) → IsEffectOf r.now pc (store_line word) result }
    ensures range { IfSome result model.EffectInRange }
    ensures plain { IfSome result IsPlain }
{
    let address = offset(r.get(bits(word, 19, 15)), imm_s(word));
    let value = r.get(bits(word, 24, 20));
    match bits(word, 14, 12) {
        0b000 => Some(store(address, 1, value)),
        0b001 => Some(store(address, 2, value)),
        0b010 => Some(store(address, 4, value)),
        _ => None,
    }
}

#[inline(always)]
#[tactic(auto, unfolding(rv_isa::specs::Table::branch_line, cloak_model::specs::Effect::effect))]
fn branch_effect(word: u32, r: &Regs, pc: u32) -> Option<Effect>
    ensures value { IsEffectOf r.now pc (branch_line word) result }
    ensures range { IfSome result model.EffectInRange }
    ensures plain { IfSome result IsPlain }
{
    let a = r.get(bits(word, 19, 15));
    let b = r.get(bits(word, 24, 20));
    let imm = imm_b(word);
    match bits(word, 14, 12) {
        0b000 => Some(branch(a == b, pc, imm)),
        0b001 => Some(branch(a != b, pc, imm)),
        0b100 => Some(branch(is_less(a, b), pc, imm)),
        0b101 => Some(branch(!is_less(a, b), pc, imm)),
        0b110 => Some(branch(a < b, pc, imm)),
        0b111 => Some(branch(a >= b, pc, imm)),
        _ => None,
    }
}

#[inline(always)]
#[tactic(auto, unfolding(rv_isa::specs::Table::jalr_line, cloak_model::specs::Effect::effect))]
fn jalr_effect(word: u32, r: &Regs, pc: u32) -> Option<Effect>
    ensures value { IsEffectOf r.now pc (jalr_line word) result }
    ensures range { IfSome result model.EffectInRange }
    ensures plain { IfSome result IsPlain }
{
    let rd = bits(word, 11, 7);
    let target = even(offset(r.get(bits(word, 19, 15)), imm_i(word)));
    match bits(word, 14, 12) {
        0b000 => Some(jump(rd, pc, target)),
        _ => None,
    }
}

#[inline(always)]
#[tactic(auto, unfolding(rv_isa::specs::Table::op_imm_line, cloak_model::specs::Effect::effect))]
fn op_imm_effect(word: u32, r: &Regs) -> Option<Effect>
    ensures value { (pc : ℕ) → IsEffectOf r.now pc (op_imm_line word) result }
    ensures range { IfSome result model.EffectInRange }
    ensures plain { IfSome result IsPlain }
{
    let rd = bits(word, 11, 7);
    let a = r.get(bits(word, 19, 15));
    let imm = imm_i(word);
    let shamt = bits(word, 24, 20);
    match (bits(word, 14, 12), bits(word, 31, 25)) {
        (0b000, _) => write(rd, offset(a, imm)),
        (0b010, _) => write(rd, flag(is_less(a, imm.cast_unsigned()))),
        (0b011, _) => write(rd, flag(a < imm.cast_unsigned())),
        (0b100, _) => write(rd, a ^ imm.cast_unsigned()),
        (0b110, _) => write(rd, a | imm.cast_unsigned()),
        (0b111, _) => write(rd, a & imm.cast_unsigned()),
        (0b001, 0b000_0000) => write(rd, shifted_left(a, shamt)),
        (0b101, 0b000_0000) => write(rd, shifted_right(a, shamt)),
        (0b101, 0b010_0000) => write(rd, shifted_right_signed(a, shamt)),
        _ => None,
    }
}

#[inline(always)]
#[tactic(auto, unfolding(rv_isa::specs::Table::op_line, cloak_model::specs::Effect::effect))]
fn op_effect(word: u32, r: &Regs) -> Option<Effect>
    ensures value { (pc : ℕ) → IsEffectOf r.now pc (op_line word) result }
    ensures range { IfSome result model.EffectInRange }
    ensures plain { IfSome result IsPlain }
{
    let rd = bits(word, 11, 7);
    let a = r.get(bits(word, 19, 15));
    let b = r.get(bits(word, 24, 20));
    match (bits(word, 14, 12), bits(word, 31, 25)) {
        (0b000, 0b000_0000) => write(rd, a.wrapping_add(b)),
        (0b000, 0b010_0000) => write(rd, difference(a, b)),
        (0b001, 0b000_0000) => write(rd, shifted_left(a, shift_amount(b))),
        (0b010, 0b000_0000) => write(rd, flag(is_less(a, b))),
        (0b011, 0b000_0000) => write(rd, flag(a < b)),
        (0b100, 0b000_0000) => write(rd, a ^ b),
        (0b101, 0b000_0000) => write(rd, shifted_right(a, shift_amount(b))),
        (0b101, 0b010_0000) => write(rd, shifted_right_signed(a, shift_amount(b))),
        (0b110, 0b000_0000) => write(rd, a | b),
        (0b111, 0b000_0000) => write(rd, a & b),
        (0b000, 0b000_0001) => write(rd, product(a, b)),
        _ => None,
    }
}

/// The effect of a word that spells a frequent instruction, on a hart with these registers, at this program counter. Of
/// none of these is the effect decided by the mode and the control and status registers. None says nothing of the word.
#[inline(always)]
#[tactic(auto, unfolding(rv_isa::specs::Table::instruction, cloak_model::specs::Effect::effect))]
pub fn frequent_effect(word: u32, r: &Regs, pc: u32) -> Option<Effect>
    ensures value { IsEffectOf r.now pc (instruction word) result }
    ensures range { IfSome result model.EffectInRange }
    ensures plain { IfSome result IsPlain }
{
    match bits(word, 6, 0) {
        OP_IMM => op_imm_effect(word, r),
        OP => op_effect(word, r),
        LOAD => load_effect(word, r),
        STORE => store_effect(word, r),
        BRANCH => branch_effect(word, r, pc),
        JAL => Some(jump(bits(word, 11, 7), pc, offset(pc, imm_j(word)))),
        JALR => jalr_effect(word, r, pc),
        LUI => write(bits(word, 11, 7), imm_u(word)),
        AUIPC => write(bits(word, 11, 7), pc.wrapping_add(imm_u(word))),
        _ => None,
    }
}
