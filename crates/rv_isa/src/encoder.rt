//! From instructions to words: one function for each of the manual's forms.

ghost use Rattle.std.specs.Prelude.{ℕ, ◌%◌, ◌/◌, ◌≡◌, ◌<◌, ◌+◌, ◌*◌, ◌^◌, ◌≤◌, ◌-◌};
ghost use Rattle.rv_isa.specs.Fields as spec;
ghost use Rattle.rv_isa.specs.Range.{InRange, FitsSigned, IsEven};
ghost use Rattle.rv_isa.specs.Table.{instruction};

use crate::fields::bits;
use crate::{Instr, opcode};

/// The one word of an instruction whose fields are in range.
#[tactic(auto, using(crate::proofs::Spelling::one_word))]
pub fn encode(i: &Instr) -> u32
    requires { InRange i.now }
    ensures table { instruction result ≡ Some i.now }
    ensures only { (w : ℕ) → w < 2 ^ 32 → instruction w ≡ Some i.now → w ≡ result }
{
    spelled(i)
}

/// The word of an instruction by the form of its opcode.
#[tactic(auto, unfolding(crate::specs::Table::instruction, crate::specs::Table::jalr_line, crate::specs::Table::branch_line, crate::specs::Table::load_line, crate::specs::Table::store_line, crate::specs::Table::op_imm_line, crate::specs::Table::op_line, crate::specs::Table::misc_mem_line, crate::specs::Table::system_line, crate::specs::Table::privileged_line))]
fn spelled(i: &Instr) -> u32
    requires { InRange i.now }
    ensures { instruction result ≡ Some i.now }
{
    match *i {
        Instr::Lui { rd, imm } => u_type(opcode::LUI, rd, imm),
        Instr::Auipc { rd, imm } => u_type(opcode::AUIPC, rd, imm),
        Instr::Jal { rd, imm } => j_type(opcode::JAL, rd, imm),
        Instr::Jalr { rd, rs1, imm } => i_type(opcode::JALR, rd, 0b000, rs1, imm),
        Instr::Beq { rs1, rs2, imm } => b_type(opcode::BRANCH, 0b000, rs1, rs2, imm),
        Instr::Bne { rs1, rs2, imm } => b_type(opcode::BRANCH, 0b001, rs1, rs2, imm),
        Instr::Blt { rs1, rs2, imm } => b_type(opcode::BRANCH, 0b100, rs1, rs2, imm),
        Instr::Bge { rs1, rs2, imm } => b_type(opcode::BRANCH, 0b101, rs1, rs2, imm),
        Instr::Bltu { rs1, rs2, imm } => b_type(opcode::BRANCH, 0b110, rs1, rs2, imm),
        Instr::Bgeu { rs1, rs2, imm } => b_type(opcode::BRANCH, 0b111, rs1, rs2, imm),
        Instr::Lb { rd, rs1, imm } => i_type(opcode::LOAD, rd, 0b000, rs1, imm),
        Instr::Lh { rd, rs1, imm } => i_type(opcode::LOAD, rd, 0b001, rs1, imm),
        Instr::Lw { rd, rs1, imm } => i_type(opcode::LOAD, rd, 0b010, rs1, imm),
        Instr::Lbu { rd, rs1, imm } => i_type(opcode::LOAD, rd, 0b100, rs1, imm),
        Instr::Lhu { rd, rs1, imm } => i_type(opcode::LOAD, rd, 0b101, rs1, imm),
        Instr::Sb { rs1, rs2, imm } => s_type(opcode::STORE, 0b000, rs1, rs2, imm),
        Instr::Sh { rs1, rs2, imm } => s_type(opcode::STORE, 0b001, rs1, rs2, imm),
        Instr::Sw { rs1, rs2, imm } => s_type(opcode::STORE, 0b010, rs1, rs2, imm),
        Instr::Addi { rd, rs1, imm } => i_type(opcode::OP_IMM, rd, 0b000, rs1, imm),
        Instr::Slti { rd, rs1, imm } => i_type(opcode::OP_IMM, rd, 0b010, rs1, imm),
        Instr::Sltiu { rd, rs1, imm } => i_type(opcode::OP_IMM, rd, 0b011, rs1, imm),
        Instr::Xori { rd, rs1, imm } => i_type(opcode::OP_IMM, rd, 0b100, rs1, imm),
        Instr::Ori { rd, rs1, imm } => i_type(opcode::OP_IMM, rd, 0b110, rs1, imm),
        Instr::Andi { rd, rs1, imm } => i_type(opcode::OP_IMM, rd, 0b111, rs1, imm),
        Instr::Slli { rd, rs1, shamt } => r_type(opcode::OP_IMM, rd, 0b001, rs1, shamt, 0b000_0000),
        Instr::Srli { rd, rs1, shamt } => r_type(opcode::OP_IMM, rd, 0b101, rs1, shamt, 0b000_0000),
        Instr::Srai { rd, rs1, shamt } => r_type(opcode::OP_IMM, rd, 0b101, rs1, shamt, 0b010_0000),
        Instr::Add { rd, rs1, rs2 } => r_type(opcode::OP, rd, 0b000, rs1, rs2, 0b000_0000),
        Instr::Sub { rd, rs1, rs2 } => r_type(opcode::OP, rd, 0b000, rs1, rs2, 0b010_0000),
        Instr::Sll { rd, rs1, rs2 } => r_type(opcode::OP, rd, 0b001, rs1, rs2, 0b000_0000),
        Instr::Slt { rd, rs1, rs2 } => r_type(opcode::OP, rd, 0b010, rs1, rs2, 0b000_0000),
        Instr::Sltu { rd, rs1, rs2 } => r_type(opcode::OP, rd, 0b011, rs1, rs2, 0b000_0000),
        Instr::Xor { rd, rs1, rs2 } => r_type(opcode::OP, rd, 0b100, rs1, rs2, 0b000_0000),
        Instr::Srl { rd, rs1, rs2 } => r_type(opcode::OP, rd, 0b101, rs1, rs2, 0b000_0000),
        Instr::Sra { rd, rs1, rs2 } => r_type(opcode::OP, rd, 0b101, rs1, rs2, 0b010_0000),
        Instr::Or { rd, rs1, rs2 } => r_type(opcode::OP, rd, 0b110, rs1, rs2, 0b000_0000),
        Instr::And { rd, rs1, rs2 } => r_type(opcode::OP, rd, 0b111, rs1, rs2, 0b000_0000),
        Instr::Mul { rd, rs1, rs2 } => r_type(opcode::OP, rd, 0b000, rs1, rs2, 0b000_0001),
        Instr::Mulh { rd, rs1, rs2 } => r_type(opcode::OP, rd, 0b001, rs1, rs2, 0b000_0001),
        Instr::Mulhsu { rd, rs1, rs2 } => r_type(opcode::OP, rd, 0b010, rs1, rs2, 0b000_0001),
        Instr::Mulhu { rd, rs1, rs2 } => r_type(opcode::OP, rd, 0b011, rs1, rs2, 0b000_0001),
        Instr::Div { rd, rs1, rs2 } => r_type(opcode::OP, rd, 0b100, rs1, rs2, 0b000_0001),
        Instr::Divu { rd, rs1, rs2 } => r_type(opcode::OP, rd, 0b101, rs1, rs2, 0b000_0001),
        Instr::Rem { rd, rs1, rs2 } => r_type(opcode::OP, rd, 0b110, rs1, rs2, 0b000_0001),
        Instr::Remu { rd, rs1, rs2 } => r_type(opcode::OP, rd, 0b111, rs1, rs2, 0b000_0001),
        Instr::Fence { rest } => fence_type(0b000, rest),
        Instr::FenceI { rest } => fence_type(0b001, rest),
        Instr::Csrrw { rd, rs1, csr } => csr_type(rd, 0b001, rs1, csr),
        Instr::Csrrs { rd, rs1, csr } => csr_type(rd, 0b010, rs1, csr),
        Instr::Csrrc { rd, rs1, csr } => csr_type(rd, 0b011, rs1, csr),
        Instr::Csrrwi { rd, uimm, csr } => csr_type(rd, 0b101, uimm, csr),
        Instr::Csrrsi { rd, uimm, csr } => csr_type(rd, 0b110, uimm, csr),
        Instr::Csrrci { rd, uimm, csr } => csr_type(rd, 0b111, uimm, csr),
        Instr::Ecall => 0x0000_0073,
        Instr::Ebreak => 0x0010_0073,
        Instr::Sret => 0x1020_0073,
        Instr::Wfi => 0x1050_0073,
        Instr::SfenceVma { rs1, rs2 } => r_type(opcode::SYSTEM, 0, 0b000, rs1, rs2, 0b000_1001),
    }
}

/// A word of its six fields.
fn r_type(opcode: u32, rd: u32, funct3: u32, rs1: u32, rs2: u32, funct7: u32) -> u32
    requires opcode { opcode < 2 ^ 7 }
    requires rd { rd < 2 ^ 5 }
    requires funct3 { funct3 < 2 ^ 3 }
    requires rs1 { rs1 < 2 ^ 5 }
    requires rs2 { rs2 < 2 ^ 5 }
    requires funct7 { funct7 < 2 ^ 7 }
    ensures opcode { spec.opcode result ≡ opcode }
    ensures rd { spec.rd_of result ≡ rd }
    ensures funct3 { spec.funct3 result ≡ funct3 }
    ensures rs1 { spec.rs1_of result ≡ rs1 }
    ensures rs2 { spec.rs2_of result ≡ rs2 }
    ensures funct7 { spec.funct7 result ≡ funct7 }
{
    opcode + (rd << 7) + (funct3 << 12) + (rs1 << 15) + (rs2 << 20) + (funct7 << 25)
}

fn i_type(opcode: u32, rd: u32, funct3: u32, rs1: u32, imm: i32) -> u32
    requires opcode { opcode < 2 ^ 7 }
    requires rd { rd < 2 ^ 5 }
    requires funct3 { funct3 < 2 ^ 3 }
    requires rs1 { rs1 < 2 ^ 5 }
    requires imm { FitsSigned 12 imm }
    ensures opcode { spec.opcode result ≡ opcode }
    ensures rd { spec.rd_of result ≡ rd }
    ensures funct3 { spec.funct3 result ≡ funct3 }
    ensures rs1 { spec.rs1_of result ≡ rs1 }
    ensures imm { spec.imm_i result ≡ imm }
{
    let n = low_bits(imm, 12);
    r_type(opcode, rd, funct3, rs1, bits(n, 4, 0), bits(n, 11, 5))
}

fn s_type(opcode: u32, funct3: u32, rs1: u32, rs2: u32, imm: i32) -> u32
    requires opcode { opcode < 2 ^ 7 }
    requires funct3 { funct3 < 2 ^ 3 }
    requires rs1 { rs1 < 2 ^ 5 }
    requires rs2 { rs2 < 2 ^ 5 }
    requires imm { FitsSigned 12 imm }
    ensures opcode { spec.opcode result ≡ opcode }
    ensures funct3 { spec.funct3 result ≡ funct3 }
    ensures rs1 { spec.rs1_of result ≡ rs1 }
    ensures rs2 { spec.rs2_of result ≡ rs2 }
    ensures imm { spec.imm_s result ≡ imm }
{
    let n = low_bits(imm, 12);
    r_type(opcode, bits(n, 4, 0), funct3, rs1, rs2, bits(n, 11, 5))
}

fn b_type(opcode: u32, funct3: u32, rs1: u32, rs2: u32, imm: i32) -> u32
    requires opcode { opcode < 2 ^ 7 }
    requires funct3 { funct3 < 2 ^ 3 }
    requires rs1 { rs1 < 2 ^ 5 }
    requires rs2 { rs2 < 2 ^ 5 }
    requires imm { FitsSigned 13 imm }
    requires even { IsEven imm }
    ensures opcode { spec.opcode result ≡ opcode }
    ensures funct3 { spec.funct3 result ≡ funct3 }
    ensures rs1 { spec.rs1_of result ≡ rs1 }
    ensures rs2 { spec.rs2_of result ≡ rs2 }
    ensures imm { spec.imm_b result ≡ imm }
{
    let n = low_bits(imm, 13);
    let rd = (bits(n, 4, 1) << 1) + bits(n, 11, 11);
    let funct7 = (bits(n, 12, 12) << 6) + bits(n, 10, 5);
    r_type(opcode, rd, funct3, rs1, rs2, funct7)
}

fn u_type(opcode: u32, rd: u32, imm: u32) -> u32
    requires opcode { opcode < 2 ^ 7 }
    requires rd { rd < 2 ^ 5 }
    requires imm { imm % 4096 ≡ 0 }
    ensures opcode { spec.opcode result ≡ opcode }
    ensures rd { spec.rd_of result ≡ rd }
    ensures imm { spec.imm_u result ≡ imm }
{
    opcode + (rd << 7) + imm
}

fn j_type(opcode: u32, rd: u32, imm: i32) -> u32
    requires opcode { opcode < 2 ^ 7 }
    requires rd { rd < 2 ^ 5 }
    requires imm { FitsSigned 21 imm }
    requires even { IsEven imm }
    ensures opcode { spec.opcode result ≡ opcode }
    ensures rd { spec.rd_of result ≡ rd }
    ensures imm { spec.imm_j result ≡ imm }
{
    let n = low_bits(imm, 21);
    let rs2 = (bits(n, 4, 1) << 1) + bits(n, 11, 11);
    let funct7 = (bits(n, 20, 20) << 6) + bits(n, 10, 5);
    r_type(opcode, rd, bits(n, 14, 12), bits(n, 19, 15), rs2, funct7)
}

/// A CSR instruction: the number of the register instead of rs2 and funct7.
fn csr_type(rd: u32, funct3: u32, rs1: u32, csr: u32) -> u32
    requires rd { rd < 2 ^ 5 }
    requires funct3 { funct3 < 2 ^ 3 }
    requires rs1 { rs1 < 2 ^ 5 }
    requires csr { csr < 2 ^ 12 }
    ensures opcode { spec.opcode result ≡ 0b1110011 }
    ensures rd { spec.rd_of result ≡ rd }
    ensures funct3 { spec.funct3 result ≡ funct3 }
    ensures rs1 { spec.rs1_of result ≡ rs1 }
    ensures csr { spec.csr_of result ≡ csr }
{
    r_type(
        opcode::SYSTEM,
        rd,
        funct3,
        rs1,
        bits(csr, 4, 0),
        bits(csr, 11, 5),
    )
}

/// A fence: all but opcode and funct3 as it is given.
fn fence_type(funct3: u32, rest: u32) -> u32
    requires funct3 { funct3 < 2 ^ 3 }
    requires opcode_free { rest % 2 ^ 7 ≡ 0 }
    requires funct3_free { rest / 2 ^ 12 % 2 ^ 3 ≡ 0 }
    ensures opcode { spec.opcode result ≡ 0b0001111 }
    ensures funct3 { spec.funct3 result ≡ funct3 }
    ensures rest { spec.rest_of result ≡ rest }
{
    opcode::MISC_MEM + (funct3 << 12) + rest
}

/// The low `count` bits of a signed number that fits them.
fn low_bits(imm: i32, count: u32) -> u32
    requires some { 1 ≤ count }
    requires few { count < 31 }
    requires fits { FitsSigned count imm }
    ensures below { result < 2 ^ count }
    ensures even { IsEven imm → result % 2 ≡ 0 }
    ensures value { spec.sign_extended count result ≡ imm }
{
    if imm >= 0 {
        imm as u32
    } else {
        power(count) - imm.unsigned_abs()
    }
}

/// Two to the power of `count`.
fn power(count: u32) -> u32
    requires { count < 32 }
    ensures { result ≡ 2 ^ count }
{
    1 << count
}
