//! The mnemonics, by the operands that they take, and the instruction of each.

ghost use Rattle.std.specs.Prelude.{◌≡◌, ◌<◌, ◌%◌, IfSome};
ghost use Rattle.rv_isa.specs.Range.{InRange, FitsSigned, IsEven};
ghost use Rattle.rv_asm.specs.Operations.{register_op, register_instruction, immediate_op, immediate_instruction};
ghost use Rattle.rv_asm.specs.Operations.{shift_op, shift_instruction, upper_op, upper_instruction, load_op};
ghost use Rattle.rv_asm.specs.Operations.{load_instruction, store_op, store_instruction, branch_op};
ghost use Rattle.rv_asm.specs.Operations.{branch_instruction, csr_op, csr_instruction, csr_immediate_op};
ghost use Rattle.rv_asm.specs.Operations.{csr_immediate_instruction, bare, single, operation, IsInRange};

use crate::atomic::atomic;
use rv_atomic::AtomicOp;
use rv_isa::Instr;

/// Mnemonics of three registers.
#[derive(Clone, Copy)]
pub enum RegisterOp {
    Add,
    Sub,
    Sll,
    Slt,
    Sltu,
    Xor,
    Srl,
    Sra,
    Or,
    And,
    Mul,
    Mulh,
    Mulhsu,
    Mulhu,
    Div,
    Divu,
    Rem,
    Remu,
}

/// Mnemonics of two registers and an immediate.
#[derive(Clone, Copy)]
pub enum ImmediateOp {
    Addi,
    Slti,
    Sltiu,
    Xori,
    Ori,
    Andi,
}

/// Mnemonics of two registers and a shift amount.
#[derive(Clone, Copy)]
pub enum ShiftOp {
    Slli,
    Srli,
    Srai,
}

/// Mnemonics of a register and an upper immediate.
#[derive(Clone, Copy)]
pub enum UpperOp {
    Lui,
    Auipc,
}

/// Mnemonics of a register, and a register with an offset; JALR is written so too.
#[derive(Clone, Copy)]
pub enum LoadOp {
    Lb,
    Lh,
    Lw,
    Lbu,
    Lhu,
    Jalr,
}

/// Mnemonics of the register that is stored, and a register with an offset.
#[derive(Clone, Copy)]
pub enum StoreOp {
    Sb,
    Sh,
    Sw,
}

/// Mnemonics of two registers and a label.
#[derive(Clone, Copy)]
pub enum BranchOp {
    Beq,
    Bne,
    Blt,
    Bge,
    Bltu,
    Bgeu,
}

/// Mnemonics of a register, the number of a control and status register, and a register.
#[derive(Clone, Copy)]
pub enum CsrOp {
    Csrrw,
    Csrrs,
    Csrrc,
}

/// Mnemonics of a register, the number of a control and status register, and an immediate.
#[derive(Clone, Copy)]
pub enum CsrImmediateOp {
    Csrrwi,
    Csrrsi,
    Csrrci,
}

/// What the first word of a line asks for, by the operands that follow.
#[derive(Clone, Copy)]
pub enum Operation {
    Register(RegisterOp),
    Immediate(ImmediateOp),
    Shift(ShiftOp),
    Upper(UpperOp),
    Load(LoadOp),
    Store(StoreOp),
    Branch(BranchOp),
    Csr(CsrOp),
    CsrImmediate(CsrImmediateOp),
    /// An atomic instruction, with its bits `aq` and `rl` as one number.
    Atomic { op: AtomicOp, order: u32 },
    /// An instruction without operands.
    Bare(Instr),
    /// `sfence.vma`
    Fence,
    Jal,
    J,
    Li,
    La,
    /// `.word`
    Word,
}

#[tactic(auto, unfolding(crate::specs::Operations::register_op))]
fn register_op(word: &[u8]) -> Option<RegisterOp>
    ensures { result ≡ register_op word.now }
{
    if word == b"add".as_slice() {
        Some(RegisterOp::Add)
    } else if word == b"sub".as_slice() {
        Some(RegisterOp::Sub)
    } else if word == b"sll".as_slice() {
        Some(RegisterOp::Sll)
    } else if word == b"slt".as_slice() {
        Some(RegisterOp::Slt)
    } else if word == b"sltu".as_slice() {
        Some(RegisterOp::Sltu)
    } else if word == b"xor".as_slice() {
        Some(RegisterOp::Xor)
    } else if word == b"srl".as_slice() {
        Some(RegisterOp::Srl)
    } else if word == b"sra".as_slice() {
        Some(RegisterOp::Sra)
    } else if word == b"or".as_slice() {
        Some(RegisterOp::Or)
    } else if word == b"and".as_slice() {
        Some(RegisterOp::And)
    } else if word == b"mul".as_slice() {
        Some(RegisterOp::Mul)
    } else if word == b"mulh".as_slice() {
        Some(RegisterOp::Mulh)
    } else if word == b"mulhsu".as_slice() {
        Some(RegisterOp::Mulhsu)
    } else if word == b"mulhu".as_slice() {
        Some(RegisterOp::Mulhu)
    } else if word == b"div".as_slice() {
        Some(RegisterOp::Div)
    } else if word == b"divu".as_slice() {
        Some(RegisterOp::Divu)
    } else if word == b"rem".as_slice() {
        Some(RegisterOp::Rem)
    } else if word == b"remu".as_slice() {
        Some(RegisterOp::Remu)
    } else {
        None
    }
}

#[tactic(auto, unfolding(crate::specs::Operations::immediate_op))]
fn immediate_op(word: &[u8]) -> Option<ImmediateOp>
    ensures { result ≡ immediate_op word.now }
{
    match word {
        b"addi" => Some(ImmediateOp::Addi),
        b"slti" => Some(ImmediateOp::Slti),
        b"sltiu" => Some(ImmediateOp::Sltiu),
        b"xori" => Some(ImmediateOp::Xori),
        b"ori" => Some(ImmediateOp::Ori),
        b"andi" => Some(ImmediateOp::Andi),
        _ => None,
    }
}

#[tactic(auto, unfolding(crate::specs::Operations::shift_op))]
fn shift_op(word: &[u8]) -> Option<ShiftOp>
    ensures { result ≡ shift_op word.now }
{
    match word {
        b"slli" => Some(ShiftOp::Slli),
        b"srli" => Some(ShiftOp::Srli),
        b"srai" => Some(ShiftOp::Srai),
        _ => None,
    }
}

#[tactic(auto, unfolding(crate::specs::Operations::upper_op))]
fn upper_op(word: &[u8]) -> Option<UpperOp>
    ensures { result ≡ upper_op word.now }
{
    match word {
        b"lui" => Some(UpperOp::Lui),
        b"auipc" => Some(UpperOp::Auipc),
        _ => None,
    }
}

#[tactic(auto, unfolding(crate::specs::Operations::load_op))]
fn load_op(word: &[u8]) -> Option<LoadOp>
    ensures { result ≡ load_op word.now }
{
    match word {
        b"lb" => Some(LoadOp::Lb),
        b"lh" => Some(LoadOp::Lh),
        b"lw" => Some(LoadOp::Lw),
        b"lbu" => Some(LoadOp::Lbu),
        b"lhu" => Some(LoadOp::Lhu),
        b"jalr" => Some(LoadOp::Jalr),
        _ => None,
    }
}

#[tactic(auto, unfolding(crate::specs::Operations::store_op))]
fn store_op(word: &[u8]) -> Option<StoreOp>
    ensures { result ≡ store_op word.now }
{
    match word {
        b"sb" => Some(StoreOp::Sb),
        b"sh" => Some(StoreOp::Sh),
        b"sw" => Some(StoreOp::Sw),
        _ => None,
    }
}

#[tactic(auto, unfolding(crate::specs::Operations::branch_op))]
fn branch_op(word: &[u8]) -> Option<BranchOp>
    ensures { result ≡ branch_op word.now }
{
    match word {
        b"beq" => Some(BranchOp::Beq),
        b"bne" => Some(BranchOp::Bne),
        b"blt" => Some(BranchOp::Blt),
        b"bge" => Some(BranchOp::Bge),
        b"bltu" => Some(BranchOp::Bltu),
        b"bgeu" => Some(BranchOp::Bgeu),
        _ => None,
    }
}

#[tactic(auto, unfolding(crate::specs::Operations::csr_op))]
fn csr_op(word: &[u8]) -> Option<CsrOp>
    ensures { result ≡ csr_op word.now }
{
    match word {
        b"csrrw" => Some(CsrOp::Csrrw),
        b"csrrs" => Some(CsrOp::Csrrs),
        b"csrrc" => Some(CsrOp::Csrrc),
        _ => None,
    }
}

#[tactic(auto, unfolding(crate::specs::Operations::csr_immediate_op))]
fn csr_immediate_op(word: &[u8]) -> Option<CsrImmediateOp>
    ensures { result ≡ csr_immediate_op word.now }
{
    if word == b"csrrwi".as_slice() {
        Some(CsrImmediateOp::Csrrwi)
    } else if word == b"csrrsi".as_slice() {
        Some(CsrImmediateOp::Csrrsi)
    } else if word == b"csrrci".as_slice() {
        Some(CsrImmediateOp::Csrrci)
    } else {
        None
    }
}

#[tactic(auto, unfolding(crate::specs::Operations::bare))]
fn bare(word: &[u8]) -> Option<Instr>
    ensures value { result ≡ bare word.now }
    ensures range { IfSome result InRange }
{
    if word == b"ecall".as_slice() {
        Some(Instr::Ecall)
    } else if word == b"ebreak".as_slice() {
        Some(Instr::Ebreak)
    } else if word == b"sret".as_slice() {
        Some(Instr::Sret)
    } else if word == b"wfi".as_slice() {
        Some(Instr::Wfi)
    } else if word == b"fence".as_slice() {
        Some(Instr::Fence { rest: 0 })
    } else if word == b"fence.i".as_slice() {
        Some(Instr::FenceI { rest: 0 })
    } else {
        None
    }
}

#[tactic(auto, unfolding(crate::specs::Operations::single))]
fn single(word: &[u8]) -> Option<Operation>
    ensures value { result ≡ single word.now }
    ensures range { IfSome result IsInRange }
{
    if word == b"sfence.vma".as_slice() {
        Some(Operation::Fence)
    } else if word == b"jal".as_slice() {
        Some(Operation::Jal)
    } else if word == b"j".as_slice() {
        Some(Operation::J)
    } else if word == b"li".as_slice() {
        Some(Operation::Li)
    } else if word == b"la".as_slice() {
        Some(Operation::La)
    } else if word == b".word".as_slice() {
        Some(Operation::Word)
    } else {
        None
    }
}

/// What the word asks for, if it is a mnemonic or a further form.
#[tactic(auto, unfolding(crate::specs::Operations::operation))]
pub fn find_operation(word: &[u8]) -> Option<Operation>
    ensures value { result ≡ operation word.now }
    ensures range { IfSome result IsInRange }
{
    if let Some(op) = register_op(word) {
        return Some(Operation::Register(op));
    }
    if let Some(op) = immediate_op(word) {
        return Some(Operation::Immediate(op));
    }
    if let Some(op) = shift_op(word) {
        return Some(Operation::Shift(op));
    }
    if let Some(op) = upper_op(word) {
        return Some(Operation::Upper(op));
    }
    if let Some(op) = load_op(word) {
        return Some(Operation::Load(op));
    }
    if let Some(op) = store_op(word) {
        return Some(Operation::Store(op));
    }
    if let Some(op) = branch_op(word) {
        return Some(Operation::Branch(op));
    }
    if let Some(op) = csr_op(word) {
        return Some(Operation::Csr(op));
    }
    if let Some(op) = csr_immediate_op(word) {
        return Some(Operation::CsrImmediate(op));
    }
    if let Some(op) = bare(word) {
        return Some(Operation::Bare(op));
    }
    if let Some(op) = atomic(word) {
        return Some(op);
    }
    single(word)
}

pub fn register_instruction(op: RegisterOp, rd: u32, rs1: u32, rs2: u32) -> Instr
    requires rd_fits { rd < 32 }
    requires rs1_fits { rs1 < 32 }
    requires rs2_fits { rs2 < 32 }
    ensures value { result ≡ register_instruction op rd rs1 rs2 }
    ensures range { InRange result }
{
    match op {
        RegisterOp::Add => Instr::Add { rd, rs1, rs2 },
        RegisterOp::Sub => Instr::Sub { rd, rs1, rs2 },
        RegisterOp::Sll => Instr::Sll { rd, rs1, rs2 },
        RegisterOp::Slt => Instr::Slt { rd, rs1, rs2 },
        RegisterOp::Sltu => Instr::Sltu { rd, rs1, rs2 },
        RegisterOp::Xor => Instr::Xor { rd, rs1, rs2 },
        RegisterOp::Srl => Instr::Srl { rd, rs1, rs2 },
        RegisterOp::Sra => Instr::Sra { rd, rs1, rs2 },
        RegisterOp::Or => Instr::Or { rd, rs1, rs2 },
        RegisterOp::And => Instr::And { rd, rs1, rs2 },
        RegisterOp::Mul => Instr::Mul { rd, rs1, rs2 },
        RegisterOp::Mulh => Instr::Mulh { rd, rs1, rs2 },
        RegisterOp::Mulhsu => Instr::Mulhsu { rd, rs1, rs2 },
        RegisterOp::Mulhu => Instr::Mulhu { rd, rs1, rs2 },
        RegisterOp::Div => Instr::Div { rd, rs1, rs2 },
        RegisterOp::Divu => Instr::Divu { rd, rs1, rs2 },
        RegisterOp::Rem => Instr::Rem { rd, rs1, rs2 },
        RegisterOp::Remu => Instr::Remu { rd, rs1, rs2 },
    }
}

pub fn immediate_instruction(op: ImmediateOp, rd: u32, rs1: u32, imm: i32) -> Instr
    requires rd_fits { rd < 32 }
    requires rs1_fits { rs1 < 32 }
    requires imm_fits { FitsSigned 12 imm }
    ensures value { result ≡ immediate_instruction op rd rs1 imm }
    ensures range { InRange result }
{
    match op {
        ImmediateOp::Addi => Instr::Addi { rd, rs1, imm },
        ImmediateOp::Slti => Instr::Slti { rd, rs1, imm },
        ImmediateOp::Sltiu => Instr::Sltiu { rd, rs1, imm },
        ImmediateOp::Xori => Instr::Xori { rd, rs1, imm },
        ImmediateOp::Ori => Instr::Ori { rd, rs1, imm },
        ImmediateOp::Andi => Instr::Andi { rd, rs1, imm },
    }
}

pub fn shift_instruction(op: ShiftOp, rd: u32, rs1: u32, shamt: u32) -> Instr
    requires rd_fits { rd < 32 }
    requires rs1_fits { rs1 < 32 }
    requires shamt_fits { shamt < 32 }
    ensures value { result ≡ shift_instruction op rd rs1 shamt }
    ensures range { InRange result }
{
    match op {
        ShiftOp::Slli => Instr::Slli { rd, rs1, shamt },
        ShiftOp::Srli => Instr::Srli { rd, rs1, shamt },
        ShiftOp::Srai => Instr::Srai { rd, rs1, shamt },
    }
}

pub fn upper_instruction(op: UpperOp, rd: u32, imm: u32) -> Instr
    requires rd_fits { rd < 32 }
    requires imm_fits { imm % 4096 ≡ 0 }
    ensures value { result ≡ upper_instruction op rd imm }
    ensures range { InRange result }
{
    match op {
        UpperOp::Lui => Instr::Lui { rd, imm },
        UpperOp::Auipc => Instr::Auipc { rd, imm },
    }
}

pub fn load_instruction(op: LoadOp, rd: u32, rs1: u32, imm: i32) -> Instr
    requires rd_fits { rd < 32 }
    requires rs1_fits { rs1 < 32 }
    requires imm_fits { FitsSigned 12 imm }
    ensures value { result ≡ load_instruction op rd rs1 imm }
    ensures range { InRange result }
{
    match op {
        LoadOp::Lb => Instr::Lb { rd, rs1, imm },
        LoadOp::Lh => Instr::Lh { rd, rs1, imm },
        LoadOp::Lw => Instr::Lw { rd, rs1, imm },
        LoadOp::Lbu => Instr::Lbu { rd, rs1, imm },
        LoadOp::Lhu => Instr::Lhu { rd, rs1, imm },
        LoadOp::Jalr => Instr::Jalr { rd, rs1, imm },
    }
}

pub fn store_instruction(op: StoreOp, rs1: u32, rs2: u32, imm: i32) -> Instr
    requires rs1_fits { rs1 < 32 }
    requires rs2_fits { rs2 < 32 }
    requires imm_fits { FitsSigned 12 imm }
    ensures value { result ≡ store_instruction op rs1 rs2 imm }
    ensures range { InRange result }
{
    match op {
        StoreOp::Sb => Instr::Sb { rs1, rs2, imm },
        StoreOp::Sh => Instr::Sh { rs1, rs2, imm },
        StoreOp::Sw => Instr::Sw { rs1, rs2, imm },
    }
}

pub fn branch_instruction(op: BranchOp, rs1: u32, rs2: u32, imm: i32) -> Instr
    requires rs1_fits { rs1 < 32 }
    requires rs2_fits { rs2 < 32 }
    requires imm_fits { FitsSigned 13 imm }
    requires even_fits { IsEven imm }
    ensures value { result ≡ branch_instruction op rs1 rs2 imm }
    ensures range { InRange result }
{
    match op {
        BranchOp::Beq => Instr::Beq { rs1, rs2, imm },
        BranchOp::Bne => Instr::Bne { rs1, rs2, imm },
        BranchOp::Blt => Instr::Blt { rs1, rs2, imm },
        BranchOp::Bge => Instr::Bge { rs1, rs2, imm },
        BranchOp::Bltu => Instr::Bltu { rs1, rs2, imm },
        BranchOp::Bgeu => Instr::Bgeu { rs1, rs2, imm },
    }
}

pub fn csr_instruction(op: CsrOp, rd: u32, rs1: u32, csr: u32) -> Instr
    requires rd_fits { rd < 32 }
    requires rs1_fits { rs1 < 32 }
    requires csr_fits { csr < 4096 }
    ensures value { result ≡ csr_instruction op rd rs1 csr }
    ensures range { InRange result }
{
    match op {
        CsrOp::Csrrw => Instr::Csrrw { rd, rs1, csr },
        CsrOp::Csrrs => Instr::Csrrs { rd, rs1, csr },
        CsrOp::Csrrc => Instr::Csrrc { rd, rs1, csr },
    }
}

pub fn csr_immediate_instruction(op: CsrImmediateOp, rd: u32, uimm: u32, csr: u32) -> Instr
    requires rd_fits { rd < 32 }
    requires uimm_fits { uimm < 32 }
    requires csr_fits { csr < 4096 }
    ensures value { result ≡ csr_immediate_instruction op rd uimm csr }
    ensures range { InRange result }
{
    match op {
        CsrImmediateOp::Csrrwi => Instr::Csrrwi { rd, uimm, csr },
        CsrImmediateOp::Csrrsi => Instr::Csrrsi { rd, uimm, csr },
        CsrImmediateOp::Csrrci => Instr::Csrrci { rd, uimm, csr },
    }
}
