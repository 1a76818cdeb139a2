/// An instruction of RV32IM, Zicsr, Zifencei or supervisor mode, by its name in the manual.
///
/// A register is its number, `imm` the immediate as it is used (sign-extended and scaled), `shamt` a
/// shift amount, `uimm` the unsigned immediate of a CSR instruction.
#[derive(Clone, Copy)]
pub enum Instr {
    // RV32I: the upper immediates and the jumps; `imm` of the first two is the whole word, low 12 bits 0.
    Lui { rd: u32, imm: u32 },
    Auipc { rd: u32, imm: u32 },
    Jal { rd: u32, imm: i32 },
    Jalr { rd: u32, rs1: u32, imm: i32 },
    // RV32I: branches, `imm` from the address of the instruction.
    Beq { rs1: u32, rs2: u32, imm: i32 },
    Bne { rs1: u32, rs2: u32, imm: i32 },
    Blt { rs1: u32, rs2: u32, imm: i32 },
    Bge { rs1: u32, rs2: u32, imm: i32 },
    Bltu { rs1: u32, rs2: u32, imm: i32 },
    Bgeu { rs1: u32, rs2: u32, imm: i32 },
    // RV32I: loads and stores.
    Lb { rd: u32, rs1: u32, imm: i32 },
    Lh { rd: u32, rs1: u32, imm: i32 },
    Lw { rd: u32, rs1: u32, imm: i32 },
    Lbu { rd: u32, rs1: u32, imm: i32 },
    Lhu { rd: u32, rs1: u32, imm: i32 },
    Sb { rs1: u32, rs2: u32, imm: i32 },
    Sh { rs1: u32, rs2: u32, imm: i32 },
    Sw { rs1: u32, rs2: u32, imm: i32 },
    // RV32I: a register and an immediate.
    Addi { rd: u32, rs1: u32, imm: i32 },
    Slti { rd: u32, rs1: u32, imm: i32 },
    Sltiu { rd: u32, rs1: u32, imm: i32 },
    Xori { rd: u32, rs1: u32, imm: i32 },
    Ori { rd: u32, rs1: u32, imm: i32 },
    Andi { rd: u32, rs1: u32, imm: i32 },
    Slli { rd: u32, rs1: u32, shamt: u32 },
    Srli { rd: u32, rs1: u32, shamt: u32 },
    Srai { rd: u32, rs1: u32, shamt: u32 },
    // RV32I: two registers.
    Add { rd: u32, rs1: u32, rs2: u32 },
    Sub { rd: u32, rs1: u32, rs2: u32 },
    Sll { rd: u32, rs1: u32, rs2: u32 },
    Slt { rd: u32, rs1: u32, rs2: u32 },
    Sltu { rd: u32, rs1: u32, rs2: u32 },
    Xor { rd: u32, rs1: u32, rs2: u32 },
    Srl { rd: u32, rs1: u32, rs2: u32 },
    Sra { rd: u32, rs1: u32, rs2: u32 },
    Or { rd: u32, rs1: u32, rs2: u32 },
    And { rd: u32, rs1: u32, rs2: u32 },
    // RV32M.
    Mul { rd: u32, rs1: u32, rs2: u32 },
    Mulh { rd: u32, rs1: u32, rs2: u32 },
    Mulhsu { rd: u32, rs1: u32, rs2: u32 },
    Mulhu { rd: u32, rs1: u32, rs2: u32 },
    Div { rd: u32, rs1: u32, rs2: u32 },
    Divu { rd: u32, rs1: u32, rs2: u32 },
    Rem { rd: u32, rs1: u32, rs2: u32 },
    Remu { rd: u32, rs1: u32, rs2: u32 },
    // Memory ordering; `rest` is the word without its opcode and funct3.
    Fence { rest: u32 },
    FenceI { rest: u32 },
    // Zicsr; `csr` is the number of the register.
    Csrrw { rd: u32, rs1: u32, csr: u32 },
    Csrrs { rd: u32, rs1: u32, csr: u32 },
    Csrrc { rd: u32, rs1: u32, csr: u32 },
    Csrrwi { rd: u32, uimm: u32, csr: u32 },
    Csrrsi { rd: u32, uimm: u32, csr: u32 },
    Csrrci { rd: u32, uimm: u32, csr: u32 },
    // The environment and the supervisor.
    Ecall,
    Ebreak,
    Sret,
    Wfi,
    SfenceVma { rs1: u32, rs2: u32 },
}
