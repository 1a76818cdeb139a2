//! An instruction's name with its operands.
ghost use Rattle.std.specs.Prelude.{◌≡◌, ◌≤◌, ◌<◌, length, codes, decimal};
ghost use Rattle.std.specs.Fmt.{signed_decimal};
ghost use Rattle.rv_isa.specs.Range.{FitsSigned};
ghost use Rattle.word_text.specs.Operands.{register, upper, csr_number, memory, target};
ghost use Rattle.word_text.specs.Text.{two, three};

use crate::WordText;
use crate::pieces::{
    add, add_csr, add_decimal, add_memory, add_register, add_signed, add_target, add_upper, begun,
};

/// No operand.
pub fn bare_form(name: &[u8]) -> WordText
    requires { length name.now ≤ 14 }
    ensures { result.items ≡ name.now }
{
    let mut text = WordText::new();
    add(&mut text, name);
    text
}

/// Two registers.
pub fn two_registers(name: &[u8], a: u32, b: u32) -> WordText
    requires name { length name.now ≤ 14 }
    requires a { a < 32 }
    requires b { b < 32 }
    ensures { result.items ≡ two name.now (register a) (register b) }
{
    let mut text = begun(name);
    add_register(&mut text, a);
    add(&mut text, b", ");
    add_register(&mut text, b);
    text
}

/// A register and an upper immediate.
pub fn upper_form(name: &[u8], rd: u32, imm: u32) -> WordText
    requires name { length name.now ≤ 14 }
    requires rd { rd < 32 }
    ensures { result.items ≡ two name.now (register rd) (upper imm) }
{
    let mut text = begun(name);
    add_register(&mut text, rd);
    add(&mut text, b", ");
    add_upper(&mut text, imm);
    text
}

/// A register, and a register with an offset.
pub fn memory_form(name: &[u8], r: u32, imm: i32, rs1: u32) -> WordText
    requires name { length name.now ≤ 14 }
    requires r { r < 32 }
    requires imm { FitsSigned 12 imm }
    requires rs1 { rs1 < 32 }
    ensures { result.items ≡ two name.now (register r) (memory imm rs1) }
{
    let mut text = begun(name);
    add_register(&mut text, r);
    add(&mut text, b", ");
    add_memory(&mut text, imm, rs1);
    text
}

/// A register and the label that JAL at an address leads to.
pub fn jump_form(rd: u32, at: u32, imm: i32) -> WordText
    requires { rd < 32 }
    ensures { result.items ≡ two (codes "jal") (register rd) (target at imm) }
{
    let mut text = begun(b"jal");
    add_register(&mut text, rd);
    add(&mut text, b", ");
    add_target(&mut text, at, imm);
    text
}

/// Three registers.
pub fn register_form(name: &[u8], rd: u32, rs1: u32, rs2: u32) -> WordText
    requires name { length name.now ≤ 14 }
    requires rd { rd < 32 }
    requires rs1 { rs1 < 32 }
    requires rs2 { rs2 < 32 }
    ensures { result.items ≡ three name.now (register rd) (register rs1) (register rs2) }
{
    let mut text = begun(name);
    add_register(&mut text, rd);
    add(&mut text, b", ");
    add_register(&mut text, rs1);
    add(&mut text, b", ");
    add_register(&mut text, rs2);
    text
}

/// Two registers and an immediate.
pub fn immediate_form(name: &[u8], rd: u32, rs1: u32, imm: i32) -> WordText
    requires name { length name.now ≤ 14 }
    requires rd { rd < 32 }
    requires rs1 { rs1 < 32 }
    requires imm { FitsSigned 12 imm }
    ensures { result.items ≡ three name.now (register rd) (register rs1) (signed_decimal imm) }
{
    let mut text = begun(name);
    add_register(&mut text, rd);
    add(&mut text, b", ");
    add_register(&mut text, rs1);
    add(&mut text, b", ");
    add_signed(&mut text, imm);
    text
}

/// Two registers and a shift amount.
pub fn shift_form(name: &[u8], rd: u32, rs1: u32, shamt: u32) -> WordText
    requires name { length name.now ≤ 14 }
    requires rd { rd < 32 }
    requires rs1 { rs1 < 32 }
    requires shamt { shamt < 32 }
    ensures { result.items ≡ three name.now (register rd) (register rs1) (decimal shamt) }
{
    let mut text = begun(name);
    add_register(&mut text, rd);
    add(&mut text, b", ");
    add_register(&mut text, rs1);
    add(&mut text, b", ");
    add_decimal(&mut text, shamt);
    text
}

/// Two registers and the label that a branch at an address leads to.
pub fn branch_form(name: &[u8], rs1: u32, rs2: u32, at: u32, imm: i32) -> WordText
    requires name { length name.now ≤ 14 }
    requires rs1 { rs1 < 32 }
    requires rs2 { rs2 < 32 }
    ensures { result.items ≡ three name.now (register rs1) (register rs2) (target at imm) }
{
    let mut text = begun(name);
    add_register(&mut text, rs1);
    add(&mut text, b", ");
    add_register(&mut text, rs2);
    add(&mut text, b", ");
    add_target(&mut text, at, imm);
    text
}

/// A register, a control and status register, and a register.
pub fn csr_form(name: &[u8], rd: u32, csr: u32, rs1: u32) -> WordText
    requires name { length name.now ≤ 14 }
    requires rd { rd < 32 }
    requires rs1 { rs1 < 32 }
    ensures { result.items ≡ three name.now (register rd) (csr_number csr) (register rs1) }
{
    let mut text = begun(name);
    add_register(&mut text, rd);
    add(&mut text, b", ");
    add_csr(&mut text, csr);
    add(&mut text, b", ");
    add_register(&mut text, rs1);
    text
}

/// A register, a control and status register, and an immediate.
pub fn csr_immediate_form(name: &[u8], rd: u32, csr: u32, uimm: u32) -> WordText
    requires name { length name.now ≤ 14 }
    requires rd { rd < 32 }
    requires uimm { uimm < 32 }
    ensures { result.items ≡ three name.now (register rd) (csr_number csr) (decimal uimm) }
{
    let mut text = begun(name);
    add_register(&mut text, rd);
    add(&mut text, b", ");
    add_csr(&mut text, csr);
    add(&mut text, b", ");
    add_decimal(&mut text, uimm);
    text
}
