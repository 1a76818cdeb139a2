//! The pieces of a word's text, one after another.
ghost use Rattle.std.specs.Prelude.{◌≡◌, ◌+◌, ◌≤◌, ◌<◌, ◌++◌, length, codes, decimal};
ghost use Rattle.std.specs.Fmt.{signed_decimal};
ghost use Rattle.arrayvec.specs.ArrayVec.{array_vec_len};
ghost use Rattle.rv_isa.specs.Range.{FitsSigned};
ghost use Rattle.cloak_model.specs.Report as report;
ghost use Rattle.cloak_model.specs.Effect as effect;
ghost use Rattle.word_text.specs.Operands as spec;

use crate::WordText;

/// Bytes as they are.
pub fn add(text: &mut WordText, piece: &[u8])
    requires fits { array_vec_len text.old + length piece.now ≤ 48 }
    ensures items { text.new.items ≡ text.old.items ++ piece.now }
    ensures len { array_vec_len text.new ≡ array_vec_len text.old + length piece.now }
{
    let Ok(()) = text.try_extend_from_slice(piece) else {
        unreachable!();
    };
}

/// The name of an instruction, and a blank.
pub fn begun(name: &[u8]) -> WordText
    requires { length name.now ≤ 14 }
    ensures items { result.items ≡ name.now ++ codes " " }
    ensures len { array_vec_len result ≤ 15 }
{
    let mut text = WordText::new();
    add(&mut text, name);
    add(&mut text, b" ");
    text
}

/// A number below 32 in decimal digits.
pub fn add_decimal(text: &mut WordText, n: u32)
    requires small { n < 32 }
    requires fits { array_vec_len text.old + 2 ≤ 48 }
    ensures items { text.new.items ≡ text.old.items ++ decimal n }
    ensures len { array_vec_len text.new ≤ array_vec_len text.old + 2 }
{
    let mut digits = itoa::Buffer::new();
    add(text, digits.format(n).as_bytes());
}

/// A register.
pub fn add_register(text: &mut WordText, number: u32)
    requires small { number < 32 }
    requires fits { array_vec_len text.old + 3 ≤ 48 }
    ensures items { text.new.items ≡ text.old.items ++ spec.register number }
    ensures len { array_vec_len text.new ≤ array_vec_len text.old + 3 }
{
    add(text, b"x");
    add_decimal(text, number);
}

/// A signed number of 12 bits in decimal digits.
pub fn add_signed(text: &mut WordText, n: i32)
    requires small { FitsSigned 12 n }
    requires fits { array_vec_len text.old + 5 ≤ 48 }
    ensures items { text.new.items ≡ text.old.items ++ signed_decimal n }
    ensures len { array_vec_len text.new ≤ array_vec_len text.old + 5 }
{
    let mut digits = itoa::Buffer::new();
    add(text, digits.format(n).as_bytes());
}

/// The eight hexadecimal digits of a word.
fn hexadecimal(w: u32) -> [u8; 8]
    ensures { result ≡ report.hexadecimal w }
{
    let mut digits = [0; 8];
    let Ok(()) = hex::encode_to_slice(w.to_be_bytes().as_slice(), &mut digits) else {
        unreachable!();
    };
    digits
}

/// A word in eight hexadecimal digits.
pub fn add_hexadecimal(text: &mut WordText, w: u32)
    requires fits { array_vec_len text.old + 8 ≤ 48 }
    ensures items { text.new.items ≡ text.old.items ++ report.hexadecimal w }
    ensures len { array_vec_len text.new ≡ array_vec_len text.old + 8 }
{
    add(text, &hexadecimal(w));
}

/// The upper 20 bits of an immediate.
pub fn add_upper(text: &mut WordText, imm: u32)
    requires fits { array_vec_len text.old + 7 ≤ 48 }
    ensures items { text.new.items ≡ text.old.items ++ spec.upper imm }
    ensures len { array_vec_len text.new ≡ array_vec_len text.old + 7 }
{
    add(text, b"0x");
    add(text, &hexadecimal(imm / 4096)[3..]);
}

/// The number of a control and status register.
pub fn add_csr(text: &mut WordText, csr: u32)
    requires fits { array_vec_len text.old + 5 ≤ 48 }
    ensures items { text.new.items ≡ text.old.items ++ spec.csr_number csr }
    ensures len { array_vec_len text.new ≡ array_vec_len text.old + 5 }
{
    add(text, b"0x");
    add(text, &hexadecimal(csr)[5..]);
}

/// A register alone as an address.
pub fn add_base(text: &mut WordText, rs1: u32)
    requires small { rs1 < 32 }
    requires fits { array_vec_len text.old + 5 ≤ 48 }
    ensures items { text.new.items ≡ text.old.items ++ spec.base rs1 }
    ensures len { array_vec_len text.new ≤ array_vec_len text.old + 5 }
{
    add(text, b"(");
    add_register(text, rs1);
    add(text, b")");
}

/// An offset and a register.
pub fn add_memory(text: &mut WordText, imm: i32, rs1: u32)
    requires offset { FitsSigned 12 imm }
    requires base { rs1 < 32 }
    requires fits { array_vec_len text.old + 10 ≤ 48 }
    ensures items { text.new.items ≡ text.old.items ++ spec.memory imm rs1 }
    ensures len { array_vec_len text.new ≤ array_vec_len text.old + 10 }
{
    add_signed(text, imm);
    add_base(text, rs1);
}

/// The word at a sign-extended immediate from an address.
fn offset(at: u32, imm: i32) -> u32
    ensures { result ≡ effect.offset at imm }
{
    at.wrapping_add(imm.cast_unsigned())
}

/// The label of where a branch or a jump at an address leads.
pub fn add_target(text: &mut WordText, at: u32, imm: i32)
    requires fits { array_vec_len text.old + 9 ≤ 48 }
    ensures items { text.new.items ≡ text.old.items ++ spec.target at imm }
    ensures len { array_vec_len text.new ≡ array_vec_len text.old + 9 }
{
    add(text, b"L");
    add_hexadecimal(text, offset(at, imm));
}
