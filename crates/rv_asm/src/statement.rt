//! The statement of a line.

ghost use Rattle.std.specs.Prelude.{◌≡◌, ◌==◌, ◌+◌, ◌<◌, ◌%◌, ◌^◌, IfSome, IfOk};
ghost use Rattle.std.specs.List.{before_first, after_first, position_or_len};
ghost use Rattle.rv_isa.specs.Range.{InRange, FitsSigned};
ghost use Rattle.rv_asm.specs.Words.{FindsAs};
ghost use Rattle.rv_asm.specs.Operations.{IsInRange};
ghost use Rattle.rv_asm.specs.Statements.{upper_part, lower_part, wrapped, bare_statement, branch_statement};
ghost use Rattle.rv_asm.specs.Statements.{jal_statement, j_statement, li_statement, la_statement, word_statement};
ghost use Rattle.rv_asm.specs.Statements.{statement_of, label_word, statement, read, IsLineReady, Reads};

use crate::atomic::atomic_form;
use crate::fault::FaultKind;
use crate::form::{
    csr_form, csr_immediate_form, fence_form, immediate_form, load_form, register_form, shift_form,
    store_form, upper_form,
};
use crate::image_word::ImageWord;
use crate::operand::{modular_operand, name_operand, register_operand, three};
use crate::operation::{BranchOp, Operation, find_operation};
use crate::words::{before, cut, first_word, is_all_blank, is_name};
use rv_isa::Instr;

/// What a line asks for.
#[derive(Clone, Copy)]
pub enum Statement<'a> {
    /// A blank line.
    Nothing,
    /// A label is defined.
    Label(&'a [u8]),
    Single(ImageWord),
    Pair(Instr, Instr),
    Branch {
        op: BranchOp,
        rs1: u32,
        rs2: u32,
        to: &'a [u8],
    },
    /// JAL to a label.
    Jump {
        rd: u32,
        to: &'a [u8],
    },
    /// The address of a label, in two instructions.
    Address {
        rd: u32,
        to: &'a [u8],
    },
}

/// The upper 20 bits, rounded so that the signed low 12 bits complete them.
pub fn upper_part(v: u32) -> u32
    ensures value { result ≡ upper_part v }
    ensures low { result % 4096 ≡ 0 }
{
    v.wrapping_add(2048) / 4096 * 4096
}

/// The low 12 bits, with their sign.
pub fn lower_part(v: u32) -> i32
    ensures value { result ≡ lower_part v }
    ensures fits { FitsSigned 12 result }
    ensures completes { (upper_part v + wrapped result) % 2 ^ 32 ≡ v }
{
    let low = v % 4096;
    if low < 2048 {
        low as i32
    } else {
        low as i32 - 4096
    }
}

#[tactic(auto, unfolding(crate::specs::Statements::bare_statement))]
fn bare_statement<'a>(i: Instr, text: &'a [u8]) -> Option<Statement<'a>>
    requires { InRange i }
    ensures value { FindsAs read result (bare_statement i text.now) }
    ensures ready { IfSome result IsLineReady }
{
    if is_all_blank(text) {
        Some(Statement::Single(ImageWord::Instruction(i)))
    } else {
        None
    }
}

#[tactic(auto, unfolding(crate::specs::Statements::branch_statement))]
fn branch_statement<'a>(op: BranchOp, text: &'a [u8]) -> Option<Statement<'a>>
    ensures value { FindsAs read result (branch_statement op text.now) }
    ensures ready { IfSome result IsLineReady }
{
    let (rs1, rs2, to) = three(text)?;
    let rs1 = register_operand(rs1)?;
    let rs2 = register_operand(rs2)?;
    let to = name_operand(to)?;
    Some(Statement::Branch { op, rs1, rs2, to })
}

#[tactic(auto, unfolding(crate::specs::Statements::jal_statement))]
fn jal_statement<'a>(text: &'a [u8]) -> Option<Statement<'a>>
    ensures value { FindsAs read result (jal_statement text.now) }
    ensures ready { IfSome result IsLineReady }
{
    let (rd, to) = cut(text, b',')?;
    let rd = register_operand(rd)?;
    let to = name_operand(to)?;
    Some(Statement::Jump { rd, to })
}

#[tactic(auto, unfolding(crate::specs::Statements::j_statement))]
fn j_statement<'a>(text: &'a [u8]) -> Option<Statement<'a>>
    ensures value { FindsAs read result (j_statement text.now) }
    ensures ready { IfSome result IsLineReady }
{
    let to = name_operand(text)?;
    Some(Statement::Jump { rd: 0, to })
}

#[tactic(auto, unfolding(crate::specs::Statements::li_statement))]
fn li_statement<'a>(text: &'a [u8]) -> Option<Statement<'a>>
    ensures value { FindsAs read result (li_statement text.now) }
    ensures ready { IfSome result IsLineReady }
{
    let (rd, v) = cut(text, b',')?;
    let rd = register_operand(rd)?;
    let v = modular_operand(v)?;
    let upper = Instr::Lui {
        rd,
        imm: upper_part(v),
    };
    let lower = Instr::Addi {
        rd,
        rs1: rd,
        imm: lower_part(v),
    };
    Some(Statement::Pair(upper, lower))
}

#[tactic(auto, unfolding(crate::specs::Statements::la_statement))]
fn la_statement<'a>(text: &'a [u8]) -> Option<Statement<'a>>
    ensures value { FindsAs read result (la_statement text.now) }
    ensures ready { IfSome result IsLineReady }
{
    let (rd, to) = cut(text, b',')?;
    let rd = register_operand(rd)?;
    let to = name_operand(to)?;
    Some(Statement::Address { rd, to })
}

#[tactic(auto, unfolding(crate::specs::Statements::word_statement))]
fn word_statement<'a>(text: &'a [u8]) -> Option<Statement<'a>>
    ensures value { FindsAs read result (word_statement text.now) }
    ensures ready { IfSome result IsLineReady }
{
    let v = modular_operand(text)?;
    Some(Statement::Single(ImageWord::Data(v)))
}

/// The statement of an operation with the text of its operands, if they are those that it takes.
fn statement_of<'a>(op: Operation, text: &'a [u8]) -> Option<Statement<'a>>
    requires { IsInRange op }
    ensures value { FindsAs read result (statement_of op text.now) }
    ensures ready { IfSome result IsLineReady }
{
    let i = match op {
        Operation::Register(op) => register_form(op, text)?,
        Operation::Immediate(op) => immediate_form(op, text)?,
        Operation::Shift(op) => shift_form(op, text)?,
        Operation::Upper(op) => upper_form(op, text)?,
        Operation::Load(op) => load_form(op, text)?,
        Operation::Store(op) => store_form(op, text)?,
        Operation::Csr(op) => csr_form(op, text)?,
        Operation::CsrImmediate(op) => csr_immediate_form(op, text)?,
        Operation::Fence => fence_form(text)?,
        Operation::Atomic { op, order } => {
            let a = atomic_form(op, order, text)?;
            return Some(Statement::Single(ImageWord::Atomic(a)));
        }
        Operation::Bare(i) => return bare_statement(i, text),
        Operation::Branch(op) => return branch_statement(op, text),
        Operation::Jal => return jal_statement(text),
        Operation::J => return j_statement(text),
        Operation::Li => return li_statement(text),
        Operation::La => return la_statement(text),
        Operation::Word => return word_statement(text),
    };
    Some(Statement::Single(ImageWord::Instruction(i)))
}

/// The name of a label with its colon.
#[tactic(auto, unfolding(crate::specs::Statements::label_word))]
fn label_word(word: &[u8]) -> Option<&[u8]>
    ensures { FindsAs (λ x. x.now) result (label_word word.now) }
{
    let (name, rest) = cut(word, b':')?;
    if is_name(name) && rest.is_empty() {
        Some(name)
    } else {
        None
    }
}

/// The statement of a line.
#[tactic(auto, unfolding(crate::specs::Statements::statement))]
pub fn parse<'a>(line: &'a [u8]) -> Result<Statement<'a>, FaultKind>
    ensures value { Reads read result (statement line.now) }
    ensures ready { IfOk result IsLineReady }
{
    let (word, text) = first_word(before(line, b'#'));
    if word.is_empty() {
        return Ok(Statement::Nothing);
    }
    if let Some(name) = label_word(word) {
        if is_all_blank(text) {
            return Ok(Statement::Label(name));
        }
        return Err(FaultKind::BadOperand);
    }
    let Some(op) = find_operation(word) else {
        return Err(FaultKind::UnknownWord);
    };
    statement_of(op, text).ok_or(FaultKind::BadOperand)
}
