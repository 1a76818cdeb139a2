//! A text in two passes: where the labels are, and what stands for each word.

ghost use Rattle.std.specs.Prelude.{◌≡◌, ℕ, ◌+◌, ◌*◌, ◌-◌, ◌<◌, ◌≤◌, ◌^◌, length, List, ◌++◌, IfOk, IfErr, OnOk};
ghost use Rattle.std.specs.Prelude.{MatchResult, All, Ok};
ghost use Rattle.rv_isa.specs.Range.{FitsSigned, IsEven};
ghost use Rattle.rv_asm.specs.declared.fault.AsmFault.TheVariants as faults;
ghost use Rattle.rv_asm.specs.declared.image_word.ImageWord.{ImageWord};
ghost use Rattle.rv_asm.specs.Statements.{Reads, read, IsLineReady, IsItemInRange};
ghost use Rattle.rv_asm.specs.Assembly.{lines_of, offset_between, relative, items_of_line, line_items, items_from};
ghost use Rattle.rv_asm.specs.Assembly.{assembled, SpellsItem, AreSpelled, FailsAs, AnswersAs, table};
ghost use Rattle.rv_asm.specs.Listing.{listed, AreItems};

use crate::atomic::encode_atomic;
use crate::fault::{AsmFault, FaultKind, fault_at};
use crate::image_word::ImageWord;
use crate::labels::{Mark, find, labels};
use crate::operation::branch_instruction;
use crate::statement::{Statement, lower_part, parse, upper_part};
use crate::words::{before, behind};
use rv_isa::{Instr, encode};
use std::alloc::{AllocError, Global};
use std::collections::BTreeMap;

/// What stands for the words of one line.
#[derive(Clone, Copy)]
pub enum Items {
    None,
    One(ImageWord),
    Two(Instr, Instr),
}

/// The bytes from one word to another, forward by fewer words than the reach, or back by at most as many.
#[tactic(auto, unfolding(crate::specs::Assembly::offset_between))]
fn offset(reach: u32, here: u64, there: u64) -> Result<i32, FaultKind>
    requires { reach ≤ 262144 }
    ensures value { result ≡ offset_between reach here there }
    ensures even { IfOk result IsEven }
    ensures branch { reach ≡ 1024 → IfOk result (λ i. FitsSigned 13 i) }
    ensures jump { IfOk result (λ i. FitsSigned 21 i) }
{
    if here <= there {
        let ahead = there - here;
        if ahead < u64::from(reach) {
            Ok(4 * ahead as i32)
        } else {
            Err(FaultKind::OutOfReach)
        }
    } else {
        let back = here - there;
        if back <= u64::from(reach) {
            Ok(-(4 * back as i32))
        } else {
            Err(FaultKind::OutOfReach)
        }
    }
}

/// The bytes from one word to another, modulo 2^32.
#[tactic(auto, unfolding(crate::specs::Assembly::relative))]
fn relative(here: u64, there: u64) -> u32
    ensures { result ≡ relative here there }
{
    ((there % (1 << 30) + ((1 << 30) - here % (1 << 30))) % (1 << 30) * 4) as u32
}

/// What stands for the words of a statement, by its line and place.
fn resolve(
    marks: &BTreeMap<&[u8], Mark>,
    line: u32,
    here: u64,
    statement: Statement<'_>,
) -> Result<Items, FaultKind>
    requires { IsLineReady statement }
    ensures value { Reads listed result (items_of_line (table marks.now) line here (read statement.entry)) }
    ensures ready { IfOk result AreItems }
{
    match statement {
        Statement::Nothing => Ok(Items::None),
        Statement::Label(name) => {
            let mark = find(marks, name)?;
            if mark.line == line {
                Ok(Items::None)
            } else {
                Err(FaultKind::BadLabel)
            }
        }
        Statement::Single(item) => Ok(Items::One(item)),
        Statement::Pair(first, second) => Ok(Items::Two(first, second)),
        Statement::Branch { op, rs1, rs2, to } => {
            let mark = find(marks, to)?;
            let imm = offset(1024, here, mark.place)?;
            let branch = branch_instruction(op, rs1, rs2, imm);
            Ok(Items::One(ImageWord::Instruction(branch)))
        }
        Statement::Jump { rd, to } => {
            let mark = find(marks, to)?;
            let imm = offset(262_144, here, mark.place)?;
            Ok(Items::One(ImageWord::Instruction(Instr::Jal { rd, imm })))
        }
        Statement::Address { rd, to } => {
            let mark = find(marks, to)?;
            let v = relative(here, mark.place);
            let upper = Instr::Auipc {
                rd,
                imm: upper_part(v),
            };
            let lower = Instr::Addi {
                rd,
                rs1: rd,
                imm: lower_part(v),
            };
            Ok(Items::Two(upper, lower))
        }
    }
}

/// What stands for the words of a line.
#[tactic(auto, unfolding(crate::specs::Assembly::line_items))]
fn line_items(
    marks: &BTreeMap<&[u8], Mark>,
    line: u32,
    here: u64,
    text: &[u8],
) -> Result<Items, AsmFault>
    ensures value { MatchResult result (λ x. line_items (table marks.now) line here text.now ≡ Ok (listed x))
        (λ e. line_items (table marks.now) line here text.now ≡ Err e) }
    ensures ready { IfOk result AreItems }
{
    let statement = match parse(text) {
        Ok(statement) => statement,
        Err(kind) => return Err(fault_at(line, kind)),
    };
    match resolve(marks, line, here, statement) {
        Ok(items) => Ok(items),
        Err(kind) => Err(fault_at(line, kind)),
    }
}

fn append(out: &mut Vec<ImageWord>, items: Items) -> Result<(), AsmFault>
    requires { AreItems items }
    ensures items { OnOk result (out.new.items ≡ out.old.items ++ listed items) }
    ensures ready { All IsItemInRange out.old.items → OnOk result (All IsItemInRange out.new.items) }
    ensures err { IfErr result (λ e. e ≡ faults.NoMemory) }
{
    match items {
        Items::None => {}
        Items::One(item) => out.push(item)?,
        Items::Two(first, second) => {
            out.push(ImageWord::Instruction(first))?;
            out.push(ImageWord::Instruction(second))?;
        }
    }
    Ok(())
}

/// What stands for the words of a text, or the fault of its first faulty line.
fn all_items(
    alloc: Global,
    marks: &BTreeMap<&[u8], Mark>,
    text: &[u8],
) -> Result<Vec<ImageWord>, AsmFault>
    requires { length text.now < 2 ^ 32 }
    ensures value { AnswersAs (λ v. v.items) result (items_from (table marks.now) 0 0 (lines_of text.now)) }
    ensures ready { IfOk result (λ v. All IsItemInRange v.items) }
{
    let mut out = Vec::new(alloc);
    let mut rest = text;
    let mut line = 0u32;
    while !rest.is_empty() {
        line += 1;
        let items = line_items(marks, line, out.len() as u64, before(rest, b'\n'))?;
        append(&mut out, items)?;
        rest = behind(rest, b'\n');
    }
    Ok(out)
}

fn word_of(item: &ImageWord) -> u32
    requires { IsItemInRange item.now }
    ensures { SpellsItem item.now result }
{
    match item {
        ImageWord::Instruction(i) => encode(i),
        ImageWord::Atomic(a) => encode_atomic(a),
        ImageWord::Data(n) => *n,
    }
}

fn words_of(alloc: Global, items: &[ImageWord]) -> Result<Vec<u32>, AllocError>
    requires { All IsItemInRange items.now }
    ensures { IfOk result (λ v. AreSpelled items.now v.items) }
{
    let mut words = Vec::new(alloc);
    for item in items {
        words.push(word_of(item))?;
    }
    Ok(words)
}

/// The words of a text of instructions, one statement a line, or its first fault.
#[tactic(auto, unfolding(crate::specs::Assembly::assembled))]
pub fn assemble(alloc: Global, text: &str) -> Result<Vec<u32>, AsmFault>
    requires { length text.now < 2 ^ 32 }
    ensures { MatchResult result (λ v. (items : List ImageWord) × (assembled text.now ≡ Ok items)
        × AreSpelled items v.items)
        (λ e. FailsAs e (assembled text.now)) }
{
    let text = text.as_bytes();
    let marks = labels(alloc, text)?;
    let items = all_items(alloc, &marks, text)?;
    if items.len() > 65_536 {
        return Err(AsmFault::TooLong);
    }
    Ok(words_of(alloc, &items)?)
}
