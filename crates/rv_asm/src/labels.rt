//! Where labels are.

ghost use Rattle.std.specs.Prelude.{◌≡◌, ℕ, List, ◌+◌, ◌<◌, ◌≤◌, ◌^◌, length, IfOk, IfErr, OnOk, if◌then◌else◌, Some};
ghost use Rattle.std.specs.Prelude.{None};
ghost use Rattle.std.specs.Option.{ok_or};
ghost use Rattle.std.specs.Str.{bytes_eq};
ghost use Rattle.rv_asm.specs.declared.fault.FaultKind.TheVariants as kinds;
ghost use Rattle.rv_asm.specs.declared.fault.AsmFault.TheVariants as faults;
ghost use Rattle.rv_asm.specs.Operations.{or_else};
ghost use Rattle.rv_asm.specs.Statements.{statement};
ghost use Rattle.rv_asm.specs.Assembly.{lines_of, size, mark, labels_of, find_in, table};

use crate::fault::{AsmFault, FaultKind};
use crate::statement::{Statement, parse};
use crate::words::{before, behind};
use std::alloc::Global;
use std::collections::BTreeMap;

/// Where a label is defined: its line, counted from 1, and how many words stand before it.
#[derive(Clone, Copy)]
pub struct Mark {
    pub line: u32,
    pub place: u64,
}

/// The mark of a name.
pub fn find(marks: &BTreeMap<&[u8], Mark>, name: &[u8]) -> Result<Mark, FaultKind>
    ensures { result ≡ ok_or (table marks.now name.now) kinds.BadLabel }
{
    match marks.get(name) {
        Some(mark) => Ok(*mark),
        None => Err(FaultKind::BadLabel),
    }
}

/// Adds a mark if the name has none.
fn add<'a>(marks: &mut BTreeMap<&'a [u8], Mark>, name: &'a [u8], mark: Mark) -> Result<(), AsmFault>
    ensures added { OnOk result
        ((q : List ℕ) → table marks.new q ≡ or_else (table marks.old q) (if bytes_eq q name.now then Some mark else
        None)) }
    ensures err { IfErr result (λ e. e ≡ faults.NoMemory) }
{
    if !marks.contains_key(name) {
        marks.insert(name, mark)?;
    }
    Ok(())
}

/// Marks the label that a line defines. How many words the line asks for; a faulty one asks for none.
#[tactic(auto, using(crate::proofs::Found::or_else_none))]
fn mark_line<'a>(
    marks: &mut BTreeMap<&'a [u8], Mark>,
    line: u32,
    place: u64,
    text: &'a [u8],
) -> Result<u64, AsmFault>
    ensures words { IfOk result (λ n. n ≡ size (statement text.now)) }
    ensures few { IfOk result (λ n. n ≤ 2) }
    ensures marked { OnOk result
        ((q : List ℕ) → table marks.new q ≡ or_else (table marks.old q) (find_in
        (mark line place (statement text.now)) q)) }
    ensures err { IfErr result (λ e. e ≡ faults.NoMemory) }
{
    match parse(text) {
        Ok(Statement::Label(name)) => {
            add(marks, name, Mark { line, place })?;
            Ok(0)
        }
        Ok(Statement::Nothing) => Ok(0),
        Ok(Statement::Single(_)) => Ok(1),
        Ok(Statement::Pair(_, _)) => Ok(2),
        Ok(Statement::Branch { .. }) => Ok(1),
        Ok(Statement::Jump { .. }) => Ok(1),
        Ok(Statement::Address { .. }) => Ok(2),
        Err(_) => Ok(0),
    }
}

/// Where each label of a text is first defined.
pub fn labels<'a>(alloc: Global, text: &'a [u8]) -> Result<BTreeMap<&'a [u8], Mark>, AsmFault>
    requires { length text.now < 2 ^ 32 }
    ensures found { IfOk result
        (λ marks. (q : List ℕ) → table marks q ≡ find_in (labels_of 0 0 (lines_of text.now)) q) }
    ensures err { IfErr result (λ e. e ≡ faults.NoMemory) }
{
    let mut marks = BTreeMap::new(alloc);
    let mut rest = text;
    let mut line = 0u32;
    let mut place = 0u64;
    while !rest.is_empty() {
        line += 1;
        place += mark_line(&mut marks, line, place, before(rest, b'\n'))?;
        rest = behind(rest, b'\n');
    }
    Ok(marks)
}
