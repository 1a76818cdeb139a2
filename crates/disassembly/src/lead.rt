//! Where words lead.
ghost use Rattle.std.specs.Prelude.{◌≡◌, ◌<◌, ◌≤◌, option_and_then};
ghost use Rattle.rv_isa.specs.Table.{instruction};
ghost use Rattle.disassembly.specs.Listing as spec;

use rv_isa::{Instr, decode};

/// Where the word at a place leads.
#[derive(Clone, Copy, Debug, PartialEq, Eq)]
pub enum Course {
    /// It is no branch and no jump to a label.
    Nowhere,
    /// To the word at this place.
    To(u32),
    /// To none of the words.
    Away,
}

/// How far a branch or a jump to a label leads.
fn reach(i: &Instr) -> Option<i32>
    ensures { result ≡ spec.reach i.now }
{
    match *i {
        Instr::Jal { imm, .. }
        | Instr::Beq { imm, .. }
        | Instr::Bne { imm, .. }
        | Instr::Blt { imm, .. }
        | Instr::Bge { imm, .. }
        | Instr::Bltu { imm, .. }
        | Instr::Bgeu { imm, .. } => Some(imm),
        _ => None,
    }
}

/// The word that is so many bytes from the word at a place, if it is one of the first `count`.
#[tactic(auto, unfolding(crate::specs::Listing::led))]
fn led(count: u32, place: u32, bytes: i32) -> Course
    requires few { count ≤ 65536 }
    requires inside { place < count }
    ensures { result ≡ spec.led count place bytes }
{
    let far = bytes.unsigned_abs();
    if far % 4 != 0 {
        return Course::Away;
    }
    if bytes >= 0 {
        let there = place + far / 4;
        if there < count {
            Course::To(there)
        } else {
            Course::Away
        }
    } else if far / 4 <= place {
        Course::To(place - far / 4)
    } else {
        Course::Away
    }
}

/// Where the word at a place of the first `count` leads.
pub fn lead(count: u32, place: u32, word: u32) -> Course
    requires few { count ≤ 65536 }
    requires inside { place < count }
    ensures { result ≡ spec.lead count place word }
{
    let Some(i) = decode(word) else {
        return Course::Nowhere;
    };
    match reach(&i) {
        Some(bytes) => led(count, place, bytes),
        None => Course::Nowhere,
    }
}
