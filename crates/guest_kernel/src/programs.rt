//! The demo programs of an image.
ghost use Rattle.std.specs.Prelude.{◌≡◌, ◌<◌, IfOk};
ghost use Rattle.guest_kernel.specs.Drawing.{AreDrawn};
ghost use Rattle.guest_kernel.specs.Generated.{demo_code, demo_program, demo_programs};

use crate::demo_table::demo_words;
use crate::drawing::{DRAWN, programs, rounds};
use crate::segments::{demo_frame, put_words};
use cloak_base::{NoMemory, Start};
use cloak_model::{Program, Sequence};
use std::alloc::Global;

/// How each program starts: in its one page, which its stack shares.
pub const DEMO_START: Start = Start {
    pages: 1,
    base: 0x0040_0000,
    entry: 0x0040_0000,
    sp: 0x0040_1000,
};

/// The code of a program, and after it its number and its rounds.
fn demo_code(alloc: Global, program: u32, rounds: u32) -> Result<Vec<u8>, NoMemory>
    ensures { IfOk result (λ v. v.items ≡ demo_code program rounds) }
{
    let words = demo_words();
    let mut out = Vec::new(alloc);
    put_words(&mut out, &words[..words.len() - 2])?;
    put_words(&mut out, &[program, rounds])?;
    Ok(out)
}

/// A program of this many rounds, under a key of its own.
fn demo_program(alloc: Global, program: u32, rounds: u32) -> Result<Program, NoMemory>
    requires { program < 4 }
    ensures { IfOk result (λ p. p ≡ demo_program program rounds) }
{
    let mut bytes = demo_code(alloc, program, rounds)?;
    bytes.resize(4096, 0)?;
    Ok(Program {
        place: demo_frame(program),
        start: DEMO_START,
        key: program,
        bytes: Sequence::new(bytes),
    })
}

/// All programs, by the words that are drawn.
pub fn demo_programs(alloc: Global, n: u64, words: &[u32; DRAWN]) -> Result<Vec<Program>, NoMemory>
    requires { AreDrawn n words.now }
    ensures { IfOk result (λ v. v.items ≡ demo_programs n) }
{
    let mut out = Vec::new(alloc);
    for program in 0..programs(n) {
        out.push(demo_program(alloc, program, rounds(n, words, program))?)?;
    }
    Ok(out)
}
