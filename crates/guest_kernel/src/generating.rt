//! The image of a number.
ghost use Rattle.std.specs.Prelude.{◌≡◌, ◌≤◌, IfOk, length};
ghost use Rattle.cloak_base.specs.Constants.{largest_bundle};
ghost use Rattle.cloak_model.specs.Bundle.{IsInGrammar, bundle_bytes};
ghost use Rattle.guest_kernel.specs.Drawing.{AreDrawn, schedule_of};
ghost use Rattle.guest_kernel.specs.Generated.{generated};

use crate::drawing::{DRAWN, drawn_words, hart_of_turn, harts};
use crate::programs::demo_programs;
use crate::segments::{KERNEL_ADDRESS, segments};
use cloak_base::NoMemory;
use cloak_model::{Bundle, KernelImage, Sequence};
use std::alloc::Global;

/// The harts of sixteen turns, by the words that are drawn.
fn schedule(alloc: Global, n: u64, words: &[u32; DRAWN]) -> Result<Vec<u8>, NoMemory>
    requires { AreDrawn n words.now }
    ensures { IfOk result (λ v. v.items ≡ schedule_of n) }
{
    let mut out = Vec::new(alloc);
    for turn in 0..16 {
        out.push(hart_of_turn(n, words, turn))?;
    }
    Ok(out)
}

/// The image of a number: the kernel with one to four demo programs on one to four harts. Its file of version 2 is not too
/// large.
pub fn generate(alloc: Global, n: u64) -> Result<Bundle, NoMemory>
    ensures value { IfOk result (λ b. b ≡ generated n) }
    ensures in_grammar { IfOk result IsInGrammar }
    ensures fits { IfOk result (λ b. length (bundle_bytes 2 b) ≤ largest_bundle) }
{
    let words = drawn_words(n);
    let kernel = KernelImage {
        frames: 256,
        harts: harts(n),
        schedule: Sequence::new(schedule(alloc, n, &words)?),
        entry: KERNEL_ADDRESS,
        segments: Sequence::new(segments(alloc, n)?),
        disk: Sequence::new(vec![in alloc; 0; 64 * 4096]?),
    };
    let programs = Sequence::new(demo_programs(alloc, n, &words)?);
    Ok(Bundle { kernel, programs })
}
