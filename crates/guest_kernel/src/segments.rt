//! The two segments of an image: the kernel, and its boot table.
ghost use Rattle.std.specs.Prelude.{◌≡◌, ◌<◌, ◌++◌, OnOk, IfOk};
ghost use Rattle.std.specs.List.{flat_map};
ghost use Rattle.cloak_model.specs.Bits.{word};
ghost use Rattle.guest_kernel.specs.Layout.{demo_frame};
ghost use Rattle.guest_kernel.specs.Generated.{boot_table, segments_of};

use crate::drawing::{harts, programs};
use crate::kernel_table::kernel_words;
use cloak_base::{NoMemory, RAM_START};
use cloak_model::{Segment, Sequence};
use std::alloc::Global;

/// Where the kernel stands, and where each hart starts.
pub const KERNEL_ADDRESS: u32 = RAM_START;

/// Where its boot table stands.
pub const BOOT_TABLE_ADDRESS: u32 = 0x8000_1000;

/// The frame of a program's page.
pub fn demo_frame(program: u32) -> u32
    requires { program < 4 }
    ensures { result ≡ demo_frame program }
{
    32 + 32 * program
}

/// Appends words, each with its lowest byte first.
pub fn put_words(out: &mut Vec<u8>, words: &[u32]) -> Result<(), NoMemory>
    ensures { OnOk result (out.new.items ≡ out.old.items ++ flat_map word words.now) }
{
    for word in words {
        out.extend_from_slice(&word.to_le_bytes())?;
    }
    Ok(())
}

/// What the kernel reads as it boots.
fn boot_table(alloc: Global, n: u64) -> Result<Vec<u8>, NoMemory>
    ensures { IfOk result (λ v. v.items ≡ flat_map word (boot_table n)) }
{
    let mut out = Vec::new(alloc);
    put_words(&mut out, &[harts(n), programs(n)])?;
    for program in 0..programs(n) {
        put_words(&mut out, &[demo_frame(program)])?;
    }
    Ok(out)
}

/// The kernel, and its boot table.
pub fn segments(alloc: Global, n: u64) -> Result<Vec<Segment>, NoMemory>
    ensures { IfOk result (λ v. v.items ≡ segments_of n) }
{
    let mut kernel = Vec::new(alloc);
    put_words(&mut kernel, kernel_words())?;
    let boot_table = boot_table(alloc, n)?;
    let mut out = Vec::new(alloc);
    out.push(Segment {
        address: KERNEL_ADDRESS,
        bytes: Sequence::new(kernel),
    })?;
    out.push(Segment {
        address: BOOT_TABLE_ADDRESS,
        bytes: Sequence::new(boot_table),
    })?;
    Ok(out)
}
