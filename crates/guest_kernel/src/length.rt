//! The length of an image's file.
ghost use Rattle.std.specs.Prelude.{◌≡◌, length};
ghost use Rattle.cloak_model.specs.Bundle.{bundle_bytes};
ghost use Rattle.guest_kernel.specs.Generated.{generated};

use crate::drawing::programs;
use crate::kernel_table::kernel_words;

/// How many bytes the file of a number's image has in version 2: header, schedule, two segments, the disk and the programs.
pub fn file_length(n: u64) -> u64
    ensures { result ≡ length (bundle_bytes 2 (generated n)) }
{
    let programs = u64::from(programs(n));
    let kernel = 8 + 4 * kernel_words().len() as u64;
    let boot_table = 8 + 4 * (2 + programs);
    let disk = 64 * 4096;
    40 + 16 + kernel + boot_table + disk + programs * (24 + 4096)
}
