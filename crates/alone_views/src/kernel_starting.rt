//! The harts of a kernel that runs alone, as its items begin.
ghost use Rattle.std.specs.Prelude.{◌≡◌, ◌%◌, IfOk};
ghost use Rattle.cloak_model.specs.Opening.{started_harts};

use cloak_base::NoMemory;
use host_calls::Hart;
use std::alloc::Global;

/// The harts as they begin.
pub fn start_harts(alloc: Global, entry: u32, count: u32) -> Result<Vec<Hart>, NoMemory>
    requires { entry % 4 ≡ 0 }
    ensures { IfOk result (λ harts. harts.items ≡ started_harts entry count) }
{
    let mut harts = Vec::with_capacity(alloc, count as usize)?;
    for number in 0..count {
        harts.push(Hart::start(entry, number))?;
    }
    Ok(harts)
}
