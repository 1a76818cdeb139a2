ghost use Rattle.std.specs.Prelude.{◌≡◌, ◌≤◌, length};
ghost use Rattle.cloaked_side.specs.Holding.{domains_in};
ghost use Rattle.joint_machine.specs.Programs.{AreNumbered, AreFreeUnused};

use cloak_base::Violation;
use cloaked_side::Memory;
use host_calls::{Disk, Hart};
use hypercalls::Domain;
use thread_context::Roots;

/// The joint machine.
#[derive(Drop)]
pub struct Joint {
    pub(crate) harts: Vec<Hart>,
    pub(crate) memory: Memory,
    /// Each program at the place of its number.
    pub(crate) domains: Vec<Domain>,
    /// The page table that each space was first resumed with.
    pub(crate) roots: Roots,
    pub(crate) disk: Disk,
    /// For each number of a domain, what ended it.
    pub(crate) ended: [Option<Violation>; 4],
    /// How often a resuming was refused of which no domain was left to end, up to 2^64 - 1.
    pub(crate) refused: u64,
    ghost few_harts: { length harts.items ≤ 4 },
    ghost few: { length domains.items ≤ 4 },
    ghost served: { length domains.items ≡ domains_in memory },
    ghost numbered: { AreNumbered domains.items },
    ghost unused: { AreFreeUnused domains.items memory.pager },
}
