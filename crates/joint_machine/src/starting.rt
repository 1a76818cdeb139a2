//! Harts and programs as a run begins, and the machine of all parts.
ghost use Rattle.std.specs.Prelude.{◌≡◌, ◌≤◌, ◌%◌, ℕ, None, length, All, IfOk};
ghost use Rattle.cloak_base.specs.declared.names.SpaceId.{SpaceId};
ghost use Rattle.cloak_model.specs.Bundle.{IsProgramIn, IsInGrammar};
ghost use Rattle.cloak_model.specs.Opening.{started_domains, started_harts};
ghost use Rattle.thread_context.specs.Recorded.{root_at};
ghost use Rattle.cloak_pager.specs.State.{held_in};
ghost use Rattle.cloaked_side.specs.Holding.{domains_in};
ghost use Rattle.joint_machine.specs.Programs.{AreNumbered};
ghost use Rattle.joint_machine.specs.Standing.{AreDomains};
ghost use Rattle.joint_machine.specs.Starting.{IsOfParts, StartsParts};

use crate::drawing::groups_of;
use crate::joint::Joint;
use crate::loading::load;
use crate::reading::JointParts;
use cloak_base::NoMemory;
use cloak_model::{KernelImage, Program};
use host_calls::Hart;
use hypercalls::Domain;
use io_traits::Stream;
use std::alloc::Global;
use thread_context::Roots;

/// The harts of a run as it begins.
pub(crate) fn start_harts(alloc: Global, entry: u32, count: u32) -> Result<Vec<Hart>, NoMemory>
    requires { entry % 4 ≡ 0 }
    ensures { IfOk result (λ harts. harts.items ≡ started_harts entry count) }
{
    let mut harts = Vec::new(alloc);
    for number in 0..count {
        harts.push(Hart::start(entry, number))?;
    }
    Ok(harts)
}

/// The programs as they begin, each without the bytes of its pages.
pub(crate) fn start_domains(alloc: Global, programs: &[Program]) -> Result<Vec<Domain>, NoMemory>
    requires few { length programs.now ≤ 4 }
    requires fit { (frames : ℕ) × All (IsProgramIn frames) programs.now }
    ensures stand { IfOk result (λ domains. AreDomains domains.items (started_domains 0 programs.now)) }
    ensures numbered { IfOk result (λ domains. AreNumbered domains.items) }
    ensures count { IfOk result (λ domains. length domains.items ≡ length programs.now) }
{
    let mut domains = Vec::new(alloc);
    for (number, p) in programs.iter().enumerate() {
        domains.push(Domain::open(number as u32, &p.start))?;
    }
    Ok(domains)
}

/// The parts of a machine under these keys before any page is placed.
pub(crate) fn start_parts(
    alloc: Global,
    kernel: KernelImage,
    programs: &[Program],
    keys: [[u8; 16]; 4],
    s: Stream,
) -> Result<JointParts, NoMemory>
    requires { IsInGrammar (record { kernel = kernel; programs = programs.now }) }
    ensures { IfOk result (StartsParts (record { kernel = kernel; programs = programs.now }) keys s) }
{
    let harts = start_harts(alloc, kernel.entry, kernel.harts)?;
    let (memory, disk) = load(
        alloc,
        kernel,
        programs.len() as u32,
        keys,
        groups_of(programs),
        s,
    )?;
    let domains = start_domains(alloc, programs)?;
    Ok(JointParts {
        harts,
        memory,
        domains,
        disk,
        ended: [None; 4],
        refused: 0,
    })
}

/// The machine of these parts, in which no frame holds a page and no page table is recorded.
pub(crate) fn joint_of(parts: JointParts) -> Joint
    requires few_harts { length parts.harts.items ≤ 4 }
    requires few { length parts.domains.items ≤ 4 }
    requires served { length parts.domains.items ≡ domains_in parts.memory }
    requires numbered { AreNumbered parts.domains.items }
    requires outside { (k : ℕ) → held_in parts.memory.pager k ≡ None }
    ensures parts { IsOfParts result parts }
    ensures roots { (s : SpaceId) → root_at result.roots s ≡ None }
{
    let JointParts {
        harts,
        memory,
        domains,
        disk,
        ended,
        refused,
    } = parts;
    Joint {
        harts,
        memory,
        domains,
        roots: Roots::open(),
        disk,
        ended,
        refused,
    }
}
