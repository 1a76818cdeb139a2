//! A page is read.
ghost use Rattle.std.specs.Prelude.{◌≡◌, ◌↔◌, ℕ, IsTrue, MatchOption};
ghost use Rattle.cloak_model.specs.Contexts.{context_at};
ghost use Rattle.cloak_model.specs.DomainState.{Control};
ghost use Rattle.frozen_state.specs.DomainPage.{domain_page, IsProgram, IsPageOf};
ghost use Rattle.domain_page.specs.Parts.{ArePartsOf};
ghost use Rattle.domain_page.specs.Reading.{IsRead, IsNoPage, program_of};
ghost use Rattle.domain_page.specs.Writing.{IsOnHart};

use crate::limits::{are_slots, file_words, slot_words, spaces_apart};
use crate::making::resources_of;
use crate::program::ProgramParts;
use crate::region_list::RegionList;
use crate::unread::Unread;
use crate::writing::write_page;
use cloak_model::Resource;
use resource_map::Resources;
use thread_context::{Context, Contexts};

/// What was read of a page.
#[derive(Drop)]
struct Parts {
    slots: [Option<Context>; 8],
    spaces: [Option<RegionList>; 8],
    held: [Option<Resource>; 16],
}

/// The parts of the program with this page; any others if there is none.
fn parts_of(b: &[u8; 4096]) -> Parts
    ensures { (number : ℕ) (d : Control) → IsPageOf number b.now d → ArePartsOf d result }
{
    let mut unread = Unread { left: b.as_slice() };
    let unmarked = unread.slots();
    let spaces = unread.spaces();
    let held = unread.resources();
    let slots = unread.marks(&unmarked);
    Parts {
        slots,
        spaces,
        held,
    }
}

/// The program with these contexts and resources keeps the limits.
fn keep_limits(contexts: &Contexts, resources: &Resources) -> bool
    ensures { (number : ℕ) →
        (IsTrue result ↔ IsProgram number (program_of number contexts.now resources.now)) }
{
    slot_words(contexts.slots());
    file_words(resources);
    spaces_apart(resources);
    resources.sound();
    are_slots(resources, contexts.slots())
}

/// These contexts and resources have this page.
fn have_page(contexts: &Contexts, resources: &Resources, b: &[u8; 4096]) -> bool
    requires { (slot : ℕ) → IsOnHart (context_at contexts.now slot) }
    ensures { (d : Control) → d.contexts ≡ contexts.now → d.resources ≡ resources.now →
        (IsTrue result ↔ (domain_page d ≡ b.now)) }
{
    let mut page = [0; 4096];
    write_page(contexts, resources, &mut page);
    page == *b
}

/// Contexts and resources of the one program with this page, none exactly if there is no such program that keeps its
/// limits.
pub fn read_page(b: &[u8; 4096]) -> Option<ProgramParts>
    ensures { MatchOption result (IsNoPage b.now) (λ p. IsRead b.now p.contexts p.resources) }
{
    let parts = parts_of(b);
    let resources = resources_of(&parts.held, &parts.spaces)?;
    let contexts = Contexts::of(parts.slots);
    if keep_limits(&contexts, &resources) && have_page(&contexts, &resources, b) {
        Some(ProgramParts {
            contexts,
            resources,
        })
    } else {
        None
    }
}
