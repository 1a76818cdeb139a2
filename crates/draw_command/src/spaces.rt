//! The spaces of a program's contexts, by which a fork and the end of a space are told.
ghost use Rattle.std.specs.Prelude.{◌≡◌, ◌%◌};

use alone_views::DomainAlone;
use cloak_model::word_in;

/// The word of an ECALL, and the number of the hypercall that makes a file a resource.
const ECALL: u32 = 0x73;

const FILE: u32 = 0x4f56_0004;

/// A context whose step is open.
#[derive(Clone, Copy)]
pub struct Running {
    pub slot: u32,
    pub space: u32,
    /// The step asks for a file.
    pub asks_file: bool,
}

/// The space of the context in each slot, and the context whose step is open.
#[derive(Clone, Copy)]
pub struct Spaces {
    of: [Option<u32>; 8],
    pub running: Option<Running>,
}

/// The word at an address of a space.
fn word_at(program: &DomainAlone, space: u32, address: u32) -> Option<u32>
    requires { address % 4 ≡ 0 }
{
    let page = program.space_page(space, address)?;
    Some(word_in(program.page(page), (address % 4096) as usize))
}

/// The context of a program whose step is open.
fn running_in(program: &DomainAlone) -> Option<Running> {
    let slot = program.running()?;
    let c = program.slot_context(slot)?;
    let is_call = word_at(program, c.space, c.pc) == Some(ECALL);
    Some(Running {
        slot,
        space: c.space,
        asks_file: is_call && c.regs.get(17) == FILE,
    })
}

impl Spaces {
    /// Those of a program now.
    pub fn of(program: &DomainAlone) -> Spaces {
        let mut of = [None; 8];
        let mut slot = 0;
        for place in of.iter_mut() {
            if let Some(c) = program.slot_context(slot) {
                *place = Some(c.space);
            }
            slot = u32::saturating_add(slot, 1);
        }
        Spaces {
            of,
            running: running_in(program),
        }
    }

    /// Some context is in a space.
    pub fn has(&self, space: u32) -> bool {
        self.of.iter().any(|of| *of == Some(space))
    }
}
