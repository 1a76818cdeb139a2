//! Where the pages of programs lie as a run begins.
ghost use Rattle.std.specs.Prelude.{◌≡◌, ◌≤◌, length, map};
ghost use Rattle.joint_machine.specs.Placings.{covers, placing};

use arrayvec::ArrayVec;
use cloak_model::Program;

/// Where the pages of a program are placed as a run begins: in frames one after another.
#[derive(Clone, Copy, Debug, Default, PartialEq, Eq)]
pub struct Placing {
    /// The frame of its first page.
    pub place: u32,
    pub pages: u32,
}

/// Where these programs are placed, in their order.
pub fn placings_of(programs: &[Program]) -> ArrayVec<Placing, 4>
    requires { length programs.now ≤ 4 }
    ensures { result.items ≡ map placing programs.now }
{
    let mut placings = ArrayVec::new();
    for p in programs {
        placings.push(Placing {
            place: p.place,
            pages: p.start.pages,
        });
    }
    placings
}

/// A page of one of the programs that are placed so lies in the frame.
pub(crate) fn is_covered(placings: &[Placing], f: u32) -> bool
    ensures { result ≡ covers placings.now f }
{
    for p in placings {
        if p.place <= f && f - p.place < p.pages {
            return true;
        }
    }
    false
}
