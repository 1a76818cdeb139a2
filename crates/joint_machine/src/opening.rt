//! The opening of a joint run.
ghost use Rattle.std.specs.Prelude.{◌≡◌, ◌<◌, ℕ, [], ◌∷◌, Ok, IfOk, map};
ghost use Rattle.cloak_model.specs.declared.image.Bundle.{Bundle};
ghost use Rattle.cloak_model.specs.Bundle.{IsInGrammar};
ghost use Rattle.cloak_model.specs.Exchange.{EmitsSome, Emits, item_pieces};
ghost use Rattle.cloak_model.specs.Beginning.{Beginning, opening_from};
ghost use Rattle.cloak_model.specs.Opening.{RunEdge, numbers_below};
ghost use Rattle.cloak_pager.specs.State.{held_in};
ghost use Rattle.cloaked_side.specs.Holding.{frames_of};
ghost use Rattle.joint_machine.specs.Placings.{placing};
ghost use Rattle.joint_machine.specs.Starting.{IsReadOnly, placed_among};

use crate::drawing::{count_keys, draw_keys};
use crate::joint::Joint;
use crate::opened::OpenFault;
use crate::placing::place_programs;
use crate::placings::{Placing, is_covered};
use crate::starting::{joint_of, start_parts};
use cloak_base::Frame;
use cloak_model::{Emit, Item, KernelImage, Program, Sequence};
use cloaked_side::Memory;
use io_traits::Stream;
use std::alloc::Global;

/// Emits a frame if a page of a program is placed in it.
fn show_frame<E: Emit>(memory: &mut Memory, placings: &[Placing], f: Frame, e: &mut E)
    requires inside { f.0 < frames_of memory.old }
    requires outside { held_in memory.old.pager f.0 ≡ None }
    ensures read { IsReadOnly memory.old memory.new }
    ensures emits { Emits E.gave e.old e.new
        (item_pieces (placed_among placings.now memory.old.pager.frames (f.0 ∷ []))) }
{
    if is_covered(placings, f.0) {
        e.item(&Item::Cipher {
            frame: f.0,
            bytes: memory.pager.read_outside(f),
        });
    }
}

/// Emits each frame in which a page of a program is placed, by rising number.
fn show_placed<E: Emit>(memory: &mut Memory, placings: &[Placing], e: &mut E)
    requires outside { (k : ℕ) → held_in memory.old.pager k ≡ None }
    ensures read { IsReadOnly memory.old memory.new }
    ensures emits { Emits E.gave e.old e.new (item_pieces
        (placed_among placings.now memory.old.pager.frames (numbers_below (frames_of memory.old)))) }
{
    let count = memory.pager.count();
    for f in 0..count {
        show_frame(memory, placings, Frame(f), e);
    }
}

impl Joint {
    ghost use Rattle.joint_machine.specs.Standing.{harts_of, AllOutside, OpensAs, ShowsAs, StandsForJoint};

    /// The joint machine of a guest image as its run begins. Its keys are the first draws of the stream, one for each
    /// number up to the greatest that a program has, and each page of a program takes the next one. The disk takes over
    /// the memory of the image's disk. The rest of the kernel's image and the bytes of the programs are given back as they
    /// are stored.
    pub fn open(
        alloc: Global,
        kernel: KernelImage,
        programs: Sequence<Program>,
        s: Stream,
    ) -> Result<Joint, OpenFault>
        requires { IsInGrammar (record { kernel = kernel; programs = programs }) }
        ensures opens { OpensAs (record { kernel = kernel; programs = programs }) s result }
        ensures harts { IfOk result (λ joint. harts_of joint ≡ kernel.harts) }
        ensures outside { IfOk result (λ joint. AllOutside joint) }
        ensures empty { IfOk result (λ joint. joint.memory.shadows.live ≡ []) }
    {
        let mut stream = s;
        let Some(keys) = draw_keys(&mut stream, count_keys(programs.as_slice())) else {
            return Err(OpenFault::NoKey);
        };
        let mut parts = start_parts(alloc, kernel, programs.as_slice(), keys, stream)?;
        if !place_programs(&mut parts.memory, programs) {
            return Err(OpenFault::NoRandom);
        }
        Ok(joint_of(parts))
    }

    /// Emits what the kernel is shown as the run begins: each frame that holds a page of a program, if the programs are
    /// placed so.
    pub fn show_opening<E: Emit>(&mut self, placings: &[Placing], e: &mut E)
        requires outside { AllOutside self.old }
        ensures outside { AllOutside self.new }
        ensures harts { harts_of self.new ≡ harts_of self.old }
        ensures emits_some { EmitsSome E.gave e.old e.new }
        ensures shadows { self.new.memory.shadows ≡ self.old.memory.shadows }
        ensures shows { (b : Bundle) (from : Beginning) (o : RunEdge) → opening_from b from ≡ Ok o →
            placings.now ≡ map placing b.programs → StandsForJoint self.old o.joint →
            ShowsAs E.gave e.old e.new self.new o }
    {
        show_placed(&mut self.memory, placings, e);
    }
}
