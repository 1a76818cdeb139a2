//! What follows the step of a program: its context goes on, or leaves its hart.
ghost use Rattle.std.specs.Prelude.{◌≡◌, ◌<◌, Option, [], ◌∷◌};
ghost use Rattle.cloak_model.specs.Exchange.{Emits, EmitsSome, item_pieces};
ghost use Rattle.cloak_model.specs.Joint.{domain_ended, not_running};
ghost use Rattle.cloak_model.specs.Leaving as spec;
ghost use Rattle.cloak_model.specs.Parts as model;
ghost use Rattle.cloak_model.specs.World.{World, items_of, violation_of};
ghost use Rattle.cloak_model.specs.Items as item;
ghost use Rattle.joint_machine.specs.Turning.{AreRoots, IsCarriedOut, IsSameButMarks, Unmarks};

use crate::stepping::SteppedProgram;
use cloak_base::{Shown, SpaceId, Violation};
use cloak_model::{Emit, Item, Went};
use cloaked_side::Memory;
use host_calls::{Hart, leave};
use thread_context::Roots;

/// The hart of this number leaves the context that it runs by a trap, which ends its reservation, and what it shows is
/// emitted.
pub fn leave_context<E: Emit>(h: &mut Hart, number: u32, s: &Shown, memory: &mut Memory, e: &mut E)
    ensures hart { h.new ≡ spec.leave h.old s.now }
    ensures unmarks { Unmarks number memory.old memory.new }
    ensures emits { Emits E.gave e.old e.new (item_pieces (item.Leave s.now ∷ [])) }
{
    leave(h, s);
    memory.unmark(number);
    e.item(&Item::Leave(*s));
}

/// The hart of this number leaves a context that does not run on it: its resuming was refused, or its domain ended. Out of
/// line, since it is rare.
#[cold]
#[inline(never)]
pub fn leave_stopped<E: Emit>(h: &mut Hart, number: u32, ctx: u32, memory: &mut Memory, e: &mut E)
    ensures hart { h.new ≡ spec.leave h.old (not_running ctx) }
    ensures unmarks { Unmarks number memory.old memory.new }
    ensures emits { Emits E.gave e.old e.new (item_pieces (item.Leave (not_running ctx) ∷ [])) }
{
    let shown = Shown {
        cause: 24,
        stval: 0,
        ctx,
        number: 0,
        args: [0; 6],
    };
    leave_context(h, number, &shown, memory, e);
}

/// A context of this domain goes on or leaves the hart of this number after its step. Returns what the kernel presented
/// in place of what is recorded, if that stopped the step.
pub fn go_on<E: Emit>(
    h: &mut Hart,
    number: u32,
    domain: u32,
    roots: &mut Roots,
    stepped: &SteppedProgram,
    memory: &mut Memory,
    e: &mut E,
) -> Option<Violation>
    requires { domain < 4 }
    ensures emits_some { EmitsSome E.gave e.old e.new }
    ensures same { IsSameButMarks memory.old memory.new }
    ensures goes_on { (j : model.Joint) (w : World) → stepped.now.violation ≡ violation_of w →
        AreRoots roots.old j.memory.ledger.root →
        IsCarriedOut E.gave e.old e.new h.new roots.new memory.old memory.new result j number (items_of w)
        (domain_ended j number h.old domain w stepped.now.went) }
{
    match &stepped.went {
        Went::Stay | Went::Remapped(_) => None,
        Went::Stopped => stepped.violation,
        Went::Leave(s) => {
            leave_context(h, number, s, memory, e);
            None
        }
        Went::SpaceGone(space, s) => {
            roots.forget(SpaceId {
                domain,
                number: *space,
            });
            leave_context(h, number, s, memory, e);
            None
        }
    }
}
