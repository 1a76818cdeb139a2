ghost use Rattle.std.specs.Prelude.{◌≡◌};
ghost use Rattle.cloak_model.specs.KernelStep as step;
ghost use Rattle.cloak_model.specs.Leaving as spec;

use cloak_base::{Kind, Mode, Regs, Shown, TRAMPOLINE};
use cloak_model::Access;
use rv_traps::Csrs;
use std::marker::Model;

/// A hart as the kernel sees it.
#[derive(Drop)]
pub struct Hart {
    pub regs: Regs,
    pub csrs: Csrs,
    pub mode: Mode,
    /// A multiple of 4.
    pub pc: u32,
    /// The steps until the timer interrupt is pending, 0 if it is not set.
    pub timer: u32,
    /// The context that it is inside. After its program forked, ended or was resumed elsewhere it may be one that no
    /// longer runs.
    pub inside: Option<u32>,
    /// Its number, from 0 on.
    pub id: u32,
}

impl Model for Hart {
    ghost use Rattle.std.specs.Prelude.{◌≡◌, ◌%◌};
    ghost use Rattle.cloak_model.specs.Hart as model;

    ghost Value = { model.Hart };

    ghost view = { λ h. record { regs = h.regs; csrs = h.csrs; mode = h.mode; pc = h.pc; timer = h.timer; inside = h.inside; id = h.id } };

    ghost invariant = { λ h. h.pc % 4 ≡ 0 };
}

impl Hart {
    ghost use Rattle.std.specs.Prelude.{◌≡◌, ◌%◌};
    ghost use Rattle.cloak_model.specs.Hart.{started};

    /// A hart as a run begins: in S mode at the entry, with its number in x10.
    #[tactic(auto, unfolding(cloak_model::specs::Hart::started))]
    pub fn start(entry: u32, number: u32) -> Hart
        requires { entry % 4 ≡ 0 }
        ensures { result ≡ started entry number }
    {
        let mut regs = Regs::zero();
        regs.set(10, number);
        Hart {
            regs,
            csrs: Csrs::new(),
            mode: Mode::S,
            pc: entry,
            timer: 0,
            inside: None,
            id: number,
        }
    }
}

/// An access of this hart.
pub fn access(h: &Hart, kind: Kind, va: u32) -> Access
    ensures { result ≡ step.access h.now kind va }
{
    Access {
        mode: h.mode,
        sum: h.csrs.sum(),
        mxr: h.csrs.mxr(),
        va,
        kind,
    }
}

/// The registers that a context leaves to the kernel.
#[tactic(auto, unfolding(cloak_model::specs::Leaving::shown_registers))]
fn shown_registers(s: &Shown) -> Regs
    ensures { result ≡ spec.shown_registers s.now }
{
    let mut regs = Regs::zero();
    regs.set(5, s.ctx);
    regs.set(10, s.args[0]);
    regs.set(11, s.args[1]);
    regs.set(12, s.args[2]);
    regs.set(13, s.args[3]);
    regs.set(14, s.args[4]);
    regs.set(15, s.args[5]);
    regs.set(17, s.number);
    regs
}

/// Leaves the context that the hart runs: it goes on in the kernel, by a trap from the trampoline in U mode.
#[tactic(auto, unfolding(cloak_model::specs::Leaving::leave))]
pub fn leave(h: &mut Hart, s: &Shown)
    ensures { h.new ≡ spec.leave h.old s.now }
{
    h.pc = h.csrs.enter_trap(Mode::U, s.cause, s.stval, TRAMPOLINE);
    h.mode = Mode::S;
    h.regs = shown_registers(s);
    h.inside = None;
}
