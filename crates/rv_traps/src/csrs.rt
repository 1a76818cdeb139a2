ghost use Rattle.std.specs.Prelude.{◌≡◌, ◌%◌, is_some, false};
ghost use Rattle.cloak_model.specs.Csr as model;

use crate::fields::{TIMER, bit, sstatus_of, sstatus_word};
use crate::numbers::{SATP, SCAUSE, SEPC, SIE, SIP, SSCRATCH, SSTATUS, STVAL, STVEC};
use cloak_base::Mode;
use cloak_model::{Sstatus, has_bit};
use std::marker::Model;

/// The control and status registers of a hart.
#[derive(Clone, Copy)]
pub struct Csrs {
    status: Sstatus,
    timer_enabled: bool,
    timer_pending: bool,
    /// A multiple of 4.
    stvec: u32,
    sscratch: u32,
    /// A multiple of 4.
    sepc: u32,
    scause: u32,
    stval: u32,
    satp: u32,
}

impl Model for Csrs {
    ghost use Rattle.std.specs.Prelude.{◌≡◌, ◌%◌, [], ◌∷◌};
    ghost use Rattle.cloak_model.specs.Csr as model;
    ghost use Rattle.cloak_model.specs.CsrNumbers as csr;
    ghost use Rattle.rv_traps.specs.StatusFields.{sstatus_of-sstatus_word, has_bit-bit};

    ghost Value = { model.Csrs };

    ghost view = { λ r.
        (csr.sstatus, model.sstatus_word r.status)
        ∷ (csr.sie, model.bit 5 r.timer_enabled)
        ∷ (csr.stvec, r.stvec)
        ∷ (csr.sscratch, r.sscratch)
        ∷ (csr.sepc, r.sepc)
        ∷ (csr.scause, r.scause)
        ∷ (csr.stval, r.stval)
        ∷ (csr.sip, model.bit 5 r.timer_pending)
        ∷ (csr.satp, r.satp)
        ∷ [] };

    ghost invariant = { λ r. (r.stvec % 4 ≡ 0) × (r.sepc % 4 ≡ 0) };

    ghost inverse = { λ csrs. record {
      status = model.status csrs;
      timer_enabled = model.timer_is_enabled csrs;
      timer_pending = model.timer_is_pending csrs;
      stvec = model.csr_word csrs csr.stvec;
      sscratch = model.csr_word csrs csr.sscratch;
      sepc = model.csr_word csrs csr.sepc;
      scause = model.csr_word csrs csr.scause;
      stval = model.csr_word csrs csr.stval;
      satp = model.csr_word csrs csr.satp;
    } };

    ghost inverse_ok = { λ r _ i. record {
      status = sstatus_of-sstatus_word r.status i;
      timer_enabled = has_bit-bit r.timer_enabled i;
      timer_pending = has_bit-bit r.timer_pending i;
      stvec = r.stvec;
      sscratch = r.sscratch;
      sepc = r.sepc;
      scause = r.scause;
      stval = r.stval;
      satp = r.satp;
    } };
}

impl Csrs {
    /// All words are 0.
    pub fn new() -> Csrs
        ensures { result ≡ model.zero_csrs }
    {
        Csrs {
            status: Sstatus {
                sie: false,
                spie: false,
                spp: Mode::U,
                sum: false,
                mxr: false,
            },
            timer_enabled: false,
            timer_pending: false,
            stvec: 0,
            sscratch: 0,
            sepc: 0,
            scause: 0,
            stval: 0,
            satp: 0,
        }
    }

    /// The word of the register with this number, or none if there is no such register.
    #[tactic(auto, unfolding(cloak_model::specs::Csr::csr_read))]
    pub fn read(&self, n: u32) -> Option<u32>
        ensures value { result ≡ model.csr_read self.now n }
        ensures known { is_some result ≡ model.is_csr n }
    {
        match n {
            SSTATUS => Some(sstatus_word(self.status)),
            SIE => Some(bit(TIMER, self.timer_enabled)),
            STVEC => Some(self.stvec),
            SSCRATCH => Some(self.sscratch),
            SEPC => Some(self.sepc),
            SCAUSE => Some(self.scause),
            STVAL => Some(self.stval),
            SIP => Some(bit(TIMER, self.timer_pending)),
            SATP => Some(self.satp),
            _ => None,
        }
    }

    /// Writes the register with this number, which keeps what it has bits for. `false` if there is no
    /// such register.
    #[tactic(auto, unfolding(cloak_model::specs::Csr::csr_write))]
    pub fn write(&mut self, n: u32, v: u32) -> bool
        ensures value { self.new ≡ model.csr_write self.old n v }
        ensures known { result ≡ model.is_csr n }
        ensures unchanged { result ≡ false → self.new ≡ self.old }
    {
        match n {
            SSTATUS => self.status = sstatus_of(v),
            SIE => self.timer_enabled = has_bit(v, TIMER),
            STVEC => self.stvec = v / 4 * 4,
            SSCRATCH => self.sscratch = v,
            SEPC => self.sepc = v / 4 * 4,
            SCAUSE => self.scause = v,
            STVAL => self.stval = v,
            SIP => (),
            SATP => self.satp = v,
            _ => return false,
        }
        true
    }

    /// Takes a trap from this mode: `cause` goes to `scause`, `tval` to `stval`, `epc` to `sepc`. Gives the
    /// program counter at which the hart goes on, in S mode.
    #[tactic(auto, using(crate::specs::StatusFields::status_again), unfolding(cloak_model::specs::Csr::trap_entry))]
    pub fn enter_trap(&mut self, mode: Mode, cause: u32, tval: u32, epc: u32) -> u32
        ensures csrs { self.new ≡ model.trap_entry mode cause tval epc self.old }
        ensures pc { result ≡ model.trap_vector self.old }
        ensures aligned { result % 4 ≡ 0 }
    {
        self.status.spie = self.status.sie;
        self.status.sie = false;
        self.status.spp = mode;
        self.sepc = epc / 4 * 4;
        self.scause = cause;
        self.stval = tval;
        self.stvec
    }

    /// Returns from a trap, as SRET does. Gives the program counter and the mode in which the hart goes on.
    #[tactic(auto, using(crate::specs::StatusFields::status_again), unfolding(cloak_model::specs::Csr::trap_return))]
    pub fn leave_trap(&mut self) -> (u32, Mode)
        ensures pc { result.0 ≡ (model.trap_return self.old).0 }
        ensures mode { result.1 ≡ (model.trap_return self.old).1 }
        ensures csrs { self.new ≡ (model.trap_return self.old).2 }
        ensures aligned { result.0 % 4 ≡ 0 }
    {
        let mode = self.status.spp;
        self.status.sie = self.status.spie;
        self.status.spie = true;
        self.status.spp = Mode::U;
        (self.sepc, mode)
    }

    /// The timer interrupt must be taken, before the next instruction in this mode.
    #[tactic(auto, unfolding(cloak_model::specs::Csr::interrupt_due))]
    pub fn due(&self, mode: Mode) -> bool
        ensures { result ≡ model.interrupt_due mode self.now }
    {
        if !self.timer_pending {
            return false;
        }
        match mode {
            Mode::U => self.timer_enabled,
            Mode::S => self.timer_enabled && self.status.sie,
        }
    }

    /// Sets or clears the pending bit of the timer interrupt in `sip`.
    #[tactic(auto, unfolding(cloak_model::specs::Csr::with_pending))]
    pub fn set_pending(&mut self, on: bool)
        ensures { self.new ≡ model.with_pending on self.old }
    {
        self.timer_pending = on;
    }

    /// The words of all registers, in the order of their numbers.
    pub fn words(&self) -> [u32; 9]
        ensures { result ≡ model.csr_words self.now }
    {
        [
            sstatus_word(self.status),
            bit(TIMER, self.timer_enabled),
            self.stvec,
            self.sscratch,
            self.sepc,
            self.scause,
            self.stval,
            bit(TIMER, self.timer_pending),
            self.satp,
        ]
    }

    /// The word of `satp`.
    pub fn satp(&self) -> u32
        ensures { result ≡ model.satp_of self.now }
    {
        self.satp
    }

    /// SUM of `sstatus`: S mode may load and store on pages of U mode.
    pub fn sum(&self) -> bool
        ensures { result ≡ model.sum_of self.now }
    {
        self.status.sum
    }

    /// MXR of `sstatus`: pages that may be executed may be loaded from.
    pub fn mxr(&self) -> bool
        ensures { result ≡ model.mxr_of self.now }
    {
        self.status.mxr
    }
}
