ghost use Rattle.std.specs.Prelude.{◌≡◌, ◌<◌, length, slice_index};
ghost use Rattle.cloak_base.specs.Registers.{zero_registers, with_register};

use std::marker::Model;

/// The 32 registers of a hart. Register 0 reads 0 and takes no write (RISC-V unprivileged manual 20191213, 2.1).
#[derive(Clone, Copy)]
pub struct Regs {
    words: [u32; 32],
}

impl Model for Regs {
    ghost use Rattle.std.specs.Prelude.{◌≡◌, List, ℕ, slice_index};

    ghost Value = { List ℕ };

    ghost view = { λ r. r.words };

    ghost invariant = { λ r. slice_index r.words 0 ≡ 0 };

    ghost inverse = { λ words. record { words = words } };
}

impl Regs {
    /// All zeros.
    #[tactic(auto, unfolding(crate::specs::Registers::zero_registers))]
    pub fn zero() -> Regs
        ensures { result ≡ zero_registers }
    {
        Regs { words: [0; 32] }
    }

    /// The words of all registers, that of register 0 first.
    pub fn words(&self) -> &[u32; 32]
        ensures value { result.now ≡ self.now }
        ensures count { length self.now ≡ 32 }
    {
        &self.words
    }

    /// The word of register `i`.
    pub fn get(&self, i: u32) -> u32
        requires { i < 32 }
        ensures value { result ≡ slice_index self.now i }
        ensures zero { i ≡ 0 → result ≡ 0 }
    {
        self.words[i as usize]
    }

    /// Sets register `i`; a write to register 0 is lost.
    pub fn set(&mut self, i: u32, v: u32)
        requires { i < 32 }
        ensures { self.new ≡ with_register self.old i v }
    {
        if i != 0 {
            self.words[i as usize] = v;
        }
    }
}
