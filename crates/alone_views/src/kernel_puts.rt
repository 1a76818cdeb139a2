//! The Puts of a kernel that runs alone: they store in the steps of harts inside.
ghost use Rattle.std.specs.Prelude.{◌≡◌, true, length};
ghost use Rattle.cloak_model.specs.Effect.{IsWidth};
ghost use Rattle.cloak_model.specs.KernelAlone as spec;

use crate::kernel::KernelAlone;
use crate::kernel_stage::KernelStage;

/// An access has this width.
fn is_width(width: u32) -> bool
    ensures width { result ≡ true → IsWidth width }
    ensures all { IsWidth width → result ≡ true }
{
    matches!(width, 1 | 2 | 4)
}

impl KernelAlone {
    ghost use Rattle.alone_views.specs.KernelChanges.{ChangesTo, MayStore, may_store, store_or_unfit};
    ghost use Rattle.alone_views.specs.KernelStanding.{turns_of};

    /// A Put may store at this address: it lies in RAM, and is a multiple of the width.
    fn may_store(&self, address: u32, width: u32) -> bool
        ensures may { result ≡ true → MayStore self.now address width }
        ensures value { IsWidth width → result ≡ may_store (length self.now.ram.frames.items) address width }
    {
        is_width(width) && self.ram.is_inside(address as u64) && address % width == 0
    }

    /// Stores the lowest bytes of a value at an address of RAM that is a multiple of their count.
    fn store(&mut self, address: u32, width: u32, value: u32)
        ensures becomes { IsWidth width → ChangesTo self.old self.new (store_or_unfit address width value) }
        ensures schedule { turns_of self.new ≡ turns_of self.old }
    {
        if self.may_store(address, width) {
            self.ram.write_at(address, width, value)
        } else {
            self.refuse()
        }
    }

    /// Takes a Put.
    pub(crate) fn take_put(&mut self, address: u32, width: u32, value: u32)
        ensures becomes { IsWidth width →
            ChangesTo self.old self.new (λ s. spec.take_put s.stage address width value s) }
        ensures schedule { turns_of self.new ≡ turns_of self.old }
    {
        match self.stage {
            KernelStage::Inside { .. } => self.store(address, width, value),
            KernelStage::Between => self.refuse(),
            KernelStage::Outside { .. } => self.refuse(),
            KernelStage::Left => self.refuse(),
        }
    }
}
