//! The Ciphers of a kernel that runs alone: they show frames.
ghost use Rattle.cloak_model.specs.KernelAlone as spec;

use crate::kernel::KernelAlone;
use crate::kernel_stage::KernelStage;

impl KernelAlone {
    ghost use Rattle.alone_views.specs.KernelChanges.{ChangesTo};

    /// The kernel sees these bytes in a frame, which there is.
    fn show_cipher(&mut self, frame: u32, bytes: &[u8; 4096])
        ensures { ChangesTo self.old self.new (spec.show_cipher frame bytes.now) }
    {
        if self.ram.has_frame(frame) {
            self.ram.set_frame(frame, bytes)
        } else {
            self.refuse()
        }
    }

    /// Takes a Cipher.
    pub(crate) fn take_cipher(&mut self, frame: u32, bytes: &[u8; 4096])
        ensures { ChangesTo self.old self.new (λ s. spec.take_cipher s.stage frame bytes.now s) }
    {
        match self.stage {
            KernelStage::Between => self.show_cipher(frame, bytes),
            KernelStage::Outside { .. } => self.show_cipher(frame, bytes),
            KernelStage::Inside { .. } => self.show_cipher(frame, bytes),
            KernelStage::Left => self.refuse(),
        }
    }
}
