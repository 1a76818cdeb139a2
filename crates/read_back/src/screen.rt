//! The output, as a machine that runs alone shows its console on it.
ghost use Rattle.std.specs.Prelude.{◌≡◌};

use cloak_model::{Emit, Item};
use io_traits::Sink;

/// Shows the bytes of a console up to the first that fails. What is for a record goes nowhere.
#[derive(Drop)]
pub struct Screen<'o, O: Sink> {
    pub out: &'o mut O,
    pub failed: bool,
}

impl<'o, O: Sink> Emit for Screen<'o, O> {
    ghost use Rattle.read_back.specs.Screen.{GaveScreen};

    ghost gave = { GaveScreen O.Sink };

    fn item(&mut self, i: &Item<'_>) {
        let _ = i;
    }

    fn console(&mut self, b: u8) {
        if self.failed {
            return;
        }
        // One byte is taken in one call, or not at all.
        self.failed = self.out.put(&[b]).is_err();
    }
}
