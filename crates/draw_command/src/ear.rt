//! An emitter that hears a console byte.

use cloak_model::{Emit, Item};

/// The byte that the console gained last.
#[derive(Drop)]
pub struct Ear {
    pub byte: Option<u8>,
}

impl Emit for Ear {
    ghost use Rattle.draw_command.specs.Hearing.{GaveEar};

    ghost gave = { GaveEar };

    fn item(&mut self, _: &Item<'_>) {}

    fn console(&mut self, byte: u8) {
        self.byte = Some(byte);
    }
}
