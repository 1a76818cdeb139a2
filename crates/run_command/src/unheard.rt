//! An emitter that discards everything that it is given.

use cloak_model::{Emit, Item};

/// Takes items and console bytes, and writes nothing.
#[derive(Drop)]
pub struct Unheard {}

impl Emit for Unheard {
    ghost use Rattle.run_command.specs.Unheard.{GaveNothing};

    ghost gave = { GaveNothing };

    fn item(&mut self, _: &Item<'_>) {}

    fn console(&mut self, _: u8) {}
}
