//! An emitter that discards everything.

use cloak_model::{Emit, Item};

/// Takes items and console bytes, and writes nothing.
#[derive(Drop)]
pub struct Silent {}

impl Emit for Silent {
    ghost use Rattle.replayed_run.specs.Silent.{GaveSilent};

    ghost gave = { GaveSilent };

    fn item(&mut self, _: &Item<'_>) {}

    fn console(&mut self, _: u8) {}
}
