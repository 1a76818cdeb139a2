//! An emitter that discards everything.

use cloak_model::{Emit, Item};

/// Takes items and console bytes, and writes nothing.
#[derive(Drop)]
pub struct Silence {}

impl Emit for Silence {
    ghost use Rattle.run_trace.specs.Silence.{GaveSilence};

    ghost gave = { GaveSilence };

    fn item(&mut self, _: &Item<'_>) {}

    fn console(&mut self, _: u8) {}
}
