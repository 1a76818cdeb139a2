//! The last step that a piece of a record tells of.

use exchange_log::step_bytes;

/// The number of a step whose item begins at a place.
fn step_at(piece: &[u8], at: usize) -> Option<u32> {
    let item = piece.get(at..)?.first_chunk::<5>()?;
    let [_, a, b, c, d] = *item;
    let number = u32::from_le_bytes([a, b, c, d]);
    if *item == step_bytes(number) {
        Some(number)
    } else {
        None
    }
}

/// The number of the last step of which a piece of a record tells, if it is above another number and not above a third.
/// A piece has other bytes too, which may look like a step: then their number is one only if it may be.
pub fn last_step(piece: &[u8], above: u32, most: u64) -> Option<u32> {
    for at in (0..piece.len()).rev() {
        if let Some(number) = step_at(piece, at) {
            if number > above && u64::from(number) <= most {
                return Some(number);
            }
        }
    }
    None
}
