//! How many steps a column has.
ghost use Rattle.std.specs.Prelude.{◌≡◌};
ghost use Rattle.run_notes.specs.Columns as spec;

/// The steps of this many units of 830, rounded up, and at least one.
pub fn steps_of(units: u32, steps: u32) -> u32
    ensures { result ≡ spec.steps_of units steps }
{
    let all = u64::from(units).saturating_mul(u64::from(steps));
    let wanted = all.saturating_add(829) / 830;
    wanted.min(u64::from(u32::MAX)).max(1) as u32
}

/// Two steps lie in one column.
pub fn is_same_column(column: u32, a: u32, b: u32) -> bool
    ensures { result ≡ spec.is_same_column column a b }
{
    column == 0 || a / column == b / column
}
