//! What a test asks of values. A test that calls one of these is proved in less time than one that spells it out.
ghost use Rattle.std.specs.Prelude.{IsTrue};

use std::fmt::{Debug, Display};
use std::process::Abort;

/// Stops the test unless two values are the same, and names the row.
pub fn same<T: PartialEq + Debug>(rt: &impl Abort, got: &T, want: &T, row: impl Display + Drop) {
    assert_eq!(rt; *got, *want, "{row}");
}

/// Stops the test unless a condition holds, and names the row.
pub fn holds(rt: &impl Abort, holds: bool, row: impl Display + Drop)
    ensures { IsTrue holds }
{
    assert!(rt; holds, "{row}");
}
