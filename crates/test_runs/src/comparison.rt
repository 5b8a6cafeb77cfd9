//! What the tests assert of each row, proved once for all of them.

use std::fmt::Debug;
use std::process::Abort;

/// What came of a row is what it wants.
pub fn assert_row<R, T>(rt: &impl Abort, row: R, found: T, wanted: T)
where
    R: Debug + Drop,
    T: Debug + PartialEq + Drop,
{
    assert_eq!(rt; found, wanted, "of {row:?}");
}
