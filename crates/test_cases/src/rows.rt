//! What tests of a table assert of each row, proved once for all of them.

use std::alloc::Global;
use std::fmt;
use std::fmt::Debug;
use std::process::Abort;

/// What came of a row is what it wants.
pub fn assert_row<R, T>(rt: &impl Abort, row: R, found: T, wanted: T)
where
    R: Debug + Drop,
    T: Debug + PartialEq + Drop,
{
    assert_eq!(rt; found, wanted, "of {row:?}");
}

/// A fault is printed as its code.
pub fn assert_code(rt: &impl Abort, alloc: Global, fault: &impl fmt::Display, code: &str) {
    let text = format!(in alloc; "{fault}").expect(rt, "the memory");
    assert!(rt; text.as_str() == code, "{text}");
}
