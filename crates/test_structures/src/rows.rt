//! What tests assert, proved once for all of them.

use htl_event::{NoMemory, SharedStack};
use std::fmt::Debug;
use std::process::Abort;

/// What came of a row is what it wants.
pub fn assert_row<R, T>(rt: &impl Abort, row: R, found: T, wanted: T)
where
    R: Debug + Drop,
    T: Debug + PartialEq + Drop,
{
    assert!(rt; found == wanted, "{row:?}: {found:?} instead of {wanted:?}");
}

/// What was found is what is wanted.
pub fn assert_is<T>(rt: &impl Abort, found: T, wanted: T)
where
    T: Debug + PartialEq + Drop,
{
    assert_row(rt, "found", found, wanted);
}

/// The list was made, and is this one.
pub fn assert_list<T, E>(rt: &impl Abort, made: Result<Vec<T>, E>, wanted: &[T])
where
    T: Debug + PartialEq + Drop,
    E: Debug + Drop,
{
    let list = made.expect(rt, "the memory");
    assert_is(rt, list.as_slice(), wanted);
}

/// The rows were made, and their stacks are these, each with its number.
pub fn assert_counted<T>(
    rt: &impl Abort,
    made: Result<Vec<(SharedStack, T)>, NoMemory>,
    wanted: &[(&[u64], T)],
)
where
    T: Debug + PartialEq + Drop,
{
    let rows = made.expect(rt, "the memory");
    assert_is(rt, rows.len(), wanted.len());
    for (row, (frames, number)) in rows.iter().zip(wanted) {
        assert_is(rt, (row.0.frames(), &row.1), (*frames, number));
    }
}
