//! What tests assert, proved once for all of them.

use htl_event::{NoMemory, SharedEvent, SharedStack};
use htl_tree::StackTree;
use std::alloc::Global;
use std::fmt::Debug;
use std::process::Abort;

/// What came of a row is what it wants.
pub fn assert_row<R, T>(rt: &impl Abort, row: R, found: T, wanted: T)
where
    R: Debug + Drop,
    T: Debug + PartialEq + Drop,
{
    assert!(rt; found == wanted, "{row:?}: {found:?} instead of {wanted:?}");
}

/// What was found is what is wanted.
pub fn assert_is<T>(rt: &impl Abort, found: T, wanted: T)
where
    T: Debug + PartialEq + Drop,
{
    assert_row(rt, "found", found, wanted);
}

/// The list was made, and is this one.
pub fn assert_list<T>(rt: &impl Abort, made: Result<Vec<T>, NoMemory>, wanted: &[T])
where
    T: Debug + PartialEq + Drop,
{
    let list = made.expect(rt, "the memory");
    assert_is(rt, list.as_slice(), wanted);
}

/// The tree was made, and is this one.
pub fn assert_tree(
    rt: &impl Abort,
    made: Result<StackTree<Global>, NoMemory>,
    wanted: &StackTree<Global>,
) {
    let tree = made.expect(rt, "the memory");
    assert_is(rt, tree.same(wanted), true);
}

/// The events were made, and have these sequences.
pub fn assert_sequences(rt: &impl Abort, made: Result<Vec<SharedEvent>, NoMemory>, wanted: &[u64]) {
    let events = made.expect(rt, "the memory");
    have_sequences(rt, &events, wanted);
}

fn have_sequences(rt: &impl Abort, events: &[SharedEvent], wanted: &[u64]) {
    assert_is(rt, events.len(), wanted.len());
    let mut events = events.iter();
    for sequence in wanted {
        let event = events.next().expect(rt, "an event");
        assert_is(rt, event.sequence, *sequence);
    }
}

/// The rows were made, and their stacks have these frames, each with its number.
pub fn assert_frames<T>(
    rt: &impl Abort,
    made: Result<Vec<(SharedStack, T)>, NoMemory>,
    wanted: &[(&[u64], T)],
)
where
    T: Debug + PartialEq + Drop,
{
    let rows = made.expect(rt, "the memory");
    have_frames(rt, &rows, wanted);
}

fn have_frames<T>(rt: &impl Abort, rows: &[(SharedStack, T)], wanted: &[(&[u64], T)])
where
    T: Debug + PartialEq + Drop,
{
    assert_is(rt, rows.len(), wanted.len());
    let mut rows = rows.iter();
    for (frames, number) in wanted {
        let row = rows.next().expect(rt, "a row");
        assert_is(rt, (row.0.frames(), &row.1), (*frames, number));
    }
}
