//! Answers on handles, before and after what was taken is folded.

use crate::analysts::{TWO_PROCESSORS, compact, has_sizes, taken};
use crate::rows::{assert_is, assert_row, assert_sequences};
use htl_analyst::Analyst;
use std::alloc::Global;
use std::process::Abort;

const CLOSE_BEFORE_OPEN: &[&str] = &["0/1: C 9 0x44", "0/0: O 4 0x44"];

const LOW_BITS: &[&str] = &["0/0: O 1 0x44, C 2 0x46"];

const TWO_PROCESSES: &[&str] = &["0/0: O 1 0x44, O 2 0x44 process=5, C 3 0x44 process=5"];

const SNAPSHOT: &[&str] = &["0/0: O 7 0x14, O 8 0x10, S 10, C 11 0x14, O 12 0x18, O 13 0x14"];

const EXIT: &[&str] = &["0/0: O 1 0x44, exit 2, O 3 0x48"];

/// Lines, a process, and the opens of its outstanding handles, by base handle.
const OUTSTANDING: &[(&[&str], u32, &[u64])] = &[
    (&["0/0:"], 4, &[]),
    (CLOSE_BEFORE_OPEN, 4, &[]),
    (LOW_BITS, 4, &[]),
    (TWO_PROCESSES, 4, &[1]),
    (TWO_PROCESSES, 5, &[]),
    (TWO_PROCESSES, 6, &[]),
    (SNAPSHOT, 4, &[8, 13, 12]),
    (EXIT, 4, &[3]),
    (&["1/0: exit 5", "0/0: O 4 0x44, O 6 0x48"], 4, &[6]),
    (&["0/0: O 4 0x44, O 6 0x48", "1/0: exit 5"], 4, &[6]),
    (&["0/0: O 1 0x44, exit 2 process=5"], 4, &[1]),
    (&["0/0: O 5 0x44", "0/1: C 4 0x44"], 4, &[5]),
    (&["0/0: O 1 0x44", "1/0: C 2 0x44"], 4, &[]),
    (&["1/0: C 2 0x44", "0/0: O 1 0x44"], 4, &[]),
];

/// The opens of the handles that are outstanding in the lines, folded or not.
fn are_outstanding(rt: &impl Abort, alloc: Global, lines: &[&str], process: u32, opens: &[u64]) {
    let mut analyst = taken(rt, alloc, TWO_PROCESSORS, lines);
    assert_sequences(rt, analyst.outstanding(alloc, process), opens);
    compact(rt, &mut analyst);
    assert_sequences(rt, analyst.outstanding(alloc, process), opens);
}

#[test]
fn outstanding_handles(rt: HostRuntime) {
    for (lines, process, opens) in OUTSTANDING {
        are_outstanding(&rt, rt.alloc(), lines, *process, opens);
    }
}

#[test]
fn a_close_before_its_open_is_held(rt: HostRuntime) {
    let analyst = taken(&rt, rt.alloc(), TWO_PROCESSORS, CLOSE_BEFORE_OPEN);
    has_sizes(&rt, &analyst, (0, 2, 2));
}

/// Lines, a process, a handle, and the sequence and the handle of its latest event.
const LATEST: &[(&[&str], u32, u32, Option<(u64, u32)>)] = &[
    (CLOSE_BEFORE_OPEN, 4, 0x44, Some((9, 0x44))),
    (LOW_BITS, 4, 0x47, Some((2, 0x46))),
    (TWO_PROCESSES, 4, 0x44, Some((1, 0x44))),
    (TWO_PROCESSES, 5, 0x44, Some((3, 0x44))),
    (TWO_PROCESSES, 6, 0x44, None),
    (EXIT, 4, 0x44, Some((1, 0x44))),
];

/// The sequence and the handle of the latest event.
fn latest_of(analyst: &Analyst<Global>, process: u32, handle: u32) -> Option<(u64, u32)> {
    let event = analyst.latest(process, handle)?;
    Some((event.sequence, event.handle))
}

/// The latest event of a handle in the lines, folded or not.
fn is_latest(
    rt: &impl Abort,
    alloc: Global,
    lines: &[&str],
    process: u32,
    handle: u32,
    latest: Option<(u64, u32)>,
) {
    let mut analyst = taken(rt, alloc, TWO_PROCESSORS, lines);
    assert_row(rt, lines, latest_of(&analyst, process, handle), latest);
    compact(rt, &mut analyst);
    assert_row(rt, lines, latest_of(&analyst, process, handle), latest);
}

#[test]
fn latest_events(rt: HostRuntime) {
    for (lines, process, handle, latest) in LATEST {
        is_latest(&rt, rt.alloc(), lines, *process, *handle, *latest);
    }
}

/// The snapshot's sequence, and the opens of the handles that are outstanding and were opened after
/// a moment.
fn has_marks(rt: &impl Abort, alloc: Global, analyst: &Analyst<Global>) {
    assert_is(rt, (analyst.mark(4), analyst.mark(5)), (10, 0));
    assert_sequences(rt, analyst.diff(alloc, 4, 10), &[13, 12]);
    assert_sequences(rt, analyst.diff(alloc, 4, 13), &[]);
}

#[test]
fn snapshot_and_difference(rt: HostRuntime) {
    let mut analyst = taken(&rt, rt.alloc(), TWO_PROCESSORS, SNAPSHOT);
    has_marks(&rt, rt.alloc(), &analyst);
    compact(&rt, &mut analyst);
    has_marks(&rt, rt.alloc(), &analyst);
}
