//! Up to which moment nothing is missing.

use crate::analysts::{TWO_PROCESSORS, compact, compacted, merge, take_all, taken};
use crate::rows::{assert_is, assert_row};
use htl_analyst::Analyst;
use htl_samples::TRACE;
use std::alloc::Global;
use std::process::Abort;

const LINES: [&str; 4] = [
    "0/0: O 10 0x44",
    "1/0: O 7 0x48",
    "0/2: C 30 0x44",
    "1/1: C 20 0x48",
];

/// All is known up to the moment and one segment is held, once the segment was taken and folded.
fn is_complete_to(
    rt: &impl Abort,
    alloc: Global,
    analyst: &mut Analyst<Global>,
    line: &str,
    moment: u64,
) {
    take_all(rt, alloc, analyst, &[line]);
    compact(rt, analyst);
    assert_row(
        rt,
        line,
        (analyst.complete_to(), analyst.held()),
        (moment, 1),
    );
}

#[test]
fn complete_to_a_moment(rt: HostRuntime) {
    let mut analyst = taken(&rt, rt.alloc(), TWO_PROCESSORS, &LINES[..2]);
    assert_is(&rt, analyst.complete_to(), 0);
    compact(&rt, &mut analyst);
    assert_is(&rt, analyst.complete_to(), 7);
    is_complete_to(&rt, rt.alloc(), &mut analyst, LINES[2], 7);
    is_complete_to(&rt, rt.alloc(), &mut analyst, LINES[3], 10);
}

#[test]
fn a_merge_completes(rt: HostRuntime) {
    let mut analyst = compacted(&rt, rt.alloc(), TWO_PROCESSORS, &LINES[..1]);
    assert_is(&rt, analyst.complete_to(), 0);
    let other = compacted(&rt, rt.alloc(), TWO_PROCESSORS, &LINES);
    merge(&rt, &mut analyst, &other);
    assert_is(&rt, analyst.complete_to(), 10);
}

#[test]
fn an_empty_segment_completes_nothing(rt: HostRuntime) {
    let analyst = compacted(&rt, rt.alloc(), TRACE, &["0/0:"]);
    assert_is(&rt, (analyst.complete_to(), analyst.front(0)), (0, 1));
}
