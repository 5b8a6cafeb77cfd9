//! Cases that grow, and the codes of faults.

use crate::rows::{assert_code, assert_row};
use htl_case::{Case, CaseFault};
use htl_samples::{TRACE, Trace};
use std::alloc::Global;
use std::process::Abort;

const TWO_PROCESSORS: Trace = Trace {
    processors: 2,
    ..TRACE
};

const CODES: &[(CaseFault, &str)] = &[
    (CaseFault::Empty, "C1"),
    (CaseFault::OtherTrace(1), "C2(1)"),
    (CaseFault::OtherProcessors(2), "C3(2)"),
    (CaseFault::TwoContents(0, 3), "C4(0, 3)"),
    (CaseFault::SequenceTwice(5), "C5(5)"),
    (CaseFault::NoMemory, "C6"),
    (CaseFault::Falling(0, 2), "C7(0, 2)"),
];

#[test]
fn codes(rt: HostRuntime) {
    for (fault, code) in CODES {
        assert_code(&rt, rt.alloc(), fault, code);
    }
}

/// A case of two processors.
fn case_of(rt: &impl Abort, alloc: Global, lines: &[&str]) -> Case {
    let segments = TWO_PROCESSORS
        .segments(alloc, lines)
        .expect(rt, "the lines are segments");
    Case::of(alloc, segments).expect(rt, "the segments are a case")
}

/// The lines of a case, those of more segments, and how many segments the case of both has.
const GROWN: &[(&[&str], &[&str], usize)] = &[
    (&["0/0: O 1 0x44"], &[], 1),
    (&["0/0: O 1 0x44"], &["0/1: O 2 0x48"], 2),
    (&["0/0: O 1 0x44, O 9 0x48"], &["1/0: O 5 0x44", "1/1:"], 3),
    (
        &["0/0: O 1 0x44, O 9 0x48"],
        &["0/0: O 1 0x44, O 9 0x48"],
        1,
    ),
];

#[test]
fn cases_that_grow(rt: HostRuntime) {
    for (lines, more, wanted) in GROWN {
        let case = case_of(&rt, rt.alloc(), lines);
        let more = TWO_PROCESSORS
            .segments(rt.alloc(), more)
            .expect(&rt, "the lines are segments");
        let grown = case.with_more(rt.alloc(), &more);
        assert_row(
            &rt,
            *lines,
            grown.map(|case| case.segments().len()),
            Some(*wanted),
        );
    }
}
