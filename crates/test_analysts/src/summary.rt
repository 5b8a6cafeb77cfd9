//! What a summary says, before and after what was taken is folded.

use crate::analysts::{compact, taken};
use crate::rows::{assert_is, assert_list};
use htl_analyst::Analyst;
use htl_event::{ObjectRow, ProcessRow};
use htl_samples::{TRACE, Trace};
use htl_taken::Gap;
use std::alloc::Global;
use std::process::Abort;

/// Of three processors one has a gap and one no segment. Of three processes one exited, and one
/// made a bad reference. Of four objects the first is balanced, the next two have a reference too
/// many and too few, and the last one of each under two tags.
const LINES: &[&str] = &[
    "0/0: O 1 0x44, O 2 0x48, S 3, C 4 0x48, B 5 0x7, O 6 0x10 process=5, O 7 0x14 process=5",
    "0/2: O 21 0x50, R 22 0x1000 Lky8, D 23 0x1000 Lky8, R 24 0x2000 Lky8, D 25 0x3000 Lky8, \
    R 26 0x4000 Lky8, D 27 0x4000 Dflt",
    "1/0: O 10 0x44 process=6, exit 11 process=6, O 12 0x18 process=5",
];

const PROCESSES: &[ProcessRow] = &[
    ProcessRow {
        process: 5,
        outstanding: 3,
        opens: 3,
        closes: 0,
        bad: 0,
        mark: 0,
        exit: 0,
    },
    ProcessRow {
        process: 4,
        outstanding: 2,
        opens: 3,
        closes: 1,
        bad: 1,
        mark: 3,
        exit: 0,
    },
    ProcessRow {
        process: 6,
        outstanding: 0,
        opens: 1,
        closes: 0,
        bad: 0,
        mark: 0,
        exit: 11,
    },
];

const UNBALANCED: &[ObjectRow] = &[
    ObjectRow {
        object: 0x4000,
        tags: 2,
        unbalanced: 2,
        refs: 1,
        derefs: 1,
    },
    ObjectRow {
        object: 0x2000,
        tags: 1,
        unbalanced: 1,
        refs: 1,
        derefs: 0,
    },
    ObjectRow {
        object: 0x3000,
        tags: 1,
        unbalanced: 1,
        refs: 0,
        derefs: 1,
    },
];

const GAPS: &[Gap] = &[
    Gap::Between {
        processor: 0,
        from: 1,
        to: 1,
    },
    Gap::Absent { processor: 2 },
];

/// There are four objects, of which three are unbalanced.
fn has_objects(rt: &impl Abort, alloc: Global, analyst: &Analyst<Global>) {
    let objects = analyst.objects(alloc).expect(rt, "the memory");
    assert_is(
        rt,
        (objects.number, objects.unbalanced.as_slice()),
        (4, UNBALANCED),
    );
}

/// The summary is the one that was worked out.
fn is_summed_up(rt: &impl Abort, alloc: Global, analyst: &Analyst<Global>) {
    assert_list(rt, analyst.processes(alloc), PROCESSES);
    has_objects(rt, alloc, analyst);
    assert_list(rt, analyst.gaps(alloc), GAPS);
}

const THREE_PROCESSORS: Trace = Trace {
    processors: 3,
    ..TRACE
};

#[test]
fn processes_objects_and_gaps(rt: HostRuntime) {
    let mut analyst = taken(&rt, rt.alloc(), THREE_PROCESSORS, LINES);
    is_summed_up(&rt, rt.alloc(), &analyst);
    compact(&rt, &mut analyst);
    is_summed_up(&rt, rt.alloc(), &analyst);
}
