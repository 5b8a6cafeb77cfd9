//! Summaries of traces of several processors, and how much of them is there.

use crate::comparison::assert_row;
use crate::printed::{fault_of, has_line, over_bytes, printed};
use htl_command::Question;
use htl_main::{Completed, Coverage, Refused};
use htl_samples::Trace;
use htl_segment::{Segment, encode};
use std::alloc::Global;
use std::process::Abort;
use std::thread::Threads;

#[derive(Clone, Copy)]
struct Summary {
    processors: u16,
    segments: &'static [&'static str],
    coverage: Coverage,
    has_finding: bool,
    /// The line of the refusal where a complete case is asked for.
    missing: Option<&'static str>,
    text: &'static str,
}

/// Two processors have gaps and one has no segment; one process exited, and one object of four is
/// balanced.
const MISSING: Summary = Summary {
    processors: 3,
    segments: &[
        "0/1: O 1 0x44, O 2 0x48, O 3 0x44 process=8, B 4 0x7",
        "0/4: S 9, C 10 0x44, O 11 0x4c process=12",
        "1/0: R 5 0x1000 Lky8, R 6 0x1000 Dflt, D 7 0x1000 Dflt, R 8 0x2000 Lky8, D 12 0x2000 Lky8",
        "1/1: D 13 0x3000 Lky8, R 14 0x4000 Lky8, D 15 0x4000 Dflt",
        "1/3: exit 16 process=8",
    ],
    coverage: Coverage {
        gaps: 4,
        complete_to: 0,
    },
    has_finding: true,
    missing: Some("hleak: case: C8(0, 0)"),
    text: "\
summary processors=3 segments=5 events=16 complete_to=0 gaps=4 processes=3 objects=4 unbalanced=3
GAP processor=0 from=0 to=0
GAP processor=0 from=2 to=3
GAP processor=1 from=2 to=2
GAP processor=2 from=0
PROCESS process=4 outstanding=1 opens=2 closes=1 bad=1 mark=9 exit=0
PROCESS process=12 outstanding=1 opens=1 closes=0 bad=0 mark=0 exit=0
PROCESS process=8 outstanding=0 opens=1 closes=0 bad=0 mark=0 exit=16
OBJECT object=0x0000000000004000 tags=2 unbalanced=2 refs=1 derefs=1
OBJECT object=0x0000000000001000 tags=2 unbalanced=1 refs=2 derefs=1
OBJECT object=0x0000000000003000 tags=1 unbalanced=1 refs=0 derefs=1
",
};

/// Each processor's first two segments are there, the later of them without an event for one.
const TORN: Summary = Summary {
    processors: 2,
    segments: &[
        "0/0: S 1, S 4",
        "0/1:",
        "0/3: S 9",
        "1/0: S 2",
        "1/1: S 6",
        "1/7: S 8",
    ],
    coverage: Coverage {
        gaps: 2,
        complete_to: 4,
    },
    has_finding: false,
    missing: Some("hleak: case: C8(0, 2)"),
    text: "\
summary processors=2 segments=6 events=6 complete_to=4 gaps=2 processes=0 objects=0 unbalanced=0
GAP processor=0 from=2 to=2
GAP processor=1 from=2 to=6
",
};

/// One processor has no segment.
const ABSENT: Summary = Summary {
    processors: 2,
    segments: &["0/0: S 1", "0/1: B 2 0x7"],
    coverage: Coverage {
        gaps: 1,
        complete_to: 0,
    },
    has_finding: true,
    missing: Some("hleak: case: C8(1, 0)"),
    text: "\
summary processors=2 segments=2 events=2 complete_to=0 gaps=1 processes=1 objects=0 unbalanced=0
GAP processor=1 from=0
PROCESS process=4 outstanding=0 opens=0 closes=0 bad=1 mark=1 exit=0
",
};

const WHOLE: Summary = Summary {
    processors: 2,
    segments: &["1/0: S 3", "0/1: C 2 0x44", "0/0: O 1 0x44"],
    coverage: Coverage {
        gaps: 0,
        complete_to: 2,
    },
    has_finding: false,
    missing: None,
    text: "\
summary processors=2 segments=3 events=3 complete_to=2 gaps=0 processes=1 objects=0 unbalanced=0
PROCESS process=4 outstanding=0 opens=1 closes=1 bad=0 mark=3 exit=0
",
};

const SUMMARIES: &[Summary] = &[MISSING, TORN, ABSENT, WHOLE];

/// One input with the segments of a trace.
fn input(rt: &impl Abort, alloc: Global, row: &Summary) -> Vec<Vec<u8>> {
    let bytes = bytes_of(rt, alloc, row);
    Vec::from_array(alloc, [bytes]).expect(rt, "the memory")
}

/// The bytes of a trace's segments.
fn bytes_of(rt: &impl Abort, alloc: Global, row: &Summary) -> Vec<u8> {
    let mut bytes = Vec::new(alloc);
    for segment in &segments(rt, alloc, row) {
        let more = encode(alloc, segment).expect(rt, "the memory");
        bytes.extend_from_slice(&more).expect(rt, "the memory");
    }
    bytes
}

fn segments(rt: &impl Abort, alloc: Global, row: &Summary) -> Vec<Segment> {
    let trace = Trace {
        id: 7,
        processors: row.processors,
    };
    let segments = trace.segments(alloc, row.segments);
    segments.expect(rt, "the lines are segments")
}

#[test]
fn prints_summaries(rt: HostRuntime) {
    for row in SUMMARIES {
        for workers in [1, 2, 4] {
            is_summarized(&rt, rt.alloc(), row, workers);
        }
    }
}

/// A trace's summary is printed by so many workers.
fn is_summarized(rt: &(impl Threads + Sync + Abort), alloc: Global, row: &Summary, workers: u32) {
    let mut job = over_bytes(Question::Summary);
    job.setting.workers = workers;
    let (written, ended) = printed(rt, alloc, &job, &input(rt, alloc, row), None);
    assert!(rt; written.as_slice() == row.text.as_bytes());
    let completed = ended.expect(rt, "it is printed");
    let found = (completed.coverage, completed.remarks.has_finding);
    assert_row(rt, workers, found, (row.coverage, row.has_finding));
}

/// A run that asks for a complete case.
fn printed_if_complete(
    rt: &(impl Threads + Sync + Abort),
    alloc: Global,
    row: &Summary,
    symbols: Option<&str>,
) -> (Vec<u8>, Result<Completed, Refused>) {
    let mut job = over_bytes(Question::Summary);
    job.setting.complete = true;
    printed(rt, alloc, &job, &input(rt, alloc, row), symbols)
}

#[test]
fn refuses_gaps_before_faulty_symbols(rt: HostRuntime) {
    for row in SUMMARIES {
        match row.missing {
            Some(line) => is_incomplete(&rt, rt.alloc(), row, line),
            None => is_complete(&rt, rt.alloc(), row),
        }
    }
}

/// A trace is refused with this line.
fn is_incomplete(rt: &(impl Threads + Sync + Abort), alloc: Global, row: &Summary, line: &str) {
    let (written, ended) = printed_if_complete(rt, alloc, row, Some(""));
    let fault = fault_of(rt, &written, ended);
    has_line(rt, alloc, &fault, line);
    assert_row(rt, line, fault.status(), 4);
}

/// A trace's summary is printed.
fn is_complete(rt: &(impl Threads + Sync + Abort), alloc: Global, row: &Summary) {
    let (written, ended) = printed_if_complete(rt, alloc, row, None);
    assert!(rt; ended.is_ok() && written.as_slice() == row.text.as_bytes());
}

#[test]
fn each_command_reports_the_coverage(rt: HostRuntime) {
    let listing = Question::Trace {
        process: 4,
        handle: 0x44,
    };
    for row in [&MISSING, &TORN, &WHOLE] {
        for question in [listing, Question::Bad { process: 4 }] {
            let found = coverage_of(&rt, rt.alloc(), row, question);
            assert_row(&rt, question, found, row.coverage);
        }
    }
}

/// How much of a trace the answer to a question reports to be there.
fn coverage_of(
    rt: &(impl Threads + Sync + Abort),
    alloc: Global,
    row: &Summary,
    question: Question,
) -> Coverage {
    let inputs = input(rt, alloc, row);
    let (_, ended) = printed(rt, alloc, &over_bytes(question), &inputs, None);
    ended.expect(rt, "it is printed").coverage
}
