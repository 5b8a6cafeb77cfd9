//! Answers as of a moment, growth, and what an exit status asks of a subject.

use crate::comparison::assert_row;
use crate::printed::{LEAKING, OUTSTANDING, bundles, fault_of, has_line, over_bytes, printed};
use htl_command::{Job, Moment, Question, Since};
use std::alloc::Global;
use std::process::Abort;
use std::thread::Threads;

/// Segment 1 is missing, which may have closed both handles. Up to sequence 3 nothing is missing.
const GAP: &str = "0/0: O 1 0x44, S 2, O 3 0x48; 0/2: R 8 0x1000 Lky8, O 9 0x4c";

const GROWTH: Question = Question::Growth {
    process: 4,
    points: 3,
};

const SINCE_SNAPSHOT: Question = Question::Leaks {
    process: 4,
    since: Some(Since::Snapshot),
    at_least: 1,
};

const SITES: Question = Question::Sites {
    since: Some(Since::Snapshot),
    at_least: 1,
};

const OFTEN: Question = Question::Leaks {
    process: 4,
    since: None,
    at_least: 4,
};

/// A question over the trace with the gap, the moment, and the answer.
const ANSWERS: &[(Question, Option<Moment>, &str)] = &[
    (
        OUTSTANDING,
        Some(Moment::Sequence(1)),
        "outstanding process=4 until=1 count=1\nOPEN handle=0x44 seq=1 thread=12\n",
    ),
    (
        OUTSTANDING,
        Some(Moment::Complete),
        "outstanding process=4 until=3 count=2\nOPEN handle=0x44 seq=1 thread=12\n\
         OPEN handle=0x48 seq=3 thread=12\n",
    ),
    (
        OUTSTANDING,
        Some(Moment::Sequence(0)),
        "outstanding process=4 until=0 count=0\n",
    ),
    (LEAKING, None, "leaks process=4 count=1\nLEAK handles=3\n"),
    (
        SINCE_SNAPSHOT,
        Some(Moment::Complete),
        "leaks process=4 since=2 until=3 count=1\nLEAK handles=1\n",
    ),
    (OFTEN, None, "leaks process=4 count=0\n"),
    (
        SITES,
        Some(Moment::Complete),
        "sites since=snapshot until=3 count=1\nSITE handles=1 processes=1\n",
    ),
    (
        GROWTH,
        None,
        "growth process=4 count=3\nAT seq=1 outstanding=1\nAT seq=5 outstanding=2\n\
         AT seq=9 outstanding=3\n",
    ),
    (
        GROWTH,
        Some(Moment::Sequence(2)),
        "growth process=4 until=2 count=2\nAT seq=1 outstanding=1\nAT seq=2 outstanding=1\n",
    ),
    (
        Question::Summary,
        Some(Moment::Sequence(2)),
        "summary processors=1 segments=2 events=2 complete_to=3 gaps=1 processes=1 objects=0 \
         unbalanced=0 until=2\nGAP processor=0 from=1 to=1\n\
         PROCESS process=4 outstanding=1 opens=1 closes=0 bad=0 mark=2 exit=0\n",
    ),
];

#[test]
fn answers_as_of_a_moment(rt: HostRuntime) {
    for (question, until, text) in ANSWERS {
        let job = Job {
            until: *until,
            ..over_bytes(*question)
        };
        let inputs = bundles(&rt, rt.alloc(), &[GAP]);
        let (written, ended) = printed(&rt, rt.alloc(), &job, &inputs, None);
        assert_row(
            &rt,
            *text,
            (written.as_slice(), ended.is_ok()),
            (text.as_bytes(), true),
        );
    }
}

/// A question, the moment, and the line of the fault where a complete case and a subject are wanted.
const REFUSALS: &[(Question, Option<Moment>, Option<&str>)] = &[
    (OUTSTANDING, None, Some("hleak: case: C8(0, 1)")),
    (
        OUTSTANDING,
        Some(Moment::Sequence(4)),
        Some("hleak: case: C8(0, 1)"),
    ),
    (OUTSTANDING, Some(Moment::Sequence(3)), None),
    (OUTSTANDING, Some(Moment::Complete), None),
    (
        OUTSTANDING,
        Some(Moment::Sequence(0)),
        Some("hleak: case: C9"),
    ),
    (
        Question::Outstanding { process: 8 },
        Some(Moment::Complete),
        Some("hleak: case: C9"),
    ),
    (
        Question::Tags { object: 0x1000 },
        Some(Moment::Complete),
        Some("hleak: case: C9"),
    ),
];

#[test]
fn refuses_gaps_below_the_moment_and_absent_subjects(rt: HostRuntime) {
    for (question, until, line) in REFUSALS {
        is_refused(&rt, rt.alloc(), *question, *until, *line);
    }
}

/// A question is refused with this line, or answered where there is none.
fn is_refused(
    rt: &(impl Threads + Sync + Abort),
    alloc: Global,
    question: Question,
    until: Option<Moment>,
    line: Option<&str>,
) {
    let mut job = Job {
        until,
        exit_code: true,
        ..over_bytes(question)
    };
    job.setting.complete = true;
    let (written, ended) = printed(rt, alloc, &job, &bundles(rt, alloc, &[GAP]), None);
    match line {
        Some(line) => has_line(rt, alloc, &fault_of(rt, &written, ended), line),
        None => assert!(rt; ended.is_ok(), "it is refused"),
    }
}
