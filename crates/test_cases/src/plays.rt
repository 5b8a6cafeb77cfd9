//! Lists of steps that lead to analysts, and lists that are refused.

use crate::rows::{assert_code, assert_row};
use htl_analyst::Analyst;
use htl_case::{Case, PlayFault, Step, play};
use htl_samples::TRACE;
use std::alloc::Global;
use std::process::Abort;

/// Four segments with a reference each.
const FOUR: [&str; 4] = [
    "0/0: R 1 0x1000 Lky8",
    "0/1: R 2 0x1000 Lky8",
    "0/2: R 3 0x1000 Lky8",
    "0/3: R 4 0x1000 Lky8",
];

fn case_of(rt: &impl Abort, alloc: Global, lines: &[&str]) -> Case {
    let segments = TRACE
        .segments(alloc, lines)
        .expect(rt, "the lines are segments");
    Case::of(alloc, segments).expect(rt, "the segments are a case")
}

fn take(analyst: u32, segment: u32) -> Step {
    Step::Take { analyst, segment }
}

fn merge(target: u32, source: u32) -> Step {
    Step::Merge { target, source }
}

fn compact(analyst: u32) -> Step {
    Step::Compact { analyst }
}

/// The front, the number of held segments and that of taken ones.
fn numbers(analyst: &Analyst<Global>) -> (u32, u64, u64) {
    (analyst.front(0), analyst.held(), analyst.taken())
}

#[test]
fn a_list_of_steps(rt: HostRuntime) {
    let case = case_of(&rt, rt.alloc(), &FOUR);
    let steps = [
        take(0, 0),
        take(0, 2),
        take(1, 1),
        take(1, 3),
        merge(0, 1),
        compact(0),
    ];
    let played = play(rt.alloc(), &case, 2, &steps).expect(&rt, "the steps are played");
    assert_eq!(rt; played.len(), 2);
    let (merged, other) = (&played[0], &played[1]);
    assert_row(&rt, "merged", numbers(merged), (4, 0, 4));
    assert_row(&rt, "the other", numbers(other), (0, 2, 2));
    assert!(rt; !other.has(0, 0) && other.has(0, 1));
    has_tag(&rt, rt.alloc(), merged, (4, 0));
}

/// The object has one tag, with which it was referenced and dereferenced so often.
fn has_tag(rt: &impl Abort, alloc: Global, analyst: &Analyst<Global>, counts: (u64, u64)) {
    let tags = analyst.tags(alloc, 0x1000).expect(rt, "the memory");
    let found = tags.iter().map(|(_, count)| (count.plus, count.minus));
    assert!(rt; found.eq([counts]));
}

/// The only analyst after these steps.
fn played_alone(rt: &impl Abort, alloc: Global, case: &Case, steps: &[Step]) -> Analyst<Global> {
    let mut played = play(alloc, case, 1, steps).expect(rt, "the steps are played");
    played.pop().expect(rt, "an analyst")
}

#[test]
fn repeats_count_once(rt: HostRuntime) {
    let case = case_of(&rt, rt.alloc(), &["0/0: O 1 0x44"]);
    let steps = [
        take(0, 0),
        take(0, 0),
        compact(0),
        take(0, 0),
        merge(0, 0),
        compact(0),
    ];
    let repeated = played_alone(&rt, rt.alloc(), &case, &steps);
    assert_row(&rt, "repeated", numbers(&repeated), (1, 0, 1));
    assert_eq!(rt; outstanding(&rt, rt.alloc(), &repeated), 1);
    let once = played_alone(&rt, rt.alloc(), &case, &[take(0, 0), compact(0)]);
    assert!(rt; repeated.same(&once));
}

/// How many handles of process 4 are open.
fn outstanding(rt: &impl Abort, alloc: Global, analyst: &Analyst<Global>) -> usize {
    let rows = analyst.outstanding(alloc, 4).expect(rt, "the memory");
    rows.len()
}

/// Steps of two analysts that name what isn't there, and why each is refused.
const REFUSED: &[(Step, PlayFault)] = &[
    (
        Step::Take {
            analyst: 2,
            segment: 0,
        },
        PlayFault::NoAnalyst(0),
    ),
    (
        Step::Take {
            analyst: 0,
            segment: 4,
        },
        PlayFault::NoSegment(0),
    ),
];

#[test]
fn steps_that_name_what_is_not_there(rt: HostRuntime) {
    let case = case_of(&rt, rt.alloc(), &FOUR);
    for (step, fault) in REFUSED {
        let found = play(rt.alloc(), &case, 2, &[*step]).map(|analysts| analysts.len());
        assert_row(&rt, step, found, Err(*fault));
    }
}

const CODES: &[(PlayFault, &str)] = &[
    (PlayFault::NoAnalyst(1), "P1(1)"),
    (PlayFault::NoSegment(2), "P2(2)"),
    (PlayFault::NoMemory, "P3"),
];

#[test]
fn codes_of_faults(rt: HostRuntime) {
    for (fault, code) in CODES {
        assert_code(&rt, rt.alloc(), fault, code);
    }
}
