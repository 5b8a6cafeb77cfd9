//! Calls on a case.

use allocation_trials::{Equal, Refusal, Spent, Trials, answered};
use htl_analyst::Analyst;
use htl_case::{AnalystAnswer, AnalystQuestion, Case, Step, answer_after, events_of_handle, play};
use htl_event::SharedEvent;
use htl_samples::{SMALL, SampleFault};
use htl_segment::Segment;
use std::alloc::Global;

/// Two analysts share the six segments, and the second takes over what the first has.
const STEPS: &[Step] = &[
    Step::Take {
        analyst: 0,
        segment: 0,
    },
    Step::Take {
        analyst: 0,
        segment: 1,
    },
    Step::Take {
        analyst: 0,
        segment: 4,
    },
    Step::Compact { analyst: 0 },
    Step::Take {
        analyst: 1,
        segment: 2,
    },
    Step::Take {
        analyst: 1,
        segment: 3,
    },
    Step::Take {
        analyst: 1,
        segment: 5,
    },
    Step::Merge {
        target: 1,
        source: 0,
    },
    Step::Compact { analyst: 1 },
];

pub fn try_all(trials: &mut Trials<'_, HostRuntime>) {
    trials.changes("Case::of", unordered, case_of);
    trials.reads("Case::with_more", case, with_more);
    trials.reads("trace", case, trace);
    trials.reads("play", case, played);
    trials.reads("answer_after", case, answered_after);
}

/// The segments in reverse order, each twice, for each time that a case is made of them.
fn unordered(alloc: Global) -> Result<Spent<Vec<Segment>>, Refusal> {
    let mut lists = Vec::new(alloc);
    for _ in 0..2 {
        lists.push(reversed_twice(alloc)?)?;
    }
    Ok(Spent(lists))
}

fn reversed_twice(alloc: Global) -> Result<Vec<Segment>, SampleFault> {
    let mut segments = SMALL.segments(alloc)?;
    segments.append(&mut SMALL.segments(alloc)?)?;
    segments.reverse();
    Ok(segments)
}

fn case_of(alloc: Global, lists: &mut Spent<Vec<Segment>>) -> Result<Case, Refusal> {
    let segments = lists.0.pop().ok_or(Refusal::Other)?;
    answered(Case::of(alloc, segments))
}

pub fn case(alloc: Global) -> Result<Case, Refusal> {
    answered(Case::of(alloc, SMALL.segments(alloc)?))
}

/// Without memory there is none.
fn with_more(alloc: Global, case: &Case) -> Result<Case, Refusal> {
    case.with_more(alloc, case.segments())
        .ok_or(Refusal::Memory)
}

fn trace(alloc: Global, case: &Case) -> Result<Equal<Vec<SharedEvent>>, Refusal> {
    let lists = answered(case.until(alloc, None))?;
    Equal::of(events_of_handle(alloc, &lists, 4, 8))
}

fn played(alloc: Global, case: &Case) -> Result<Vec<Analyst<Global>>, Refusal> {
    answered(play(alloc, case, 2, STEPS))
}

/// The handles that the second analyst says are open.
fn answered_after(alloc: Global, case: &Case) -> Result<Equal<Vec<SharedEvent>>, Refusal> {
    let question = AnalystQuestion::Outstanding { process: 4 };
    match answer_after(alloc, case, 2, STEPS, 1, &question)? {
        AnalystAnswer::Outstanding(rows) => Ok(Equal(rows)),
        _ => Err(Refusal::Other),
    }
}
