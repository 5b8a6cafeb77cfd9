//! What analysts refuse, and that a refusal changes nothing.

use crate::analysts::{TWO_PROCESSORS, compacted, merge, segment, take, take_of, taken};
use crate::heaps::heap;
use crate::rows::{assert_is, assert_list, assert_row};
use htl_analyst::{Analyst, AnalystFault, MergeFault, TakeFault, Took};
use htl_samples::{TRACE, Trace};
use htl_segment::Segment;
use std::alloc::{Allocator, Global};
use std::process::Abort;

const OTHER_TRACE: Trace = Trace { id: 8, ..TRACE };

/// How many processors an analyst of so many has, if it is made.
fn made(alloc: Global, processors: u16) -> Result<u16, AnalystFault> {
    Ok(Analyst::new(alloc, 7, processors)?.processors())
}

const PROCESSORS: &[(u16, Result<u16, AnalystFault>)] = &[
    (0, Err(AnalystFault::Processors)),
    (1, Ok(1)),
    (256, Ok(256)),
    (257, Err(AnalystFault::Processors)),
];

#[test]
fn numbers_of_processors(rt: HostRuntime) {
    for (processors, answer) in PROCESSORS {
        assert_row(&rt, *processors, made(rt.alloc(), *processors), *answer);
    }
}

/// What an analyst with one segment answers to that of a line. It has one after it.
fn taken_second(
    rt: &impl Abort,
    alloc: Global,
    trace: Trace,
    line: &str,
) -> Result<Took, TakeFault> {
    let mut analyst = taken(rt, alloc, TRACE, &["0/3: O 1 0x44"]);
    let answer = take_of(rt, alloc, &mut analyst, trace, line);
    assert_is(rt, analyst.taken(), 1);
    answer
}

/// Traces and lines of second segments, and what an analyst answers to them.
const SECOND: &[(Trace, &str, Result<Took, TakeFault>)] = &[
    (TRACE, "0/3: O 2 0x44", Err(TakeFault::Conflict(0, 3))),
    (OTHER_TRACE, "0/3: O 1 0x44", Err(TakeFault::OtherTrace)),
    (OTHER_TRACE, "0/4:", Err(TakeFault::OtherTrace)),
    (
        TWO_PROCESSORS,
        "0/3: O 2 0x44",
        Err(TakeFault::OtherProcessors),
    ),
    (TRACE, "0/3: O 1 0x44", Ok(Took::Repeat)),
];

#[test]
fn segments_that_are_not_taken(rt: HostRuntime) {
    for (trace, line, answer) in SECOND {
        let found = taken_second(&rt, rt.alloc(), *trace, line);
        assert_row(&rt, *line, found, *answer);
    }
}

/// Whether an analyst refuses the segment of a line, as conflicting with its number 3, and hands it
/// back.
fn is_handed_back(
    rt: &impl Abort,
    alloc: Global,
    analyst: &mut Analyst<Global>,
    line: &str,
) -> bool {
    let conflicting = segment(rt, alloc, TRACE, line);
    let (fault, back) = analyst.take(conflicting).expect_err(rt, "a refusal");
    assert_is(rt, fault, TakeFault::Conflict(0, 3));
    back.same(&segment(rt, alloc, TRACE, line))
}

#[test]
fn a_conflicting_segment_is_handed_back(rt: HostRuntime) {
    let mut analyst = taken(&rt, rt.alloc(), TRACE, &["0/3: O 1 0x44"]);
    let back = is_handed_back(&rt, rt.alloc(), &mut analyst, "0/3: O 2 0x44");
    assert_is(&rt, back, true);
}

// What was folded is no longer compared.
#[test]
fn other_content_below_the_front(rt: HostRuntime) {
    let mut analyst = compacted(&rt, rt.alloc(), TRACE, &["0/0: O 1 0x44"]);
    let answer = take(&rt, rt.alloc(), &mut analyst, "0/0: O 2 0x48");
    assert_is(&rt, answer, Ok(Took::Repeat));
    let more = compacted(&rt, rt.alloc(), TRACE, &["0/0: O 1 0x48", "0/1:"]);
    merge(&rt, &mut analyst, &more);
    assert_is(&rt, (analyst.front(0), analyst.taken()), (2, 2));
}

/// An analyst that holds two segments.
fn two_held(rt: &impl Abort, alloc: Global) -> Analyst<Global> {
    taken(rt, alloc, TRACE, &["0/3: O 3 0x44", "0/2: O 1 0x48"])
}

/// A refused merge changes nothing.
fn merge_is_refused(
    rt: &impl Abort,
    alloc: Global,
    trace: Trace,
    lines: &[&str],
    fault: MergeFault,
) {
    let mut one = two_held(rt, alloc);
    let merged = one.merge(&taken(rt, alloc, trace, lines));
    assert_is(rt, merged, Err(fault));
    is_unchanged(rt, alloc, &one);
}

/// It holds the two segments alone.
fn is_unchanged(rt: &impl Abort, alloc: Global, one: &Analyst<Global>) {
    assert_is(rt, one.same(&two_held(rt, alloc)), true);
}

/// Why an analyst isn't taken over, and the analyst that is handed back. The one that refuses it
/// has two segments after it.
fn not_absorbed(
    rt: &impl Abort,
    alloc: Global,
    other: Analyst<Global>,
) -> (MergeFault, Analyst<Global>) {
    let mut one = two_held(rt, alloc);
    let refused = one.absorb(other).expect_err(rt, "a refusal");
    assert_is(rt, one.taken(), 2);
    refused
}

/// A refused `absorb` hands the other back.
fn absorb_is_refused(
    rt: &impl Abort,
    alloc: Global,
    trace: Trace,
    lines: &[&str],
    fault: MergeFault,
) {
    let (why, back) = not_absorbed(rt, alloc, taken(rt, alloc, trace, lines));
    assert_is(rt, why, fault);
    assert_is(rt, back.same(&taken(rt, alloc, trace, lines)), true);
}

/// Traces and lines of analysts, and why one of the samples' trace doesn't merge them.
const NOT_MERGED: &[(Trace, &[&str], MergeFault)] = &[
    (TRACE, &["0/3: O 2 0x44"], MergeFault::Conflict(0, 3)),
    (
        TRACE,
        &["0/3: O 2 0x44", "0/2: O 1 0x44"],
        MergeFault::Conflict(0, 2),
    ),
    (OTHER_TRACE, &[], MergeFault::OtherTrace),
    (
        TWO_PROCESSORS,
        &["0/3: O 2 0x44"],
        MergeFault::OtherProcessors,
    ),
];

#[test]
fn analysts_that_are_not_merged(rt: HostRuntime) {
    for (trace, lines, fault) in NOT_MERGED {
        merge_is_refused(&rt, rt.alloc(), *trace, lines, *fault);
        absorb_is_refused(&rt, rt.alloc(), *trace, lines, *fault);
    }
}

/// Why the first of the empty segments from number 1 on is refused that is, and its number.
fn first_refused<A: Allocator + Clone>(
    rt: &impl Abort,
    alloc: Global,
    analyst: &mut Analyst<A>,
) -> Option<(TakeFault, u64)> {
    for number in 1..1000 {
        if let Err((fault, segment)) = analyst.take(empty(rt, alloc, number)) {
            return Some((fault, u64::from(segment.number())));
        }
    }
    None
}

/// An analyst in a heap without room for a thousand segments takes all that it has room for.
fn takes_until_refused<A: Allocator + Clone>(rt: &impl Abort, alloc: Global, heap: A) {
    let mut analyst = Analyst::new(heap, 7, 1).expect(rt, "an analyst");
    let refused = first_refused(rt, alloc, &mut analyst);
    is_full(rt, alloc, &analyst, refused);
}

/// What was refused is the one after all that were taken, which are held.
fn is_full<A: Allocator + Clone>(
    rt: &impl Abort,
    alloc: Global,
    analyst: &Analyst<A>,
    refused: Option<(TakeFault, u64)>,
) {
    let next = analyst.taken().wrapping_add(1);
    assert_is(rt, refused, Some((TakeFault::NoMemory, next)));
    assert_is(rt, analyst.held(), analyst.taken());
    assert_list(rt, analyst.outstanding(alloc, 4), &[]);
}

#[test]
fn a_small_heap_refuses_a_segment(rt: HostRuntime) {
    takes_until_refused(&rt, rt.alloc(), &heap(&rt, rt.alloc(), 4096));
}

/// A segment without an event.
fn empty(rt: &impl Abort, alloc: Global, number: u32) -> Segment {
    Segment::build(alloc, 7, 1, 0, number, Vec::new(alloc))
        .ok()
        .expect(rt, "a segment")
}
