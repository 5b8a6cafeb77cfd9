//! Analysts made of lines. A line that is no segment ends a test, and so does refused memory.

use crate::rows::{assert_is, assert_row};
use htl_analyst::{Analyst, TakeFault, Took};
use htl_samples::{TRACE, Trace};
use htl_segment::Segment;
use std::alloc::Global;
use std::process::Abort;

/// The samples' trace with two processors.
pub const TWO_PROCESSORS: Trace = Trace {
    processors: 2,
    ..TRACE
};

/// An analyst that has taken nothing.
pub fn new(rt: &impl Abort, alloc: Global, trace: Trace) -> Analyst<Global> {
    Analyst::new(alloc, trace.id, trace.processors).expect(rt, "an analyst")
}

/// The segment of a line of this trace.
pub fn segment(rt: &impl Abort, alloc: Global, trace: Trace, line: &str) -> Segment {
    trace
        .segment(alloc, line)
        .expect(rt, "the line is a segment")
}

/// What an analyst answers to the segment of a line of this trace.
pub fn take_of(
    rt: &impl Abort,
    alloc: Global,
    analyst: &mut Analyst<Global>,
    trace: Trace,
    line: &str,
) -> Result<Took, TakeFault> {
    match analyst.take(segment(rt, alloc, trace, line)) {
        Ok(took) => Ok(took),
        Err((fault, _segment)) => Err(fault),
    }
}

/// What an analyst answers to the segment of a line of its trace.
pub fn take(
    rt: &impl Abort,
    alloc: Global,
    analyst: &mut Analyst<Global>,
    line: &str,
) -> Result<Took, TakeFault> {
    let trace = Trace {
        id: analyst.trace_id(),
        processors: analyst.processors(),
    };
    take_of(rt, alloc, analyst, trace, line)
}

/// Takes the segments of lines, each for the first time.
pub fn take_all(rt: &impl Abort, alloc: Global, analyst: &mut Analyst<Global>, lines: &[&str]) {
    for line in lines {
        assert_row(rt, *line, take(rt, alloc, analyst, line), Ok(Took::New));
    }
}

pub fn compact(rt: &impl Abort, analyst: &mut Analyst<Global>) {
    analyst.compact().expect(rt, "the memory");
}

pub fn merge(rt: &impl Abort, analyst: &mut Analyst<Global>, other: &Analyst<Global>) {
    analyst.merge(other).expect(rt, "a merge");
}

/// Whether an analyst takes over the other by a move.
pub fn is_absorbed(analyst: &mut Analyst<Global>, other: Analyst<Global>) -> bool {
    match analyst.absorb(other) {
        Ok(()) => true,
        Err(_refused) => false,
    }
}

/// An analyst that took the segments of lines.
pub fn taken(rt: &impl Abort, alloc: Global, trace: Trace, lines: &[&str]) -> Analyst<Global> {
    let mut analyst = new(rt, alloc, trace);
    take_all(rt, alloc, &mut analyst, lines);
    analyst
}

/// An analyst that took the segments of lines and was compacted.
pub fn compacted(rt: &impl Abort, alloc: Global, trace: Trace, lines: &[&str]) -> Analyst<Global> {
    let mut analyst = taken(rt, alloc, trace, lines);
    compact(rt, &mut analyst);
    analyst
}

/// The front of processor 0, and how many segments are held and were taken, are these.
pub fn has_sizes(rt: &impl Abort, analyst: &Analyst<Global>, wanted: (u32, u64, u64)) {
    let sizes = (analyst.front(0), analyst.held(), analyst.taken());
    assert_is(rt, sizes, wanted);
}

/// The fronts of processors 0 and 1, and how many segments are held and were taken, are these.
pub fn has_numbers(rt: &impl Abort, analyst: &Analyst<Global>, wanted: (u32, u32, u64, u64)) {
    let (front, other_front, held, taken) = wanted;
    assert_is(rt, analyst.front(1), other_front);
    has_sizes(rt, analyst, (front, held, taken));
}
