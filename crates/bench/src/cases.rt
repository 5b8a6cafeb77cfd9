//! How fast a case is made and a handle is listed, of 4 and of 64 processors. The size is the
//! number of events that each of 64 segments has.

use crate::stopwatch::Stopwatch;
use anyhow::Result;
use htl_case::{Case, events_of_handle};
use htl_samples::{RandomTrace, SMALL, SampleFault};
use htl_segment::Segment;
use std::alloc::Global;

/// How many segments all processors have.
const SEGMENTS: u32 = 64;

fn trace(processors: u16, events: u32) -> RandomTrace {
    RandomTrace {
        processors,
        segments: SEGMENTS / u32::from(processors.max(1)),
        events,
        processes: 16,
        handles: 1024,
        stacks: 10_000,
        ..SMALL
    }
}

/// How many events a trace has.
fn number_of_events(trace: &RandomTrace) -> u64 {
    let segments = u64::from(trace.segments).wrapping_mul(u64::from(trace.processors));
    segments.wrapping_mul(u64::from(trace.events))
}

/// All segments of a trace in reverse order, each twice, in memory of their own.
fn twice(alloc: Global, trace: &RandomTrace) -> Result<Vec<Segment>, SampleFault> {
    let mut segments = trace.segments(alloc)?;
    segments.append(&mut trace.segments(alloc)?)?;
    segments.reverse();
    Ok(segments)
}

pub fn measure(watch: &mut Stopwatch<'_>, size: u32) -> Result<()> {
    for processors in [4, 64] {
        watch.print("processors", processors);
        measure_trace(watch, &trace(processors, size))?;
    }
    Ok(())
}

fn measure_trace(watch: &mut Stopwatch<'_>, trace: &RandomTrace) -> Result<()> {
    let alloc = watch.alloc();
    let events = number_of_events(trace);
    let segments = trace.segments(alloc)?;
    let case = case_of(watch, "events of a case", events, segments)?;
    list(watch, &case, events)?;
    let segments = twice(alloc, trace)?;
    let step = "events of a case, each segment given twice and in reverse";
    case_of(watch, step, events, segments)?;
    Ok(())
}

/// Makes a case of segments, and prints how many it has.
fn case_of(
    watch: &mut Stopwatch<'_>,
    step: &str,
    events: u64,
    segments: Vec<Segment>,
) -> Result<Case> {
    watch.restart();
    let case = Case::of(watch.alloc(), segments)?;
    watch.lap(step, events);
    watch.print("segments", case.segments().len());
    Ok(case)
}

/// Lists the events of a handle.
fn list(watch: &mut Stopwatch<'_>, case: &Case, events: u64) -> Result<()> {
    watch.restart();
    let lists = case.until(watch.alloc(), None)?;
    let rows = events_of_handle(watch.alloc(), &lists, 4, 8)?;
    watch.lap("events gone through for a listing", events);
    watch.print("listed", rows.len());
    Ok(())
}
