//! How long workers take to take in a whole case. The size is the number of events, at most 4,096,
//! in each of 256 segments, of 8 processors. One analyst that takes all segments and compacts comes
//! first, and then surveys by 1, 2 and 4 workers, each of which has to come to the same state.

use crate::analysts::{compact, take};
use crate::stopwatch::Stopwatch;
use anyhow::{Context, Result};
use htl_analyst::Analyst;
use htl_case::Case;
use htl_exchange::{Free, survey};
use htl_samples::{RandomTrace, SMALL};
use std::alloc::Global;
use std::sync::Wait;
use std::thread::Threads;

const PROCESSORS: u16 = 8;

/// How many segments each processor has.
const SEGMENTS: u32 = 32;

/// The case of a trace of 10,000 stacks and 16 processes.
fn case(alloc: Global, events: u32) -> Result<Case> {
    let trace = RandomTrace {
        processors: PROCESSORS,
        segments: SEGMENTS,
        events,
        processes: 16,
        handles: events.wrapping_mul(12),
        stacks: 10_000,
        least_frames: 20,
        most_frames: 30,
        ..SMALL
    };
    Ok(Case::of(alloc, trace.segments(alloc)?)?)
}

/// One analyst that takes all segments, by processor, and compacts once.
fn alone(alloc: Global, case: &Case) -> Result<Analyst<Global>> {
    let mut analyst = Analyst::new(alloc, case.trace_id(), case.processors())
        .ok()
        .context("no analyst")?;
    for segment in case.segments() {
        take(&mut analyst, segment.copy()?)?;
    }
    compact(&mut analyst)?;
    Ok(analyst)
}

/// The workers are threads of `threads`.
pub fn measure<R: Threads + Wait + Sync>(
    watch: &mut Stopwatch<'_>,
    threads: &R,
    size: u32,
) -> Result<()> {
    let case = case(watch.alloc(), size)?;
    watch.restart();
    let whole = alone(watch.alloc(), &case)?;
    watch.lap("segments taken in by one analyst", whole.taken());
    for workers in [1, 2, 4] {
        watch.print("workers", workers);
        measure_survey(watch, threads, &case, workers, &whole)?;
    }
    Ok(())
}

/// So many workers survey a case, and come to the same state as one analyst did.
fn measure_survey<R: Threads + Wait + Sync>(
    watch: &mut Stopwatch<'_>,
    threads: &R,
    case: &Case,
    workers: u32,
    whole: &Analyst<Global>,
) -> Result<()> {
    watch.restart();
    let surveyed = survey(threads, watch.alloc(), case, workers, &Free)
        .ok()
        .context("no survey")?;
    watch.lap("segments surveyed", surveyed.taken());
    watch.print("the same state", surveyed.same(whole));
    Ok(())
}
