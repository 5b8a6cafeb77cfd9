//! How long an analyst takes to fold a trace and to be merged. The size is the number of events, at
//! most 4,096, in each of 256 segments, of 4 and of 64 processors.

use crate::stopwatch::Stopwatch;
use anyhow::{Context, Result};
use htl_analyst::Analyst;
use htl_event::number_of_events;
use htl_samples::{RandomTrace, SMALL, TRACE};
use htl_segment::Segment;
use htl_tables::Latest;
use htl_tree::StackTree;
use std::alloc::Global;

const SEGMENTS: u32 = 256;

/// A trace of 10,000 stacks and 16 processes, with 12 handles in each for every event of a segment
/// (about 50,000 at most), and as many objects.
fn trace(processors: u16, events: u32) -> RandomTrace {
    RandomTrace {
        processors,
        segments: SEGMENTS / u32::from(processors.max(1)),
        events,
        processes: 16,
        handles: events.wrapping_mul(12),
        stacks: 10_000,
        least_frames: 20,
        most_frames: 30,
        ..SMALL
    }
}

pub fn measure(watch: &mut Stopwatch<'_>, size: u32) -> Result<()> {
    for processors in [4, 64] {
        watch.print("processors", processors);
        let trace = trace(processors, size);
        watch.restart();
        let analyst = fold(watch, &trace)?;
        merge(watch, &trace, &analyst)?;
    }
    Ok(())
}

/// Takes all segments and compacts once.
fn fold(watch: &mut Stopwatch<'_>, trace: &RandomTrace) -> Result<Analyst<Global>> {
    let segments = trace.segments(watch.alloc())?;
    watch.lap("segments made", segments.len() as u64);
    alone(watch, &segments)?;
    let mut analyst = taken(watch.alloc(), trace.processors, segments)?;
    watch.lap("segments taken", analyst.taken());
    compact(&mut analyst)?;
    watch.lap("segments folded", analyst.taken());
    Ok(analyst)
}

/// The tree and the table of latest events by themselves.
fn alone(watch: &mut Stopwatch<'_>, segments: &[Segment]) -> Result<()> {
    if number_of_events(segments).is_some() {
        let tree = StackTree::of(watch.alloc(), segments)?;
        watch.lap("events in a tree alone", tree.total());
        let latest = Latest::of(watch.alloc(), segments)?;
        watch.lap("handles in a table alone", latest.rows().len() as u64);
    }
    Ok(())
}

/// An analyst that holds the segments.
fn taken(alloc: Global, processors: u16, segments: Vec<Segment>) -> Result<Analyst<Global>> {
    let mut analyst = Analyst::new(alloc, TRACE.id, processors)
        .ok()
        .context("no analyst")?;
    for segment in segments {
        take(&mut analyst, segment)?;
    }
    Ok(analyst)
}

pub fn take(analyst: &mut Analyst<Global>, segment: Segment) -> Result<()> {
    analyst.take(segment).ok().context("a segment was refused")?;
    Ok(())
}

pub fn compact(analyst: &mut Analyst<Global>) -> Result<()> {
    analyst.compact().ok().context("out of memory")
}

/// Merges the halves by reference and by moves.
fn merge(watch: &mut Stopwatch<'_>, trace: &RandomTrace, whole: &Analyst<Global>) -> Result<()> {
    let mut first = half(watch.alloc(), trace, true)?;
    let second = half(watch.alloc(), trace, false)?;
    let merged = merged(watch, &first, &second)?;
    absorb(watch, &mut first, second)?;
    let same = merged.same(whole) && first.same(whole);
    watch.lap("analysts compared", u64::from(same));
    Ok(())
}

fn merged(
    watch: &mut Stopwatch<'_>,
    first: &Analyst<Global>,
    second: &Analyst<Global>,
) -> Result<Analyst<Global>> {
    watch.restart();
    let mut merged = first.copy()?;
    watch.lap("analyst of one half copied", merged.taken());
    merged
        .merge(second)
        .ok()
        .context("the halves weren't merged")?;
    watch.lap("halves merged by reference", merged.taken());
    Ok(merged)
}

fn absorb(
    watch: &mut Stopwatch<'_>,
    first: &mut Analyst<Global>,
    second: Analyst<Global>,
) -> Result<()> {
    first
        .absorb(second)
        .ok()
        .context("the halves weren't merged")?;
    watch.lap("halves merged by moves", first.taken());
    Ok(())
}

/// An analyst that folded the segments of the lower half of the processors, or of the upper one.
fn half(alloc: Global, trace: &RandomTrace, lower: bool) -> Result<Analyst<Global>> {
    let mut segments = trace.segments(alloc)?;
    segments.retain(|segment| (segment.processor() < trace.processors / 2) == lower);
    let mut analyst = taken(alloc, trace.processors, segments)?;
    compact(&mut analyst)?;
    Ok(analyst)
}
