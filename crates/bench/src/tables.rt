//! How long tables take that are made of generated segments, copied and joined. The size is the
//! number of segments, of 4,096 events each.

use crate::stopwatch::Stopwatch;
use anyhow::Result;
use htl_event::{EventList, SharedEvent};
use htl_samples::{RandomTrace, SMALL};
use htl_segment::Segment;
use htl_tables::{Exits, Latest, Marks};
use std::alloc::Global;

/// A trace of one processor. About half of its events open or close a handle.
fn trace(segments: u32, handles: u32) -> RandomTrace {
    RandomTrace {
        processors: 1,
        segments,
        events: 4096,
        processes: 16,
        handles: handles / 16,
        stacks: 100,
        ..SMALL
    }
}

/// All events in one run, the last of them first.
fn turned(alloc: Global, segments: &[Segment]) -> Result<Vec<SharedEvent>> {
    let mut events = Vec::new(alloc);
    for segment in segments.iter().rev() {
        for event in segment.events().iter().rev() {
            events.push(event.copy()?)?;
        }
    }
    Ok(events)
}

/// Makes tables of 100,000 handles, and joins tables of a million.
pub fn measure(watch: &mut Stopwatch<'_>, size: u32) -> Result<()> {
    let segments = trace(size, 100_000).segments(watch.alloc())?;
    make_tables(watch, &segments)?;
    watch.restart();
    let segments = trace(size, 1_000_000).segments(watch.alloc())?;
    watch.lap("segments made", segments.len() as u64);
    join_tables(watch, &segments)
}

/// A table of latest events, and the rows that it has.
fn latest_of<L: EventList>(
    watch: &mut Stopwatch<'_>,
    step: &str,
    events: &[L],
) -> Result<Latest<Global>> {
    let latest = Latest::of(watch.alloc(), events)?;
    watch.lap(step, latest.rows().len() as u64);
    Ok(latest)
}

/// Tables by two orders of events.
fn make_tables(watch: &mut Stopwatch<'_>, segments: &[Segment]) -> Result<()> {
    compare_orders(watch, segments)?;
    watch.restart();
    let marks = Marks::of(watch.alloc(), segments)?;
    watch.lap("marks of these", marks.rows().len() as u64);
    let exits = Exits::of(watch.alloc(), segments)?;
    watch.lap("exits of these", exits.rows().len() as u64);
    Ok(())
}

fn compare_orders(watch: &mut Stopwatch<'_>, segments: &[Segment]) -> Result<()> {
    let turned = [turned(watch.alloc(), segments)?];
    watch.lap("events made", turned[0].len() as u64);
    let latest = latest_of(watch, "latest events of these", segments)?;
    let backwards = latest_of(watch, "the same, backwards", &turned)?;
    watch.lap("tables compared", u64::from(latest.same(&backwards)));
    Ok(())
}

fn join_tables(watch: &mut Stopwatch<'_>, segments: &[Segment]) -> Result<()> {
    let all = latest_of(watch, "latest events of many handles", segments)?;
    let copy = all.copy()?;
    watch.lap("table copied", copy.rows().len() as u64);
    let joined = join_halves(watch, segments)?;
    watch.restart();
    watch.lap("tables compared", u64::from(joined.same(&all)));
    Ok(())
}

fn join_halves(watch: &mut Stopwatch<'_>, segments: &[Segment]) -> Result<Latest<Global>> {
    let half = segments.len() / 2;
    let first = Latest::of(watch.alloc(), &segments[..half])?;
    let second = Latest::of(watch.alloc(), &segments[half..])?;
    watch.restart();
    let joined = first.join(&second)?;
    watch.lap("tables joined", joined.rows().len() as u64);
    Ok(joined)
}
