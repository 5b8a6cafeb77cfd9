//! How long a stack tree of many events takes, with few stacks and with many. The size is the
//! number of segments of each of 4 processors.

use crate::stopwatch::Stopwatch;
use anyhow::Result;
use htl_event::number_of_events;
use htl_samples::{RandomTrace, SMALL};
use htl_segment::{Segment, decode_bundle};
use htl_tree::StackTree;
use std::alloc::Global;

/// Events of 16 processes with 100,000 handles, and of as many objects.
const TRACE: RandomTrace = RandomTrace {
    processors: 4,
    events: 4_096,
    processes: 16,
    handles: 100_000,
    least_frames: 8,
    most_frames: 32,
    ..SMALL
};

fn segments(alloc: Global, trace: RandomTrace) -> Result<Vec<Segment>> {
    let bytes = trace.bundle(alloc)?;
    let segments = decode_bundle(alloc, &bytes).map_err(|(_offset, fault)| fault)?;
    Ok(segments)
}

pub fn measure(watch: &mut Stopwatch<'_>, size: u32) -> Result<()> {
    for stacks in [2_000, 100_000] {
        watch.print("stacks", stacks);
        let trace = RandomTrace {
            stacks,
            segments: size,
            ..TRACE
        };
        watch.restart();
        let segments = segments(watch.alloc(), trace)?;
        watch.lap("segments made", segments.len() as u64);
        measure_tree(watch, &segments)?;
    }
    Ok(())
}

fn measure_tree(watch: &mut Stopwatch<'_>, segments: &[Segment]) -> Result<()> {
    if number_of_events(segments).is_none() {
        return Ok(());
    }
    let tree = StackTree::of(watch.alloc(), segments)?;
    watch.lap("events counted", tree.total());
    add_copy(watch, &tree)?;
    watch.lap_list("slots listed", tree.slots(watch.alloc()));
    Ok(())
}

/// Copies a tree, compares it with the copy and adds that to it.
fn add_copy(watch: &mut Stopwatch<'_>, tree: &StackTree<Global>) -> Result<()> {
    let copy = tree.copy()?;
    watch.lap("tree copied", copy.total());
    watch.lap("trees compared", u64::from(tree.same(&copy)));
    if tree.fits(copy.total()) {
        let sum = tree.plus(&copy)?;
        watch.lap("counts of both", sum.total());
    }
    watch.restart();
    Ok(())
}
