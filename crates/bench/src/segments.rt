//! How fast bundles are read, and in how much memory. The size is the number of segments that each
//! of four processors has; a segment has some 0.8 MB. How much memory is kept goes to standard
//! error.

use crate::stopwatch::Stopwatch;
use anyhow::Result;
use htl_samples::{RandomTrace, SMALL};
use htl_segment::{Fault, Segment, SegmentBytes, Splitter, decode, decode_bundle};
use std::alloc::Global;
use std::fs;

/// How many bytes a source gives at once.
const PIECE: usize = 65_536;

/// A trace with so many stacks.
fn trace_of(segments: u32, stacks: u32) -> RandomTrace {
    RandomTrace {
        processors: 4,
        segments,
        events: 4096,
        processes: 16,
        handles: 100_000,
        stacks,
        least_frames: 8,
        most_frames: 32,
        ..SMALL
    }
}

/// Reads the records of each segment in place, and adds up the bytes of their frames.
fn in_place(bytes: &[u8], segments: u32) -> Result<u64, Fault> {
    let mut rest = bytes;
    let mut sum = 0u64;
    for _ in 0..segments {
        let segment = SegmentBytes::check(rest)?;
        for record in segment.records() {
            sum = sum.wrapping_add(record.frames.len() as u64);
        }
        rest = rest.get(segment.byte_len()..).unwrap_or(&[]);
    }
    Ok(sum)
}

/// Decodes each segment by itself, counts its events and drops it.
fn one_by_one(alloc: Global, bytes: &[u8], segments: u32) -> Result<u64, Fault> {
    let mut rest = bytes;
    let mut events = 0u64;
    for _ in 0..segments {
        let (segment, used) = decode(alloc, rest)?;
        events = events.wrapping_add(segment.events().len() as u64);
        rest = rest.get(used..).unwrap_or(&[]);
    }
    Ok(events)
}

/// The segments that a splitter hands out for pieces of this length.
fn in_pieces(alloc: Global, bytes: &[u8], len: usize) -> Result<Vec<Segment>> {
    let mut splitter = Splitter::new(alloc);
    let mut segments = Vec::new(alloc);
    for piece in bytes.chunks(len.max(1)) {
        if splitter.fed() > 1 << 40 || piece.len() > 1 << 40 {
            break;
        }
        let Ok(mut more) = splitter.feed(alloc, piece) else {
            break;
        };
        segments.append(&mut more)?;
    }
    Ok(segments)
}

/// How many bytes of memory the program has, if the system says so.
fn memory(rt: &HostRuntime) -> u64 {
    let Ok(text) = fs::read_to_string(rt, "/proc/self/statm") else {
        return 0;
    };
    let pages = text
        .split_whitespace()
        .nth(1)
        .and_then(|word| word.parse::<u64>().ok());
    pages.unwrap_or(0).wrapping_mul(4096)
}

pub fn measure(watch: &mut Stopwatch<'_>, size: u32) -> Result<()> {
    for stacks in [2_000, 100_000] {
        watch.print("stacks", stacks);
        let bundle = trace_of(size, stacks).bundle(watch.alloc())?;
        read(watch, &bundle, size.wrapping_mul(4))?;
    }
    Ok(())
}

/// Reads a bundle of so many segments in each way.
fn read(watch: &mut Stopwatch<'_>, bundle: &[u8], segments: u32) -> Result<()> {
    let (alloc, len) = (watch.alloc(), bundle.len() as u64);
    watch.restart();
    let frames = in_place(bundle, segments)?;
    watch.lap("bytes read in place", len);
    watch.print("bytes of frames", frames);

    keep(watch, bundle)?;

    let kept = in_pieces(alloc, bundle, 64)?.len();
    watch.lap("bytes split, in pieces of 64", len);
    watch.print("segments", kept);

    let kept = decode_bundle(alloc, bundle).map_or(0, |segments| segments.len());
    watch.lap("bytes decoded as a bundle", len);
    watch.print("segments", kept);

    let events = one_by_one(alloc, bundle, segments)?;
    watch.lap("bytes decoded one by one", len);
    watch.print("events", events);
    Ok(())
}

/// Keeps the events of a bundle, and drops them.
fn keep(watch: &mut Stopwatch<'_>, bundle: &[u8]) -> Result<()> {
    let len = bundle.len() as u64;
    let before = memory(watch.rt);
    watch.restart();
    let kept = in_pieces(watch.alloc(), bundle, PIECE)?;
    watch.lap("bytes split, in pieces of 65536, the events kept", len);
    let share = memory(watch.rt).saturating_sub(before).wrapping_mul(100) / len.max(1);
    watch.remark("memory kept, % of the bytes", share);
    watch.print("segments", kept.len());
    watch.restart();
    drop(kept);
    watch.lap("bytes whose events were dropped", len);
    Ok(())
}
