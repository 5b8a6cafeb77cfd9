//! Sources that several workers read in parts, beside bytes that one worker decodes.

ghost use Rattle.std.specs.Prelude.{None, true};
ghost use Rattle.htl_device.specs.States.{IsOpen};

use crate::rows::assert_row;
use htl_device::{Failed, Parted, Reading, Source};
use htl_event::{Interest, SharedEvent};
use htl_reading::{Bundle, EarlyEnd, SourceFault, early_end, gather_bundle, read_bundle};
use htl_samples::{RandomTrace, SMALL};
use htl_segment::{Fault, Picks, Segment, decode_bundle};
use std::alloc::Global;
use std::io;
use std::io::Read;
use std::process::Abort;
use std::thread::Threads;

/// An empty segment, whose number stands at 12.
const EMPTY: [u8; 32] = *b"HLS1\x01\0\x01\0\0\0\0\0\0\0\0\0\x07\0\0\0\0\0\0\0\0\0\0\0\x20\0\0\0";

/// So many empty segments have parts for two workers.
const LONG: u32 = 300_000;

/// An empty segment of this number.
fn empty(number: u32) -> [u8; 32] {
    let mut segment = EMPTY;
    segment[12..16].copy_from_slice(&number.to_le_bytes());
    segment
}

/// So many empty segments.
pub fn bundle(rt: &impl Abort, alloc: Global, count: u32) -> Vec<u8> {
    let mut bytes = Vec::new(alloc);
    for number in 0..count {
        bytes
            .extend_from_slice(&empty(number))
            .expect(rt, "the memory");
    }
    bytes
}

/// A number that tells apart lists of segments.
pub fn told(segments: &[Segment]) -> u64 {
    let mut told: u64 = 1;
    for segment in segments {
        told = told.wrapping_mul(31).wrapping_add(segment.number() as u64);
    }
    told
}

/// Bytes in memory, as a source that may be read from several places.
#[derive(Drop)]
struct Bytes<'a> {
    bytes: &'a [u8],
    reading: Reading<&'a [u8]>,
    /// The number of bytes that were skipped.
    skipped: u64,
    /// How often another reader was asked for.
    tails: u64,
}

impl<'a> Bytes<'a> {
    fn new(bytes: &'a [u8]) -> Bytes<'a>
        ensures { IsOpen (⟦<Bytes<'a> as Source>⟧.state result) }
    {
        Bytes {
            bytes,
            reading: Reading::new(bytes),
            skipped: 0,
            tails: 0,
        }
    }
}

impl<'a> Source for Bytes<'a> {
    // What is left isn't told.
    ghost state = { λ s. record (⟦<Reading<&'a [u8]> as Source>⟧.state s.reading) {
      tails = s.tails;
      remaining = None;
    } };

    fn ended(&self) -> bool {
        self.reading.ended()
    }

    fn read(&mut self, buffer: &mut [u8]) -> Result<usize, Failed> {
        self.reading.read(buffer)
    }
}

/// The bytes from a place on.
#[derive(Drop)]
struct Tail<'a> {
    bytes: &'a [u8],
}

impl Read for Tail<'_> {
    fn read(&mut self, buffer: &mut [u8]) -> io::Result<usize> {
        self.bytes.read(buffer)
    }
}

impl<'a> Parted for Bytes<'a> {
    type Tail = Tail<'a>;

    ghost is_parted = { λ _. true };

    fn len(&self) -> Option<u64> {
        Some(self.bytes.len() as u64)
    }

    fn tail(&mut self, offset: u64) -> Option<Tail<'a>> {
        self.tails = self.tails.saturating_add(1);
        let bytes = self.bytes.get(offset as usize..)?;
        Some(Tail { bytes })
    }

    fn skip(&mut self, len: u64) {
        self.bytes = self.bytes.get(len as usize..).unwrap_or(&[]);
        self.reading = Reading::new(self.bytes);
        self.skipped = self.skipped.saturating_add(len);
    }
}

/// What comes of bytes: a number that tells their segments apart, and where they end within one more; or
/// their fault.
pub type Told = Result<(u64, Option<EarlyEnd>), SourceFault>;

/// What comes of bytes in memory.
pub fn told_of_bytes(alloc: Global, bytes: &[u8]) -> Told {
    match decode_bundle(alloc, bytes) {
        Ok(segments) => Ok((told(&segments), None)),
        Err((offset, Fault::Short | Fault::Cut)) => {
            let (whole, rest) = bytes.split_at(offset as usize);
            let segments = decode_bundle(alloc, whole).map_err(|(
                offset,
                fault,
            )| SourceFault::Segment { offset, fault })?;
            Ok((told(&segments), early_end(offset, rest)))
        }
        Err((offset, fault)) => Err(SourceFault::Segment { offset, fault }),
    }
}

/// What was read of a source.
pub fn told_of_read(read: Result<Bundle<Vec<Segment>>, SourceFault>) -> Told {
    let Bundle {
        segments,
        early_end,
    } = read?;
    Ok((told(&segments), early_end))
}

/// Workers read parts of bytes without a fault, and one reads all of others: what comes of them is
/// the same.
fn by_all(rt: &(impl Abort + Threads + Sync), alloc: Global, bytes: &[u8], has_fault: bool) {
    let alone = told_of_bytes(alloc, bytes);
    for workers in [1, 2, 3, 8] {
        let mut source = Bytes::new(bytes);
        let read = read_bundle(rt, alloc, workers, &mut source);
        assert_row(rt, workers, told_of_read(read), alone);
        let skipped = if workers > 1 && !has_fault {
            bytes.len() as u64
        } else {
            0
        };
        assert_row(rt, workers, source.skipped, skipped);
    }
}

#[test]
fn parts_of_empty_segments(rt: HostRuntime) {
    let alloc = rt.alloc();
    let mut bytes = bundle(&rt, alloc, LONG);
    by_all(&rt, alloc, &bytes, false);
    by_all(
        &rt,
        alloc,
        bytes.get(..9_599_990).expect(&rt, "a cut end"),
        true,
    );
    for place in [9_599_968, 4_800_004, 31_999] {
        if let Some(cell) = bytes.get_mut(place) {
            *cell = 0xFF;
        }
        by_all(&rt, alloc, &bytes, true);
    }
}

/// What is picked of a process by workers: numbers that tell the outlines and the events apart, and
/// whether a sequence came twice.
fn picked(
    rt: &(impl Abort + Threads + Sync),
    alloc: Global,
    workers: u32,
    bytes: &[u8],
) -> Result<(u64, u64, bool), SourceFault> {
    let picks = Picks::new(alloc, Interest::Process(1));
    let mut source = Bytes::new(bytes);
    let Bundle { segments, .. } = gather_bundle(rt, alloc, workers, &mut source, picks)?;
    let Picks {
        outlines,
        lists,
        seen,
        ..
    } = segments;
    let mut of_outlines: u64 = 1;
    for outline in &outlines {
        of_outlines = of_outlines.wrapping_mul(31).wrapping_add(outline.last);
    }
    let mut of_events: u64 = 1;
    for events in &lists {
        of_events = with_events(of_events, events);
    }
    Ok((of_outlines, of_events, seen.comes_twice()))
}

/// The number that tells the events before and these apart.
fn with_events(before: u64, events: &[SharedEvent]) -> u64 {
    let mut told = before;
    for event in events {
        told = told.wrapping_mul(31).wrapping_add(event.sequence);
    }
    told
}

/// Workers pick what one does.
fn picks_by_all(
    rt: &(impl Abort + Threads + Sync),
    alloc: Global,
    bytes: &[u8],
    comes_twice: bool,
) {
    let alone = picked(rt, alloc, 1, bytes);
    assert_row(rt, bytes.len(), alone.map(|told| told.2), Ok(comes_twice));
    for workers in [2, 3, 8] {
        assert_row(rt, workers, picked(rt, alloc, workers, bytes), alone);
    }
}

#[test]
fn picks_of_workers(rt: HostRuntime) {
    let alloc = rt.alloc();
    let trace = RandomTrace {
        segments: 60,
        events: 4_000,
        ..SMALL
    };
    let once = trace.bundle(alloc).ok().expect(&rt, "a bundle");
    assert!(rt; once.len() > 8_388_608);
    picks_by_all(&rt, alloc, &once, false);
    let mut twice = trace.bundle(alloc).ok().expect(&rt, "a bundle");
    twice.extend_from_slice(&once).expect(&rt, "the memory");
    picks_by_all(&rt, alloc, &twice, true);
}
