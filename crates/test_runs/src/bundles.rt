//! Generated bundles, small enough that each of their bits can be turned.

use htl_event::{Event, Kind};
use htl_samples::{RandomTrace, SMALL, TRACE};
use htl_segment::{Segment, encode};
use std::alloc::Global;
use std::process::Abort;

/// How many bundles there are.
pub const BUNDLES: u32 = 500;

const PROCESSORS: u16 = 2;

/// The bundle of a number: one to three segments in either version, with up to three events each.
/// Every tenth one has deep stacks, and every ninth one the last numbers that segments may have.
pub fn bundle(rt: &impl Abort, alloc: Global, number: u32) -> Vec<u8> {
    let generated = RandomTrace {
        seed: u64::from(number),
        most_frames: if number % 10 == 0 { 64 } else { 4 },
        ..SMALL
    };
    let first: u32 = if number % 9 == 2 { 0xffff_fffc } else { 0 };
    let mut bytes = Vec::new(alloc);
    for place in 0..=number % 3 {
        let count = number.wrapping_add(place) / 2 % 4;
        let version = number / 3 % 2 + 1;
        let events = events_of(rt, alloc, &generated, version, place, count);
        let more = segment_of(rt, alloc, version, first.wrapping_add(place), events);
        bytes.extend_from_slice(&more).expect(rt, "the memory");
    }
    bytes
}

/// Generated events, without those that the version doesn't know.
fn events_of(
    rt: &impl Abort,
    alloc: Global,
    generated: &RandomTrace,
    version: u32,
    place: u32,
    count: u32,
) -> Vec<Event> {
    let mut events = Vec::new(alloc);
    for number in 0..count {
        let event = generated.event(1, place, number);
        if version == 2 || is_of_first_version(&event) {
            events.push(event).expect(rt, "the memory");
        }
    }
    events
}

fn is_of_first_version(event: &Event) -> bool {
    event.kind != Kind::Exited && event.stack.frames().len() <= 32
}

/// The bytes of a segment.
fn segment_of(
    rt: &impl Abort,
    alloc: Global,
    version: u32,
    number: u32,
    events: Vec<Event>,
) -> Vec<u8> {
    let segment = built(alloc, version, number, events).expect(rt, "a segment");
    encode(alloc, &segment).expect(rt, "the memory")
}

fn built(alloc: Global, version: u32, number: u32, events: Vec<Event>) -> Option<Segment> {
    if version == 2 {
        Segment::build2(alloc, TRACE.id, PROCESSORS, 1, number, events).ok()
    } else {
        Segment::build(alloc, TRACE.id, PROCESSORS, 1, number, events).ok()
    }
}
