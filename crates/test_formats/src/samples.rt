//! What lines write, and that generated segments rise.
use crate::rows::assert_row;
use htl_event::{Event, Kind, SharedEvent};
use htl_samples::{SMALL, SampleFault, TRACE, Trace, event, events, shared_events};
use htl_segment::{Segment, decode_bundle};
use std::alloc::Global;
use std::process::Abort;

/// The event of a line.
fn written(rt: &impl Abort, line: &str) -> Event {
    event(line).expect(rt, "the line is an event")
}

#[test]
fn lines_of_events(rt: HostRuntime) {
    let open = written(&rt, "O 1 0x44 process=5 [0x50 0x20]");
    assert_row(
        &rt,
        "an open",
        (
            open.sequence,
            open.kind,
            open.process,
            open.thread,
            open.handle,
        ),
        (1, Kind::Opened, 5, 12, 0x44),
    );
    assert!(rt; open.stack.frames() == [0x50, 0x20].as_slice());
    has_tag(
        &rt,
        "D 6 0x1000 0x01414243",
        Kind::Deref,
        [1, 0x41, 0x42, 0x43],
    );
    has_tag(&rt, "R 5 0x1000 Lky8", Kind::Ref, *b"Lky8");
}

/// The line is a reference or a dereference of object 0x1000 with this tag.
fn has_tag(rt: &impl Abort, line: &str, kind: Kind, tag: [u8; 4]) {
    let event = written(rt, line);
    assert_row(rt, line, (event.kind, event.object), (kind, 0x1000));
    assert_row(rt, line, event.tag == tag, true);
}

const KINDS: &[(&str, Kind)] = &[
    ("C 2 0x44", Kind::Closed),
    ("B 3 0x7", Kind::BadRef),
    ("S 4", Kind::Snapshot),
    ("exit 7", Kind::Exited),
];

#[test]
fn kinds_of_events(rt: HostRuntime) {
    for (line, kind) in KINDS {
        assert_row(&rt, *line, written(&rt, line).kind, *kind);
    }
}

const OTHER_LINES: &[&str] = &[
    "",
    "O",
    "O 1",
    "O 1 0x",
    "Z 1",
    "S 1 2 3",
    "O 1 0x44 [0x10",
    "R 1 0x10 Lky",
];

#[test]
fn lines_that_are_no_event(rt: HostRuntime) {
    for line in OTHER_LINES {
        assert_row(&rt, *line, event(line).err(), Some(SampleFault::Line));
    }
}

#[test]
fn lines_of_segments(rt: HostRuntime) {
    let two = Trace {
        processors: 2,
        ..TRACE
    };
    let segments = two
        .segments(rt.alloc(), &["0/1:", "1/3: O 1 0x44, exit 2"])
        .expect(&rt, "the lines are segments");
    let places = segments.iter().map(place);
    assert!(rt; places.eq([(1, 0, 1, 0), (2, 1, 3, 2)]));
    assert!(rt; TRACE.segment(rt.alloc(), "1/0:").is_err());
    agree(&rt, rt.alloc(), "C 9 0x44, O 4 0x44 [0x10]");
}

/// A segment's version, processor and number, and how many events it has.
fn place(segment: &Segment) -> (u16, u16, u32, usize) {
    (
        segment.version(),
        segment.processor(),
        segment.number(),
        segment.events().len(),
    )
}

/// The two events of the lines are the same, whether they share stacks or not.
fn agree(rt: &impl Abort, alloc: Global, lines: &str) {
    let alone = events(alloc, lines).expect(rt, "the lines are events");
    let shared = shared_events(alloc, lines).expect(rt, "the lines are events");
    assert_row(rt, lines, (alone.len(), shared.len()), (2, 2));
    assert!(rt; are_alike(&alone, &shared));
}

/// Whether the events have the same sequences and frames.
fn are_alike(alone: &[Event], shared: &[SharedEvent]) -> bool {
    for (one, other) in alone.iter().zip(shared) {
        if one.sequence != other.sequence || one.stack.frames() != other.stack.frames() {
            return false;
        }
    }
    true
}

/// Whether some event has more than one frame.
fn has_frames(segment: &Segment) -> bool {
    for event in segment.events() {
        if event.stack.frames().len() > 1 {
            return true;
        }
    }
    false
}

/// The segments of the small trace's bundle.
fn bundled(rt: &impl Abort, alloc: Global) -> Vec<Segment> {
    let bytes = SMALL.bundle(alloc).expect(rt, "the bundle");
    decode_bundle(alloc, &bytes).expect(rt, "a bundle")
}

#[test]
fn generated_traces(rt: HostRuntime) {
    let segments = SMALL.segments(rt.alloc()).expect(&rt, "the segments");
    let read = bundled(&rt, rt.alloc());
    assert_row(&rt, "segments", (segments.len(), read.len()), (6, 6));
    assert!(rt; are_read(&segments, &read));
}

/// Whether the segments were read as they were made, and each has frames.
fn are_read(made: &[Segment], read: &[Segment]) -> bool {
    for (made, read) in made.iter().zip(read) {
        if !made.same(read) || !has_frames(made) {
            return false;
        }
    }
    true
}
