//! Segments as text, and texts as segments.

use crate::rows::assert_row;
use htl_samples::RandomTrace;
use htl_segment::{Fault, SegmentBytes, from_hex};
use htl_text::{LineFault, TextFault, dump, encode, event_line};
use std::alloc::Global;
use std::process::Abort;

/// A segment with an event of each kind of version 1, and the only segment of a processor's last
/// number, with an exit.
const TEXT: &str = "\
segment version=1 trace=0x0000000000000007 processors=1 processor=0 number=0
OPEN handle=0x44 seq=1 process=4 thread=12
  0x0000000000001010
  0x0000000000002000
CLOSE handle=0x47 seq=2 process=4 thread=12
BAD REF handle=0x7 seq=3 process=5 thread=12
SNAPSHOT seq=4 process=4 thread=12
REF object=0xffffa00000001000 tag=Lky8 seq=5 process=4 thread=12
DEREF object=0x0000000000001000 tag=0x20616220 seq=6 process=4 thread=12
REF object=0xffffffffffffffff tag=0x017f80ff seq=18446744073709551615 process=4 thread=12
  0x0000000000000000
  0xffffffffffffffff
segment version=2 trace=0xffffffffffffffff processors=256 processor=255 number=4294967294
EXIT seq=9 process=4294967295 thread=12
";

/// The same, as people write it.
const WRITTEN: &str = "\u{feff}# the first segment
segment  version=1 trace=7 processors=01 processor=0 number=0 \r
   # an event, and its frames
OPEN   handle=0x0000000000000044 seq=1  process=4 thread=12\r

0x1010
0x0000000000002000
CLOSE\thandle=47\t seq=2 process=4 thread=12\t
\tBAD   REF handle=0x7 seq=3 process=5 thread=12
SNAPSHOT seq=0004 process=4 thread=12
REF object=0xFFFFa00000001000 tag=Lky8 seq=5 process=4 thread=12
DEREF object=1000 tag=0x20616220 seq=6 process=4 thread=12
 REF object=0xffffffffffffffff tag=0x017F80fF seq=18446744073709551615 process=4 thread=12
    0x0
\t0xFFFFFFFFFFFFFFFF
  \r
segment version=2 trace=0xffffffffffffffff processors=256 processor=255 number=4294967294
EXIT seq=9 process=4294967295 thread=12";

/// The bytes of both.
const BYTES: &str = "
484c5331 0100 0100 0000 0000 00000000 0700000000000000 07000000 3c010000
0100000000000000 01 02 0000 04000000 0c000000 44000000 0000000000000000 00000000
    1010000000000000 0020000000000000
0200000000000000 02 00 0000 04000000 0c000000 47000000 0000000000000000 00000000
0300000000000000 03 00 0000 05000000 0c000000 07000000 0000000000000000 00000000
0400000000000000 04 00 0000 04000000 0c000000 00000000 0000000000000000 00000000
0500000000000000 05 00 0000 04000000 0c000000 00000000 0010000000a0ffff 4c6b7938
0600000000000000 06 00 0000 04000000 0c000000 00000000 0010000000000000 20616220
ffffffffffffffff 05 02 0000 04000000 0c000000 00000000 ffffffffffffffff 017f80ff
    0000000000000000 ffffffffffffffff
484c5331 0200 0001 ff00 0000 feffffff ffffffffffffffff 01000000 44000000
0900000000000000 07 00 0000 ffffffff 0c000000 00000000 0000000000000000 00000000";

const SEGMENT: &str = "segment version=1 trace=0x7 processors=1 processor=0 number=0\n";

const DEEP: &str = "segment version=2 trace=0x7 processors=1 processor=0 number=0\n";

const OPEN: &str = "OPEN handle=0x44 seq=1 process=4 thread=12\n";

/// The bytes that these texts encode, one after another.
fn encoded(rt: &impl Abort, alloc: Global, text: &[u8]) -> Vec<u8> {
    encode(alloc, text).expect(rt, "a text of segments")
}

/// The text of a bundle's segments.
fn dumped(rt: &impl Abort, alloc: Global, bundle: &[u8]) -> Vec<u8> {
    let mut text = Vec::new(alloc);
    let mut rest = bundle;
    while !rest.is_empty() {
        let segment = SegmentBytes::check(rest).ok().expect(rt, "a bundle");
        dump(alloc, &segment, &mut text).expect(rt, "the memory");
        rest = &rest[segment.byte_len()..];
    }
    text
}

#[test]
fn each_kind_in_both_versions(rt: HostRuntime) {
    let bytes = from_hex(rt.alloc(), BYTES.as_bytes()).expect(&rt, "the bytes");
    assert!(rt; encoded(&rt, rt.alloc(), TEXT.as_bytes()) == bytes);
    assert!(rt; dumped(&rt, rt.alloc(), &bytes).as_slice() == TEXT.as_bytes());
}

#[test]
fn a_text_as_people_write_it(rt: HostRuntime) {
    let bytes = from_hex(rt.alloc(), BYTES.as_bytes()).expect(&rt, "the bytes");
    assert!(rt; encoded(&rt, rt.alloc(), WRITTEN.as_bytes()) == bytes);
}

/// Puts so many of these lines after a text.
fn add(rt: &impl Abort, text: &mut Vec<u8>, line: &str, count: usize) {
    for _ in 0..count {
        text.extend_from_slice(line.as_bytes())
            .expect(rt, "the memory");
    }
}

/// So many lines after a first one.
fn repeated(rt: &impl Abort, alloc: Global, first: &str, line: &str, count: usize) -> Vec<u8> {
    let mut text = Vec::new(alloc);
    add(rt, &mut text, first, 1);
    add(rt, &mut text, line, count);
    text
}

/// Texts, and how many bytes they encode.
const WITHOUT_EVENTS: &[(&str, usize)] = &[("", 0), (" \r\n# nothing\n", 0), (SEGMENT, 32)];

#[test]
fn texts_without_an_event(rt: HostRuntime) {
    for (text, len) in WITHOUT_EVENTS {
        let bytes = encoded(&rt, rt.alloc(), text.as_bytes());
        assert_row(&rt, *text, bytes.len(), *len);
    }
    let three = repeated(&rt, rt.alloc(), SEGMENT, SEGMENT, 2);
    assert_row(&rt, "three", encoded(&rt, rt.alloc(), &three).len(), 96);
}

/// An open with so many frames after the first line of a segment.
fn deep_text(rt: &impl Abort, alloc: Global, head: &str, frames: usize) -> Vec<u8> {
    let mut text = repeated(rt, alloc, head, OPEN, 1);
    add(rt, &mut text, "  0x10\n", frames);
    text
}

#[test]
fn the_deepest_stack(rt: HostRuntime) {
    let bytes = encoded(&rt, rt.alloc(), &deep_text(&rt, rt.alloc(), DEEP, 64));
    assert_row(&rt, "bytes", bytes.len(), 580);
    let text = dumped(&rt, rt.alloc(), &bytes);
    assert_row(&rt, "its text", text.len(), 77 + 43 + 64 * 21);
}

#[test]
fn stacks_that_are_too_deep(rt: HostRuntime) {
    let wanted = TextFault::Line(1, LineFault::Segment(Fault::Frames(0)));
    for (head, frames) in [(SEGMENT, 33), (SEGMENT, 70), (DEEP, 65), (DEEP, 200)] {
        let text = deep_text(&rt, rt.alloc(), head, frames);
        assert_row(&rt, frames, encode(rt.alloc(), &text).err(), Some(wanted));
    }
}

/// The parts of texts, and the first fault of each with its line.
const FAULTS: &[(&[&str], &str)] = &[
    (&["segment\n"], "line 1: E1(version)"),
    (&["\n", SEGMENT, OPEN, "  0x1 0x2"], "line 4: E1"),
    (
        &[SEGMENT, OPEN, "0x11111111111111111\n"],
        "line 3: E1(frame)",
    ),
    (&[SEGMENT, OPEN, "0x\n"], "line 3: E1(frame)"),
    (&[SEGMENT, OPEN, "1010\n"], "line 3: E1"),
    (&["\n\u{feff}", SEGMENT], "line 2: E1"),
    (
        &[SEGMENT, "open handle=0x44 seq=1 process=4 thread=12\n"],
        "line 2: E1",
    ),
    (
        &[SEGMENT, "OPEN seq=1 handle=0x44 process=4 thread=12\n"],
        "line 2: E1(handle)",
    ),
    (
        &[SEGMENT, "OPEN handle=0x44 seq=1 process=4 thread=12 #\n"],
        "line 2: E1",
    ),
    (
        &[
            SEGMENT,
            "OPEN handle=0x123456789 seq=1 process=4 thread=12\n",
        ],
        "line 2: E1(handle)",
    ),
    (
        &[SEGMENT, "OPEN handle=0x44 seq=0x1 process=4 thread=12\n"],
        "line 2: E1(seq)",
    ),
    (
        &[
            SEGMENT,
            "OPEN handle=0x44 seq=1 process=4294967296 thread=12\n",
        ],
        "line 2: E1(process)",
    ),
    (
        &[
            SEGMENT,
            "SNAPSHOT seq=18446744073709551616 process=4 thread=12\n",
        ],
        "line 2: E1(seq)",
    ),
    (
        &[
            SEGMENT,
            "REF object=0x1 tag=abc seq=1 process=4 thread=12\n",
        ],
        "line 2: E1(tag)",
    ),
    (
        &[
            SEGMENT,
            "REF object=0x1 tag=0x1234567 seq=1 process=4 thread=12\n",
        ],
        "line 2: E1(tag)",
    ),
    (
        &[
            SEGMENT,
            "REF object=0x1 tag=0012345678 seq=1 process=4 thread=12\n",
        ],
        "line 2: E1(tag)",
    ),
    (
        &["segment version=65537 trace=0x7 processors=1 processor=0 number=0\n"],
        "line 1: E1(version)",
    ),
    (
        &["segment version=1 trace= processors=70000 processor=0 number=0\n"],
        "line 1: E1(trace)",
    ),
    (
        &["segment version=1 trace=7 processors=70000 processor=x number=0\n"],
        "line 1: E1(processors)",
    ),
    (
        &["segment version=1 trace=7 processors=1 processors=0 number=0\n"],
        "line 1: E1(processor)",
    ),
    (
        &["segment version=1 trace=7 processors=1 processor=0 number=4294967296\n"],
        "line 1: E1(number)",
    ),
    (&[SEGMENT, "BAD\n"], "line 2: E1"),
    (&[SEGMENT, "BAD REF\n"], "line 2: E1(handle)"),
    (
        &[SEGMENT, "DEREF object=g tag=abc seq=x\n"],
        "line 2: E1(object)",
    ),
    (&[SEGMENT, "EXIT seq=1 process=4\n"], "line 2: E1(thread)"),
    (&[OPEN], "line 1: E2"),
    (&["# a story\n", "\r\n", "  0x10"], "line 3: E2"),
    (&[SEGMENT, "  0x10\n"], "line 2: E2"),
    (&[SEGMENT, OPEN, SEGMENT, "  0x10"], "line 4: E2"),
    (
        &["segment version=3 trace=0x7 processors=1 processor=0 number=0\n"],
        "line 1: S3",
    ),
    (
        &[
            "\n",
            "segment version=1 trace=0x7 processors=65 processor=0 number=0\n",
        ],
        "line 2: S4",
    ),
    (
        &[SEGMENT, OPEN, SEGMENT, "# a story\n", OPEN, OPEN, "x"],
        "line 7: E1",
    ),
    (
        &[
            SEGMENT,
            OPEN,
            SEGMENT,
            "# a story\n",
            OPEN,
            OPEN,
            SEGMENT,
            "x",
        ],
        "line 3: S12(1)",
    ),
    (&[SEGMENT, OPEN, OPEN], "line 1: S12(1)"),
    (
        &[SEGMENT, "OPEN handle=0x3 seq=1 process=4 thread=12\n"],
        "line 1: S15(0)",
    ),
];

#[test]
fn the_first_fault_and_its_line(rt: HostRuntime) {
    for (parts, wanted) in FAULTS {
        let line = fault_line(&rt, rt.alloc(), parts);
        assert_row(&rt, *parts, line.as_str(), *wanted);
    }
}

/// What is printed of the fault of a text of these parts.
fn fault_line(rt: &impl Abort, alloc: Global, parts: &[&str]) -> String {
    let fault = fault_of(rt, alloc, parts).expect(rt, "a fault");
    format!(in alloc; "{fault}").expect(rt, "the line")
}

/// The fault of a text of these parts, if it has one.
fn fault_of(rt: &impl Abort, alloc: Global, parts: &[&str]) -> Option<TextFault> {
    encode(alloc, &joined(rt, alloc, parts)).err()
}

/// The text of these parts.
fn joined(rt: &impl Abort, alloc: Global, parts: &[&str]) -> Vec<u8> {
    let mut text = Vec::new(alloc);
    for part in parts {
        add(rt, &mut text, part, 1);
    }
    text
}

/// The parts of texts, and the line of the event that the first fault of each is about.
const EVENTS: &[(&[&str], Option<u64>)] = &[
    (&[SEGMENT, OPEN, OPEN], Some(3)),
    (
        &[SEGMENT, OPEN, "  0x1\n", "\r\n", "# OPEN\n", OPEN, OPEN],
        Some(6),
    ),
    (
        &[
            "\n", SEGMENT, OPEN, SEGMENT, "\n", OPEN, OPEN, SEGMENT, OPEN,
        ],
        Some(7),
    ),
    (
        &[
            "\u{feff}",
            SEGMENT,
            "OPEN handle=0x3 seq=1 process=4 thread=12",
        ],
        Some(2),
    ),
    (
        &[
            "# a story\n",
            "segment version=1 trace=0x7 processors=65 processor=0 number=0\n",
            OPEN,
        ],
        None,
    ),
    (&[SEGMENT, OPEN, "x"], None),
    (&[OPEN], None),
];

#[test]
fn the_line_of_an_event(rt: HostRuntime) {
    for (parts, wanted) in EVENTS {
        let text = joined(&rt, rt.alloc(), parts);
        let found = match encode(rt.alloc(), &text) {
            Err(TextFault::Line(line, fault)) => event_line(&text, line, fault),
            _ => panic!(rt; "no fault"),
        };
        assert_row(&rt, *parts, found, *wanted);
    }
}

#[test]
fn more_events_than_a_segment_holds(rt: HostRuntime) {
    let text = repeated(&rt, rt.alloc(), SEGMENT, OPEN, 4097);
    let wanted = TextFault::Line(1, LineFault::Segment(Fault::Count));
    assert_row(
        &rt,
        "4097 opens",
        encode(rt.alloc(), &text).err(),
        Some(wanted),
    );
}

#[test]
fn random_bundles(rt: HostRuntime) {
    for seed in 0..300 {
        let bytes = random_bundle(&rt, rt.alloc(), seed);
        let text = dumped(&rt, rt.alloc(), &bytes);
        let again = encoded(&rt, rt.alloc(), &text);
        assert_row(&rt, seed, again.as_slice(), bytes.as_slice());
    }
}

fn random_bundle(rt: &impl Abort, alloc: Global, seed: u64) -> Vec<u8> {
    let trace = RandomTrace {
        seed,
        processors: 1 + (seed % 3) as u16,
        segments: (seed % 4) as u32,
        events: (seed % 7) as u32,
        processes: 3,
        handles: 8,
        stacks: 12,
        least_frames: 0,
        most_frames: 8,
    };
    trace.bundle(alloc).ok().expect(rt, "a bundle")
}
