//! Worked segments and bundles, and their faults.

use crate::rows::assert_row;
use htl_event::{Event, Kind, MAX_FRAMES, SharedEvent, Stack};
use htl_segment::{
    Fault, HexFault, Segment, SegmentBytes, Splitter, decode, decode_bundle, decode_pieces, encode,
    from_hex,
};
use std::alloc::Global;
use std::process::Abort;

/// The empty segment.
const EMPTY: &str = "484c5331 0100 0100 0000 0000 00000000 0700000000000000 00000000 20000000";

/// The stored run: records begin at 32, 68 and 104, the frames of the last at 140, and it ends at
/// 156.
const STORED: &str = "484c5331 0100 0100 0000 0000 00000000 0700000000000000 03000000 9c000000
    0100000000000000 01 00 0000 04000000 0c000000 44000000 0000000000000000 00000000
    0200000000000000 02 00 0000 04000000 0c000000 44000000 0000000000000000 00000000
    0300000000000000 01 02 0000 04000000 0c000000 48000000 0000000000000000 00000000
    1010000000000000 0020000000000000";

/// An empty segment of processor 255 of 256, in version 2.
const WIDE: &str = "484c5331 0200 0001 ff00 0000 00000000 0700000000000000 00000000 20000000";

/// The bytes of hexadecimal digits.
fn hex(rt: &impl Abort, alloc: Global, digits: &str) -> Vec<u8> {
    from_hex(alloc, digits.as_bytes()).expect(rt, "hexadecimal digits")
}

fn write_at(bytes: &mut [u8], place: usize, written: &[u8]) {
    for (offset, byte) in written.iter().enumerate() {
        if let Some(cell) = bytes.get_mut(place.wrapping_add(offset)) {
            *cell = *byte;
        }
    }
}

/// The bytes of the texts, one after another.
fn joined(rt: &impl Abort, alloc: Global, texts: &[&str]) -> Vec<u8> {
    let mut bytes = Vec::new(alloc);
    for text in texts {
        let more = hex(rt, alloc, text);
        bytes.extend_from_slice(&more).expect(rt, "the memory");
    }
    bytes
}

/// The bytes of the texts, with each change written over them at its place.
fn changed(rt: &impl Abort, alloc: Global, texts: &[&str], changes: &[(usize, &str)]) -> Vec<u8> {
    let mut bytes = joined(rt, alloc, texts);
    for (place, change) in changes {
        write_at(&mut bytes, *place, &hex(rt, alloc, change));
    }
    bytes
}

/// An event of process 4 and thread 12 without frames.
fn event(sequence: u64, kind: Kind, handle: u32) -> Event {
    Event {
        sequence,
        kind,
        process: 4,
        thread: 12,
        handle,
        object: 0,
        tag: [0; 4],
        stack: Stack::new(),
    }
}

/// The events of the stored run.
fn stored_events(rt: &impl Abort, alloc: Global) -> Vec<Event> {
    let mut last = event(3, Kind::Opened, 0x48);
    last.stack.push(0x1010);
    last.stack.push(0x2000);
    let first = event(1, Kind::Opened, 0x44);
    list(rt, alloc, [first, event(2, Kind::Closed, 0x44), last])
}

fn list<const N: usize>(rt: &impl Abort, alloc: Global, events: [Event; N]) -> Vec<Event> {
    Vec::from_array(alloc, events).expect(rt, "the memory")
}

/// Whether these are the same events, whichever stacks they share.
fn same_events(shared: &[SharedEvent], events: &[Event]) -> bool {
    shared.len() == events.len() && shared.iter().zip(events).all(|(a, b)| same_event(a, b))
}

fn same_event(shared: &SharedEvent, event: &Event) -> bool {
    shared.sequence == event.sequence
        && shared.kind == event.kind
        && shared.process == event.process
        && shared.thread == event.thread
        && shared.handle == event.handle
        && shared.object == event.object
        && shared.tag == event.tag
        && shared.stack.frames() == event.stack.frames()
}

/// Changes of the bytes of the stored run, and the fault of what comes of them.
const STORED_FAULTS: &[(&[(usize, &str)], &str)] = &[
    (&[(0, "00")], "S2"),
    (&[(0, "00"), (4, "03")], "S2"),
    (&[(4, "03")], "S3"),
    (&[(6, "00")], "S4"),
    (&[(6, "41")], "S4"),
    (&[(8, "01")], "S5"),
    (&[(10, "01")], "S6"),
    (&[(12, "ffffffff")], "S7"),
    (&[(24, "01100000")], "S8"),
    (&[(28, "1f000000")], "S9"),
    (&[(28, "21401200")], "S9"),
    (&[(28, "ffffffff")], "S9"),
    (&[(28, "9d000000")], "S10"),
    (&[(28, "43000000")], "S11(0)"),
    (&[(28, "8b000000")], "S11(2)"),
    (&[(32, "00")], "S12(0)"),
    (&[(68, "01")], "S12(1)"),
    (&[(40, "00")], "S13(0)"),
    (&[(40, "07")], "S13(0)"),
    (&[(40, "08")], "S13(0)"),
    (&[(41, "21")], "S14(0)"),
    (&[(113, "03")], "S14(2)"),
    (&[(42, "01")], "S15(0)"),
    (&[(52, "03")], "S15(0)"),
    (&[(56, "01")], "S15(0)"),
    (&[(24, "02000000")], "S16"),
];

/// The same in version 2.
const SECOND_FAULTS: &[(&[(usize, &str)], &str)] = &[
    (&[(4, "02"), (40, "07")], "S15(0)"),
    (&[(4, "02"), (40, "08")], "S13(0)"),
    (&[(4, "02"), (41, "41")], "S14(0)"),
    (&[(4, "02"), (41, "21")], "S14(0)"),
    (&[(4, "02"), (28, "21402200")], "S9"),
    (&[(4, "02"), (28, "21401200")], "S10"),
];

/// Other texts, changes of their bytes, and the fault of what comes of them.
const OTHER_FAULTS: &[(&[&str], &[(usize, &str)], &str)] = &[
    (&[STORED, "00"], &[(28, "9d000000")], "S16"),
    (&[EMPTY], &[(12, "ffffffff")], "S7"),
    (&[EMPTY], &[(24, "00100000")], "S11(0)"),
    (&[WIDE], &[(4, "0100")], "S4"),
    (&[WIDE], &[(6, "0101")], "S4"),
];

#[test]
fn faults_of_changed_bytes(rt: HostRuntime) {
    for rows in [STORED_FAULTS, SECOND_FAULTS] {
        for (changes, wanted) in rows {
            has_fault(&rt, rt.alloc(), &[STORED], changes, wanted);
        }
    }
    for (texts, changes, wanted) in OTHER_FAULTS {
        has_fault(&rt, rt.alloc(), texts, changes, wanted);
    }
}

/// What comes of the changes has the fault of this code.
fn has_fault(
    rt: &impl Abort,
    alloc: Global,
    texts: &[&str],
    changes: &[(usize, &str)],
    wanted: &str,
) {
    let code = code_of(rt, alloc, texts, changes);
    assert_row(rt, changes, code.as_str(), wanted);
}

/// The code of the changed bytes' fault.
fn code_of(rt: &impl Abort, alloc: Global, texts: &[&str], changes: &[(usize, &str)]) -> String {
    let bytes = changed(rt, alloc, texts, changes);
    let fault = decode(alloc, &bytes).err().expect(rt, "a fault");
    format!(in alloc; "{fault}").expect(rt, "the code")
}

#[test]
fn cut_bytes(rt: HostRuntime) {
    let bytes = joined(&rt, rt.alloc(), &[STORED]);
    for len in 0..bytes.len() {
        let fault = if len < 32 { Fault::Short } else { Fault::Cut };
        let ended = if len == 0 { Ok(()) } else { Err((0, fault)) };
        is_cut(&rt, rt.alloc(), &bytes[..len], fault, ended);
    }
}

/// The bytes are no segment, and a splitter that was fed with them ends so.
fn is_cut(
    rt: &impl Abort,
    alloc: Global,
    bytes: &[u8],
    fault: Fault,
    ended: Result<(), (u64, Fault)>,
) {
    let found = (decode(alloc, bytes).err(), split(rt, alloc, bytes));
    assert_row(rt, bytes.len(), found, (Some(fault), (0, ended)));
}

/// How many segments bytes without a fault have, and what ends them.
fn split(rt: &impl Abort, alloc: Global, bytes: &[u8]) -> (usize, Result<(), (u64, Fault)>) {
    let mut splitter = Splitter::new(alloc);
    let segments = fed(rt, alloc, &mut splitter, bytes);
    (segments.len(), splitter.finish())
}

/// Texts and changes, the version, the processor and the number of the segment that they are, and
/// how many of the stored events it has.
const SEGMENTS: &[(&[&str], &[(usize, &str)], (u16, u16, u32), usize)] = &[
    (&[EMPTY], &[(4, "01")], (1, 0, 0), 0),
    (&[EMPTY], &[(12, "feffffff")], (1, 0, 0xffff_fffe), 0),
    (&[STORED], &[(4, "01")], (1, 0, 0), 3),
    (&[STORED], &[(4, "02")], (2, 0, 0), 3),
    (&[WIDE], &[(4, "02")], (2, 255, 0), 0),
];

#[test]
fn encoded_segments(rt: HostRuntime) {
    let stored = stored_events(&rt, rt.alloc());
    for (texts, changes, place, count) in SEGMENTS {
        let bytes = changed(&rt, rt.alloc(), texts, changes);
        let events = &stored[..(*count).min(stored.len())];
        is_segment(&rt, rt.alloc(), &bytes, *place, events);
    }
}

/// The bytes are those of a segment of trace 7 of this version, processor and number, with these
/// events.
fn is_segment(
    rt: &impl Abort,
    alloc: Global,
    bytes: &[u8],
    place: (u16, u16, u32),
    events: &[Event],
) {
    let segment = whole(rt, alloc, bytes);
    let found = (segment.version(), segment.processor(), segment.number());
    assert_row(rt, place, (segment.trace_id(), found), (7, place));
    let are_so = [
        same_events(segment.events(), events),
        is_encoded(rt, alloc, &segment, bytes),
        is_copied(rt, &segment),
        is_checked(rt, alloc, &segment, bytes),
    ];
    assert_row(rt, place, are_so, [true; 4]);
}

/// The segment that ends with the bytes.
fn whole(rt: &impl Abort, alloc: Global, bytes: &[u8]) -> Segment {
    let (segment, used) = decode(alloc, bytes).expect(rt, "a segment");
    assert_row(rt, "its length", used, bytes.len());
    segment
}

/// Whether the segment is written as these bytes.
fn is_encoded(rt: &impl Abort, alloc: Global, segment: &Segment, bytes: &[u8]) -> bool {
    let written = encode(alloc, segment).expect(rt, "the memory");
    written.as_slice() == bytes
}

/// Whether a copy of the segment is the same.
fn is_copied(rt: &impl Abort, segment: &Segment) -> bool {
    let copy = segment.copy().expect(rt, "the memory");
    copy.same(segment)
}

/// Whether the bytes, checked where they lie, are this segment's.
fn is_checked(rt: &impl Abort, alloc: Global, segment: &Segment, bytes: &[u8]) -> bool {
    let in_place = SegmentBytes::check(bytes).expect(rt, "a segment");
    let kept = in_place.to_segment(alloc).expect(rt, "the memory");
    in_place.processors() == segment.processors() && kept.same(segment)
}

/// The segment of the stored run's bytes with these changes.
fn decoded(rt: &impl Abort, alloc: Global, changes: &[(usize, &str)]) -> Segment {
    let bytes = changed(rt, alloc, &[STORED], changes);
    decode(alloc, &bytes).expect(rt, "a segment").0
}

#[test]
fn two_versions_differ(rt: HostRuntime) {
    let first = decoded(&rt, rt.alloc(), &[]);
    let second = decoded(&rt, rt.alloc(), &[(4, "02")]);
    assert!(rt; !first.same(&second));
}

const HEXADECIMAL: &[(&str, Result<&[u8], HexFault>)] = &[
    ("4g", Err(HexFault::BadDigit(1))),
    ("48 4", Err(HexFault::Odd)),
    ("4\t8", Err(HexFault::BadDigit(1))),
    ("4 8\r\n", Ok(&[0x48])),
    ("aF 09", Ok(&[0xaf, 0x09])),
    ("", Ok(&[])),
];

#[test]
fn hexadecimal(rt: HostRuntime) {
    for (text, wanted) in HEXADECIMAL {
        match from_hex(rt.alloc(), text.as_bytes()) {
            Ok(bytes) => assert_row(&rt, *text, Ok(bytes.as_slice()), *wanted),
            Err(fault) => assert_row(&rt, *text, Err(fault), *wanted),
        }
    }
    let fault = format!(in rt.alloc(); "{}", HexFault::BadDigit(1)).expect(&rt, "the code");
    assert!(rt; fault.as_str() == "H1(1)");
}

#[test]
fn built_segments(rt: HostRuntime) {
    let stored = decoded(&rt, rt.alloc(), &[]);
    let events = stored_events(&rt, rt.alloc());
    let built = Segment::build(rt.alloc(), 7, 1, 0, 0, events);
    assert!(rt; built.is_ok_and(|segment| segment.same(&stored)));
}

/// Building a segment at the place is refused with the fault. All the events are handed back.
fn is_refused(
    rt: &impl Abort,
    alloc: Global,
    place: (u16, u16, u32),
    events: Vec<Event>,
    fault: Fault,
) {
    let (processors, processor, number) = place;
    let count = events.len();
    let built = Segment::build(alloc, 7, processors, processor, number, events);
    let (found, events) = built.err().expect(rt, "a refusal");
    assert_row(rt, place, (found, events.len()), (fault, count));
}

/// The number of processors, the processor and the number.
const PLACES: &[((u16, u16, u32), Fault)] = &[
    ((0, 0, 0), Fault::Processors),
    ((65, 0, 0), Fault::Processors),
    ((1, 1, 0), Fault::Processor),
    ((1, 0, 0xffff_ffff), Fault::Number),
];

#[test]
fn places_that_no_segment_has(rt: HostRuntime) {
    for (place, fault) in PLACES {
        let events = stored_events(&rt, rt.alloc());
        is_refused(&rt, rt.alloc(), *place, events, *fault);
    }
}

/// Building a segment of one processor is refused with the fault.
fn are_refused(rt: &impl Abort, alloc: Global, events: Vec<Event>, fault: Fault) {
    is_refused(rt, alloc, (1, 0, 0), events, fault);
}

/// The same of one event.
fn event_is_refused(rt: &impl Abort, alloc: Global, event: Event, fault: Fault) {
    are_refused(rt, alloc, list(rt, alloc, [event]), fault);
}

#[test]
fn events_that_no_segment_has(rt: HostRuntime) {
    let alloc = rt.alloc();
    event_is_refused(&rt, alloc, event(0, Kind::Snapshot, 0), Fault::Sequence(0));
    event_is_refused(&rt, alloc, event(1, Kind::Exited, 0), Fault::Kind(0));
    event_is_refused(&rt, alloc, deep_event(), Fault::Frames(0));
    event_is_refused(&rt, alloc, event(1, Kind::Opened, 3), Fault::Field(0));
}

#[test]
fn lists_that_no_segment_has(rt: HostRuntime) {
    are_refused(&rt, rt.alloc(), too_many(&rt, rt.alloc()), Fault::Count);
    let twice = [event(1, Kind::Opened, 0x44), event(1, Kind::Closed, 0x44)];
    are_refused(
        &rt,
        rt.alloc(),
        list(&rt, rt.alloc(), twice),
        Fault::Sequence(1),
    );
}

/// A segment of an event with as many frames as a stack has room for.
fn deepest(rt: &impl Abort, alloc: Global) -> Segment {
    let events = list(rt, alloc, [deep_event()]);
    let built = Segment::build2(alloc, 7, 1, 0, 0, events);
    built.ok().expect(rt, "a segment")
}

#[test]
fn deepest_stack(rt: HostRuntime) {
    assert!(rt; !deep_event().stack.push(64));
    let segment = deepest(&rt, rt.alloc());
    assert!(rt; is_copied(&rt, &segment));
    let bytes = encode(rt.alloc(), &segment).expect(&rt, "the memory");
    assert!(rt; bytes.len() == 580 && bytes[28..32] == [0x44, 2, 0, 0]);
    assert!(rt; whole(&rt, rt.alloc(), &bytes).same(&segment));
}

/// Opens of stacks that come again and again, so many of them.
fn repeating(rt: &impl Abort, alloc: Global, stacks: u64) -> Vec<Event> {
    let mut events = Vec::new(alloc);
    for place in 0..2048u64 {
        let number = place % stacks.max(1);
        let mut next = event(place + 1, Kind::Opened, 0x44);
        for frame in 0..number % 7 {
            next.stack.push(number + frame);
        }
        events.push(next).expect(rt, "the memory");
    }
    events
}

/// A cache of stacks begins with a few cells, of which each stack may have two: many stacks push
/// one another out, and the cache is made larger.
#[test]
fn stacks_through_two_cells(rt: HostRuntime) {
    for stacks in [7, 60, 1500] {
        are_kept(&rt, rt.alloc(), stacks);
    }
}

/// A segment of so many stacks has its events, and so has what is read from its bytes.
fn are_kept(rt: &impl Abort, alloc: Global, stacks: u64) {
    let events = repeating(rt, alloc, stacks);
    let built = Segment::build(alloc, 7, 1, 0, 0, repeating(rt, alloc, stacks));
    let segment = built.ok().expect(rt, "a segment");
    let read = read_back(rt, alloc, &segment);
    let are_same = [
        same_events(segment.events(), &events),
        read.same(&segment),
        same_events(read.events(), &events),
    ];
    assert_row(rt, stacks, are_same, [true; 3]);
}

/// The segment that is read from this one's bytes.
fn read_back(rt: &impl Abort, alloc: Global, segment: &Segment) -> Segment {
    let bytes = encode(alloc, segment).expect(rt, "the memory");
    let found = SegmentBytes::check(&bytes).expect(rt, "a segment");
    found.to_segment(alloc).expect(rt, "the memory")
}

/// The bytes of an empty segment, which ends at 32, and of the stored run after it.
fn bundle(rt: &impl Abort, alloc: Global) -> Vec<u8> {
    joined(rt, alloc, &[EMPTY, STORED])
}

/// Whether these are the bundle's two segments.
fn are_of_bundle(rt: &impl Abort, alloc: Global, segments: &[Segment]) -> bool {
    let whole = decode_bundle(alloc, &bundle(rt, alloc)).expect(rt, "a bundle");
    whole.len() == 2
        && segments.len() == 2
        && segments
            .iter()
            .zip(&whole)
            .all(|(one, other)| one.same(other))
}

#[test]
fn a_bundle_of_nothing(rt: HostRuntime) {
    let segments = decode_bundle(rt.alloc(), &[]).expect(&rt, "no segments");
    assert!(rt; segments.is_empty());
}

#[test]
fn a_bundle_in_three_pieces(rt: HostRuntime) {
    let bundle = bundle(&rt, rt.alloc());
    assert_eq!(rt; bundle.len(), 188);
    let (empty, stored) = bundle.split_at(32);
    let (front, last) = empty.split_at(31);
    let mut splitter = Splitter::new(rt.alloc());
    for (piece, count) in [(front, 0), (last, 1), (stored, 1)] {
        let segments = fed(&rt, rt.alloc(), &mut splitter, piece);
        assert_row(&rt, piece.len(), segments.len(), count);
    }
    assert!(rt; splitter.fed() == 188 && splitter.finish() == Ok(()));
}

#[test]
fn pieces_of_a_bundle(rt: HostRuntime) {
    let bundle = bundle(&rt, rt.alloc());
    assert_eq!(rt; bundle.len(), 188);
    let (empty, stored) = bundle.split_at(32);
    let (front, last) = empty.split_at(31);
    let joined = decode_pieces(rt.alloc(), &[front, last, stored]).expect(&rt, "a bundle");
    assert!(rt; are_of_bundle(&rt, rt.alloc(), &joined));
}

/// The segments of bytes without a fault that are fed one by one.
fn fed_by_bytes(rt: &impl Abort, alloc: Global, bytes: &[u8]) -> Vec<Segment> {
    let mut splitter = Splitter::new(alloc);
    let mut segments = Vec::new(alloc);
    for piece in bytes.chunks(1) {
        let mut more = fed(rt, alloc, &mut splitter, piece);
        segments.append(&mut more).expect(rt, "the memory");
    }
    assert!(rt; splitter.finish() == Ok(()));
    segments
}

#[test]
fn a_bundle_byte_by_byte(rt: HostRuntime) {
    let segments = fed_by_bytes(&rt, rt.alloc(), &bundle(&rt, rt.alloc()));
    assert!(rt; are_of_bundle(&rt, rt.alloc(), &segments));
}

/// Why a splitter refuses the bytes, twice, and how it ends.
fn refusals(alloc: Global, bytes: &[u8]) -> [Option<(u64, Fault)>; 3] {
    let mut splitter = Splitter::new(alloc);
    [
        splitter.feed(alloc, bytes).err(),
        splitter.feed(alloc, bytes).err(),
        splitter.finish().err(),
    ]
}

#[test]
fn a_fault_is_reported_for_good(rt: HostRuntime) {
    let bytes = changed(&rt, rt.alloc(), &[EMPTY, STORED], &[(100, "01")]);
    let fault = Some((32, Fault::Sequence(1)));
    assert_row(
        &rt,
        "at once",
        decode_bundle(rt.alloc(), &bytes).err(),
        fault,
    );
    assert_row(&rt, "fed", refusals(rt.alloc(), &bytes), [fault; 3]);
}

#[test]
fn bytes_that_end_inside_a_segment(rt: HostRuntime) {
    let bundle = bundle(&rt, rt.alloc());
    assert_eq!(rt; bundle.len(), 188);
    for (len, fault) in [(40, Fault::Short), (70, Fault::Cut)] {
        let found = split(&rt, rt.alloc(), &bundle[..len]);
        assert_row(&rt, len, found, (1, Err((32, fault))));
    }
}

/// The segments that a piece without a fault completes.
fn fed(rt: &impl Abort, alloc: Global, splitter: &mut Splitter, piece: &[u8]) -> Vec<Segment> {
    assert!(rt; splitter.fed() < 1_000_000 && piece.len() < 1_000_000);
    splitter.feed(alloc, piece).expect(rt, "no fault")
}

/// One event more than a segment has room for.
fn too_many(rt: &impl Abort, alloc: Global) -> Vec<Event> {
    let mut events = Vec::new(alloc);
    for place in 0..4097u64 {
        let next = event(place + 1, Kind::Opened, 0x44);
        events.push(next).expect(rt, "the memory");
    }
    events
}

/// An open with as many frames as a stack has room for.
fn deep_event() -> Event {
    let mut event = event(1, Kind::Opened, 0x44);
    for address in 0..MAX_FRAMES {
        event.stack.push(address as u64);
    }
    event
}
