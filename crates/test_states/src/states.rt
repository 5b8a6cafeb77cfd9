//! A worked state, and each fault.

use htl_event::{Count, Kind, SharedStack, Slot};
use htl_segment::from_hex;
use htl_state::{CountRow, LatestRow, PartRows, StateRows, decode, encode};
use std::alloc::Global;
use std::fmt::Debug;
use std::process::Abort;

/// The header of a state of trace 7 and one processor.
const HEADER: &str = "484c4131 0100 0000 0700000000000000 0100000000000000";

/// Two stacks: none, and 0x1010 that 0x2000 called.
const STACKS: &str = "0200000000000000 00 02 1010000000000000 0020000000000000";

/// Front 1, the greatest sequence 4, and four events.
const FRONT: &str = "01000000 0400000000000000 0400000000000000";

/// A reference of an object, an open and a close without a stack, and an open with the second stack.
const COUNTS: &str = "0300000000000000
    00000000 01000000 00100000 00a0ffff 436f7079 0100000000000000 0000000000000000
    00000000 02000000 04000000 00000000 00000000 0100000000000000 0100000000000000
    01000000 02000000 04000000 00000000 00000000 0100000000000000 0000000000000000";

/// A close of 0x44 and an open of 0x48.
const LATEST: &str = "0200000000000000
    0200000000000000 02000000 04000000 0c000000 44000000 00000000
    0300000000000000 01000000 04000000 0c000000 48000000 01000000";

/// No marks, and an exit of process 8 at sequence 4.
const MOMENTS: &str = "0000000000000000 0100000000000000 08000000 0400000000000000";

/// Segment 2, which is empty.
const HELD: &str = "0100000000000000
    484c5331 0100 0100 0000 0000 02000000 0700000000000000 00000000 20000000";

/// The length, 334, and the checksum.
const END: &str = "4e01000000000000 2569a8dc77d8e903";

/// A list without rows.
const EMPTY: &str = "0000000000000000";

/// The bytes of the texts, one after another.
fn joined(rt: &impl Abort, alloc: Global, texts: &[&str]) -> Vec<u8> {
    let mut bytes = Vec::new(alloc);
    for text in texts {
        let more = from_hex(alloc, text.as_bytes()).expect(rt, "hexadecimal digits");
        bytes.extend_from_slice(&more).expect(rt, "the memory");
    }
    bytes
}

/// The bytes of the texts, and behind them their length and checksum.
fn sealed(rt: &impl Abort, alloc: Global, texts: &[&str]) -> Vec<u8> {
    let mut bytes = joined(rt, alloc, texts);
    let len = (bytes.len() as u64).wrapping_add(16);
    bytes
        .extend_from_slice(&len.to_le_bytes())
        .expect(rt, "the memory");
    let sum = sum_of(&bytes);
    bytes
        .extend_from_slice(&sum.to_le_bytes())
        .expect(rt, "the memory");
    bytes
}

fn sum_of(bytes: &[u8]) -> u64 {
    let mut sum = 0_u64;
    for byte in bytes {
        sum = sum
            .wrapping_mul(0x9e37_79b9_7f4a_7c15)
            .wrapping_add(u64::from(*byte));
    }
    sum
}

fn assert_row<R: Debug + Drop, T: Debug + PartialEq + Drop>(
    rt: &impl Abort,
    row: R,
    found: T,
    wanted: T,
) {
    assert_eq!(rt; found, wanted, "of {row:?}");
}

#[test]
fn worked_state_is_read_and_written(rt: HostRuntime) {
    let texts = [HEADER, STACKS, FRONT, COUNTS, LATEST, MOMENTS, HELD, END];
    let bytes = joined(&rt, rt.alloc(), &texts);
    let rows = decode(rt.alloc(), &bytes).expect(&rt, "the state");
    has_rows(&rt, &rows);
    let written = encode(rt.alloc(), &rows).expect(&rt, "the memory");
    assert!(rt; written == bytes);
}

fn has_rows(rt: &impl Abort, rows: &StateRows) {
    assert_eq!(rt; rows.trace_id, 7);
    assert_eq!(rt; rows.stacks.len(), 2);
    assert_row(
        rt,
        "stacks",
        rows.stacks.get(1).map(SharedStack::frames),
        Some(&[0x1010, 0x2000]),
    );
    for part in &rows.parts {
        has_part(rt, part);
    }
    assert_eq!(rt; rows.parts.len(), 1);
}

fn has_part(rt: &impl Abort, part: &PartRows) {
    assert_eq!(rt; (part.front, part.last_sequence, part.events), (1, 4, 4));
    let tagged = Slot::Tagged {
        object: 0xffff_a000_0000_1000,
        tag: *b"Copy",
    };
    let handles = Slot::Handles { process: 4 };
    assert_row(
        rt,
        "counts",
        part.counts.as_slice(),
        &[
            count(0, tagged, 1, 0),
            count(0, handles, 1, 1),
            count(1, handles, 1, 0),
        ],
    );
    assert_row(
        rt,
        "latest",
        part.latest.as_slice(),
        &[
            latest(2, Kind::Closed, 0x44, 0),
            latest(3, Kind::Opened, 0x48, 1),
        ],
    );
    assert_row(rt, "marks", part.marks.as_slice(), &[]);
    assert_row(rt, "exits", part.exits.as_slice(), &[(8, 4)]);
    for segment in &part.held {
        assert_eq!(rt; segment.number(), 2);
    }
    assert_eq!(rt; part.held.len(), 1);
}

fn count(stack: u32, slot: Slot, plus: u64, minus: u64) -> CountRow {
    CountRow {
        stack,
        slot,
        count: Count { plus, minus },
    }
}

fn latest(sequence: u64, kind: Kind, handle: u32, stack: u32) -> LatestRow {
    LatestRow {
        sequence,
        kind,
        process: 4,
        thread: 12,
        handle,
        stack,
    }
}

/// A code, an offset, and the texts of bytes that have this fault there, whose end is right.
const FAULTS: &[(&str, u64, &[&str])] = &[
    (
        "F2",
        0,
        &["484c5331 0100 0000 0700000000000000 0100000000000000"],
    ),
    (
        "F3",
        4,
        &["484c4131 0200 0000 0700000000000000 0100000000000000"],
    ),
    (
        "F4",
        6,
        &["484c4131 0100 0001 0700000000000000 0100000000000000"],
    ),
    (
        "F5",
        16,
        &["484c4131 0100 0000 0700000000000000 0000000000000000"],
    ),
    (
        "F5",
        16,
        &["484c4131 0100 0000 0700000000000000 0101000000000000"],
    ),
    // A list without its number of rows, or with more than there is room for.
    ("F8", 24, &[HEADER]),
    ("F8", 24, &[HEADER, "0300000000000000 00 00"]),
    (
        "F8",
        70,
        &[HEADER, STACKS, FRONT, "0200000000000000", "00000000"],
    ),
    // A stack that is cut, too deep, and not above that before it.
    ("F9", 32, &[HEADER, "0100000000000000 01 00"]),
    ("F9", 32, &[HEADER, "0100000000000000 41"]),
    ("F9", 33, &[HEADER, "0200000000000000 00 00"]),
    ("F10", 32, &[HEADER, EMPTY, "01000000"]),
    // A count of no stack of the table, of no slot, and of zeros.
    (
        "F11",
        78,
        &[
            HEADER,
            STACKS,
            FRONT,
            "0100000000000000
        02000000 02000000 04000000 00000000 00000000 0100000000000000 0000000000000000",
        ],
    ),
    (
        "F11",
        78,
        &[
            HEADER,
            STACKS,
            FRONT,
            "0100000000000000
        00000000 02000000 04000000 01000000 00000000 0100000000000000 0000000000000000",
        ],
    ),
    (
        "F11",
        78,
        &[
            HEADER,
            STACKS,
            FRONT,
            "0100000000000000
        00000000 02000000 04000000 00000000 00000000 0000000000000000 0000000000000000",
        ],
    ),
    // A latest event of no handle, and one that isn't above that before it.
    (
        "F12",
        86,
        &[
            HEADER,
            STACKS,
            FRONT,
            EMPTY,
            "0100000000000000
        0200000000000000 02000000 04000000 0c000000 03000000 00000000",
        ],
    ),
    (
        "F12",
        114,
        &[
            HEADER,
            STACKS,
            FRONT,
            EMPTY,
            "0200000000000000
        0200000000000000 02000000 04000000 0c000000 44000000 00000000
        0300000000000000 01000000 04000000 0c000000 47000000 00000000",
        ],
    ),
    // A mark without a sequence.
    (
        "F13",
        94,
        &[
            HEADER,
            STACKS,
            FRONT,
            EMPTY,
            EMPTY,
            "0100000000000000
        08000000 0000000000000000",
        ],
    ),
    // A segment that isn't above the front, and one of another trace.
    (
        "F14",
        110,
        &[
            HEADER,
            STACKS,
            FRONT,
            EMPTY,
            EMPTY,
            EMPTY,
            EMPTY,
            "0100000000000000
        484c5331 0100 0100 0000 0000 01000000 0700000000000000 00000000 20000000",
        ],
    ),
    (
        "F14",
        110,
        &[
            HEADER,
            STACKS,
            FRONT,
            EMPTY,
            EMPTY,
            EMPTY,
            EMPTY,
            "0100000000000000
        484c5331 0100 0100 0000 0000 02000000 0800000000000000 00000000 20000000",
        ],
    ),
    (
        "F15",
        110,
        &[
            HEADER, STACKS, FRONT, EMPTY, EMPTY, EMPTY, EMPTY, EMPTY, "00",
        ],
    ),
];

#[test]
fn faults_of_bytes(rt: HostRuntime) {
    for (code, offset, texts) in FAULTS {
        let bytes = sealed(&rt, rt.alloc(), texts);
        has_fault(&rt, rt.alloc(), &bytes, (code, *offset));
    }
    has_fault(
        &rt,
        rt.alloc(),
        &joined(&rt, rt.alloc(), &[HEADER]),
        ("F1", 0),
    );
    let cut = joined(&rt, rt.alloc(), &[HEADER, EMPTY, "2900000000000000", EMPTY]);
    has_fault(&rt, rt.alloc(), &cut, ("F6", 32));
    let changed = joined(&rt, rt.alloc(), &[HEADER, EMPTY, "3000000000000000", EMPTY]);
    has_fault(&rt, rt.alloc(), &changed, ("F7", 40));
}

fn has_fault(rt: &impl Abort, alloc: Global, bytes: &[u8], wanted: (&str, u64)) {
    let error = decode(alloc, bytes).err().expect(rt, "a fault");
    let fault = error.fault;
    let code = format!(in alloc; "{fault}").expect(rt, "the code");
    assert_row(rt, wanted, (code.as_str(), error.offset), wanted);
}
