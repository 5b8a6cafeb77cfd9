//! The rows of an analyst that took a few segments, as bytes and back.

use htl_analyst::{Analyst, RestoreFault};
use htl_event::SharedStack;
use htl_samples::TRACE;
use htl_saved::{LoadFault, load, rows_of, save};
use htl_state::{StateRows, decode, encode};
use std::alloc::Global;
use std::process::Abort;

/// An analyst that has folded the first two segments, and holds the third.
fn analyst(rt: &impl Abort, alloc: Global) -> Analyst<Global> {
    let lines = [
        "0/0: O 1 0x44 [0x10 0x20], C 2 0x44",
        "0/1: O 3 0x48 [0x10 0x20], S 4",
        "0/3: C 9 0x48",
    ];
    let mut analyst = Analyst::new(alloc, TRACE.id, TRACE.processors).expect(rt, "an analyst");
    for line in lines {
        let segment = TRACE.segment(alloc, line).expect(rt, "a segment");
        assert!(rt; analyst.take(segment).is_ok());
    }
    analyst.compact().expect(rt, "the memory");
    analyst
}

#[test]
fn saved_analyst_is_read_as_its_rows(rt: HostRuntime) {
    let analyst = analyst(&rt, rt.alloc());
    let rows = rows_of(rt.alloc(), &analyst).expect(&rt, "rows");
    has_rows(&rt, &rows);
    let bytes = save(rt.alloc(), &analyst).expect(&rt, "bytes");
    has_rows(&rt, &decode(rt.alloc(), &bytes).expect(&rt, "a state"));
}

#[test]
fn saved_analyst_is_loaded_again(rt: HostRuntime) {
    let analyst = analyst(&rt, rt.alloc());
    let bytes = save(rt.alloc(), &analyst).expect(&rt, "bytes");
    let loaded = load(rt.alloc(), &bytes).expect(&rt, "an analyst");
    assert!(rt; loaded.same(&analyst));
}

#[test]
fn more_counts_and_events_than_segments_have_are_refused(rt: HostRuntime) {
    let analyst = analyst(&rt, rt.alloc());
    let mut rows = rows_of(rt.alloc(), &analyst).expect(&rt, "rows");
    rows.parts[0].front = 0;
    assert_eq!(rt;
        fault_of(&rt, rt.alloc(), &rows),
        Some(LoadFault::Bounds(RestoreFault::Counts(0)))
    );
    rows.parts[0].counts.clear();
    assert_eq!(rt;
        fault_of(&rt, rt.alloc(), &rows),
        Some(LoadFault::Bounds(RestoreFault::Events(0)))
    );
}

/// Why the rows aren't loaded.
fn fault_of(rt: &impl Abort, alloc: Global, rows: &StateRows) -> Option<LoadFault> {
    let bytes = encode(alloc, rows).expect(rt, "bytes");
    load(alloc, &bytes).err()
}

/// Two stacks, two counts with them, a close and an open, a mark, and one held segment.
fn has_rows(rt: &impl Abort, rows: &StateRows) {
    assert_eq!(rt; rows.trace_id, 7);
    assert_eq!(rt; rows.stacks.len(), 2);
    assert_eq!(rt;
        rows.stacks.get(1).map(SharedStack::frames),
        Some([0x10, 0x20].as_slice())
    );
    assert_eq!(rt; rows.parts.len(), 1);
    for part in &rows.parts {
        assert_eq!(rt; (part.front, part.last_sequence, part.events), (2, 4, 4));
        assert_eq!(rt; (part.counts.len(), part.latest.len()), (2, 2));
        assert_eq!(rt;
            (part.marks.len(), part.exits.len(), part.held.len()),
            (1, 0, 1)
        );
    }
}
