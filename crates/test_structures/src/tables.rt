//! Worked tables of latest events, marks and exits.

use crate::lines::events_of;
use crate::rows::assert_is;
use htl_event::{NoMemory, SharedEvent};
use htl_tables::{EventKind, Greatest, Latest, ProcessExits, Snapshots};
use std::alloc::Global;
use std::process::Abort;
use std::slice;

/// The table of the lines' events, gathered together.
fn gathered(rt: &impl Abort, alloc: Global, lines: &str) -> Latest<Global> {
    let events = events_of(rt, alloc, lines);
    Latest::of(alloc, slice::from_ref(&events)).expect(rt, "the memory")
}

/// The table of the lines' events, noted one by one.
fn noted(rt: &impl Abort, alloc: Global, lines: &str) -> Latest<Global> {
    let mut latest = Latest::new(alloc);
    for event in &events_of(rt, alloc, lines) {
        latest.note(event).expect(rt, "the memory");
    }
    latest
}

/// Lines whose one latest event is a close.
const CLOSED: &[&str] = &[
    "C 9 0x44",
    "C 9 0x44, O 4 0x44, S 10",
    "O 4 0x44, S 10, C 9 0x44",
];

#[test]
fn a_close_and_its_open(rt: HostRuntime) {
    let close = events_of(&rt, rt.alloc(), "C 9 0x44");
    for lines in CLOSED {
        let latest = noted(&rt, rt.alloc(), lines);
        is_closed(&rt, &latest, &close);
        is_same(&rt, latest.copy(), &latest);
        assert_is(&rt, gathered(&rt, rt.alloc(), lines).same(&latest), true);
    }
}

/// The close is the one latest event.
fn is_closed<'a>(rt: &impl Abort, latest: &'a Latest<Global>, close: &'a [SharedEvent]) {
    assert_is(rt, latest.rows(), close);
    assert_is(rt, latest.get(4, 0x44), close.first());
    assert_is(rt, latest.get(4, 0x47), close.first());
    assert_is(rt, latest.get(5, 0x44), None);
}

/// The table was made, and is this one.
fn is_same(rt: &impl Abort, made: Result<Latest<Global>, NoMemory>, wanted: &Latest<Global>) {
    let latest = made.expect(rt, "the memory");
    assert_is(rt, latest.same(wanted), true);
}

/// Two texts, and whether the join of their tables is the first. Of two events with one sequence
/// the one that was there stays.
const JOINED: &[(&str, &str, bool)] = &[
    ("C 9 0x44", "O 4 0x44", true),
    ("O 4 0x44", "C 9 0x44", false),
    ("O 4 0x44", "C 4 0x45", true),
];

#[test]
fn two_joined(rt: HostRuntime) {
    for (lines, others, stays) in JOINED {
        let first = gathered(&rt, rt.alloc(), lines);
        let second = gathered(&rt, rt.alloc(), others);
        let joined = if *stays { &first } else { &second };
        assert_is(&rt, first.same(&second), false);
        is_same(&rt, first.join(&second), joined);
        is_same(&rt, joined_in_place(&first, &second), joined);
    }
}

/// The join of copies of two tables, which was prepared.
fn joined_in_place(
    first: &Latest<Global>,
    second: &Latest<Global>,
) -> Result<Latest<Global>, NoMemory> {
    match first.copy()?.prepare(second.copy()?) {
        Ok(joining) => Ok(joining.join()),
        Err(_) => Err(NoMemory),
    }
}

const TEN: &[(u32, u64)] = &[(4, 10)];

/// The greatest sequences of the lines are those of `TEN`, noted, copied, joined and gathered.
fn are_ten<K: EventKind>(rt: &impl Abort, alloc: Global, lines: &str) {
    let events = events_of(rt, alloc, lines);
    let mut table: Greatest<K, Global> = Greatest::new(alloc);
    for event in &events {
        table.note(event).expect(rt, "the memory");
    }
    assert_is(rt, (table.get(4), table.get(5)), (10, 0));
    have_ten(rt, table.join(&Greatest::new(alloc)));
    have_ten(rt, table.copy());
    have_ten::<K>(rt, Greatest::of(alloc, slice::from_ref(&events)));
}

/// The table was made, and its rows are those of `TEN`.
fn have_ten<K: EventKind>(rt: &impl Abort, made: Result<Greatest<K, Global>, NoMemory>) {
    let table = made.expect(rt, "the memory");
    assert_is(rt, table.rows(), TEN);
}

#[test]
fn marks_and_last_exits(rt: HostRuntime) {
    are_ten::<Snapshots>(&rt, rt.alloc(), "S 10, exit 12, S 0 process=5, S 7");
    are_ten::<ProcessExits>(&rt, rt.alloc(), "exit 10, exit 8");
    are_ten::<ProcessExits>(&rt, rt.alloc(), "exit 8, S 12, exit 10");
}
