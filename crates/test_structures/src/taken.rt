//! Worked rows of sets of taken segments.

use crate::rows::{assert_is, assert_row};
use htl_event::NoMemory;
use htl_taken::{MAX_FRONT, Taken};
use std::alloc::Global;
use std::process::Abort;

/// Inserts a number, if there is memory.
fn try_insert(
    rt: &impl Abort,
    taken: &mut Taken<Global>,
    processor: u16,
    number: u32,
) -> Result<bool, NoMemory> {
    assert!(rt; processor < taken.processors() && number < MAX_FRONT);
    taken.insert(processor, number)
}

/// A set of these segments of two processors.
fn filled(rt: &impl Abort, alloc: Global, segments: &[(u16, u32)]) -> Taken<Global> {
    let mut taken = Taken::new(alloc, 2).expect(rt, "the memory");
    for (processor, number) in segments {
        try_insert(rt, &mut taken, *processor, *number).expect(rt, "the memory");
    }
    taken
}

/// The segments, of which the processor's front was moved to its reach.
fn settled(
    rt: &impl Abort,
    alloc: Global,
    segments: &[(u16, u32)],
    processor: u16,
) -> Taken<Global> {
    let mut taken = filled(rt, alloc, segments);
    taken.settle(processor);
    taken
}

/// What the set says of a processor: its front, its reach and its loose numbers.
fn is_at(
    rt: &impl Abort,
    taken: &Taken<Global>,
    processor: u16,
    front: u32,
    reach: u32,
    loose: &[u32],
) {
    assert_row(rt, processor, taken.front(processor), front);
    assert_row(rt, processor, taken.reach(processor), reach);
    assert_row(rt, processor, taken.loose(processor), loose);
}

/// Numbers of processor 0, and whether each is new after those before it.
const NUMBERS: &[(u32, bool)] = &[(0, true), (1, true), (3, true), (3, false)];

#[test]
fn a_number_is_new_once(rt: HostRuntime) {
    let mut taken = filled(&rt, rt.alloc(), &[]);
    for (number, is_new) in NUMBERS {
        assert_row(
            &rt,
            *number,
            try_insert(&rt, &mut taken, 0, *number),
            Ok(*is_new),
        );
    }
    is_at(&rt, &taken, 0, 0, 2, &[0, 1, 3]);
    assert_is(&rt, (taken.processors(), taken.len()), (2, 3));
}

const THREE: &[(u16, u32)] = &[(0, 0), (0, 1), (0, 3)];

#[test]
fn fronts_and_loose_numbers(rt: HostRuntime) {
    has_three(&rt, &settled(&rt, rt.alloc(), THREE, 0));
}

/// The set has the three, of which the first two are below the front.
fn has_three(rt: &impl Abort, taken: &Taken<Global>) {
    is_at(rt, taken, 0, 2, 2, &[3]);
    assert_is(rt, taken.len(), 3);
    assert_is(rt, taken.has(0, 1), true);
    assert_is(rt, taken.has(0, 2), false);
    assert_is(rt, taken.search(0, 3), Ok(0));
    assert_is(rt, taken.search(0, 4), Err(1));
    let copy = taken.copy().expect(rt, "the memory");
    assert_is(rt, copy.same(taken), true);
}

/// The union of two sets of two processors.
fn union(rt: &impl Abort, one: &Taken<Global>, other: &Taken<Global>) -> Taken<Global> {
    assert!(rt; one.processors() == 2 && other.processors() == 2);
    one.union(other).expect(rt, "the memory")
}

#[test]
fn a_union_of_two(rt: HostRuntime) {
    let taken = settled(&rt, rt.alloc(), THREE, 0);
    let other = filled(&rt, rt.alloc(), &[(0, 1), (0, 2), (1, 0)]);
    unites(&rt, &union(&rt, &taken, &other), &taken, &other);
}

/// The union has what either set has, and neither has all of it.
fn unites(rt: &impl Abort, both: &Taken<Global>, one: &Taken<Global>, other: &Taken<Global>) {
    is_at(rt, both, 0, 2, 4, &[2, 3]);
    is_at(rt, both, 1, 0, 1, &[0]);
    assert_is(rt, both.len(), 5);
    assert_is(rt, (both.covers(one), one.covers(both)), (true, false));
    assert_is(rt, (both.covers(other), other.covers(both)), (true, false));
}
