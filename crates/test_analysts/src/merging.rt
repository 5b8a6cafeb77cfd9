//! Fronts, and what analysts take over from one another.

use crate::analysts::{
    TWO_PROCESSORS, compact, compacted, has_numbers, has_sizes, is_absorbed, merge, take, take_all,
    taken,
};
use crate::rows::{assert_is, assert_list, assert_sequences};
use htl_analyst::{Analyst, Took};
use htl_event::Count;
use htl_samples::TRACE;
use std::alloc::Global;
use std::process::Abort;

/// Six segments with a reference each.
const SIX: [&str; 6] = [
    "0/0: R 1 0x1000 Lky8",
    "0/1: R 2 0x1000 Lky8",
    "0/2: R 3 0x1000 Lky8",
    "0/3: R 4 0x1000 Lky8",
    "0/4: R 5 0x1000 Lky8",
    "0/5: R 6 0x1000 Lky8",
];

const OPEN: &str = "0/0: O 1 0x44";

/// The close of what is opened, on another processor.
const CLOSE: &str = "1/0: C 2 0x44";

/// The least number that no segment has, and no segment before it, is 0xffffffff.
const LAST: &str = "0/0xfffffffe:";

/// The segment of a line was taken before.
fn is_repeated(rt: &impl Abort, alloc: Global, analyst: &mut Analyst<Global>, line: &str) {
    assert_is(rt, take(rt, alloc, analyst, line), Ok(Took::Repeat));
}

#[test]
fn an_empty_segment(rt: HostRuntime) {
    let mut analyst = taken(&rt, rt.alloc(), TRACE, &["0/0:"]);
    has_sizes(&rt, &analyst, (0, 1, 1));
    compact(&rt, &mut analyst);
    has_sizes(&rt, &analyst, (1, 0, 1));
}

#[test]
fn the_last_segment_number(rt: HostRuntime) {
    let mut analyst = compacted(&rt, rt.alloc(), TRACE, &[LAST]);
    has_sizes(&rt, &analyst, (0, 1, 1));
    assert_is(
        &rt,
        (analyst.has(0, 0xffff_fffe), analyst.has(0, 0)),
        (true, false),
    );
    is_repeated(&rt, rt.alloc(), &mut analyst, LAST);
}

/// It has folded the first three, and holds two after a gap.
fn behind(rt: &impl Abort, alloc: Global) -> Analyst<Global> {
    let mut analyst = compacted(rt, alloc, TRACE, &SIX[..3]);
    take_all(rt, alloc, &mut analyst, &SIX[4..]);
    analyst
}

#[test]
fn merge_over_a_gap(rt: HostRuntime) {
    let mut analyst = compacted(&rt, rt.alloc(), TRACE, &SIX[..5]);
    has_sizes(&rt, &analyst, (5, 0, 5));
    merge(&rt, &mut analyst, &behind(&rt, rt.alloc()));
    has_sizes(&rt, &analyst, (5, 1, 6));
    compact(&rt, &mut analyst);
    has_sizes(&rt, &analyst, (6, 0, 6));
}

/// What holds two after a gap takes over what closes it, and is compacted.
fn closed_from_behind(rt: &impl Abort, alloc: Global) -> Analyst<Global> {
    let mut analyst = behind(rt, alloc);
    has_sizes(rt, &analyst, (3, 2, 5));
    merge(rt, &mut analyst, &compacted(rt, alloc, TRACE, &SIX[..5]));
    compact(rt, &mut analyst);
    analyst
}

#[test]
fn merge_from_behind_a_gap(rt: HostRuntime) {
    let analyst = closed_from_behind(&rt, rt.alloc());
    assert_list(&rt, analyst.tags(rt.alloc(), 0x1000), SIX_TIMES);
    are_same(&rt, &analyst, &compacted(&rt, rt.alloc(), TRACE, &SIX));
}

const SIX_TIMES: &[([u8; 4], Count)] = &[(*b"Lky8", Count { plus: 6, minus: 0 })];

/// Both fold and hold the same.
fn are_same(rt: &impl Abort, one: &Analyst<Global>, other: &Analyst<Global>) {
    assert_is(rt, one.same(other), true);
}

/// It holds two of even numbers.
fn even(rt: &impl Abort, alloc: Global) -> Analyst<Global> {
    taken(rt, alloc, TRACE, &[SIX[0], SIX[2]])
}

/// It holds two of odd numbers.
fn odd(rt: &impl Abort, alloc: Global) -> Analyst<Global> {
    taken(rt, alloc, TRACE, &[SIX[1], SIX[3]])
}

/// The even segments and then the odd ones, merged by reference.
fn even_and_odd(rt: &impl Abort, alloc: Global) -> Analyst<Global> {
    let mut analyst = even(rt, alloc);
    merge(rt, &mut analyst, &odd(rt, alloc));
    has_sizes(rt, &analyst, (0, 4, 4));
    compact(rt, &mut analyst);
    analyst
}

/// The odd segments and then the even ones, merged by moves.
fn odd_and_even(rt: &impl Abort, alloc: Global) -> Analyst<Global> {
    let mut analyst = odd(rt, alloc);
    assert_is(rt, is_absorbed(&mut analyst, even(rt, alloc)), true);
    compact(rt, &mut analyst);
    analyst
}

#[test]
fn gaps_close_each_other(rt: HostRuntime) {
    let one = even_and_odd(&rt, rt.alloc());
    has_sizes(&rt, &one, (4, 0, 4));
    are_same(&rt, &one, &odd_and_even(&rt, rt.alloc()));
}

#[test]
fn repeats_count_once(rt: HostRuntime) {
    let mut analyst = taken(&rt, rt.alloc(), TRACE, &[OPEN]);
    for _ in 0..2 {
        is_repeated(&rt, rt.alloc(), &mut analyst, OPEN);
        assert_is(&rt, analyst.taken(), 1);
        compact(&rt, &mut analyst);
    }
}

#[test]
fn an_analyst_merged_with_its_own_copy(rt: HostRuntime) {
    let mut analyst = compacted(&rt, rt.alloc(), TRACE, &[OPEN]);
    let copy = analyst.copy().expect(&rt, "the memory");
    merge(&rt, &mut analyst, &copy);
    are_same(&rt, &analyst, &copy);
    assert_sequences(&rt, analyst.outstanding(rt.alloc(), 4), &[1]);
}

#[test]
fn two_processors(rt: HostRuntime) {
    let one = compacted(&rt, rt.alloc(), TWO_PROCESSORS, &[OPEN, CLOSE]);
    has_numbers(&rt, &one, (1, 1, 0, 2));
    let other = compacted(&rt, rt.alloc(), TWO_PROCESSORS, &[CLOSE, OPEN]);
    are_same(&rt, &one, &other);
}
