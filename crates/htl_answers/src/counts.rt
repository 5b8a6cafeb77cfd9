//! The prefix tally over parts.

ghost use Rattle.std.specs.Prelude.{◌≡◌, ◌+◌, ◌<◌, ◌≤◌, ◌^◌, [], ◌∷◌, List, true, length, map};
ghost use Rattle.std.specs.Prelude.{flat_map, reverse, nat_eq};
ghost use Rattle.std.specs.Ordering.{nat_cmp};
ghost use Rattle.std.specs.Cmp.Lexicographic.{slice_cmp};
ghost use Rattle.std.specs.List.{starts_with};
ghost use Rattle.htl_event.specs.Events.{Event};
ghost use Rattle.htl_event.specs.Stacks.{outer};
ghost use Rattle.htl_event.specs.Tallies.{under, count_where, plus_count, total_of};
ghost use Rattle.htl_answers.specs.Parts.{AreEventsOf, size_of_all};
ghost use Rattle.htl_answers.specs.Counts.{one_count};

use crate::part::Part;
use htl_event::{Count, EventList, SharedEvent, SharedStack, Sign, Slot};
use std::cmp::Ordering;

/// The count of a slot that never came.
pub(crate) const ZERO: Count = Count { plus: 0, minus: 0 };

/// How often the slot came with a stack that begins with the path, read from the outermost call.
pub fn under<P: Part>(parts: &[P], path: &[u64], slot: Slot) -> Count
    requires { size_of_all (map P.contents parts.now) < 2 ^ 64 }
    ensures { (events : List Event) → AreEventsOf (map P.contents parts.now) events
        → result ≡ under events path.now slot }
{
    let mut sum = ZERO;
    for part in parts {
        let folded = part.tree().under(path, slot);
        let held = under_held(part.held(), path, slot);
        sum = sum_of(sum, sum_of(folded, held));
    }
    sum
}

/// Both counts added up, each sign on its own.
pub(crate) fn sum_of(one: Count, other: Count) -> Count
    requires { total_of one + total_of other < 2 ^ 64 }
    ensures { result ≡ plus_count one other }
{
    Count {
        plus: one.plus + other.plus,
        minus: one.minus + other.minus,
    }
}

/// As `under`, over lists of events.
fn under_held<E: EventList>(lists: &[E], path: &[u64], slot: Slot) -> Count
    requires { length (flat_map E.events_of lists.now) < 2 ^ 64 }
    ensures value { result ≡ under (flat_map E.events_of lists.now) path.now slot }
    ensures few { total_of result ≤ length (flat_map E.events_of lists.now) }
{
    let mut sum = ZERO;
    for list in lists {
        sum = sum_of(sum, under_events(list.events(), path, slot));
    }
    sum
}

/// As `under`, over a list of events.
fn under_events(events: &[SharedEvent], path: &[u64], slot: Slot) -> Count
    requires { length events.now < 2 ^ 64 }
    ensures value { result ≡ under events.now path.now slot }
    ensures few { total_of result ≤ length events.now }
{
    let mut sum = ZERO;
    for event in events {
        sum = sum_of(sum, under_event(event, path, slot));
    }
    sum
}

/// As `under`, of one event.
fn under_event(event: &SharedEvent, path: &[u64], slot: Slot) -> Count
    ensures value { result ≡ under (event.now ∷ []) path.now slot }
    ensures few { total_of result ≤ 1 }
{
    if !begins_with(&event.stack, path) {
        return ZERO;
    }
    count_of_event(event, slot)
}

/// One on the event's side if the event is counted under the slot, or else zero.
pub(crate) fn count_of_event(event: &SharedEvent, slot: Slot) -> Count
    ensures value { result ≡ count_where (λ e. true) (event.now ∷ []) slot }
    ensures few { total_of result ≤ 1 }
{
    match event.slot() {
        Some((its, sign)) if its == slot => one(sign),
        _ => ZERO,
    }
}

/// The count that is one on this side.
pub(crate) fn one(sign: Sign) -> Count
    ensures { result ≡ one_count sign }
{
    match sign {
        Sign::Plus => Count { plus: 1, minus: 0 },
        Sign::Minus => Count { plus: 0, minus: 1 },
    }
}

/// Whether the stack begins with the path, read from the outermost call.
fn begins_with(stack: &SharedStack, path: &[u64]) -> bool
    ensures { result ≡ starts_with nat_eq (outer stack.now) path.now }
{
    let frames = stack.frames();
    if frames.len() < path.len() {
        return false;
    }
    compare(path, &frames[frames.len() - path.len()..]).is_eq()
}

/// Compares the path with frames, read from the outermost.
fn compare(path: &[u64], frames: &[u64]) -> Ordering
    ensures { result ≡ slice_cmp nat_cmp path.now (reverse frames.now) }
{
    path.iter().cmp(frames.iter().rev())
}
