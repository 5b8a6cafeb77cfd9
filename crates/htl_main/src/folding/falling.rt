//! Which segment of a processor falls once an analyst takes one more. Nothing here takes memory.

ghost use Rattle.std.specs.Prelude.{◌≡◌, ◌≢◌, ◌≤◌, [], ℕ, Contains, MatchOption, true};
ghost use Rattle.std.specs.List.Sorted.{IsNonDecreasingBy};
ghost use Rattle.htl_event.specs.Handles.{IsGreatestSequence};
ghost use Rattle.htl_segment.specs.Content.{Content, Fits};
ghost use Rattle.htl_analyst.specs.Right.{IsState};
ghost use Rattle.htl_analyst.specs.States.{held_at};
ghost use Rattle.htl_main.specs.Folders.{AreHeld, FallsAmong, HasWithin, IsEventOf, IsFirstToFall};
ghost use Rattle.htl_main.specs.Folders.{IsLeastIfAny, IsNearest, IsNewTo, IsSplitAt};
ghost use Rattle.htl_main.specs.Folding.{Fall};

use htl_analyst::Analyst;
use htl_segment::Segment;
use std::alloc::Global;

/// The least number in its processor of a segment that falls once this one is taken, if this one is
/// new to the analyst. It is this one's own, or that of the next one with an event.
pub(crate) fn first_to_fall(analyst: &Analyst<Global>, segment: &Segment) -> Option<u32>
    requires { Fits segment.now }
    ensures { let held = held_at analyst.now.parts segment.now.processor in
        ((h k : Content) → Contains held h → Contains held k → Fall h k → ⊥)
        → IsFirstToFall analyst.now segment.now result }
{
    if !is_new_to(analyst, segment) {
        return None;
    }
    let processor = segment.processor();
    let part = &analyst.parts()[usize::from(processor)];
    first_among(part.held(), analyst.last_folded(processor), segment)
}

/// Whether the segment is of the analyst's trace, and its key isn't taken.
fn is_new_to(analyst: &Analyst<Global>, segment: &Segment) -> bool
    ensures yes { result ≡ true → IsNewTo analyst.now segment.now }
    ensures no { IsNewTo analyst.now segment.now → result ≡ true }
    ensures state { result ≡ true → IsState analyst.now }
{
    segment.trace_id() == analyst.trace_id()
        && segment.processors() == analyst.processors()
        && !analyst.has(segment.processor(), segment.number())
}

/// The same among held segments of its processor, of which none has its number, and others below
/// them with sequences up to the floor. As none of them falls, the nearest ones tell it.
fn first_among(held: &[Segment], floor: u64, segment: &Segment) -> Option<u32>
    requires { Fits segment.now }
    ensures { AreHeld segment.now.processor held.now
        → ((h : Content) → Contains held.now h → h.number ≢ segment.now.number)
        → IsLeastIfAny (FallsAmong held.now floor segment.now) result }
{
    let outline = segment.outline();
    if outline.first == 0 {
        return None;
    }
    let (lower, higher) = split_at_number(held, outline.number);
    if outline.first <= floor.max(last_sequence(lower)) {
        return Some(outline.number);
    }
    first_within(higher, outline.last)
}

/// Splits held segments into those with numbers below this one, and the others.
fn split_at_number(held: &[Segment], number: u32) -> (&[Segment], &[Segment])
    ensures { (p : ℕ) → AreHeld p held.now
        → IsSplitAt p number held.now result.0.now result.1.now }
{
    held.split_at(held.partition_point(|segment| segment.number() < number))
}

/// The last sequence of held segments, or 0 where they have no event.
fn last_sequence(segments: &[Segment]) -> u64
    ensures { (p : ℕ) → AreHeld p segments.now
        → IsGreatestSequence (IsEventOf segments.now) result }
{
    match last_with_event(segments) {
        Some(last) => last.outline().last,
        None => 0,
    }
}

/// The number of the first of held segments that has an event at or below the sequence.
fn first_within(segments: &[Segment], sequence: u64) -> Option<u32>
    ensures { (p : ℕ) → AreHeld p segments.now
        → IsLeastIfAny (HasWithin segments.now sequence) result }
{
    let next = first_with_event(segments)?.outline();
    (next.first <= sequence).then_some(next.number)
}

/// The last of these segments that has an event.
fn last_with_event(segments: &[Segment]) -> Option<&Segment>
    ensures { IsNonDecreasingBy (λ s. s.number) segments.now → MatchOption result
        ((s : Content) → Contains segments.now s → s.events ≡ [])
        (λ last. IsNearest (λ own other. other ≤ own) segments.now last.now) }
{
    segments
        .iter()
        .rev()
        .find(|segment| !segment.events().is_empty())
}

/// The first of these segments that has an event.
fn first_with_event(segments: &[Segment]) -> Option<&Segment>
    ensures { IsNonDecreasingBy (λ s. s.number) segments.now → MatchOption result
        ((s : Content) → Contains segments.now s → s.events ≡ [])
        (λ first. IsNearest ◌≤◌ segments.now first.now) }
{
    segments.iter().find(|segment| !segment.events().is_empty())
}
