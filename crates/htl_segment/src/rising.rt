//! The greatest sequence of segments. In each segment the sequences rise.

ghost use Rattle.std.specs.Prelude.{Contains};
ghost use Rattle.htl_event.specs.Handles.{IsGreatestSequence};
ghost use Rattle.htl_segment.specs.Traces.{all_events};

use crate::segment::Segment;

/// The greatest sequence of the segments' events, or 0 where they have no event.
pub fn greatest_sequence(segments: &[Segment]) -> u64
    ensures { IsGreatestSequence (Contains (all_events segments.now)) result }
{
    let mut greatest = 0;
    for segment in segments {
        greatest = last_sequence(segment).max(greatest);
    }
    greatest
}

/// The greatest sequence of a segment. Its last event has it.
fn last_sequence(segment: &Segment) -> u64
    ensures { IsGreatestSequence (Contains segment.now.events) result }
{
    match segment.events().last() {
        Some(last) => last.sequence,
        None => 0,
    }
}
