//! Outlines: what is kept of a segment beside its events.

ghost use Rattle.std.specs.Prelude.{◌≡◌};
ghost use Rattle.htl_segment.specs.Outlines.{first_sequence, last_sequence};

use crate::segment::Segment;
use htl_event::SharedEvent;

/// A segment without its events: its trace, its key, and where its sequences begin and end.
#[derive(Clone, Copy, Debug, PartialEq, Eq)]
pub struct Outline {
    pub trace_id: u64,
    pub processors: u16,
    pub processor: u16,
    pub number: u32,
    /// The sequence of the first event, or 0 where the segment has no event.
    pub first: u64,
    /// The sequence of the last event, or 0 where the segment has no event.
    pub last: u64,
}

impl Segment {
    ghost use Rattle.std.specs.Prelude.{◌≡◌};
    ghost use Rattle.htl_segment.specs.Outlines.{outline_of};

    /// The outline of the segment.
    pub fn outline(&self) -> Outline
        ensures { result ≡ outline_of self.now }
    {
        Outline {
            trace_id: self.trace_id(),
            processors: self.processors(),
            processor: self.processor(),
            number: self.number(),
            first: first_sequence(self.events()),
            last: last_sequence(self.events()),
        }
    }
}

fn first_sequence(events: &[SharedEvent]) -> u64
    ensures { result ≡ first_sequence events.now }
{
    match events.first() {
        Some(first) => first.sequence,
        None => 0,
    }
}

fn last_sequence(events: &[SharedEvent]) -> u64
    ensures { result ≡ last_sequence 0 events.now }
{
    match events.last() {
        Some(last) => last.sequence,
        None => 0,
    }
}
