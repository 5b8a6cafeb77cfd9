//! Where segments came from, and which two of them a fault is about.

use htl_segment::Segment;

/// Where a segment came from: its input, and its trace and key.
#[derive(Clone, Copy, Debug, PartialEq, Eq)]
pub struct Origin {
    /// The input, counted from 0.
    pub input: u64,
    pub trace_id: u64,
    /// How many processors the trace has.
    pub processors: u16,
    pub processor: u16,
    pub number: u32,
}

impl Origin {
    ghost use Rattle.std.specs.Prelude.{◌≡◌};
    ghost use Rattle.htl_main.specs.Origins.{IsHeaderOf};

    /// The origin of a segment of this input.
    pub(crate) fn of(input: u64, segment: &Segment) -> Origin
        ensures input { result.input ≡ input }
        ensures header { IsHeaderOf segment.now result }
    {
        Origin {
            input,
            trace_id: segment.trace_id(),
            processors: segment.processors(),
            processor: segment.processor(),
            number: segment.number(),
        }
    }
}

/// Which two segments a fault is about.
#[derive(Clone, Copy, Debug, PartialEq, Eq)]
pub enum Between {
    /// The fault is about no two segments.
    Nothing,
    /// The first breaks the fault's rule against the second.
    Two(Origin, Origin),
    /// The fault is about two segments, which aren't known: there was no memory to keep copies of
    /// them, or one of them may be forgotten.
    Unknown,
}
