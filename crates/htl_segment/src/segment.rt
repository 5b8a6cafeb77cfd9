//! Segments in memory.
ghost use Rattle.std.specs.Prelude.{◌≡◌, IfOk};

use crate::version::Version;
use htl_event::{EventList, NoMemory, SharedEvent};
use std::alloc::Allocator;
use std::marker::Model;
use std::sync::Arc;

/// A run of events of one processor, in rising order of their sequences.
#[derive(Debug, Drop)]
pub struct Segment {
    version: Version,
    trace_id: u64,
    processors: u16,
    processor: u16,
    number: u32,
    events: Arc<Vec<SharedEvent>>,
}

impl Model for Segment {
    ghost use Rattle.std.specs.Arc.{arc_value};
    ghost use Rattle.htl_segment.specs.Content.{Content, content, Fits};

    ghost Value = { Content };

    ghost view = { λ s. content s.version s.trace_id
        s.processors s.processor s.number (arc_value s.events).items };

    ghost invariant = { λ s. Fits (content s.version s.trace_id
        s.processors s.processor s.number (arc_value s.events).items) };
}

impl Segment {
    ghost use Rattle.std.specs.Prelude.{◌≡◌, ◌<◌, ◌↔◌, IsTrue, IfOk};
    ghost use Rattle.std.specs.Arc.{arc_value};
    ghost use Rattle.htl_segment.specs.Content.{content, Fits};
    ghost use Rattle.htl_segment.specs.Versions.{version_number};

    /// The segment of these parts, which keep the rules of the format.
    pub(crate) fn new(
        version: Version,
        trace_id: u64,
        processors: u16,
        processor: u16,
        number: u32,
        events: Arc<Vec<SharedEvent>>,
    ) -> Segment
        requires { Fits (content version trace_id
            processors processor number (arc_value events).items) }
        ensures { result ≡ content version trace_id
            processors processor number (arc_value events).items }
    {
        Segment {
            version,
            trace_id,
            processors,
            processor,
            number,
            events,
        }
    }

    /// The version of the format that encodes this segment: 1 or 2.
    pub fn version(&self) -> u16
        ensures { result ≡ version_number self.now.version }
    {
        self.version.number()
    }

    /// The number that all segments of one trace share.
    pub fn trace_id(&self) -> u64
        ensures { result ≡ self.now.trace_id }
    {
        self.trace_id
    }

    /// The number of processors of the trace.
    pub fn processors(&self) -> u16
        ensures { result ≡ self.now.processors }
    {
        self.processors
    }

    /// The processor that wrote this segment.
    pub fn processor(&self) -> u16
        ensures value { result ≡ self.now.processor }
        ensures below { result < self.now.processors }
    {
        self.processor
    }

    /// The place of this segment among those of its processor.
    pub fn number(&self) -> u32
        ensures { result ≡ self.now.number }
    {
        self.number
    }

    /// The events, in strictly rising order of their sequences.
    pub fn events(&self) -> &[SharedEvent]
        ensures value { result.now ≡ self.now.events }
        // What every segment keeps, so that callers have it too.
        ensures fits { Fits self.now }
    {
        self.events.as_slice()
    }

    /// An equal segment, in the same memory.
    pub fn copy(&self) -> Result<Segment, NoMemory>
        ensures { IfOk result (λ copy. copy ≡ self.now) }
    {
        Ok(Segment {
            version: self.version,
            trace_id: self.trace_id,
            processors: self.processors,
            processor: self.processor,
            number: self.number,
            events: Arc::try_clone(&self.events)?,
        })
    }

    /// Whether two segments have the same version, the same header and the same events.
    pub fn same(&self, other: &Segment) -> bool
        ensures { IsTrue result ↔ (self.now ≡ other.now) }
    {
        self.same_header(other) && self.events() == other.events()
    }

    fn same_header(&self, other: &Segment) -> bool
        ensures { IsTrue result ↔ ((self.now.version ≡ other.now.version)
            × (self.now.trace_id ≡ other.now.trace_id)
            × (self.now.processors ≡ other.now.processors)
            × (self.now.processor ≡ other.now.processor)
            × (self.now.number ≡ other.now.number)) }
    {
        self.version == other.version
            && self.trace_id == other.trace_id
            && self.processors == other.processors
            && self.processor == other.processor
            && self.number == other.number
    }
}

impl EventList for Segment {
    ghost events_of = { λ s. s.events };

    fn events(&self) -> &[SharedEvent] {
        self.events()
    }
}

/// The same segments, in the same memory.
pub fn copies<A: Allocator>(alloc: A, segments: &[Segment]) -> Result<Vec<Segment, A>, NoMemory>
    ensures { IfOk result (λ copies. copies.items ≡ segments.now) }
{
    let mut copies = Vec::with_capacity(alloc, segments.len())?;
    for segment in segments {
        copies.push(segment.copy()?)?;
    }
    Ok(copies)
}
