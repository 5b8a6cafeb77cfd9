//! Segments of a trace.

use crate::SampleFault;
use crate::line::{events, narrow, number};
use htl_event::{Event, Kind};
use htl_segment::Segment;
use std::alloc::Global;

/// The trace that segments are of.
#[derive(Clone, Copy, Debug, PartialEq, Eq)]
pub struct Trace {
    pub id: u64,
    pub processors: u16,
}

/// The trace of most samples: id 7, one processor.
pub const TRACE: Trace = Trace {
    id: 7,
    processors: 1,
};

impl Trace {
    ghost use Rattle.std.specs.Prelude.{All, IfOk};
    ghost use Rattle.htl_samples.specs.Samples.{IsOfTrace};

    /// The segment that a line writes: its processor and number, and after a colon its events, as
    /// `0/1: O 1 0x44, C 2 0x44`. It is of version 2 where it has a process exit, else of version
    /// 1.
    pub fn segment(self, alloc: Global, line: &str) -> Result<Segment, SampleFault>
        ensures { IfOk result (IsOfTrace self) }
    {
        let (key, lines) = line.split_once(':').ok_or(SampleFault::Line)?;
        let (processor, number) = key_of(key)?;
        self.build(alloc, processor, number, events(alloc, lines)?)
    }

    /// The segments of several lines.
    pub fn segments(self, alloc: Global, lines: &[&str]) -> Result<Vec<Segment>, SampleFault>
        ensures { IfOk result (λ segments. All (IsOfTrace self) segments.items) }
    {
        let mut segments = Vec::new(alloc);
        for line in lines {
            segments.push(self.segment(alloc, line)?)?;
        }
        Ok(segments)
    }

    fn build(
        self,
        alloc: Global,
        processor: u16,
        number: u32,
        events: Vec<Event>,
    ) -> Result<Segment, SampleFault>
        ensures { IfOk result (IsOfTrace self) }
    {
        if events.iter().any(|event| event.kind == Kind::Exited) {
            Ok(Segment::build2(alloc, self.id, self.processors, processor, number, events)?)
        } else {
            Ok(Segment::build(alloc, self.id, self.processors, processor, number, events)?)
        }
    }
}

/// A processor and a number, with a slash between them.
fn key_of(text: &str) -> Result<(u16, u32), SampleFault> {
    let (processor, place) = text.trim().split_once('/').ok_or(SampleFault::Line)?;
    let processor = u16::try_from(number(processor)?).map_err(|_| SampleFault::Line)?;
    Ok((processor, narrow(place)?))
}
