//! Cases: all segments of one trace.

use crate::fault::CaseFault;
use crate::ordering::{check_one_trace, in_order};
use crate::outlines::outlines_of;
use crate::rising::falling;
use crate::sequences::repeated_sequence;
use htl_event::{EventList, NoMemory, Until};
use htl_segment::{Outline, Segment};
use std::alloc::Global;
use std::marker::Model;

/// All segments of one trace, whose sequences rise along each processor.
#[derive(Debug, Drop)]
pub struct Case {
    trace_id: u64,
    processors: u16,
    segments: Vec<Segment>,
}

impl Model for Case {
    ghost use Rattle.htl_segment.specs.Traces.{Trace, trace};
    ghost use Rattle.htl_case.specs.Cases.{IsCase};

    ghost Value = { Trace };

    ghost view = { λ c. trace c.trace_id c.processors c.segments.items };

    ghost invariant = { λ c. IsCase (trace c.trace_id c.processors c.segments.items) };
}

impl Case {
    ghost use Rattle.std.specs.Prelude.{◌≡◌, ◌≢◌, ◌⊎◌, [], Result, IfOk, IfErr, map, flat_map};
    ghost use Rattle.htl_event.specs.Moments.{counted_events};
    ghost use Rattle.htl_segment.specs.Outlines.{outline_of};
    ghost use Rattle.htl_segment.specs.Traces.{Trace, IsTrace, all_events, trace};
    ghost use Rattle.htl_case.specs.declared.fault.CaseFault.{CaseFault};
    ghost use Rattle.htl_case.specs.Cases.{IsCase, IsCaseOf};
    ghost use Rattle.htl_case.specs.Faults.{IsRefusal, IsOutcome};
    ghost use Rattle.htl_case.specs.Ordered.{IsFalling};

    /// The case of these segments, which may come in any order and more than once. It takes n log n
    /// steps for n events and moves the segments as they are. A refusal drops them.
    pub fn of(alloc: Global, segments: Vec<Segment>) -> Result<Case, CaseFault>
        ensures ok { IfOk result (IsCaseOf segments.items) }
        ensures err { IfErr result (IsRefusal segments.items) }

        // The outcome of a list is its case, or the first rule that it breaks. The answer is that
        // outcome, or out of memory.
        ensures exact { (outcome : Result Trace CaseFault) → IsOutcome segments.items outcome
            → (result ≡ outcome) ⊎ (result ≡ Err CaseFault.NoMemory) }
    {
        let (trace_id, processors) = check_one_trace(&segments)?;
        let segments = in_order(segments)?;
        if let Some(sequence) = repeated_sequence(alloc, &segments)? {
            return Err(CaseFault::SequenceTwice(sequence));
        }
        let case = Case::of_trace(alloc, trace_id, processors, segments)?;
        Ok(case)
    }

    /// The case of the segments of a trace, if their sequences rise along each processor.
    pub(crate) fn of_trace(
        alloc: Global,
        trace_id: u64,
        processors: u16,
        segments: Vec<Segment>,
    ) -> Result<Case, CaseFault>
        requires some { segments.items ≢ [] }
        requires trace { IsTrace (trace trace_id processors segments.items) }
        ensures value { IfOk result (λ case. case ≡ trace trace_id processors segments.items) }
        ensures is_case { IfOk result (λ case. IsCase case) }
        ensures err { IfErr result (IsFalling segments.items) }
    {
        let outlines = outlines_of(alloc, &segments)?;
        if let Some((processor, number)) = falling(&outlines) {
            return Err(CaseFault::Falling(processor, number));
        }
        Ok(Case {
            trace_id,
            processors,
            segments,
        })
    }

    /// The number that all segments of the trace share.
    pub fn trace_id(&self) -> u64
        ensures { result ≡ self.now.id }
    {
        self.trace_id
    }

    /// The number of processors of the trace.
    pub fn processors(&self) -> u16
        ensures { result ≡ self.now.processors }
    {
        self.processors
    }

    /// The segments by processor, then by number, each once.
    pub fn segments(&self) -> &[Segment]
        ensures value { result.now ≡ self.now.segments }
        // What every case keeps, so that callers have it too.
        ensures is_case { IsCase self.now }
    {
        self.segments.as_slice()
    }

    /// The events until the moment, or all where none is given, in the order of the segments. They
    /// stay where they lie.
    pub fn until<'a>(
        &'a self,
        alloc: Global,
        until: Option<u64>,
    ) -> Result<Vec<Until<'a>>, NoMemory>
        ensures value { IfOk result (λ lists.
            flat_map ⟦<Until<'a> as EventList>⟧.events_of lists.items
            ≡ counted_events until (all_events self.now.segments)) }
        // What every case keeps, so that callers have it too.
        ensures is_case { IsCase self.now }
    {
        let segments = self.segments();
        let mut lists = Vec::with_capacity(alloc, segments.len())?;
        for segment in segments {
            lists.push(Until::new(segment.events(), until))?;
        }
        Ok(lists)
    }

    /// The outlines of the segments, in the same order.
    pub fn outlines(&self, alloc: Global) -> Result<Vec<Outline>, NoMemory>
        ensures value { IfOk result (λ outlines.
            outlines.items ≡ map outline_of self.now.segments) }
        // What every case keeps, so that callers have it too.
        ensures is_case { IsCase self.now }
    {
        outlines_of(alloc, &self.segments)
    }
}
