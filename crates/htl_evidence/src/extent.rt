//! How much there is of a trace.

ghost use Rattle.std.specs.Prelude.{◌≡◌, IfOk};
ghost use Rattle.htl_evidence.specs.Outlines.{AreFrontsOf};

use crate::outlines::{add_gaps, greatest_last, split_at_processor, unbroken};
use htl_analyst::Analyst;
use htl_event::NoMemory;
use htl_segment::Outline;
use htl_taken::Gap;
use std::alloc::Global;

/// How much there is of a trace: of how many processors it is, how many segments there are, and
/// which are missing.
#[derive(Drop)]
pub struct Extent {
    pub processors: u16,
    pub segments: u64,
    /// The gaps by processor: each longest run of missing numbers below one that is there, or that
    /// the processor has no segment.
    pub gaps: Vec<Gap>,
    /// The first missing number of each processor.
    pub fronts: Vec<u32>,
    /// The sequence up to which no segment is missing.
    pub complete_to: u64,
}

impl Extent {
    ghost use Rattle.htl_segment.specs.Traces.{Trace};
    ghost use Rattle.htl_evidence.specs.Outlines.{AreOutlinesOf, HasExtent};
    ghost use Rattle.htl_evidence.specs.Told.{HasFolded};

    /// The extent of the case of so many processors that has these outlines.
    pub fn of_outlines(
        alloc: Global,
        processors: u16,
        outlines: &[Outline],
    ) -> Result<Extent, NoMemory>
        ensures { IfOk result (λ extent. (T : Trace) → AreOutlinesOf processors outlines.now T
            → HasExtent T extent) }
    {
        let mut gaps = Vec::new(alloc);
        let mut fronts = Vec::new(alloc);
        let mut complete_to = u64::MAX;
        let mut rest = outlines;
        for processor in 0..processors {
            let (own, after) = split_at_processor(rest, processor);
            add_gaps(&mut gaps, processor, own)?;
            let first = unbroken(own);
            fronts.push(first.len().min(u32::MAX as usize) as u32)?;
            complete_to = greatest_last(first).min(complete_to);
            rest = after;
        }
        Ok(Extent {
            processors,
            segments: outlines.len() as u64,
            gaps,
            fronts,
            complete_to,
        })
    }

    /// The extent of nothing.
    pub(crate) fn nothing(alloc: Global) -> Extent {
        Extent {
            processors: 0,
            segments: 0,
            gaps: Vec::new(alloc),
            fronts: Vec::new(alloc),
            complete_to: 0,
        }
    }

    /// The extent of the trace whose segments an analyst took, if it folded all that it can.
    pub fn of_analyst(alloc: Global, analyst: &Analyst<Global>) -> Result<Extent, NoMemory>
        ensures { IfOk result (λ extent. (T : Trace) → HasFolded analyst.now T
            → HasExtent T extent) }
    {
        Ok(Extent {
            processors: analyst.processors(),
            segments: analyst.taken(),
            gaps: analyst.gaps(alloc)?,
            fronts: fronts(alloc, analyst)?,
            complete_to: analyst.complete_to(),
        })
    }
}

/// The front of each processor of an analyst.
fn fronts(alloc: Global, analyst: &Analyst<Global>) -> Result<Vec<u32>, NoMemory>
    ensures { IfOk result (λ fronts. AreFrontsOf analyst.now analyst.now.processors fronts.items) }
{
    let mut fronts = Vec::new(alloc);
    for processor in 0..analyst.processors() {
        fronts.push(analyst.front(processor))?;
    }
    Ok(fronts)
}
