//! How much of its trace a case has, or an analyst.

ghost use Rattle.std.specs.Prelude.{◌≡◌, ℕ};
ghost use Rattle.htl_segment.specs.Traces.{Trace};
ghost use Rattle.htl_evidence.specs.Outlines.{AreOutlinesOf};
ghost use Rattle.htl_main.specs.CaseOutlines.{lesser};
ghost use Rattle.htl_main.specs.Moments.{is_above};

use htl_analyst::Analyst;
use htl_case::{Case, PickedCase};
use htl_command::Moment;
use htl_event::NoMemory;
use htl_evidence::Extent;
use htl_inputs::{CutEnd, RunFault};
use htl_reading::SegmentName;
use htl_segment::Outline;
use std::alloc::Global;

/// How much of its trace a case has. An answer over a case with a gap holds for the segments that
/// are there.
#[derive(Clone, Copy, Debug, PartialEq, Eq)]
pub struct Coverage {
    /// The number of gaps. A gap is a longest run of missing segment numbers below a processor's
    /// greatest one, or a processor without any segment.
    pub gaps: u64,
    /// The sequence up to which no segment is missing.
    pub complete_to: u64,
}

impl Coverage {
    ghost use Rattle.std.specs.Prelude.{◌≡◌};
    ghost use Rattle.htl_segment.specs.Traces.{Trace};
    ghost use Rattle.htl_main.specs.Coverages.{IsCoverage};
    ghost use Rattle.htl_main.specs.Moments.{IsNamedMoment, is_touched};

    /// Whether a gap may change an answer as of the moment: there is a gap, and the moment is above
    /// the sequence up to which no segment is missing. Where no moment is named, the answer is as
    /// of the end of the trace, which counts as above it.
    pub fn is_touched(self, until: Option<Moment>) -> bool
        ensures { result ≡ is_touched self until }
    {
        self.gaps > 0 && is_above(until, self.complete_to)
    }

    /// The named moment as a sequence, or none if no moment is named: then all events count.
    pub(crate) fn moment(self, named: Option<Moment>) -> Option<u64>
        ensures { (T : Trace) → IsCoverage T self → IsNamedMoment T named result }
    {
        match named? {
            Moment::Sequence(sequence) => Some(sequence),
            Moment::Complete => Some(self.complete_to),
        }
    }
}

/// Whether the moment is later than this sequence. If none is named, it is the end of the trace,
/// which is later than every sequence.
pub(crate) fn is_above(until: Option<Moment>, sequence: u64) -> bool
    ensures { result ≡ is_above until sequence }
{
    match until {
        None => true,
        Some(Moment::Sequence(moment)) => sequence < moment,
        Some(Moment::Complete) => false,
    }
}

/// What is missing of a trace.
#[derive(Drop)]
pub(crate) struct Missed {
    /// The identity of the trace.
    pub trace_id: u64,
    /// How much there is of it.
    pub extent: Extent,
}

impl Missed {
    ghost use Rattle.std.specs.Prelude.{◌<◌, ℕ, All, IfNone, IfOk, IfSome, List, Some};
    ghost use Rattle.htl_event.specs.declared.interest.Interest.{Interest};
    ghost use Rattle.htl_segment.specs.Content.{Content};
    ghost use Rattle.htl_segment.specs.Traces.{Trace};
    ghost use Rattle.htl_case.specs.Complete.{IsFirstMissing};
    ghost use Rattle.htl_evidence.specs.Outlines.{AreOutlinesOf};
    ghost use Rattle.htl_main.specs.CaseOutlines.{IsFirstShort, IsMissed, IsShortUpTo};
    ghost use Rattle.htl_main.specs.Completeness.{IsComplete, IsFirstUnknown, IsKnown, IsLeastMissing};
    ghost use Rattle.htl_main.specs.Completeness.{IsOfKey, Misses, ReportsMissing};
    ghost use Rattle.htl_main.specs.Coverages.{IsCoverage};
    ghost use Rattle.htl_main.specs.Folding.{AreFolded, IsCollectionOf};
    ghost use Rattle.htl_main.specs.Picking.{IsPickedFor, NamesMissing};

    /// What the case misses, by the outlines of its segments.
    pub fn of_case(alloc: Global, case: &Case) -> Result<Missed, NoMemory>
        ensures { IfOk result (IsMissed case.now) }
    {
        let outlines = case.outlines(alloc)?;
        let missed = Missed::of(alloc, case.processors(), &outlines)?;
        Ok(missed)
    }

    /// What a case misses, by what was picked of it.
    pub fn of_picks(alloc: Global, case: &PickedCase) -> Result<Missed, NoMemory>
        ensures { IfOk result (λ missed. (interest : Interest) (segments : List Content)
            (is : IsPickedFor interest case.now segments) → IsMissed is.trace missed) }
    {
        let missed = Missed::of(alloc, case.processors(), case.outlines())?;
        Ok(missed)
    }

    /// What the case with these outlines misses.
    fn of(alloc: Global, processors: u16, outlines: &[Outline]) -> Result<Missed, NoMemory>
        ensures { IfOk result (λ missed. (T : Trace) → AreOutlinesOf processors outlines.now T
            → IsMissed T missed) }
    {
        Ok(Missed {
            trace_id: trace_id(outlines),
            extent: Extent::of_outlines(alloc, processors, outlines)?,
        })
    }

    /// What is missing of the trace that an analyst took, which folded all that it can.
    pub fn of_analyst(alloc: Global, analyst: &Analyst<Global>) -> Result<Missed, NoMemory>
        ensures { IfOk result (λ missed. (segments : List Content) (T : Trace)
            → AreFolded (Some analyst.now) segments → IsCollectionOf segments T
            → IsMissed T missed) }
    {
        Ok(Missed {
            trace_id: analyst.trace_id(),
            extent: Extent::of_analyst(alloc, analyst)?,
        })
    }

    /// How much of its trace the case has.
    pub fn coverage(&self) -> Coverage
        ensures { (T : Trace) → IsMissed T self.now → IsCoverage T result }
    {
        Coverage {
            gaps: self.extent.gaps.len() as u64,
            complete_to: self.extent.complete_to,
        }
    }

    /// Why the trace isn't complete, where these inputs are cut: the least missing key, or else the
    /// first input that is cut within a segment of which it isn't known which it is.
    pub fn fault(&self, cuts: &[CutEnd]) -> Option<RunFault>
        ensures some { IfSome result (λ fault. (T : Trace) → IsMissed T self.now
            → ReportsMissing T cuts.now fault) }
        ensures names { IfSome result NamesMissing }
        ensures none { IfNone result ((T : Trace) → IsMissed T self.now → IsComplete T cuts.now) }
    {
        let Some((processor, number)) = self.least(cuts) else {
            let input = self.first_unknown(cuts)?;
            return Some(RunFault::UnknownCut { input });
        };
        Some(RunFault::Incomplete { processor, number })
    }

    /// The least missing key, where these inputs are cut: the first processor that misses a segment,
    /// and its first missing number.
    pub fn least(&self, cuts: &[CutEnd]) -> Option<(u16, u32)>
        ensures some { IfSome result (λ key. (T : Trace) → IsMissed T self.now
            → IsLeastMissing T cuts.now key.0 key.1) }
        ensures none { IfNone result ((T : Trace) → IsMissed T self.now
            → (p : ℕ) → Misses T cuts.now p → ⊥) }
    {
        let processor = self.first_short(cuts)?;
        Some((processor, self.front(processor)))
    }

    /// The first missing number of a processor.
    fn front(&self, processor: u16) -> u32
        ensures { (T : Trace) → IsMissed T self.now → processor < T.processors
            → IsFirstMissing T processor result }
    {
        match self.extent.fronts.get(usize::from(processor)) {
            Some(front) => *front,
            None => 0,
        }
    }

    /// The first processor that misses a segment.
    fn first_short(&self, cuts: &[CutEnd]) -> Option<u16>
        ensures { (T : Trace) → IsMissed T self.now → IsFirstShort T cuts.now result }
    {
        let mut first = match self.extent.gaps.first() {
            Some(gap) => Some(gap.processor()),
            None => None,
        };
        for cut in cuts {
            first = lesser(first, self.short_up_to(cut));
        }
        first
    }

    /// Where the input is cut within a segment of the trace: its processor, if it misses a segment up
    /// to this one.
    fn short_up_to(&self, cut: &CutEnd) -> Option<u16>
        ensures { (T : Trace) → IsMissed T self.now → IsShortUpTo T cut.now result }
    {
        let name = self.known(cut)?;
        let front = *self.extent.fronts.get(usize::from(name.processor))?;
        if name.number < front {
            return None;
        }
        Some(name.processor)
    }

    /// The name of the segment that the input is cut within, if it is one of the trace.
    fn known(&self, cut: &CutEnd) -> Option<SegmentName>
        ensures some { IfSome result (λ name. (T : Trace) → IsMissed T self.now
            → IsOfKey T cut.now name.processor name.number) }
        ensures none { IfNone result ((T : Trace) → IsMissed T self.now → IsKnown T cut.now → ⊥) }
    {
        let name = cut.name?;
        let is_ours = name.trace_id == self.trace_id
            && usize::from(name.processors) == self.extent.fronts.len();
        if is_ours { Some(name) } else { None }
    }

    /// The first input that is cut within a segment of which it isn't known which it is.
    fn first_unknown(&self, cuts: &[CutEnd]) -> Option<u64>
        ensures some { IfSome result (λ input. (T : Trace) → IsMissed T self.now
            → ((p : ℕ) → Misses T cuts.now p → ⊥) → IsFirstUnknown T cuts.now input) }
        ensures none { IfNone result ((T : Trace) → IsMissed T self.now
            → All (IsKnown T) cuts.now) }
    {
        for cut in cuts {
            if self.known(cut).is_none() {
                return Some(cut.input);
            }
        }
        None
    }
}

/// The lesser of two processors, of which either may be none.
fn lesser(one: Option<u16>, other: Option<u16>) -> Option<u16>
    ensures { result ≡ lesser one other }
{
    match (one, other) {
        (Some(one), Some(other)) => Some(if one < other { one } else { other }),
        (one, None) => one,
        (None, other) => other,
    }
}

/// The identity of the trace of these outlines.
fn trace_id(outlines: &[Outline]) -> u64
    ensures { (T : Trace) (processors : ℕ) → AreOutlinesOf processors outlines.now T
        → result ≡ T.id }
{
    match outlines.first() {
        Some(outline) => outline.trace_id,
        None => 0,
    }
}
