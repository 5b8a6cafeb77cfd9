//! The analyst: its state, and the calls that read it.
ghost use Rattle.std.specs.Prelude.{◌≡◌, IfOk, replicate};
ghost use Rattle.htl_analyst.specs.States.{no_part};

use crate::MAX_PROCESSORS;
use crate::fault::AnalystFault;
use crate::part::Part;
use htl_event::NoMemory;
use htl_taken::Taken;
use std::alloc::Allocator;
use std::marker::Model;

/// What is known of a trace: the segments that were taken, and the counts and tables of their
/// events.
#[derive(Drop)]
pub struct Analyst<A: Allocator> {
    pub(crate) trace_id: u64,
    pub(crate) processors: u16,
    pub(crate) taken: Taken<A>,
    pub(crate) parts: Vec<Part<A>, A>,
}

impl<A: Allocator> Model for Analyst<A> {
    ghost use Rattle.htl_analyst.specs.States.{State, state};
    ghost use Rattle.htl_analyst.specs.Right.{IsState};

    ghost Value = { State };

    ghost view = { λ a. state a.trace_id a.processors a.taken a.parts.items };

    ghost invariant = { λ a. IsState (state a.trace_id a.processors a.taken a.parts.items) };
}

impl<A: Allocator> Analyst<A> {
    ghost use Rattle.std.specs.Prelude.{◌≡◌, ◌↔◌, ◌<◌, ◌^◌, ℕ, length, map, sum_by, IsTrue};
    ghost use Rattle.htl_taken.specs.Numbers.{numbers_at, front_at};
    ghost use Rattle.htl_analyst.specs.States.{part_at, folded_at};
    ghost use Rattle.htl_answers.specs.Parts.{AreEventsOf, size_of_all};
    ghost use Rattle.htl_analyst.specs.Keys.{keys, number_taken};
    ghost use Rattle.htl_analyst.specs.TakenEvents.{taken_events, contents_of, events_kept};
    ghost use Rattle.htl_analyst.specs.Right.{IsPart, IsState, IsRight};
    ghost use Rattle.htl_analyst.specs.Same.{IsSame, IsSamePart};
    ghost use Rattle.htl_segment.specs.Traces.{Trace};
    ghost use Rattle.htl_segment.specs.Rising.{SequencesRise};
    ghost use Rattle.htl_analyst.specs.Moments.{IsLastFolded, IsLeastKept, IsLeastLastFolded};
    ghost use Rattle.htl_analyst.specs.Moments.{NothingMissing};

    /// The number that all segments of the trace share.
    pub fn trace_id(&self) -> u64
        ensures { result ≡ self.now.trace_id }
    {
        self.trace_id
    }

    /// The number of processors of the trace.
    pub fn processors(&self) -> u16
        ensures value { result ≡ self.now.processors }
        // What every analyst's state is, so that callers have it too.
        ensures state { IsState self.now }
    {
        self.processors
    }

    /// Whether the segment was taken. No segment of a processor that isn't there was.
    pub fn has(&self, processor: u16, number: u32) -> bool
        ensures { result ≡ keys self.now processor number }
    {
        self.taken.has(processor, number)
    }

    /// The front of the processor: the segments with numbers below it were folded. It is 0 where
    /// there is no such processor.
    pub fn front(&self, processor: u16) -> u32
        ensures { result ≡ front_at self.now.taken processor }
    {
        self.taken.front(processor)
    }

    /// The number of held segments.
    pub fn held(&self) -> u64
        ensures { result ≡ sum_by (λ k. length k.held) self.now.parts }
    {
        let mut held = 0;
        for processor in 0..self.processors {
            held += self.part(processor).held().len() as u64;
        }
        held
    }

    /// The number of taken segments.
    pub fn taken(&self) -> u64
        ensures { result ≡ number_taken self.now }
    {
        self.taken.len()
    }

    /// The number of events of the taken segments, whether these were folded or are held.
    pub fn events(&self) -> u64
        ensures kept { result ≡ sum_by events_kept self.now.parts }
        ensures taken { (T : Trace) → IsRight self.now T
            → result ≡ length (taken_events T self.now) }
    {
        let mut events = 0;
        for processor in 0..self.processors {
            events += self.part(processor).events();
        }
        events
    }

    /// What is kept of each processor: the parts over which `htl_answers` answers.
    pub fn parts(&self) -> &[Part<A>]
        ensures value { result.now ≡ self.now.parts }
        ensures events { (T : Trace) → IsRight self.now T
            → AreEventsOf (map contents_of result.now) (taken_events T self.now) }
        ensures few { size_of_all (map contents_of result.now) < 2 ^ 64 }
    {
        &self.parts
    }

    /// Whether both have the same fronts, held segments, counts and tables.
    pub fn same(&self, other: &Analyst<A>) -> bool
        ensures { IsTrue result ↔ IsSame self.now other.now }
    {
        if self.trace_id != other.trace_id || self.processors != other.processors {
            return false;
        }
        if !self.taken.same(&other.taken) {
            return false;
        }
        self.parts_are_same(other)
    }

    /// The greatest sequence that was folded of the processor: 0 where there is none, or no such
    /// processor.
    pub fn last_folded(&self, processor: u16) -> u64
        ensures kept { result ≡ (folded_at self.now.parts processor).last_sequence }
        ensures last { (T : Trace) → IsRight self.now T → processor < self.now.processors
            → IsLastFolded T self.now processor result }
    {
        if processor >= self.processors {
            return 0;
        }
        self.part(processor).folded().last_sequence()
    }

    /// The moment up to which nothing of the trace is missing, where sequences rise along each
    /// processor: the least, over all processors, of the greatest sequences that were folded.
    pub fn complete_to(&self) -> u64
        ensures kept { IsLeastKept self.now result }
        ensures complete { (T : Trace) → IsRight self.now T → IsLeastLastFolded T self.now result }
        ensures missing { (T : Trace) → IsRight self.now T → SequencesRise T.segments
            → NothingMissing T self.now result }
    {
        // For the proof: what every analyst keeps is known once a field is read.
        let _some = &self.trace_id;
        let mut least = self.part(0).folded().last_sequence();
        for processor in 1..self.processors {
            least = self.part(processor).folded().last_sequence().min(least);
        }
        least
    }

    /// Whether both keep the same of each processor.
    fn parts_are_same(&self, other: &Analyst<A>) -> bool
        requires { self.now.processors ≡ other.now.processors }
        ensures { IsTrue result ↔ ((p : ℕ) → p < self.now.processors
            → IsSamePart (part_at self.now.parts p) (part_at other.now.parts p)) }
    {
        for processor in 0..self.processors {
            if !self.part(processor).same(other.part(processor)) {
                return false;
            }
        }
        true
    }

    /// What is kept of one processor.
    pub(crate) fn part(&self, processor: u16) -> &Part<A>
        requires { processor < self.now.processors }
        ensures value { result.now ≡ part_at self.now.parts processor }
        ensures part { IsPart self.now.trace_id self.now.processors processor
            (numbers_at self.now.taken processor) result.now }
    {
        &self.parts[usize::from(processor)]
    }
}

impl<A: Allocator + Clone> Analyst<A> {
    ghost use Rattle.std.specs.Prelude.{◌≡◌, ◌⊎◌, ◌↔◌, ◌<◌, ℕ, IfOk};
    ghost use Rattle.htl_segment.specs.Traces.{Trace};
    ghost use Rattle.htl_analyst.specs.Right.{IsCollection, IsRight};
    ghost use Rattle.htl_analyst.specs.Keys.{HasTaken};
    ghost use Rattle.htl_analyst.specs.Steps.{new_state};

    /// An analyst that has taken nothing.
    pub fn new(alloc: A, trace_id: u64, processors: u16) -> Result<Analyst<A>, AnalystFault>
        ensures state { IfOk result (λ a. a ≡ new_state trace_id processors) }
        ensures processors { (result ≡ Err AnalystFault.Processors)
            ↔ ((processors ≡ 0) ⊎ (256 < processors)) }
        ensures keys { IfOk result (λ a. (p n : ℕ) → HasTaken a p n → ⊥) }
        ensures right { IfOk result (λ a. (T : Trace) → IsCollection T → T.id ≡ trace_id
            → T.processors ≡ processors → IsRight a T) }
    {
        if processors == 0 || processors > MAX_PROCESSORS {
            return Err(AnalystFault::Processors);
        }
        let taken = Taken::new(alloc.clone()?, processors)?;
        let parts = no_parts(alloc, processors)?;
        Ok(Analyst {
            trace_id,
            processors,
            taken,
            parts,
        })
    }

    /// An equal analyst, under clones of the allocator. The segments that it holds are shared.
    pub fn copy(&self) -> Result<Analyst<A>, NoMemory>
        ensures { IfOk result (λ copy. copy ≡ self.now) }
    {
        Ok(Analyst {
            trace_id: self.trace_id,
            processors: self.processors,
            taken: self.taken.copy()?,
            parts: copies(self.parts.allocator().clone()?, &self.parts)?,
        })
    }
}

/// An empty part for each processor.
fn no_parts<A: Allocator + Clone>(alloc: A, processors: u16) -> Result<Vec<Part<A>, A>, NoMemory>
    ensures { IfOk result (λ parts. parts.items ≡ replicate processors no_part) }
{
    let mut parts = Vec::with_capacity(alloc.clone()?, usize::from(processors))?;
    for _ in 0..processors {
        parts.push(Part::new(alloc.clone()?)?)?;
    }
    Ok(parts)
}

/// Equal parts, under clones of the allocator.
fn copies<A: Allocator + Clone>(alloc: A, parts: &[Part<A>]) -> Result<Vec<Part<A>, A>, NoMemory>
    ensures { IfOk result (λ copies. copies.items ≡ parts.now) }
{
    let mut copies = Vec::with_capacity(alloc, parts.len())?;
    for part in parts {
        copies.push(part.copy()?)?;
    }
    Ok(copies)
}
