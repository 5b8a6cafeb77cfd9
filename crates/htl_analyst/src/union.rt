//! The union of two analysts: the keys that either has taken, and the segments that are held of
//! these. Analysts of two traces have none, nor have two that hold different segments of one key.

use crate::analyst::Analyst;
use crate::fault::MergeFault;
use crate::folded::Folded;
use crate::part::Part;
use htl_event::NoMemory;
use htl_segment::Segment;
use htl_taken::Taken;
use std::alloc::Allocator;

impl<A: Allocator + Clone> Analyst<A> {
    ghost use Rattle.std.specs.Prelude.{◌≡◌, ◌⊎◌, ◌<◌, ℕ, length, IfOk, IfErr, OnOk, Contains};
    ghost use Rattle.htl_taken.specs.Numbers.{numbers_at, loose_at, IsUnion};
    ghost use Rattle.htl_analyst.specs.States.{part_at, held_at};
    ghost use Rattle.htl_analyst.specs.Right.{IsState};
    ghost use Rattle.htl_analyst.specs.Refusals.{MergeRefused, MergeAccepted};
    ghost use Rattle.htl_analyst.specs.StepParts.{IsHeldOfBoth, AreHeldOfBoth};

    /// The keys of both, and parts that hold the segments of the loose numbers and have nothing
    /// folded.
    pub(crate) fn union_of(
        &self,
        other: &Analyst<A>,
    ) -> Result<(Taken<A>, Vec<Part<A>, A>), MergeFault>
        ensures len { IfOk result (λ r. length r.0 ≡ self.now.processors) }
        ensures union { IfOk result (λ r. (p : ℕ)
            → IsUnion (numbers_at self.now.taken p) (numbers_at other.now.taken p)
            (numbers_at r.0 p)) }
        ensures held { IfOk result (λ r.
            AreHeldOfBoth self.now other.now r.0 r.1.items self.now.processors) }
        ensures accepted { OnOk result (MergeAccepted self.now other.now) }
        ensures refused { IfErr result (λ fault. MergeRefused self.now other.now fault) }
        ensures state { IsState self.now }
        ensures other { IsState other.now }
    {
        self.check_merge(other)?;
        let taken = self.taken.union(&other.taken)?;
        let incoming = self.held_of_both(other, &taken)?;
        Ok((taken, incoming))
    }

    /// Parts that hold the segments of the loose numbers of the union, and have nothing folded.
    fn held_of_both(
        &self,
        other: &Analyst<A>,
        taken: &Taken<A>,
    ) -> Result<Vec<Part<A>, A>, NoMemory>
        requires same { self.now.processors ≡ other.now.processors }
        requires union { (p : ℕ)
            → IsUnion (numbers_at self.now.taken p) (numbers_at other.now.taken p)
            (numbers_at taken.now p) }
        ensures { IfOk result (λ parts.
            AreHeldOfBoth self.now other.now taken.now parts.items self.now.processors) }
    {
        let alloc = self.parts.allocator().clone()?;
        let mut parts = Vec::with_capacity(alloc, self.parts.len())?;
        for processor in 0..self.processors {
            parts.push(self.part_of_both(other, taken, processor)?)?;
        }
        Ok(parts)
    }

    /// A part that holds the segments of the processor's loose numbers, from either side.
    fn part_of_both(
        &self,
        other: &Analyst<A>,
        taken: &Taken<A>,
        processor: u16,
    ) -> Result<Part<A>, NoMemory>
        requires here { processor < self.now.processors }
        requires there { processor < other.now.processors }
        requires union { IsUnion (numbers_at self.now.taken processor)
            (numbers_at other.now.taken processor)
            (numbers_at taken.now processor) }
        ensures { IfOk result (λ part. IsHeldOfBoth (part_at self.now.parts processor)
            (part_at other.now.parts processor) (numbers_at taken.now processor) part.held) }
    {
        let numbers = taken.loose(processor);
        let mut held = Vec::with_capacity(self.parts.allocator().clone()?, numbers.len())?;
        for number in numbers {
            held.push(self.copy_held(other, processor, *number)?)?;
        }
        let folded = Folded::new(self.parts.allocator().clone()?)?;
        Ok(Part { held, folded })
    }

    /// The segment of a loose number of either side. Where both hold one, the two are equal.
    fn copy_held(
        &self,
        other: &Analyst<A>,
        processor: u16,
        number: u32,
    ) -> Result<Segment, NoMemory>
        requires here { processor < self.now.processors }
        requires there { processor < other.now.processors }
        requires loose { Contains (loose_at self.now.taken processor) number
            ⊎ Contains (loose_at other.now.taken processor) number }
        ensures number { IfOk result (λ s. s.number ≡ number) }
        ensures from { IfOk result (λ s. Contains (held_at self.now.parts processor) s
            ⊎ Contains (held_at other.now.parts processor) s) }
    {
        match self.find_held(processor, number) {
            Some(segment) => segment.copy(),
            None => match other.find_held(processor, number) {
                Some(segment) => segment.copy(),
                None => unreachable!(),
            },
        }
    }
}

impl<A: Allocator> Analyst<A> {
    ghost use Rattle.std.specs.Prelude.{◌≡◌, ◌≢◌, ◌↔◌, ◌<◌, ℕ, IsTrue, IfErr, IfSome, IfNone, OnOk};
    ghost use Rattle.htl_analyst.specs.Right.{IsState};
    ghost use Rattle.htl_analyst.specs.Refusals.{HoldsOther, HoldTwo, MergeRefused, MergeAccepted};

    /// Whether the two may be merged.
    fn check_merge(&self, other: &Analyst<A>) -> Result<(), MergeFault>
        ensures accepted { OnOk result (MergeAccepted self.now other.now) }
        ensures refused { IfErr result (λ fault. MergeRefused self.now other.now fault) }
        ensures cause { IfErr result (λ fault. fault ≢ MergeFault.NoMemory) }
        ensures state { IsState self.now }
        ensures other { IsState other.now }
    {
        if self.trace_id != other.trace_id {
            return Err(MergeFault::OtherTrace);
        }
        if self.processors != other.processors {
            return Err(MergeFault::OtherProcessors);
        }
        for processor in 0..self.processors {
            match self.find_conflict(other, processor) {
                Some(number) => return Err(MergeFault::Conflict(processor, number)),
                None => {}
            }
        }
        Ok(())
    }

    /// The least number of the processor under which the two hold different segments.
    fn find_conflict(&self, other: &Analyst<A>, processor: u16) -> Option<u32>
        requires here { processor < self.now.processors }
        requires there { processor < other.now.processors }
        ensures some { IfSome result (λ n. HoldTwo self.now other.now processor n) }
        ensures least { IfSome result (λ n. (m : ℕ) → m < n
            → HoldTwo self.now other.now processor m → ⊥) }
        ensures none { IfNone result ((m : ℕ) → HoldTwo self.now other.now processor m → ⊥) }
    {
        // For the proof: what every analyst keeps is known once a field is read.
        let _other = &other.trace_id;
        for segment in other.part(processor).held() {
            if self.holds_other(segment, processor) {
                return Some(segment.number());
            }
        }
        None
    }

    /// Whether a different segment of this key is held.
    fn holds_other(&self, segment: &Segment, processor: u16) -> bool
        requires here { processor < self.now.processors }
        requires of { segment.now.processor ≡ processor }
        ensures { IsTrue result ↔ HoldsOther self.now segment.now }
    {
        match self.find_held(processor, segment.number()) {
            Some(held) => !held.same(segment),
            None => false,
        }
    }
}
