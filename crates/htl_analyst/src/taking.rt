//! Taking a segment.
ghost use Rattle.std.specs.Prelude.{◌≡◌, ◌≤◌, ◌<◌, length, insert, vec_len, vec_capacity};
ghost use Rattle.htl_segment.specs.Content.{Fits};

use crate::analyst::Analyst;
use crate::fault::{TakeFault, Took};
use htl_segment::Segment;
use std::alloc::Allocator;

impl<A: Allocator> Analyst<A> {
    ghost use Rattle.std.specs.Prelude.{◌≡◌, ◌≢◌, ◌↔◌, ◌<◌, ℕ, IfOk, IfErr};
    ghost use Rattle.std.specs.Prelude.{IfSome, IfNone, OnOk, Contains};
    ghost use Rattle.htl_segment.specs.Content.{Content, Fits};
    ghost use Rattle.htl_taken.specs.Numbers.{front_at, loose_at};
    ghost use Rattle.htl_analyst.specs.States.{held_at};
    ghost use Rattle.htl_analyst.specs.Keys.{HasTaken};
    ghost use Rattle.htl_analyst.specs.Right.{IsState};
    ghost use Rattle.htl_analyst.specs.Refusals.{TakeRefused, TakeAccepted, IsOfState};
    ghost use Rattle.htl_analyst.specs.Steps.{with_segment};
    ghost use Rattle.htl_analyst.specs.Calls.{Takes, without_return};

    /// Takes a segment. A segment whose key was taken is a repeat. A new one is held, whatever its
    /// number. A refusal hands the segment back. Memory is asked for only where the segment is new.
    pub fn take(&mut self, segment: Segment) -> Result<Took, (TakeFault, Segment)>
        ensures takes { Takes self.old segment self.new (without_return result) }
        ensures back { IfErr result (λ e. e.1 ≡ segment) }
        // What every analyst's state is, so that callers have it too.
        ensures is_state { IsState self.new }
    {
        match self.check_take(&segment) {
            Err(fault) => Err((fault, segment)),
            Ok(Took::Repeat) => Ok(Took::Repeat),
            Ok(Took::New) => match self.hold(segment) {
                Ok(()) => Ok(Took::New),
                Err(segment) => Err((TakeFault::NoMemory, segment)),
            },
        }
    }

    /// Whether the segment would be new, or is a repeat.
    fn check_take(&self, segment: &Segment) -> Result<Took, TakeFault>
        ensures accepted { OnOk result (TakeAccepted self.now segment.now) }
        ensures new { IfOk result (λ took. (took ≡ Took.New)
            ↔ (HasTaken self.now segment.now.processor segment.now.number → ⊥)) }
        ensures repeat { IfOk result (λ took. (took ≡ Took.Repeat)
            ↔ HasTaken self.now segment.now.processor segment.now.number) }
        ensures refused { IfErr result (λ fault. TakeRefused self.now segment.now fault) }
        ensures cause { IfErr result (λ fault. fault ≢ TakeFault.NoMemory) }
        ensures state { IsState self.now }
        ensures fits { Fits segment.now }
    {
        fits(segment);
        let processor = segment.processor();
        let number = segment.number();
        if segment.trace_id() != self.trace_id {
            return Err(TakeFault::OtherTrace);
        }
        if segment.processors() != self.processors {
            return Err(TakeFault::OtherProcessors);
        }
        if number < self.front(processor) {
            return Ok(Took::Repeat);
        }
        match self.find_held(processor, number) {
            None => Ok(Took::New),
            Some(held) if held.same(segment) => Ok(Took::Repeat),
            Some(_) => Err(TakeFault::Conflict(processor, number)),
        }
    }

    /// The held segment of this key.
    pub(crate) fn find_held(&self, processor: u16, number: u32) -> Option<&Segment>
        requires { processor < self.now.processors }
        ensures some { IfSome result (λ s. Contains (held_at self.now.parts processor) s.now
            × (s.now.number ≡ number)) }
        ensures none { IfNone result ((s : Content) → Contains (held_at self.now.parts processor) s
            → s.number ≡ number → ⊥) }
        ensures one { (s t : Content) → Contains (held_at self.now.parts processor) s
            → Contains (held_at self.now.parts processor) t → s.number ≡ t.number → s ≡ t }
        ensures taken { IfNone result (HasTaken self.now processor number
            → number < front_at self.now.taken processor) }
        ensures loose { IfNone result (Contains (loose_at self.now.taken processor) number → ⊥) }
    {
        match self.taken.search(processor, number) {
            Ok(place) => Some(&self.part(processor).held()[place]),
            Err(_) => None,
        }
    }

    /// Holds a segment that wasn't taken.
    fn hold(&mut self, segment: Segment) -> Result<(), Segment>
        requires of_state { IsOfState self.old segment }
        requires new { HasTaken self.old segment.processor segment.number → ⊥ }
        ensures ok { OnOk result (self.new ≡ with_segment self.old segment) }
        ensures err { IfErr result (λ s. (s ≡ segment) × (self.new ≡ self.old)) }
    {
        fits(&segment);
        let processor = segment.processor();
        let number = segment.number();
        let place = match self.taken.search(processor, number) {
            Ok(place) | Err(place) => place,
        };
        let part = &mut self.parts[usize::from(processor)];
        if part.held.reserve(1).is_err() {
            return Err(segment);
        }
        if self.taken.insert(processor, number).is_err() {
            return Err(segment);
        }
        insert_reserved(&mut part.held, place, segment);
        Ok(())
    }
}

/// For proofs: the rules that every segment keeps. It does nothing when it runs.
fn fits(segment: &Segment)
    ensures { Fits segment.now }
{
    let _events = segment.events();
}

/// Inserts a segment. There is room for it.
fn insert_reserved<A: Allocator>(held: &mut Vec<Segment, A>, place: usize, segment: Segment)
    requires within { place ≤ length held.old.items }
    requires room { vec_len held.old < vec_capacity held.old }
    ensures { held.new.items ≡ insert held.old.items place segment }
{
    if held.insert(place, segment).is_err() {
        unreachable!();
    }
}
