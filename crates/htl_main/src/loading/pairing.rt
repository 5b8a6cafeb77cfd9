//! Which two segments break the rule that a fault names.

ghost use Rattle.std.specs.Prelude.{◌≡◌, ◌==◌, [], MatchOption, false, nat_le};
ghost use Rattle.std.specs.List.{list_any};
ghost use Rattle.htl_case.specs.Faults.{Falls, HaveOneContent, IsRefusal};
ghost use Rattle.htl_main.specs.Origins.{BreakRuleAt, is_about_two};
ghost use Rattle.htl_main.specs.Pairs.{AreOne, AreTwoAt, HaveOne, IsLeastSequence, IsOtherAt};
ghost use Rattle.htl_main.specs.Pairs.{NonePasses, PassesAt, has_shared, is_key, reaches};

use htl_case::CaseFault;
use htl_segment::Segment;

/// The places of the two segments that break the rule that the fault names.
#[tactic(auto, using(crate::proofs::PairLaws::contents_pair, crate::proofs::PairLaws::falling_pair))]
pub(crate) fn pair(segments: &[Segment], fault: CaseFault) -> Option<(usize, usize)>
    requires { IsRefusal segments.now fault }
    ensures { MatchOption result (is_about_two fault ≡ false)
        (λ pair. BreakRuleAt segments.now fault pair.0 pair.1) }
{
    match fault {
        CaseFault::Empty | CaseFault::NoMemory => None,
        CaseFault::OtherTrace(place) | CaseFault::OtherProcessors(place) => {
            Some((place as usize, 0))
        }
        CaseFault::TwoContents(processor, number) => {
            two_of(segments, Shared::Key { processor, number })
        }
        CaseFault::SequenceTwice(sequence) => two_of(segments, Shared::Sequence(sequence)),
        CaseFault::Falling(processor, number) => falling(segments, processor, number),
    }
}

/// What two different segments may not have in common.
#[derive(Clone, Copy)]
pub(crate) enum Shared {
    Key { processor: u16, number: u32 },
    /// The sequence of an event.
    Sequence(u64),
}

impl Shared {
    /// Whether the segment has it.
    fn is_of(self, segment: &Segment) -> bool
        ensures { result ≡ has_shared self segment.now }
    {
        match self {
            Shared::Key { processor, number } => is_key(segment, processor, number),
            Shared::Sequence(sequence) => has_sequence(segment, sequence),
        }
    }
}

fn is_key(segment: &Segment, processor: u16, number: u32) -> bool
    ensures { result ≡ is_key processor number segment.now }
{
    segment.processor() == processor && segment.number() == number
}

/// Whether the segment has an event of the sequence.
fn has_sequence(segment: &Segment, sequence: u64) -> bool
    ensures { result ≡ list_any (λ e. e.sequence == sequence) segment.now.events }
{
    segment
        .events()
        .iter()
        .any(|event| event.sequence == sequence)
}

/// The places of two different segments that have it in common.
#[tactic(auto, using(crate::proofs::PairLaws::are_one))]
fn two_of(segments: &[Segment], shared: Shared) -> Option<(usize, usize)>
    ensures { MatchOption result (AreOne shared segments.now)
        (λ pair. AreTwoAt segments.now shared pair.0 pair.1) }
{
    let first = first_with(segments, shared)?;
    let second = other_with(segments, shared, segments.get(first)?)?;
    Some((first, second))
}

#[tactic(auto, using(crate::proofs::PairLaws::first_passing))]
fn first_with(segments: &[Segment], shared: Shared) -> Option<usize>
    ensures { MatchOption result (NonePasses (has_shared shared) segments.now)
        (PassesAt (has_shared shared) segments.now) }
{
    segments.iter().position(|segment| shared.is_of(segment))
}

/// The place of a segment that has it too and differs from this one.
fn other_with(segments: &[Segment], shared: Shared, one: &Segment) -> Option<usize>
    ensures { MatchOption result (HaveOne shared segments.now one.now)
        (IsOtherAt shared segments.now one.now) }
{
    for (place, segment) in segments.iter().enumerate() {
        if shared.is_of(segment) && !segment.same(one) {
            return Some(place);
        }
    }
    None
}

/// The places of the segment of this key, and of one with a lower number that has an event at or
/// after that segment's first one.
#[tactic(auto, using(crate::proofs::PairLaws::no_key))]
fn falling(segments: &[Segment], processor: u16, number: u32) -> Option<(usize, usize)>
    requires { HaveOneContent segments.now }
    ensures { MatchOption result (Falls segments.now (processor, number) → ⊥) (λ pair.
        BreakRuleAt segments.now (CaseFault.Falling processor number) pair.0 pair.1) }
{
    let place = first_with(segments, Shared::Key { processor, number })?;
    let floor = least_sequence(segments.get(place)?)?;
    let lower = lower_reaching(segments, processor, number, floor)?;
    Some((place, lower))
}

/// The least sequence of a segment's events.
#[tactic(auto, using(crate::proofs::PairLaws::least_sequence))]
fn least_sequence(segment: &Segment) -> Option<u64>
    ensures { MatchOption result (segment.now.events ≡ []) (IsLeastSequence segment.now.events) }
{
    let first = segment.events().first()?;
    Some(first.sequence)
}

/// The place of a segment of the processor with a lower number and an event at or above the floor.
#[tactic(auto, using(crate::proofs::PairLaws::first_passing))]
fn lower_reaching(segments: &[Segment], processor: u16, number: u32, floor: u64) -> Option<usize>
    ensures { MatchOption result (NonePasses (reaches processor number floor) segments.now)
        (PassesAt (reaches processor number floor) segments.now) }
{
    segments.iter().position(|segment| is_lower_reaching(segment, processor, number, floor))
}

fn is_lower_reaching(segment: &Segment, processor: u16, number: u32, floor: u64) -> bool
    ensures { result ≡ reaches processor number floor segment.now }
{
    segment.processor() == processor && segment.number() < number && has_from(segment, floor)
}

/// Whether the segment has an event whose sequence is the floor or above.
fn has_from(segment: &Segment, floor: u64) -> bool
    ensures { result ≡ list_any (λ e. nat_le floor e.sequence) segment.now.events }
{
    segment.events().iter().any(|event| floor <= event.sequence)
}
