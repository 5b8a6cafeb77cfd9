//! Puts the segments of one trace in the order of their keys, each once. Nothing here takes memory.

ghost use Rattle.std.specs.Prelude.{◌≡◌, ◌↔◌, ◌==◌, not, position};
ghost use Rattle.std.specs.Prelude.{IsTrue, IfOk, IfErr, MatchOption};
ghost use Rattle.std.specs.List.{dedup};
ghost use Rattle.std.specs.List.Sorted.{IsPermutation};
ghost use Rattle.htl_segment.specs.Rising.{IsKeyBefore};
ghost use Rattle.htl_event.specs.Members.{IsLeastSuch};
ghost use Rattle.htl_case.specs.Faults.{HasTwoContents, HaveOneContent, IsRefusal};
ghost use Rattle.htl_case.specs.Faults.{key_of};
ghost use Rattle.htl_case.specs.Ordered.{AreSorted, AreOf, IsInOrder, same_key, IsTwoContents};

use crate::fault::CaseFault;
use htl_segment::Segment;

/// The trace id and the processor count of all segments.
pub fn check_one_trace(segments: &[Segment]) -> Result<(u64, u16), CaseFault>
    ensures ok { IfOk result (λ found. AreOf segments.now found.0 found.1) }
    ensures err { IfErr result (IsRefusal segments.now) }
{
    let Some(first) = segments.first() else {
        return Err(CaseFault::Empty);
    };
    let (trace_id, processors) = (first.trace_id(), first.processors());
    if let Some(place) = other_trace(segments, trace_id) {
        return Err(CaseFault::OtherTrace(place as u64));
    }
    if let Some(place) = other_processors(segments, processors) {
        return Err(CaseFault::OtherProcessors(place as u64));
    }
    Ok((trace_id, processors))
}

fn other_trace(segments: &[Segment], trace_id: u64) -> Option<usize>
    ensures { result ≡ position (λ s. not (s.trace_id == trace_id)) segments.now }
{
    segments
        .iter()
        .position(|segment| segment.trace_id() != trace_id)
}

fn other_processors(segments: &[Segment], processors: u16) -> Option<usize>
    ensures { result ≡ position (λ s. not (s.processors == processors)) segments.now }
{
    segments
        .iter()
        .position(|segment| segment.processors() != processors)
}

/// A segment's processor and number.
pub fn key(segment: &Segment) -> (u16, u32)
    ensures { result ≡ key_of segment.now }
{
    (segment.processor(), segment.number())
}

fn have_one_key(one: &Segment, other: &Segment) -> bool
    ensures { IsTrue result ↔ (key_of one.now ≡ key_of other.now) }
{
    key(one) == key(other)
}

/// The segments in the order of their keys, equal repeats dropped.
pub fn in_order(mut segments: Vec<Segment>) -> Result<Vec<Segment>, CaseFault>
    ensures ok { IfOk result (λ ordered. IsInOrder segments.items ordered.items) }
    ensures err { IfErr result (IsTwoContents segments.items) }
{
    sort_by_key(&mut segments);
    if let Some((processor, number)) = two_contents(&segments) {
        return Err(CaseFault::TwoContents(processor, number));
    }
    drop_repeats(&mut segments);
    Ok(segments)
}

fn sort_by_key(segments: &mut Vec<Segment>)
    ensures moved { IsPermutation segments.old.items segments.new.items }
    ensures sorted { AreSorted segments.new.items }
{
    segments.sort_unstable_by_key(|segment| key(segment));
}

/// The least key that two different segments have. The segments are in the order of their keys.
fn two_contents(segments: &[Segment]) -> Option<(u16, u32)>
    requires { AreSorted segments.now }
    ensures { MatchOption result
        (HaveOneContent segments.now)
        (IsLeastSuch IsKeyBefore (HasTwoContents segments.now)) }
{
    let (first, rest) = segments.split_first()?;
    let mut last = first;
    for segment in rest {
        if have_one_key(segment, last) && !segment.same(last) {
            return Some(key(segment));
        }
        last = segment;
    }
    None
}

/// Keeps one segment of each key.
fn drop_repeats(segments: &mut Vec<Segment>)
    ensures { segments.new.items ≡ dedup same_key segments.old.items }
{
    segments.dedup_by_key(|segment| key(segment));
}
