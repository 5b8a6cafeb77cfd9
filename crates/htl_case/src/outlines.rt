//! The outlines of segments, and the tests that outlines are of one trace and that no key comes
//! twice.

ghost use Rattle.std.specs.Prelude.{◌≡◌, ◌≤◌, ℕ, true, false, map, IfOk, MatchOption};
ghost use Rattle.std.specs.List.{list_all};
ghost use Rattle.std.specs.List.Sorted.{IsPermutation};
ghost use Rattle.htl_event.specs.Members.{IsRising};
ghost use Rattle.htl_segment.specs.Outlines.{outline_of};
ghost use Rattle.htl_case.specs.Ordered.{AreSortedBy};
ghost use Rattle.htl_case.specs.Outlined.{outline_key, IsOutlineBefore, times_key, is_of, AreOfOne};

use htl_event::NoMemory;
use htl_segment::{Outline, Segment};
use std::alloc::Global;

/// The outlines of the segments.
pub fn outlines_of(alloc: Global, segments: &[Segment]) -> Result<Vec<Outline>, NoMemory>
    ensures { IfOk result (λ outlines. outlines.items ≡ map outline_of segments.now) }
{
    let mut outlines = Vec::with_capacity(alloc, segments.len())?;
    for segment in segments {
        outlines.push(segment.outline())?;
    }
    Ok(outlines)
}

/// A segment's processor and number.
pub fn key(outline: &Outline) -> (u16, u32)
    ensures { result ≡ outline_key outline.now }
{
    (outline.processor, outline.number)
}

/// The processor count of all segments, or none where there is no segment or there are several traces.
pub fn processors_of(outlines: &[Outline]) -> Option<u16>
    ensures { MatchOption result
        ((processors : ℕ) → AreOfOne outlines.now processors → ⊥)
        (AreOfOne outlines.now) }
{
    let first = outlines.first()?;
    if all_are_of(outlines, first.trace_id, first.processors) {
        Some(first.processors)
    } else {
        None
    }
}

fn all_are_of(outlines: &[Outline], trace_id: u64, processors: u16) -> bool
    ensures { result ≡ list_all (is_of trace_id processors) outlines.now }
{
    outlines
        .iter()
        .all(|outline| is_of(outline, trace_id, processors))
}

fn is_of(outline: &Outline, trace_id: u64, processors: u16) -> bool
    ensures { result ≡ is_of trace_id processors outline.now }
{
    outline.trace_id == trace_id && outline.processors == processors
}

/// Puts the outlines in the order of their keys.
pub fn sort_by_key(outlines: &mut Vec<Outline>)
    ensures moved { IsPermutation outlines.old.items outlines.new.items }
    ensures sorted { AreSortedBy outline_key outlines.new.items }
{
    outlines.sort_unstable_by_key(|outline| key(outline));
}

/// Whether a key comes twice. The outlines are in the order of their keys.
pub fn key_comes_twice(outlines: &[Outline]) -> bool
    requires { AreSortedBy outline_key outlines.now }
    ensures once { result ≡ false → IsRising IsOutlineBefore outlines.now }
    ensures twice { result ≡ true → (key : ℕ × ℕ) × (2 ≤ times_key key outlines.now) }
{
    let Some((first, rest)) = outlines.split_first() else {
        return false;
    };
    let mut last = first;
    for outline in rest {
        if key(outline) == key(last) {
            return true;
        }
        last = outline;
    }
    false
}
