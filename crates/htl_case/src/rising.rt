//! The test that the sequences of a trace rise along each processor. Nothing here takes memory.

ghost use Rattle.std.specs.Prelude.{◌≡◌, ℕ, ◌<◌, ◌≤◌, ◌↔◌, if◌then◌else◌, ◌==◌, List, map, All};
ghost use Rattle.std.specs.Prelude.{IsTrue, MatchOption};
ghost use Rattle.htl_event.specs.Members.{IsLeastSuch};
ghost use Rattle.htl_segment.specs.Content.{Content, Fits};
ghost use Rattle.htl_segment.specs.Outlines.{outline_of};
ghost use Rattle.htl_segment.specs.Rising.{IsKeyBefore};
ghost use Rattle.htl_segment.specs.Traces.{AreInOrder};
ghost use Rattle.htl_case.specs.Faults.{Falls};

use crate::outlines::key;
use htl_segment::Outline;

/// The first segment with an event that isn't above all events in lower segments of its processor. The
/// segments are in the order of their keys.
pub fn falling(outlines: &[Outline]) -> Option<(u16, u32)>
    ensures { (segments : List Content) → outlines.now ≡ map outline_of segments
        → AreInOrder segments → All Fits segments
        → MatchOption result
        ((key : ℕ × ℕ) → Falls segments key → ⊥)
        (IsLeastSuch IsKeyBefore (Falls segments)) }
{
    let mut processor = 0;
    let mut highest = 0;
    for outline in outlines {
        let floor = floor_of(outline, processor, highest);
        if begins_within(outline, floor) {
            return Some(key(outline));
        }
        processor = outline.processor;
        highest = outline.last.max(floor);
    }
    None
}

/// The sequence above which a segment's sequences have to be: the highest so far of its processor, or 0
/// where the segment before it is of another one.
fn floor_of(outline: &Outline, processor: u16, highest: u64) -> u64
    ensures { result ≡ (if outline.now.processor == processor then highest else 0) }
{
    if outline.processor == processor {
        highest
    } else {
        0
    }
}

/// Whether the segment has an event, and the sequence of its first one isn't above the floor.
fn begins_within(outline: &Outline, floor: u64) -> bool
    ensures { IsTrue result ↔ ((0 < outline.now.first) × (outline.now.first ≤ floor)) }
{
    outline.first > 0 && outline.first <= floor
}
