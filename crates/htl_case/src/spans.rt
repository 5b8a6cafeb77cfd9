//! The first and the last sequence of a case. Nothing here takes memory.

ghost use Rattle.std.specs.Prelude.{◌≡◌, ◌++◌, List, map};
ghost use Rattle.std.specs.List.{AllByRecursion};
ghost use Rattle.htl_event.specs.Events.{Event};
ghost use Rattle.htl_segment.specs.Content.{Content, Fits};
ghost use Rattle.htl_segment.specs.Outlines.{outline_of};
ghost use Rattle.htl_segment.specs.Traces.{all_events};
ghost use Rattle.htl_case.specs.Spans.{IsSpan};

use crate::case::Case;
use crate::picked::PickedCase;
use htl_event::Span;
use htl_segment::Outline;

impl Case {
    ghost use Rattle.htl_segment.specs.Traces.{all_events};
    ghost use Rattle.htl_case.specs.Spans.{IsSpan};

    /// The first and the last sequence of all events, or none where there is no event.
    pub fn span(&self) -> Option<Span>
        ensures { IsSpan (all_events self.now.segments) result }
    {
        let mut span = None;
        for segment in self.segments() {
            span = widened(span, &segment.outline());
        }
        span
    }
}

impl PickedCase {
    ghost use Rattle.std.specs.Prelude.{◌≡◌, map};
    ghost use Rattle.htl_segment.specs.Outlines.{outline_of};
    ghost use Rattle.htl_segment.specs.Traces.{Trace, IsTrace, all_events};
    ghost use Rattle.htl_case.specs.Spans.{IsSpan};

    /// The first and the last sequence of all events of the trace, in hand or not, or none where
    /// there is no event.
    pub fn span(&self) -> Option<Span>
        ensures { (T : Trace) → IsTrace T → self.now.outlines ≡ map outline_of T.segments
            → IsSpan (all_events T.segments) result }
    {
        span_of(self.outlines())
    }
}

/// The first and the last sequence of the events of segments with these outlines, or none where there
/// is no event.
pub(crate) fn span_of(outlines: &[Outline]) -> Option<Span>
    ensures { (segments : List Content) → AllByRecursion Fits segments
        → outlines.now ≡ map outline_of segments → IsSpan (all_events segments) result }
{
    let mut span = None;
    for outline in outlines {
        span = widened(span, outline);
    }
    span
}

/// The span of the events before and of one segment more.
fn widened(span: Option<Span>, outline: &Outline) -> Option<Span>
    ensures { (events : List Event) (s : Content) → Fits s → outline.now ≡ outline_of s
        → IsSpan events span → IsSpan (events ++ s.events) result }
{
    if outline.first == 0 {
        return span;
    }
    Some(match span {
        None => Span {
            first: outline.first,
            last: outline.last,
        },
        Some(span) => Span {
            first: span.first.min(outline.first),
            last: span.last.max(outline.last),
        },
    })
}
