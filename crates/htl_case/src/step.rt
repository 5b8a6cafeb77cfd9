//! Steps of analysts over a case.

ghost use Rattle.std.specs.Prelude.{◌↔◌, IsTrue};
ghost use Rattle.htl_case.specs.Plays.{NamesNoAnalyst, NamesNoSegment};

/// One step of one analyst. Analysts are named by their places, counted from 0, and segments
/// by theirs in `Case::segments`.
#[derive(Clone, Copy, Debug, PartialEq, Eq)]
pub enum Step {
    /// The analyst takes the segment.
    Take { analyst: u32, segment: u32 },
    /// The source is merged into the target. Where both are one analyst, it is merged with its
    /// copy.
    Merge { target: u32, source: u32 },
    /// The analyst is compacted.
    Compact { analyst: u32 },
}

impl Step {
    /// Whether the step names an analyst at a place that isn't below this number.
    pub(crate) fn names_no_analyst(self, analysts: u32) -> bool
        ensures { IsTrue result ↔ NamesNoAnalyst analysts self }
    {
        match self {
            Step::Take { analyst, .. } | Step::Compact { analyst } => analyst >= analysts,
            Step::Merge { target, source } => target >= analysts || source >= analysts,
        }
    }

    /// Whether the step names a segment at a place that isn't below this number.
    pub(crate) fn names_no_segment(self, segments: usize) -> bool
        ensures { IsTrue result ↔ NamesNoSegment segments self }
    {
        match self {
            Step::Take { segment, .. } => segment as usize >= segments,
            Step::Merge { .. } | Step::Compact { .. } => false,
        }
    }
}
