//! The segments of inputs, and which input each is of.

ghost use Rattle.std.specs.Prelude.{◌≡◌, ◌≢◌, ◌<◌, ◌⊎◌, ℕ, List, ◌++◌, [], length, slice_get, Some};
ghost use Rattle.std.specs.Prelude.{OnErr, OnOk, None};
ghost use Rattle.htl_command.specs.declared.question.InputForm.{InputForm};
ghost use Rattle.htl_inputs.specs.CutInputs.{cut_ends_at};
ghost use Rattle.htl_inputs.specs.Inputs.{Decodes};
ghost use Rattle.htl_inputs.specs.Spans.{AreSpans, span_at};

use crate::cuts::{Accepted, CutEnd, add_end};
use htl_event::NoMemory;
use htl_segment::Segment;
use std::alloc::Global;

/// An input that has segments, and how many segments it and all earlier inputs have together.
#[derive(Clone, Copy)]
pub struct InputSpan {
    pub input: u64,
    pub end: usize,
}

/// All segments in the order of the inputs, the span of segments that each input has, and the
/// inputs that end within a segment.
#[derive(Drop)]
pub struct Decoded {
    pub segments: Vec<Segment>,
    pub spans: Vec<InputSpan>,
    pub cuts: Vec<CutEnd>,
}

impl Decoded {
    /// The segments of no input.
    #[tactic(auto, using(crate::proofs::SpanLaws::no_spans))]
    pub fn new(alloc: Global) -> Decoded
        ensures segments { result.segments.items ≡ [] }
        ensures spans { (form : InputForm) (inputs : List (List ℕ))
            → AreSpans form inputs result.segments.items result.spans.items }
        ensures cuts { result.cuts.items ≡ [] }
    {
        Decoded {
            segments: Vec::new(alloc),
            spans: Vec::new(alloc),
            cuts: Vec::new(alloc),
        }
    }

    /// Adds the input at this place.
    pub fn add(&mut self, place: u64, more: Accepted<Vec<Segment>>) -> Result<(), NoMemory>
        ensures segments { OnOk result
            (self.new.segments.items ≡ self.old.segments.items ++ more.segments.items) }
        ensures spans { OnOk result ((form : InputForm) (inputs : List (List ℕ)) (text : List ℕ)
            → slice_get inputs place ≡ Some text → Decodes form text more.segments.items
            → AreSpans form inputs self.old.segments.items self.old.spans.items
            → AreSpans form inputs self.new.segments.items self.new.spans.items) }
        ensures cuts { OnOk result (self.new.cuts.items
            ≡ self.old.cuts.items ++ cut_ends_at place more.end) }
        ensures full { OnErr result
            ((0 < length more.segments.items) ⊎ (more.end ≢ None)) }
    {
        add_end(&mut self.cuts, place, more.end)?;
        self.add_segments(place, more.segments)?;
        Ok(())
    }

    /// Adds the segments of another input.
    pub fn add_segments(&mut self, input: u64, mut more: Vec<Segment>) -> Result<(), NoMemory>
        ensures segments { OnOk result
            (self.new.segments.items ≡ self.old.segments.items ++ more.items) }
        ensures spans { OnOk result ((form : InputForm) (inputs : List (List ℕ)) (text : List ℕ)
            → slice_get inputs input ≡ Some text → Decodes form text more.items
            → AreSpans form inputs self.old.segments.items self.old.spans.items
            → AreSpans form inputs self.new.segments.items self.new.spans.items) }
        ensures kept { self.new.cuts ≡ self.old.cuts }
        ensures full { OnErr result (0 < length more.items) }
    {
        if more.is_empty() {
            return Ok(());
        }
        self.segments.append(&mut more)?;
        self.spans.push(InputSpan {
            input,
            end: self.segments.len(),
        })?;
        Ok(())
    }
}

/// The span that the segment at a place is in.
pub fn span_at(spans: &[InputSpan], place: usize) -> Option<InputSpan>
    ensures { result ≡ span_at spans.now place }
{
    spans.iter().copied().find(|span| place < span.end)
}
