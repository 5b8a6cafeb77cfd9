//! The case of a case's segments and of more. A sequence of the new events can only come again in
//! segments whose sequences meet theirs, so the events of the others aren't looked at.

ghost use Rattle.std.specs.Prelude.{◌≡◌, ◌++◌, ◌∷◌, [], ℕ, ◌≤◌, List, false, filter, map, All};
ghost use Rattle.std.specs.Prelude.{IfOk, IfSome, OnOk};
ghost use Rattle.htl_event.specs.Handles.{HaveOwnSequences};
ghost use Rattle.htl_segment.specs.Content.{Fits};
ghost use Rattle.htl_segment.specs.Repeated.{sequence_of, times};
ghost use Rattle.htl_segment.specs.Seen.{Saw};
ghost use Rattle.htl_segment.specs.Traces.{all_events};
ghost use Rattle.htl_case.specs.Cases.{IsCaseOf};
ghost use Rattle.htl_case.specs.Outlined.{may_have, meets};

use crate::case::Case;
use crate::fault::CaseFault;
use crate::ordering::{check_one_trace, in_order};
use crate::outlines::outlines_of;
use crate::sequences::note_sequences;
use crate::spans::span_of;
use htl_event::{NoMemory, Span};
use htl_segment::{Outline, Seen, Segment};
use std::alloc::Global;

impl Case {
    ghost use Rattle.std.specs.Prelude.{◌++◌, IfSome};
    ghost use Rattle.htl_case.specs.Cases.{IsCaseOf};

    /// The case of these segments and its own, which it copies. There is none if they form no case, or
    /// if memory is refused: `Case::of` tells which.
    ///
    /// Few segments cost little, since of its own events only those are looked at whose segments lie
    /// among the new ones.
    pub fn with_more(&self, alloc: Global, more: &[Segment]) -> Option<Case>
        ensures { IfSome result (IsCaseOf (more.now ++ self.now.segments)) }
    {
        match grown(alloc, more, self.segments()) {
            Ok(case) => case,
            Err(_) => None,
        }
    }
}

/// The case of both lists of segments, of which the second is a case's. There is none where a sequence
/// comes twice.
fn grown(alloc: Global, more: &[Segment], own: &[Segment]) -> Result<Option<Case>, CaseFault>
    requires { HaveOwnSequences (all_events own.now) }
    ensures { IfOk result (λ case. IfSome case (IsCaseOf (more.now ++ own.now))) }
{
    let outlines = outlines_of(alloc, more)?;
    let span = span_of(&outlines);
    let segments = together(alloc, more, own)?;
    let (trace_id, processors) = check_one_trace(&segments)?;
    let ordered = in_order(segments)?;
    let comes_twice = one_comes_twice_within(alloc, &ordered, span)?;
    if comes_twice {
        return Ok(None);
    }
    let case = Case::of_trace(alloc, trace_id, processors, ordered)?;
    Ok(Some(case))
}

/// Copies of both lists of segments, in one.
fn together(alloc: Global, more: &[Segment], own: &[Segment]) -> Result<Vec<Segment>, NoMemory>
    ensures { IfOk result (λ all. all.items ≡ more.now ++ own.now) }
{
    let mut all = Vec::with_capacity(alloc, more.len().saturating_add(own.len()))?;
    push_copies(&mut all, more)?;
    push_copies(&mut all, own)?;
    Ok(all)
}

fn push_copies(all: &mut Vec<Segment>, segments: &[Segment]) -> Result<(), NoMemory>
    ensures { OnOk result (all.new.items ≡ all.old.items ++ segments.now) }
{
    for segment in segments {
        all.push(segment.copy()?)?;
    }
    Ok(())
}

/// Whether a sequence comes twice in those segments that may have events within the span.
fn one_comes_twice_within(
    alloc: Global,
    segments: &[Segment],
    span: Option<Span>,
) -> Result<bool, NoMemory>
    ensures once { IfOk result (λ twice. twice ≡ false → (n : ℕ)
        → times n (map sequence_of (all_events (filter (may_have span) segments.now))) ≤ 1) }
    ensures fit { OnOk result (All Fits segments.now) }
{
    let mut seen = Seen::new(alloc);
    for segment in segments {
        note_within(&mut seen, segment, span)?;
    }
    Ok(seen.comes_twice())
}

/// Notes the sequences of a segment that may have events within the span.
fn note_within(seen: &mut Seen, segment: &Segment, span: Option<Span>) -> Result<(), NoMemory>
    ensures saw { (numbers : List ℕ) → Saw seen.old numbers → OnOk result (Saw seen.new
        (numbers ++ map sequence_of (all_events (filter (may_have span) (segment.now ∷ []))))) }
    ensures fit { OnOk result (Fits segment.now) }
{
    let events = segment.events();
    if meets(&segment.outline(), span) {
        note_sequences(seen, events)?;
    }
    Ok(())
}

/// Whether the sequences from the first to the last of the outline meet those of the span.
fn meets(outline: &Outline, span: Option<Span>) -> bool
    ensures { result ≡ meets span outline.now }
{
    match span {
        Some(span) => outline.first <= span.last && span.first <= outline.last,
        None => false,
    }
}
