//! Makes the case of decoded segments, or finds two segments that break a rule of cases.

ghost use Rattle.std.specs.Prelude.{◌≡◌, ℕ, List, Option, IfOk, IfErr, IfNone, IfSome};
ghost use Rattle.std.specs.Prelude.{Some, slice_get};
ghost use Rattle.htl_segment.specs.Content.{Content};
ghost use Rattle.htl_case.specs.Cases.{IsCaseOf};
ghost use Rattle.htl_case.specs.Faults.{IsRefusal};
ghost use Rattle.htl_command.specs.declared.question.InputForm.{InputForm};
ghost use Rattle.htl_command.specs.declared.question.Job.{Job};
ghost use Rattle.htl_inputs.specs.CutInputs.{decoding};
ghost use Rattle.htl_inputs.specs.Faults.{of_case};
ghost use Rattle.htl_inputs.specs.Inputs.{DecodeAll};
ghost use Rattle.htl_inputs.specs.Spans.{AreSpans};
ghost use Rattle.htl_main.specs.Causes.{IsCauseAfter};
ghost use Rattle.htl_main.specs.Folding.{IsHalfKnown};
ghost use Rattle.htl_main.specs.Origins.{IsBetween, IsBetweenOf, IsOriginOf};

use crate::loading::pairing::pair;
use crate::origin::{Between, Origin};
use crate::refused::Refused;
use htl_case::{Case, CaseFault};
use htl_inputs::{CutEnd, Decoded, InputSpan, RunFault, span_at};
use htl_segment::{Segment, copies};
use std::alloc::Global;

/// The case of decoded segments, and which inputs are cut. `Case::of` drops segments that it
/// refuses, so copies (32 bytes each) are kept to name the two that conflict. Without memory for
/// copies the case or the fault is the same.
#[tactic(auto, using(crate::proofs::CaseRefused::cause_of_case))]
pub(crate) fn case_of(alloc: Global, decoded: Decoded) -> Result<(Case, Vec<CutEnd>), Refused>
    ensures ok { IfOk result (λ of. IsCaseOf decoded.segments.items of.0) }
    ensures cuts { IfOk result (λ of. of.1 ≡ decoded.cuts) }
    ensures err { IfErr result (λ refused.
        (symbols : Option (List ℕ)) (job : Job)
        → IsCauseAfter (decoding decoded.segments.items decoded.cuts.items) symbols job
        refused.fault) }
    ensures between { IfErr result (λ refused. (form : InputForm) (inputs : List (List ℕ))
        → DecodeAll form inputs decoded.segments.items
        → AreSpans form inputs decoded.segments.items decoded.spans.items
        → IsBetween form inputs refused.fault refused.between) }
{
    let Decoded {
        segments,
        spans,
        cuts,
    } = decoded;
    let kept = copies(alloc, &segments);
    match Case::of(alloc, segments) {
        Ok(case) => Ok((case, cuts)),
        Err(fault) => Err(Refused {
            fault: RunFault::from(fault),
            between: match kept {
                Ok(kept) => between(&kept, &spans, fault),
                Err(_) => unknown(fault),
            },
        }),
    }
}

/// The origins of the two segments that break the rule of the fault.
fn between(segments: &[Segment], spans: &[InputSpan], fault: CaseFault) -> Between
    requires { IsRefusal segments.now fault }
    ensures { (form : InputForm) (inputs : List (List ℕ)) → AreSpans form inputs segments.now spans.now
        → IsBetweenOf form inputs segments.now fault result }
{
    let Some((first, second)) = pair(segments, fault) else {
        return Between::Nothing;
    };
    match (
        origin(segments, spans, first),
        origin(segments, spans, second),
    ) {
        (Some(first), Some(second)) => Between::Two(first, second),
        _ => Between::Nothing,
    }
}

/// What is reported of a fault's two segments if these aren't kept.
pub(crate) fn unknown(fault: CaseFault) -> Between
    ensures between { (form : InputForm) (inputs : List (List ℕ)) (segments : List Content)
        → IsBetweenOf form inputs segments fault result }
    ensures half { IsHalfKnown (of_case fault) result }
{
    match fault {
        CaseFault::Empty | CaseFault::NoMemory => Between::Nothing,
        _ => Between::Unknown,
    }
}

/// The origin of the segment at a place.
fn origin(segments: &[Segment], spans: &[InputSpan], place: usize) -> Option<Origin>
    ensures some { IfSome result (λ origin. (form : InputForm) (inputs : List (List ℕ)) (s : Content)
        → AreSpans form inputs segments.now spans.now → slice_get segments.now place ≡ Some s
        → IsOriginOf form inputs s origin) }
    ensures none { IfNone result ((form : InputForm) (inputs : List (List ℕ)) (s : Content)
        → AreSpans form inputs segments.now spans.now → slice_get segments.now place ≡ Some s → ⊥) }
{
    let segment = segments.get(place)?;
    let span = span_at(spans, place)?;
    Some(Origin::of(span.input, segment))
}
