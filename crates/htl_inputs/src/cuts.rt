//! Which inputs end within a segment.

ghost use Rattle.std.specs.Prelude.{◌≡◌, ◌≢◌, ◌++◌, ℕ, Bool, IfErr, IfOk, List, None, OnErr};
ghost use Rattle.std.specs.Prelude.{OnOk, Some, length};
ghost use Rattle.htl_segment.specs.Bundles.{bundle};
ghost use Rattle.htl_segment.specs.Content.{Content};
ghost use Rattle.htl_reading.specs.Sources.{EndsWithin, IsLeft};
ghost use Rattle.htl_inputs.specs.CutInputs.{AreCut, AreCutEnds, cut_ends_at};
ghost use Rattle.htl_inputs.specs.Ends.{IsEnd, IsEndRefused, IsSegmentOf};
ghost use Rattle.htl_inputs.specs.Inputs.{reported_of};

use crate::fault::RunFault;
use htl_command::InputForm;
use htl_event::NoMemory;
use htl_reading::{Bundle, EarlyEnd, SegmentName};
use htl_segment::Fault;

/// Inputs that end within a segment, which is `S1` or `S10` where inputs may not be partial.
#[derive(Clone, Copy, Debug, PartialEq, Eq)]
pub struct CutInputs {
    /// The place of the first of them, from 0.
    pub first: u64,
    /// How many others there are.
    pub others: u64,
}

/// An input that ends within a segment, and which segment that is.
#[derive(Clone, Copy, Debug, PartialEq, Eq)]
pub struct CutEnd {
    /// The place of the input, from 0.
    pub input: u64,
    /// The name of the segment, where its header is whole.
    pub name: Option<SegmentName>,
}

/// Which inputs are cut: the first of them, and how many others.
pub fn cut_inputs(cuts: &[CutEnd]) -> Option<CutInputs>
    ensures { (hex : Bool) (inputs : List (List ℕ)) → AreCutEnds hex inputs cuts.now
        → AreCut hex inputs result }
{
    let first = cuts.first()?;
    Some(CutInputs {
        first: first.input,
        others: (cuts.len() - 1) as u64,
    })
}

/// Adds the input at this place to the cut ones if it ends so.
pub fn add_end(cuts: &mut Vec<CutEnd>, place: u64, end: Option<EarlyEnd>) -> Result<(), NoMemory>
    ensures added { OnOk result (cuts.new.items ≡ cuts.old.items ++ cut_ends_at place end) }
    ensures full { OnErr result (end ≢ None) }
{
    let Some(EarlyEnd { name, .. }) = end else {
        return Ok(());
    };
    cuts.push(CutEnd { input: place, name })?;
    Ok(())
}

/// An input that was read and accepted.
#[derive(Drop)]
pub struct Accepted<T> {
    /// Its segments, in the form in which they are kept.
    pub segments: T,
    /// Where the input ends within another segment.
    pub end: Option<EarlyEnd>,
}

/// Accepts what was read of the input at this place. Refuses it if it ends within a segment and
/// inputs may not be partial, or its last bytes don't begin as a header does.
pub fn accept<T: Drop>(
    form: InputForm,
    place: u64,
    read: Bundle<T>,
) -> Result<Accepted<T>, RunFault>
    ensures segments { IfOk result (λ accepted. accepted.segments ≡ read.segments) }
    ensures end { (segments : List Content) (rest : List ℕ) → IsLeft segments rest read.early_end
        → IfOk result (λ accepted. IsEnd form segments rest accepted.end) }
    ensures refused { (segments : List Content) (rest : List ℕ)
        → IsLeft segments rest read.early_end
        → IfErr result (IsEndRefused form place (length (bundle segments)) rest) }
    ensures segment { IfErr result (IsSegmentOf place) }
{
    let end = check_end(form, place, read.early_end)?;
    Ok(Accepted {
        segments: read.segments,
        end,
    })
}

/// Accepts that the input at this place ends so. Refuses an end within a segment if inputs may not
/// be partial, or the bytes of that segment don't begin as a header does.
pub fn check_end(
    form: InputForm,
    place: u64,
    end: Option<EarlyEnd>,
) -> Result<Option<EarlyEnd>, RunFault>
    ensures end { (segments : List Content) (rest : List ℕ) → IsLeft segments rest end
        → IfOk result (IsEnd form segments rest) }
    ensures refused { (segments : List Content) (rest : List ℕ) → IsLeft segments rest end
        → IfErr result (IsEndRefused form place (length (bundle segments)) rest) }
    ensures segment { IfErr result (IsSegmentOf place) }
{
    let Some(early) = end else {
        return Ok(None);
    };
    match fault_of(form, early) {
        None => Ok(Some(early)),
        Some(fault) => Err(RunFault::Segment {
            input: place,
            offset: early.offset,
            fault,
        }),
    }
}

/// The fault of an input that ends within a segment. It has none where inputs may be partial, if the
/// segment's bytes begin as a header does.
fn fault_of(form: InputForm, end: EarlyEnd) -> Option<Fault>
    ensures { (segments : List Content) (rest : List ℕ) → EndsWithin segments rest end
        → result ≡ reported_of form.partial rest end.fault }
{
    if !form.partial {
        return Some(end.fault);
    }
    if end.is_begun {
        None
    } else {
        Some(Fault::Magic)
    }
}
