//! More sources, whose segments are added to what was loaded.

ghost use Rattle.std.specs.Prelude.{◌≡◌, ◌⊎◌, ◌++◌, ◌∷◌, [], ℕ, Bool, List, None};
ghost use Rattle.std.specs.Prelude.{length, map, IfErr, IfOk};
ghost use Rattle.htl_case.specs.Cases.{IsCase};
ghost use Rattle.htl_command.specs.declared.question.InputForm.{InputForm};
ghost use Rattle.htl_command.specs.declared.question.Job.{Job};
ghost use Rattle.htl_device.specs.States.{AreOpen};
ghost use Rattle.htl_inputs.specs.CutInputs.{AreCut, AreCutEnds, decoding};
ghost use Rattle.htl_inputs.specs.Inputs.{DecodeAll, Decodes};
ghost use Rattle.htl_inputs.specs.Spans.{AreSpans};
ghost use Rattle.htl_main.specs.Causes.{IsCauseAfter};
ghost use Rattle.htl_main.specs.Coverages.{IsCoverage};
ghost use Rattle.htl_main.specs.Loading.{AreLoaded};
ghost use Rattle.htl_main.specs.Origins.{IsBetween};
ghost use Rattle.htl_main.specs.Runs.{AddsAs};

use crate::coverage::Coverage;
use crate::loading::{Loaded, load_decoded, with_symbols};
use crate::printing::check_workers;
use crate::refused::Refused;
use htl_command::Setting;
use htl_device::Parted;
use htl_evidence::Indexed;
use htl_inputs::{CutInputs, Decoded, RunFault, read_all};
use htl_segment::copies;
use std::alloc::Global;
use std::fmt;
use std::thread::Threads;

/// What reading more sources added.
#[derive(Clone, Copy, Debug, PartialEq, Eq)]
pub struct Added {
    /// The number of segments in the sources.
    pub segments: u64,
    /// The number of their keys that the case didn't have before.
    pub new: u64,
    /// How much of its trace the case has now.
    pub coverage: Coverage,
    /// The sources that end within a segment.
    pub cut: Option<CutInputs>,
}

/// The line of a dialogue that says what was added.
impl fmt::Display for Added {
    ghost use Rattle.std.specs.Prelude.{Some};
    ghost use Rattle.htl_main.specs.Adding.{added_text};

    ghost output = { λ added. Some (added_text added) };

    fn fmt<W: fmt::Write>(&self, f: &mut fmt::Formatter<W>) -> fmt::Result {
        let Added {
            segments,
            new,
            coverage: Coverage { gaps, complete_to },
            ..
        } = *self;
        write!(
            f,
            "read segments={segments} new={new} complete_to={complete_to} gaps={gaps}"
        )
    }
}

/// Reads all sources and adds their segments to what was loaded. Where they are refused, what was
/// loaded stays as it is.
///
/// Faults are those of a run over these sources and one more input after them, which has all that
/// was loaded before. Inputs are counted within these.
pub fn add<Rt: Threads + Sync, R: Parted>(
    rt: &Rt,
    alloc: Global,
    setting: Setting,
    loaded: &mut Loaded,
    inputs: &mut [R],
) -> Result<Added, Refused>
    requires ready { AreOpen (map R.state inputs.old) }
    ensures { AddsAs setting (map R.state inputs.old) (map R.state inputs.new)
        loaded.old loaded.new result }
{
    check_workers(setting.workers)?;
    let decoded = read_all(rt, alloc, setting.form, setting.workers, inputs)?;
    let segments = decoded.segments.len() as u64;
    let place = inputs.len() as u64;
    let whole = load_with(alloc, setting.complete, &loaded.case, decoded, place)?;
    let Loaded {
        case,
        coverage,
        cut,
        ..
    } = whole;
    let new = (case.segments().len() - loaded.case.segments().len()) as u64;
    loaded.case.grow(alloc, case);
    loaded.coverage = coverage;
    Ok(Added {
        segments,
        new,
        coverage,
        cut,
    })
}

/// Makes a case of the decoded segments and of copies of the old case's segments, which count as
/// the input `place`. It reads no symbols. Only where they form no case does it look at all events, to
/// find out why.
fn load_with(
    alloc: Global,
    complete: bool,
    before: &Indexed,
    mut decoded: Decoded,
    place: u64,
) -> Result<Loaded, Refused>
    ensures before { IsCase before.now }
    ensures ok { IfOk result (λ loaded. AreLoaded
        (decoding (decoded.segments.items ++ before.now.segments) decoded.cuts.items)
        None complete None loaded.case loaded.symbols) }
    ensures cut { IfOk result (λ loaded. (hex : Bool) (inputs : List (List ℕ))
        → AreCutEnds hex inputs decoded.cuts.items → AreCut hex inputs loaded.cut) }
    ensures coverage { IfOk result (λ loaded. IsCoverage loaded.case loaded.coverage) }
    // Memory is also refused for the copies.
    ensures err { IfErr result (λ refused. (refused.fault ≡ RunFault.Memory)
        ⊎ ((job : Job) → job.setting.complete ≡ complete → job.until ≡ None
        → IsCauseAfter
        (decoding (decoded.segments.items ++ before.now.segments) decoded.cuts.items)
        None job refused.fault)) }
    ensures between { IfErr result (λ refused. (form : InputForm) (inputs : List (List ℕ))
        (earlier : List ℕ) → length inputs ≡ place → DecodeAll form inputs decoded.segments.items
        → AreSpans form inputs decoded.segments.items decoded.spans.items
        → Decodes form earlier before.now.segments
        → IsBetween form (inputs ++ earlier ∷ []) refused.fault refused.between) }
{
    let own = before.segments();
    if let Some(case) = before.with_more(alloc, &decoded.segments) {
        let whole = with_symbols(alloc, complete, None, case, &decoded.cuts, None)?;
        return Ok(whole);
    }
    let earlier = copies(alloc, own)?;
    decoded.add_segments(place, earlier)?;
    let loaded = load_decoded(alloc, complete, None, decoded, None)?;
    Ok(loaded)
}
