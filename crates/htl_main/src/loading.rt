//! What is loaded before a question is answered, or many.
//!
//! `adding.rt` adds more sources to it. `cases.rt` makes the case of all segments, or finds the two
//! that a fault is about, which `pairing.rt` pairs.

mod adding;
pub(crate) mod cases;
mod pairing;

ghost use Rattle.std.specs.Prelude.{◌≡◌, ℕ, Bool, List, map, IfErr, IfOk};
ghost use Rattle.std.specs.Option.{option_copied};
ghost use Rattle.htl_segment.specs.Content.{Content};
ghost use Rattle.htl_case.specs.Cases.{IsCase, IsCaseOf};
ghost use Rattle.htl_command.specs.declared.question.InputForm.{InputForm};
ghost use Rattle.htl_command.specs.declared.question.Job.{Job};
ghost use Rattle.htl_device.specs.States.{AreOpen};
ghost use Rattle.htl_inputs.specs.CutInputs.{AreCut, AreCutEnds, decoding};
ghost use Rattle.htl_inputs.specs.Inputs.{DecodeAll};
ghost use Rattle.htl_inputs.specs.Spans.{AreSpans};
ghost use Rattle.htl_main.specs.Runs.{LoadsAs};
ghost use Rattle.htl_main.specs.Causes.{IsCauseAfter};
ghost use Rattle.htl_main.specs.Coverages.{IsCoverage};
ghost use Rattle.htl_main.specs.Loading.{AreLoaded};
ghost use Rattle.htl_main.specs.Origins.{IsBetween};

use crate::coverage::{Coverage, Missed};
use crate::loading::cases::case_of;
use crate::printing::{check_gaps, check_workers, read_symbols};
use crate::refused::Refused;
pub use adding::{Added, add};
use htl_case::Case;
use htl_command::{Moment, Setting};
use htl_device::Parted;
use htl_evidence::Indexed;
use htl_inputs::{CutEnd, CutInputs, Decoded, RunFault, cut_inputs, read_all};
use htl_symbols::Symbols;
use std::alloc::Global;
use std::thread::Threads;

/// The case of all segments, how much of its trace it has, which inputs were cut, and the names of
/// its addresses. For many questions the case has an index.
#[derive(Drop)]
pub struct Loaded {
    pub case: Indexed,
    pub coverage: Coverage,
    /// The inputs that ended within a segment.
    pub cut: Option<CutInputs>,
    pub symbols: Symbols,
}

impl Loaded {
    ghost use Rattle.std.specs.Prelude.{◌≡◌};
    ghost use Rattle.htl_main.specs.Coverages.{IsCoverage};
    ghost use Rattle.htl_main.specs.Moments.{IsNamedMoment};

    /// The named moment as a sequence, or none if no moment is named: then all events count.
    pub(crate) fn moment(&self, named: Option<Moment>) -> Option<u64>
        ensures { IsCoverage self.now.case self.now.coverage
            → IsNamedMoment self.now.case named result }
    {
        self.coverage.moment(named)
    }

    /// The same with an index of the case, where there is memory for one.
    fn with_index(self, alloc: Global) -> Loaded
        ensures { result ≡ self }
    {
        let Loaded {
            case,
            coverage,
            cut,
            symbols,
        } = self;
        Loaded {
            case: case.with_index(alloc),
            coverage,
            cut,
            symbols,
        }
    }
}

/// Reads all sources and makes their segments a case. A run does exactly this before it answers as
/// of the moment, and reports the same faults.
pub fn load<Rt: Threads + Sync, R: Parted>(
    rt: &Rt,
    alloc: Global,
    setting: Setting,
    until: Option<Moment>,
    inputs: &mut [R],
    symbols: Option<&[u8]>,
) -> Result<Loaded, Refused>
    requires ready { AreOpen (map R.state inputs.old) }
    ensures { LoadsAs setting until (option_copied symbols.entry) (map R.state inputs.old)
        (map R.state inputs.new) result }
{
    check_workers(setting.workers)?;
    let decoded = read_all(rt, alloc, setting.form, setting.workers, inputs)?;
    let loaded = load_decoded(alloc, setting.complete, until, decoded, symbols)?;
    Ok(loaded.with_index(alloc))
}

/// The case of decoded segments, with the symbols. A case that isn't complete up to the moment is
/// refused where a complete one is asked for.
pub(crate) fn load_decoded(
    alloc: Global,
    complete: bool,
    until: Option<Moment>,
    decoded: Decoded,
    symbols: Option<&[u8]>,
) -> Result<Loaded, Refused>
    ensures ok { IfOk result (λ loaded.
        AreLoaded (decoding decoded.segments.items decoded.cuts.items)
        (option_copied symbols.entry) complete until loaded.case loaded.symbols) }
    ensures case { IfOk result (λ loaded. IsCase loaded.case) }
    ensures coverage { IfOk result (λ loaded. IsCoverage loaded.case loaded.coverage) }
    ensures cut { IfOk result (λ loaded. (hex : Bool) (inputs : List (List ℕ))
        → AreCutEnds hex inputs decoded.cuts.items → AreCut hex inputs loaded.cut) }
    ensures err { IfErr result (λ refused. (job : Job) → job.setting.complete ≡ complete
        → job.until ≡ until → IsCauseAfter (decoding decoded.segments.items decoded.cuts.items)
        (option_copied symbols.entry) job refused.fault) }
    ensures between { IfErr result (λ refused. (form : InputForm) (inputs : List (List ℕ))
        → DecodeAll form inputs decoded.segments.items
        → AreSpans form inputs decoded.segments.items decoded.spans.items
        → IsBetween form inputs refused.fault refused.between) }
{
    let (case, cuts) = case_of(alloc, decoded)?;
    let loaded = with_symbols(alloc, complete, until, case, &cuts, symbols)?;
    Ok(loaded)
}

/// The case with the symbols. A case that isn't complete up to the moment is refused where a complete
/// one is asked for.
pub(crate) fn with_symbols(
    alloc: Global,
    complete: bool,
    until: Option<Moment>,
    case: Case,
    cuts: &[CutEnd],
    symbols: Option<&[u8]>,
) -> Result<Loaded, RunFault>
    ensures ok { IfOk result (λ loaded. (segments : List Content) → IsCaseOf segments case
        → AreLoaded (decoding segments cuts.now) (option_copied symbols.entry) complete until
        loaded.case loaded.symbols) }
    ensures case { IfOk result (λ loaded. IsCase loaded.case) }
    ensures coverage { IfOk result (λ loaded. IsCoverage loaded.case loaded.coverage) }
    ensures cut { IfOk result (λ loaded. (hex : Bool) (inputs : List (List ℕ))
        → AreCutEnds hex inputs cuts.now → AreCut hex inputs loaded.cut) }
    ensures err { IfErr result (λ fault. (segments : List Content) (job : Job)
        → IsCaseOf segments case → job.setting.complete ≡ complete → job.until ≡ until
        → IsCauseAfter (decoding segments cuts.now) (option_copied symbols.entry) job fault) }
{
    let missed = Missed::of_case(alloc, &case)?;
    check_gaps(complete, until, &missed, cuts)?;
    let symbols = read_symbols(alloc, symbols)?;
    let coverage = missed.coverage();
    Ok(Loaded {
        case: Indexed::without(case),
        coverage,
        cut: cut_inputs(cuts),
        symbols,
    })
}
