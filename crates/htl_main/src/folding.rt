//! A reading that forgets: segments are folded as they come, and no event is kept.
//!
//! `taking.rt` takes the segments of sources, `folder.rt` folds them, `falling.rt` finds which one
//! falls once another one is taken, `answers.rt` answers over what was folded, `states.rt` makes and
//! merges its state, and `writing.rt` folds sources and writes it.

mod answers;
mod falling;
mod folder;
mod states;
mod taking;
mod writing;

ghost use Rattle.std.specs.Prelude.{◌≡◌, List, Some, None, true, map, IfErr, IfOk};
ghost use Rattle.std.specs.Option.{option_copied};
ghost use Rattle.htl_segment.specs.Content.{Content};
ghost use Rattle.htl_segment.specs.Traces.{Trace};
ghost use Rattle.htl_device.specs.States.{AreOpen};
ghost use Rattle.htl_main.specs.Completeness.{IsComplete};
ghost use Rattle.htl_main.specs.Coverages.{IsCoverage};
ghost use Rattle.htl_main.specs.Folders.{IsMissingOf};
ghost use Rattle.htl_main.specs.Folders.{IsAddedToFolded, IsNotAdded, IsSymbolsFault};
ghost use Rattle.htl_main.specs.Folding.{AreFolded, IsCollectionOf};
ghost use Rattle.htl_main.specs.Printed.{HasSymbols};
ghost use Rattle.htl_main.specs.Runs.{BeginsAs, FoldsAs};

use crate::coverage::{Coverage, Missed};
use crate::folding::taking::{Taken, take_all};
use crate::loading::Added;
use crate::printing::{check_gaps, check_workers, read_symbols};
use crate::refused::Refused;
pub use answers::folded_text;
use htl_analyst::Analyst;
use htl_case::CaseFault;
use htl_command::Setting;
use htl_device::Parted;
use htl_inputs::{CutEnd, RunFault, cut_inputs};
use htl_symbols::Symbols;
pub use states::{merge_state, state_bytes};
use std::alloc::Global;
use std::thread::Threads;
pub use writing::fold_from;

/// What was folded of the segments that were read, and the names of addresses. No event is kept,
/// but for those of segments that wait for others with lower numbers.
#[derive(Drop)]
pub struct Folded {
    /// The analyst, from the first segment on.
    pub analyst: Option<Analyst<Global>>,
    pub symbols: Symbols,
}

impl Folded {
    ghost use Rattle.std.specs.Prelude.{◌≡◌, [], None};
    ghost use Rattle.htl_main.specs.Folders.{number_of};

    /// What there is before anything was folded, with no names.
    pub fn none(alloc: Global) -> Folded
        ensures analyst { result.analyst ≡ None }
        ensures symbols { result.symbols ≡ [] }
    {
        Folded {
            analyst: None,
            symbols: Symbols::none(alloc),
        }
    }

    /// How many segments were taken, each key once.
    fn number(&self) -> u64
        ensures { result ≡ number_of self.now.analyst }
    {
        match &self.analyst {
            Some(analyst) => analyst.taken(),
            None => 0,
        }
    }
}

/// Reads all sources and folds their segments, after those that were folded before. A dialogue that
/// forgets events begins so.
///
/// The symbols are read last, and take the place of those from before. No segment at all, here or
/// before, is a fault (C1).
pub fn load_folded<Rt: Threads + Sync, R: Parted>(
    rt: &Rt,
    alloc: Global,
    setting: Setting,
    mut folded: Folded,
    inputs: &mut [R],
    symbols: Option<&[u8]>,
) -> Result<(Folded, Added), Refused>
    requires ready { AreOpen (map R.state inputs.old) }
    ensures { BeginsAs setting (option_copied symbols.entry) folded.analyst
        (map R.state inputs.old) (map R.state inputs.new) result }
{
    check_workers(setting.workers)?;
    let before = folded.number();
    let (taken, far) = take_all(rt, alloc, setting, &mut folded, inputs);
    // A fault is reported first: nothing is kept of a dialogue that doesn't begin.
    let taken = taken?;
    far?;
    let added = added_to(alloc, setting.complete, &folded, before, taken)?;
    folded.symbols = symbols_of(alloc, symbols)?;
    Ok((folded, added))
}

/// Reads sources one after another and folds their segments as they come, after those that were
/// folded before. Several workers read about 32 MB each, fold if much is held, and read on.
///
/// Each source is read to its end, even after an unfit segment, whose fault is reported only if no
/// source has a fault of its own. Segments taken before a fault stay taken: a mended source can be
/// read again, and each segment counts once. Places of segments are counted within these sources.
///
/// If memory is refused while the segments before a source's fault are folded, out of memory is
/// reported in place of that fault.
pub fn fold<Rt: Threads + Sync, R: Parted>(
    rt: &Rt,
    alloc: Global,
    setting: Setting,
    folded: &mut Folded,
    inputs: &mut [R],
) -> Result<Added, Refused>
    requires ready { AreOpen (map R.state inputs.old) }
    ensures { FoldsAs setting (map R.state inputs.old) (map R.state inputs.new)
        folded.old folded.new result }
{
    check_workers(setting.workers)?;
    let before = folded.number();
    let (taken, far) = take_all(rt, alloc, setting, folded, inputs);
    // Refused memory is reported first: any other fault says that all that was taken is folded.
    far?;
    let taken = taken?;
    let added = added_to(alloc, setting.complete, folded, before, taken)?;
    Ok(added)
}

/// What a reading added to the `before` segments that were folded earlier. No segment at all is a
/// fault (C1).
fn added_to(
    alloc: Global,
    complete: bool,
    folded: &Folded,
    before: u64,
    taken: Taken,
) -> Result<Added, RunFault>
    ensures ok { IfOk result (IsAddedToFolded complete folded.now.analyst before taken.segments
        taken.cuts.items) }
    ensures err { IfErr result (IsNotAdded complete taken.cuts.items folded.now.analyst) }
{
    let Some(analyst) = &folded.analyst else {
        return Err(RunFault::Case(CaseFault::Empty));
    };
    let coverage = coverage_of(alloc, complete, analyst, &taken.cuts)?;
    Ok(Added {
        segments: taken.segments,
        new: analyst.taken().saturating_sub(before),
        coverage,
        cut: cut_inputs(&taken.cuts),
    })
}

/// The symbols of a table, or the fault of its bytes.
fn symbols_of(alloc: Global, symbols: Option<&[u8]>) -> Result<Symbols, RunFault>
    ensures ok { IfOk result (HasSymbols (option_copied symbols.entry)) }
    ensures err { IfErr result (IsSymbolsFault (option_copied symbols.entry)) }
{
    let symbols = read_symbols(alloc, symbols)?;
    Ok(symbols)
}

/// How much of its trace an analyst has. One that isn't complete is refused where a complete trace is
/// asked for.
fn coverage_of(
    alloc: Global,
    complete: bool,
    analyst: &Analyst<Global>,
    cuts: &[CutEnd],
) -> Result<Coverage, RunFault>
    ensures ok { IfOk result (λ coverage. (segments : List Content) (T : Trace)
        → AreFolded (Some analyst.now) segments → IsCollectionOf segments T
        → IsCoverage T coverage × (complete ≡ true → IsComplete T cuts.now)) }
    ensures err { IfErr result (IsMissingOf complete cuts.now analyst.now) }
{
    let missed = Missed::of_analyst(alloc, analyst)?;
    check_gaps(complete, None, &missed, cuts)?;
    Ok(missed.coverage())
}
