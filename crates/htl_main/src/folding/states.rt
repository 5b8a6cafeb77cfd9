//! Saved states of what was folded: as bytes, and merged again.

ghost use Rattle.std.specs.Prelude.{◌≡◌, ◌≢◌, IfErr, IfOk, List, OnOk, Some, is_some, true};
ghost use Rattle.std.specs.Prelude.{ℕ};
ghost use Rattle.htl_segment.specs.Content.{Content};
ghost use Rattle.htl_segment.specs.Traces.{Trace};
ghost use Rattle.htl_saved.specs.Laws.{IsWantOfMemory};
ghost use Rattle.htl_saved.specs.Loads.{IsLoaded, LoadRefused};
ghost use Rattle.htl_main.specs.Asked.{IsUnasked};
ghost use Rattle.htl_main.specs.Coverages.{IsCoverage};
ghost use Rattle.htl_main.specs.Folding.{AreFolded, IsCollectionOf};
ghost use Rattle.htl_main.specs.Merging.{IsAbsorbed, IsLoadFault, IsNotAbsorbed, of_merge};
ghost use Rattle.htl_main.specs.SavedStates.{IsStateOf, IsStateOfFolded, IsUnsaved, MergesAs};

use crate::coverage::{Coverage, Missed};
use crate::folding::Folded;
use crate::loading::Added;
use htl_analyst::{Analyst, MergeFault, RestoreFault};
use htl_case::CaseFault;
use htl_command::Setting;
use htl_inputs::RunFault;
use htl_saved::{LoadFault, SaveFault, load, save};
use htl_state::{Fault, StateError};
use std::alloc::Global;

/// The state of what was folded, as bytes in the format HLA1. Before the first segment there is none
/// (C1).
pub fn state_bytes(alloc: Global, folded: &Folded) -> Result<Vec<u8>, RunFault>
    ensures saved { IfOk result (λ bytes. IsStateOfFolded folded.now bytes.items) }
    ensures err { IfErr result (IsUnsaved folded.now.analyst) }
{
    let Some(analyst) = &folded.analyst else {
        return Err(RunFault::Case(CaseFault::Empty));
    };
    match save(alloc, analyst) {
        Ok(bytes) => Ok(bytes),
        Err(SaveFault::Stacks) => Err(RunFault::StateStacks),
        Err(SaveFault::NoMemory) => Err(RunFault::Memory),
    }
}

/// Merges the state that the bytes are into what was folded, and folds all that can be folded then.
/// Of a key that both sides have folded the contents aren't compared, nor are sequences of the two
/// sides: the states have to be of one trace.
///
/// Refused bytes change nothing. The faults of a case say place 0. Where a complete trace is asked
/// for, a gap is reported of what is merged, which stays.
pub fn merge_state(
    alloc: Global,
    setting: Setting,
    folded: &mut Folded,
    bytes: &[u8],
) -> Result<Added, RunFault>
    ensures { MergesAs setting bytes.now folded.old folded.new result }
{
    let other = load_state(alloc, bytes)?;
    let segments = other.taken();
    let before = folded.number();
    absorb(folded, other)?;
    let coverage = coverage_of_all(alloc, setting.complete, folded)?;
    Ok(Added {
        segments,
        new: folded.number().saturating_sub(before),
        coverage,
        cut: None,
    })
}

/// The analyst whose state the bytes are.
fn load_state(alloc: Global, bytes: &[u8]) -> Result<Analyst<Global>, RunFault>
    ensures loaded { IfOk result (λ a. IsLoaded bytes.now a) }
    ensures told { IfOk result (λ a. (told : List Content) → IsStateOf bytes.now told
        → AreFolded (Some a) told) }
    ensures err { IfErr result (IsLoadFault bytes.now) }
    // A state is refused only where memory is.
    ensures memory { IfErr result (λ fault. (told : List Content) → IsStateOf bytes.now told
        → fault ≡ RunFault.Memory) }
{
    // For the proof: bytes in memory are few enough for a number of eight bytes.
    let _length = bytes.len();
    match load(alloc, bytes) {
        Ok(analyst) => Ok(analyst),
        Err(fault) => Err(load_fault(fault)),
    }
}

/// Why bytes aren't loaded, which are the state of a line. A state of the format has processors, and
/// not too many.
fn load_fault(fault: LoadFault) -> RunFault
    requires { fault ≢ LoadFault.Bounds RestoreFault.Processors }
    ensures fault { (bytes : List ℕ) → LoadRefused bytes fault → IsLoadFault bytes result }
    ensures memory { IsWantOfMemory fault → result ≡ RunFault.Memory }
{
    match fault {
        LoadFault::Format(
            StateError {
                fault: Fault::NoMemory,
                ..
            },
        ) => RunFault::Memory,
        LoadFault::Format(StateError { fault, offset }) => RunFault::State {
            state: 0,
            offset,
            fault,
        },
        LoadFault::Bounds(RestoreFault::Counts(processor) | RestoreFault::Events(processor)) => {
            RunFault::Unbounded {
                state: 0,
                processor,
            }
        }
        LoadFault::Bounds(RestoreFault::NoMemory) => RunFault::Memory,
        LoadFault::Bounds(RestoreFault::Processors) => unreachable!(),
    }
}

/// Merges another analyst into what was folded, and folds all that can be folded then. A refused one
/// changes nothing.
fn absorb(folded: &mut Folded, other: Analyst<Global>) -> Result<(), RunFault>
    ensures ok { OnOk result (IsAbsorbed folded.old.analyst other folded.new.analyst) }
    ensures err { IfErr result (IsNotAbsorbed folded.old.analyst other folded.new.analyst) }
    ensures symbols { folded.new.symbols ≡ folded.old.symbols }
{
    let Some(analyst) = &mut folded.analyst else {
        folded.analyst = Some(compacted(other)?);
        return Ok(());
    };
    if let Err((fault, _)) = analyst.absorb(other) {
        return Err(merge_fault(fault));
    }
    analyst.compact()?;
    Ok(())
}

/// An analyst, once it has folded all that it can.
fn compacted(mut other: Analyst<Global>) -> Result<Analyst<Global>, RunFault>
    ensures ok { IfOk result (λ after. (segments : List Content)
        → AreFolded (Some other) segments → AreFolded (Some after) segments) }
    ensures err { IfErr result (λ fault. fault ≡ RunFault.Memory) }
{
    other.compact()?;
    Ok(other)
}

/// Why analysts aren't merged, as the fault of a case whose segments are in place 0.
fn merge_fault(fault: MergeFault) -> RunFault
    ensures { result ≡ of_merge fault }
{
    match fault {
        MergeFault::OtherTrace => RunFault::Case(CaseFault::OtherTrace(0)),
        MergeFault::OtherProcessors => RunFault::Case(CaseFault::OtherProcessors(0)),
        MergeFault::Conflict(processor, number) => {
            RunFault::Case(CaseFault::TwoContents(processor, number))
        }
        MergeFault::NoMemory => RunFault::Memory,
    }
}

/// How much of its trace what was folded has. Where a complete trace is asked for, the least missing
/// key is reported.
fn coverage_of_all(alloc: Global, complete: bool, folded: &Folded) -> Result<Coverage, RunFault>
    requires { is_some folded.now.analyst ≡ true }
    ensures ok { IfOk result (λ coverage. (segments : List Content) (T : Trace)
        → AreFolded folded.now.analyst segments → IsCollectionOf segments T
        → IsCoverage T coverage) }
    ensures err { IfErr result (IsUnasked complete folded.now.analyst) }
{
    let Some(analyst) = &folded.analyst else {
        unreachable!();
    };
    let missed = Missed::of_analyst(alloc, analyst)?;
    match missed.least(&[]) {
        Some((processor, number)) if complete => Err(RunFault::Incomplete { processor, number }),
        _ => Ok(missed.coverage()),
    }
}
